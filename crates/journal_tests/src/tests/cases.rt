//! Cases worked by hand: what is refused, and the frames that a journal gives.

use checks::{check, check_all};
use journal::{Journal, Refusal};
use page::{Fault, Page, Store, Value, decode_store, encode_page, store_header};
use std::alloc::Global;
use std::test::Fail;
use wal::{LARGEST_BASE, LogStart, plain_header, read_log};

/// How many pages there are.
const COUNT: u32 = 3;

/// What a test fails with where the journal refused what it has to accept.
fn fault_of(refusal: Refusal) -> Fault {
    let _ = refusal;
    Fault::NoResource
}

/// A store of empty pages with this master.
fn empty_store(alloc: Global, master: u64) -> Result<Store, Fault> {
    let mut bytes = Vec::from_slice(alloc, &store_header(COUNT, master))?;
    for number in 0..COUNT {
        bytes.extend_from_slice(&encode_page(&Page::empty(number)))?;
    }
    decode_store(alloc, &bytes)
}

/// The bytes of a page of a journal.
fn image_of(journal: &Journal, number: u32) -> [u8; 1024] {
    match journal.page(number) {
        Some(page) => encode_page(&page),
        None => encode_page(&Page::empty(number)),
    }
}

/// A store of the pages of a journal as they are now.
fn store_of(alloc: Global, journal: &Journal) -> Result<Store, Fault> {
    let mut bytes = Vec::from_slice(alloc, &store_header(COUNT, 0))?;
    for number in 0..COUNT {
        bytes.extend_from_slice(&image_of(journal, number))?;
    }
    decode_store(alloc, &bytes)
}

/// A journal of a new log over empty pages.
fn new_journal(alloc: Global) -> Result<Journal, Fault> {
    let store = empty_store(alloc, 0)?;
    Journal::new(alloc, LogStart::Version1, &store).map_err(fault_of)
}

/// Why a page may not be written. None if it may.
fn unwritten(journal: &Journal, number: u32) -> Option<Refusal> {
    match journal.page_to_write(number) {
        Ok(_) => None,
        Err(refusal) => Some(refusal),
    }
}

/// Why a journal is not opened.
fn refused(opened: Result<Journal, Refusal>) -> Option<Refusal> {
    opened.err()
}

#[test]
fn cancels_what_has_no_record(rt: HostRuntime) -> Result<(), Fail> {
    let mut journal = new_journal(rt.alloc())?;
    let first = journal.begin().map_err(fault_of)?;
    let canceled = journal.cancel(first).is_ok();
    let left = journal.unfinished().is_empty();
    let again = journal.cancel(first).err();
    let second = journal.begin().map_err(fault_of)?;
    journal
        .update(second, 0, 0, Value::new(b"a"))
        .map_err(fault_of)?;
    check_all(&[
        (canceled, "cancel"),
        (left, "none is unfinished"),
        (again == Some(Refusal::UnknownTransaction), "cancel again"),
        (second != first, "another number"),
        (
            journal.cancel(second).err() == Some(Refusal::HasRecords),
            "cancel of a transaction with an update",
        ),
        (journal.last_lsn() == 1, "one record"),
    ])
}

#[test]
fn begins_two_transactions(rt: HostRuntime) -> Result<(), Fail> {
    let mut journal = new_journal(rt.alloc())?;
    let first = journal.begin().map_err(fault_of)?;
    let second = journal.begin().map_err(fault_of)?;
    check_all(&[
        (second != first, "two numbers"),
        (journal.unfinished().len() == 2, "two transactions"),
    ])
}

#[test]
fn new_refuses_a_master(rt: HostRuntime) -> Result<(), Fail> {
    let store = empty_store(rt.alloc(), 1)?;
    let opened = Journal::new(rt.alloc(), LogStart::Version1, &store);
    check(refused(opened) == Some(Refusal::HasMaster), "master")
}

#[test]
fn new_refuses_too_large_a_base(rt: HostRuntime) -> Result<(), Fail> {
    let store = empty_store(rt.alloc(), 0)?;
    let base = LARGEST_BASE;
    let largest = Journal::new(rt.alloc(), LogStart::Version2 { base }, &store);
    check(largest.is_ok(), "the largest base LSN")?;
    let base = LARGEST_BASE + 1;
    let larger = Journal::new(rt.alloc(), LogStart::Version2 { base }, &store);
    check(refused(larger) == Some(Refusal::LogFull), "a larger one")
}

/// A journal after two transactions, of which the first committed. The first changed page 0, and
/// the second page 1. If `often`, the frames are taken after each record, otherwise at the end.
/// Returns the log's bytes too.
fn two_transactions(alloc: Global, often: bool) -> Result<(Journal, Vec<u8>), Fault> {
    let mut journal = new_journal(alloc)?;
    let mut log = Vec::from_slice(alloc, &plain_header())?;
    for page in 0..2 {
        let tx = journal.begin().map_err(fault_of)?;
        journal
            .update(tx, page, 5, Value::new(b"abc"))
            .map_err(fault_of)?;
        if often {
            log.extend_from_slice(journal.frames())?;
            journal.frames_taken();
        }
        if page == 0 {
            journal.commit(tx).map_err(fault_of)?;
        }
    }
    log.extend_from_slice(journal.frames())?;
    journal.frames_taken();
    Ok((journal, log))
}

#[test]
fn frames_are_the_log(rt: HostRuntime) -> Result<(), Fail> {
    let alloc = rt.alloc();
    let (once, log) = two_transactions(alloc, false)?;
    let (often, same) = two_transactions(alloc, true)?;
    let (records, torn) = read_log(alloc, &log)?;
    check_all(&[
        (log.as_slice() == same.as_slice(), "the same bytes"),
        (torn == 0, "no torn tail"),
        (records.last() == 3, "three records"),
        (once.last_lsn() == 3, "the last LSN"),
        (often.last_lsn() == 3, "the last LSN of the other"),
        (once.frames().is_empty(), "all frames are taken"),
    ])
}

#[test]
fn open_refuses_an_older_page(rt: HostRuntime) -> Result<(), Fail> {
    let alloc = rt.alloc();
    let (journal, bytes) = two_transactions(alloc, false)?;
    let (log, _) = read_log(alloc, &bytes)?;
    let current = store_of(alloc, &journal)?;
    let opened = Journal::open(alloc, &log, &current);
    check(opened.is_ok(), "the newest pages")?;
    let older = empty_store(alloc, 0)?;
    let opened = Journal::open(alloc, &log, &older);
    check(
        refused(opened) == Some(Refusal::PageBehind(0)),
        "an older page",
    )
}

#[test]
fn a_report_waits_for_its_frames(rt: HostRuntime) -> Result<(), Fail> {
    let mut journal = new_journal(rt.alloc())?;
    let tx = journal.begin().map_err(fault_of)?;
    let lsn = journal
        .update(tx, 0, 0, Value::new(b"a"))
        .map_err(fault_of)?;
    let early = journal.log_written(lsn).err();
    let waits = unwritten(&journal, 0);
    journal.frames_taken();
    let taken = journal.log_written(lsn).is_ok();
    check_all(&[
        (early == Some(Refusal::NoSuchLsn), "a frame not taken"),
        (waits == Some(Refusal::LogNotWritten(lsn)), "page 0 before"),
        (taken, "a frame taken"),
        (unwritten(&journal, 0).is_none(), "page 0 after"),
    ])
}

#[test]
fn a_page_waits_for_its_log(rt: HostRuntime) -> Result<(), Fail> {
    let (mut journal, _) = two_transactions(rt.alloc(), false)?;
    let early = unwritten(&journal, 0);
    let ahead = journal.log_written(4).err();
    let written = journal.log_written(1).is_ok();
    check_all(&[
        (early == Some(Refusal::LogNotWritten(1)), "too early"),
        (ahead == Some(Refusal::NoSuchLsn), "an LSN above the last"),
        (written, "the log is written"),
        (unwritten(&journal, 0).is_none(), "page 0"),
        (
            unwritten(&journal, 1) == Some(Refusal::LogNotWritten(3)),
            "page 1",
        ),
    ])
}

#[test]
fn a_cell_is_held_until_the_end(rt: HostRuntime) -> Result<(), Fail> {
    let (journal, _) = two_transactions(rt.alloc(), false)?;
    let second = journal.unfinished().first().map(|entry| entry.tx);
    check_all(&[
        (second.is_some(), "the second transaction is unfinished"),
        (journal.holder(0, 5).ok() == Some(None), "after a commit"),
        (journal.holder(1, 5).ok() == Some(second), "after an update"),
        (journal.holder(1, 4).ok() == Some(None), "another cell"),
        (
            journal.holder(COUNT, 0).err() == Some(Refusal::NoSuchPage),
            "no such page",
        ),
        (
            journal.holder(0, 16).err() == Some(Refusal::NoSuchSlot),
            "no such slot",
        ),
    ])
}

#[test]
fn rolls_back_to_a_savepoint(rt: HostRuntime) -> Result<(), Fail> {
    let mut journal = new_journal(rt.alloc())?;
    let tx = journal.begin().map_err(fault_of)?;
    let savepoint = journal
        .update(tx, 0, 0, Value::new(b"a"))
        .map_err(fault_of)?;
    let first = image_of(&journal, 0);
    journal
        .update(tx, 0, 1, Value::new(b"b"))
        .map_err(fault_of)?;
    journal.roll_back_to(tx, savepoint).map_err(fault_of)?;
    let clr = journal.last_lsn();
    let back = image_of(&journal, 0);
    let end = journal.roll_back(tx).map_err(fault_of)?;
    check_all(&[
        (savepoint == 1 && clr == 3, "one CLR"),
        (back[16..] == first[16..], "the slots of the savepoint"),
        (end == 5, "a CLR and an end"),
        (journal.unfinished().is_empty(), "none is unfinished"),
    ])
}
