//! Recovery in place, of a log and a store that are both read in pieces.

mod calls;
mod changing;
mod faults;

use super::{
    OPTIONS, Worked, on_empty_page, worked_one_commit, worked_one_loser, worked_two_losers,
};
use aries::{ContinuedLog, Options, Report, TailFile, recover_in_pieces};
use checks::{check, check_all};
use device::{MemorySource, Pace, Reread, Share, SlowSink, SlowSource};
use page::{Fault, Page, encode_page};
use std::alloc::Global;
use std::test::Fail;
use std::thread::Threads;
use wal::Record;
use worked_rows::written::{
    Row, Text, checkpoint_loser, page_with, prepared_beside_loser, store_of, value,
};

/// Room for the file of a tail.
const TAIL_ROOM: usize = 4096;

/// The beginning of a frame, which a crash left.
const TORN: [u8; 5] = [0, 0, 0, 40, 1];

/// The paces of the five devices of a recovery.
#[derive(Clone, Copy)]
struct Paces {
    log_source: Pace,
    store_source: Pace,
    tail: Pace,
    log: Pace,
    store: Pace,
}

impl Paces {
    /// Five devices of this pace.
    fn all(pace: Pace) -> Paces {
        Paces {
            log_source: pace,
            store_source: pace,
            tail: pace,
            log: pace,
            store: pace,
        }
    }

    /// Devices that pass all they can in each call.
    fn fast() -> Paces {
        Paces::all(Pace::of_step(usize::MAX))
    }
}

/// What a recovery returned, and what it left.
#[derive(Drop)]
struct Left {
    answer: Result<Report, Fault>,
    new: ContinuedLog<SlowSink, SlowSink>,
    store: SlowSink,
}

/// Sinks for the recovery of a row from a log of these bytes, and no report yet.
fn begun(alloc: Global, worked: &Worked, bytes: &[u8], paces: &Paces) -> Result<Left, Fail> {
    let room = bytes.len().max(worked.row.made.bytes.len());
    Ok(Left {
        answer: Err(Fault::NoResource),
        new: ContinuedLog {
            tail: SlowSink::new(alloc, TAIL_ROOM, paces.tail)?,
            log: SlowSink::holding(alloc, bytes, room, paces.log)?,
        },
        store: SlowSink::new(alloc, worked.after.len(), paces.store)?,
    })
}

/// What a recovery of a log and a store returns, and writes to these sinks.
fn recovered<R: Threads + Sync, L: Share, S: Reread>(
    rt: &R,
    alloc: Global,
    log: &mut L,
    store: &mut S,
    left: &mut Left,
    options: &Options,
) -> Result<Report, Fault> {
    recover_in_pieces(
        rt,
        alloc,
        log,
        store,
        &mut left.new,
        &mut left.store,
        options,
    )
}

/// Recovers a row over devices of these paces, from a log of these bytes.
fn left_of<R: Threads + Sync>(
    rt: &R,
    alloc: Global,
    worked: &Worked,
    bytes: &[u8],
    paces: &Paces,
) -> Result<Left, Fail> {
    let mut left = begun(alloc, worked, bytes, paces)?;
    let mut log = SlowSource::new(bytes, paces.log_source);
    let mut store = SlowSource::new(&worked.before, paces.store_source);
    left.answer = recovered(rt, alloc, &mut log, &mut store, &mut left, &OPTIONS);
    Ok(left)
}

/// Recovers a log and a store that are in memory.
fn left_in_memory<R: Threads + Sync>(
    rt: &R,
    alloc: Global,
    worked: &Worked,
    bytes: &[u8],
) -> Result<Left, Fail> {
    let mut left = begun(alloc, worked, bytes, &Paces::fast())?;
    let mut log = MemorySource::new(bytes);
    let mut store = MemorySource::new(&worked.before);
    left.answer = recovered(rt, alloc, &mut log, &mut store, &mut left, &OPTIONS);
    Ok(left)
}

/// The numbers of a report, except those of the torn tail: `records`, `redo_from`, `redone`,
/// `losers`, `compensated`, `ended`, `pages`.
type Numbers = [u64; 7];

/// What a report must say.
#[derive(Clone, Copy)]
struct Expected {
    numbers: Numbers,
    in_doubt: &'static [u32],
}

/// A report with these numbers and nothing in doubt.
fn told(numbers: Numbers) -> Expected {
    Expected {
        numbers,
        in_doubt: &[],
    }
}

/// Whether a report says this, and that this many bytes were torn.
fn is_told(report: &Report, expected: Expected, torn: usize) -> bool {
    let numbers = [
        report.records,
        report.redo_from,
        report.redone,
        report.losers,
        report.compensated,
        report.ended,
        report.pages,
    ];
    numbers == expected.numbers
        && report.in_doubt.as_slice() == expected.in_doubt
        && report.torn == torn as u64
}

/// Whether the log and the new store are the row's, flushed.
fn are_whole(worked: &Worked, left: &Left) -> bool {
    let new_log = worked.row.made.bytes.as_slice();
    let new_store = worked.after.as_slice();
    left.new.log.bytes() == new_log
        && left.new.log.flushed() == new_log
        && left.store.bytes() == new_store
        && left.store.flushed() == new_store
}

/// Whether the log is as it was, and nothing is in the other sinks.
fn is_untouched(left: &Left, bytes: &[u8]) -> bool {
    left.new.log.bytes() == bytes
        && left.new.tail.bytes().is_empty()
        && left.store.bytes().is_empty()
}

/// Whether these bytes are the file of the row's tail for this log.
fn is_tail_file(worked: &Worked, log: &[u8], bytes: &[u8]) -> bool {
    let kept = worked.row.given.bytes.as_slice();
    let Some(file) = TailFile::read(bytes) else {
        return false;
    };
    file.length == log.len() as u64
        && file.kept == kept.len() as u64
        && file.belongs_to(kept)
        && log.strip_prefix(kept).is_some_and(|cut| file.cuts(cut))
        && worked.row.made.bytes.strip_prefix(kept) == Some(file.frames)
}

/// Fails a test if a recovery did not make of a log what its row says.
fn check_left(worked: &Worked, bytes: &[u8], left: &Left, expected: Expected) -> Result<(), Fail> {
    let torn = bytes.len().saturating_sub(worked.row.given.bytes.len());
    let is_answered = match &left.answer {
        Ok(report) => is_told(report, expected, torn),
        Err(_) => false,
    };
    check_all(&[
        (is_answered, "the report"),
        (are_whole(worked, left), "the log and the store"),
        (
            is_tail_file(worked, bytes, left.new.tail.bytes()),
            "the file of the tail",
        ),
    ])
}

/// The log of a row with a torn tail.
fn torn_log(alloc: Global, worked: &Worked) -> Result<Vec<u8>, Fail> {
    let mut bytes = Vec::from_slice(alloc, &worked.row.given.bytes)?;
    bytes.extend_from_slice(&TORN)?;
    Ok(bytes)
}

/// Recovers a row from memory and over slow devices, its log with and without a torn tail.
fn check_row<R: Threads + Sync>(
    rt: &R,
    alloc: Global,
    worked: &Worked,
    expected: Expected,
) -> Result<(), Fail> {
    let torn = torn_log(alloc, worked)?;
    let slow = Paces::all(Pace::of_step(3));
    for bytes in [worked.row.given.bytes.as_slice(), torn.as_slice()] {
        let left = left_in_memory(rt, alloc, worked, bytes)?;
        check_left(worked, bytes, &left, expected)?;
        let left = left_of(rt, alloc, worked, bytes, &slow)?;
        check_left(worked, bytes, &left, expected)?;
    }
    Ok(())
}

#[test]
fn rows_in_place(rt: HostRuntime) -> Result<(), Fail> {
    let alloc = rt.alloc();
    check_row(
        &rt,
        alloc,
        &worked_one_commit(alloc)?,
        told([2, 1, 1, 0, 0, 0, 1]),
    )?;
    check_row(
        &rt,
        alloc,
        &worked_one_loser(alloc)?,
        told([1, 1, 1, 1, 1, 1, 1]),
    )?;
    check_row(
        &rt,
        alloc,
        &worked_two_losers(alloc)?,
        told([3, 1, 3, 2, 3, 2, 1]),
    )
}

/// The file of a tail that was not written to its end is not accepted.
#[test]
fn a_torn_tail_file_is_none(rt: HostRuntime) -> Result<(), Fail> {
    let alloc = rt.alloc();
    let worked = worked_two_losers(alloc)?;
    let left = left_in_memory(&rt, alloc, &worked, &worked.row.given.bytes)?;
    let whole = left.new.tail.bytes();
    for length in 0..whole.len() {
        let (front, _) = whole.split_at(length);
        check(TailFile::read(front).is_none(), "a torn file")?;
    }
    Ok(())
}

/// A row whose store has a master, on a page that was written before the crash.
fn worked_checkpoint(alloc: Global) -> Result<Worked, Fault> {
    Ok(Worked {
        row: checkpoint_loser(alloc)?,
        before: store_of(alloc, 2, &page_with(1, Some(b'a'), None))?,
        after: store_of(alloc, 2, &page_with(4, None, None))?,
    })
}

#[test]
fn a_written_page_and_one_in_doubt(rt: HostRuntime) -> Result<(), Fail> {
    let alloc = rt.alloc();
    check_row(
        &rt,
        alloc,
        &worked_checkpoint(alloc)?,
        told([3, 1, 0, 1, 1, 1, 1]),
    )?;
    let doubtful = prepared_beside_loser(alloc)?;
    check_row(
        &rt,
        alloc,
        &on_empty_page(alloc, doubtful, &page_with(4, Some(b'a'), None))?,
        Expected {
            numbers: [3, 1, 2, 1, 1, 1, 1],
            in_doubt: &[1],
        },
    )
}

/// A store of 130 pages, of which two have this PageLSN and this letter in slot 0. It takes three
/// pieces.
fn wide_store(alloc: Global, changed: &[(u32, u64, u8)]) -> Result<Vec<u8>, Fault> {
    let mut store = Vec::from_slice(
        alloc,
        b"ARIESPG1\x00\x00\x00\x82\x00\x00\x00\x00\x00\x00\x00\x00\x00\x00\x00\x00",
    )?;
    for number in 0..130 {
        let mut page = Page::empty(number);
        for (changed, lsn, letter) in changed {
            if *changed == number {
                page.set(0, value(Some(*letter)), *lsn);
            }
        }
        store.extend_from_slice(&encode_page(&page))?;
    }
    Ok(store)
}

/// The log that puts "a" into page 129 and "b" into page 64, and commits.
fn wide_log(alloc: Global) -> Result<Text, Fault> {
    let mut text = Text::new(alloc)?;
    text.first_update(129)?;
    text.put(&Record::Update {
        tx: 1,
        prev: 1,
        page: 64,
        slot: 0,
        before: None,
        after: value(Some(b'b')),
    })?;
    text.commit(1, 2)?;
    Ok(text)
}

/// A row whose store takes three pieces. The second and the third change.
fn worked_wide(alloc: Global) -> Result<Worked, Fault> {
    Ok(Worked {
        row: Row {
            given: wide_log(alloc)?,
            made: wide_log(alloc)?,
        },
        before: wide_store(alloc, &[])?,
        after: wide_store(alloc, &[(129, 1, b'a'), (64, 2, b'b')])?,
    })
}

#[test]
fn a_store_of_three_pieces(rt: HostRuntime) -> Result<(), Fail> {
    let alloc = rt.alloc();
    let worked = worked_wide(alloc)?;
    let bytes = worked.row.given.bytes.as_slice();
    let left = left_in_memory(&rt, alloc, &worked, bytes)?;
    check_left(&worked, bytes, &left, told([3, 1, 2, 0, 0, 0, 130]))
}
