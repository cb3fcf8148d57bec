//! Logs, stores and options that are refused. Nothing is written then.

use super::{
    Left, OPTIONS, Paces, Worked, begun, is_untouched, left_in_memory, left_of, recovered,
    worked_one_commit, worked_one_loser,
};
use aries::Options;
use checks::{check, check_all, check_at};
use device::{MemorySource, Pace};
use page::{Fault, Page};
use std::alloc::Global;
use std::test::Fail;
use std::thread::Threads;
use worked_rows::ten_pages::ten_updates;
use worked_rows::written::{clr_points_past_zero, page_with, store_of};

/// The fault of a recovery that wrote nothing, if it has one.
fn refusal(left: &Left, bytes: &[u8]) -> Option<Fault> {
    match left.answer {
        Err(fault) if is_untouched(left, bytes) => Some(fault),
        _ => None,
    }
}

/// The fault of these bytes of a log, with the store of a row.
fn log_refusal<R: Threads + Sync>(
    rt: &R,
    alloc: Global,
    worked: &Worked,
    bytes: &[u8],
) -> Result<Option<Fault>, Fail> {
    let left = left_in_memory(rt, alloc, worked, bytes)?;
    Ok(refusal(&left, bytes))
}

/// The fault of a row whose store has these bytes.
fn store_refusal<R: Threads + Sync>(
    rt: &R,
    alloc: Global,
    worked: &mut Worked,
    store: Vec<u8>,
) -> Result<Option<Fault>, Fail> {
    worked.before = store;
    let left = left_in_memory(rt, alloc, worked, &worked.row.given.bytes)?;
    Ok(refusal(&left, &worked.row.given.bytes))
}

/// A store of an empty page whose byte at this place is another one.
fn spoiled_store(alloc: Global, place: usize) -> Result<Vec<u8>, Fail> {
    let mut store = store_of(alloc, 0, &Page::empty(0))?;
    if let Some(byte) = store.get_mut(place) {
        *byte ^= 1;
    }
    Ok(store)
}

/// The magic, the page count, a reserved byte, and the number of the page.
#[test]
fn spoiled_stores(rt: HostRuntime) -> Result<(), Fail> {
    let alloc = rt.alloc();
    let mut worked = worked_one_loser(alloc)?;
    for (name, place, fault) in [
        ("magic", 7, Fault::BadStoreHeader),
        ("no page", 11, Fault::BadStoreHeader),
        ("257 pages", 10, Fault::StoreSize),
        ("reserved", 15, Fault::BadStoreHeader),
        ("number", 27, Fault::BadPage(0)),
    ] {
        let store = spoiled_store(alloc, place)?;
        let refused = store_refusal(&rt, alloc, &mut worked, store)?;
        check(refused == Some(fault), name)?;
    }
    Ok(())
}

/// A store with a spoiled header is read to its end, and its device fails at each read: 4 of the
/// header, 147 of the page, and one that finds the end.
#[test]
fn a_spoiled_store_fails_at_each_read(rt: HostRuntime) -> Result<(), Fail> {
    let alloc = rt.alloc();
    let mut worked = worked_one_loser(alloc)?;
    worked.before = spoiled_store(alloc, 7)?;
    let bytes = worked.row.given.bytes.as_slice();
    for call in 1..154u32 {
        let paces = Paces {
            store_source: Pace::failing(7, call),
            ..Paces::fast()
        };
        let left = left_of(&rt, alloc, &worked, bytes, &paces)?;
        let fault = match call {
            153 => Fault::BadStoreHeader,
            _ => Fault::ReadStore,
        };
        let is_refused = refusal(&left, bytes) == Some(fault);
        check_at(call as usize, is_refused, "the fault of call")?;
    }
    Ok(())
}

#[test]
fn stores_of_another_size(rt: HostRuntime) -> Result<(), Fail> {
    let alloc = rt.alloc();
    let mut worked = worked_one_loser(alloc)?;
    for (name, length, fault) in [
        ("no bytes", 0, Fault::BadStoreHeader),
        ("a part of a header", 23, Fault::BadStoreHeader),
        ("a header", 24, Fault::StoreSize),
        ("a byte less", 1047, Fault::StoreSize),
        ("a byte more", 1049, Fault::StoreSize),
        ("more than a piece", 24 + 66 * 1024, Fault::StoreSize),
    ] {
        let mut store = store_of(alloc, 0, &Page::empty(0))?;
        store.resize(length, 0)?;
        let refused = store_refusal(&rt, alloc, &mut worked, store)?;
        check(refused == Some(fault), name)?;
    }
    Ok(())
}

/// The log of one loser: the header has 8 bytes, and then comes the only frame.
#[test]
fn spoiled_logs_with_good_and_bad_stores(rt: HostRuntime) -> Result<(), Fail> {
    let alloc = rt.alloc();
    let mut worked = worked_one_loser(alloc)?;
    for store in [
        store_of(alloc, 0, &Page::empty(0))?,
        spoiled_store(alloc, 7)?,
    ] {
        worked.before = store;
        for (name, place, fault) in [
            ("magic", 7, Fault::BadLogHeader),
            ("length", 8, Fault::BadLength(8)),
            ("kind", 12, Fault::BadRecord(8)),
            ("LSN", 20, Fault::BadLsn(8)),
        ] {
            let mut bytes = worked.row.given.bytes.clone()?;
            if let Some(byte) = bytes.get_mut(place) {
                *byte = 99;
            }
            let refused = log_refusal(&rt, alloc, &worked, &bytes)?;
            check(refused == Some(fault), name)?;
        }
    }
    Ok(())
}

/// A good log and a good store that do not belong to each other: the faults of a restart.
#[test]
fn restarts_that_are_refused(rt: HostRuntime) -> Result<(), Fail> {
    let alloc = rt.alloc();
    let mut worked = worked_one_loser(alloc)?;
    let missing = log_refusal(&rt, alloc, &worked, &ten_updates(alloc)?)?;
    let broken = log_refusal(&rt, alloc, &worked, &clr_points_past_zero(alloc)?.bytes)?;
    let ahead = store_of(alloc, 0, &page_with(2, None, None))?;
    let ahead = store_refusal(&rt, alloc, &mut worked, ahead)?;
    let master = store_of(alloc, 1, &Page::empty(0))?;
    let master = store_refusal(&rt, alloc, &mut worked, master)?;
    check_all(&[
        (missing == Some(Fault::NoSuchPage(2)), "a missing page"),
        (broken == Some(Fault::BrokenChain(2)), "a broken chain"),
        (ahead == Some(Fault::PageAheadOfLog(0)), "a page ahead"),
        (master == Some(Fault::BadMaster), "a master"),
    ])
}

/// The fault of a row with these options.
fn options_refusal<R: Threads + Sync>(
    rt: &R,
    alloc: Global,
    worked: &Worked,
    workers: u32,
    parts: u32,
) -> Result<Option<Fault>, Fail> {
    let bytes = worked.row.given.bytes.as_slice();
    let options = Options { workers, parts };
    let mut left = begun(alloc, worked, bytes, &Paces::fast())?;
    let mut log = MemorySource::new(bytes);
    let mut store = MemorySource::new(&worked.before);
    left.answer = recovered(rt, alloc, &mut log, &mut store, &mut left, &options);
    Ok(refusal(&left, bytes))
}

#[test]
fn options_out_of_range_in_place(rt: HostRuntime) -> Result<(), Fail> {
    let alloc = rt.alloc();
    let mut worked = worked_one_commit(alloc)?;
    worked.before = spoiled_store(alloc, 7)?;
    for (name, workers, parts, fault) in [
        ("0 workers", 0, 1, Fault::BadWorkers),
        ("65 workers", 65, 0, Fault::BadWorkers),
        ("0 parts", 1, 0, Fault::BadParting),
        ("4097 parts", 1, 4097, Fault::BadParting),
        (
            "in range",
            OPTIONS.workers,
            OPTIONS.parts,
            Fault::BadStoreHeader,
        ),
    ] {
        let refused = options_refusal(&rt, alloc, &worked, workers, parts)?;
        check(refused == Some(fault), name)?;
    }
    Ok(())
}
