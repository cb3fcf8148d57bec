//! What no clause says: that calls succeed.

use crate::in_memory::recover_in_memory;
use aries::{Options, audit_texts, audit_texts_over};
use checks::{check, check_all};
use page::{Fault, Page};
use redo::OpenGate;
use std::alloc::Global;
use std::test::Fail;
use std::thread::Threads;
use worked_rows::written::{
    Letter, Row, checkpoint_loser, clr_points_past_zero, one_commit, one_loser, page_with,
    prepared_beside_loser, store_of, two_losers,
};

/// A store of one empty page.
fn empty_store(alloc: Global) -> Result<Vec<u8>, Fault> {
    store_of(alloc, 0, &Page::empty(0))
}

/// The store after one commit: "a" in slot 0, PageLSN 1.
fn store_with_a(alloc: Global) -> Result<Vec<u8>, Fault> {
    store_of(alloc, 0, &page_with(1, Some(b'a'), None))
}

#[test]
fn recovers_one_commit(rt: HostRuntime) -> Result<(), Fail> {
    let alloc = rt.alloc();
    let log = one_commit(alloc, 0)?.bytes;
    let store = empty_store(alloc)?;
    let after = store_with_a(alloc)?;
    let options = Options {
        workers: 4,
        parts: 16,
    };
    let (new_log, new_store, report) = recover_in_memory(
        &rt, alloc, &log, &store, &options, &OpenGate,
    )?;
    check_all(&[
        (new_log.as_slice() == log.as_slice(), "log"),
        (new_store.as_slice() == after.as_slice(), "store"),
        (report.records == 2, "records"),
        (
            report.redo_from == 1 && report.redone == 1,
            "what is redone",
        ),
        (report.pages == 1, "pages"),
    ])
}

/// Two workers, two parts.
const TWO: Options = Options {
    workers: 2,
    parts: 2,
};

/// The result of a recovery, besides the log and the store that are expected of it.
#[derive(Clone, Copy)]
struct Given {
    is_log: bool,
    is_store: bool,
    records: u64,
    is_left: bool,
    in_doubt: Option<u32>,
}

/// Recovers a log and a store, which must become these.
fn recovered<R: Threads + Sync>(
    rt: &R,
    alloc: Global,
    from: (&[u8], &[u8]),
    log: &[u8],
    store: &[u8],
) -> Result<Given, Fault> {
    let (new_log, new_store, report) = recover_in_memory(
        rt, alloc, from.0, from.1, &TWO, &OpenGate,
    )?;
    Ok(Given {
        is_log: new_log.as_slice() == log,
        is_store: new_store.as_slice() == store,
        records: report.records,
        is_left: report.redone == 0 && report.losers == 0 && report.ended == 0,
        in_doubt: report.in_doubt.first().copied(),
    })
}

/// Restarts a row on an empty page, which must become a page with this letter by this record, and
/// once more on what was made.
fn restart_twice<R: Threads + Sync>(
    rt: &R,
    alloc: Global,
    row: &Row,
    master: u64,
    lsn: u64,
    letter: Letter,
) -> Result<(Given, Given), Fault> {
    let before = store_of(alloc, master, &Page::empty(0))?;
    let after = store_of(alloc, master, &page_with(lsn, letter, None))?;
    let log = row.made.bytes.as_slice();
    let first = recovered(rt, alloc, (&row.given.bytes, &before), log, &after)?;
    let second = recovered(rt, alloc, (log, &after), log, &after)?;
    Ok((first, second))
}

/// Fails a test if a restart did not make what it should, or if one on that does not find this many
/// records, this transaction in doubt, and nothing to do.
fn check_restarts(given: (Given, Given), records: u64, in_doubt: Option<u32>) -> Result<(), Fail> {
    let (first, second) = given;
    check_all(&[
        (first.is_log, "log"),
        (first.is_store, "store"),
        (second.is_log, "log, once more"),
        (second.is_store, "store, once more"),
        (second.records == records && second.is_left, "what is left"),
        (second.in_doubt == in_doubt, "in doubt"),
    ])
}

#[test]
fn restarts_what_a_restart_wrote(rt: HostRuntime) -> Result<(), Fail> {
    let alloc = rt.alloc();
    let given = restart_twice(&rt, alloc, &one_loser(alloc)?, 0, 2, None)?;
    check_restarts(given, 3, None)?;
    let given = restart_twice(&rt, alloc, &two_losers(alloc)?, 0, 7, None)?;
    check_restarts(given, 8, None)?;
    let given = restart_twice(&rt, alloc, &checkpoint_loser(alloc)?, 2, 4, None)?;
    check_restarts(given, 5, None)?;
    let given = restart_twice(&rt, alloc, &prepared_beside_loser(alloc)?, 0, 4, Some(b'a'))?;
    check_restarts(given, 5, Some(1))
}

/// The error of a recovery with these options, if it has one.
fn refusal<R: Threads + Sync>(
    rt: &R,
    alloc: Global,
    log: &[u8],
    store: &[u8],
    options: &Options,
) -> Option<Fault> {
    recover_in_memory(rt, alloc, log, store, options, &OpenGate).err()
}

/// Workers and parts out of their ranges, and the fault.
const REFUSED: [(&str, u32, u32, Fault); 4] = [
    ("0 workers, 16 parts", 0, 16, Fault::BadWorkers),
    ("65 workers, 0 parts", 65, 0, Fault::BadWorkers),
    ("64 workers, 0 parts", 64, 0, Fault::BadParting),
    ("1 workers, 4097 parts", 1, 4097, Fault::BadParting),
];

#[test]
fn refuses_options_out_of_range(rt: HostRuntime) -> Result<(), Fail> {
    let alloc = rt.alloc();
    let log = one_commit(alloc, 0)?.bytes;
    let store = empty_store(alloc)?;
    for (name, workers, parts, fault) in REFUSED {
        let options = Options { workers, parts };
        let refusal = refusal(&rt, alloc, &log, &store, &options);
        check(refusal == Some(fault), name)?;
    }
    Ok(())
}

#[test]
fn texts_are_audited(rt: HostRuntime) -> Result<(), Fail> {
    let alloc = rt.alloc();
    let log = one_commit(alloc, 0)?.bytes;
    let store = empty_store(alloc)?;
    let after = store_with_a(alloc)?;
    let past_zero = clr_points_past_zero(alloc)?.bytes;
    let wrong = Err(Fault::WrongCompensation(2));
    check_all(&[
        (audit_texts(alloc, &log, &store) == Ok(()), "before"),
        (audit_texts(alloc, &log, &after) == Ok(()), "after"),
        (audit_texts(alloc, &past_zero, &store) == wrong, "past zero"),
        (
            audit_texts(alloc, &store, &log) == Err(Fault::BadLogHeader),
            "log",
        ),
        (
            audit_texts(alloc, &log, &log) == Err(Fault::BadStoreHeader),
            "store",
        ),
        (
            audit_texts_over(alloc, &log, &after, &store) == Ok(()),
            "over a base",
        ),
        (
            audit_texts_over(alloc, &log, &store, &after) == Err(Fault::BadBase),
            "base",
        ),
    ])
}
