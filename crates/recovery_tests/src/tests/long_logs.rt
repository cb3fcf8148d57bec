//! Logs that several workers read in two parts.

ghost use Rattle.std.specs.Prelude.{◌≤◌};

use crate::in_memory::recover_in_memory;
use aries::{Options, Report};
use checks::{check, check_all};
use page::{Fault, Page};
use redo::OpenGate;
use std::alloc::Global;
use std::test::Fail;
use std::thread::Threads;
use worked_rows::written::{long_commit, page_with, store_of};

/// How many updates the log has. The first takes 33 bytes, each other one 34, and the commit 25:
/// more than 32 MiB in all.
const UPDATES: u64 = 990_000;

/// Where the frame of an update begins that is not the first.
const fn offset_of(lsn: u64) -> usize
    requires second { 2 ≤ lsn }
    requires last { lsn ≤ 990000 }
    ensures { result ≤ 33659973 }
{
    8 + 33 + 34 * (lsn as usize - 2)
}

/// Recovers a store of one empty page from a log, with this many workers.
fn recovered<R: Threads + Sync>(
    rt: &R,
    alloc: Global,
    log: &[u8],
    workers: u32,
) -> Result<(Vec<u8>, Vec<u8>, Report), Fault> {
    let store = store_of(alloc, 0, &Page::empty(0))?;
    let options = Options { workers, parts: 4 };
    recover_in_memory(rt, alloc, log, &store, &options, &OpenGate)
}

/// Fails a test if this many workers do not keep all of the log except this many torn bytes.
fn check_recovered<R: Threads + Sync>(
    rt: &R,
    alloc: Global,
    log: &[u8],
    torn: usize,
    workers: u32,
) -> Result<(), Fail> {
    let after = store_of(alloc, 0, &page_with(UPDATES, Some(b'b'), None))?;
    let (new_log, new_store, report) = recovered(rt, alloc, log, workers)?;
    let kept = &log[..log.len().saturating_sub(torn)];
    check_all(&[
        (new_log.as_slice() == kept, "log"),
        (new_store.as_slice() == after.as_slice(), "store"),
        (report.records == UPDATES + 1, "records"),
        (report.torn == torn as u64, "torn"),
        (report.redone == UPDATES, "redone"),
    ])
}

#[test]
fn long_logs_are_kept(rt: HostRuntime) -> Result<(), Fail> {
    let alloc = rt.alloc();
    let log = long_commit(alloc, UPDATES)?.bytes;
    for workers in 1..=3 {
        check_recovered(&rt, alloc, &log, 0, workers)?;
    }
    Ok(())
}

#[test]
fn torn_tails_of_long_logs_are_not(rt: HostRuntime) -> Result<(), Fail> {
    let alloc = rt.alloc();
    let mut log = long_commit(alloc, UPDATES)?.bytes;
    log.extend_from_slice(b"\x00\x00\x00\x19\x03")?;
    for workers in 1..=3 {
        check_recovered(&rt, alloc, &log, 5, workers)?;
    }
    Ok(())
}

/// The error of a log with this many workers, if it has one.
fn refusal<R: Threads + Sync>(rt: &R, alloc: Global, log: &[u8], workers: u32) -> Option<Fault> {
    recovered(rt, alloc, log, workers).err()
}

#[test]
fn faults_of_long_logs_are_told(rt: HostRuntime) -> Result<(), Fail> {
    let alloc = rt.alloc();
    for (name, offset) in [
        ("the first part", offset_of(200_000)),
        ("the second", offset_of(800_000)),
        ("the last update", offset_of(UPDATES)),
    ] {
        let mut log = long_commit(alloc, UPDATES)?.bytes;
        if let Some(kind) = log.get_mut(offset.saturating_add(4)) {
            *kind = 9;
        }
        let fault = Some(Fault::BadRecord(offset as u64));
        for workers in 1..=3 {
            check(refusal(&rt, alloc, &log, workers) == fault, name)?;
        }
    }
    Ok(())
}
