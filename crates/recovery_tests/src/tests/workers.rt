//! Logs of some MiB that are read in pieces, by any number of workers.

ghost use Rattle.std.specs.Prelude.{◌≤◌};

use crate::in_memory::recover_in_memory;
use aries::{CopiedLog, Options, Report, recover_in_pieces, report_text};
use checks::{check, check_at};
use device::{MemorySink, MemorySource, Pace, Share, SlowSource};
use page::{Fault, Value};
use redo::OpenGate;
use std::alloc::Global;
use std::test::Fail;
use std::thread::Threads;
use wal::Record;
use worked_rows::ten_pages::ten_pages;
use worked_rows::written::Text;

/// How many workers there are. Each gets at least 1 MiB of a log, so the last two numbers are more
/// than there is work for.
const WORKERS: [u32; 6] = [1, 2, 3, 4, 8, 64];

/// The log has a transaction that commits for each number from 10 up to this one. Each takes 153
/// bytes, or 105 if it is the first on its page: more than 4 MiB in all.
const TRANSACTIONS: u32 = 29_000;

/// The beginning of a frame, which a crash left.
const TORN: [u8; 5] = [0, 0, 0, 25, 3];

/// What a transaction puts into slot 0 of its page: 48 bytes, other ones than the tenth before it.
fn value_of(tx: u32) -> Option<Value> {
    let letter = match tx / 10 % 3 {
        0 => b'a',
        1 => b'b',
        _ => b'c',
    };
    Value::new(&[letter; 48])
}

/// What was there before.
fn value_before(tx: u32) -> Option<Value> {
    if tx < 20 {
        return None;
    }
    value_of(tx - 10)
}

/// Appends an update of an empty slot to "x".
fn put_x(text: &mut Text, tx: u32, prev: u64, page: u32, slot: u8) -> Result<(), Fault> {
    text.put(&Record::Update {
        tx,
        prev,
        page,
        slot,
        before: None,
        after: Value::new(b"x"),
    })
}

/// Appends a transaction that changes one of ten pages and commits.
fn put_transaction(text: &mut Text, tx: u32) -> Result<(), Fault> {
    text.put(&Record::Update {
        tx,
        prev: 0,
        page: tx % 10,
        slot: 0,
        before: value_before(tx),
        after: value_of(tx),
    })?;
    text.commit(tx, text.lsn)
}

/// The bytes of a log of ten pages without a checkpoint. Transaction 1 begins with the first record,
/// has the last one, and does not finish. Transaction 2 is in doubt from the fourth record on. The
/// others commit.
fn long_log(alloc: Global) -> Result<Vec<u8>, Fault> {
    let mut text = Text::new(alloc)?;
    put_x(&mut text, 1, 0, 3, 1)?;
    put_x(&mut text, 2, 0, 5, 1)?;
    put_x(&mut text, 2, 2, 6, 1)?;
    text.prepare(2, 3)?;
    for tx in 10..TRANSACTIONS {
        put_transaction(&mut text, tx)?;
    }
    put_x(&mut text, 1, 1, 7, 2)?;
    text.bytes.extend_from_slice(&TORN)?;
    Ok(text.bytes)
}

/// Where the frame of a transaction's update begins, if it is not the first on its page: after the
/// header, three updates of 33 bytes, the prepare of 25 and the first ten transactions.
const fn offset_of(tx: u32) -> usize
    requires second { 20 ≤ tx }
    requires last { tx ≤ 29000 }
    ensures { result ≤ 4435122 }
{
    8 + 3 * 33 + 25 + 10 * 105 + 153 * (tx as usize - 20)
}

/// The new log, the new store and the report of a recovery.
type Made = (Vec<u8>, Vec<u8>, Report);

/// Recovers ten empty pages from a log that is read in pieces, by this many workers.
fn recovered_from<R: Threads + Sync, L: Share>(
    rt: &R,
    alloc: Global,
    log: &mut L,
    workers: u32,
) -> Result<Made, Fault> {
    let store = ten_pages(alloc)?;
    let mut new_log = CopiedLog {
        sink: MemorySink::new(alloc),
    };
    let mut out_store = MemorySink::new(alloc);
    let report = recover_in_pieces(
        rt,
        alloc,
        log,
        &mut MemorySource::new(&store),
        &mut new_log,
        &mut out_store,
        &Options { workers, parts: 1 },
    )?;
    let new_log = Vec::from_slice(alloc, new_log.sink.bytes())?;
    let new_store = Vec::from_slice(alloc, out_store.bytes())?;
    Ok((new_log, new_store, report))
}

/// The same from these bytes.
fn recovered<R: Threads + Sync>(
    rt: &R,
    alloc: Global,
    log: &[u8],
    workers: u32,
) -> Result<Made, Fault> {
    recovered_from(rt, alloc, &mut MemorySource::new(log), workers)
}

/// Whether two recoveries made the same log and store, and report the same.
fn are_same(alloc: Global, one: &Made, other: &Made) -> Result<bool, Fault> {
    let (log, store, report) = one;
    let (other_log, other_store, other_report) = other;
    let is_told = report_text(alloc, report)? == report_text(alloc, other_report)?;
    Ok(is_told && log == other_log && store == other_store)
}

/// What any number of workers makes is what a recovery in memory makes.
#[test]
fn any_number_of_workers_makes_the_same(rt: HostRuntime) -> Result<(), Fail> {
    let alloc = rt.alloc();
    let log = long_log(alloc)?;
    let store = ten_pages(alloc)?;
    let options = Options {
        workers: 2,
        parts: 3,
    };
    let made = recover_in_memory(&rt, alloc, &log, &store, &options, &OpenGate)?;
    check(made.2.in_doubt.as_slice() == [2].as_slice(), "in doubt")?;
    check(made.2.losers == 1 && made.2.compensated == 2, "the loser")?;
    for workers in WORKERS {
        let in_pieces = recovered(&rt, alloc, &log, workers)?;
        let is_same = are_same(alloc, &made, &in_pieces)?;
        check_at(workers as usize, is_same, "workers:")?;
    }
    Ok(())
}

/// Two records have a kind that there is not, one in the third MiB and one in the fourth.
#[test]
fn any_number_of_workers_finds_the_first_fault(rt: HostRuntime) -> Result<(), Fail> {
    let alloc = rt.alloc();
    let mut log = long_log(alloc)?;
    let first = offset_of(17_000);
    for offset in [first, offset_of(24_000)] {
        if let Some(kind) = log.get_mut(offset.saturating_add(4)) {
            *kind = 9;
        }
    }
    for workers in WORKERS {
        let found = recovered(&rt, alloc, &log, workers).err();
        let is_first = found == Some(Fault::BadRecord(first as u64));
        check_at(workers as usize, is_first, "workers:")?;
    }
    Ok(())
}

/// If a call fails in the thread of a worker, the caller reads that stretch.
#[test]
fn a_failure_in_a_thread_changes_nothing(rt: HostRuntime) -> Result<(), Fail> {
    let alloc = rt.alloc();
    let log = long_log(alloc)?;
    let all = Pace::of_step(log.len());
    let made = recovered(&rt, alloc, &log, 1)?;
    for call in [1, 2, 5, 9, 14, 19] {
        let mut source = SlowSource::sharing(&log, all, Pace::failing(log.len(), call));
        let in_pieces = recovered_from(&rt, alloc, &mut source, 3)?;
        let is_same = are_same(alloc, &made, &in_pieces)?;
        check_at(call as usize, is_same, "call:")?;
    }
    Ok(())
}

/// A call that fails in the thread of the caller ends the recovery: the first reads the header, and
/// the next two guess where stretches begin.
#[test]
fn a_failure_of_the_caller_is_returned(rt: HostRuntime) -> Result<(), Fail> {
    let alloc = rt.alloc();
    let log = long_log(alloc)?;
    let all = Pace::of_step(log.len());
    for call in [1, 2, 3] {
        let mut source = SlowSource::sharing(&log, Pace::failing(log.len(), call), all);
        let found = recovered_from(&rt, alloc, &mut source, 3).err();
        check_at(call as usize, found == Some(Fault::ReadLog), "call:")?;
    }
    Ok(())
}
