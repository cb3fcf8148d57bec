//! Logs that several threads read: what they read is what one reads.

use checks::check;
use page::{Fault, Value};
use std::alloc::Global;
use std::test::Fail;
use std::thread::Threads;
use wal::{Log, Record, read_log_by, write_frame};

/// How many records the log has, and how many bytes each takes. Four threads read it, and all
/// shares but the first begin in the middle of a frame.
pub const RECORDS: u64 = 5_201;

pub const FRAME_BYTES: usize = 53;

/// The frame of a checkpoint begin with LSN 7: bytes that a value may hold.
const FRAME_IN_A_VALUE: &[u8] = b"\x00\x00\x00\x09\x06\x00\x00\x00\x00\x00\x00\x00\x07";

/// A log of updates, each of which puts its LSN into a cell that held this value.
pub fn updates(alloc: Global, held: &[u8]) -> Result<Vec<u8>, Fault> {
    let mut log = Vec::from_slice(alloc, b"ARIESLG1")?;
    for prev in 0..RECORDS {
        let lsn = prev + 1;
        let logged = Record::Update {
            tx: 1,
            prev,
            page: 0,
            slot: 0,
            before: Value::new(held),
            after: Value::new(&lsn.to_be_bytes()),
        };
        write_frame(&logged, lsn, &mut log)?;
    }
    Ok(log)
}

/// Whether these are the first records of the log, each at its LSN.
pub fn are_at_their_lsns(log: &Log, records: u64) -> bool {
    for prev in 0..records {
        let is_lsn = match log.image(prev + 1) {
            Some(image) => image.as_slice() == (prev + 1).to_be_bytes().as_slice(),
            None => false,
        };
        if !is_lsn {
            return false;
        }
    }
    log.len() == records
}

/// Whether this many threads read all records, each at its LSN, and this many bytes of a torn tail.
fn are_read<R: Threads + Sync>(
    rt: &R,
    alloc: Global,
    bytes: &[u8],
    threads: usize,
    records: u64,
    torn_bytes: usize,
) -> Result<bool, Fault> {
    let (log, torn) = read_log_by(rt, alloc, bytes, threads)?;
    Ok(are_at_their_lsns(&log, records) && torn == torn_bytes)
}

#[test]
fn threads_read_what_one_reads(rt: HostRuntime) -> Result<(), Fail> {
    let alloc = rt.alloc();
    let log = updates(alloc, b"thirteen byte")?;
    for (name, threads) in [
        ("0 threads", 0),
        ("1", 1),
        ("2", 2),
        ("3", 3),
        ("4", 4),
        ("5", 5),
    ] {
        check(are_read(&rt, alloc, &log, threads, RECORDS, 0)?, name)?;
    }
    Ok(())
}

#[test]
fn frames_in_values_are_no_frames(rt: HostRuntime) -> Result<(), Fail> {
    let alloc = rt.alloc();
    let log = updates(alloc, FRAME_IN_A_VALUE)?;
    for (name, threads) in [("1 thread", 1), ("2", 2), ("3", 3), ("4", 4)] {
        check(are_read(&rt, alloc, &log, threads, RECORDS, 0)?, name)?;
    }
    Ok(())
}

#[test]
fn torn_tail_of_a_long_log(rt: HostRuntime) -> Result<(), Fail> {
    let alloc = rt.alloc();
    let log = updates(alloc, b"thirteen byte")?;
    let torn = &log[..log.len().saturating_sub(5)];
    let is_read = are_read(&rt, alloc, torn, 4, RECORDS - 1, FRAME_BYTES - 5)?;
    check(is_read, "a torn tail")
}

#[test]
fn fault_in_the_middle_of_a_long_log(rt: HostRuntime) -> Result<(), Fail> {
    let alloc = rt.alloc();
    let mut log = updates(alloc, b"thirteen byte")?;
    let offset = 8 + 4_000 * FRAME_BYTES;
    if let Some(kind) = log.get_mut(offset + 4) {
        *kind = 9;
    }
    let fault = Some(Fault::BadRecord(offset as u64));
    for (name, threads) in [("1 thread", 1), ("2", 2), ("3", 3), ("4", 4)] {
        check(read_log_by(&rt, alloc, &log, threads).err() == fault, name)?;
    }
    Ok(())
}
