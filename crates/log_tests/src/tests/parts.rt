//! Logs in two parts: reading them has the same result as in one part.

ghost use Rattle.std.specs.Prelude.{◌≤◌};

use super::stretches::{FRAME_BYTES, RECORDS, are_at_their_lsns, updates};
use checks::check;
use page::Fault;
use std::alloc::Global;
use std::test::Fail;
use std::thread::Threads;
use wal::{BASED_HEADER_BYTES, first_frames, read_log, read_log_behind};

/// Where the frame with this LSN begins.
const fn offset_of(lsn: u64) -> usize
    requires first { 1 ≤ lsn }
    requires last { lsn ≤ 5202 }
    ensures { result ≤ 275661 }
{
    8 + FRAME_BYTES * (lsn as usize - 1)
}

/// How many records the log in these two parts has, and how many bytes its torn tail has, read by
/// three threads. The end of the front that is not a whole frame goes before the back.
fn read_in_parts<R: Threads + Sync>(
    rt: &R,
    alloc: Global,
    front: &[u8],
    back: &[u8],
) -> Result<(u64, usize, bool), Fault> {
    if front.len() < BASED_HEADER_BYTES {
        return Err(Fault::BadLogHeader);
    }
    let first = first_frames(rt, alloc, front, 3)?;
    let (whole, rest) = front.split_at(first.end);
    let mut behind = Vec::from_slice(alloc, rest)?;
    behind.extend_from_slice(back)?;
    let (log, torn) = read_log_behind(rt, alloc, whole, first, &behind, 3)?;
    Ok((log.len(), torn, are_at_their_lsns(&log, log.len())))
}

/// The fault of the log in one part.
fn fault_of(alloc: Global, log: &[u8]) -> Option<Fault> {
    match read_log(alloc, log) {
        Ok(_) => None,
        Err(fault) => Some(fault),
    }
}

#[test]
fn parts_are_what_the_whole_is(rt: HostRuntime) -> Result<(), Fail> {
    let alloc = rt.alloc();
    let log = updates(alloc, b"thirteen byte")?;
    for (name, cut) in [
        ("behind the first record", offset_of(2)),
        ("within the second", offset_of(2) + 20),
        ("in the middle", offset_of(2_600)),
        ("within a record", offset_of(2_600) + FRAME_BYTES - 1),
        ("before the last record", offset_of(RECORDS)),
        ("at the end", offset_of(RECORDS + 1)),
    ] {
        let (front, back) = log.split_at(cut.min(log.len()));
        check(
            read_in_parts(&rt, alloc, front, back)? == (RECORDS, 0, true),
            name,
        )?;
    }
    Ok(())
}

#[test]
fn torn_tail_behind_two_parts(rt: HostRuntime) -> Result<(), Fail> {
    let alloc = rt.alloc();
    let log = updates(alloc, b"thirteen byte")?;
    let torn = &log[..log.len().saturating_sub(5)];
    for (name, cut) in [
        ("in the middle", offset_of(2_600)),
        ("within the torn record", offset_of(RECORDS) + 7),
        ("at the end", log.len() - log.len().min(5)),
    ] {
        let (front, back) = torn.split_at(cut.min(torn.len()));
        let read = read_in_parts(&rt, alloc, front, back)?;
        check(read == (RECORDS - 1, FRAME_BYTES - 5, true), name)?;
    }
    Ok(())
}

/// The fault of a log that comes in these two parts, if it is the same as that of the log in one
/// part.
fn fault_of_parts<R: Threads + Sync>(
    rt: &R,
    alloc: Global,
    front: &[u8],
    back: &[u8],
) -> Result<Option<Fault>, Fault> {
    let mut log = Vec::from_slice(alloc, front)?;
    log.extend_from_slice(back)?;
    match read_in_parts(rt, alloc, front, back) {
        Ok(_) => Ok(None),
        Err(fault) if Some(fault) == fault_of(alloc, &log) => Ok(Some(fault)),
        Err(_) => Ok(None),
    }
}

#[test]
fn header_of_two_parts(rt: HostRuntime) -> Result<(), Fail> {
    let alloc = rt.alloc();
    let mut log = updates(alloc, b"thirteen byte")?;
    if let Some(byte) = log.get_mut(3) {
        *byte = 99;
    }
    let (front, back) = log.split_at(offset_of(2_600).min(log.len()));
    let fault = fault_of_parts(&rt, alloc, front, back)?;
    check(fault == Some(Fault::BadLogHeader), "a bad header")
}

#[test]
fn records_where_the_parts_meet(rt: HostRuntime) -> Result<(), Fail> {
    let alloc = rt.alloc();
    let log = updates(alloc, b"thirteen byte")?;
    let (at, after) = (
        offset_of(2_600).min(log.len()),
        offset_of(2_601).min(log.len()),
    );
    let twice = fault_of_parts(&rt, alloc, &log[..after], &log[at..])?;
    check(twice == Some(Fault::BadLsn(after as u64)), "a record twice")?;
    let less = fault_of_parts(&rt, alloc, &log[..at], &log[after..])?;
    check(less == Some(Fault::BadLsn(at as u64)), "a record less")
}

#[test]
fn faults_are_those_of_the_whole(rt: HostRuntime) -> Result<(), Fail> {
    let alloc = rt.alloc();
    for (name, lsn, byte) in [
        ("a length in the front", 1_000, 1),
        ("a kind in the front", 1_000, 4),
        ("an LSN in the front", 1_000, 12),
        ("a length in the back", 4_000, 1),
        ("a kind in the back", 4_000, 4),
        ("an LSN in the back", 4_000, 12),
        ("a length where the parts meet", 2_600, 1),
        ("an LSN where the parts meet", 2_600, 12),
    ] {
        let mut log = updates(alloc, b"thirteen byte")?;
        let place = offset_of(lsn) + byte;
        if place < log.len() {
            log[place] = 99;
        }
        for cut in [offset_of(2_600), offset_of(2_600) + 20] {
            let (front, back) = log.split_at(cut.min(log.len()));
            let fault = match read_in_parts(&rt, alloc, front, back) {
                Ok(_) => None,
                Err(fault) => Some(fault),
            };
            check(fault.is_some() && fault == fault_of(alloc, &log), name)?;
        }
    }
    Ok(())
}
