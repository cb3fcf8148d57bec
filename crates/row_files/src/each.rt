//! The records of a row's log, each looked up by its LSN.

use crate::memory::file_of;
use crate::verdict::Verdict;
use anyhow::Result;
use aries::Fault;
use std::rt::Files;
use wal::{Log, header_bytes, read_log};

/// How many bytes the frames of a log's records take, each record looked up by its LSN; `None` if
/// one of these LSNs has no record.
fn frames_of(log: &Log) -> Option<u64> {
    let mut bytes = 0_u64;
    for lsn in log.base()..log.last() {
        bytes = bytes.wrapping_add(log.get(lsn + 1)?.frame_bytes());
    }
    Some(bytes)
}

/// Whether the header, the records that are looked up and the torn tail are the whole log, and no
/// record is found before the first one or after the last.
fn is_whole(log: &Log, torn: usize, bytes: usize) -> bool {
    let Some(frames) = frames_of(log) else {
        return false;
    };
    let header = header_bytes(log.start()) as u64;
    let found = header.wrapping_add(frames).wrapping_add(torn as u64);
    found == bytes as u64
        && log.get(log.base()).is_none()
        && log.get(log.last().wrapping_add(1)).is_none()
}

/// Whether each record of a row's log is found by its LSN, and nothing else.
pub fn of_each_record<R: Files + AllocGlobal>(rt: &R, row: &str) -> Result<Verdict> {
    let bytes = file_of(rt, row, "log")?;
    match read_log(rt.alloc(), &bytes) {
        Ok((log, torn)) if is_whole(&log, torn, bytes.len()) => Ok(Verdict::Same),
        Ok(_) => Ok(Verdict::AnotherAnswer),
        Err(Fault::NoResource) => Ok(Verdict::NoResource),
        Err(_) => Ok(Verdict::AnotherAnswer),
    }
}
