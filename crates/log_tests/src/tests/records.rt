//! Records of transaction 1 that change no page, and how a log of records is written.

use page::Fault;
use std::alloc::Global;
use wal::{Record, write_frame};

pub fn prepare(prev: u64) -> Record {
    Record::Prepare { tx: 1, prev }
}

pub fn commit(prev: u64) -> Record {
    Record::Commit { tx: 1, prev }
}

pub fn abort(prev: u64) -> Record {
    Record::Abort { tx: 1, prev }
}

pub fn end(prev: u64) -> Record {
    Record::End { tx: 1, prev }
}

/// Appends the frame of a record that has an encoding.
pub fn put(out: &mut Vec<u8>, lsn: u64, record: &Record) -> Result<(), Fault> {
    if lsn > 0 && record.is_writable() {
        write_frame(record, lsn, out)?;
    }
    Ok(())
}

/// The bytes of the log of these records.
pub fn log_of(alloc: Global, records: &[&Record]) -> Result<Vec<u8>, Fault> {
    let mut bytes = Vec::from_slice(alloc, b"ARIESLG1")?;
    for (place, record) in records.iter().enumerate() {
        put(&mut bytes, place as u64 + 1, record)?;
    }
    Ok(bytes)
}
