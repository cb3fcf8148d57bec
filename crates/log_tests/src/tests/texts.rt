//! Reading and writing logs.

mod reading;
mod vectors;
mod writing;

use super::records::put;
use page::Fault;
use std::alloc::Global;
use wal::read_log;

// Whether writing each record of a log again makes the same log.
fn is_rewritten(alloc: Global, bytes: &[u8]) -> Result<bool, Fault> {
    let (log, torn) = read_log(alloc, bytes)?;
    let mut out = Vec::from_slice(alloc, b"ARIESLG1")?;
    for lsn in 0..log.len() {
        if let Some(view) = log.get(lsn + 1) {
            put(&mut out, lsn + 1, &view.to_record(alloc)?)?;
        }
    }
    Ok(torn == 0 && out.as_slice() == bytes)
}

// Appends this many entries of a transaction table.
fn push_transactions(text: &mut Vec<u8>, count: u32) -> Result<(), Fault> {
    for tx in 0..count {
        text.extend_from_slice(&tx.wrapping_add(1).to_be_bytes())?;
        text.extend_from_slice(b"\x01\0\0\0\0\0\0\0\x05\0\0\0\0\0\0\0\x04")?;
    }
    Ok(())
}

// Appends this many entries of a dirty page table.
fn push_pages(text: &mut Vec<u8>, count: u32) -> Result<(), Fault> {
    for page in 0..count {
        text.extend_from_slice(&page.to_be_bytes())?;
        text.extend_from_slice(b"\0\0\0\0\0\0\0\x03")?;
    }
    Ok(())
}

// The bytes of a checkpoint begin and of its end with 1,024 transactions and 4,096 pages.
fn largest_checkpoint(alloc: Global) -> Result<Vec<u8>, Fault> {
    let mut text = Vec::from_slice(alloc, b"ARIESLG1\0\0\0\x09\x06\0\0\0\0\0\0\0\x01")?;
    let length: u32 = 25 + 21 * 1024 + 12 * 4096;
    text.extend_from_slice(&length.to_be_bytes())?;
    text.extend_from_slice(b"\x07\0\0\0\0\0\0\0\x02\0\0\0\0\0\0\0\x01\0\0\x04\0")?;
    push_transactions(&mut text, 1024)?;
    text.extend_from_slice(b"\0\0\x10\0")?;
    push_pages(&mut text, 4096)?;
    Ok(text)
}
