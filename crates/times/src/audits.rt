//! A log of transactions that each make one update and commit, 64 at a time, and its audit.

use crate::store::empty_store;
use anyhow::{Error, Result};
use audit::audit;
use page::{Fault, SLOTS, Value};
use std::alloc::Global;
use wal::{Record, plain_header, read_log, write_frame};

/// How many transactions are unfinished at a time. Each changes the cell of its turn.
const TOGETHER: u32 = 64;

/// How many pages have these cells.
const PAGES: u32 = 4;

fn failed(fault: Fault) -> Error {
    let _ = fault;
    Error::msg("a call was refused")
}

/// The number of the transaction with this place, from 1. No two of the first 2^32 - 1 places have
/// the same: each step of the mixing (Chris Wellons, *lowbias32*) can be undone.
fn number_of(place: u32, numbering: u32) -> u32 {
    match numbering {
        0 => place,
        1 => place.wrapping_mul(0x9e37_79b1),
        _ => {
            let mixed = (place ^ (place >> 16)).wrapping_mul(0x7feb_352d);
            let mixed = (mixed ^ (mixed >> 15)).wrapping_mul(0x846c_a68b);
            mixed ^ (mixed >> 16)
        }
    }
}

/// The update of the transaction with this place: the cell of its turn keeps the same value from the
/// first round on.
fn update_of(place: u32, tx: u32) -> Record {
    let turn = place % TOGETHER;
    let value = Value::new(b"value");
    Record::Update {
        tx,
        prev: 0,
        page: turn / SLOTS as u32,
        slot: (turn % SLOTS as u32) as u8,
        before: if place < TOGETHER { None } else { value },
        after: value,
    }
}

/// Appends the frame of a record.
fn append(bytes: &mut Vec<u8>, record: &Record, lsn: u64) -> Result<()> {
    if !record.is_writable() || lsn == 0 {
        return Err(Error::msg("a record has no encoding"));
    }
    write_frame(record, lsn, bytes).map_err(failed)
}

/// Appends the commits of the transactions whose updates have the 64 LSNs before this one.
fn append_commits(bytes: &mut Vec<u8>, first: u32, lsn: u64, numbering: u32) -> Result<()> {
    for turn in 0..TOGETHER {
        let tx = number_of(first.wrapping_add(turn).wrapping_add(1), numbering);
        let own = lsn.wrapping_add(turn as u64);
        let prev = own.wrapping_sub(TOGETHER as u64);
        append(bytes, &Record::Commit { tx, prev }, own)?;
    }
    Ok(())
}

/// The bytes of a log of this many transactions, rounded up to whole rounds.
pub fn log_of(alloc: Global, transactions: u32, numbering: u32) -> Result<Vec<u8>> {
    let mut bytes = Vec::from_slice(alloc, &plain_header())?;
    let mut lsn: u64 = 1;
    for place in 0..transactions {
        let tx = number_of(place.wrapping_add(1), numbering);
        append(&mut bytes, &update_of(place, tx), lsn)?;
        lsn = lsn.wrapping_add(1);
        if place % TOGETHER == TOGETHER - 1 {
            append_commits(&mut bytes, place - (TOGETHER - 1), lsn, numbering)?;
            lsn = lsn.wrapping_add(TOGETHER as u64);
        }
    }
    Ok(bytes)
}

/// Reads the log in these bytes and audits it with a store of empty pages. It has to be lawful.
pub fn audited(alloc: Global, bytes: &[u8]) -> Result<()> {
    let store = empty_store(alloc, PAGES).map_err(failed)?;
    let (log, _) = read_log(alloc, bytes).map_err(failed)?;
    audit(alloc, &log, &store).map_err(failed)
}
