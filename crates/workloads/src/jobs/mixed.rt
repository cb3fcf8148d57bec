//! A job of what the other jobs leave out.

use super::buffers::{Buffers, write_to_buffer};
use super::calls::{judge_into, list_log_into, list_store_into};
use super::{Input, put_frame, recover_alone_into, recover_into};
use crate::chance::Chance;
use crate::digest::Digest;
use crate::other::{Change, change_pair};
use crate::shapes::{Pair, pending, rounds};
use crate::writer::{Values, Writer};
use anyhow::Result;
use aries::{Recovery, recovery_alone};
use dump::Style;
use page::{VALUE_BYTES, Value};
use std::alloc::Global;
use std::thread::Threads;
use wal::Record;

/// How many transactions are unfinished where many are.
const LOSERS: u32 = 5_000;

/// The fewest updates of those and the most: each has one at least, and no cell has two.
const FEWEST: usize = 5_000;

const MOST: usize = 65_000;

/// A frame of the least length whose body spells no record.
const NO_RECORD: [u8; 13] = [0, 0, 0, 9, 0, 0, 0, 0, 0, 0, 0, 0, 0];

/// Listings of values between plain and random; audits of recovered pairs, and of such with a fault;
/// recovery of many losers, of the longest values and with a torn tail; and what the calls for C do. The
/// size is that of a log in bytes.
pub fn of_mixed<R: Threads + Sync>(
    rt: &R,
    alloc: Global,
    input: Input,
    digest: &mut Digest,
) -> Result<()> {
    let mut chance = Chance::new(input.seed);
    list_each(alloc, input.size, &mut chance, digest)?;
    audit_recovered(alloc, input.size, &mut chance, digest)?;
    recover_losers(rt, alloc, input.size, &mut chance, digest)?;
    recover_longest(rt, alloc, input.size, &mut chance, digest)?;
    write_to_buffer(alloc, input.size / 10, &mut chance, digest)?;
    recover_to_buffers(alloc, input.size, &mut chance, digest)
}

/// Lists a log and a full store, as text and as JSON, of each kind of values.
fn list_each(alloc: Global, size: usize, chance: &mut Chance, digest: &mut Digest) -> Result<()> {
    for values in [Values::Lines, Values::Json, Values::Accents, Values::Keys] {
        let writer = Writer::behind_with(alloc, chance.draw(), values)?;
        let mut pair = rounds(alloc, writer, size)?;
        list_log_into(alloc, &pair.log, Style::Text, digest);
        list_store_into(alloc, &pair.store, Style::Text, digest);
        change_pair(&mut pair, &Change::of_numbers());
        list_log_into(alloc, &pair.log, Style::Json, digest);
        list_store_into(alloc, &pair.store, Style::Json, digest);
    }
    Ok(())
}

/// What recovery makes of a pair, and the LSN of its last record.
fn recovered(alloc: Global, pair: &Pair) -> Result<(Pair, u64)> {
    let store = Vec::from_slice(alloc, &pair.store)?;
    let Recovery {
        kept,
        frames,
        store,
        report,
    } = recovery_alone(alloc, &pair.log, store)?;
    let mut log = Vec::from_slice(alloc, kept)?;
    log.extend_from_slice(&frames)?;
    let last = report
        .records
        .saturating_add(report.compensated)
        .saturating_add(report.ended);
    Ok((Pair { log, store }, last))
}

/// Audits a pair whose log ends with a record that no law allows: it replaces a value that its cell does
/// not have.
fn audit_unlawful(alloc: Global, pair: &mut Pair, last: u64, digest: &mut Digest) -> Result<()> {
    let whole = pair.log.len();
    let logged = Record::Update {
        tx: u32::MAX,
        prev: 0,
        page: 0,
        slot: 0,
        before: Value::new(&[255; VALUE_BYTES]),
        after: None,
    };
    put_frame(&logged, last.saturating_add(1), &mut pair.log)?;
    judge_into(alloc, &pair.log, &pair.store, digest);
    pair.log.truncate(whole);
    Ok(())
}

/// Audits and lists a log whose last frame spells no record.
fn audit_damaged(alloc: Global, pair: &mut Pair, digest: &mut Digest) -> Result<()> {
    let whole = pair.log.len();
    pair.log.extend_from_slice(&NO_RECORD)?;
    judge_into(alloc, &pair.log, &pair.store, digest);
    list_log_into(alloc, &pair.log, Style::Text, digest);
    pair.log.truncate(whole);
    Ok(())
}

/// Audits what recovery made, whose pages are as of the last records; and with a fault at the end.
fn audit_recovered(
    alloc: Global,
    size: usize,
    chance: &mut Chance,
    digest: &mut Digest,
) -> Result<()> {
    let writer = Writer::new(alloc, chance.draw(), Values::Bytes)?;
    let (mut pair, last) = recovered(alloc, &rounds(alloc, writer, size)?)?;
    for _ in 0..2 {
        judge_into(alloc, &pair.log, &pair.store, digest);
        change_pair(&mut pair, &Change::by(chance));
        audit_unlawful(alloc, &mut pair, last, digest)?;
        change_pair(&mut pair, &Change::by(chance));
        audit_damaged(alloc, &mut pair, digest)?;
        change_pair(&mut pair, &Change::by(chance));
    }
    Ok(())
}

/// Recovers a pair with one worker, with four, and in one thread, with other values each time.
fn recover_each_way<R: Threads + Sync>(
    rt: &R,
    alloc: Global,
    pair: &mut Pair,
    chance: &mut Chance,
    digest: &mut Digest,
) -> Result<()> {
    for workers in [1, 4] {
        change_pair(pair, &Change::by(chance));
        recover_into(rt, alloc, &pair.log, &pair.store, workers, digest)?;
    }
    change_pair(pair, &Change::by(chance));
    recover_alone_into(alloc, pair, digest)
}

/// Recovers a log of many unfinished transactions.
fn recover_losers<R: Threads + Sync>(
    rt: &R,
    alloc: Global,
    size: usize,
    chance: &mut Chance,
    digest: &mut Digest,
) -> Result<()> {
    let writer = Writer::new(alloc, chance.draw(), Values::Bytes)?;
    let count = (size / 64).clamp(FEWEST, MOST);
    let mut pair = pending(alloc, writer, count, LOSERS)?;
    recover_each_way(rt, alloc, &mut pair, chance, digest)
}

/// Recovers a log of the longest values, and the same with its last frame torn.
fn recover_longest<R: Threads + Sync>(
    rt: &R,
    alloc: Global,
    size: usize,
    chance: &mut Chance,
    digest: &mut Digest,
) -> Result<()> {
    let writer = Writer::behind_with(alloc, chance.draw(), Values::Longest)?;
    let mut pair = rounds(alloc, writer, size)?;
    recover_each_way(rt, alloc, &mut pair, chance, digest)?;
    let torn = pair.log.len().saturating_sub(7);
    pair.log.truncate(torn);
    recover_each_way(rt, alloc, &mut pair, chance, digest)
}

/// Recovers into buffers, as the call for C does.
fn recover_to_buffers(
    alloc: Global,
    size: usize,
    chance: &mut Chance,
    digest: &mut Digest,
) -> Result<()> {
    let writer = Writer::new(alloc, chance.draw(), Values::Json)?;
    let mut pair = rounds(alloc, writer, size)?;
    let mut buffers = Buffers::of(alloc, &pair)?;
    for _ in 0..2 {
        buffers.recover(alloc, &pair, digest)?;
        change_pair(&mut pair, &Change::by(chance));
    }
    Ok(())
}
