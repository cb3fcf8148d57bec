//! The jobs that a user waits for.

mod buffers;
mod calls;
pub mod mixed;

use crate::chance::{Chance, low_32};
use crate::digest::{Digest, DigestSink};
use crate::other::{Change, change_pair, change_store};
use crate::shapes::{Pair, pending, rounds, short};
use crate::writer::{Values, Writer};
use anyhow::Result;
use aries::{
    MemorySource, OpenGate, Options, Report, audit_texts, audit_texts_over, recover, recovery_alone,
};
use dump::{Choice, Style, list_log};
use page::Value;
use std::alloc::Global;
use std::thread::Threads;
use wal::{Record, write_frame};

/// How large a job's input is, and the number that it is made from.
#[derive(Clone, Copy)]
pub struct Input {
    /// In bytes, updates or records, as the job has it.
    pub size: usize,
    pub seed: u64,
}

/// Takes what a report says.
fn take_report(digest: &mut Digest, report: &Report) {
    digest.take_number(report.records);
    digest.take_number(report.torn);
    digest.take_number(report.redo_from);
    digest.take_number(report.redone);
    digest.take_number(report.losers);
    digest.take_number(report.compensated);
    digest.take_number(report.ended);
    digest.take_number(report.pages);
    for transaction in &report.in_doubt {
        digest.take_number(*transaction as u64);
    }
}

/// Recovers over memory, and takes what is written and reported.
fn recover_into<R: Threads + Sync>(
    rt: &R,
    alloc: Global,
    log: &[u8],
    store: &[u8],
    workers: u32,
    digest: &mut Digest,
) -> Result<()> {
    let mut new_log = DigestSink::new();
    let mut new_store = DigestSink::new();
    let options = Options {
        workers,
        parts: workers,
    };
    let report = recover(
        rt,
        alloc,
        &mut MemorySource::new(log),
        &mut MemorySource::new(store),
        &mut new_log,
        &mut new_store,
        &options,
        &OpenGate,
    )?;
    digest.take_number(new_log.digest.value());
    digest.take_number(new_store.digest.value());
    take_report(digest, &report);
    Ok(())
}

/// Recovers in one thread, in memory, and takes what is made.
fn recover_alone_into(alloc: Global, pair: &Pair, digest: &mut Digest) -> Result<()> {
    let store = Vec::from_slice(alloc, &pair.store)?;
    let recovery = recovery_alone(alloc, &pair.log, store)?;
    digest.take(recovery.kept);
    digest.take(&recovery.frames);
    digest.take(&recovery.store);
    take_report(digest, &recovery.report);
    Ok(())
}

/// Recovery of long logs, with empty pages and with a checkpoint at 90 percent, by one worker and by four.
/// The size is that of a log in bytes.
pub fn of_recovery<R: Threads + Sync>(
    rt: &R,
    alloc: Global,
    input: Input,
    digest: &mut Digest,
) -> Result<()> {
    let mut chance = Chance::new(input.seed);
    let writer = Writer::new(alloc, chance.draw(), Values::Bytes)?;
    let empty = writer.store(0)?;
    let mut pair = rounds(alloc, writer, input.size)?;
    for _ in 0..5 {
        for workers in [1, 4] {
            change_pair(&mut pair, &Change::by(&mut chance));
            recover_into(rt, alloc, &pair.log, &empty, workers, digest)?;
            change_pair(&mut pair, &Change::by(&mut chance));
            recover_into(rt, alloc, &pair.log, &pair.store, workers, digest)?;
        }
    }
    Ok(())
}

/// Recovery where nearly all updates are to be undone, of one transaction and of 64. The size is the number
/// of updates.
pub fn of_rollback<R: Threads + Sync>(
    rt: &R,
    alloc: Global,
    input: Input,
    digest: &mut Digest,
) -> Result<()> {
    let mut chance = Chance::new(input.seed);
    for losers in [1, 64] {
        let writer = Writer::new(alloc, chance.draw(), Values::Bytes)?;
        let mut pair = pending(alloc, writer, input.size, losers)?;
        for _ in 0..3 {
            change_pair(&mut pair, &Change::by(&mut chance));
            recover_into(rt, alloc, &pair.log, &pair.store, 1, digest)?;
            change_pair(&mut pair, &Change::by(&mut chance));
            recover_into(rt, alloc, &pair.log, &pair.store, 4, digest)?;
            change_pair(&mut pair, &Change::by(&mut chance));
            recover_alone_into(alloc, &pair, digest)?;
        }
    }
    Ok(())
}

/// Audits a pair, which has to be lawful.
fn audit_into(alloc: Global, log: &[u8], store: &[u8], digest: &mut Digest) -> Result<()> {
    audit_texts(alloc, log, store)?;
    digest.take_number(log.len() as u64);
    Ok(())
}

/// Audits of a long log with a checkpoint and without, and of many short transactions, whose numbers are in
/// order and scattered. The size is that of a log in bytes.
pub fn of_audit(alloc: Global, input: Input, digest: &mut Digest) -> Result<()> {
    let mut chance = Chance::new(input.seed);
    let writer = Writer::new(alloc, chance.draw(), Values::Bytes)?;
    let empty = writer.store(0)?;
    let mut pair = rounds(alloc, writer, input.size)?;
    for _ in 0..3 {
        audit_into(alloc, &pair.log, &pair.store, digest)?;
        change_pair(&mut pair, &Change::by(&mut chance));
        audit_into(alloc, &pair.log, &empty, digest)?;
        change_pair(&mut pair, &Change::by(&mut chance));
    }
    let writer = Writer::new(alloc, chance.draw(), Values::Bytes)?;
    let mut pair = short(alloc, writer, input.size / 40)?;
    for _ in 0..2 {
        audit_into(alloc, &pair.log, &pair.store, digest)?;
        change_pair(&mut pair, &Change::by(&mut chance));
    }
    for _ in 0..2 {
        change_pair(&mut pair, &Change::scattered(&mut chance));
        audit_into(alloc, &pair.log, &pair.store, digest)?;
    }
    Ok(())
}

/// A value by chance.
fn value_of(drawn: u64) -> Option<Value> {
    let mut bytes = [0; 16];
    let (front, back) = bytes.split_at_mut(8);
    front.copy_from_slice(&drawn.to_be_bytes());
    back.copy_from_slice(&drawn.wrapping_mul(drawn).to_be_bytes());
    Value::new(&bytes[..8 + (drawn % 9) as usize])
}

/// A record by chance, behind one: a commit now and then, else an update.
fn record_of(drawn: u64, before: u64) -> Record {
    let (tx, prev) = (low_32(drawn >> 40) | 1, drawn >> 32);
    if drawn % 11 == 0 {
        return Record::Commit { tx, prev };
    }
    Record::Update {
        tx,
        prev,
        page: low_32(drawn >> 8) & 4095,
        slot: (drawn & 15) as u8,
        before: value_of(before),
        after: value_of(drawn),
    }
}

/// Appends the frame of a record that has a spelling.
fn put_frame(logged: &Record, lsn: u64, out: &mut Vec<u8>) -> Result<()> {
    if lsn == 0 || !logged.is_writable() {
        return Err(anyhow::Error::msg("a record has no spelling"));
    }
    write_frame(logged, lsn, out)?;
    Ok(())
}

/// Writes frames of some thousand records, again and again at other LSNs: every other one into a buffer that
/// is emptied at 64 KiB, and the others each into one of its own. The size is the number of frames.
pub fn of_writing(alloc: Global, input: Input, digest: &mut Digest) -> Result<()> {
    let mut chance = Chance::new(input.seed);
    let mut records = Vec::new(alloc);
    let mut before = chance.draw();
    for _ in 0..2048 {
        let drawn = chance.draw();
        records.push(record_of(drawn, before))?;
        before = drawn;
    }
    let mut log = Vec::new(alloc);
    let mut lsn = 0;
    for _ in 0..input.size / 2048 {
        for logged in &records {
            lsn = u64::saturating_add(lsn, 1);
            if lsn % 2 == 0 {
                put_frame(logged, lsn, &mut log)?;
            } else {
                let mut frame = Vec::new(alloc);
                put_frame(logged, lsn, &mut frame)?;
                digest.take(&frame);
            }
            if log.len() >= 1 << 16 {
                digest.take(&log);
                log.clear();
            }
        }
    }
    digest.take(&log);
    Ok(())
}

/// Lists a whole log.
fn list_into(alloc: Global, log: &[u8], style: Style, digest: &mut Digest) -> Result<()> {
    let all = Choice {
        from: 0,
        to: u64::MAX,
        transaction: None,
        page: None,
    };
    list_log(alloc, log, style, &all, digest).map_err(|_| anyhow::Error::msg(
        "a log was not listed",
    ))
}

/// Lists logs as text and as JSON, with values of bytes and of letters. The size is that of a log in bytes.
pub fn of_listing(alloc: Global, input: Input, digest: &mut Digest) -> Result<()> {
    let mut chance = Chance::new(input.seed);
    for values in [Values::Bytes, Values::Letters] {
        let writer = Writer::new(alloc, chance.draw(), values)?;
        let mut pair = rounds(alloc, writer, input.size)?;
        for _ in 0..3 {
            change_pair(&mut pair, &Change::of_letters());
            list_into(alloc, &pair.log, Style::Text, digest)?;
            change_pair(&mut pair, &Change::of_letters());
            list_into(alloc, &pair.log, Style::Json, digest)?;
        }
    }
    Ok(())
}

/// Recovery of many short logs, of 1 MB and of 100 KB, each beside a full store. The size is the number of
/// logs.
pub fn of_small_ones<R: Threads + Sync>(
    rt: &R,
    alloc: Global,
    input: Input,
    digest: &mut Digest,
) -> Result<()> {
    let mut chance = Chance::new(input.seed);
    for size in [1_000_000, 100_000] {
        let writer = Writer::behind(alloc, chance.draw())?;
        let mut pair = rounds(alloc, writer, size)?;
        for at in 0..input.size / 2 {
            if at % 2 == 0 {
                recover_into(rt, alloc, &pair.log, &pair.store, 1, digest)?;
            } else {
                recover_alone_into(alloc, &pair, digest)?;
            }
            let change = if at % 4 == 0 {
                Change::by(&mut chance)
            } else {
                Change::of_numbers()
            };
            change_pair(&mut pair, &change);
        }
    }
    Ok(())
}

/// Audits an input of each shape, which has to be lawful. The size is that of a log in bytes.
pub fn of_inputs(alloc: Global, input: Input, digest: &mut Digest) -> Result<()> {
    let mut chance = Chance::new(input.seed);
    of_audit(alloc, input, digest)?;
    let writer = Writer::new(alloc, chance.draw(), Values::Letters)?;
    let mut pair = rounds(alloc, writer, input.size)?;
    change_pair(&mut pair, &Change::of_letters());
    audit_into(alloc, &pair.log, &pair.store, digest)?;
    let writer = Writer::new(alloc, chance.draw(), Values::Bytes)?;
    let mut pair = pending(alloc, writer, input.size / 50, 64)?;
    change_pair(&mut pair, &Change::by(&mut chance));
    audit_into(alloc, &pair.log, &pair.store, digest)?;
    let writer = Writer::behind(alloc, chance.draw())?;
    let mut base = writer.store(0)?;
    let mut pair = rounds(alloc, writer, input.size)?;
    let change = Change::by(&mut chance);
    change_pair(&mut pair, &change);
    change_store(&mut base, &change);
    audit_texts_over(alloc, &pair.log, &pair.store, &base)?;
    Ok(())
}
