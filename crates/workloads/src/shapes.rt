//! The shapes of logs.

use crate::writer::{CELLS, Running, Values, Writer};
use anyhow::Result;
use std::alloc::Global;
use wal::Record;

/// How many transactions work at a time, and how many updates each of them makes.
const TOGETHER: u32 = 16;

const UPDATES: u32 = 8;

/// A log, and the store that it belongs to.
#[derive(Drop)]
pub struct Pair {
    pub log: Vec<u8>,
    pub store: Vec<u8>,
}

/// So many new transactions behind those counted so far.
fn begun(alloc: Global, counted: &mut u32, many: u32) -> Result<Vec<Running>> {
    let mut running = Vec::with_capacity(alloc, many as usize)?;
    for _ in 0..many {
        *counted = counted.wrapping_add(1);
        running.push(Running::new(*counted))?;
    }
    Ok(running)
}

/// Where the checkpoint of a log is.
#[derive(Drop)]
enum Checkpoint {
    /// The log is not yet long enough.
    ToCome,
    /// It began at this LSN, and this record ends it.
    Begun(u64, Record),
    /// The LSN at which it began.
    Ended(u64),
}

impl Checkpoint {
    fn master(&self) -> u64 {
        match self {
            Checkpoint::ToCome => 0,
            Checkpoint::Begun(_, _) => 0,
            Checkpoint::Ended(lsn) => *lsn,
        }
    }
}

/// Pages are flushed in turn while the log grows from 80 to 90 percent of its length: those that are due.
fn flush_due(writer: &mut Writer, size: usize, flushed: &mut usize) -> Result<()> {
    let tenth = (size / 10).max(1);
    let grown = writer.bytes.len().saturating_sub(tenth.saturating_mul(8));
    let due = grown.saturating_mul(CELLS / 16) / tenth;
    for number in *flushed..due.min(CELLS / 16) {
        writer.flush(number)?;
        *flushed = number + 1;
    }
    Ok(())
}

/// The next step of a checkpoint at 90 percent of the log's length.
fn go_on(
    writer: &mut Writer,
    size: usize,
    checkpoint: Checkpoint,
    running: &[Running],
) -> Result<Checkpoint> {
    match checkpoint {
        Checkpoint::ToCome => {
            if writer.bytes.len() < (size / 10).saturating_mul(9) {
                return Ok(Checkpoint::ToCome);
            }
            let (begin, end) = writer.begin_checkpoint(running)?;
            Ok(Checkpoint::Begun(begin, end))
        }
        Checkpoint::Begun(begin, end) => {
            writer.end_checkpoint(&end)?;
            Ok(Checkpoint::Ended(begin))
        }
        Checkpoint::Ended(begin) => Ok(Checkpoint::Ended(begin)),
    }
}

/// Sixteen transactions at a time update eight cells each, in turn, and commit; the last sixteen are
/// unfinished. A checkpoint stands at 90 percent of the bytes, and the pages are as they were flushed, one
/// after another, while the log grew from 80 percent on.
pub fn rounds(alloc: Global, mut writer: Writer, size: usize) -> Result<Pair> {
    let mut checkpoint = Checkpoint::ToCome;
    let (mut counted, mut flushed) = (0, 0);
    let mut running = begun(alloc, &mut counted, TOGETHER)?;
    for step in 0..u64::MAX {
        if writer.bytes.len() >= size {
            break;
        }
        for transaction in running.iter_mut() {
            let cell = writer.draw_cell(true);
            writer.update(transaction, cell)?;
        }
        flush_due(&mut writer, size, &mut flushed)?;
        checkpoint = go_on(&mut writer, size, checkpoint, &running)?;
        if step % UPDATES as u64 == UPDATES as u64 - 1 {
            for transaction in &running {
                writer.commit(transaction)?;
            }
            running = begun(alloc, &mut counted, TOGETHER)?;
        }
    }
    let store = writer.store(checkpoint.master())?;
    Ok(Pair {
        log: writer.bytes,
        store,
    })
}

/// So many transactions of one update and a commit, 64 at a time; the pages are empty.
pub fn short(alloc: Global, mut writer: Writer, count: usize) -> Result<Pair> {
    let mut counted = 0;
    for _ in 0..count / 64 {
        let mut running = begun(alloc, &mut counted, 64)?;
        for transaction in running.iter_mut() {
            let cell = writer.draw_cell(true);
            writer.update(transaction, cell)?;
        }
        for transaction in &running {
            writer.commit(transaction)?;
        }
    }
    let store = writer.store(0)?;
    Ok(Pair {
        log: writer.bytes,
        store,
    })
}

/// So many updates of a few transactions that do not end, each of which has its own cells; the pages are
/// empty. `losers` divides the number of cells.
pub fn pending(alloc: Global, mut writer: Writer, count: usize, losers: u32) -> Result<Pair> {
    let mut counted = 0;
    let mut running = begun(alloc, &mut counted, losers)?;
    for _ in 0..count / (losers.max(1) as usize) {
        for transaction in running.iter_mut() {
            let cell = writer.draw_cell(false);
            writer.update(transaction, cell)?;
        }
    }
    let store = writer.store(0)?;
    Ok(Pair {
        log: writer.bytes,
        store,
    })
}
