//! What an engine does with a journal: transactions in turn, and one that stays open.

use crate::store::empty_store;
use anyhow::{Context, Error, Result};
use journal::{Journal, Refusal};
use page::{PAGES, Value};
use std::alloc::Global;
use wal::LogStart;

/// How many transactions work at a time, in turn.
const TOGETHER: usize = 64;

/// How many updates these make, 16 each, before they commit.
const ROUND: usize = 1024;

/// The slot that only the transaction that stays open updates. The others update the slots below it.
const OPEN_SLOT: u8 = 15;

/// How many cells the others update. They take each of them once before they take one again.
const FREE_CELLS: usize = PAGES * OPEN_SLOT as usize;

/// From one cell to the next is so far. This and `FREE_CELLS` have no common divisor.
const STRIDE: usize = 37_973;

/// A journal at work.
#[derive(Drop)]
struct Engine {
    journal: Journal,
    /// The transactions that work in turn: each number, or 0.
    working: Vec<u32>,
    /// How many bytes of frames were taken.
    bytes: u64,
}

fn refused(refusal: Refusal) -> Error {
    let _ = refusal;
    Error::msg("the journal refused an operation")
}

/// A value of 32 bytes, which differs from turn to turn.
fn value_of(turn: usize) -> Option<Value> {
    let mut bytes = [0; 32];
    let (eights, _) = bytes.as_mut_slice().as_chunks_mut::<8>();
    for eight in eights {
        *eight = (turn as u64).to_be_bytes();
    }
    Value::new(&bytes)
}

impl Engine {
    fn new(alloc: Global) -> Result<Engine> {
        let count = (PAGES & 0xffff_ffff) as u32;
        let store = empty_store(alloc, count)?;
        let journal = Journal::new(alloc, LogStart::Version1, &store).map_err(refused)?;
        Ok(Engine {
            journal,
            working: vec![in alloc; 0; TOGETHER]?,
            bytes: 0,
        })
    }

    /// Takes the frames, and counts their bytes.
    fn take_frames(&mut self) {
        let length = self.journal.frames().len();
        self.bytes = self.bytes.wrapping_add(length as u64);
        self.journal.frames_taken();
    }

    /// A transaction updates one slot of this many pages in turn, and stays open.
    fn leave_pending(&mut self, count: usize) -> Result<()> {
        let tx = self.journal.begin().map_err(refused)?;
        for turn in 0..count {
            let page = ((turn % PAGES) & 0xffff_ffff) as u32;
            self.journal
                .update(tx, page, OPEN_SLOT, value_of(turn))
                .map_err(refused)?;
            self.take_frames();
        }
        Ok(())
    }

    /// The next transaction makes an update. It begins before its first one, and commits after its
    /// last one.
    fn work(&mut self, turn: usize) -> Result<()> {
        let at = turn % ROUND;
        let number = self
            .working
            .get_mut(at % TOGETHER)
            .context("no such transaction")?;
        if at < TOGETHER {
            *number = self.journal.begin().map_err(refused)?;
        }
        let tx = *number;
        let cell = (turn % FREE_CELLS).wrapping_mul(STRIDE) % FREE_CELLS;
        let page = ((cell / OPEN_SLOT as usize) & 0xffff_ffff) as u32;
        let slot = (cell % OPEN_SLOT as usize) as u8;
        self.journal
            .update(tx, page, slot, value_of(turn))
            .map_err(refused)?;
        if at >= ROUND - TOGETHER {
            self.journal.commit(tx).map_err(refused)?;
            self.take_frames();
        }
        Ok(())
    }
}

/// Makes this many updates by 64 transactions in turn, each of which commits after 16 updates; and
/// before them this many of one more transaction, which stays open. Returns how many bytes of
/// frames there are, and the last LSN.
pub fn done(alloc: Global, updates: usize, pending: usize) -> Result<(u64, u64)> {
    let mut engine = Engine::new(alloc)?;
    engine.leave_pending(pending)?;
    for turn in 0..updates {
        engine.work(turn)?;
    }
    engine.take_frames();
    Ok((engine.bytes, engine.journal.last_lsn()))
}
