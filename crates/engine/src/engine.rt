//! The engine: transactions in turn, at random. It keeps the rules of `docs/ENGINE.md`.
//!
//! It prints what it is about to decide, and prints again when that is synced:
//!
//!     commit 3 0.1=88 5.2=0      committed 3      transaction 3 commits, with these changes
//!     prepare 4 1.0=7            prepared 4
//!     abort 4                    aborted 4        transaction 4, which was prepared, aborts
//!
//! A change is PAGE.SLOT=NUMBER: the value is the number in decimal, and number 0 is no value. The
//! changes of a prepared transaction are not printed again when it commits.

use crate::change::{Change, Changes, value_of};
use crate::files::{OpenFiles, open};
use anyhow::{Error, Result};
use journal::{Journal, Refusal};
use page::{Page, SLOTS, Store, decode_store};
use seeded::Random;
use std::alloc::Global;
use std::fs::{self, OpenFile};
use std::io::{self, Seek, Write};
use std::rt::Files;
use wal::read_log;

/// How many slots of each page are used. There are so few that transactions meet.
const USED: u32 = 4;

/// How many transactions are unfinished at most.
const TOGETHER: usize = 4;

/// The state of a prepared transaction.
const PREPARED: u8 = 2;

/// An engine at work. It prints to `out`.
#[derive(Drop)]
struct Engine<F, W> {
    alloc: Global,
    journal: Journal,
    files: OpenFiles<F>,
    out: W,
    /// How many pages there are.
    count: u32,
    changes: Changes,
    random: Random,
}

/// The error for a refusal. The engine asks for nothing that its journal must refuse, so a refusal
/// is a bug, and which one it is does not matter.
fn refused(refusal: Refusal) -> Error {
    let _ = refusal;
    Error::msg("the journal refused an operation")
}

/// What a transaction can decide.
#[derive(Clone, Copy)]
enum Decision {
    Commit,
    Prepare,
    Abort,
}

impl Decision {
    /// How it is announced.
    fn word(self) -> &'static str {
        match self {
            Decision::Commit => "commit",
            Decision::Prepare => "prepare",
            Decision::Abort => "abort",
        }
    }

    /// How it is reported once it is in the log.
    fn past(self) -> &'static str {
        match self {
            Decision::Commit => "committed",
            Decision::Prepare => "prepared",
            Decision::Abort => "aborted",
        }
    }
}

impl<F: OpenFile + Write + Seek, W: Write> Engine<F, W> {
    /// An unfinished transaction, and whether it is prepared.
    fn pick(&mut self) -> Option<(u32, bool)> {
        let unfinished = self.journal.unfinished();
        let entry = unfinished.get(self.random.place(unfinished.len()))?;
        Some((entry.tx, entry.state == PREPARED))
    }

    /// Appends the frames to the log.
    fn append(&mut self) -> Result<()> {
        self.files.append(self.journal.frames())?;
        self.journal.frames_taken();
        Ok(())
    }

    /// Appends the frames to the log, and syncs it.
    fn force(&mut self) -> Result<()> {
        self.append()?;
        self.files.sync_log()?;
        let last = self.journal.last_lsn();
        self.journal.log_written(last).map_err(refused)
    }

    /// Begins a transaction, unless as many as may be open at once are.
    fn begin(&mut self) -> Result<()> {
        if self.journal.unfinished().len() < TOGETHER {
            let _ = self.journal.begin().map_err(refused)?;
        }
        Ok(())
    }

    /// A transaction changes a cell, if no other one holds it.
    fn update(&mut self, tx: u32) -> Result<()> {
        let page = self.random.below(self.count);
        let slot = (self.random.below(USED) & 0xf) as u8;
        let length = self.random.below(64) & 63;
        let number = self.random.next() >> length;
        let value = value_of(self.alloc, number)?;
        match self.journal.update(tx, page, slot, value) {
            Ok(lsn) => self.changes.push(Change {
                tx,
                lsn,
                page,
                slot,
                number,
            }),
            Err(Refusal::Held(_)) => Ok(()),
            Err(refusal) => Err(refused(refusal)),
        }
    }

    /// A transaction returns to before its newest change, or to before an older one.
    fn roll_back_some(&mut self, tx: u32) -> Result<()> {
        let newest = self.changes.newest(tx);
        let back = self.random.below(8) as u64;
        let savepoint = newest.saturating_sub(1).saturating_sub(back);
        self.journal.roll_back_to(tx, savepoint).map_err(refused)?;
        self.changes.forget(tx, savepoint);
        Ok(())
    }

    /// A transaction undoes all of its changes.
    fn roll_back(&mut self, tx: u32) -> Result<()> {
        let _ = self.journal.roll_back(tx).map_err(refused)?;
        self.changes.forget(tx, 0);
        Ok(())
    }

    /// Prints what a transaction is about to decide.
    fn announce(&mut self, tx: u32, decision: Decision, is_prepared: bool) -> Result<()> {
        write!(self.out, "{} {tx}", decision.word())?;
        if !is_prepared {
            self.changes.write(tx, &mut self.out)?;
        }
        writeln!(self.out)?;
        self.out.flush()?;
        Ok(())
    }

    /// Appends the records of a decision.
    fn record(&mut self, tx: u32, decision: Decision) -> Result<()> {
        match decision {
            Decision::Commit => {
                let _ = self.journal.commit(tx).map_err(refused)?;
                self.changes.forget(tx, 0);
            }
            Decision::Prepare => {
                let _ = self.journal.prepare(tx).map_err(refused)?;
            }
            Decision::Abort => {
                let _ = self.journal.abort(tx).map_err(refused)?;
                self.roll_back(tx)?;
            }
        }
        Ok(())
    }

    /// A transaction decides. When this is printed, the log is synced.
    fn decide(&mut self, tx: u32, decision: Decision, is_prepared: bool) -> Result<()> {
        self.announce(tx, decision, is_prepared)?;
        self.record(tx, decision)?;
        self.force()?;
        writeln!(self.out, "{} {tx}", decision.past())?;
        self.out.flush()?;
        Ok(())
    }

    /// Writes a page. Before that the log is synced, if it has to be.
    fn write_page(&mut self) -> Result<()> {
        let number = self.random.below(self.count);
        if self.journal.page_to_write(number).is_err() {
            self.force()?;
        }
        let page = self.journal.page_to_write(number).map_err(refused)?;
        self.files.write_page(&page)?;
        self.journal.page_written(number, page.lsn).map_err(refused)
    }

    /// Takes a checkpoint, and makes it the master.
    fn check_point(&mut self) -> Result<()> {
        let (begin, _) = self.journal.checkpoint().map_err(refused)?;
        self.files.sync_store()?;
        self.force()?;
        self.files.set_master(self.count, begin)?;
        self.files.sync_store()?;
        Ok(())
    }

    /// A prepared transaction decides, or waits.
    fn resolve(&mut self, tx: u32) -> Result<()> {
        match self.random.below(4) {
            0 => self.decide(tx, Decision::Commit, true),
            1 => self.decide(tx, Decision::Abort, true),
            _ => Ok(()),
        }
    }

    /// An active transaction does something.
    fn transact(&mut self, tx: u32) -> Result<()> {
        match self.random.below(20) {
            0 | 1 | 2 => self.decide(tx, Decision::Commit, false),
            3 => self.decide(tx, Decision::Prepare, false),
            4 => self.roll_back(tx),
            5 | 6 => self.roll_back_some(tx),
            _ => self.update(tx),
        }
    }

    /// The engine does something.
    fn step(&mut self) -> Result<()> {
        match self.random.below(40) {
            0 => self.check_point(),
            1 | 2 => self.append(),
            3 | 4 | 5 | 6 => self.write_page(),
            7 | 8 | 9 | 10 | 11 => self.begin(),
            _ => match self.pick() {
                Some((tx, true)) => self.resolve(tx),
                Some((tx, false)) => self.transact(tx),
                None => self.begin(),
            },
        }
    }
}

/// The store in a file.
fn store_in<R: Files + AllocGlobal>(rt: &R, store: &str) -> Result<Store> {
    let bytes = fs::read(rt, store)?;
    Ok(decode_store(rt.alloc(), &bytes)?)
}

/// The journal that continues the log and the store in these files, and how many pages it has.
fn journal_of<R: Files + AllocGlobal>(rt: &R, log: &str, store: &str) -> Result<(Journal, u32)> {
    let bytes = fs::read(rt, log)?;
    let (records, _) = read_log(rt.alloc(), &bytes)?;
    let pages = store_in(rt, store)?;
    let journal = Journal::open(rt.alloc(), &records, &pages).map_err(refused)?;
    Ok((journal, (pages.pages.len() & 0xffff_ffff) as u32))
}

/// Works on a log and a store that a recovery left, or that were made.
pub fn work<R: Print + Files + AllocGlobal>(
    rt: &R,
    log: &str,
    store: &str,
    seed: u32,
    steps: u32,
) -> Result<()> {
    let (journal, count) = journal_of(rt, log, store)?;
    let files = open(rt, log, store)?;
    let alloc = rt.alloc();
    let mut engine = Engine {
        alloc,
        journal,
        files,
        out: io::writer(rt),
        count,
        changes: Changes::new(alloc),
        random: Random::new(seed as u64),
    };
    for _ in 0..steps {
        engine.step()?;
    }
    Ok(())
}

/// Prints the cells of a page that have a value.
fn print_page<W: Write>(page: &Page, out: &mut W) -> Result<()> {
    for slot in 0..SLOTS {
        if let Some(value) = page.slot(slot) {
            let text = str::from_utf8(value.as_slice()).unwrap_or("?");
            writeln!(out, "{}.{slot}={text}", page.number)?;
        }
    }
    Ok(())
}

/// Prints the cells of a store that have a value, a line each: PAGE.SLOT=VALUE.
pub fn print_cells<R: Print + Files + AllocGlobal>(rt: &R, store: &str) -> Result<()> {
    let pages = store_in(rt, store)?;
    let mut out = io::writer(rt);
    for page in &pages.pages {
        print_page(page, &mut out)?;
    }
    out.flush()?;
    Ok(())
}
