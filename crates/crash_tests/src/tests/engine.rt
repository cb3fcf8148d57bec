//! An engine that works at random with a journal, and compares each operation with the model.

use super::disk::Disk;
use super::model::{Event, Kind, Model, State, cell_of, value_of};
use checks::check;
use journal::Journal;
use page::{SLOTS, decode_store};
use seeded::Random;
use std::alloc::Global;
use std::test::Fail;
use wal::LogStart;

/// How many slots of each page are used. There are so few that transactions meet.
const USED: u32 = 3;

/// How many transactions are unfinished at most.
const WORKERS: usize = 5;

/// An image of a page that was written.
#[derive(Clone, Copy)]
struct Written {
    number: u32,
    lsn: u64,
}

/// A checkpoint.
#[derive(Clone, Copy)]
struct Checkpoint {
    begin: u64,
    end: u64,
    /// Whether the store was synced after it was taken.
    is_synced: bool,
}

/// An engine. It keeps the rules of an engine over a journal, and is otherwise as careless as they
/// allow.
#[derive(Drop)]
pub struct Engine {
    pub journal: Journal,
    pub disk: Disk,
    pub model: Model,
    /// How many pages there are.
    pub count: u32,
    /// The log was handed out up to this LSN.
    handed: u64,
    /// The log is synced up to this LSN.
    pub forced: u64,
    written: Vec<Written>,
    checkpoints: Vec<Checkpoint>,
}

impl Engine {
    /// An engine with a new log, over this many empty pages.
    pub fn new(alloc: Global, count: u32) -> Result<Engine, Fail> {
        let disk = Disk::new(alloc, count)?;
        let files = disk.crash(alloc, count, &mut Random::new(0))?;
        let store = decode_store(alloc, &files.store)?;
        Ok(Engine {
            journal: Journal::new(alloc, LogStart::Version1, &store)?,
            disk,
            model: Model::new(alloc, count as usize * SLOTS)?,
            count,
            handed: 0,
            forced: 0,
            written: Vec::new(alloc),
            checkpoints: Vec::new(alloc),
        })
    }

    /// The engine continues with this journal, on this disk. All of the log is synced.
    pub fn restart(&mut self, journal: Journal, disk: Disk, model: Model) {
        self.journal = journal;
        self.disk = disk;
        self.model = model;
        self.handed = self.model.last_lsn();
        self.forced = self.handed;
        self.written.clear();
        self.checkpoints.clear();
    }

    /// An unfinished transaction, or 0 if there is none.
    fn pick(&self, random: &mut Random) -> u32 {
        let place = random.place(self.model.workers.len());
        match self.model.workers.get(place) {
            Some(worker) => worker.tx,
            None => 0,
        }
    }

    /// Whether a transaction is unfinished and in another state than this one.
    fn is_not(&self, tx: u32, state: State) -> bool {
        match self.model.state(tx) {
            Some(its) => its != state,
            None => false,
        }
    }

    fn begin(&mut self) -> Result<(), Fail> {
        if self.model.workers.len() >= WORKERS {
            return Ok(());
        }
        let tx = self.journal.begin()?;
        let is_new = self.model.state(tx).is_none() && !self.model.has_record(tx);
        check(is_new, "a new number")?;
        self.model.begin(tx)?;
        Ok(())
    }

    fn cancel(&mut self, tx: u32) -> Result<(), Fail> {
        let may = self.model.state(tx).is_some() && !self.model.has_record(tx);
        let done = self.journal.cancel(tx).is_ok();
        if done {
            self.model.leave(tx);
        }
        check(done == may, "cancel")
    }

    fn update(&mut self, tx: u32, random: &mut Random) -> Result<(), Fail> {
        let page = random.below(self.count);
        let slot = (random.below(USED) & 0xf) as u8;
        let cell = cell_of(page, slot);
        let after = (random.below(512) & 0xffff) as u16;
        let may = self.model.state(tx) == Some(State::Active) && self.model.is_free(cell, tx);
        let done = self.journal.update(tx, page, slot, value_of(after)).is_ok();
        if done {
            let before = self.model.value(cell);
            self.model.append(Event {
                kind: Kind::Update,
                tx,
                cell,
                before,
                after,
            })?;
        }
        check(done == may, "update")
    }

    fn undo_last(&mut self, tx: u32) -> Result<(), Fail> {
        let may = self.is_not(tx, State::Prepared) && self.model.has_pending(tx);
        let done = self.journal.undo_last(tx).is_ok();
        if done {
            self.model.undo_last(tx)?;
        }
        check(done == may, "undo_last")
    }

    fn roll_back_to(&mut self, tx: u32, savepoint: u64) -> Result<(), Fail> {
        let may = self.is_not(tx, State::Prepared);
        let done = self.journal.roll_back_to(tx, savepoint).is_ok();
        if done {
            self.model.undo_to(tx, savepoint)?;
        }
        check(done == may, "roll_back_to")
    }

    fn roll_back(&mut self, tx: u32) -> Result<(), Fail> {
        let may = self.is_not(tx, State::Prepared);
        let done = self.journal.roll_back(tx).is_ok();
        if done {
            self.model.roll_back(tx)?;
        }
        check(done == may, "roll_back")
    }

    fn commit(&mut self, tx: u32) -> Result<(), Fail> {
        let may = self.is_not(tx, State::Aborting);
        let done = self.journal.commit(tx).is_ok();
        if done {
            self.model.append(Event::plain(Kind::Commit, tx))?;
        }
        check(done == may, "commit")
    }

    fn abort(&mut self, tx: u32) -> Result<(), Fail> {
        let may = self.is_not(tx, State::Aborting);
        let done = self.journal.abort(tx).is_ok();
        if done {
            self.model.append(Event::plain(Kind::Abort, tx))?;
        }
        check(done == may, "abort")
    }

    fn end(&mut self, tx: u32) -> Result<(), Fail> {
        let may = self.is_not(tx, State::Prepared) && !self.model.has_pending(tx);
        let done = self.journal.end(tx).is_ok();
        if done {
            self.model.append(Event::plain(Kind::End, tx))?;
        }
        check(done == may, "end")
    }

    fn prepare(&mut self, tx: u32) -> Result<(), Fail> {
        let may = self.model.state(tx) == Some(State::Active);
        let done = self.journal.prepare(tx).is_ok();
        if done {
            self.model.append(Event::plain(Kind::Prepare, tx))?;
        }
        check(done == may, "prepare")
    }

    fn take_checkpoint(&mut self) -> Result<(), Fail> {
        let (begin, end) = self.journal.checkpoint()?;
        self.model.append(Event::plain(Kind::Checkpoint, 0))?;
        self.model.append(Event::plain(Kind::Checkpoint, 0))?;
        self.checkpoints.push(Checkpoint {
            begin,
            end,
            is_synced: false,
        })?;
        Ok(())
    }

    /// Hands the frames out to the log's file.
    fn hand_out(&mut self) -> Result<(), Fail> {
        self.disk.append(self.journal.frames())?;
        self.journal.frames_taken();
        self.handed = self.model.last_lsn();
        Ok(())
    }

    /// Syncs the log, and sometimes reports this to the journal.
    fn force(&mut self, random: &mut Random) -> Result<(), Fail> {
        self.disk.sync_log();
        self.forced = self.handed;
        let reported = self
            .journal
            .log_written(self.forced.wrapping_add(1))
            .is_ok();
        check(
            !reported || self.handed < self.model.last_lsn(),
            "log_written",
        )?;
        if !random.once_in(8) {
            self.journal.log_written(self.forced)?;
        }
        Ok(())
    }

    /// Writes a page if the journal allows it, and sometimes reports this.
    fn write_page(&mut self, random: &mut Random) -> Result<(), Fail> {
        let number = random.below(self.count);
        let Ok(page) = self.journal.page_to_write(number) else {
            return Ok(());
        };
        self.disk.write_page(&page)?;
        self.written.push(Written {
            number,
            lsn: page.lsn,
        })?;
        if random.once_in(2) {
            self.journal.page_written(number, page.lsn)?;
        }
        Ok(())
    }

    /// Reports an image that was written, perhaps long ago.
    fn report_page(&mut self, random: &mut Random) -> Result<(), Fail> {
        let place = random.place(self.written.len());
        if let Some(written) = self.written.get(place).copied() {
            self.journal.page_written(written.number, written.lsn)?;
        }
        Ok(())
    }

    fn sync_store(&mut self) {
        self.disk.sync_store();
        for checkpoint in self.checkpoints.iter_mut() {
            checkpoint.is_synced = true;
        }
    }

    /// Sets the master to a checkpoint, if one was chosen that may be the master.
    fn set_master(&mut self, random: &mut Random) -> Result<(), Fail> {
        let place = random.place(self.checkpoints.len());
        if let Some(checkpoint) = self.checkpoints.get(place).copied() {
            if checkpoint.is_synced && checkpoint.end <= self.forced {
                self.disk.set_master(checkpoint.begin)?;
            }
        }
        Ok(())
    }

    /// Takes the steps of a checkpoint in their order, and often stops before the last one.
    fn check_point(&mut self, random: &mut Random) -> Result<(), Fail> {
        self.take_checkpoint()?;
        if random.once_in(4) {
            return Ok(());
        }
        self.hand_out()?;
        self.force(random)?;
        self.sync_store();
        if random.once_in(4) {
            return Ok(());
        }
        self.set_master(random)
    }

    /// A transaction does something.
    fn transact(&mut self, choice: u32, random: &mut Random) -> Result<(), Fail> {
        let tx = self.pick(random);
        match choice {
            0 | 1 => self.commit(tx),
            2 => self.undo_last(tx),
            3 => {
                let most = (self.model.last_lsn() & 0xffff) as u32;
                let savepoint = random.below(most);
                self.roll_back_to(tx, savepoint as u64)
            }
            4 => self.roll_back(tx),
            5 => self.abort(tx),
            6 => self.end(tx),
            7 => self.prepare(tx),
            8 => self.cancel(tx),
            _ => self.update(tx, random),
        }
    }

    /// The engine does something.
    pub fn step(&mut self, random: &mut Random) -> Result<(), Fail> {
        match random.below(40) {
            0 | 1 | 2 | 3 => self.begin()?,
            4 => self.check_point(random)?,
            5 | 6 | 7 => self.hand_out()?,
            8 | 9 | 10 => self.force(random)?,
            11 | 12 | 13 | 14 => self.write_page(random)?,
            15 => self.report_page(random)?,
            16 => self.sync_store(),
            17 => self.set_master(random)?,
            18 => {
                self.hand_out()?;
                self.force(random)?;
            }
            choice => self.transact(choice.saturating_sub(19), random)?,
        }
        check(
            self.journal.last_lsn() == self.model.last_lsn(),
            "as many records as the model has",
        )
    }
}
