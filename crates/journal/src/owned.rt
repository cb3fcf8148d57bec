//! `Journal`: a journal that owns its arrays, and keeps the frames until they are taken.

ghost use Rattle.std.specs.Prelude.{◌≡◌, ◌≤◌, ◌<◌, ◌+◌, ◌*◌, [], length, take, true, false, All, OnOk, OnErr, IfOk, IfErr, IfSome, None, IsOkUnless};
ghost use Rattle.page.specs.declared.profile.TheConstants.{TRANSACTIONS};
ghost use Rattle.log_laws.specs.Records.{Commit, Abort, End, Prepare, lsn_before, last_lsn, history};
ghost use Rattle.journal.specs.declared.refusal.Refusal.TheVariants.{NoResource, NoSuchLsn};
ghost use Rattle.journal.specs.declared.framing.TheConstants.{LONGEST_UNDO};
ghost use Rattle.journal.specs.declared.table.Need.TheVariants.{NotAborting, NotPrepared};
ghost use Rattle.journal.specs.Arrays.{Reaches, IsNoted, BeginsAs, HasRoomFor};
ghost use Rattle.journal.specs.State.{update_by, plain_by};
ghost use Rattle.journal.specs.PageStates.{IsUpToDate};
ghost use Rattle.journal.specs.Opened.{OwnNewRefused};
ghost use Rattle.journal.specs.TurnsTaken.{is_owed};
ghost use Rattle.journal.specs.Refusals.{StepRefused, OwnBeginRefused, OwnPrepareRefused, OwnUndoRefused, OwnEndRefused, OwnCheckpointRefused};
ghost use Rattle.journal.specs.JournalState.{Appends, StaysKept, StaysSame, LeavesRest, OthersStay, HasBegun, IsGone, HasNoRecord, known_up_to, Undoes, TakesCheckpoint, RollsBackTo, RollsBackAll, AppendsTurn, RefusesTurn, Refuses, RefusesHolder, RefusesPageToWrite, RefusesReport, RefusesCancel, RefusesUpdate, RefusesOpenWith, RefusesOpen, IsNew, ContinuesLog, ShowsPage, IsLogAhead, Reports, NamesHolder, IsNewest, MayUndo, HasFewPending};

use crate::checkpoints::LONGEST_CHECKPOINT;
use crate::entries::{Head, PageEntry, PendingEntry, TransactionEntry};
use crate::framing::{LONGEST_CHANGE, LONGEST_UNDO};
use crate::image::Image;
use crate::refusal::Refusal;
use crate::table::has_dead;
use crate::turns::Turn;
use crate::{beginning, checkpoints, disk, opening, operations, reopening, turns};
use page::{Page, Store, TRANSACTIONS, Value};
use std::alloc::Global;
use std::marker::Model;
use wal::{Log, LogStart, PLAIN_FRAME};

/// How many pending updates a journal has room for at first.
const PENDING: usize = 1024;

/// How often the array of pending updates is made twice as long at most.
const WIDENINGS: usize = 50;

/// The part of an engine that writes the log: what it keeps of the log, of the transactions that have
/// not finished, and of the pages. What it appends is lawful.
///
/// An accepted update can always be rolled back: the LSNs and the room for that are set aside when the
/// update is appended.
///
/// An operation changes its own transaction alone. Only `frames_taken` removes frames, and only
/// `log_written` changes the LSN up to which the log is known to be on the disk.
#[derive(Drop)]
pub struct Journal {
    head: Head,
    transactions: Vec<TransactionEntry>,
    pages: Vec<PageEntry>,
    pending: Vec<PendingEntry>,
    /// The frames that were not taken, followed by room for more.
    buffer: Vec<u8>,
    /// How many bytes of frames there are.
    length: usize,
    /// How many bytes after them are for the frames of rollbacks.
    reserved: usize,
    /// The LSN up to which the frames were taken.
    taken: u64,
    /// How many pending updates were needed when the array of them was last full.
    needed: usize,
}

impl Model for Journal {
    ghost use Rattle.journal.specs.JournalState.{JournalState};

    ghost Value = { JournalState };

    ghost use Rattle.journal.specs.Owned.{seen, IsWithin};

    ghost view = { seen };

    ghost invariant = { IsWithin };
}

/// How many bytes the frames take at most by which all that may be unfinished is rolled back, and
/// one more.
fn rollback_bytes(pending: usize) -> Option<usize>
    ensures { IfSome result (λ n. n ≡ LONGEST_UNDO * (2 * TRANSACTIONS + 1 + pending)) }
{
    let records = pending.checked_add(2 * TRANSACTIONS + 1)?;
    records.checked_mul(LONGEST_UNDO)
}

/// Makes room in the buffer after the bytes that are filled: this many, and those of all rollbacks.
/// Returns how many bytes these take. The only error is `NoResource`.
fn make_room(
    buffer: &mut Vec<u8>,
    filled: usize,
    more: usize,
    pending: usize,
) -> Result<usize, Refusal>
    requires { filled ≤ length buffer.old.items }
    ensures enough { IfOk result (λ n. filled + more + n ≤ length buffer.new.items) }
    ensures rollback { IfOk result (λ n. n ≡ LONGEST_UNDO * (2 * TRANSACTIONS + 1 + pending)) }
    ensures kept { take filled buffer.new.items ≡ take filled buffer.old.items }
    ensures larger { length buffer.old.items ≤ length buffer.new.items }
    ensures err { IsOkUnless result NoResource }
{
    let Some(rollback) = rollback_bytes(pending) else {
        return Err(Refusal::NoResource);
    };
    let Some(first) = filled.checked_add(more) else {
        return Err(Refusal::NoResource);
    };
    let Some(size) = first.checked_add(rollback) else {
        return Err(Refusal::NoResource);
    };
    if size > buffer.len() {
        buffer.resize(size, 0)?;
    }
    Ok(rollback)
}

/// Makes the array of pending updates twice as long if it is full and each of them is needed, or more
/// than half of it was needed when it was full before. The only error is `NoResource`.
fn make_pending_room(
    entries: &[TransactionEntry],
    pending: &mut Vec<PendingEntry>,
    held: usize,
    needed: usize,
) -> Result<(), Refusal>
    ensures kept { BeginsAs pending.old.items pending.new.items }
    ensures larger { length pending.old.items ≤ length pending.new.items }
    ensures ok { OnOk result
        (HasRoomFor entries.now held pending.old.items pending.new.items) }
    ensures err { IsOkUnless result NoResource }
{
    let size = pending.len();
    if held < size {
        return Ok(());
    }
    if needed <= size / 2 && has_dead(entries, pending) {
        return Ok(());
    }
    let Some(more) = held.checked_mul(2) else {
        return Err(Refusal::NoResource);
    };
    pending.resize(more, PendingEntry::blank())?;
    Ok(())
}

/// The number of pending updates that were needed when the array was last full. Before an update it
/// was `needed`. After the update `now` entries are in use. If the array was full before the update,
/// the update has removed all that was not needed.
fn needed_after(needed: usize, was_full: bool, now: usize) -> usize
    ensures full { was_full ≡ true → result ≡ now }
    ensures same { was_full ≡ false → result ≡ needed }
{
    if was_full { now } else { needed }
}

/// An array of blank entries for each of this many pages.
fn blank_pages(alloc: Global, count: usize) -> Result<Vec<PageEntry>, Refusal>
    ensures size { IfOk result (λ pages. length pages.items ≡ count) }
    ensures err { IsOkUnless result NoResource }
{
    let pages = vec![in alloc; PageEntry::blank(); count]?;
    Ok(pages)
}

impl Journal {
    /// The LSN of the last record of the log, or its base LSN.
    pub fn last_lsn(&self) -> u64
        ensures { result ≡ self.now.head.last }
    {
        self.head.last
    }

    /// The transactions that have begun and not finished, in ascending order of number.
    pub fn unfinished(&self) -> &[TransactionEntry]
        ensures { result.now ≡ self.now.transactions }
    {
        &self.transactions[..self.head.transactions]
    }

    /// The unfinished transaction that holds a cell: it has an update or a CLR there, and no other
    /// transaction may update the cell. `None` if no transaction holds it.
    ///
    /// Errors:
    /// - NoSuchPage, NoSuchSlot: there is no such page or slot.
    pub fn holder(&self, page: u32, slot: u8) -> Result<Option<u32>, Refusal>
        ensures held { IfOk result (NamesHolder self.now page slot) }
        ensures refused { IfErr result (RefusesHolder self.now page slot) }
    {
        operations::holder(&self.head, &self.transactions, &self.pages, page, slot)
    }

    /// The frames of the records after those that `frames_taken` reported: the next bytes of the log.
    pub fn frames(&self) -> &[u8]
        ensures { result.now ≡ self.now.frames }
    {
        &self.buffer[..self.length]
    }

    /// All frames were taken: they are in the log's file, or in a buffer of the engine. `frames` is empty
    /// after it.
    pub fn frames_taken(&mut self)
        ensures kept { StaysKept self.old self.new }
        ensures taken { self.new ≡ record self.old { frames = []; taken = self.old.head.last } }
    {
        self.taken = self.head.last;
        self.length = 0;
    }

    /// The log is on the disk up to this LSN, which need not be the last one.
    ///
    /// The only error is NoSuchLsn, after which the journal is unchanged: the frames of this LSN were not
    /// taken.
    pub fn log_written(&mut self, lsn: u64) -> Result<(), Refusal>
        ensures ok { OnOk result (StaysKept self.old self.new) }
        ensures known { OnOk result (lsn ≤ self.old.taken) }
        ensures written { OnOk result (self.new ≡ known_up_to lsn self.old) }
        ensures kept { OnErr result (self.new ≡ self.old) }
        ensures err { IsOkUnless result NoSuchLsn }
        ensures refused { OnErr result (self.old.taken < lsn) }
    {
        if lsn > self.taken {
            return Err(Refusal::NoSuchLsn);
        }
        self.head.written = self.head.written.max(lsn);
        Ok(())
    }

    /// The page with this number as the log has made it so far. `None` if there is no such page.
    pub fn page(&self, number: u32) -> Option<Page>
        ensures current { IfSome result (ShowsPage self.now number) }
        ensures none { result ≡ None → length self.now.pages ≤ number }
    {
        let pages = self.pages.as_slice();
        if number as usize >= pages.len() {
            return None;
        }
        Some(pages[number as usize].page.page())
    }

    /// The page with this number, as the log has made it so far. It may be written to the disk, since the
    /// log is there up to its PageLSN.
    ///
    /// Errors:
    /// - NoSuchPage: there is no such page.
    /// - LogNotWritten: `log_written` has not reported the page's PageLSN, which is this, or a larger one.
    pub fn page_to_write(&self, number: u32) -> Result<Page, Refusal>
        ensures current { IfOk result (ShowsPage self.now number) }
        ensures ahead { IfOk result (IsLogAhead self.now) }
        ensures refused { IfErr result (RefusesPageToWrite self.now number) }
    {
        disk::page_to_write(&self.head, &self.pages, number)?;
        match self.page(number) {
            Some(page) => Ok(page),
            None => Err(Refusal::NoSuchPage),
        }
    }

    /// The page with this number and this PageLSN was written. It need not be the newest image.
    ///
    /// Errors, after which the journal is unchanged:
    /// - NoSuchPage: there is no such page.
    /// - NoSuchLsn: the page's PageLSN is below this one.
    pub fn page_written(&mut self, number: u32, page_lsn: u64) -> Result<(), Refusal>
        ensures ok { OnOk result (Reports self.old self.new number page_lsn) }
        ensures known { OnOk result (Reaches self.old.pages number page_lsn) }
        ensures noted { OnOk result (IsNoted self.old.pages self.new.pages number page_lsn) }
        ensures rest { self.new ≡ record self.old { pages = self.new.pages } }
        ensures kept { OnErr result (self.new ≡ self.old) }
        ensures refused { IfErr result (RefusesReport self.old number page_lsn) }
    {
        disk::page_written(&mut self.pages, number, page_lsn)?;
        Ok(())
    }

    /// A transaction that has no record leaves, and no record is appended. Its number is not given to
    /// another transaction.
    ///
    /// Errors, after which the journal is unchanged:
    /// - UnknownTransaction: no transaction of this number is unfinished.
    /// - HasRecords: the log has a record of it, so it has to commit or to be rolled back.
    pub fn cancel(&mut self, tx: u32) -> Result<(), Refusal>
        ensures ok { OnOk result (StaysKept self.old self.new) }
        ensures frames { self.new.frames ≡ self.old.frames }
        ensures gone { OnOk result (IsGone self.old self.new tx) }
        ensures unlogged { OnOk result (HasNoRecord self.old tx) }
        ensures others { OnOk result (OthersStay self.old self.new tx) }
        ensures rest { LeavesRest self.old self.new }
        ensures kept { OnErr result (self.new ≡ self.old) }
        ensures refused { IfErr result (RefusesCancel self.old tx) }
    {
        beginning::cancel(&mut self.head, &mut self.transactions, tx)?;
        Ok(())
    }

    /// Opens the journal of a new log, which begins in this way and has no record. The pages of the store
    /// become the base pages of the log. They are on the disk, and so is the log, up to its base LSN.
    ///
    /// Errors:
    /// - HasMaster: the store's master is not 0, so it names a checkpoint of another log.
    /// - LogFull: the base LSN is larger than that of a log can be.
    /// - PageAhead: a page has a PageLSN above the base LSN.
    /// - NoResource: memory was refused.
    pub fn new(alloc: Global, begins: LogStart, store: &Store) -> Result<Journal, Refusal>
        ensures ok { IfOk result (IsNew begins store.now) }
        ensures written { IfOk result (λ j. j.head.written ≡ lsn_before begins) }
        ensures unused { IfOk result (λ j. j.transactions ≡ []) }
        ensures none { IfOk result (λ j. j.frames ≡ []) }
        ensures no_master { OnOk result (store.now.master ≡ 0) }
        ensures refused { IfErr result (OwnNewRefused begins store.now) }
    {
        let transactions = vec![in alloc; TransactionEntry::blank(); TRANSACTIONS]?;
        let pending = vec![in alloc; PendingEntry::blank(); PENDING]?;
        let mut pages = blank_pages(alloc, store.pages.len())?;
        let mut buffer = Vec::new(alloc);
        let rollback = make_room(&mut buffer, 0, 0, PENDING)?;
        let head = opening::new(begins, store, &mut pages)?;
        Ok(Journal {
            head,
            transactions,
            pages,
            pending,
            buffer,
            length: 0,
            reserved: rollback,
            taken: head.last,
            needed: 0,
        })
    }

    /// Opens the journal that continues a log, with room for this many pending updates.
    fn open_with(alloc: Global, log: &Log, store: &Store, room: usize) -> Result<Journal, Refusal>
        requires { 0 < room }
        ensures ok { IfOk result (ContinuesLog log.now store.now) }
        ensures written { IfOk result (λ j. j.head.written ≡ last_lsn (history log.now)) }
        ensures current { OnOk result (All (IsUpToDate (history log.now)) store.now.pages) }
        ensures none { IfOk result (λ j. j.frames ≡ []) }
        ensures refused { IfErr result (RefusesOpenWith log.now store.now room) }
    {
        let mut transactions = vec![in alloc; TransactionEntry::blank(); TRANSACTIONS]?;
        let mut pending = vec![in alloc; PendingEntry::blank(); room]?;
        let mut pages = blank_pages(alloc, store.pages.len())?;
        let mut buffer = Vec::new(alloc);
        let rollback = make_room(&mut buffer, 0, 0, room)?;
        let head = reopening::open(log, store, &mut transactions, &mut pages, &mut pending)?;
        Ok(Journal {
            head,
            transactions,
            pages,
            pending,
            buffer,
            length: 0,
            reserved: rollback,
            taken: head.last,
            needed: 0,
        })
    }

    /// Opens the journal that continues a log. The log and the store must be lawful, and each page must
    /// have all that the log made of it: a recovery leaves them like this. Both must be on the disk, since
    /// the journal assumes that the whole log is.
    /// Transactions that are unfinished in the log, such as those in doubt, keep their numbers and states,
    /// and hold their cells.
    ///
    /// Errors:
    /// - TooManyTransactions: after some record more transactions were unfinished than a checkpoint can
    ///   list.
    /// - NoNumber: a transaction has the largest number, so that none is left.
    /// - PageBehind: the PageLSN of this page is not the LSN of the last record on it.
    /// - NothingToUndo: the log is not lawful: a CLR in it undoes nothing.
    /// - LogFull: too few LSNs are left for the rollback of what is unfinished.
    /// - NoResource: memory was refused.
    pub fn open(alloc: Global, log: &Log, store: &Store) -> Result<Journal, Refusal>
        ensures ok { IfOk result (ContinuesLog log.now store.now) }
        ensures written { IfOk result (λ j. j.head.written ≡ last_lsn (history log.now)) }
        ensures current { OnOk result (All (IsUpToDate (history log.now)) store.now.pages) }
        ensures none { IfOk result (λ j. j.frames ≡ []) }
        ensures refused { IfErr result (RefusesOpen log.now store.now) }
    {
        let mut room = PENDING;
        for _ in 0..WIDENINGS {
            match Journal::open_with(alloc, log, store, room) {
                Ok(journal) => return Ok(journal),
                Err(Refusal::NoPendingRoom) => room = room.saturating_mul(2),
                Err(refusal) => return Err(refusal),
            }
        }
        Err(Refusal::NoResource)
    }

    /// A transaction begins. Returns its number, from 1, which is larger than that of each transaction
    /// that began before or has a record in the log. No record is appended.
    ///
    /// Errors, after which the journal is unchanged:
    /// - TooManyTransactions: as many transactions are unfinished as a checkpoint can list.
    /// - NoNumber: all numbers are used.
    /// - LogFull: too few LSNs are left for the rollback of what may be unfinished.
    /// - NoResource: memory was refused.
    pub fn begin(&mut self) -> Result<u32, Refusal>
        ensures ok { OnOk result (StaysKept self.old self.new) }
        ensures begun { IfOk result (HasBegun self.old self.new) }
        ensures others { IfOk result (OthersStay self.old self.new) }
        ensures number { IfOk result (λ tx. tx ≡ self.old.head.next) }
        ensures next { IfOk result (λ tx. self.new.head.next ≡ tx + 1) }
        ensures fresh { IfOk result (HasNoRecord self.old) }
        ensures frames { self.new.frames ≡ self.old.frames }
        ensures unforced { self.new.head.written ≡ self.old.head.written }
        ensures taken { self.new.taken ≡ self.old.taken }
        ensures kept { OnErr result (self.new ≡ self.old) }
        ensures refused { IfErr result (Refuses self.old (λ _. OwnBeginRefused self.old.head)) }
    {
        let rollback = make_room(&mut self.buffer, self.length, 0, self.pending.len())?;
        let tx = beginning::begin(&mut self.head, &mut self.transactions)?;
        self.reserved = rollback;
        Ok(tx)
    }

    /// An active transaction changes a slot of a page to hold this value, or none: an update is appended.
    /// Returns its LSN.
    ///
    /// Errors, after which the journal is unchanged:
    /// - UnknownTransaction: no transaction of this number is unfinished.
    /// - Forbidden: the transaction is aborting or prepared.
    /// - NoSuchPage, NoSuchSlot: there is no such page or slot.
    /// - Held: another unfinished transaction, of this number, has an update or a CLR in the cell.
    /// - LogFull: too few LSNs are left for the rollback of what is unfinished.
    /// - NoResource: memory was refused.
    pub fn update(
        &mut self,
        tx: u32,
        page: u32,
        slot: u8,
        after: Option<Value>,
    ) -> Result<u64, Refusal>
        ensures ok { OnOk result (Appends self.old self.new
            (λ base run. update_by base run tx page slot after)) }
        ensures lsn { IfOk result (λ lsn. lsn ≡ self.old.head.last + 1) }
        ensures rest { LeavesRest self.old self.new }
        ensures others { OnOk result (OthersStay self.old self.new tx) }
        ensures kept { OnErr result (self.new ≡ self.old) }
        ensures refused { IfErr result (RefusesUpdate self.old tx page slot) }
    {
        let entries = &self.transactions[..self.head.transactions];
        let held = self.head.pending;
        make_pending_room(entries, &mut self.pending, held, self.needed)?;
        let was_full = held == self.pending.len();
        let rollback = make_room(
            &mut self.buffer,
            self.length,
            LONGEST_CHANGE,
            self.pending.len(),
        )?;
        let size = operations::update(
            &mut self.head,
            &mut self.transactions,
            &mut self.pages,
            &mut self.pending,
            tx,
            page,
            slot,
            &Image::of(&after),
            &mut self.buffer[self.length..],
        )?;
        self.needed = needed_after(self.needed, was_full, self.head.pending);
        self.length += size;
        self.reserved = rollback;
        Ok(self.head.last)
    }

    /// Undoes the newest pending update of a transaction: a CLR is appended. Returns its LSN. ARIES,
    /// section 4.2 (partial rollback). It is never refused for memory or for an LSN.
    ///
    /// Errors, after which the journal is unchanged:
    /// - UnknownTransaction: no transaction of this number is unfinished.
    /// - Forbidden: the transaction is prepared.
    /// - NothingToUndo: no update of it is pending.
    pub fn undo_last(&mut self, tx: u32) -> Result<u64, Refusal>
        ensures ok { OnOk result (Undoes self.old self.new tx) }
        ensures lsn { IfOk result (λ lsn. lsn ≡ self.old.head.last + 1) }
        ensures rest { LeavesRest self.old self.new }
        ensures others { OnOk result (OthersStay self.old self.new tx) }
        ensures kept { OnErr result (self.new ≡ self.old) }
        ensures refused { IfErr result (Refuses self.old (λ run. OwnUndoRefused run tx)) }
    {
        let size = operations::undo(
            &mut self.head,
            &mut self.transactions,
            &mut self.pages,
            &mut self.pending,
            tx,
            &mut self.buffer[self.length..],
        )?;
        self.length += size;
        self.reserved = self.reserved.saturating_sub(size);
        Ok(self.head.last)
    }

    /// The LSN of the newest pending update of a transaction, 0 if it has none.
    fn newest_pending(&self, tx: u32) -> Result<u64, Refusal>
        ensures newest { IfOk result (IsNewest self.now tx) }
        ensures free { OnOk result (MayUndo self.now tx) }
        ensures few { OnOk result (HasFewPending self.now tx) }
        ensures refused { IfErr result (Refuses self.now (λ run. StepRefused NotPrepared run tx)) }
    {
        operations::newest_pending(&self.head, &self.transactions, &self.pending, tx)
    }

    /// Rolls a transaction back to a savepoint, which is an LSN: each pending update of it with a larger
    /// LSN is undone by a CLR, the newest first. ARIES, section 4.2 (partial rollback). It is never refused
    /// for memory or for an LSN.
    ///
    /// Errors, after which the journal is unchanged:
    /// - UnknownTransaction: no transaction of this number is unfinished.
    /// - Forbidden: the transaction is prepared.
    pub fn roll_back_to(&mut self, tx: u32, savepoint: u64) -> Result<(), Refusal>
        ensures ok { OnOk result (RollsBackTo self.old self.new tx savepoint) }
        ensures rest { LeavesRest self.old self.new }
        ensures others { OnOk result (OthersStay self.old self.new tx) }
        ensures kept { OnErr result (StaysSame self.old self.new) }
        ensures refused { IfErr result (Refuses self.old (λ run. StepRefused NotPrepared run tx)) }
    {
        let mut newest = self.newest_pending(tx)?;
        let most = self.head.pending;
        for _ in 0..most {
            if newest <= savepoint {
                return Ok(());
            }
            self.undo_last(tx)?;
            newest = self.newest_pending(tx)?;
        }
        Ok(())
    }

    /// Rolls a transaction back: each pending update of it is undone by a CLR, the newest first, and then
    /// it ends. Returns the LSN of its end record. ARIES, section 4.2 (total rollback). It is never refused
    /// for memory or for an LSN.
    ///
    /// Errors, after which the journal is unchanged:
    /// - UnknownTransaction: no transaction of this number is unfinished.
    /// - Forbidden: the transaction is prepared: it has to commit or to abort first.
    pub fn roll_back(&mut self, tx: u32) -> Result<u64, Refusal>
        ensures ok { OnOk result (RollsBackAll self.old self.new tx) }
        ensures lsn { IfOk result (λ lsn. lsn ≡ self.new.head.last) }
        ensures rest { LeavesRest self.old self.new }
        ensures others { OnOk result (OthersStay self.old self.new tx) }
        ensures kept { OnErr result (StaysSame self.old self.new) }
        ensures refused { IfErr result (Refuses self.old (λ run. StepRefused NotPrepared run tx)) }
    {
        if self.newest_pending(tx)? > 0 {
            self.roll_back_to(tx, 0)?;
        }
        self.end(tx)?;
        Ok(self.head.last)
    }

    /// A transaction commits, aborts or ends: the record is appended, and its LSN is returned. Room for
    /// its frame is set aside. The errors are those of `commit`, `abort` and `end`.
    fn take_turn(&mut self, turn: Turn, tx: u32) -> Result<u64, Refusal>
        requires { is_owed turn ≡ true }
        ensures ok { OnOk result (AppendsTurn self.old self.new turn tx) }
        ensures lsn { IfOk result (λ lsn. lsn ≡ self.old.head.last + 1) }
        ensures rest { LeavesRest self.old self.new }
        ensures others { OnOk result (OthersStay self.old self.new tx) }
        ensures kept { OnErr result (self.new ≡ self.old) }
        ensures refused { IfErr result (RefusesTurn self.old turn tx) }
    {
        let size = turns::take_turn(
            &mut self.head,
            &mut self.transactions,
            &self.pending,
            turn,
            tx,
            &mut self.buffer[self.length..],
        )?;
        self.length += size;
        self.reserved = self.reserved.saturating_sub(size);
        Ok(self.head.last)
    }

    /// A transaction that is active or prepared commits: it has finished, and its cells are free. A
    /// commit is appended, and its LSN is returned. The transaction is committed for good when the log is
    /// on the disk up to this LSN. It is never refused for memory or for an LSN.
    ///
    /// Errors, after which the journal is unchanged:
    /// - UnknownTransaction: no transaction of this number is unfinished.
    /// - Forbidden: the transaction is aborting.
    pub fn commit(&mut self, tx: u32) -> Result<u64, Refusal>
        ensures ok { OnOk result (Appends self.old self.new
            (λ base run. Commit (plain_by run tx))) }
        ensures lsn { IfOk result (λ lsn. lsn ≡ self.old.head.last + 1) }
        ensures rest { LeavesRest self.old self.new }
        ensures others { OnOk result (OthersStay self.old self.new tx) }
        ensures kept { OnErr result (self.new ≡ self.old) }
        ensures refused { IfErr result (Refuses self.old (λ run. StepRefused NotAborting run tx)) }
    {
        self.take_turn(Turn::Commit, tx)
    }

    /// A transaction that is active or prepared begins to abort: an abort is appended, and its LSN is
    /// returned. After it the transaction can only be rolled back. It is never refused for memory or for
    /// an LSN.
    ///
    /// Errors, after which the journal is unchanged:
    /// - UnknownTransaction: no transaction of this number is unfinished.
    /// - Forbidden: the transaction is aborting already.
    pub fn abort(&mut self, tx: u32) -> Result<u64, Refusal>
        ensures ok { OnOk result (Appends self.old self.new (λ base run. Abort (plain_by run tx))) }
        ensures lsn { IfOk result (λ lsn. lsn ≡ self.old.head.last + 1) }
        ensures rest { LeavesRest self.old self.new }
        ensures others { OnOk result (OthersStay self.old self.new tx) }
        ensures kept { OnErr result (self.new ≡ self.old) }
        ensures refused { IfErr result (Refuses self.old (λ run. StepRefused NotAborting run tx)) }
    {
        self.take_turn(Turn::Abort, tx)
    }

    /// A transaction without a pending update ends: it has finished, and its cells are free. An end
    /// record is appended, and its LSN is returned. It is never refused for memory or for an LSN.
    ///
    /// Errors, after which the journal is unchanged:
    /// - UnknownTransaction: no transaction of this number is unfinished.
    /// - Forbidden: the transaction is prepared.
    /// - StillPending: an update of it is pending.
    pub fn end(&mut self, tx: u32) -> Result<u64, Refusal>
        ensures ok { OnOk result (Appends self.old self.new (λ base run. End (plain_by run tx))) }
        ensures lsn { IfOk result (λ lsn. lsn ≡ self.old.head.last + 1) }
        ensures rest { LeavesRest self.old self.new }
        ensures others { OnOk result (OthersStay self.old self.new tx) }
        ensures kept { OnErr result (self.new ≡ self.old) }
        ensures refused { IfErr result (Refuses self.old (λ run. OwnEndRefused run tx)) }
    {
        self.take_turn(Turn::End, tx)
    }

    /// An active transaction prepares to commit: a prepare is appended, and its LSN is returned. When the
    /// log is on the disk up to this LSN, the transaction survives a crash in doubt. It keeps its cells
    /// until `commit`, or `abort` and `roll_back`.
    ///
    /// Errors, after which the journal is unchanged:
    /// - UnknownTransaction: no transaction of this number is unfinished.
    /// - Forbidden: the transaction is aborting, or prepared already.
    /// - LogFull: too few LSNs are left for the rollback of what is unfinished.
    /// - NoResource: memory was refused.
    pub fn prepare(&mut self, tx: u32) -> Result<u64, Refusal>
        ensures ok { OnOk result (Appends self.old self.new
            (λ base run. Prepare (plain_by run tx))) }
        ensures lsn { IfOk result (λ lsn. lsn ≡ self.old.head.last + 1) }
        ensures rest { LeavesRest self.old self.new }
        ensures others { OnOk result (OthersStay self.old self.new tx) }
        ensures kept { OnErr result (self.new ≡ self.old) }
        ensures refused { IfErr result (Refuses self.old
            (λ run. OwnPrepareRefused run tx self.old.head)) }
    {
        let rollback = make_room(
            &mut self.buffer,
            self.length,
            PLAIN_FRAME,
            self.pending.len(),
        )?;
        let size = turns::take_turn(
            &mut self.head,
            &mut self.transactions,
            &self.pending,
            Turn::Prepare,
            tx,
            &mut self.buffer[self.length..],
        )?;
        self.length += size;
        self.reserved = rollback;
        Ok(self.head.last)
    }

    /// Takes a checkpoint: a begin record and an end record are appended. Returns their LSNs. The first one may
    /// be the store's master when the log is on the disk up to the second one, and all pages that
    /// `page_written` reported before are on the disk too.
    ///
    /// Errors, after which the journal is unchanged:
    /// - LogFull: too few LSNs are left for the rollback of what is unfinished.
    /// - NoResource: memory was refused.
    pub fn checkpoint(&mut self) -> Result<(u64, u64), Refusal>
        ensures ok { OnOk result (TakesCheckpoint self.old self.new) }
        ensures begin { IfOk result (λ lsns. lsns.0 ≡ self.old.head.last + 1) }
        ensures end { IfOk result (λ lsns. lsns.1 ≡ self.old.head.last + 2) }
        ensures rest { LeavesRest self.old self.new }
        ensures transactions { self.new.transactions ≡ self.old.transactions }
        ensures pending { self.new.pending ≡ self.old.pending }
        ensures pages { self.new.pages ≡ self.old.pages }
        ensures kept { OnErr result (self.new ≡ self.old) }
        ensures refused { IfErr result (Refuses self.old
            (λ _. OwnCheckpointRefused self.old.head)) }
    {
        let rollback = make_room(
            &mut self.buffer,
            self.length,
            LONGEST_CHECKPOINT,
            self.pending.len(),
        )?;
        let size = checkpoints::checkpoint(
            &mut self.head,
            &self.transactions,
            &self.pages,
            &mut self.buffer[self.length..],
        )?;
        self.length += size;
        self.reserved = rollback;
        Ok((self.head.last - 1, self.head.last))
    }
}
