//! What the transactions of an engine did. The model knows nothing of frames, PageLSNs and UndoNxtLSNs.

use page::{Page, SLOTS, Value};
use std::alloc::{AllocError, Global};

/// The number of each transaction is below this.
const TRANSACTIONS: usize = 256;

/// What a record says.
#[derive(Clone, Copy, PartialEq, Eq)]
pub enum Kind {
    Update,
    /// A CLR.
    Undo,
    Commit,
    Abort,
    Prepare,
    End,
    Checkpoint,
}

/// A record. The record with LSN n is the n-th one.
#[derive(Clone, Copy)]
pub struct Event {
    pub kind: Kind,
    /// Its transaction, 0 if it has none.
    pub tx: u32,
    /// The cell that it changed.
    pub cell: usize,
    /// The number of the value that was there before.
    pub before: u16,
    /// The number of the value that it put there.
    pub after: u16,
}

impl Event {
    /// A record that changes no cell.
    pub fn plain(kind: Kind, tx: u32) -> Event {
        Event {
            kind,
            tx,
            cell: 0,
            before: 0,
            after: 0,
        }
    }
}

#[derive(Clone, Copy, PartialEq, Eq)]
pub enum State {
    Active,
    Aborting,
    Prepared,
}

/// An unfinished transaction.
#[derive(Clone, Copy)]
pub struct Worker {
    pub tx: u32,
    pub state: State,
}

/// An update that is not undone, of an unfinished transaction.
#[derive(Clone, Copy)]
struct Pending {
    lsn: u64,
    tx: u32,
    cell: usize,
    before: u16,
}

/// What the records of a log did.
#[derive(Drop)]
pub struct Model {
    pub events: Vec<Event>,
    /// The number of the value of each cell.
    pub cells: Vec<u16>,
    /// The unfinished transaction that has changed each cell, or 0.
    holders: Vec<u32>,
    pub workers: Vec<Worker>,
    /// The pending updates, the oldest first.
    pending: Vec<Pending>,
}

/// The value of this number. Number 0 is no value, and a multiple of 49 is the empty one.
pub fn value_of(number: u16) -> Option<Value> {
    if number == 0 {
        return None;
    }
    let bytes = [(number & 0xff) as u8; 48];
    Value::new(&bytes[..(number % 49) as usize])
}

/// The place of a slot of a page among all cells.
pub fn cell_of(page: u32, slot: u8) -> usize {
    page as usize * SLOTS + slot as usize
}

/// The page of this number in which the cells hold these values.
pub fn page_of(number: u32, cells: &[u16]) -> Page {
    let mut page = Page::empty(number);
    for slot in 0..SLOTS {
        let cell = number as usize * SLOTS + slot;
        page.set(slot, value_of(cells.get(cell).copied().unwrap_or(0)), 0);
    }
    page
}

impl Model {
    /// The model of a log without records, over this many cells without values.
    pub fn new(alloc: Global, cells: usize) -> Result<Model, AllocError> {
        Ok(Model {
            events: Vec::new(alloc),
            cells: vec![in alloc; 0; cells]?,
            holders: vec![in alloc; 0; cells]?,
            workers: Vec::new(alloc),
            pending: Vec::new(alloc),
        })
    }

    pub fn last_lsn(&self) -> u64 {
        self.events.len() as u64
    }

    /// The number of the value of a cell.
    pub fn value(&self, cell: usize) -> u16 {
        self.cells.get(cell).copied().unwrap_or(0)
    }

    /// Whether a transaction may change a cell.
    pub fn is_free(&self, cell: usize, tx: u32) -> bool {
        let holder = self.holders.get(cell).copied().unwrap_or(0);
        holder == 0 || holder == tx
    }

    /// The state of a transaction; `None` if it is not an unfinished one.
    pub fn state(&self, tx: u32) -> Option<State> {
        for worker in &self.workers {
            if worker.tx == tx {
                return Some(worker.state);
            }
        }
        None
    }

    /// Whether a transaction has a record.
    pub fn has_record(&self, tx: u32) -> bool {
        for event in &self.events {
            if event.tx == tx {
                return true;
            }
        }
        false
    }

    /// The place of the newest pending update of a transaction.
    fn newest(&self, tx: u32) -> Option<usize> {
        let mut newest = None;
        for (place, update) in self.pending.iter().enumerate() {
            if update.tx == tx {
                newest = Some(place);
            }
        }
        newest
    }

    /// Whether a transaction has a pending update.
    pub fn has_pending(&self, tx: u32) -> bool {
        self.newest(tx).is_some()
    }

    /// A transaction begins.
    pub fn begin(&mut self, tx: u32) -> Result<(), AllocError> {
        self.workers.push(Worker {
            tx,
            state: State::Active,
        })?;
        Ok(())
    }

    /// A transaction has finished.
    pub fn leave(&mut self, tx: u32) {
        self.workers.retain(|worker| worker.tx != tx);
        self.pending.retain(|update| update.tx != tx);
        for holder in self.holders.iter_mut() {
            if *holder == tx {
                *holder = 0;
            }
        }
    }

    fn set_state(&mut self, tx: u32, state: State) {
        for worker in self.workers.iter_mut() {
            if worker.tx == tx {
                worker.state = state;
            }
        }
    }

    /// A record changes a cell.
    fn put(&mut self, event: &Event) {
        if let Some(cell) = self.cells.get_mut(event.cell) {
            *cell = event.after;
        }
        if let Some(holder) = self.holders.get_mut(event.cell) {
            *holder = event.tx;
        }
    }

    /// The newest pending update of a transaction is not pending any more.
    fn drop_newest(&mut self, tx: u32) {
        if let Some(place) = self.newest(tx) {
            if place < self.pending.len() {
                let _ = self.pending.remove(place);
            }
        }
    }

    /// A record is appended. If it is the first one of its transaction, this has begun.
    pub fn append(&mut self, event: Event) -> Result<(), AllocError> {
        if event.tx != 0 && self.state(event.tx).is_none() {
            self.begin(event.tx)?;
        }
        self.events.push(event)?;
        match event.kind {
            Kind::Update => {
                self.put(&event);
                let lsn = self.last_lsn();
                self.pending.push(Pending {
                    lsn,
                    tx: event.tx,
                    cell: event.cell,
                    before: event.before,
                })?;
            }
            Kind::Undo => {
                self.put(&event);
                self.drop_newest(event.tx);
            }
            Kind::Commit => self.leave(event.tx),
            Kind::End => self.leave(event.tx),
            Kind::Abort => self.set_state(event.tx, State::Aborting),
            Kind::Prepare => self.set_state(event.tx, State::Prepared),
            Kind::Checkpoint => {}
        }
        Ok(())
    }

    /// The pending updates of a transaction above this LSN are undone, the newest first.
    pub fn undo_to(&mut self, tx: u32, savepoint: u64) -> Result<(), AllocError> {
        for _ in 0..self.pending.len() {
            let Some(place) = self.newest(tx) else {
                return Ok(());
            };
            if !self.undo_above(place, savepoint)? {
                return Ok(());
            }
        }
        Ok(())
    }

    /// The pending update at this place is undone if it is above this LSN. Whether it is.
    fn undo_above(&mut self, place: usize, savepoint: u64) -> Result<bool, AllocError> {
        let Some(update) = self.pending.get(place).copied() else {
            return Ok(false);
        };
        if update.lsn <= savepoint {
            return Ok(false);
        }
        let before = self.value(update.cell);
        self.append(Event {
            kind: Kind::Undo,
            tx: update.tx,
            cell: update.cell,
            before,
            after: update.before,
        })?;
        Ok(true)
    }

    /// The newest pending update of a transaction is undone.
    pub fn undo_last(&mut self, tx: u32) -> Result<(), AllocError> {
        match self.newest(tx) {
            Some(place) => {
                self.undo_above(place, 0)?;
                Ok(())
            }
            None => Ok(()),
        }
    }

    /// A transaction is rolled back, and ends.
    pub fn roll_back(&mut self, tx: u32) -> Result<(), AllocError> {
        self.undo_to(tx, 0)?;
        self.append(Event::plain(Kind::End, tx))
    }

    /// The model of the log up to an LSN.
    pub fn cut(&self, alloc: Global, last: u64) -> Result<Model, AllocError> {
        let mut model = Model::new(alloc, self.cells.len())?;
        for event in &self.events {
            if model.last_lsn() < last {
                model.append(*event)?;
            }
        }
        Ok(model)
    }

    /// The first unfinished transaction that is not prepared.
    fn first_loser(&self) -> Option<u32> {
        for worker in &self.workers {
            if worker.state != State::Prepared {
                return Some(worker.tx);
            }
        }
        None
    }

    /// All unfinished transactions are rolled back that are not prepared.
    pub fn roll_back_losers(&mut self) -> Result<(), AllocError> {
        for _ in 0..self.workers.len() {
            match self.first_loser() {
                Some(tx) => self.roll_back(tx)?,
                None => return Ok(()),
            }
        }
        Ok(())
    }
}

/// Whether the changes of each transaction last after a crash that leaves these records: it has
/// committed, or it is in doubt.
fn lasting(alloc: Global, events: &[Event]) -> Result<Vec<bool>, AllocError> {
    let mut lasts = vec![in alloc; false; TRANSACTIONS]?;
    for event in events {
        if let Some(last) = lasts.get_mut(event.tx as usize) {
            match event.kind {
                Kind::Commit => *last = true,
                Kind::Prepare => *last = true,
                Kind::Abort => *last = false,
                _ => {}
            }
        }
    }
    Ok(lasts)
}

/// The values of this many cells after a crash that leaves these records, and a recovery: the
/// changes of the committed transactions and of those in doubt, in their order.
pub fn lasting_cells(
    alloc: Global,
    events: &[Event],
    count: usize,
) -> Result<Vec<u16>, AllocError> {
    let lasts = lasting(alloc, events)?;
    let mut cells = vec![in alloc; 0; count]?;
    for event in events {
        let changes = event.kind == Kind::Update || event.kind == Kind::Undo;
        if changes && lasts.get(event.tx as usize).copied().unwrap_or(false) {
            if let Some(cell) = cells.get_mut(event.cell) {
                *cell = event.after;
            }
        }
    }
    Ok(cells)
}
