//! A log as an engine writes it, and what its records leave in the pages.

use crate::chance::{Chance, in_order, low_16, low_32};
use crate::values::{accents_of, json_of, key_of, line_of, longest_of};
use anyhow::{Context, Result};
use page::{PAGES, Page, SLOTS, Value, encode_page, store_header};
use std::alloc::Global;
use wal::{Entry, Record, State, based_header, plain_header, write_frame};

/// How many cells there are: slot c mod 16 of page c / 16 is cell c.
pub const CELLS: usize = PAGES * SLOTS;

/// The smallest base LSN of a log behind an archived one.
const BASE: u64 = 1 << 32;

/// A transaction that is at work.
#[derive(Clone, Copy)]
pub struct Running {
    pub number: u32,
    /// The LSN of its last record.
    pub last: u64,
}

impl Running {
    pub fn new(number: u32) -> Running {
        Running { number, last: 0 }
    }
}

/// What values look like.
#[derive(Clone, Copy, PartialEq, Eq)]
pub enum Values {
    /// The LSN and up to eight bytes by chance.
    Bytes,
    /// Eight to sixteen letters.
    Letters,
    /// 47 letters and a line feed.
    Lines,
    /// An object of a number and a name, as JSON.
    Json,
    /// 48 bytes of words in UTF-8, in which one letter of six takes two bytes.
    Accents,
    /// 16 bytes by chance.
    Keys,
    /// As many bytes by chance as a value can have.
    Longest,
}

/// A log that is being written.
#[derive(Drop)]
pub struct Writer {
    alloc: Global,
    pub bytes: Vec<u8>,
    lsn: u64,
    values: Values,
    /// What each cell holds.
    cells: Vec<Option<Value>>,
    /// PageLSN of each page.
    page_lsns: Vec<u64>,
    /// RecLSN of each page, 0 where it is clean.
    rec_lsns: Vec<u64>,
    /// The pages as they were flushed.
    flushed: Vec<Page>,
    chance: Chance,
    /// How many cells were drawn so far.
    turn: u64,
    /// The order in which cells are drawn.
    order: u64,
}

/// The page and the slot of a cell.
fn place_of(cell: u16) -> (u32, u8) {
    (cell as u32 / 16, (cell % 16) as u8)
}

impl Writer {
    /// An empty log and empty pages.
    pub fn new(alloc: Global, seed: u64, values: Values) -> Result<Writer> {
        let mut chance = Chance::new(seed);
        let order = chance.draw();
        let mut flushed = Vec::with_capacity(alloc, PAGES)?;
        for number in 0..PAGES {
            flushed.push(Page::empty(number as u32))?;
        }
        Ok(Writer {
            alloc,
            bytes: Vec::from_slice(alloc, &plain_header())?,
            lsn: 0,
            values,
            cells: vec![in alloc; None; CELLS]?,
            page_lsns: vec![in alloc; 0; PAGES]?,
            rec_lsns: vec![in alloc; 0; PAGES]?,
            flushed,
            chance,
            turn: 0,
            order,
        })
    }

    /// A log behind one that was archived, beside pages all of whose cells have values.
    pub fn behind(alloc: Global, seed: u64) -> Result<Writer> {
        Writer::behind_with(alloc, seed, Values::Bytes)
    }

    /// The same, with values of this kind.
    pub fn behind_with(alloc: Global, seed: u64, values: Values) -> Result<Writer> {
        let mut writer = Writer::new(alloc, seed, Values::Bytes)?;
        writer.values = values;
        let base = BASE + writer.chance.draw() % BASE;
        writer.bytes.clear();
        writer.bytes.extend_from_slice(&based_header(base))?;
        for cell in 0..CELLS {
            writer.lsn = cell as u64 + 1;
            let value = writer.new_value();
            *writer.cells.get_mut(cell).context("no such cell")? = value;
        }
        for number in 0..PAGES {
            let page_lsn = 1 + writer.chance.draw() % BASE;
            *writer.page_lsns.get_mut(number).context("no such page")? = page_lsn;
            writer.flush(number)?;
        }
        writer.lsn = base;
        Ok(writer)
    }

    /// A cell that differs from the last 65,535 where `anew` is false, else from the last 127 at
    /// least: each cell comes as often as any other, in an order by chance.
    pub fn draw_cell(&mut self, anew: bool) -> u16 {
        let place = low_16(self.turn);
        if place == 0 && anew {
            self.order = self.chance.draw();
        }
        self.turn = self.turn.wrapping_add(1);
        in_order(place, self.order)
    }

    /// Appends a record, and gives its LSN.
    fn put(&mut self, logged: &Record) -> Result<u64> {
        let lsn = self.lsn.checked_add(1).context("no LSN is left")?;
        if !logged.is_writable() {
            return Err(anyhow::Error::msg("a record has no spelling"));
        }
        write_frame(logged, lsn, &mut self.bytes)?;
        self.lsn = lsn;
        Ok(lsn)
    }

    /// A value that no cell has had.
    /// Of JSON there are 40,960 values, so one of these can come again.
    fn new_value(&mut self) -> Option<Value> {
        let drawn = self.chance.draw();
        match self.values {
            Values::Bytes | Values::Letters => {}
            Values::Lines => return line_of(drawn),
            Values::Json => return json_of(drawn),
            Values::Accents => return accents_of(drawn),
            Values::Keys => return key_of(drawn),
            Values::Longest => return longest_of(drawn),
        }
        let mut bytes = [0; 16];
        let (front, back) = bytes.split_at_mut(8);
        front.copy_from_slice(&self.lsn.to_be_bytes());
        back.copy_from_slice(&drawn.to_be_bytes());
        if self.values == Values::Letters {
            for byte in bytes.iter_mut() {
                *byte = b'a' + (*byte & 15);
            }
        }
        Value::new(&bytes[..8 + (drawn % 9) as usize])
    }

    /// Appends an update of a cell.
    pub fn update(&mut self, transaction: &mut Running, cell: u16) -> Result<()> {
        let (page, slot) = place_of(cell);
        let before = *self.cells.get(cell as usize).context("no such cell")?;
        let after = self.new_value();
        let lsn = self.put(&Record::Update {
            tx: transaction.number,
            prev: transaction.last,
            page,
            slot,
            before,
            after,
        })?;
        transaction.last = lsn;
        *self.cells.get_mut(cell as usize).context("no such cell")? = after;
        *self
            .page_lsns
            .get_mut(page as usize)
            .context("no such page")? = lsn;
        let rec_lsn = self
            .rec_lsns
            .get_mut(page as usize)
            .context("no such page")?;
        if *rec_lsn == 0 {
            *rec_lsn = lsn;
        }
        Ok(())
    }

    /// Appends a commit.
    pub fn commit(&mut self, transaction: &Running) -> Result<()> {
        let Running { number, last } = *transaction;
        self.put(&Record::Commit {
            tx: number,
            prev: last,
        })?;
        Ok(())
    }

    /// Begins a checkpoint, with these transactions at work in rising order of number. Gives its LSN,
    /// and the record that ends it.
    pub fn begin_checkpoint(&mut self, running: &[Running]) -> Result<(u64, Record)> {
        let begin = self.put(&Record::CheckpointBegin)?;
        let mut transactions = Vec::new(self.alloc);
        for transaction in running {
            if transaction.last > 0 {
                let entry = Entry {
                    state: State::Active,
                    last: transaction.last,
                    undo_next: transaction.last,
                };
                transactions.push((transaction.number, entry))?;
            }
        }
        let mut dirty = Vec::new(self.alloc);
        for (number, rec_lsn) in self.rec_lsns.iter().enumerate() {
            if *rec_lsn > 0 {
                dirty.push((low_32(number as u64), *rec_lsn))?;
            }
        }
        let end = Record::CheckpointEnd {
            begin,
            transactions,
            dirty,
        };
        Ok((begin, end))
    }

    /// Ends a checkpoint.
    pub fn end_checkpoint(&mut self, end: &Record) -> Result<()> {
        self.put(end)?;
        Ok(())
    }

    /// Flushes a page.
    pub fn flush(&mut self, number: usize) -> Result<()> {
        let page = self.flushed.get_mut(number).context("no such page")?;
        let first = SLOTS * page.number as usize;
        for (slot, value) in page.slots.iter_mut().zip(self.cells.iter().skip(first)) {
            *slot = *value;
        }
        page.lsn = *self.page_lsns.get(number).context("no such page")?;
        *self.rec_lsns.get_mut(number).context("no such page")? = 0;
        Ok(())
    }

    /// The bytes of a store of the pages as they were flushed, with this master.
    pub fn store(&self, master: u64) -> Result<Vec<u8>> {
        let count = PAGES as u32;
        let mut store = Vec::from_slice(self.alloc, &store_header(count, master))?;
        for page in &self.flushed {
            store.extend_from_slice(&encode_page(page))?;
        }
        Ok(store)
    }
}
