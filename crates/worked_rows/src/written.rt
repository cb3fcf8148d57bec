//! Worked rows: logs, what a restart appends to them, pages and stores.

use page::{Fault, Page, Value, encode_page};
use std::alloc::Global;
use wal::{Entry, Record, State, write_frame};

/// What a slot holds: one letter, or nothing.
pub type Letter = Option<u8>;

/// The value of one letter.
pub fn value(letter: Letter) -> Option<Value> {
    match letter {
        Some(letter) => Value::new(&[letter]),
        None => None,
    }
}

/// The bytes of a log, written record by record.
#[derive(Drop)]
pub struct Text {
    pub bytes: Vec<u8>,
    pub lsn: u64,
}

impl Text {
    pub fn new(alloc: Global) -> Result<Text, Fault> {
        let bytes = Vec::from_slice(alloc, b"ARIESLG1")?;
        Ok(Text { bytes, lsn: 0 })
    }

    pub fn copied(&self) -> Result<Text, Fault> {
        let bytes = self.bytes.clone()?;
        Ok(Text {
            bytes,
            lsn: self.lsn,
        })
    }

    /// Appends a record that has an encoding.
    pub fn put(&mut self, logged: &Record) -> Result<(), Fault> {
        if self.lsn < u64::MAX && logged.is_writable() {
            self.lsn += 1;
            write_frame(logged, self.lsn, &mut self.bytes)?;
        }
        Ok(())
    }

    /// Appends an update on page 0.
    pub fn update(
        &mut self,
        tx: u32,
        prev: u64,
        slot: u8,
        before: Letter,
        after: Letter,
    ) -> Result<(), Fault> {
        self.put(&Record::Update {
            tx,
            prev,
            page: 0,
            slot,
            before: value(before),
            after: value(after),
        })
    }

    /// Appends the first update of transaction 1, of slot 0 of a page to "a".
    pub fn first_update(&mut self, page: u32) -> Result<(), Fault> {
        self.put(&Record::Update {
            tx: 1,
            prev: 0,
            page,
            slot: 0,
            before: None,
            after: Value::new(b"a"),
        })
    }

    /// Appends a CLR on page 0.
    pub fn clr(
        &mut self,
        tx: u32,
        prev: u64,
        undo_next: u64,
        slot: u8,
        image: Letter,
    ) -> Result<(), Fault> {
        self.put(&Record::Compensation {
            tx,
            prev,
            page: 0,
            slot,
            undo_next,
            image: value(image),
        })
    }

    pub fn commit(&mut self, tx: u32, prev: u64) -> Result<(), Fault> {
        self.put(&Record::Commit { tx, prev })
    }

    pub fn abort(&mut self, tx: u32, prev: u64) -> Result<(), Fault> {
        self.put(&Record::Abort { tx, prev })
    }

    pub fn end(&mut self, tx: u32, prev: u64) -> Result<(), Fault> {
        self.put(&Record::End { tx, prev })
    }

    pub fn prepare(&mut self, tx: u32, prev: u64) -> Result<(), Fault> {
        self.put(&Record::Prepare { tx, prev })
    }

    /// Appends a checkpoint whose transaction table has one active entry: number, LastLSN,
    /// UndoNxtLSN.
    pub fn checkpoint(
        &mut self,
        alloc: Global,
        entry: (u32, u64, u64),
        dirty: &[(u32, u64)],
    ) -> Result<(), Fault> {
        self.put(&Record::CheckpointBegin)?;
        self.checkpoint_end(alloc, self.lsn, entry, dirty)
    }

    /// Appends the end of such a checkpoint, which began at this LSN.
    pub fn checkpoint_end(
        &mut self,
        alloc: Global,
        begin: u64,
        entry: (u32, u64, u64),
        dirty: &[(u32, u64)],
    ) -> Result<(), Fault> {
        let (tx, last, undo_next) = entry;
        let state = State::Active;
        let mut transactions = Vec::new(alloc);
        transactions.push((
            tx,
            Entry {
                state,
                last,
                undo_next,
            },
        ))?;
        self.put(&Record::CheckpointEnd {
            begin,
            transactions,
            dirty: Vec::from_slice(alloc, dirty)?,
        })
    }
}

/// A log, and the log that a restart makes of it.
#[derive(Drop)]
pub struct Row {
    pub given: Text,
    pub made: Text,
}

pub fn one_loser(alloc: Global) -> Result<Row, Fault> {
    let mut given = Text::new(alloc)?;
    given.first_update(0)?;
    let mut made = given.copied()?;
    made.clr(1, 1, 0, 0, None)?;
    made.end(1, 2)?;
    Ok(Row { given, made })
}

pub fn two_losers(alloc: Global) -> Result<Row, Fault> {
    let mut given = Text::new(alloc)?;
    given.first_update(0)?;
    given.update(2, 0, 1, None, Some(b'b'))?;
    given.update(1, 1, 0, Some(b'a'), Some(b'c'))?;
    let mut made = given.copied()?;
    made.clr(1, 3, 1, 0, Some(b'a'))?;
    made.clr(2, 2, 0, 1, None)?;
    made.end(2, 5)?;
    made.clr(1, 4, 0, 0, None)?;
    made.end(1, 7)?;
    Ok(Row { given, made })
}

pub fn partial_rollback_loser(alloc: Global) -> Result<Row, Fault> {
    let mut given = Text::new(alloc)?;
    given.first_update(0)?;
    given.update(1, 1, 0, Some(b'a'), Some(b'b'))?;
    given.clr(1, 2, 1, 0, Some(b'a'))?;
    given.update(1, 3, 0, Some(b'a'), Some(b'c'))?;
    let mut made = given.copied()?;
    made.clr(1, 4, 3, 0, Some(b'a'))?;
    made.clr(1, 5, 0, 0, None)?;
    made.end(1, 6)?;
    Ok(Row { given, made })
}

pub fn rollback_interrupted(alloc: Global) -> Result<Row, Fault> {
    let mut given = Text::new(alloc)?;
    given.first_update(0)?;
    given.update(1, 1, 0, Some(b'a'), Some(b'b'))?;
    given.abort(1, 2)?;
    given.clr(1, 3, 1, 0, Some(b'a'))?;
    let mut made = given.copied()?;
    made.clr(1, 4, 0, 0, None)?;
    made.end(1, 5)?;
    Ok(Row { given, made })
}

pub fn several_kinds_of_loser(alloc: Global) -> Result<Row, Fault> {
    let mut given = Text::new(alloc)?;
    given.first_update(0)?;
    given.abort(1, 1)?;
    given.clr(1, 2, 0, 0, None)?;
    given.update(2, 0, 1, None, Some(b'b'))?;
    given.abort(3, 0)?;
    let mut made = given.copied()?;
    made.end(1, 3)?;
    made.end(3, 5)?;
    made.clr(2, 4, 0, 1, None)?;
    made.end(2, 8)?;
    Ok(Row { given, made })
}

/// One update, and a prepare of its transaction.
pub fn prepared(alloc: Global) -> Result<Text, Fault> {
    let mut text = Text::new(alloc)?;
    text.first_update(0)?;
    text.prepare(1, 1)?;
    Ok(text)
}

pub fn prepared_commit(alloc: Global) -> Result<Text, Fault> {
    let mut text = prepared(alloc)?;
    text.commit(1, 2)?;
    Ok(text)
}

pub fn prepared_abort(alloc: Global) -> Result<Row, Fault> {
    let mut given = prepared(alloc)?;
    given.abort(1, 2)?;
    let mut made = given.copied()?;
    made.clr(1, 3, 0, 0, None)?;
    made.end(1, 4)?;
    Ok(Row { given, made })
}

pub fn prepared_beside_loser(alloc: Global) -> Result<Row, Fault> {
    let mut given = prepared(alloc)?;
    given.update(2, 0, 1, None, Some(b'b'))?;
    let mut made = given.copied()?;
    made.clr(2, 3, 0, 1, None)?;
    made.end(2, 4)?;
    Ok(Row { given, made })
}

/// The master is 2. The transaction is active in the table of the checkpoint, and prepared between
/// the two checkpoint records.
pub fn prepared_in_checkpoint(alloc: Global) -> Result<Text, Fault> {
    let mut text = Text::new(alloc)?;
    text.first_update(0)?;
    text.put(&Record::CheckpointBegin)?;
    text.prepare(1, 1)?;
    text.checkpoint_end(alloc, 2, (1, 1, 1), &[(0, 1)])?;
    Ok(text)
}

/// Transactions that prepared without updates; one of them was aborted.
pub fn prepared_idle(alloc: Global) -> Result<Row, Fault> {
    let mut given = Text::new(alloc)?;
    given.prepare(7, 0)?;
    given.prepare(5, 0)?;
    given.prepare(3, 0)?;
    given.abort(5, 2)?;
    let mut made = given.copied()?;
    made.end(5, 4)?;
    Ok(Row { given, made })
}

/// The master is 2.
pub fn checkpoint_loser(alloc: Global) -> Result<Row, Fault> {
    let mut given = Text::new(alloc)?;
    given.first_update(0)?;
    given.checkpoint(alloc, (1, 1, 1), &[(0, 1)])?;
    let mut made = given.copied()?;
    made.clr(1, 1, 0, 0, None)?;
    made.end(1, 4)?;
    Ok(Row { given, made })
}

/// The log of one update on a page, and its commit.
pub fn one_commit(alloc: Global, page: u32) -> Result<Text, Fault> {
    let mut text = Text::new(alloc)?;
    text.first_update(page)?;
    text.commit(1, 1)?;
    Ok(text)
}

/// Transaction 1 puts "a" and "b" into slot 0 of page 0 in turn, in this many updates, and commits.
pub fn long_commit(alloc: Global, updates: u64) -> Result<Text, Fault> {
    let mut text = Text::new(alloc)?;
    let mut before = None;
    for prev in 0..updates {
        let after = if prev % 2 == 0 {
            Some(b'a')
        } else {
            Some(b'b')
        };
        text.update(1, prev, 0, before, after)?;
        before = after;
    }
    text.commit(1, updates)?;
    Ok(text)
}

/// Two updates of one slot and the CLR of the second, and the commit.
pub fn partial_rollback_commit(alloc: Global) -> Result<Text, Fault> {
    let mut text = Text::new(alloc)?;
    text.first_update(0)?;
    text.update(1, 1, 0, Some(b'a'), Some(b'b'))?;
    text.clr(1, 2, 1, 0, Some(b'a'))?;
    text.commit(1, 3)?;
    Ok(text)
}

pub fn clr_points_past_zero(alloc: Global) -> Result<Text, Fault> {
    let mut text = Text::new(alloc)?;
    text.first_update(0)?;
    text.clr(1, 1, 2, 0, None)?;
    Ok(text)
}

/// The master is 2.
pub fn undo_of_missing_page(alloc: Global) -> Result<Text, Fault> {
    let mut text = Text::new(alloc)?;
    text.first_update(7)?;
    text.checkpoint(alloc, (1, 1, 1), &[])?;
    Ok(text)
}

/// Page 0 with these letters in slots 0 and 1.
pub fn page_with(lsn: u64, first: Letter, second: Letter) -> Page {
    let mut page = Page::empty(0);
    page.set(0, value(first), lsn);
    page.set(1, value(second), lsn);
    page
}

/// The bytes of a store of one page.
pub fn store_of(alloc: Global, master: u64, page: &Page) -> Result<Vec<u8>, Fault> {
    let mut store = Vec::from_slice(alloc, b"ARIESPG1\x00\x00\x00\x01\x00\x00\x00\x00")?;
    store.extend_from_slice(&master.to_be_bytes())?;
    store.extend_from_slice(&encode_page(page))?;
    Ok(store)
}
