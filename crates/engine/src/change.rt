//! The changes of transactions that have not finished, to be printed.

use anyhow::Result;
use page::Value;
use std::alloc::Global;
use std::io::Write;

/// A change of a cell, which is not undone.
#[derive(Clone, Copy)]
pub struct Change {
    pub tx: u32,
    /// The LSN of its update.
    pub lsn: u64,
    pub page: u32,
    pub slot: u8,
    /// The new value is this number in decimal; 0 for no value.
    pub number: u64,
}

/// The value of this number: its decimal digits. Number 0 is no value.
pub fn value_of(alloc: Global, number: u64) -> Result<Option<Value>> {
    if number == 0 {
        return Ok(None);
    }
    let digits = format!(in alloc; "{number}")?;
    Ok(Value::new(digits.as_bytes()))
}

/// The changes that are not undone, of all transactions that have not finished.
#[derive(Drop)]
pub struct Changes {
    all: Vec<Change>,
}

impl Changes {
    /// No changes.
    pub fn new(alloc: Global) -> Changes {
        Changes {
            all: Vec::new(alloc),
        }
    }

    /// Adds a change after the others. The only error is a lack of memory.
    pub fn push(&mut self, change: Change) -> Result<()> {
        self.all.push(change)?;
        Ok(())
    }

    /// The LSN of a transaction's newest change, 0 if there is none.
    pub fn newest(&self, tx: u32) -> u64 {
        let mut newest = 0;
        for change in &self.all {
            if change.tx == tx {
                newest = change.lsn;
            }
        }
        newest
    }

    /// Forgets the changes of a transaction with LSNs above this one.
    pub fn forget(&mut self, tx: u32, above: u64) {
        self.all
            .retain(|change| change.tx != tx || change.lsn <= above);
    }

    /// Writes the changes of a transaction, in their order.
    pub fn write<W: Write>(&self, tx: u32, out: &mut W) -> Result<()> {
        for change in &self.all {
            if change.tx == tx {
                write!(out, " {}.{}={}", change.page, change.slot, change.number)?;
            }
        }
        Ok(())
    }
}
