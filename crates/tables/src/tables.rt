//! The transaction table and the dirty page table of a crash.

ghost use Rattle.std.specs.Prelude.{◌≡◌};
ghost use Rattle.log_laws.specs.Redo.{rec_lsn_of};

use std::collections::BTreeMap;
use std::marker::Model;
use wal::Entry;

/// The tables of a crash. Contracts see them as the lists of their entries, in ascending order of
/// number, and the LSN from which redo looks at records.
#[derive(Drop)]
pub struct Tables {
    /// The unfinished transactions and what is known of each: state, LastLSN and UndoNxtLSN.
    pub transactions: BTreeMap<u32, Entry>,
    /// The dirty page table: the pages that may lack records, each with the LSN of the first record
    /// that it may lack (RecLSN).
    pub dirty: BTreeMap<u32, u64>,
    /// The LSN from which redo looks at records: the smallest RecLSN, or 0 if no page is listed. A
    /// RecLSN that is not above the log's base LSN counts as the LSN after the base LSN.
    pub redo_lsn: u64,
}

impl Model for Tables {
    ghost use Rattle.std.specs.Prelude.{map};
    ghost use Rattle.wal.specs.Content.{entry_of};
    ghost use Rattle.tables.specs.Tables.{TablesContent};

    ghost Value = { TablesContent };

    ghost view = { λ s. record { transactions = map entry_of s.transactions.entries; dirty = s.dirty.entries; redo_lsn = s.redo_lsn } };
}

impl Tables {
    /// The RecLSN of a page, `None` if it is not listed as dirty.
    pub fn rec_lsn(&self, page: u32) -> Option<u64>
        ensures { result ≡ rec_lsn_of page self.now.dirty }
    {
        match self.dirty.get(&page) {
            Some(rec_lsn) => Some(*rec_lsn),
            None => None,
        }
    }
}
