//! What redo looks at: a log, a store and the tables of analysis. The rounds of workers look at a
//! partition too.

ghost use Rattle.std.specs.Prelude.{◌≡◌};
ghost use Rattle.log_laws.specs.Records.{history, base_lsn, last_lsn};
ghost use Rattle.redo.specs.Routes.{skipped, skipped_in};

use crate::Parting;
use page::Store;
use std::marker::Model;
use tables::Tables;
use wal::Log;

/// A log, a store and the tables of analysis, borrowed to count the records that each page lacks.
/// Contracts see the log, the pages, and the dirty page table with redo_lsn.
#[derive(Drop)]
pub struct RedoInput<'a> {
    pub log: &'a Log<'a>,
    pub store: &'a Store,
    pub tables: &'a Tables,
}

impl<'a> Model for RedoInput<'a> {
    ghost use Rattle.redo.specs.Inputs.{InputContent, input_of, IsInput};

    ghost Value = { InputContent };

    ghost view = { input_of };

    ghost invariant = { IsInput };
}

/// What redo looks at, with a partition of the store's pages, borrowed by all workers.
#[derive(Drop)]
pub struct PartedInput<'a> {
    pub input: RedoInput<'a>,
    pub parting: &'a Parting,
}

impl<'a> Model for PartedInput<'a> {
    ghost use Rattle.redo.specs.Parted.{PartedContent, parted_of, IsParted};

    ghost Value = { PartedContent };

    ghost view = { parted_of };

    ghost invariant = { IsParted };
}

/// The LSN up to which redo does not look at records: the one below `redo_lsn`; the log's base LSN
/// if `redo_lsn` is not above it; the log's last LSN if `redo_lsn` is 0 or above it.
pub fn skipped_below(log: &Log, redo_lsn: u64) -> u64
    ensures { result ≡ skipped (base_lsn (history log.now)) redo_lsn (last_lsn (history log.now)) }
{
    let last = log.last();
    if redo_lsn == 0 {
        last
    } else {
        last.min(redo_lsn - 1).max(log.base())
    }
}

impl<'a> RedoInput<'a> {
    /// The LSN from which redo looks at records, 0 if it looks at none.
    pub fn redo_lsn(&self) -> u64
        ensures { result ≡ self.now.redo_lsn }
    {
        let tables = self.tables;
        tables.redo_lsn
    }

    /// The LSN up to which redo does not look at records.
    pub fn skipped(&self) -> u64
        ensures { result ≡ skipped_in self.now }
    {
        skipped_below(self.log, self.redo_lsn())
    }
}
