//! The analysis pass.

ghost use Rattle.std.specs.Prelude.{◌≡◌, ◌≤◌, max, None, IfOk, IfErr};
ghost use Rattle.page.specs.Store.{StoreContent};
ghost use Rattle.log_laws.specs.Records.{history};
ghost use Rattle.log_laws.specs.Meaning.{BasePages};
ghost use Rattle.log_laws.specs.Store.{Lawful};
ghost use Rattle.tables.specs.Lawful.{AreTrue};
ghost use Rattle.log_laws.specs.Undo.{entry_for};
ghost use Rattle.analysis.specs.Tables.{redo_lsn_of, AreTablesOf, BaseFault};
ghost use Rattle.analysis.specs.Steps.{lower};

use crate::Tables;
use crate::apart::{analyse_transactions, join_tables};
use crate::dirty::analyse_all_pages;
use page::Fault;
use std::alloc::Global;
use std::collections::BTreeMap;
use wal::Log;

/// The smaller of two numbers: the smallest RecLSN so far, 0 for none, and another RecLSN. The
/// latter counts as the first LSN of the log if it is below that.
fn lower(smallest: u64, first: u64, rec_lsn: u64) -> u64
    ensures { result ≡ lower smallest (max first rec_lsn) }
{
    let rec_lsn = rec_lsn.max(first);
    if smallest == 0 || rec_lsn < smallest {
        rec_lsn
    } else {
        smallest
    }
}

/// The LSN from which redo looks at records: the smallest RecLSN, or 0 if no page is listed. A
/// RecLSN below the first LSN of the log counts as that LSN.
pub fn redo_lsn_of(first: u64, dirty: &BTreeMap<u32, u64>) -> u64
    requires { 1 ≤ first }
    ensures { result ≡ redo_lsn_of first dirty.now.entries }
{
    let mut smallest = 0;
    for (_, rec_lsn) in dirty {
        smallest = lower(smallest, first, *rec_lsn);
    }
    smallest
}

/// The tables of a crash: from the checkpoint whose begin record has the LSN `master`, 0 for none,
/// up to the end of the log. They are defined by last and first records, for every log, lawful or
/// not.
///
/// The error is [`Fault::BadMaster`] if `master` is not 0 and the record there is not a checkpoint
/// begin, or no later checkpoint end names it. It is [`Fault::NoResource`] if memory was refused.
pub fn analyse(alloc: Global, log: &Log, master: u64) -> Result<Tables, Fault>
    ensures tables { IfOk result (AreTablesOf log.now master) }
    // For a lawful log and its store: exactly the unfinished transactions, and no record that an
    // image lacks is skipped.
    ensures lawful { (over : BasePages) (store : StoreContent) → Lawful over log.now store
        → store.master ≡ master → IfOk result (AreTrue log.now store) }
    // No record and no checkpoint that was read names transaction 0: the grammar of logs forbids
    // it.
    ensures no_transaction_0 { IfOk result (λ tables. entry_for 0 tables.transactions ≡ None) }
    ensures fault { IfErr result (BaseFault master (history log.now)) }
{
    let transactions = analyse_transactions(alloc, log, master)?;
    let pages = analyse_all_pages(alloc, log, master)?;
    Ok(join_tables(transactions, pages))
}
