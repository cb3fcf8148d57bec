//! Analysis in two halves, which two threads can do at the same time. The transaction table, which
//! undo needs, is found here; the dirty page table, which redo needs, is found in `dirty`. Both are
//! joined here.

ghost use Rattle.std.specs.Prelude.{◌≡◌, ℕ, map, None, IfOk, IfErr};
ghost use Rattle.page.specs.Store.{StoreContent};
ghost use Rattle.wal.specs.Content.{entry_of};
ghost use Rattle.log_laws.specs.Meaning.{BasePages};
ghost use Rattle.log_laws.specs.Records.{LogContent, history};
ghost use Rattle.log_laws.specs.Store.{Lawful};
ghost use Rattle.tables.specs.Lawful.{AreTrue};
ghost use Rattle.analysis.specs.Tables.{entry_at, AreTablesOf, AreTransactionsOf, AreDirtyPagesOf, BaseFault, tables_with};

use crate::Tables;
use crate::base::checkpoint_tables;
use crate::transaction_scan::TransactionScan;
use page::Fault;
use std::alloc::Global;
use std::collections::BTreeMap;
use wal::{Entry, Log};

/// The transaction table of [`analyse`](crate::analyse), found without the dirty page table, with
/// the same errors.
pub fn analyse_transactions(
    alloc: Global,
    log: &Log,
    master: u64,
) -> Result<BTreeMap<u32, Entry>, Fault>
    ensures transactions { IfOk result (λ found. AreTransactionsOf log.now master
        (map entry_of found.entries)) }
    ensures no_transaction_0 { IfOk result (λ found. entry_at 0 found.entries ≡ None) }
    ensures fault { IfErr result (BaseFault master (history log.now)) }
{
    let (base, _) = checkpoint_tables(alloc, log, master)?;
    let mut scan = TransactionScan::begin(base);
    scan.pass(log, master)?;
    let transactions = scan.finish()?;
    // For the proof: the keys ascend.
    let _in_order = transactions.iter();
    Ok(transactions)
}

/// Joins the tables of [`analyse`](crate::analyse) from its two halves: these transactions, and the
/// pages of the other tables.
pub fn join_tables(transactions: BTreeMap<u32, Entry>, pages: Tables) -> Tables
    ensures parts { result ≡ tables_with (map entry_of transactions.entries) pages }
    ensures tables { (log : LogContent) (m : ℕ)
        → AreTransactionsOf log m (map entry_of transactions.entries)
        → AreDirtyPagesOf log m pages.dirty pages.redo_lsn → AreTablesOf log m result }
    ensures lawful { (over : BasePages) (log : LogContent) (store : StoreContent)
        → Lawful over log store → AreTransactionsOf log store.master (map entry_of transactions.entries)
        → AreDirtyPagesOf log store.master pages.dirty pages.redo_lsn → AreTrue log store result }
{
    Tables {
        transactions,
        dirty: pages.dirty,
        redo_lsn: pages.redo_lsn,
    }
}
