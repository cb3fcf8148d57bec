//! The audit: the base store, records, pages and the checkpoint in turn.

ghost use Rattle.std.specs.Prelude.{◌≡◌, option_map, OnOk, IfErr, IsOkUnless};
ghost use Rattle.page.specs.declared.fault.Fault.TheVariants.{NoResource};
ghost use Rattle.log_laws.specs.Meaning.{BaseLaw, no_base};
ghost use Rattle.log_laws.specs.Records.{history};
ghost use Rattle.log_laws.specs.Pages.{base_pages};
ghost use Rattle.log_laws.specs.Store.{Lawful};
ghost use Rattle.audit.specs.FirstFault.{FirstFault};
ghost use Rattle.audit.specs.Base.{LawfulOver, FirstFaultOver};

use crate::base::is_base_of;
use crate::master::check_master;
use crate::pages::check_pages;
use crate::records::check_records;
use page::{Fault, Page, Store};
use std::alloc::Global;
use wal::{DirtyTable, Log, TransactionTable};

/// The transaction table of a checkpoint, if there is one.
fn transactions_in<'t, 'a>(
    tables: &'t Option<(TransactionTable<'a>, DirtyTable<'a>)>,
) -> Option<&'t TransactionTable<'a>>
    ensures { option_map (λ t. t.now) result ≡ option_map (λ x. x.0) tables.now }
{
    match tables {
        Some((transactions, _)) => Some(transactions),
        None => None,
    }
}

/// Checks the laws over these base pages. The error is that of the first law that is broken.
fn first_fault(alloc: Global, log: &Log, base: &[Page], store: &Store) -> Result<(), Fault>
    requires { BaseLaw (base_pages base.now) (history log.now) }
    ensures ok { OnOk result (Lawful (base_pages base.now) log.now store.now) }
    ensures fault { IfErr result (FirstFault (base_pages base.now) log.now store.now) }
{
    let master = store.master;
    let tables = log.checkpoint(master);
    let transactions = transactions_in(&tables);
    let is_true = check_records(alloc, log, base, store.pages.len(), master, transactions)?;
    if let Err(fault) = check_pages(alloc, log, base, &store.pages) {
        return Err(fault);
    }
    check_master(alloc, log, master, &tables, is_true, &store.pages)
}

/// Whether a log and a store are lawful over empty pages: an ARIES system that began with empty
/// pages can have left them. Ok if and only if they are, a lack of memory aside. Neither is
/// changed. Time is near linear in both. Memory is 8 bytes a record, 1 KiB a page, and about 50
/// bytes for a transaction until it has finished. A finished transaction takes 1 to 3 bytes if
/// finished transactions have neighbouring numbers.
///
/// The first error in this order is returned. First those of the records in LSN order, each with
/// the record's LSN:
/// - NoSuchPage: it, or its dirty page table, names a page that the store does not have.
/// - Chain: its PrevLSN is not the LSN of its transaction's last record.
/// - AfterFinish: a commit, abort, end or prepare of its transaction forbids it.
/// - WrongCompensation: it is a CLR and does not undo its transaction's newest pending update.
/// - EndTooEarly: it is an end without a commit, and updates are pending.
/// - DirtyWrite: it updates a cell in which another unfinished transaction has an update or a CLR.
/// - BeforeImage: its before image is not the cell's value.
///
/// Then those of the pages by number, each with the page's number:
/// - PageAheadOfLog: its PageLSN is above the log's last LSN.
/// - PageImage: it is not what the log up to its PageLSN makes of it.
///
/// Then those of the checkpoint:
/// - BadMaster: the master is not 0, and its record is not a checkpoint begin, or no later
///   checkpoint end names it.
/// - TransactionTable: the table is not exactly that of the unfinished transactions at the begin
///   record.
/// - DirtyTable: a page's RecLSN is not above the base LSN, or is above the master; or a record on
///   the page at or before the master is neither in its image nor listed. The error has the
///   smallest number of such a page.
///
/// NoResource, if memory was refused, can come instead of any other result.
pub fn audit(alloc: Global, log: &Log, store: &Store) -> Result<(), Fault>
    ensures ok { OnOk result (Lawful no_base log.now store.now) }
    ensures fault { IfErr result (FirstFault no_base log.now store.now) }
    // For a lawful input the only error is a lack of memory.
    ensures lawful { Lawful no_base log.now store.now → IsOkUnless result NoResource }
{
    let none: [Page; 0] = [];
    first_fault(alloc, log, &none, store)
}

/// Whether a log and a store are lawful over the pages of a base store: an ARIES system that began
/// this log over those pages, at a moment when no transaction was unfinished, can have left them.
/// Ok if and only if they are, a lack of memory aside. The master of the base store is not read.
/// Nothing is changed.
///
/// Errors: BadBase, before all others, if the base store has another page count than the store, or
/// a page with a PageLSN above [`Log::base`]. Then those of [`audit`], over the base pages: a
/// page's PageLSN may be that of its base page, and a cell holds what its base page holds until a
/// record is in the cell.
pub fn audit_from(alloc: Global, log: &Log, store: &Store, base: &Store) -> Result<(), Fault>
    ensures ok { OnOk result (LawfulOver log.now store.now base.now) }
    ensures fault { IfErr result (FirstFaultOver log.now store.now base.now) }
    // For a lawful input the only error is a lack of memory.
    ensures lawful { LawfulOver log.now store.now base.now → IsOkUnless result NoResource }
{
    if !is_base_of(log, store, base) {
        return Err(Fault::BadBase);
    }
    first_fault(alloc, log, &base.pages, store)
}
