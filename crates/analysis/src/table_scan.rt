//! Both tables while a log is read, record after record.

ghost use Rattle.std.specs.Prelude.{◌≡◌, ◌≤◌, ◌<◌, ◌+◌, ◌^◌, ℕ, None, IfOk, OnOk, IsOkUnless};
ghost use Rattle.page.specs.Store.{StoreContent};
ghost use Rattle.page.specs.declared.fault.Fault.TheVariants.{NoResource};
ghost use Rattle.wal.specs.Glances.{glance_of};
ghost use Rattle.wal.specs.Spelling.{Fits};
ghost use Rattle.log_laws.specs.Meaning.{BasePages};
ghost use Rattle.log_laws.specs.Records.{LogRecord, LogContent, History, history, base_lsn};
ghost use Rattle.log_laws.specs.Redo.{rec_lsn_of};
ghost use Rattle.log_laws.specs.Store.{Lawful};
ghost use Rattle.log_laws.specs.Undo.{entry_for};
ghost use Rattle.wal.specs.declared.sizes.TheConstants.{LARGEST_BASE};
ghost use Rattle.tables.specs.Lawful.{AreTrue};
ghost use Rattle.analysis.specs.Tables.{entry_at, IsBase, AreTablesOf};
ghost use Rattle.analysis.specs.Passing.{HasAnalysed, ComesBefore, NotesRecord};
ghost use Rattle.analysis.specs.Steps.{entry_seen, rec_lsn_after};

use crate::Tables;
use crate::page_scan::PageScan;
use crate::pass::redo_lsn_of;
use crate::transaction_scan::TransactionScan;
use page::Fault;
use std::alloc::Global;
use std::collections::BTreeMap;
use std::marker::Model;
use wal::{Entry, Glance};

/// The transaction table and the dirty page table while a log is read. The records are given one by
/// one in the order of the log, up to its last. Contracts see the entries of both tables.
#[derive(Drop)]
pub struct TableScan {
    transactions: TransactionScan,
    pages: PageScan,
}

impl Model for TableScan {
    ghost use Rattle.analysis.specs.Passing.{SeenTables};

    ghost Value = { SeenTables };

    ghost view = { λ s. record { entries = s.transactions; pages = s.pages } };
}

impl TableScan {
    /// The scan before the first record, with the tables of the checkpoint that the master names,
    /// as [`CheckpointScan`](crate::CheckpointScan) finds them. The first record may be any up to
    /// the one after the checkpoint's begin record: earlier ones do nothing to the tables. The only
    /// error is `NoResource`, if memory was refused.
    pub fn begin(
        alloc: Global,
        transactions: BTreeMap<u32, Entry>,
        dirty: BTreeMap<u32, u64>,
    ) -> Result<TableScan, Fault>
        ensures begun { IfOk result (λ scan. (m : ℕ) (whole log : History)
            → IsBase m whole transactions.entries dirty.entries → ComesBefore m log
            → HasAnalysed m whole log scan) }
        ensures no_transaction_0 { entry_at 0 transactions.entries ≡ None
            → IfOk result (λ scan. entry_at 0 scan.entries ≡ None) }
        ensures err { IsOkUnless result NoResource }
    {
        let pages = PageScan::begin(alloc, dirty)?;
        Ok(TableScan {
            transactions: TransactionScan::begin(transactions),
            pages,
        })
    }

    /// Notes in both tables what the record at an LSN does to them. The record is given at a
    /// glance.
    #[inline(always)]
    fn note(&mut self, glance: Glance, lsn: u64) -> Result<(), Fault>
        ensures entries { OnOk result ((t : ℕ) → entry_at t self.new.entries
            ≡ entry_seen lsn glance t (entry_at t self.old.entries)) }
        ensures pages { OnOk result ((r : LogRecord) → glance ≡ glance_of r → (page : ℕ)
            → rec_lsn_of page self.new.pages
            ≡ rec_lsn_after lsn r page (rec_lsn_of page self.old.pages)) }
        ensures err { IsOkUnless result NoResource }
    {
        self.transactions.note(glance, lsn)?;
        self.pages.note(glance, lsn)
    }

    /// Looks at the record after an LSN for what it does to both tables. The record is given at a
    /// glance. `master` is the LSN of the checkpoint's begin record, 0 for none, and the same for
    /// all records: those up to it do nothing to the tables.
    ///
    /// The only error is `NoResource`, if memory was refused. The scan must then be begun again.
    #[inline(always)]
    pub fn take(&mut self, lsn: u64, glance: Glance, master: u64) -> Result<(), Fault>
        requires seen { (r : LogRecord) × (glance ≡ glance_of r) × Fits r }
        requires room { lsn + 1 < 2 ^ 64 }
        ensures goes_on { OnOk result (NotesRecord master lsn glance self.old self.new) }
        ensures no_transaction_0 { OnOk result (entry_at 0 self.old.entries ≡ None
            → entry_at 0 self.new.entries ≡ None) }
        ensures err { IsOkUnless result NoResource }
    {
        if lsn < master {
            return Ok(());
        }
        self.note(glance, lsn + 1)?;
        Ok(())
    }

    /// The tables of the crash, after the last record. `base` is the base LSN of the whole log,
    /// after which redo begins at the earliest. The only error is `NoResource`, if memory was
    /// refused.
    pub fn finish(self, base: u64) -> Result<Tables, Fault>
        requires { base ≤ LARGEST_BASE }
        ensures tables { IfOk result (λ tables. (log : LogContent) (m : ℕ)
            → base_lsn (history log) ≡ base → HasAnalysed m (history log) (history log) self
            → AreTablesOf log m tables) }
        // For a lawful log and its store: exactly the unfinished transactions, and no record that
        // an image lacks is skipped.
        ensures lawful { IfOk result (λ tables. (over : BasePages) (log : LogContent)
            (store : StoreContent) → Lawful over log store → base_lsn (history log) ≡ base
            → HasAnalysed store.master (history log) (history log) self
            → AreTrue log store tables) }
        ensures no_transaction_0 { entry_at 0 self.entries ≡ None
            → IfOk result (λ tables. entry_for 0 tables.transactions ≡ None) }
        ensures err { IsOkUnless result NoResource }
    {
        let TableScan {
            transactions,
            pages,
        } = self;
        let transactions = transactions.finish()?;
        let dirty = pages.finish();
        let redo_lsn = redo_lsn_of(base + 1, &dirty);
        // For the proof: the keys of both ascend.
        let _in_order = transactions.iter();
        let _pages_in_order = dirty.iter();
        Ok(Tables {
            transactions,
            dirty,
            redo_lsn,
        })
    }
}
