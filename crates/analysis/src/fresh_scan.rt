//! Analysis without a checkpoint, while a log is read, record after record.

ghost use Rattle.std.specs.Prelude.{◌≡◌, ◌<◌, ◌+◌, ◌^◌, ℕ, [], IfOk, OnOk, IsOkUnless};
ghost use Rattle.page.specs.declared.fault.Fault.TheVariants.{NoResource};
ghost use Rattle.wal.specs.Glances.{glance_of};
ghost use Rattle.wal.specs.Spelling.{Fits};
ghost use Rattle.log_laws.specs.Records.{LogRecord, start};
ghost use Rattle.analysis.specs.Fresh.{HasFound, FindsRecord, IsFirstWith, ForFound, AreFreshTables};
ghost use Rattle.analysis.specs.Passing.{HasNone0, AreWithout0};

use crate::Tables;
use crate::transaction_scan::TransactionScan;
use page::Fault;
use std::alloc::Global;
use std::collections::BTreeMap;
use std::marker::Model;
use wal::Glance;

/// What analysis finds without a checkpoint while a log is read: the transaction table, and the LSN
/// from which redo begins. It does not list the dirty pages. The records are given one by one in the
/// order of the log, up to its last; or what was found of a stretch of them is joined. Contracts see
/// the entries, and the LSN of the first record that changes a page.
#[derive(Drop)]
pub struct FreshScan {
    pub(crate) transactions: TransactionScan,
    pub(crate) first_change: u64,
}

impl Model for FreshScan {
    ghost use Rattle.analysis.specs.Fresh.{FreshTables};

    ghost Value = { FreshTables };

    ghost view = { λ s. record { entries = s.transactions; first_change = s.first_change } };
}

/// The LSN of the first record that changes a page, after the record at an LSN was looked at; 0 if
/// there is none. The record is given at a glance.
#[inline(always)]
pub(crate) fn first_change_after(first: u64, glance: Glance, lsn: u64) -> u64
    ensures { IsFirstWith first lsn glance result }
{
    if first != 0 {
        return first;
    }
    if glance.cell().is_some() { lsn } else { 0 }
}

impl FreshScan {
    /// The scan before the first record of a log.
    pub fn begin(alloc: Global) -> FreshScan
        ensures begun { (base : ℕ) → HasFound (start base) result }
        ensures no_transaction_0 { HasNone0 result.entries }
    {
        FreshScan {
            transactions: TransactionScan::begin(BTreeMap::new(alloc)),
            first_change: 0,
        }
    }

    /// Looks at the record after an LSN. The record is given at a glance.
    ///
    /// The only error is `NoResource`, if memory was refused. The scan must then be begun again.
    #[inline(always)]
    pub fn take(&mut self, lsn: u64, glance: Glance) -> Result<(), Fault>
        requires seen { (r : LogRecord) × (glance ≡ glance_of r) × Fits r }
        requires room { lsn + 1 < 2 ^ 64 }
        ensures goes_on { OnOk result (FindsRecord lsn glance self.old self.new) }
        ensures no_transaction_0 { OnOk result (HasNone0 self.old.entries
            → HasNone0 self.new.entries) }
        ensures err { IsOkUnless result NoResource }
    {
        self.transactions.note(glance, lsn + 1)?;
        self.first_change = first_change_after(self.first_change, glance, lsn + 1);
        Ok(())
    }

    /// The tables of the crash, after the last record, without the dirty pages: none is listed. The
    /// only error is `NoResource`, if memory was refused.
    pub fn finish(self, alloc: Global) -> Result<Tables, Fault>
        ensures tables { IfOk result (λ tables. ForFound self
            (λ log. AreFreshTables log tables)) }
        ensures none_listed { IfOk result (λ tables. tables.dirty ≡ []) }
        ensures no_transaction_0 { HasNone0 self.entries → IfOk result AreWithout0 }
        ensures err { IsOkUnless result NoResource }
    {
        let FreshScan {
            transactions,
            first_change,
        } = self;
        let transactions = transactions.finish()?;
        // For the proof: the keys ascend.
        let _in_order = transactions.iter();
        Ok(Tables {
            transactions,
            dirty: BTreeMap::new(alloc),
            redo_lsn: first_change,
        })
    }
}
