//! What a stretch of the log does to the transaction table, found without the table before it.

ghost use Rattle.std.specs.Prelude.{◌≡◌, ◌≤◌, ℕ, Option, OnOk, IsOkUnless};
ghost use Rattle.page.specs.declared.fault.Fault.TheVariants.{NoResource};
ghost use Rattle.log_laws.specs.Records.{TableEntry, start};
ghost use Rattle.analysis.specs.Stretch.{entry_behind, Describes, AddsRecord, DescribesRecord};
ghost use Rattle.analysis.specs.Stretch.{finish_seen, undoes_last_seen, Lists};

use crate::transaction_scan::TransactionScan;
use page::Fault;
use std::alloc::Global;
use std::collections::BTreeMap;
use std::marker::Model;
use wal::Glance;

/// What the records of a stretch of the log do to the transaction table. A stretch is the records
/// after one LSN, up to another. The table before them need not be known, so several threads can
/// look at one stretch each. [`TransactionScan::join`] then joins these in the order of the log.
///
/// Besides the entries it lists a number for each commit, each end, and each CLR whose UndoNxtLSN
/// is 0.
#[derive(Drop)]
pub struct StretchScan {
    pub(crate) scan: TransactionScan,
    pub(crate) finished: Vec<u32>,
    pub(crate) undone: Vec<u32>,
}

impl Model for StretchScan {
    ghost use Rattle.analysis.specs.Stretch.{Stretch};

    ghost Value = { Stretch };

    ghost view = { λ s. record { entries = s.scan; finished = s.finished.items; undone = s.undone.items } };
}

/// Lists the transaction of a record: as finished at a commit and an end, and as undone at a CLR
/// whose UndoNxtLSN is 0.
#[inline(always)]
fn list_transaction(
    finished: &mut Vec<u32>,
    undone: &mut Vec<u32>,
    glance: Glance,
) -> Result<(), Fault>
    ensures finished { OnOk result
        (Lists (finish_seen glance) finished.old.items finished.new.items) }
    ensures undone { OnOk result
        (Lists (undoes_last_seen glance) undone.old.items undone.new.items) }
    ensures err { IsOkUnless result NoResource }
{
    match glance {
        Glance::Compensation { tx, undo_next, .. } => {
            if undo_next == 0 {
                undone.push(tx)?;
            }
        }
        Glance::Commit { tx, .. } => finished.push(tx)?,
        Glance::End { tx, .. } => finished.push(tx)?,
        Glance::Update { .. } | Glance::Abort { .. } => {}
        Glance::Prepare { .. } | Glance::Checkpoint => {}
    }
    Ok(())
}

impl StretchScan {
    /// The scan before the first record of a stretch.
    pub fn begin(alloc: Global) -> StretchScan
        ensures nothing { (t : ℕ) (base : Option TableEntry) → entry_behind t result base ≡ base }
        ensures describes { (lsn : ℕ) → Describes (start lsn) result }
    {
        StretchScan {
            scan: TransactionScan::begin(BTreeMap::new(alloc)),
            finished: Vec::new(alloc),
            undone: Vec::new(alloc),
        }
    }

    /// Notes what the record at an LSN does to the table. The record is given at a glance. The first
    /// LSN is 1.
    ///
    /// The only error is `NoResource`, if memory was refused. The scan must then be begun again.
    #[inline(always)]
    pub fn note(&mut self, lsn: u64, glance: Glance) -> Result<(), Fault>
        requires { 1 ≤ lsn }
        ensures entries { OnOk result (AddsRecord lsn glance self.old self.new) }
        // The same of the records of the stretch up to this one.
        ensures describes { OnOk result (DescribesRecord lsn glance self.old self.new) }
        ensures err { IsOkUnless result NoResource }
    {
        list_transaction(&mut self.finished, &mut self.undone, glance)?;
        self.scan.note(glance, lsn)?;
        Ok(())
    }
}
