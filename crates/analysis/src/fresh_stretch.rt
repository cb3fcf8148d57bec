//! Analysis without a checkpoint of a stretch of the log, found without what is before it, and then
//! joined to that.

ghost use Rattle.std.specs.Prelude.{◌≡◌, ◌<◌, ◌+◌, ◌^◌, ℕ, OnOk, IsOkUnless};
ghost use Rattle.page.specs.declared.fault.Fault.TheVariants.{NoResource};
ghost use Rattle.wal.specs.Glances.{glance_of};
ghost use Rattle.wal.specs.Spelling.{Fits};
ghost use Rattle.log_laws.specs.Records.{LogRecord, start};
ghost use Rattle.analysis.specs.Fresh.{HasFoundIn, FindsInStretch, ContinuesFresh};
ghost use Rattle.analysis.specs.Fresh.{StaysWithout0, JoinsWithout0};
ghost use Rattle.analysis.specs.Passing.{HasNone0};

use crate::fresh_scan::{FreshScan, first_change_after};
use crate::stretch_scan::StretchScan;
use page::Fault;
use std::alloc::Global;
use std::marker::Model;
use wal::Glance;

/// What analysis finds without a checkpoint of a stretch of the log: what its records do to the
/// transaction table, and the LSN of the first of them that changes a page, 0 if there is none. What
/// is before the stretch need not be known, so several threads can look at one stretch each.
/// [`FreshScan::join`] then joins these in the order of the log.
#[derive(Drop)]
pub struct FreshStretch {
    stretch: StretchScan,
    first_change: u64,
}

impl Model for FreshStretch {
    ghost use Rattle.analysis.specs.Fresh.{FoundStretch};

    ghost Value = { FoundStretch };

    ghost view = { λ s. record { stretch = s.stretch; first_change = s.first_change } };
}

impl FreshStretch {
    /// The scan before the first record of a stretch.
    pub fn begin(alloc: Global) -> FreshStretch
        ensures begun { (base : ℕ) → HasFoundIn (start base) result }
        ensures no_transaction_0 { HasNone0 result.stretch.entries }
    {
        FreshStretch {
            stretch: StretchScan::begin(alloc),
            first_change: 0,
        }
    }

    /// Looks at the record after an LSN. The record is given at a glance.
    ///
    /// The only error is `NoResource`, if memory was refused. The scan must then be begun again.
    #[inline(always)]
    pub fn take(&mut self, lsn: u64, glance: Glance) -> Result<(), Fault>
        requires seen { (r : LogRecord) × (glance ≡ glance_of r) × Fits r }
        requires room { lsn + 1 < 2 ^ 64 }
        ensures goes_on { OnOk result (FindsInStretch lsn glance self.old self.new) }
        ensures no_transaction_0 { OnOk result (StaysWithout0 self.old self.new) }
        ensures err { IsOkUnless result NoResource }
    {
        self.stretch.note(lsn + 1, glance)?;
        self.first_change = first_change_after(self.first_change, glance, lsn + 1);
        Ok(())
    }
}

impl FreshScan {
    /// Adds what the records of the next stretch do.
    ///
    /// The only error is `NoResource`, if memory was refused. The scan then has a part of that, and
    /// must be begun again.
    pub fn join(&mut self, later: FreshStretch) -> Result<(), Fault>
        ensures goes_on { OnOk result (ContinuesFresh later self.old self.new) }
        ensures no_transaction_0 { OnOk result (JoinsWithout0 later self.old self.new) }
        ensures err { IsOkUnless result NoResource }
    {
        let FreshStretch {
            stretch,
            first_change,
        } = later;
        self.transactions.join(stretch)?;
        if self.first_change == 0 {
            self.first_change = first_change;
        }
        Ok(())
    }
}
