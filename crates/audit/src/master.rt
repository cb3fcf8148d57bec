//! The law of the checkpoint that the master names.

ghost use Rattle.std.specs.Prelude.{◌≡◌, ◌↔◌, IsTrue, length, option_map, OnOk, IfErr, IfSome};
ghost use Rattle.log_laws.specs.Records.{history, first, EachRecord};
ghost use Rattle.log_laws.specs.Checkpoint.{checkpoint_at, true_table, CheckpointLaw};
ghost use Rattle.log_laws.specs.Store.{NamesPages};
ghost use Rattle.page.specs.Store.{AreNumbered};
ghost use Rattle.audit.specs.FirstFault.{MasterFault};

use crate::dirty::check_dirty;
use page::{Fault, Page};
use std::alloc::Global;
use wal::{DirtyTable, Log, TransactionTable};

/// Checks the master. The error is that of the first law that its checkpoint breaks. `tables` are
/// those of the checkpoint, if the master names one, and `is_true` is whether its transaction table
/// is that of the unfinished transactions. `NoResource`, if memory was refused, can come instead of
/// any other result.
pub fn check_master(
    alloc: Global,
    log: &Log,
    master: u64,
    tables: &Option<(TransactionTable, DirtyTable)>,
    is_true: bool,
    pages: &[Page],
) -> Result<(), Fault>
    requires numbered { AreNumbered pages.now }
    requires named { EachRecord (NamesPages (length pages.now)) (history log.now) }
    requires tables { option_map (λ x. (x.0, x.1)) tables.now
        ≡ checkpoint_at master (history log.now) }
    requires is_true { IfSome tables.now (λ x. IsTrue is_true
        ↔ x.0 ≡ true_table (first master (history log.now))) }
    ensures ok { OnOk result (CheckpointLaw (history log.now) pages.now master) }
    ensures err { IfErr result (MasterFault (history log.now) pages.now master) }
{
    if master == 0 {
        return Ok(());
    }
    let Some((_, dirty)) = tables else {
        return Err(Fault::BadMaster);
    };
    if !is_true {
        return Err(Fault::TransactionTable);
    }
    check_dirty(alloc, log, master, pages, dirty)
}
