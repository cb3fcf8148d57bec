//! The tables of the checkpoint that the master names, found while a log is read.

ghost use Rattle.std.specs.Prelude.{◌≡◌, ◌≤◌, ◌<◌, ◌+◌, ◌^◌, ℕ, Some, None, is_some, IfOk, IfErr, IfSome, IfNone, OnOk, IsOkUnless};
ghost use Rattle.page.specs.declared.fault.Fault.TheVariants.{NoResource, BadMaster};
ghost use Rattle.log_laws.specs.Records.{History, start, ◌▸◌, record_at};
ghost use Rattle.wal.specs.Content.{shown};
ghost use Rattle.wal.specs.Spelling.{Fits};
ghost use Rattle.log_laws.specs.Checkpoint.{first_end, is_begin};
ghost use Rattle.analysis.specs.Tables.{entry_at, IsBase, BaseFault};
ghost use Rattle.analysis.specs.Passing.{HasSeen, IsEnd, SeesRecord};

use crate::base::{dirty_pages_of, transactions_of};
use page::Fault;
use std::alloc::Global;
use std::collections::BTreeMap;
use std::marker::Model;
use wal::{Entry, RecordView};

/// Looks for the tables of the checkpoint that a master names while a log is read. The records are
/// given one by one in the order of the log, up to its last. The tables are copied, so that no
/// record has to stay.
#[derive(Drop)]
pub struct CheckpointScan {
    alloc: Global,
    master: u64,
    begins: bool,
    found: Option<(BTreeMap<u32, Entry>, BTreeMap<u32, u64>)>,
}

impl Model for CheckpointScan {
    ghost use Rattle.std.specs.Prelude.{option_map};
    ghost use Rattle.analysis.specs.Passing.{CheckpointSoFar, FoundNoTransaction0};

    ghost Value = { CheckpointSoFar };

    ghost view = { λ s. record { master = s.master; begins = s.begins; found = option_map (λ x. (x.0.entries, x.1.entries)) s.found } };

    // The grammar of logs forbids transaction 0 in a checkpoint.
    ghost invariant = { λ s. FoundNoTransaction0 (option_map (λ x. x.0.entries) s.found) };
}

impl CheckpointScan {
    /// The scan for the tables of the checkpoint whose begin record has the LSN `master`, before
    /// the first record. They are empty if `master` is 0. The first record may be any up to the one
    /// at `master`: no earlier one is needed.
    pub fn new(alloc: Global, master: u64) -> CheckpointScan
        ensures { (log : History) → record_at log master ≡ None → HasSeen master log result }
    {
        let found = if master == 0 {
            Some((BTreeMap::new(alloc), BTreeMap::new(alloc)))
        } else {
            None
        };
        CheckpointScan {
            alloc,
            master,
            begins: false,
            found,
        }
    }

    /// Looks at the record after an LSN. It may be the begin record, or after that the first end
    /// that names it. The only error is `NoResource`, if memory was refused; the scan then stays as
    /// it was.
    pub fn take(&mut self, lsn: u64, view: &RecordView) -> Result<(), Fault>
        requires fits { Fits (shown view.now) }
        requires room { lsn + 1 < 2 ^ 64 }
        ensures seen { OnOk result (SeesRecord lsn (shown view.now) self.old self.new) }
        ensures unchanged { IfErr result (λ _. self.new ≡ self.old) }
        ensures err { IsOkUnless result NoResource }
    {
        if self.found.is_some() {
            return Ok(());
        }
        if !self.begins {
            self.begins = lsn + 1 == self.master && is_begin(view);
            return Ok(());
        }
        self.found = tables_in(self.alloc, view, self.master)?;
        Ok(())
    }

    /// Whether the tables are found. If so, no more records are looked at.
    pub fn is_found(&self) -> bool
        ensures { result ≡ is_some self.now.found }
    {
        self.found.is_some()
    }

    /// The tables from which analysis of the log that was read begins: empty ones if the master is
    /// 0, otherwise those of the first checkpoint end that names the begin record at the master,
    /// after it.
    ///
    /// The error is [`Fault::BadMaster`], if there is none.
    pub fn finish(self) -> Result<(BTreeMap<u32, Entry>, BTreeMap<u32, u64>), Fault>
        ensures found { (m : ℕ) (log : History) → HasSeen m log self
            → IfOk result (λ x. IsBase m log x.0.entries x.1.entries) }
        ensures no_transaction_0 { IfOk result (λ x. entry_at 0 x.0.entries ≡ None) }
        ensures fault { (m : ℕ) (log : History) → HasSeen m log self
            → IfErr result (BaseFault m log) }
        ensures err { IsOkUnless result BadMaster }
    {
        match self.found {
            Some(tables) => Ok(tables),
            None => Err(Fault::BadMaster),
        }
    }
}

/// Whether a record is a checkpoint begin.
fn is_begin(view: &RecordView) -> bool
    ensures { result ≡ is_begin (Some (shown view.now)) }
{
    match view {
        RecordView::CheckpointBegin => true,
        _ => false,
    }
}

/// The tables of a record as maps, if it is a checkpoint end that names `master`.
fn tables_in(
    alloc: Global,
    view: &RecordView,
    master: u64,
) -> Result<Option<(BTreeMap<u32, Entry>, BTreeMap<u32, u64>)>, Fault>
    requires { Fits (shown view.now) }
    ensures some { IfOk result (λ found. IfSome found (λ x. (lsn : ℕ) → master ≤ lsn
        → IsEnd master (start lsn ▸ shown view.now) x.0.entries x.1.entries)) }
    ensures none { IfOk result (λ found. IfNone found ((lsn : ℕ)
        → first_end master (start lsn ▸ shown view.now) ≡ None)) }
    ensures err { IsOkUnless result NoResource }
{
    if let RecordView::CheckpointEnd {
        begin,
        transactions,
        dirty,
    } = view
    {
        if *begin == master {
            let transactions = transactions_of(alloc, transactions)?;
            let dirty = dirty_pages_of(alloc, dirty)?;
            return Ok(Some((transactions, dirty)));
        }
    }
    Ok(None)
}
