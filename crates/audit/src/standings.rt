//! The standings of the transactions: what is known of each unfinished one, and how the others
//! finished.

ghost use Rattle.std.specs.Prelude.{◌≡◌, ℕ, OnOk, IsOkUnless, if◌then◌else◌, is_some};
ghost use Rattle.page.specs.declared.fault.Fault.TheVariants.{NoResource};
ghost use Rattle.log_laws.specs.Meaning.{is_of};
ghost use Rattle.wal.specs.Content.{shown};
ghost use Rattle.audit.specs.Statuses.{unknown};
ghost use Rattle.audit.specs.Unfinished.{unfinished_in};
ghost use Rattle.audit.specs.declared.standing.Standing.TheVariants.{Unfinished};
ghost use Rattle.audit.specs.Standings.{standing_after, standing_in};

use crate::finish_table::FinishTable;
use crate::standing::{Standing, standing_after};
use crate::status::Status;
use crate::unfinished_table::UnfinishedTable;
use page::Fault;
use std::alloc::Global;
use wal::RecordView;

/// The standing of each transaction.
#[derive(Drop)]
pub struct Standings {
    /// Those that have a record and have not finished.
    pub unfinished: UnfinishedTable,
    /// Those that have finished.
    pub finished: FinishTable,
}

impl Standings {
    /// The standings before the first record.
    pub fn start(alloc: Global) -> Standings
        ensures { (t : ℕ) → standing_in result t ≡ Unfinished unknown }
    {
        Standings {
            unfinished: UnfinishedTable::new(alloc),
            finished: FinishTable::new(alloc),
        }
    }

    /// The standing of a transaction.
    pub fn get(&self, tx: u32) -> Standing
        ensures { result ≡ standing_in self.now tx }
    {
        match self.unfinished.get(tx) {
            Some(status) => Standing::Unfinished(status),
            None => match self.finished.get(tx) {
                Some(finish) => Standing::Finished(finish),
                None => Standing::Unfinished(Status::unknown()),
            },
        }
    }

    /// Whether a transaction is among the unfinished.
    pub fn has_unfinished(&self, tx: u32) -> bool
        ensures { result ≡ is_some (unfinished_in self.now.unfinished tx) }
    {
        self.unfinished.has(tx)
    }

    /// Takes in the record at an LSN. `standing` is that of its transaction before it, and `below`
    /// is the LSN below its newest pending update. The only error is `NoResource`.
    pub fn note(
        &mut self,
        view: &RecordView,
        lsn: u64,
        standing: Standing,
        below: u64,
    ) -> Result<(), Fault>
        ensures ok { OnOk result ((t : ℕ) → standing_in self.new t ≡ (if is_of t (shown view.now)
            then standing_after (shown view.now) lsn below standing else standing_in self.old t)) }
        ensures err { IsOkUnless result NoResource }
    {
        let Some(tx) = view.tx() else {
            return Ok(());
        };
        match standing_after(standing, view, lsn, below) {
            Standing::Unfinished(status) => {
                self.unfinished.insert(tx, status)?;
            }
            Standing::Finished(finish) => {
                self.finished.note(tx, finish)?;
                self.unfinished.remove(tx);
            }
        }
        Ok(())
    }
}
