//! The standing of a transaction, finished or not, after the records so far.

ghost use Rattle.std.specs.Prelude.{◌≡◌, ◌↔◌, ℕ, List, IsTrue, false};
ghost use Rattle.log_laws.specs.Records.{History};
ghost use Rattle.log_laws.specs.Meaning.{finished, ended, aborted, prepared, in_doubt};
ghost use Rattle.wal.specs.Content.{shown};
ghost use Rattle.audit.specs.Standings.{IsStandingOf, newest_of, standing_after, is_finish_of};

use crate::status::{Status, status_after};
use wal::RecordView;

/// How a transaction has finished.
#[derive(Clone, Copy)]
pub enum Finish {
    /// It has committed, and not ended.
    Committed,
    /// It has ended.
    Ended,
}

/// The standing of a transaction: what its records so far say.
#[derive(Clone, Copy)]
pub enum Standing {
    /// It has not finished, or has no record.
    Unfinished(Status),
    Finished(Finish),
}

impl Standing {
    /// The LSN of its newest pending update, 0 for none and for a finished one.
    pub fn newest(&self) -> u64
        ensures { result ≡ newest_of self.now }
    {
        match self {
            Standing::Unfinished(status) => status.newest,
            Standing::Finished(_) => 0,
        }
    }

    /// Whether it has committed or ended.
    pub fn is_finished(&self) -> bool
        ensures { (t : ℕ) (log : History) (links : List ℕ) → IsStandingOf links t log self.now
            → result ≡ finished t log }
    {
        match self {
            Standing::Unfinished(_) => false,
            Standing::Finished(_) => true,
        }
    }

    /// Whether it has ended.
    pub fn is_ended(&self) -> bool
        ensures { (t : ℕ) (log : History) (links : List ℕ) → IsStandingOf links t log self.now
            → result ≡ ended t log }
    {
        match self {
            Standing::Unfinished(_) => false,
            Standing::Finished(Finish::Committed) => false,
            Standing::Finished(Finish::Ended) => true,
        }
    }

    /// Whether it has prepared to commit, and has neither aborted nor finished.
    pub fn is_in_doubt(&self) -> bool
        ensures { (t : ℕ) (log : History) (links : List ℕ) → IsStandingOf links t log self.now
            → result ≡ in_doubt t log }
    {
        match self {
            Standing::Unfinished(status) => status.prepared && !status.aborted,
            Standing::Finished(_) => false,
        }
    }

    /// Whether it has neither finished nor aborted.
    pub fn can_turn(&self) -> bool
        ensures { (t : ℕ) (log : History) (links : List ℕ) → IsStandingOf links t log self.now
            → IsTrue result ↔ ((finished t log ≡ false) × (aborted t log ≡ false)) }
    {
        match self {
            Standing::Unfinished(status) => !status.aborted,
            Standing::Finished(_) => false,
        }
    }

    /// Whether it has neither finished nor aborted nor prepared.
    pub fn is_active(&self) -> bool
        ensures { (t : ℕ) (log : History) (links : List ℕ) → IsStandingOf links t log self.now
            → IsTrue result ↔ ((finished t log ≡ false) × (aborted t log ≡ false)
            × (prepared t log ≡ false)) }
    {
        match self {
            Standing::Unfinished(status) => !status.aborted && !status.prepared,
            Standing::Finished(_) => false,
        }
    }
}

/// The standing of a transaction after a record of it, which has the LSN `lsn`. `below` is the LSN
/// of its pending update before the newest one, which becomes the newest if the record is the CLR of
/// that; 0 if there is none.
pub fn standing_after(standing: Standing, view: &RecordView, lsn: u64, below: u64) -> Standing
    ensures { result ≡ standing_after (shown view.now) lsn below standing }
{
    match view {
        RecordView::Commit { .. } => Standing::Finished(Finish::Committed),
        RecordView::End { .. } => Standing::Finished(Finish::Ended),
        RecordView::Update { .. }
        | RecordView::Compensation { .. }
        | RecordView::Abort { .. }
        | RecordView::Prepare { .. }
        | RecordView::CheckpointBegin
        | RecordView::CheckpointEnd { .. } => match standing {
            Standing::Unfinished(status) => {
                Standing::Unfinished(status_after(status, view, lsn, below))
            }
            Standing::Finished(_) => standing,
        },
    }
}

/// Whether the record is the one by which a transaction finishes in this way.
pub fn is_finish_of(view: &RecordView, tx: u32, finish: Finish) -> bool
    ensures { result ≡ is_finish_of finish tx (shown view.now) }
{
    match finish {
        Finish::Committed => match view {
            RecordView::Commit { tx: own, .. } => *own == tx,
            _ => false,
        },
        Finish::Ended => match view {
            RecordView::End { tx: own, .. } => *own == tx,
            _ => false,
        },
    }
}
