//! The result of a restart.

ghost use Rattle.std.specs.Prelude.{◌≡◌, IfOk, IsOkUnless};
ghost use Rattle.page.specs.declared.fault.Fault.TheVariants.{NoResource};
ghost use Rattle.log_laws.specs.Records.{history};
ghost use Rattle.undo.specs.Appended.{HaveUpdates};
ghost use Rattle.restart.specs.Outcome.{outcome_of, outcome_in};

use page::{Fault, Store};
use std::alloc::Global;
use undo::{Appended, Looked, records_of};
use wal::Record;

/// What a restart makes of a log and its store.
#[derive(Drop)]
pub struct Outcome<A = Record> {
    /// The store after it: the master as it was, the pages recovered.
    pub store: Store,
    /// The records that it appends to the log, which take the LSNs after the log's last one.
    pub appended: Vec<A>,
    /// The LSN from which redo looked at records, 0 if it looked at none.
    pub redo_from: u64,
    /// How many records redo applied.
    pub redone: u64,
    /// How many transactions were rolled back.
    pub losers: u64,
    /// The transactions in doubt, in ascending order of number: they have prepared to commit, and
    /// neither committed nor aborted. What they wrote stays. To settle one, append a commit or an
    /// abort record of it to the log and restart again.
    pub in_doubt: Vec<u32>,
    /// How many compensation records (CLRs) are among the appended records.
    pub compensated: u64,
    /// How many end records are among the appended records.
    pub ended: u64,
}

/// An [`Outcome`] with the appended records in compact form: what they hold is in the log.
pub type BriefOutcome = Outcome<Appended>;

/// The outcome with the full records. The only error is [`Fault::NoResource`], if memory was
/// refused.
pub fn outcome_of(alloc: Global, log: &Looked, brief: BriefOutcome) -> Result<Outcome, Fault>
    requires { HaveUpdates log.now brief.appended.items }
    ensures ok { IfOk result (λ x. outcome_of x ≡ outcome_in (history log.now) brief) }
    ensures err { IsOkUnless result NoResource }
{
    let appended = records_of(alloc, log, &brief.appended)?;
    Ok(Outcome {
        store: brief.store,
        appended,
        redo_from: brief.redo_from,
        redone: brief.redone,
        losers: brief.losers,
        in_doubt: brief.in_doubt,
        compensated: brief.compensated,
        ended: brief.ended,
    })
}

/// What the rollback of the losers returns, besides the pages that it changes.
#[derive(Drop)]
pub struct UndoOutcome {
    /// The records to append, in compact form.
    pub appended: Vec<Appended>,
    /// How many losers there are.
    pub losers: u64,
    /// The transactions in doubt, in ascending order.
    pub in_doubt: Vec<u32>,
    /// How many updates are compensated.
    pub compensated: u64,
    /// How many ends are appended.
    pub ended: u64,
}
