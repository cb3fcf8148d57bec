//! Restart without threads.

ghost use Rattle.std.specs.Prelude.{◌≤◌, ◌+◌, ◌*◌, ◌^◌, length, IfOk, IfErr};
ghost use Rattle.log_laws.specs.Records.{history};
ghost use Rattle.undo.specs.Appended.{HaveUpdates, AreFit};
ghost use Rattle.restart.specs.Outcome.{outcome_in};
ghost use Rattle.restart.specs.Restart.{Restarts, RestoresLawful, InputFault};

use crate::forward::forward_alone;
use crate::outcome::BriefOutcome;
use crate::passes::{check_lsns, roll_back};
use page::{Fault, Store};
use redo::{OpenGate, Watch};
use std::alloc::Global;
use undo::{Looked, Place};
use wal::Log;

/// [`restart_in_place`](crate::restart_in_place) in the thread of the caller: it starts no thread,
/// calls no gate and needs no partition. Its errors are those of `restart_in_place` from
/// [`Fault::PageAheadOfLog`] on.
pub fn restart_alone(alloc: Global, log: &Log, store: Store) -> Result<BriefOutcome, Fault>
    // For a lawful log and its store, over any base pages: the log's tail and the store that the
    // winners leave.
    ensures lawful { RestoresLawful (outcome_in (history log.now)) log.now store result }

    // On success: what analysis, redo and undo make of log and store, and no error condition holds.
    ensures restarts { IfOk result (λ x. Restarts log.now store (outcome_in (history log.now) x)) }

    // Each update that is named is in the log; each appended record has an encoding, and they are
    // so few that there are LSNs for them after the log.
    ensures told { IfOk result (λ x. HaveUpdates log.now x.appended.items) }
    ensures writable { IfOk result (λ x. AreFit log.now x.appended.items) }
    ensures few { IfOk result (λ x. length x.appended.items ≤ 2 * length log.now.records + 2 ^ 32) }

    // On an error, its condition holds for the input, memory aside.
    ensures fault { IfErr result (InputFault log.now store) }
{
    check_lsns(log.last(), &store.pages)?;
    let master = store.master;
    let nobody: Watch<OpenGate> = Watch::Nobody;
    let (tables, redone) = forward_alone(alloc, log, store, &nobody)?;
    let looked = Looked {
        place: Place::Log(log),
    };
    roll_back(alloc, &looked, master, &tables, redone)
}
