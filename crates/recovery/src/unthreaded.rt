//! Recovery in memory without threads.

ghost use Rattle.std.specs.Prelude.{◌≡◌, ◌-◌, length, take, IfOk, IfErr};
ghost use Rattle.recovery.specs.Recovery.{ForLawfulBytes, RestoresBytes, IsRecoveryOf, IsShort, CauseAlone};

use crate::recovery::{Recovery, Remade, remade_of};
use page::{Fault, decode_store, encode_store_into};
use restart::restart_alone;
use std::alloc::Global;
use undo::{Looked, Place};
use wal::read_log;

/// Recovers a store from its log, both already read, in the thread of the caller: it starts no
/// thread. What it makes is what [`recover`](crate::recover) writes, for every number of workers
/// and parts. The new store is made in the memory of the bytes that were read.
///
/// The errors are, in this order: the faults of [`wal::read_log`] for the log; those of
/// [`page::decode_store`] for the store; those of [`restart`](restart::restart) from
/// [`Fault::PageAheadOfLog`] on. [`Fault::NoResource`], if memory was refused, may come instead of
/// any other result.
pub fn recovery_alone<'a>(
    alloc: Global,
    log: &'a [u8],
    mut store: Vec<u8>,
) -> Result<Recovery<'a>, Fault>
    // For the bytes of a log and its store that are lawful over any base pages.
    ensures lawful { RestoresBytes log.now store.items result }

    // On success.
    ensures answer { IfOk result (IsRecoveryOf log.now store.items) }
    ensures kept { IfOk result (λ x. x.kept.now ≡ take (length log.now - x.report.torn) log.now) }

    // What is appended to a lawful log takes at most twice its bytes.
    ensures short { ForLawfulBytes log.now store.items (λ _. IfOk result (IsShort log.now)) }

    // On an error, its condition holds for the input, memory aside; valid options cause none.
    ensures cause { IfErr result (CauseAlone log.now store.items) }
{
    let (records, torn) = read_log(alloc, log)?;
    let before = decode_store(alloc, &store)?;
    let outcome = restart_alone(alloc, &records, before)?;
    let looked = Looked {
        place: Place::Log(&records),
    };
    let Remade {
        frames,
        store: made,
        report,
    } = remade_of(alloc, &looked, torn, outcome)?;
    encode_store_into(&made, &mut store)?;
    let kept = log.len().saturating_sub(report.torn as usize);
    Ok(Recovery {
        kept: &log[..kept],
        frames,
        store,
        report,
    })
}
