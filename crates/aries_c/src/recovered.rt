//! Recovery from bytes to bytes.

ghost use Rattle.std.specs.Prelude.{◌≡◌, ◌-◌, ◌++◌, ◌≤◌, length, take, drop, IfOk, IfErr};
ghost use Rattle.recovery.specs.Recovery.{RestoresBytes, IsRecoveryOf, IsShort as HasShortFrames, CauseAlone};
ghost use Rattle.aries_c.specs.Fault.{Tells, IsOnlyMemoryOrRoom, OnDone, OnFailed, OnNoRoom, OnOtherFailure, OnMade};
ghost use Rattle.aries_c.specs.Recovered.{report_told, TellsLengths, IsShort, RecoversIn, IfLawful, RestoresIn, HasShortTail, ResumesLog, ResumesStore};
ghost use Rattle.aries_c.specs.Writing.{KeepsRest};

use crate::Fault;
use crate::room::copy_to;
use recovery::{Recovery, recovery_alone};
use std::alloc::Global;

/// What a recovery found and did, and the lengths of what it makes.
#[repr(C)]
#[derive(Clone, Copy)]
pub struct Recovered {
    /// Whole records of the log.
    pub records: u64,
    /// Bytes of its torn tail, which is dropped.
    pub torn: u64,
    /// The LSN from which redo looked at records, 0 if it looked at none.
    pub redo_from: u64,
    /// Records that redo applied.
    pub redone: u64,
    /// Transactions that were rolled back.
    pub losers: u64,
    /// CLRs appended.
    pub compensated: u64,
    /// End records appended.
    pub ended: u64,
    /// Pages of the store.
    pub pages: u64,
    /// How many transactions are in doubt.
    pub in_doubt: u64,
    /// Bytes of the tail: the frames of the records appended.
    pub tail_length: u64,
    /// Bytes of the new store, as many as the store has.
    pub store_length: u64,
}

/// These numbers, and these lengths.
fn recovered_of(recovery: &Recovery) -> Recovered
    ensures report { recovery.now.report ≡ report_told result recovery.now.report.in_doubt }
    ensures in_doubt { result.in_doubt ≡ length recovery.now.report.in_doubt }
    ensures tail { result.tail_length ≡ length recovery.now.frames.items }
    ensures store { result.store_length ≡ length recovery.now.store.items }
{
    let report = &recovery.report;
    Recovered {
        records: report.records,
        torn: report.torn,
        redo_from: report.redo_from,
        redone: report.redone,
        losers: report.losers,
        compensated: report.compensated,
        ended: report.ended,
        pages: report.pages,
        in_doubt: report.in_doubt.len() as u64,
        tail_length: recovery.frames.len() as u64,
        store_length: recovery.store.len() as u64,
    }
}

/// Writes numbers to the front of a buffer.
fn copy_numbers(numbers: &[u32], out: &mut [u32])
    requires { length numbers.now ≤ length out.old }
    ensures { out.new ≡ numbers.now ++ drop (length numbers.now) out.old }
{
    out[..numbers.len()].copy_from_slice(numbers);
}

/// What is made of a log and a store in these bytes, in the caller's thread.
fn recovery_in<'a>(alloc: Global, log: &'a [u8], store: &[u8]) -> Result<Recovery<'a>, page::Fault>
    ensures lawful { RestoresBytes log.now store.now result }
    ensures answer { IfOk result (IsRecoveryOf log.now store.now) }
    ensures cause { IfErr result (CauseAlone log.now store.now) }
    ensures kept { IfOk result (λ x. x.kept.now ≡ take (length log.now - x.report.torn) log.now) }
    ensures short { IfLawful log.now store.now (IfOk result (HasShortFrames log.now)) }
{
    let store = Vec::from_slice(alloc, store)?;
    recovery_alone(alloc, log, store)
}

/// Recovers the store in these bytes from the log in these bytes, in the caller's thread. The new
/// log is the log without its last `made.torn` bytes, followed by the first `made.tail_length`
/// bytes of `tail`. The new store is the first `made.store_length` bytes of `out_store`, as many as
/// the store has. The first `made.in_doubt` numbers of `in_doubt` are those of the transactions in
/// doubt, in ascending order. The rest of the buffers is as before.
///
/// 64: a buffer is too short, and `made` has what a recovery makes and its lengths. Any other
/// number except 0 is that of the fault of the log, of the store or of the restart, with its place.
/// Unless the number is 0 the buffers are as before; unless it is 0 or 64 `made` is as before too.
#[unsafe(no_mangle)]
pub extern "C" fn aries_recover(
    alloc: Global,
    log: &[u8],
    store: &[u8],
    tail: &mut [u8],
    out_store: &mut [u8],
    in_doubt: &mut [u32],
    made: &mut Recovered,
) -> Fault
    // On success.
    ensures answer { RecoversIn log.now store.now tail.new out_store.new
        in_doubt.new made.new result }

    // For the bytes of a log and its store that are lawful over any base pages.
    ensures lawful { RestoresIn log.now store.now tail.new out_store.new
        in_doubt.new made.new result }
    ensures lawful_refused { IfLawful log.now store.now (IsOnlyMemoryOrRoom result) }
    // The tail of a lawful log takes at most twice its bytes.
    ensures lawful_tail { IfLawful log.now store.now
        (OnMade result (HasShortTail log.now made.new)) }

    // For what an interrupted recovery of them may leave: what that recovery would have made.
    ensures interrupted_log { ResumesLog log.now store.now tail.new made.new result }
    ensures interrupted_store { ResumesStore log.now store.now out_store.new made.new result }

    // On an error, its condition holds, or a buffer is shorter than what a recovery makes.
    ensures cause { OnOtherFailure result (Tells (CauseAlone log.now store.now) result) }
    ensures lengths { OnNoRoom result (TellsLengths log.now store.now made.new) }
    ensures short { OnNoRoom result (IsShort made.new tail.old out_store.old in_doubt.old) }

    // What it leaves.
    ensures after_tail { OnDone result (KeepsRest made.new.tail_length tail.old tail.new) }
    ensures after_store { OnDone result
        (KeepsRest made.new.store_length out_store.old out_store.new) }
    ensures after_doubt { OnDone result (KeepsRest made.new.in_doubt in_doubt.old in_doubt.new) }
    ensures kept_tail { OnFailed result (tail.new ≡ tail.old) }
    ensures kept_store { OnFailed result (out_store.new ≡ out_store.old) }
    ensures kept_doubt { OnFailed result (in_doubt.new ≡ in_doubt.old) }
    ensures untold { OnOtherFailure result (made.new ≡ made.old) }
{
    let recovery = match recovery_in(alloc, log, store) {
        Ok(recovery) => recovery,
        Err(fault) => return Fault::from(fault),
    };
    *made = recovered_of(&recovery);
    if tail.len() < recovery.frames.len()
        || out_store.len() < recovery.store.len()
        || in_doubt.len() < recovery.report.in_doubt.len()
    {
        return Fault::no_room();
    }
    copy_to(&recovery.frames, tail);
    copy_to(&recovery.store, out_store);
    copy_numbers(&recovery.report.in_doubt, in_doubt);
    Fault::none()
}
