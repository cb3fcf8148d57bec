//! Recovery of the files that an engine left whose log a journal writes. It has no premise about
//! the log: the engine may have stopped at any moment.
//!
//! Entry points: [`recover_crashed`] in memory, and [`recover_crashed_devices`] over devices and
//! with threads. For any other recovery, [`left_is_lawful`] shows the premise.
//!
//! The promise: the recovery leaves exactly the effects of the committed transactions and of those
//! in doubt, and each commit that was forced is kept. With valid options the only errors are fault
//! 1 and failures of devices.
//!
//! The crate has no modules: all of it is below, and what an engine leaves is defined in
//! `specs/Left`.
#![tactic(auto)]

ghost use Rattle.std.specs.Prelude.{◌≡◌, MatchResult};
ghost use Rattle.page.specs.declared.fault.Fault.TheVariants.{NoResource};
ghost use Rattle.log_laws.specs.Meaning.{BasePages};
ghost use Rattle.recovery.specs.Recovery.{new_log};
ghost use Rattle.journal.specs.Traces.{Trace};
ghost use Rattle.recovery.specs.Devices.{UnlessDevice};
ghost use Rattle.journal_recovery.specs.Left.{IsLeft, IsSurvivor, LeftIsLawful, ForLeft, DeliversSurvivor};

use device::{Sink, Source};
use page::Fault;
use recovery::{Recovery, Report, recover, recovery_alone};
use redo::Gate;
use restart::Options;
use std::alloc::Global;
use std::thread::Threads;

/// Recovers a store from its log, both in memory and without threads. If an engine that keeps the
/// rules left both files when it stopped, the only error is `NoResource`. It is
/// [`recovery_alone`](recovery::recovery_alone); the contract says what its result is then.
pub fn recover_crashed<'a>(
    alloc: Global,
    log: &'a [u8],
    store: Vec<u8>,
) -> Result<Recovery<'a>, Fault>
    ensures { (base : BasePages) (t : Trace) (left : IsLeft base t log.now store.items)
        → MatchResult result (λ x. IsSurvivor base t left.there log.now (new_log x) x.store.items x.report)
        (λ e. e ≡ NoResource) }
{
    recovery_alone(alloc, log, store)
}

/// Recovers a store from its log as [`recover_crashed`] does, over devices and with threads: it is
/// [`recover`](recovery::recover). If an engine that keeps the rules left both files when it stopped,
/// the only errors are a lack of memory or of a thread, and those of the devices.
pub fn recover_crashed_devices<
    LR: Source,
    SR: Source,
    LW: Sink,
    SW: Sink,
    G: Gate,
    R: Threads + Sync,
>(
    rt: &R,
    alloc: Global,
    log: &mut LR,
    store: &mut SR,
    out_log: &mut LW,
    out_store: &mut SW,
    options: &Options,
    gate: &G,
) -> Result<Report, Fault>
    ensures { ForLeft (LR.left log.old) (SR.left store.old) options.now (λ base t there file.
        UnlessDevice result (DeliversSurvivor LW.Sink out_log.old out_log.new
        SW.Sink out_store.old out_store.new base t there file)) }
{
    recover(rt, alloc, log, store, out_log, out_store, options, gate)
}

/// What an engine leaves when it stops, at any moment, is lawful. That is the premise of every
/// recovery, in memory or over devices.
pub fn left_is_lawful()
    ensures { LeftIsLawful }
{}
