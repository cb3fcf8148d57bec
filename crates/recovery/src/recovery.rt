//! Recovery in memory: from a log and a store to the bytes of a new log and the new store.

ghost use Rattle.std.specs.Prelude.{◌≡◌, ◌≤◌, ◌<◌, ◌+◌, ◌*◌, ◌^◌, ℕ, length, min, IfOk, OnOk, IfErr, IsOkUnless};
ghost use Rattle.page.specs.declared.fault.Fault.TheVariants.{NoResource};
ghost use Rattle.log_laws.specs.Records.{history, last_lsn};
ghost use Rattle.undo.specs.Appended.{HaveUpdates, AreFit};
ghost use Rattle.recovery.specs.Recovery.{report_of, ReportsOn, ForLawfulRead, ForRead, IsShortRestored, ReadCause, Remakes, RemakesLawful, RemakesRestart, RemakesRestored, appended_frames, frames_from};
ghost use Rattle.restart.specs.Options.{AreInRange};
ghost use Rattle.restart.specs.Outcome.{outcome_in};
ghost use Rattle.restart.specs.Results.{UnlessMemory};

use crate::Report;
use page::{Fault, Store};
use redo::{Gate, Parting};
use restart::{BriefOutcome, Options, UndoOutcome, restart_in_place};
use std::alloc::Global;
use std::thread::Threads;
use undo::{Appended, Looked, Place, frame_bytes_of, record_of};
use wal::{Log, write_frame};

/// How many bytes the frames of the records take that are appended to a log; 2^64 - 1 if they take
/// more.
fn tail_bytes(log: &Looked, appended: &[Appended]) -> u64
    requires told { HaveUpdates log.now appended.now }
    requires writable { AreFit log.now appended.now }
    ensures { (lsn : ℕ) → result ≡ min u64.MAX (length (frames_from lsn log.now appended.now)) }
{
    let mut bytes: u64 = 0;
    for entry in appended {
        bytes = bytes.saturating_add(frame_bytes_of(log, *entry));
    }
    bytes
}

/// The frames of the records that are appended to a log. Room for all of them is made at once, and
/// the full records are made one at a time from the compact form.
pub fn frames_of(alloc: Global, log: &Looked, appended: &[Appended]) -> Result<Vec<u8>, Fault>
    requires told { HaveUpdates log.now appended.now }
    requires writable { AreFit log.now appended.now }
    requires few { length appended.now ≤ 2 * length log.now.records + 2 ^ 32 }
    ensures frames { IfOk result (λ x. x.items ≡ appended_frames log.now appended.now) }
    ensures room { OnOk result (last_lsn (history log.now) + length appended.now < 2 ^ 64) }
    ensures err { IsOkUnless result NoResource }
{
    let mut frames = Vec::with_capacity(alloc, tail_bytes(log, appended) as usize)?;
    let mut lsn = log.next_lsn();
    for entry in appended {
        let record = record_of(log, *entry);
        write_frame(&record, lsn, &mut frames)?;
        lsn += 1;
    }
    Ok(frames)
}

/// The report of a restart that leaves this many pages. What it appends is dropped.
pub fn report_on(
    log: &Looked,
    torn: usize,
    pages: usize,
    redo_from: u64,
    redone: u64,
    outcome: UndoOutcome,
) -> Report
    ensures report { ReportsOn log.now torn pages redo_from redone outcome result }
    ensures torn { result.torn ≡ torn }
{
    Report {
        records: log.len(),
        torn: torn as u64,
        redo_from,
        redone,
        losers: outcome.losers,
        compensated: outcome.compensated,
        ended: outcome.ended,
        pages: pages as u64,
        in_doubt: outcome.in_doubt,
    }
}

/// The report of a restart, and the store that it leaves. What it appends is dropped.
fn report_of(log: &Looked, torn: usize, outcome: BriefOutcome) -> (Report, Store)
    ensures report { result.0 ≡ report_of log.now torn (outcome_in (history log.now) outcome) }
    ensures store { result.1 ≡ outcome.store }
{
    let report = Report {
        records: log.len(),
        torn: torn as u64,
        redo_from: outcome.redo_from,
        redone: outcome.redone,
        losers: outcome.losers,
        compensated: outcome.compensated,
        ended: outcome.ended,
        pages: outcome.store.pages.len() as u64,
        in_doubt: outcome.in_doubt,
    };
    (report, outcome.store)
}

/// What is made of the bytes of a log and a store before any of it is written.
#[derive(Drop)]
pub struct Recovery<'a> {
    /// The log without its torn tail: the beginning of the new log.
    pub kept: &'a [u8],
    /// The frames of the records appended: the rest of the new log.
    pub frames: Vec<u8>,
    /// The new store.
    pub store: Vec<u8>,
    pub report: Report,
}

/// What must be written after the bytes of a log that are kept, and the new store, not yet in
/// bytes.
#[derive(Drop)]
pub struct Remade {
    pub frames: Vec<u8>,
    pub store: Store,
    pub report: Report,
}

/// What must be written after a restart of a log and a store. The records looked at are those of
/// the log, or those that undo looked at. The only error is `NoResource`.
pub fn remade_of(
    alloc: Global,
    records: &Looked,
    torn: usize,
    outcome: BriefOutcome,
) -> Result<Remade, Fault>
    requires told { HaveUpdates records.now outcome.appended.items }
    requires writable { AreFit records.now outcome.appended.items }
    requires few { length outcome.appended.items ≤ 2 * length records.now.records + 2 ^ 32 }

    // If the outcome is that of a restart of a whole log, which is like the records looked at, and
    // of a store: for any bytes that encode them.
    ensures answer { IfOk result (RemakesRestart records.now torn outcome) }
    ensures lawful { IfOk result (RemakesRestored records.now torn outcome) }
    ensures short { IfOk result (IsShortRestored records.now torn outcome) }
    ensures torn { IfOk result (λ x. x.report.torn ≡ torn) }
    ensures err { IsOkUnless result NoResource }
{
    let frames = frames_of(alloc, records, &outcome.appended)?;
    let (report, store) = report_of(records, torn, outcome);
    Ok(Remade {
        frames,
        store,
        report,
    })
}

/// Recovers a store from its log: [`restart`](restart::restart) on the records, if the bytes of the
/// log encode some, and on the store, if its own bytes encode one, with the pages divided by
/// number.
///
/// The errors are, in this order: the faults of [`wal::read_log`] for the log; that of the store;
/// those of [`restart`](restart::restart). [`Fault::NoResource`], if memory or a thread was
/// refused, may come instead of any other result.
pub fn remake<G: Gate, R: Threads + Sync>(
    rt: &R,
    alloc: Global,
    records: Result<(Log, usize), Fault>,
    decoded: Result<Store, Fault>,
    options: &Options,
    gate: &G,
) -> Result<Remade, Fault>
    requires { AreInRange options.now }

    // For the bytes of a log and its store that are lawful over any base pages.
    ensures lawful { ForLawfulRead records.entry decoded (λ x. UnlessMemory result
        (RemakesLawful x)) }

    // On success.
    ensures answer { IfOk result (λ x. ForRead records.entry decoded (λ log text. Remakes log text
        x)) }

    // On an error, its condition holds for the input, memory aside.
    ensures cause { IfErr result (ReadCause records.entry decoded options.now) }
{
    let (records, torn) = records?;
    let before = decoded?;
    let parting = Parting::by_number(alloc, before.pages.len() as u32, options.parts)?;
    let outcome = restart_in_place(rt, alloc, &records, before, &parting, options.workers, gate)?;
    let looked = Looked {
        place: Place::Log(&records),
    };
    remade_of(alloc, &looked, torn, outcome)
}
