//! Restart on values: analysis, redo and undo, one after the other.

ghost use Rattle.std.specs.Prelude.{◌≡◌, ◌<◌, ◌≤◌, ◌+◌, ◌*◌, ◌^◌, length, IfOk, OnOk, IfErr};
ghost use Rattle.page.specs.Store.{AreNumbered};
ghost use Rattle.changes.specs.Numbered.{StayNumbered};
ghost use Rattle.log_laws.specs.Records.{history};
ghost use Rattle.undo.specs.Appended.{HaveUpdates, AreFit};
ghost use Rattle.undo.specs.Enough.{AppendsAlike};
ghost use Rattle.undo.specs.Undone.{HasNoTransaction0, AreWritable};
ghost use Rattle.restart.specs.Outcome.{outcome_of, outcome_in};
ghost use Rattle.restart.specs.Restart.{AreSettings, SettingsFault, ShowNoneAhead, ShowAheadFault, IsCount, clrs_in, ends_in, Restarts, RestoresWith, RestoresInBrief, RestartsOnWhole, RestoresWhole, FailsOnWhole, RestartFault, RestartsFrom, RestoresFrom, FailsFrom, LacksMemoryFrom};
ghost use Rattle.restart.specs.Results.{IsErrWhen};

use crate::doubt::in_doubt;
use crate::forward::go_forward;
use crate::outcome::{BriefOutcome, Outcome, UndoOutcome, outcome_of};
use changes::Pages;
use page::{Fault, Store};
use redo::{Gate, Parting, Redone, are_workers};
use std::alloc::Global;
use std::thread::Threads;
use tables::Tables;
use undo::{Appended, Looked, Place, undo_on};
use wal::Log;

/// Returns an error for a number of workers out of its range, then for a partition of another
/// number of pages.
fn check_settings(store: &Store, parting: &Parting, workers: u32) -> Result<(), Fault>
    ensures ok { OnOk result (AreSettings (length store.now.pages) parting.now workers) }
    ensures refused { IsErrWhen result
        (SettingsFault (length store.now.pages) parting.now workers) }
    ensures fault { IfErr result (SettingsFault (length store.now.pages) parting.now workers) }
{
    if !are_workers(workers) {
        return Err(Fault::BadWorkers);
    }
    if parting.pages() as usize != store.pages.len() {
        return Err(Fault::BadParting);
    }
    Ok(())
}

/// Returns [`Fault::PageAheadOfLog`] with its number for the first page whose PageLSN is above
/// `last`, the LSN of the log's last record. The pages of the store are in memory, or their changes
/// are.
pub fn check_lsns<P: Pages>(last: u64, pages: &P) -> Result<(), Fault>
    ensures ok { OnOk result (ShowNoneAhead P.Pages pages.now last) }
    ensures fault { IfErr result (ShowAheadFault P.Pages pages.now last) }
{
    for number in 0..pages.len() {
        if pages.lsn(number) > last {
            // No store has a page whose number needs more than 32 bits.
            let Ok(number) = u32::try_from(number) else {
                return Err(Fault::NoResource);
            };
            return Err(Fault::PageAheadOfLog(number));
        }
    }
    Ok(())
}

/// How many CLRs there are among records, and how many ends.
fn count_kinds(appended: &[Appended]) -> (u64, u64)
    ensures clrs { IsCount clrs_in appended.now result.0 }
    ensures ends { IsCount ends_in appended.now result.1 }
{
    let mut clrs = 0;
    let mut ends = 0;
    for record in appended {
        match record {
            Appended::Compensation { .. } => clrs += 1,
            Appended::End { .. } => ends += 1,
        }
    }
    (clrs, ends)
}

/// Rolls the losers back on the redone pages of a store, or on their changes, which ends a restart.
/// `log` and `tables` are as for [`roll_back`], and so are the errors. The dirty pages of `tables` are
/// not looked at, so there may be none. After an error the pages are not specified.
pub fn roll_back_on<P: Pages>(
    alloc: Global,
    log: &Looked,
    tables: &Tables,
    pages: &mut P,
) -> Result<UndoOutcome, Fault>
    requires no_transaction_0 { HasNoTransaction0 tables.now }
    // On success: what undo makes of the whole log and the pages; for a lawful log and its store,
    // over any base pages, the log's tail and the store that the winners leave.
    ensures restarts { IfOk result
        (RestartsFrom P.Pages log.now tables.now pages.old pages.new) }
    ensures restores { IfOk result
        (RestoresFrom P.Pages log.now tables.now pages.old pages.new) }
    ensures numbered { OnOk result (StayNumbered P.Pages pages.old pages.new) }

    // What is appended is the same by what was gathered and by the whole log.
    ensures alike { IfOk result (λ x. AppendsAlike log.now tables.now x.appended.items) }

    // Each update that is named is in the log; each appended record has an encoding, and they are
    // so few that there are LSNs for them after the log.
    ensures told { IfOk result (λ x. HaveUpdates log.now x.appended.items) }
    ensures writable { IfOk result (λ x. AreFit log.now x.appended.items) }
    ensures few { IfOk result (λ x. length x.appended.items ≤ 2 * length log.now.records + 2 ^ 32) }

    // On an error, its condition holds for the whole log and the store, memory aside.
    ensures fault { IfErr result (FailsFrom P.Pages log.now tables.now pages.old) }
    ensures lawful { IfErr result (LacksMemoryFrom P.Pages log.now tables.now pages.old) }
{
    let in_doubt = in_doubt(alloc, tables)?;
    let appended = undo_on(alloc, log, tables, pages)?;
    let (compensated, ended) = count_kinds(&appended);
    let losers = tables.transactions.len() - in_doubt.len();
    Ok(UndoOutcome {
        appended,
        losers: losers as u64,
        in_doubt,
        compensated,
        ended,
    })
}

/// Rolls the losers back on the redone pages of a store, which ends a restart. `master`, `tables`
/// and `redone` are the store's master, the tables that analysis finds in the whole log, and what
/// redo makes of the store by them.
///
/// `log` is the whole log, or what an [`undo::Gathering`] gathers of it for the losers of `tables`.
/// The outcome is the same: the store, the numbers, and the records that are appended, which
/// [`undo::record_of`] makes of either.
///
/// The errors are those of [`undo`]: [`Fault::NoSuchPage`], [`Fault::BrokenChain`], and
/// [`Fault::NoResource`] if memory was refused. For a lawful log and its store only the last is
/// possible. On an error the pages are lost.
pub fn roll_back(
    alloc: Global,
    log: &Looked,
    master: u64,
    tables: &Tables,
    redone: Redone,
) -> Result<BriefOutcome, Fault>
    requires numbered { AreNumbered redone.pages }
    requires no_transaction_0 { HasNoTransaction0 tables.now }
    // For a lawful log and its store, over any base pages: the log's tail and the store that the
    // winners leave.
    ensures lawful { RestoresWhole log.now master tables.now redone result }

    // On success: what undo makes of the whole log and the pages.
    ensures restarts { RestartsOnWhole log.now master tables.now redone result }

    // What is appended is the same by what was gathered and by the whole log.
    ensures alike { IfOk result (λ x. AppendsAlike log.now tables.now x.appended.items) }

    // Each update that is named is in the log; each appended record has an encoding, and they are
    // so few that there are LSNs for them after the log.
    ensures told { IfOk result (λ x. HaveUpdates log.now x.appended.items) }
    ensures writable { IfOk result (λ x. AreFit log.now x.appended.items) }
    ensures few { IfOk result (λ x. length x.appended.items ≤ 2 * length log.now.records + 2 ^ 32) }

    // On an error, its condition holds for the whole log and the store, memory aside.
    ensures fault { FailsOnWhole log.now tables.now redone result }
{
    let Redone { mut pages, applied } = redone;
    let rolled = roll_back_on(alloc, log, tables, &mut pages)?;
    Ok(Outcome {
        store: Store { master, pages },
        appended: rolled.appended,
        redo_from: tables.redo_lsn,
        redone: applied,
        losers: rolled.losers,
        in_doubt: rolled.in_doubt,
        compensated: rolled.compensated,
        ended: rolled.ended,
    })
}

/// [`restart`] on a store that is given away: its pages are changed in place and not copied, and
/// the appended records are in compact form. On an error the pages are lost.
pub fn restart_in_place<G: Gate, R: Threads + Sync>(
    rt: &R,
    alloc: Global,
    log: &Log,
    store: Store,
    parting: &Parting,
    workers: u32,
    gate: &G,
) -> Result<BriefOutcome, Fault>
    // For a lawful log and its store, over any base pages: the log's tail and the store that the
    // winners leave.
    ensures lawful { RestoresInBrief log.now store parting.now workers result }

    // On success: what analysis, redo and undo make of log and store, and no error condition holds.
    ensures restarts { IfOk result (λ x. Restarts log.now store (outcome_in (history log.now) x)) }
    ensures settings { IsErrWhen result (SettingsFault (length store.pages) parting.now workers) }

    // Each update that is named is in the log.
    ensures told { IfOk result (λ x. HaveUpdates log.now x.appended.items) }

    // Each appended record has an encoding; they are so few that there are LSNs for them after the
    // log.
    ensures writable { IfOk result (λ x. AreFit log.now x.appended.items) }
    ensures few { IfOk result (λ x. length x.appended.items ≤ 2 * length log.now.records + 2 ^ 32) }

    // On an error, its condition holds for the settings or the input, memory aside.
    ensures fault { IfErr result (RestartFault log.now store parting.now workers) }
{
    check_settings(&store, parting, workers)?;
    check_lsns(log.last(), &store.pages)?;
    let master = store.master;
    let (tables, redone) = go_forward(rt, alloc, log, store, parting, workers, gate)?;
    let looked = Looked {
        place: Place::Log(log),
    };
    roll_back(alloc, &looked, master, &tables, redone)
}

/// Restarts on a log and its store after a crash (ARIES, section 6). Analysis begins at the last
/// checkpoint. Redo runs in `workers` threads, which draw the parts of the pages and call the gate
/// for each. Undo rolls back the transactions that have not finished and are not in doubt. With two
/// or more workers, one more thread finds these transactions while redo runs.
///
/// On a lawful log and its store each page has exactly what the updates and compensations of the
/// committed and in-doubt transactions, in LSN order, make of the base page (what it held before
/// the log's first record). Its PageLSN is the LSN of its last record. The appended records are the
/// log's tail, and the transactions in doubt are listed. Log, store and outcome do not depend on
/// workers, partition and gate. A restart on what was appended and the store after it appends
/// nothing, leaves that store as it is and lists the same transactions.
///
/// The errors are, in this order: [`Fault::BadWorkers`] if `workers` is outside 1 to 64;
/// [`Fault::BadParting`] if the partition has another number of pages than the store;
/// [`Fault::PageAheadOfLog`] with the number of the first page whose PageLSN is above the log's
/// last LSN; [`Fault::BadMaster`] for a master that no checkpoint has; those of [`redo::redo`]; and
/// then those of [`undo`]. [`Fault::NoResource`], if memory or a thread was refused, may come
/// instead of any other result. For a lawful log and its store, with valid settings, no other error
/// is possible. After an error log and store are as they were.
pub fn restart<G: Gate, R: Threads + Sync>(
    rt: &R,
    alloc: Global,
    log: &Log,
    store: &Store,
    parting: &Parting,
    workers: u32,
    gate: &G,
) -> Result<Outcome, Fault>
    // For a lawful log and its store, over any base pages: the log's tail and the store that the
    // winners leave.
    ensures lawful { RestoresWith outcome_of log.now store.now parting.now workers result }

    // On success: what analysis, redo and undo make of log and store, and no error condition holds.
    ensures restarts { IfOk result (λ x. Restarts log.now store.now (outcome_of x)) }
    ensures settings { IsErrWhen result
        (SettingsFault (length store.now.pages) parting.now workers) }

    // Each appended record has an encoding; they are so few that there are LSNs for them after the
    // log.
    ensures writable { IfOk result (λ x. AreWritable x.appended.items) }
    ensures few { IfOk result (λ x. length x.appended.items ≤ 2 * length log.now.records + 2 ^ 32) }

    // On an error, its condition holds for the settings or the input, memory aside.
    ensures fault { IfErr result (RestartFault log.now store.now parting.now workers) }
{
    check_settings(store, parting, workers)?;
    let pages = Vec::from_slice(alloc, &store.pages)?;
    let copy = Store {
        master: store.master,
        pages,
    };
    let brief = restart_in_place(rt, alloc, log, copy, parting, workers, gate)?;
    let looked = Looked {
        place: Place::Log(log),
    };
    outcome_of(alloc, &looked, brief)
}
