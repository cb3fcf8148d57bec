//! Redo: three rounds of workers.

ghost use Rattle.std.specs.Prelude.{◌≡◌, Err, length, IfOk, OnOk, IfErr, IsTrue, ◌↔◌};
ghost use Rattle.page.specs.declared.fault.Fault.TheVariants.{BadWorkers};
ghost use Rattle.redo.specs.Inputs.{input_over};
ghost use Rattle.redo.specs.Parts.{AreAllTallied};
ghost use Rattle.redo.specs.Redone.{AreWorkers, AllExist, RepeatsHistory, RedoFault};

use crate::crew::{deal, run};
use crate::finish::{finish_pages, total};
use crate::gate::Gate;
use crate::gather::tallies_of;
use crate::input::{PartedInput, RedoInput};
use crate::route::routes;
use crate::tally::Tally;
use crate::unthreaded::redo_watched;
use crate::watch::Watch;
use crate::{Parting, Redone};
use board::Board;
use page::{Fault, Store};
use std::alloc::Global;
use std::thread::Threads;
use tables::Tables;
use wal::Log;

/// How many workers redo has at most.
pub const WORKERS: u32 = board::SEATS as u32;

/// Whether redo may have this number of workers: 1 to [`WORKERS`].
pub fn are_workers(workers: u32) -> bool
    ensures { IsTrue result ↔ AreWorkers workers }
{
    (1..=WORKERS).contains(&workers)
}

/// The tallies of the pages of a store, found in two rounds of workers. In the first round each
/// worker makes the route of its stretch of the log. In the second each draws parts from a board
/// and redoes them. The store stays as it is.
fn tallied_in_rounds<G: Gate, R: Threads + Sync>(
    rt: &R,
    alloc: Global,
    log: &Log,
    store: &Store,
    tables: &Tables,
    parting: &Parting,
    workers: u32,
    gate: &G,
) -> Result<Vec<Tally>, Fault>
    requires pages { length parting.now.part_of ≡ length store.now.pages }
    requires workers { AreWorkers workers }
    ensures tallied { IfOk result (λ tallies. AreAllTallied
        (input_over log.now store.now.pages tables.now) tallies.items) }
    ensures exist { OnOk result (AllExist log.now (length store.now.pages) tables.now.redo_lsn) }
    ensures fault { IfErr result (RedoFault
        log.now (length store.now.pages) tables.now.redo_lsn workers) }
{
    // Opens the store: its pages are at their numbers.
    let _ = &store.pages;
    let input = RedoInput { log, store, tables };
    let parted = PartedInput { input, parting };
    let routes = routes(rt, alloc, &parted, workers)?;
    let (board, seat) = Board::new(alloc, parting.parts(), workers, workers)?;
    let crew = deal(alloc, &board, seat, workers)?;
    let shares = run(rt, alloc, &parted, &routes, &board, gate, crew)?;
    tallies_of(alloc, &parted, board, shares)
}

/// Redo by three rounds of workers, on the pages of a store that is given away.
fn redo_in_rounds<G: Gate, R: Threads + Sync>(
    rt: &R,
    alloc: Global,
    log: &Log,
    store: Store,
    tables: &Tables,
    parting: &Parting,
    workers: u32,
    gate: &G,
) -> Result<Redone, Fault>
    requires pages { length parting.now.part_of ≡ length store.pages }
    requires workers { AreWorkers workers }
    ensures redone { IfOk result (RepeatsHistory log.now tables.now store.pages) }
    ensures fault { IfErr result (RedoFault log.now
        (length store.pages) tables.now.redo_lsn workers) }
{
    let tallies = tallied_in_rounds(rt, alloc, log, &store, tables, parting, workers, gate)?;
    // The log's LSNs fit, and no record counts twice, so the count fits.
    let _last = log.last();
    let applied = total(&tallies);
    let mut pages = store.pages;
    finish_pages(rt, log, &tallies, &mut pages, workers as usize);
    Ok(Redone { pages, applied })
}

/// [`redo`] of a store that is given away: its pages are changed in place and not copied. After an
/// error they are gone. One worker does what [`redo_watched`](crate::redo_watched) does, and also
/// draws the parts.
pub fn redo_in_place<G: Gate, R: Threads + Sync>(
    rt: &R,
    alloc: Global,
    log: &Log,
    store: Store,
    tables: &Tables,
    parting: &Parting,
    workers: u32,
    gate: &G,
) -> Result<Redone, Fault>
    requires pages { length parting.now.part_of ≡ length store.pages }
    ensures redone { IfOk result (RepeatsHistory log.now tables.now store.pages) }
    ensures workers { OnOk result (AreWorkers workers) }

    // On an error, its condition holds for the input, memory aside.
    ensures fault { IfErr result (RedoFault log.now
        (length store.pages) tables.now.redo_lsn workers) }
    ensures bad_workers { (AreWorkers workers → ⊥) → result ≡ Err BadWorkers }
{
    if !are_workers(workers) {
        return Err(Fault::BadWorkers);
    }
    if workers == 1 {
        return redo_watched(alloc, log, store, tables, &Watch::Gate { parting, gate });
    }
    redo_in_rounds(rt, alloc, log, store, tables, parting, workers, gate)
}

/// Repeats history on the pages of a store (ARIES, section 6.2): the updates and compensations on
/// each page, of all transactions, are applied to it in LSN order. One is applied if the dirty page
/// table lists the page, and its LSN is at least the page's RecLSN, at least `redo_lsn`, and above
/// the PageLSN. If `redo_lsn` is 0, none is applied. Returns the pages; the store stays as it is.
///
/// At most `workers` threads do the work, in three rounds. In the first each goes through its
/// stretch of the log and notes, for each part of the partition, the LSNs of the records on that
/// part's pages. In the second each draws parts from a board, calls the gate once for each, and
/// finds which of the records noted for the part each page lacks. In the third each puts the values
/// of the last of these into a share of the pages. One worker starts no thread, calls the gate for
/// each part, and finds in one pass over the log what the first two rounds find. The outcome does
/// not depend on the workers, the partition or the gate.
///
/// Errors: [`Fault::BadWorkers`] if `workers` is outside 1 to 64; then [`Fault::NoSuchPage`] with
/// the LSN of the first record from `redo_lsn` on that is on a page which the store lacks.
/// [`Fault::NoResource`], if memory was refused, can come instead of any other result.
pub fn redo<G: Gate, R: Threads + Sync>(
    rt: &R,
    alloc: Global,
    log: &Log,
    store: &Store,
    tables: &Tables,
    parting: &Parting,
    workers: u32,
    gate: &G,
) -> Result<Redone, Fault>
    requires pages { length parting.now.part_of ≡ length store.now.pages }
    ensures redone { IfOk result (RepeatsHistory log.now tables.now store.now.pages) }
    ensures workers { OnOk result (AreWorkers workers) }

    // On an error, its condition holds for the input, memory aside.
    ensures fault { IfErr result (RedoFault log.now
        (length store.now.pages) tables.now.redo_lsn workers) }
    ensures bad_workers { (AreWorkers workers → ⊥) → result ≡ Err BadWorkers }
{
    if !are_workers(workers) {
        return Err(Fault::BadWorkers);
    }
    let pages = Vec::from_slice(alloc, &store.pages)?;
    let copy = Store {
        master: store.master,
        pages,
    };
    redo_in_place(rt, alloc, log, copy, tables, parting, workers, gate)
}
