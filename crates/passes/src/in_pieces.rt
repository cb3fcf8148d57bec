//! A restart over a log that a device holds, which is read in pieces.

ghost use Rattle.std.specs.Prelude.{◌+◌, ◌*◌, ◌≤◌, ◌^◌, length, IfOk, IfErr, OnOk};
ghost use Rattle.device.specs.Reread.{IsReadThrough};
ghost use Rattle.changes.specs.Numbered.{StayNumbered};
ghost use Rattle.undo.specs.Appended.{HaveUpdates, AreFit};
ghost use Rattle.passes.specs.InPieces.{GoesForward, FailsOn, StopsForward, SplitsLog, RestartsOn, RestoresOn, GathersAlike};
ghost use Rattle.passes.specs.Calls.{IsRoom, HasRead, FindsMarks};

use crate::fresh::{ForwardReading, read_forward};
use crate::repeat::end_redo;
use crate::{Marks, PassFault, find_marks, gather_for_undo, redo_in_pieces, tables_in_pieces};
use changes::Pages;
use device::Share;
use restart::{UndoOutcome, check_lsns, roll_back_on};
use std::alloc::Global;
use std::thread::Threads;
use tables::Tables;
use undo::{Gathered, Looked, Place};

/// The result of a restart in pieces on a log and a store, besides the pages that it changes.
#[derive(Drop)]
pub struct Restarted {
    /// How many bytes of the log are before its torn tail.
    pub kept: u64,
    /// How many bytes are torn at the log's end.
    pub torn: usize,
    /// The records of the log that undo looked at. The records to append are made from them.
    pub gathered: Gathered,
    /// The LSN from which redo looked at records, 0 if it looked at none.
    pub redo_from: u64,
    /// How many records redo applied.
    pub redone: u64,
    /// The outcome of undo, with the records to append in compact form.
    pub outcome: UndoOutcome,
}

/// The result of analysis and redo on a log and a store, besides the pages.
#[derive(Drop)]
struct Forward {
    /// The marks of the log.
    marks: Marks,
    /// How many bytes are torn at the log's end.
    torn: usize,
    /// The tables of the crash. Their dirty pages are not looked at any more.
    tables: Tables,
    /// How many records redo applied to the pages.
    applied: u64,
}

/// Analysis and redo of a store whose master is 0: the pieces of the log are read once, and again
/// if redo needs the image of a record in them. Errors are those of [`go_forward`].
fn go_at_once<R: Threads + Sync, S: Share, P: Pages>(
    rt: &R,
    alloc: Global,
    source: &mut S,
    room: &mut [u8],
    workers: u32,
    pages: &mut P,
) -> Result<Forward, PassFault>
    requires room { IsRoom (length room.old) }
    ensures found { IfOk result (λ x. FindsMarks (S.text source.old) (length room.old)
        x.marks x.torn) }
    ensures answer { IfOk result (GoesForward P.Pages (S.text source.old) 0
        pages.old pages.new) }
    ensures read { OnOk result (IsReadThrough (S.text source.old) (S.read_to source.new)) }
    ensures fault { IfErr result (StopsForward P.Pages (S.text source.old) 0 pages.old) }
    ensures source { HasRead S.text S.failures S.read_to source.old source.new result }
{
    let read = read_forward(rt, alloc, source, room, workers, pages)?;
    check_lsns(read.marks.end().lsn, pages)?;
    let ForwardReading {
        marks,
        torn,
        tables,
        tallies,
    } = read;
    let applied = end_redo(alloc, source, &marks, room, pages, tallies?)?;
    Ok(Forward {
        marks,
        torn,
        tables,
        applied,
    })
}

/// Analysis and redo, one after the other: the log is read for its marks, then from the checkpoint
/// on, then from `redo_lsn` on. Errors are those of [`go_forward`].
fn go_by_passes<S: Share, P: Pages>(
    alloc: Global,
    source: &mut S,
    room: &mut [u8],
    master: u64,
    pages: &mut P,
) -> Result<Forward, PassFault>
    requires room { IsRoom (length room.old) }
    ensures found { IfOk result (λ x. FindsMarks (S.text source.old) (length room.old)
        x.marks x.torn) }
    ensures answer { IfOk result (GoesForward P.Pages (S.text source.old) master
        pages.old pages.new) }
    ensures read { OnOk result (IsReadThrough (S.text source.old) (S.read_to source.new)) }
    ensures fault { IfErr result (StopsForward P.Pages (S.text source.old) master pages.old) }
    ensures source { HasRead S.text S.failures S.read_to source.old source.new result }
{
    let (marks, torn) = find_marks(alloc, source, room)?;
    check_lsns(marks.end().lsn, pages)?;
    let tables = tables_in_pieces(alloc, source, &marks, room, master)?;
    let applied = redo_in_pieces(alloc, source, &marks, room, pages, &tables)?;
    Ok(Forward {
        marks,
        torn,
        tables,
        applied,
    })
}

/// Analysis and redo of a log and the pages of a store with this master. The log is read once if
/// the store has no checkpoint.
///
/// Errors: `Failed` if the source failed; those of [`read_log`](wal::read_log) for the log;
/// `PageAheadOfLog`; `BadMaster`; `NoSuchPage` of redo; `NoResource` if memory was refused, or if
/// an LSN of the log or an offset in it is above 2^63 - 1. Any other fault is returned only if the
/// source did not hold the same bytes all the time. After an error the pages are not specified.
fn go_forward<R: Threads + Sync, S: Share, P: Pages>(
    rt: &R,
    alloc: Global,
    source: &mut S,
    room: &mut [u8],
    workers: u32,
    master: u64,
    pages: &mut P,
) -> Result<Forward, PassFault>
    requires room { IsRoom (length room.old) }
    ensures found { IfOk result (λ x. FindsMarks (S.text source.old) (length room.old)
        x.marks x.torn) }
    ensures answer { IfOk result (GoesForward P.Pages (S.text source.old) master
        pages.old pages.new) }
    ensures read { OnOk result (IsReadThrough (S.text source.old) (S.read_to source.new)) }
    ensures fault { IfErr result (StopsForward P.Pages (S.text source.old) master pages.old) }
    ensures source { HasRead S.text S.failures S.read_to source.old source.new result }
{
    if master == 0 {
        go_at_once(rt, alloc, source, room, workers, pages)
    } else {
        go_by_passes(alloc, source, room, master, pages)
    }
}

/// Restarts on the log that a source holds and on the pages of a store with this master, as
/// [`restart_in_place`](restart::restart_in_place) does in memory. The pages are in memory, or their
/// changes are. The log is read in pieces, each into the room: from its beginning to its end, and
/// then only those pieces that are needed again. A log without a checkpoint is read the first time
/// by this many workers, of which each gets at least 1 MiB of it and a room of its own; a thread
/// is started for each of them. What is returned and made does not depend on their number.
///
/// Errors: `Failed` if the source failed; those of [`read_log`](wal::read_log) for the log; then
/// those of [`restart_alone`](restart::restart_alone); `NoResource` if memory was refused, or if an
/// LSN of the log or an offset in it is above 2^63 - 1. Any other fault is returned only if the
/// source did not hold the same bytes all the time. After an error the pages are not specified.
pub fn restart_in_pieces<R: Threads + Sync, S: Share, P: Pages>(
    rt: &R,
    alloc: Global,
    source: &mut S,
    room: &mut [u8],
    workers: u32,
    master: u64,
    pages: &mut P,
) -> Result<Restarted, PassFault>
    requires room { IsRoom (length room.old) }
    // On a lawful log and its store, over any base pages: the log's tail and the store that the
    // winners leave.
    ensures lawful { RestoresOn P.Pages (S.text source.old) master pages.old pages.new
        result }

    // On success: the result of analysis, redo and undo on the log and the store.
    ensures reads { IfOk result (SplitsLog (S.text source.old)) }
    ensures restarts { IfOk result (RestartsOn P.Pages (S.text source.old) master
        pages.old pages.new) }
    ensures numbered { OnOk result (StayNumbered P.Pages pages.old pages.new) }
    ensures alike { IfOk result (GathersAlike (S.text source.old)) }

    // Each update that is named was gathered. Each appended record has an encoding, and they are so
    // few that there are LSNs for them after the log.
    ensures told { IfOk result (λ x. HaveUpdates x.gathered x.outcome.appended.items) }
    ensures writable { IfOk result (λ x. AreFit x.gathered x.outcome.appended.items) }
    ensures few { IfOk result (λ x. length x.outcome.appended.items
        ≤ 2 * length x.gathered.records + 2 ^ 32) }

    // The log is then read to its end.
    ensures read { OnOk result (IsReadThrough (S.text source.old) (S.read_to source.new)) }

    // On an error, its condition holds for the input, a device and memory aside.
    ensures fault { IfErr result (FailsOn P.Pages (S.text source.old) master pages.old) }
    ensures source { HasRead S.text S.failures S.read_to source.old source.new result }
{
    let forward = go_forward(rt, alloc, source, room, workers, master, pages)?;
    let Forward {
        marks,
        torn,
        tables,
        applied,
    } = forward;
    let gathered = gather_for_undo(alloc, source, &marks, room, &tables)?;
    let looked = Looked {
        place: Place::Gathered(&gathered),
    };
    let outcome = roll_back_on(alloc, &looked, &tables, pages)?;
    Ok(Restarted {
        kept: marks.end().offset,
        torn,
        gathered,
        redo_from: tables.redo_lsn,
        redone: applied,
        outcome,
    })
}
