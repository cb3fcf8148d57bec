//! Whether a record keeps a law: one function for each law, and it is exact.

ghost use Rattle.std.specs.Prelude.{◌≡◌, ◌+◌, ◌*◌, ◌≤◌, ◌<◌, ◌↔◌, ℕ, List, All, IsTrue, Some, length, option_map, slice_index_or};
ghost use Rattle.log_laws.specs.Records.{LogRecord, History, history, last_lsn, record_at, base_lsn};
ghost use Rattle.log_laws.specs.Meaning.{BasePages};
ghost use Rattle.log_laws.specs.Laws.{IsLawful, ChainLaw, FinishLaw, CompensationLaw, BeforeLaw, Strictness};
ghost use Rattle.log_laws.specs.Store.{NamesPages};
ghost use Rattle.wal.specs.Spelling.{Fits};
ghost use Rattle.log_laws.specs.Tail.{tx_of};
ghost use Rattle.wal.specs.Content.{shown};
ghost use Rattle.audit.specs.Standings.{IsStandingOf, standing_in, is_finish_of, is_some_with};
ghost use Rattle.audit.specs.Unfinished.{unfinished_in};
ghost use Rattle.audit.specs.Cells.{HasCell, KeepsCells, cell_in};
ghost use Rattle.audit.specs.declared.cell.Cell.{Cell};
ghost use Rattle.audit.specs.Passing.{Begins, IsUpdateUndoneBy, IsFreeFor};
ghost use Rattle.page.specs.declared.profile.TheConstants.{SLOTS};

use crate::cell::Cell;
use crate::standing::{Finish, Standing, is_finish_of};
use crate::standings::Standings;
use page::{SLOTS, Value};
use wal::{DirtyTable, Log, RecordView};

/// Whether each page of the table is below the count.
fn are_below(dirty: &DirtyTable, count: usize) -> bool
    ensures { IsTrue result ↔ All (λ d. d.0 < count) dirty.now }
{
    for place in 0..dirty.len() {
        let (page, _) = dirty.entry(place);
        if page as usize >= count {
            return false;
        }
    }
    true
}

/// Whether each page that the record names is below the count.
pub fn names_pages(view: &RecordView, count: usize) -> bool
    ensures { IsTrue result ↔ NamesPages count (shown view.now) }
{
    if let Some(change) = view.change() {
        return (change.page as usize) < count;
    }
    match view {
        RecordView::CheckpointEnd { dirty, .. } => are_below(dirty, count),
        RecordView::Update { .. }
        | RecordView::Compensation { .. }
        | RecordView::Commit { .. }
        | RecordView::Abort { .. }
        | RecordView::End { .. }
        | RecordView::Prepare { .. }
        | RecordView::CheckpointBegin => true,
    }
}

/// Whether the record at an LSN is the one by which a transaction finishes in this way.
fn finishes_at(log: &Log, lsn: u64, tx: u32, finish: Finish) -> bool
    ensures { result ≡ is_some_with (is_finish_of finish tx) (record_at (history log.now) lsn) }
{
    match log.get(lsn) {
        Some(view) => is_finish_of(&view, tx, finish),
        None => false,
    }
}

/// Whether the PrevLSN of the record at an LSN is the LSN of its transaction's last record. The
/// last record of a finished transaction is the one by which it finished.
pub fn keeps_chain(log: &Log, view: &RecordView, standing: Standing, lsn: u64) -> bool
    ensures { (base : BasePages) (so_far : History) (links : List ℕ) → IsLawful base so_far
        → Begins so_far log.now → last_lsn so_far + 1 ≡ lsn
        → IsStandingOf links (tx_of (shown view.now)) so_far standing
        → IsTrue result ↔ ChainLaw so_far (shown view.now) }
{
    let Some(tx) = view.tx() else {
        return true;
    };
    match standing {
        Standing::Unfinished(status) => view.prev() == status.last,
        Standing::Finished(finish) => {
            view.prev() < lsn && finishes_at(log, view.prev(), tx, finish)
        }
    }
}

/// Whether no commit, abort, end or prepare of its transaction forbids the record.
pub fn keeps_finish(view: &RecordView, standing: Standing) -> bool
    ensures { (log : History) (links : List ℕ)
        → IsStandingOf links (tx_of (shown view.now)) log standing
        → IsTrue result ↔ FinishLaw log (shown view.now) }
{
    match view {
        RecordView::Update { .. } => standing.is_active(),
        RecordView::Compensation { .. } => !standing.is_finished() && !standing.is_in_doubt(),
        RecordView::Commit { .. } => standing.can_turn(),
        RecordView::Abort { .. } => standing.can_turn(),
        RecordView::End { .. } => !standing.is_ended() && !standing.is_in_doubt(),
        RecordView::Prepare { .. } => standing.is_active(),
        RecordView::CheckpointBegin => true,
        RecordView::CheckpointEnd { .. } => true,
    }
}

/// Whether both images are absent, or hold the same bytes.
fn are_same(left: Option<&[u8]>, right: Option<&[u8]>) -> bool
    ensures { IsTrue result ↔ option_map (λ s. s.now) left.entry
        ≡ option_map (λ s. s.now) right.entry }
{
    match left {
        None => match right {
            None => true,
            Some(_) => false,
        },
        Some(left) => match right {
            None => false,
            Some(right) => left == right,
        },
    }
}

/// Whether a record is an update of this cell that has this before image and PrevLSN.
fn undoes(view: &RecordView, cell: (u32, u8), undo_next: u64, image: Option<&[u8]>) -> bool
    ensures { IsTrue result ↔ IsUpdateUndoneBy (shown view.now) cell.0 cell.1 undo_next
        (option_map (λ s. s.now) image.entry) }
{
    match view {
        RecordView::Update {
            prev,
            page,
            slot,
            before,
            ..
        } => {
            cell.0 == *page && cell.1 == *slot && undo_next == *prev && are_same(image, *before)
        }
        _ => false,
    }
}

/// Whether the record at an LSN is such an update.
fn undoes_at(log: &Log, lsn: u64, cell: (u32, u8), undo_next: u64, image: Option<&[u8]>) -> bool
    ensures { IsTrue result ↔ ((r : LogRecord) × (record_at (history log.now) lsn ≡ Some r)
        × IsUpdateUndoneBy r cell.0 cell.1 undo_next (option_map (λ s. s.now) image.entry)) }
{
    match log.get(lsn) {
        None => false,
        Some(view) => undoes(&view, cell, undo_next, image),
    }
}

/// Whether a CLR undoes the newest pending update, and an end without a commit finds no pending
/// update. The record keeps the law of finish.
pub fn keeps_compensation(log: &Log, view: &RecordView, standing: Standing) -> bool
    ensures { (so_far : History) (links : List ℕ) → Begins so_far log.now
        → base_lsn so_far + length links ≡ last_lsn so_far
        → IsStandingOf links (tx_of (shown view.now)) so_far standing
        → FinishLaw so_far (shown view.now)
        → IsTrue result ↔ CompensationLaw so_far (shown view.now) }
{
    match view {
        RecordView::Compensation {
            page,
            slot,
            undo_next,
            image,
            ..
        } => undoes_at(log, standing.newest(), (*page, *slot), *undo_next, *image),
        RecordView::End { .. } => standing.is_finished() || standing.newest() == 0,
        RecordView::Update { .. }
        | RecordView::Commit { .. }
        | RecordView::Abort { .. }
        | RecordView::Prepare { .. }
        | RecordView::CheckpointBegin
        | RecordView::CheckpointEnd { .. } => true,
    }
}

/// What is kept of a cell.
fn cell_at(cells: &[Cell], page: u32, slot: u8) -> Cell
    requires { SLOTS * page + slot < length cells.now }
    ensures { (default : Cell) → result
        ≡ slice_index_or cells.now (SLOTS * page + slot) default }
{
    cells[SLOTS * page as usize + slot as usize]
}

/// Whether the writer of a cell, if it has one, is this transaction or not among the unfinished.
fn is_free_for(standings: &Standings, writer: Option<u32>, tx: u32) -> bool
    ensures { IsTrue result
        ↔ IsFreeFor (unfinished_in standings.now.unfinished) writer tx }
{
    match writer {
        None => true,
        Some(other) => other == tx || !standings.has_unfinished(other),
    }
}

/// Whether no other unfinished transaction has an update or CLR in the cell of an update.
pub fn keeps_strictness(standings: &Standings, cells: &[Cell], view: &RecordView) -> bool
    requires { HasCell (length cells.now) (shown view.now) }
    ensures { (base : BasePages) (so_far : History) (links : List ℕ) (count : ℕ)
        → IsLawful base so_far
        → ((t : ℕ) → IsStandingOf links t so_far (standing_in standings.now t))
        → KeepsCells count (cell_in base so_far) cells.now → NamesPages count (shown view.now)
        → Fits (shown view.now)
        → IsTrue result ↔ Strictness so_far (shown view.now) }
{
    match view {
        RecordView::Update { tx, page, slot, .. } => {
            is_free_for(standings, cell_at(cells, *page, *slot).writer, *tx)
        }
        RecordView::Compensation { .. }
        | RecordView::Commit { .. }
        | RecordView::Abort { .. }
        | RecordView::End { .. }
        | RecordView::Prepare { .. }
        | RecordView::CheckpointBegin
        | RecordView::CheckpointEnd { .. } => true,
    }
}

/// Whether an image is this value.
pub fn is_value(image: Option<&[u8]>, value: Option<Value>) -> bool
    ensures { IsTrue result ↔ option_map (λ s. s.now) image.entry ≡ value }
{
    match value {
        Some(value) => are_same(image, Some(value.as_slice())),
        None => image.is_none(),
    }
}

/// Whether the before image of an update is its cell's value.
pub fn keeps_before(cells: &[Cell], view: &RecordView) -> bool
    requires { HasCell (length cells.now) (shown view.now) }
    ensures { (base : BasePages) (so_far : History) (count : ℕ)
        → KeepsCells count (cell_in base so_far) cells.now → NamesPages count (shown view.now)
        → Fits (shown view.now)
        → IsTrue result ↔ BeforeLaw base so_far (shown view.now) }
{
    match view {
        RecordView::Update {
            page,
            slot,
            before,
            ..
        } => is_value(*before, cell_at(cells, *page, *slot).image),
        RecordView::Compensation { .. }
        | RecordView::Commit { .. }
        | RecordView::Abort { .. }
        | RecordView::End { .. }
        | RecordView::Prepare { .. }
        | RecordView::CheckpointBegin
        | RecordView::CheckpointEnd { .. } => true,
    }
}
