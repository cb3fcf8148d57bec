//! What is kept of each cell while the records are read.

ghost use Rattle.std.specs.Prelude.{◌≡◌, ◌≤◌, ◌*◌, ℕ, length, IfOk, IsOkUnless};
ghost use Rattle.page.specs.declared.fault.Fault.TheVariants.{NoResource};
ghost use Rattle.page.specs.declared.profile.TheConstants.{PAGES, SLOTS};
ghost use Rattle.log_laws.specs.Records.{start, history, base_lsn, last_lsn};
ghost use Rattle.log_laws.specs.Pages.{base_pages};
ghost use Rattle.wal.specs.Spelling.{Fits};
ghost use Rattle.wal.specs.Content.{shown};
ghost use Rattle.audit.specs.Cells.{HasCell, KeepsCells, cell_in, cells_after};

use crate::base::base_value;
use page::{Fault, Page, SLOTS, Value};
use std::alloc::Global;
use wal::{Log, RecordView, value_of};

/// How many records ahead are read.
pub const AHEAD: usize = 8;

/// What is kept of a cell.
#[derive(Clone, Copy)]
pub struct Cell {
    /// The transaction of its last update or CLR; None if it has none.
    pub writer: Option<u32>,
    /// The value that it holds; None if it is absent.
    pub image: Option<Value>,
}

/// The cells of `count` pages before the first record: they hold what the base pages hold. The only
/// error is `NoResource`.
pub fn start_cells(alloc: Global, base: &[Page], count: usize) -> Result<Vec<Cell>, Fault>
    requires { count ≤ PAGES }
    ensures ok { IfOk result (λ cells. (lsn : ℕ)
        → KeepsCells count (cell_in (base_pages base.now) (start lsn)) cells.items) }
    ensures err { IsOkUnless result NoResource }
{
    let mut cells = Vec::with_capacity(alloc, SLOTS * count)?;
    for place in 0..SLOTS * count {
        let image = base_value(base, (place / SLOTS) as u32, place % SLOTS);
        cells.push(Cell {
            writer: None,
            image,
        })?;
    }
    Ok(cells)
}

/// Puts the record into its cell, if it has one.
pub fn note_cell(cells: &mut [Cell], view: &RecordView)
    requires cell { HasCell (length cells.old) (shown view.now) }
    requires fits { Fits (shown view.now) }
    ensures { cells.new ≡ cells_after cells.old (shown view.now) }
{
    if let Some(change) = view.change() {
        cells[SLOTS * change.page as usize + change.slot as usize] = Cell {
            writer: view.tx(),
            image: value_of(change.image),
        };
    }
}

/// Whether a record is in the cell with this number; false if there is no such cell.
#[inline(always)]
fn is_written(cells: &[Cell], number: usize) -> bool {
    match cells.get(number) {
        Some(cell) => cell.writer.is_some(),
        None => false,
    }
}

/// Puts the cell numbers of the next records after an LSN into `numbers`, one for each place; 0 for
/// a record that is in no cell. If the log has no more records, the places left are unchanged.
#[inline(always)]
fn number_cells(log: &Log, lsn: u64, numbers: &mut [usize])
    requires from { base_lsn (history log.now) ≤ lsn }
    requires to { lsn ≤ last_lsn (history log.now) }
{
    let left = log.last() - lsn;
    for (step, number) in numbers.iter_mut().enumerate() {
        if (step as u64) < left {
            *number = match log.glance_after(lsn + step as u64).cell() {
                Some((page, slot)) => SLOTS * page as usize + slot as usize,
                None => 0,
            };
        }
    }
}

/// Brings the cells of the next records after an LSN into the processor's cache, as many as `seen`
/// has places. It changes nothing but `seen`, which is room for this function alone and may hold
/// anything before and after.
///
/// The cells of a full store do not fit into the cache. Cells that are read one right after another
/// are fetched at the same time, before the records need them. The writer of each cell is read, and
/// that of the next cell, since a cell may lie in two lines of the cache. What is read goes to
/// `seen`, since the compiler would drop a read whose result goes nowhere.
pub fn look_ahead(log: &Log, cells: &[Cell], lsn: u64, seen: &mut [usize])
    requires from { base_lsn (history log.now) ≤ lsn }
    requires to { lsn ≤ last_lsn (history log.now) }
{
    number_cells(log, lsn, seen);
    for number in seen {
        let ends = is_written(cells, number.wrapping_add(1));
        *number = is_written(cells, *number) as usize + ends as usize;
    }
}
