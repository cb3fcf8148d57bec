//! The line of a record.

ghost use Rattle.std.specs.Prelude.{◌≡◌, ◌+◌, ◌≤◌, ◌++◌, OnOk, length, take};
ghost use Rattle.wal.specs.Content.{shown};
ghost use Rattle.wal.specs.Spelling.{Fits};
ghost use Rattle.dump.specs.Record.{kind_word, plain_fields, cell_fields, short_fields, table_fields, record_line};
ghost use Rattle.dump.specs.declared.record.TheConstants.{FIELDS_ROOM};

use crate::Style;
use crate::line::{closing, put_image_field, put_number_field, put_opening};
use crate::tables::{put_dirty, put_transactions};
use crate::value::IMAGE_ROOM;
use std::alloc::AllocError;
use wal::RecordView;

/// The most bytes that the fields of a record take after its LSN, without tables. They are those of
/// an update: two images, each after four marks, and 133 bytes more.
const FIELDS_ROOM: usize = 2 * (IMAGE_ROOM + 4) + 133;

/// The most bytes of a line before the tables of a record: 56 for the opening, 27 for the LSN, and
/// the fields.
pub const RECORD_ROOM: usize = FIELDS_ROOM + 83;

/// The buffers in which the lines of records are put together.
#[derive(Drop)]
pub struct LineRoom {
    /// How they are written.
    pub style: Style,
    /// The buffer in which a line is put together up to the tables of its record.
    pub buffer: [u8; RECORD_ROOM],
    /// The whole line.
    pub line: Vec<u8>,
}

/// The kind of a record, in the words of the formats.
fn kind_word(view: &RecordView) -> &'static str
    ensures word { result.now ≡ kind_word (shown view.now) }
    ensures short { length result.now ≤ 16 }
{
    match view {
        RecordView::Update { .. } => "update",
        RecordView::Compensation { .. } => "CLR",
        RecordView::Commit { .. } => "commit",
        RecordView::Abort { .. } => "abort",
        RecordView::End { .. } => "end",
        RecordView::Prepare { .. } => "prepare",
        RecordView::CheckpointBegin => "checkpoint begin",
        RecordView::CheckpointEnd { .. } => "checkpoint end",
    }
}

/// Writes the transaction of a record and its PrevLSN.
#[inline(always)]
fn put_plain(buffer: &mut [u8], at: usize, style: Style, tx: u32, prev: u64) -> usize
    requires { at + 66 ≤ length buffer.old }
    ensures end { result ≤ at + 66 }
    ensures text { take result buffer.new ≡ take at buffer.old ++ plain_fields style tx prev }
{
    let at = put_number_field(buffer, at, style, "transaction", tx as u64);
    put_number_field(buffer, at, style, "PrevLSN", prev)
}

/// Writes the cell that a record changes.
#[inline(always)]
fn put_cell(buffer: &mut [u8], at: usize, style: Style, page: u32, slot: u8) -> usize
    requires { at + 56 ≤ length buffer.old }
    ensures end { result ≤ at + 56 }
    ensures text { take result buffer.new ≡ take at buffer.old ++ cell_fields style page slot }
{
    let at = put_number_field(buffer, at, style, "page", page as u64);
    put_number_field(buffer, at, style, "slot", slot as u64)
}

/// Writes the fields of a record after its LSN, without the tables of a checkpoint end.
fn put_short_fields(buffer: &mut [u8], at: usize, style: Style, view: &RecordView) -> usize
    requires fits { Fits (shown view.now) }
    requires room { at + FIELDS_ROOM ≤ length buffer.old }
    ensures end { result ≤ at + FIELDS_ROOM }
    ensures text { take result buffer.new
        ≡ take at buffer.old ++ short_fields style (shown view.now) }
{
    match view {
        RecordView::Update {
            tx,
            prev,
            page,
            slot,
            before,
            after,
        } => {
            let at = put_plain(buffer, at, style, *tx, *prev);
            let at = put_cell(buffer, at, style, *page, *slot);
            let at = put_image_field(buffer, at, style, "before", *before);
            put_image_field(buffer, at, style, "after", *after)
        }
        RecordView::Compensation {
            tx,
            prev,
            page,
            slot,
            undo_next,
            image,
        } => {
            let at = put_plain(buffer, at, style, *tx, *prev);
            let at = put_cell(buffer, at, style, *page, *slot);
            let at = put_number_field(buffer, at, style, "UndoNxtLSN", *undo_next);
            put_image_field(buffer, at, style, "image", *image)
        }
        RecordView::Commit { tx, prev } => put_plain(buffer, at, style, *tx, *prev),
        RecordView::Abort { tx, prev } => put_plain(buffer, at, style, *tx, *prev),
        RecordView::End { tx, prev } => put_plain(buffer, at, style, *tx, *prev),
        RecordView::Prepare { tx, prev } => put_plain(buffer, at, style, *tx, *prev),
        RecordView::CheckpointBegin => at,
        RecordView::CheckpointEnd { begin, .. } => {
            put_number_field(buffer, at, style, "BeginLSN", *begin)
        }
    }
}

/// Appends the tables of a checkpoint end; for other records, nothing.
#[inline]
fn put_tables(line: &mut Vec<u8>, style: Style, view: &RecordView) -> Result<(), AllocError>
    ensures { OnOk result (line.new.items
        ≡ line.old.items ++ table_fields style (shown view.now)) }
{
    match view {
        RecordView::CheckpointEnd {
            transactions,
            dirty,
            ..
        } => {
            put_transactions(line, style, transactions)?;
            put_dirty(line, style, dirty)
        }
        _ => Ok(()),
    }
}

/// Appends the line of a record, whose frame is at this offset in bytes. The content of `buffer` is
/// not used.
pub fn put_record(
    line: &mut Vec<u8>,
    buffer: &mut [u8; RECORD_ROOM],
    style: Style,
    offset: u64,
    lsn: u64,
    view: &RecordView,
) -> Result<(), AllocError>
    requires { Fits (shown view.now) }
    ensures { OnOk result (line.new.items
        ≡ line.old.items ++ record_line style offset lsn (shown view.now)) }
{
    let at = put_opening(buffer, style, offset, kind_word(view));
    let at = put_number_field(buffer, at, style, "LSN", lsn);
    let at = put_short_fields(buffer, at, style, view);
    line.extend_from_slice(&buffer[..at])?;
    put_tables(line, style, view)?;
    line.extend_from_slice(closing(style))?;
    Ok(())
}
