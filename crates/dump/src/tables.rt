//! The tables of a checkpoint end, within a line.

ghost use Rattle.std.specs.Prelude.{◌≡◌, ◌+◌, ◌≤◌, ◌<◌, ◌++◌, OnOk, codes, length, take};
ghost use Rattle.wal.specs.Content.{entry_of};
ghost use Rattle.dump.specs.Tables.{entry_opening, entry_closing, between_at, state_word, transaction_entry, dirty_entry, table_field};

use crate::Style;
use crate::line::{put_name, put_number, put_number_field, put_text, put_word_field};
use std::alloc::AllocError;
use wal::{DirtyTable, Entry, State, TransactionTable};

/// The most bytes that an entry takes. This is the entry of a transaction, as JSON.
const ENTRY_ROOM: usize = 120;

/// The most bytes before the first entry of a table. They are those of the longer name, as JSON,
/// and seven more are kept free.
const TABLE_NAME_ROOM: usize = 24;

/// Writes the beginning of an entry: the number that it is found by.
#[inline(always)]
fn put_entry_opening(buffer: &mut [u8], style: Style, name: &str, number: u64) -> usize
    requires { length name.now + 24 ≤ length buffer.old }
    ensures end { result ≤ length name.now + 24 }
    ensures text { take result buffer.new ≡ entry_opening style name.now number }
{
    let at = match style {
        Style::Text => {
            let at = put_text(buffer, 0, name.as_bytes());
            put_text(buffer, at, b" ")
        }
        Style::Json => {
            let at = put_text(buffer, 0, b"{\"");
            let at = put_text(buffer, at, name.as_bytes());
            put_text(buffer, at, b"\":")
        }
    };
    put_number(buffer, at, number)
}

/// The end of an entry.
#[inline(always)]
fn entry_closing(style: Style) -> &'static [u8]
    ensures { result.now ≡ entry_closing style }
{
    match style {
        Style::Text => b"",
        Style::Json => b"}",
    }
}

/// Appends what comes before the entry at a place: nothing before the first.
fn put_between(line: &mut Vec<u8>, style: Style, place: usize) -> Result<(), AllocError>
    ensures { OnOk result (line.new.items ≡ line.old.items ++ between_at style place) }
{
    if place == 0 {
        return Ok(());
    }
    match style {
        Style::Text => line.extend_from_slice(b"; "),
        Style::Json => line.extend_from_slice(b","),
    }
}

/// The state of a transaction.
fn state_word(state: State) -> &'static str
    ensures word { result.now ≡ state_word state }
    ensures short { length result.now ≤ 8 }
{
    match state {
        State::Active => "active",
        State::Aborting => "aborting",
        State::Prepared => "prepared",
    }
}

/// Appends an entry of a transaction table.
fn put_transaction(line: &mut Vec<u8>, style: Style, entry: (u32, Entry)) -> Result<(), AllocError>
    ensures { OnOk result (line.new.items
        ≡ line.old.items ++ transaction_entry style (entry_of entry)) }
{
    let (tx, entry) = entry;
    let mut buffer = [0; ENTRY_ROOM];
    let at = put_entry_opening(&mut buffer, style, "transaction", tx as u64);
    let at = put_word_field(&mut buffer, at, style, "state", state_word(entry.state));
    let at = put_number_field(&mut buffer, at, style, "LastLSN", entry.last);
    let at = put_number_field(&mut buffer, at, style, "UndoNxtLSN", entry.undo_next);
    let at = put_text(&mut buffer, at, entry_closing(style));
    line.extend_from_slice(&buffer[..at])
}

/// Appends an entry of a dirty page table: a page and its RecLSN.
fn put_dirty_page(line: &mut Vec<u8>, style: Style, entry: (u32, u64)) -> Result<(), AllocError>
    ensures { OnOk result (line.new.items ≡ line.old.items ++ dirty_entry style entry) }
{
    let (page, rec_lsn) = entry;
    let mut buffer = [0; ENTRY_ROOM];
    let at = put_entry_opening(&mut buffer, style, "page", page as u64);
    let at = put_number_field(&mut buffer, at, style, "RecLSN", rec_lsn);
    let at = put_text(&mut buffer, at, entry_closing(style));
    line.extend_from_slice(&buffer[..at])
}

/// Appends a transaction table as a field.
pub fn put_transactions(
    line: &mut Vec<u8>,
    style: Style,
    table: &TransactionTable,
) -> Result<(), AllocError>
    ensures { OnOk result (line.new.items ≡ line.old.items
        ++ table_field style (codes "transactions") transaction_entry table.now) }
{
    let mut buffer = [0; TABLE_NAME_ROOM];
    let at = put_name(&mut buffer, 0, style, "transactions");
    let at = put_text(&mut buffer, at, b"[");
    line.extend_from_slice(&buffer[..at])?;
    for place in 0..table.len() {
        put_between(line, style, place)?;
        put_transaction(line, style, table.entry(place))?;
    }
    line.push(b']')?;
    Ok(())
}

/// Appends a dirty page table as a field.
pub fn put_dirty(line: &mut Vec<u8>, style: Style, table: &DirtyTable) -> Result<(), AllocError>
    ensures { OnOk result (line.new.items
        ≡ line.old.items ++ table_field style (codes "dirty") dirty_entry table.now) }
{
    let mut buffer = [0; TABLE_NAME_ROOM];
    let at = put_name(&mut buffer, 0, style, "dirty");
    let at = put_text(&mut buffer, at, b"[");
    line.extend_from_slice(&buffer[..at])?;
    for place in 0..table.len() {
        put_between(line, style, place)?;
        put_dirty_page(line, style, table.entry(place))?;
    }
    line.push(b']')?;
    Ok(())
}
