//! The tables of a checkpoint end as C reads and writes them.

ghost use Rattle.std.specs.Prelude.{◌≡◌, ◌≢◌, ◌≤◌, IfOk, IfErr, length, map};
ghost use Rattle.log_laws.specs.declared.state.State.{State as Content};
ghost use Rattle.log_laws.specs.Records.{TableEntry};
ghost use Rattle.wal.specs.Content.{entry_of};
ghost use Rattle.aries_c.specs.Fault.{no_memory, not_writable, IsMemoryOrNotWritable};
ghost use Rattle.aries_c.specs.Tables.{state_number, told_entry, told_dirty, Fills, NamesNoTable};

use crate::Fault;
use std::alloc::Global;
use wal::{DirtyTable, State, TransactionTable};

/// An entry of a transaction table: LastLSN and UndoNxtLSN, 0 for none, the transaction from 1, and
/// its state: 0 active, 1 aborting, 2 prepared.
#[repr(C)]
#[derive(Clone, Copy)]
pub struct Entry {
    pub last: u64,
    pub undo_next: u64,
    pub tx: u32,
    pub state: u8,
}

/// An entry of a dirty page table: RecLSN, and the page.
#[repr(C)]
#[derive(Clone, Copy)]
pub struct DirtyPage {
    pub rec_lsn: u64,
    pub page: u32,
}

/// The fields of a checkpoint end: the LSN of its begin record, and how many entries its tables
/// have.
#[repr(C)]
#[derive(Clone, Copy)]
pub struct Tables {
    pub begin: u64,
    pub transactions: u64,
    pub dirty: u64,
}

/// The number of a state.
pub fn state_number(state: State) -> u8
    ensures { result ≡ state_number state }
{
    match state {
        State::Active => 0,
        State::Aborting => 1,
        State::Prepared => 2,
    }
}

/// The state with this number; not writable if no state has it.
fn state_of(number: u8) -> Result<State, Fault>
    ensures found { IfOk result (λ state. state_number state ≡ number) }
    ensures err { IfErr result (λ e. e ≡ not_writable) }
    ensures only { IfErr result (λ _. (state : Content) → state_number state ≢ number) }
{
    match number {
        0 => Ok(State::Active),
        1 => Ok(State::Aborting),
        2 => Ok(State::Prepared),
        _ => Err(Fault::not_writable()),
    }
}

/// This entry of a transaction table, for C.
pub fn entry_told(entry: (u32, wal::Entry)) -> Entry
    ensures { result ≡ told_entry (entry_of entry) }
{
    let (tx, entry) = entry;
    Entry {
        last: entry.last,
        undo_next: entry.undo_next,
        tx,
        state: state_number(entry.state),
    }
}

/// Writes the entries of a transaction table to the front of a buffer.
pub fn fill_entries(table: &TransactionTable, out: &mut [Entry])
    requires { length table.now ≤ length out.old }
    ensures { Fills told_entry table.now out.old out.new }
{
    for place in 0..table.len() {
        out[place] = entry_told(table.entry(place));
    }
}

/// Writes the entries of a dirty page table to the front of a buffer.
pub fn fill_dirty(table: &DirtyTable, out: &mut [DirtyPage])
    requires { length table.now ≤ length out.old }
    ensures { Fills told_dirty table.now out.old out.new }
{
    for place in 0..table.len() {
        let (page, rec_lsn) = table.entry(place);
        out[place] = DirtyPage { rec_lsn, page };
    }
}

/// The entry that C gives; not writable if its state has another number.
fn entry_named(entry: &Entry) -> Result<(u32, wal::Entry), Fault>
    ensures found { IfOk result (λ x. told_entry (entry_of x) ≡ entry.now) }
    ensures err { IfErr result (λ e. e ≡ not_writable) }
    ensures only { IfErr result (λ _. (content : TableEntry) → told_entry content ≢ entry.now) }
{
    let state = state_of(entry.state)?;
    Ok((
        entry.tx,
        wal::Entry {
            state,
            last: entry.last,
            undo_next: entry.undo_next,
        },
    ))
}

/// The entries that C gives.
pub fn entries_named(alloc: Global, entries: &[Entry]) -> Result<Vec<(u32, wal::Entry)>, Fault>
    ensures found { IfOk result (λ x. map told_entry (map entry_of x.items) ≡ entries.now) }
    ensures err { IfErr result (IsMemoryOrNotWritable (NamesNoTable entries.now)) }
{
    let mut named = Vec::with_capacity(alloc, entries.len())?;
    for entry in entries {
        let one = entry_named(entry)?;
        named.push(one)?;
    }
    Ok(named)
}

/// The entries that C gives.
pub fn dirty_named(alloc: Global, entries: &[DirtyPage]) -> Result<Vec<(u32, u64)>, Fault>
    ensures found { IfOk result (λ x. map told_dirty x.items ≡ entries.now) }
    ensures err { IfErr result (λ e. e ≡ no_memory) }
{
    let mut named = Vec::with_capacity(alloc, entries.len())?;
    for entry in entries {
        named.push((entry.page, entry.rec_lsn))?;
    }
    Ok(named)
}
