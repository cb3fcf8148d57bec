//! The transaction table during the scan. The entries of up to 256 transactions are kept aside,
//! each at the place of its transaction's number modulo 256, where it is found at once. The table
//! itself is not searched for a transaction above the highest number that it may hold.

ghost use Rattle.std.specs.Prelude.{◌≡◌, ℕ, List, OnOk, IfErr, if◌then◌else◌, ◌==◌, Some, None, IsOkUnless, ◌≢◌};
ghost use Rattle.page.specs.declared.fault.Fault.TheVariants.{NoResource};
ghost use Rattle.wal.specs.declared.record.Entry.{Entry};
ghost use Rattle.wal.specs.Content.{entry_of};
ghost use Rattle.analysis.specs.Tables.{entry_at};
ghost use Rattle.analysis.specs.Steps.{state_in, undo_next_of_entry, held_entry, AreKept, IsMoved, HasNoneAbove};

use page::Fault;
use std::collections::BTreeMap;
use wal::{Entry, State};

/// How many entries are kept aside.
pub const PLACES: usize = 256;

/// The entry of a transaction that has no record so far.
const NEW: Entry = Entry {
    state: State::Active,
    last: 0,
    undo_next: 0,
};

/// The entry of a transaction: a new one is active, and has nothing to undo.
#[inline(always)]
pub fn entry_in(
    transactions: &BTreeMap<u32, Entry>,
    kept: &[Option<(u32, Entry)>; PLACES],
    highest: u32,
    tx: u32,
) -> Entry
    requires { HasNoneAbove highest transactions.now.entries }
    ensures state { result.state ≡ state_in (held_entry tx kept.now transactions.now.entries) }
    ensures undo_next { result.undo_next
        ≡ undo_next_of_entry (held_entry tx kept.now transactions.now.entries) }
{
    if let Some((own, entry)) = kept[tx as usize % PLACES] {
        if own == tx {
            return entry;
        }
    }
    if tx > highest {
        return NEW;
    }
    match transactions.get(&tx) {
        Some(entry) => *entry,
        None => NEW,
    }
}

/// Puts the entry of a transaction.
fn put(transactions: &mut BTreeMap<u32, Entry>, tx: u32, entry: Entry) -> Result<(), Fault>
    ensures ok { OnOk result ((t : ℕ) → entry_at t transactions.new.entries
        ≡ (if tx == t then Some (entry_of (t, entry)) else entry_at t transactions.old.entries)) }
    ensures unchanged { IfErr result (λ _. transactions.new.entries ≡ transactions.old.entries) }
    ensures err { IsOkUnless result NoResource }
{
    transactions.insert(tx, entry)?;
    Ok(())
}

/// Moves the entry that is kept at the place of a transaction to the table, if it is the entry of
/// another transaction.
fn make_place(
    transactions: &mut BTreeMap<u32, Entry>,
    kept: &[Option<(u32, Entry)>; PLACES],
    highest: &mut u32,
    tx: u32,
) -> Result<(), Fault>
    requires kept { AreKept kept.now }
    requires highest { HasNoneAbove highest.old transactions.old.entries }
    ensures ok { OnOk result
        (IsMoved tx kept.now transactions.old.entries transactions.new.entries) }
    ensures highest { HasNoneAbove highest.new transactions.new.entries }
    ensures err { IsOkUnless result NoResource }
{
    if let Some((own, entry)) = kept[tx as usize % PLACES] {
        if own != tx {
            put(transactions, own, entry)?;
            *highest = own.max(*highest);
        }
    }
    Ok(())
}

/// Keeps the entry of a transaction: this state, LastLSN and UndoNxtLSN. If it is at its place, the
/// three fields are written one by one: to move a whole entry, its padding too, makes the next load
/// wait for the stores before it.
#[inline(always)]
pub fn keep(
    transactions: &mut BTreeMap<u32, Entry>,
    kept: &mut [Option<(u32, Entry)>; PLACES],
    highest: &mut u32,
    tx: u32,
    state: State,
    last: u64,
    undo_next: u64,
) -> Result<(), Fault>
    requires kept { AreKept kept.old }
    requires highest { HasNoneAbove highest.old transactions.old.entries }
    ensures ok { OnOk result ((t : ℕ) → held_entry t kept.new transactions.new.entries
        ≡ (if tx == t then Some
        (record { tx = t; state = state; last = last; undo_next = undo_next }) else held_entry t kept.old transactions.old.entries)) }
    ensures kept { AreKept kept.new }
    ensures highest { HasNoneAbove highest.new transactions.new.entries }
    ensures err { IsOkUnless result NoResource }
{
    if let Some((own, entry)) = &mut kept[tx as usize % PLACES] {
        if *own == tx {
            entry.state = state;
            entry.last = last;
            entry.undo_next = undo_next;
            return Ok(());
        }
    }
    make_place(transactions, kept, highest, tx)?;
    let entry = Entry {
        state,
        last,
        undo_next,
    };
    kept[tx as usize % PLACES] = Some((tx, entry));
    Ok(())
}

/// Drops the entry of a transaction that is kept aside.
fn forget(kept: &mut [Option<(u32, Entry)>; PLACES], tx: u32)
    requires { AreKept kept.old }
    ensures other { (t : ℕ) (entries : List (ℕ × Entry)) → (t ≢ tx)
        → held_entry t kept.new entries ≡ held_entry t kept.old entries }
    ensures own { (entries : List (ℕ × Entry)) → held_entry tx kept.new entries
        ≡ entry_at tx entries }
    ensures kept { AreKept kept.new }
{
    let place = tx as usize % PLACES;
    if let Some((own, _)) = kept[place] {
        if own == tx {
            kept[place] = None;
        }
    }
}

/// Removes the entry of a transaction, if it has one.
pub fn finish(
    transactions: &mut BTreeMap<u32, Entry>,
    kept: &mut [Option<(u32, Entry)>; PLACES],
    highest: u32,
    tx: u32,
)
    requires kept { AreKept kept.old }
    requires highest { HasNoneAbove highest transactions.old.entries }
    ensures entries { (t : ℕ) → held_entry t kept.new transactions.new.entries
        ≡ (if tx == t then None else held_entry t kept.old transactions.old.entries) }
    ensures kept { AreKept kept.new }
    ensures highest { HasNoneAbove highest transactions.new.entries }
{
    forget(kept, tx);
    if tx <= highest {
        transactions.remove(&tx);
    }
}

/// An upper bound of the numbers in a table: 0 if it is empty, otherwise the largest `u32`.
pub fn highest_in(transactions: &BTreeMap<u32, Entry>) -> u32
    ensures { HasNoneAbove result transactions.now.entries }
{
    if transactions.is_empty() { 0 } else { u32::MAX }
}

/// Puts all entries that are kept aside into the table.
pub fn put_back(
    transactions: &mut BTreeMap<u32, Entry>,
    kept: &[Option<(u32, Entry)>; PLACES],
) -> Result<(), Fault>
    requires { AreKept kept.now }
    ensures ok { OnOk result ((t : ℕ) → entry_at t transactions.new.entries
        ≡ held_entry t kept.now transactions.old.entries) }
    ensures err { IsOkUnless result NoResource }
{
    for place in 0..PLACES {
        if let Some((tx, entry)) = kept[place] {
            put(transactions, tx, entry)?;
        }
    }
    Ok(())
}
