//! The scan: what each record does to the tables.

ghost use Rattle.std.specs.Prelude.{◌≡◌, ℕ, IfErr, OnOk, if◌then◌else◌, ◌==◌, Some, None, Option, true, false, slice_index_or, slice_set, IsOkUnless};
ghost use Rattle.page.specs.declared.fault.Fault.TheVariants.{NoResource};
ghost use Rattle.log_laws.specs.Records.{LogRecord};
ghost use Rattle.wal.specs.Glances.{glance_of};
ghost use Rattle.log_laws.specs.Redo.{rec_lsn_of};
ghost use Rattle.log_laws.specs.Checkpoint.{or_else};
ghost use Rattle.analysis.specs.Steps.{prepared_from, entry_seen, rec_lsn_after, AreListed, held_entry, AreKept, HasNoneAbove};

use crate::kept::{PLACES, entry_in, finish, keep};
use page::Fault;
use std::collections::BTreeMap;
use wal::{Entry, Glance, State};

/// The state after a prepare: prepared, unless it is aborting.
fn prepared(old: State) -> State
    ensures { result ≡ prepared_from old }
{
    match old {
        State::Active => State::Prepared,
        State::Prepared => State::Prepared,
        State::Aborting => State::Aborting,
    }
}

/// What a record does to the transaction table.
#[inline(always)]
pub fn note_transaction(
    transactions: &mut BTreeMap<u32, Entry>,
    kept: &mut [Option<(u32, Entry)>; PLACES],
    highest: &mut u32,
    glance: Glance,
    lsn: u64,
) -> Result<(), Fault>
    requires kept { AreKept kept.old }
    requires highest { HasNoneAbove highest.old transactions.old.entries }
    ensures ok { OnOk result ((t : ℕ) → held_entry t kept.new transactions.new.entries
        ≡ entry_seen lsn glance t (held_entry t kept.old transactions.old.entries)) }
    ensures kept { AreKept kept.new }
    ensures highest { HasNoneAbove highest.new transactions.new.entries }
    ensures err { IsOkUnless result NoResource }
{
    match glance {
        Glance::Update { tx, .. } => {
            let old = entry_in(transactions, kept, *highest, tx);
            keep(transactions, kept, highest, tx, old.state, lsn, lsn)?;
        }
        Glance::Compensation { tx, undo_next, .. } => {
            let old = entry_in(transactions, kept, *highest, tx);
            keep(transactions, kept, highest, tx, old.state, lsn, undo_next)?;
        }
        Glance::Abort { tx, .. } => {
            let undo_next = entry_in(transactions, kept, *highest, tx).undo_next;
            let state = State::Aborting;
            keep(transactions, kept, highest, tx, state, lsn, undo_next)?;
        }
        Glance::Commit { tx, .. } => finish(transactions, kept, *highest, tx),
        Glance::End { tx, .. } => finish(transactions, kept, *highest, tx),
        Glance::Prepare { tx, .. } => {
            let old = entry_in(transactions, kept, *highest, tx);
            let state = prepared(old.state);
            keep(transactions, kept, highest, tx, state, lsn, old.undo_next)?;
        }
        Glance::Checkpoint => {}
    }
    Ok(())
}

/// Lists a page with this RecLSN, if it is not listed.
fn list_page(dirty: &mut BTreeMap<u32, u64>, page: u32, lsn: u64) -> Result<(), Fault>
    ensures ok { OnOk result ((p : ℕ) → rec_lsn_of p dirty.new.entries
        ≡ or_else (rec_lsn_of p dirty.old.entries) (if page == p then Some lsn else None)) }
    ensures unchanged { IfErr result (λ _. dirty.new.entries ≡ dirty.old.entries) }
    ensures err { IsOkUnless result NoResource }
{
    if !dirty.contains_key(&page) {
        dirty.insert(page, lsn)?;
    }
    Ok(())
}

/// Whether a page is known.
pub fn is_known(known: &[bool], page: usize) -> bool
    ensures { result ≡ slice_index_or known.now page false }
{
    page < known.len() && known[page]
}

/// Notes that a page is known, if there is a flag for it.
fn note_known(known: &mut [bool], page: u32)
    ensures { known.new ≡ slice_set known.old page true }
{
    let place = page as usize;
    if place < known.len() {
        known[place] = true;
    }
}

/// Lists a page with this RecLSN, if it is not listed. The table is searched once for a page
/// with a flag: after that the page is known to be listed.
fn list_unknown(
    dirty: &mut BTreeMap<u32, u64>,
    known: &mut [bool],
    page: u32,
    lsn: u64,
) -> Result<(), Fault>
    requires { AreListed known.old dirty.old.entries }
    ensures ok { OnOk result ((p : ℕ) → rec_lsn_of p dirty.new.entries
        ≡ or_else (rec_lsn_of p dirty.old.entries) (if page == p then Some lsn else None)) }
    ensures known { AreListed known.new dirty.new.entries }
    ensures err { IsOkUnless result NoResource }
{
    if is_known(known, page as usize) {
        return Ok(());
    }
    list_page(dirty, page, lsn)?;
    note_known(known, page);
    Ok(())
}

/// What a record does to the dirty page table.
pub fn note_page(
    dirty: &mut BTreeMap<u32, u64>,
    known: &mut [bool],
    glance: Glance,
    lsn: u64,
) -> Result<(), Fault>
    requires { AreListed known.old dirty.old.entries }
    ensures ok { OnOk result ((r : LogRecord) → glance ≡ glance_of r → (p : ℕ)
        → rec_lsn_of p dirty.new.entries ≡ rec_lsn_after lsn r p (rec_lsn_of p dirty.old.entries)) }
    ensures known { AreListed known.new dirty.new.entries }
    ensures err { IsOkUnless result NoResource }
{
    if let Some((page, _)) = glance.cell() {
        list_unknown(dirty, known, page, lsn)?;
    }
    Ok(())
}
