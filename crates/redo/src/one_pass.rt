//! Which records each page lacks, found in one pass over the records in the caller's thread.

ghost use Rattle.std.specs.Prelude.{◌≡◌, ℕ, ◌+◌, ◌<◌, ◌≤◌, All, Some, length, slice_index_or, IfOk, OnOk, IfErr, IsOkUnless};
ghost use Rattle.page.specs.declared.fault.Fault.TheVariants.{NoResource};
ghost use Rattle.log_laws.specs.Records.{LogRecord, history, record_at, last_lsn, base_lsn};
ghost use Rattle.redo.specs.Inputs.{input_over};
ghost use Rattle.redo.specs.Changes.{NamesBelow, advance};
ghost use Rattle.redo.specs.Routes.{skipped_in, NoteFault};
ghost use Rattle.redo.specs.Redone.{AllExist, RedoFault};
ghost use Rattle.redo.specs.Parts.{AreAllTallied, resolved};
ghost use Rattle.redo.specs.OnePass.{AreUpTo};
ghost use Rattle.redo.specs.declared.tally.Tally.{Tally};

use crate::input::RedoInput;
use crate::part::{begin_page, count_at};
use crate::tally::Tally;
use crate::tally_table::page_count;
use page::{Fault, Store};
use std::alloc::Global;
use tables::Tables;
use wal::Log;

/// The tallies of all pages before a record is applied to them. The only error is `NoResource`.
fn begin_all(alloc: Global, input: &RedoInput) -> Result<Vec<Tally>, Fault>
    ensures begun { IfOk result (λ tallies. AreUpTo input.now
        (skipped_in input.now) tallies.items) }
    ensures err { IsOkUnless result NoResource }
{
    let store = input.store;
    let count = page_count(&store.pages)?;
    let mut tallies = Vec::with_capacity(alloc, count as usize)?;
    for number in 0..count {
        tallies.push(begin_page(input, number))?;
    }
    Ok(tallies)
}

/// Counts the record after an LSN for its page, if it has one and the page lacks the record.
/// Returns `NoSuchPage` if the store lacks the page.
fn count_next(input: &RedoInput, lsn: u64, tallies: &mut [Tally]) -> Result<(), Fault>
    requires from { base_lsn (history input.now.log) ≤ lsn }
    requires to { lsn < last_lsn (history input.now.log) }
    requires numbered { (k : ℕ) (t : Tally) → k < length tallies.old
        → (slice_index_or tallies.old k t).number ≡ k }
    requires few { All (λ t. t.applied ≤ lsn) tallies.old }
    ensures count { length tallies.new ≡ length tallies.old }
    ensures each { OnOk result ((r : LogRecord) (k : ℕ) (t : Tally)
        → record_at (history input.now.log) (lsn + 1) ≡ Some r → k < length tallies.old
        → resolved input.now (slice_index_or tallies.new k t)
        ≡ advance input.now.redo_lsn (lsn + 1) r
        (resolved input.now (slice_index_or tallies.old k t))) }
    ensures exists { OnOk result ((r : LogRecord)
        → record_at (history input.now.log) (lsn + 1) ≡ Some r
        → NamesBelow (length tallies.old) r) }
    ensures fault { IfErr result (λ e. (r : LogRecord)
        → record_at (history input.now.log) (lsn + 1) ≡ Some r
        → NoteFault (length tallies.old) (lsn + 1) r e) }
{
    // The log's last LSN fits, so the next one does.
    let _last = input.log.last();
    let Some((page, slot)) = input.log.glance_after(lsn).cell() else {
        return Ok(());
    };
    let number = page as usize;
    if number >= tallies.len() {
        return Err(Fault::NoSuchPage(lsn + 1));
    }
    count_at(tallies, number, input.redo_lsn(), lsn + 1, slot as usize);
    Ok(())
}

/// The tallies of all pages, found in one pass over the records that redo does not skip. The store
/// stays as it is. Returns `NoSuchPage` with the LSN of the first of these records that is on a
/// page which the store lacks.
pub fn tallied_alone(
    alloc: Global,
    log: &Log,
    store: &Store,
    tables: &Tables,
) -> Result<Vec<Tally>, Fault>
    ensures tallied { IfOk result (λ tallies. AreAllTallied
        (input_over log.now store.now.pages tables.now) tallies.items) }
    ensures exist { OnOk result (AllExist log.now (length store.now.pages) tables.now.redo_lsn) }
    ensures fault { IfErr result (RedoFault
        log.now (length store.now.pages) tables.now.redo_lsn 1) }
{
    // Opens the store: its pages are at their numbers.
    let _ = &store.pages;
    let input = RedoInput { log, store, tables };
    let mut tallies = begin_all(alloc, &input)?;
    let last = log.last();
    for lsn in input.skipped()..last {
        count_next(&input, lsn, &mut tallies)?;
    }
    Ok(tallies)
}
