//! The work on one part: which records each of its pages lacks, by LSNs only.

ghost use Rattle.std.specs.Prelude.{◌≡◌, ℕ, ◌+◌, ◌<◌, ◌^◌, All, length, map, slice_set, slice_index_or, IfOk, OnOk, Some, IsOkUnless};
ghost use Rattle.std.specs.List.{fold};
ghost use Rattle.page.specs.declared.fault.Fault.TheVariants.{NoResource};
ghost use Rattle.log_laws.specs.Records.{start, history, base_lsn};
ghost use Rattle.log_laws.specs.Redo.{rec_lsn_of};
ghost use Rattle.tables.specs.Tables.{TablesContent};
ghost use Rattle.redo.specs.Changes.{counted, step, lsn_in};
ghost use Rattle.redo.specs.Routes.{AreRoutes, Stands};
ghost use Rattle.redo.specs.Parts.{IsUpTo, IsWhollyRedone, HasPart, numbers_of, redo_page_in, image_at, resolved};
ghost use Rattle.redo.specs.Passing.{IsBegunIn};
ghost use Rattle.redo.specs.declared.tally.Tally.{Tally};
ghost use Rattle.page.specs.declared.profile.TheConstants.{SLOTS};

use crate::gate::Entered;
use crate::input::{PartedInput, RedoInput};
use crate::note::{Note, NoteList};
use crate::route::Route;
use crate::tally::Tally;
use page::{Fault, SLOTS, Store, Value};
use std::alloc::Global;

/// How many slots a page has. It is a separate function, since the length of an array is known of
/// an argument.
pub fn count_slots(slots: &[Option<Value>; SLOTS]) -> usize
    ensures { length slots.now ≡ SLOTS }
{
    slots.len()
}

/// The PageLSN of a page in the store, 0 if the store has no page of this number.
fn page_lsn(store: &Store, number: u32) -> u64
    ensures lsn { result ≡ (image_at store.now.pages number).lsn }
    ensures number { (image_at store.now.pages number).number ≡ number }
    ensures slots { length (image_at store.now.pages number).slots ≡ SLOTS }
{
    match store.pages.get(number as usize) {
        Some(page) => {
            // For the proof: how many slots a page has.
            let _count = count_slots(&page.slots);
            page.lsn
        }
        None => 0,
    }
}

/// The tally of a page of the store before a record is applied to it, for any log and tables that
/// have this RecLSN for the page.
fn begin_in(store: &Store, number: u32, rec_lsn: Option<u64>) -> Tally
    ensures { (tables : TablesContent) → rec_lsn_of number tables.dirty ≡ rec_lsn
        → IsBegunIn store.now.pages tables number result }
{
    Tally::begin(number, page_lsn(store, number), rec_lsn)
}

/// The tally of a page before a record is applied to it.
pub(crate) fn begin_page(input: &RedoInput, number: u32) -> Tally
    ensures { resolved input.now result
        ≡ redo_page_in input.now (start (base_lsn (history input.now.log)))
        (image_at input.now.images number) }
{
    begin_in(input.store, number, input.tables.rec_lsn(number))
}

/// The tallies of the pages of a part before a record is applied to them. The only error is
/// `NoResource`.
fn begin_part(alloc: Global, parted: &PartedInput, part: u32) -> Result<Vec<Tally>, Fault>
    requires { part < parted.now.parting.parts }
    ensures begun { IfOk result (λ tallies. IsUpTo parted.now part 0
        (map (resolved parted.now.input) tallies.items)) }
    ensures err { IsOkUnless result NoResource }
{
    let members = parted.parting.members(part);
    let mut tallies = Vec::with_capacity(alloc, members.len())?;
    for number in members {
        tallies.push(begin_page(&parted.input, *number))?;
    }
    Ok(tallies)
}

/// Counts the record at an LSN for the page at an index, if the page lacks it.
pub fn count_at(tallies: &mut [Tally], index: usize, redo_lsn: u64, lsn: u64, slot: usize)
    requires index { index < length tallies.old }
    requires slot { slot < SLOTS }
    requires room { All (λ t. t.applied + 1 < 2 ^ 64) tallies.old }
    ensures { (d : Tally) → tallies.new
        ≡ slice_set tallies.old index
        (counted redo_lsn lsn slot (slice_index_or tallies.old index d)) }
{
    tallies[index].count(redo_lsn, lsn, slot);
}

/// Counts a noted record of the log for its page, which is one of these.
fn redo_noted(parted: &PartedInput, note: Note, tallies: &mut [Tally])
    requires stands { Stands (history parted.now.input.log) parted.now.parting.place_of
        (numbers_of (map (resolved parted.now.input) tallies.old)) note }
    requires room { All (λ p. p.applied + 1 < 2 ^ 64) (map (resolved parted.now.input) tallies.old) }
    ensures { map (resolved parted.now.input) tallies.new
        ≡ map (λ p. step (history parted.now.input.log) parted.now.input.redo_lsn p note.lsn)
        (map (resolved parted.now.input) tallies.old) }
{
    let redo_lsn = parted.input.redo_lsn();
    count_at(
        tallies,
        note.place as usize,
        redo_lsn,
        note.lsn,
        note.slot as usize,
    );
}

/// Counts noted records for the pages of a part, in this order.
fn replay(parted: &PartedInput, notes: &NoteList, tallies: &mut [Tally])
    requires stand { All (Stands (history parted.now.input.log) parted.now.parting.place_of
        (numbers_of (map (resolved parted.now.input) tallies.old))) notes.now }
    requires room { All (λ p. p.applied + length notes.now < 2 ^ 64)
        (map (resolved parted.now.input) tallies.old) }
    ensures { map (resolved parted.now.input) tallies.new
        ≡ map (λ p. fold (step (history parted.now.input.log) parted.now.input.redo_lsn) p (map lsn_in notes.now))
        (map (resolved parted.now.input) tallies.old) }
{
    for index in 0..notes.len() {
        redo_noted(parted, notes.get(index), tallies);
    }
}

/// The tallies of the pages of a part, by the routes in their order. The only error is
/// `NoResource`.
fn count_part(
    alloc: Global,
    parted: &PartedInput,
    routes: &[Route],
    part: u32,
) -> Result<Vec<Tally>, Fault>
    requires part { part < parted.now.parting.parts }
    requires routes { AreRoutes parted.now routes.now }
    ensures done { IfOk result (λ tallies. All (IsWhollyRedone parted.now.input)
        (map (resolved parted.now.input) tallies.items)) }
    ensures all { IfOk result (λ tallies. HasPart parted.now.parting part
        (map (resolved parted.now.input) tallies.items)) }
    ensures err { IsOkUnless result NoResource }
{
    // For the proof: how large the last LSN can be.
    let _last = parted.input.log.last();
    let mut tallies = begin_part(alloc, parted, part)?;
    for route in routes {
        replay(parted, route.notes(part), &mut tallies);
    }
    Ok(tallies)
}

/// Redoes by LSNs the pages of a part for which the gate was called, by the routes in their order,
/// and adds their tallies after others. The only error is `NoResource`.
pub(crate) fn redo_part(
    alloc: Global,
    parted: &PartedInput,
    routes: &[Route],
    entered: Entered,
    tallies: &mut Vec<Tally>,
) -> Result<(), Fault>
    requires part { entered.part < parted.now.parting.parts }
    requires routes { AreRoutes parted.now routes.now }
    requires done { All (IsWhollyRedone parted.now.input) (map (resolved parted.now.input) tallies.old.items) }
    ensures done { All (IsWhollyRedone parted.now.input) (map (resolved parted.now.input) tallies.new.items) }
    ensures kept { OnOk result ((other : ℕ)
        → HasPart parted.now.parting other (map (resolved parted.now.input) tallies.old.items)
        → HasPart parted.now.parting other (map (resolved parted.now.input) tallies.new.items)) }
    ensures added { OnOk result
        (HasPart parted.now.parting entered.part (map (resolved parted.now.input) tallies.new.items)) }
    ensures err { IsOkUnless result NoResource }
{
    let mut counted = count_part(alloc, parted, routes, entered.part())?;
    tallies.append(&mut counted)?;
    Ok(())
}
