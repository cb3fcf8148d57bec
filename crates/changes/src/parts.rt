//! The places of pages and of slots: where their values are.

ghost use Rattle.std.specs.Prelude.{◌≡◌, ◌≢◌, ◌+◌, ◌<◌, ◌≤◌, ◌⊎◌, ℕ, true, false, Some, None, All, IfOk, IsOkUnless, OnOk, OnErr, length, map, slice_index_or};
ghost use Rattle.std.specs.List.{range_with_len};
ghost use Rattle.page.specs.declared.fault.Fault.TheVariants.{NoResource};
ghost use Rattle.page.specs.declared.profile.TheConstants.{SLOTS};
ghost use Rattle.changes.specs.Changes.{slot_after};
ghost use Rattle.changes.specs.Parts.{HavePlaces, HaveValues, slot_in, value_in, place_of};

use page::{Fault, SLOTS, Value};

/// Gives a page a place among the cells, unless it has one. Returns the place, counted from 0. What
/// is put into slots stays the same. The only error is `NoResource`.
pub fn place_page(
    places: &mut Vec<u32>,
    cells: &mut Vec<[u32; SLOTS]>,
    page: usize,
) -> Result<usize, Fault>
    requires page { page < length places.old.items }
    requires places { HavePlaces places.old.items (length cells.old.items) }
    ensures places { HavePlaces places.new.items (length cells.new.items) }
    ensures count { length places.new.items ≡ length places.old.items }
    ensures place { IfOk result (λ n. place_of places.new.items page ≡ n + 1) }
    ensures same { (k slot : ℕ) → slot_in cells.new.items (place_of places.new.items k) slot
        ≡ slot_in cells.old.items (place_of places.old.items k) slot }
    ensures values { (count : ℕ) → HaveValues cells.old.items count
        → HaveValues cells.new.items count }
    ensures err { IsOkUnless result NoResource }
{
    let place = places[page];
    if place != 0 {
        return Ok(place as usize - 1);
    }
    let count = cells.len();
    if count >= u32::MAX as usize {
        return Err(Fault::NoResource);
    }
    cells.push([0; SLOTS])?;
    places[page] = count as u32 + 1;
    Ok(count)
}

/// How many slots a page has. A function of its own, for the check.
fn count_ids(ids: &[u32; SLOTS]) -> usize
    ensures { length ids.now ≡ SLOTS }
{
    ids.len()
}

/// How many slots a page has, as `count_ids`.
pub fn count_slots(slots: &[Option<Value>; SLOTS]) -> usize
    ensures { length slots.now ≡ SLOTS }
{
    slots.len()
}

/// Whether a slot of a page has a place.
pub fn has_place(ids: &[u32; SLOTS]) -> bool
    ensures none { result ≡ false → (slot : ℕ) → slice_index_or ids.now slot 0 ≡ 0 }
    ensures some { result ≡ true → (slot : ℕ) × (slot < SLOTS)
        × (0 < slice_index_or ids.now slot 0) }
{
    for place in ids {
        if *place != 0 {
            return true;
        }
    }
    false
}

/// Keeps a value for a slot of a page, in place of the one kept for it before. What is kept for
/// other slots stays the same. The only error is `NoResource`; nothing has changed then.
pub fn keep_value(
    cells: &mut Vec<[u32; SLOTS]>,
    values: &mut Vec<Option<Value>>,
    page: usize,
    slot: usize,
    value: Option<Value>,
) -> Result<(), Fault>
    requires page { page < length cells.old.items }
    requires slot { slot < SLOTS }
    requires values { HaveValues cells.old.items (length values.old.items) }
    ensures values { HaveValues cells.new.items (length values.new.items) }
    ensures count { length cells.new.items ≡ length cells.old.items }
    ensures here { OnOk result (value_in values.new.items (slot_in cells.new.items (page + 1) slot)
        ≡ Some value) }
    ensures others { (k s : ℕ) → ((k ≢ page + 1) ⊎ (s ≢ slot))
        → value_in values.new.items (slot_in cells.new.items k s)
        ≡ value_in values.old.items (slot_in cells.old.items k s) }
    ensures same { OnErr result ((k s : ℕ) → value_in values.new.items (slot_in cells.new.items k s)
        ≡ value_in values.old.items (slot_in cells.old.items k s)) }
    ensures err { IsOkUnless result NoResource }
{
    // For the proof: how many slots a page has.
    let _slots = count_ids(&cells[page]);
    let place = cells[page][slot];
    if place != 0 {
        values[place as usize - 1] = value;
        return Ok(());
    }
    let count = values.len();
    if count >= u32::MAX as usize {
        return Err(Fault::NoResource);
    }
    values.push(value)?;
    cells[page][slot] = count as u32 + 1;
    Ok(())
}

/// Puts values into the slots of a page. `ids` has their places, 0 for a slot that stays as it is.
pub fn fill(ids: &[u32; SLOTS], values: &[Option<Value>], slots: &mut [Option<Value>; SLOTS])
    requires { All (λ place. place ≤ length values.now) ids.now }
    ensures { slots.new ≡ map (λ slot. slot_after
        (value_in values.now (slice_index_or ids.now slot 0))
        (slice_index_or slots.old slot None)) (range_with_len 0 SLOTS) }
{
    for slot in 0..SLOTS {
        let place = ids[slot];
        if place != 0 {
            slots[slot] = values[place as usize - 1];
        }
    }
}
