//! The changes to the pages of a store.

ghost use Rattle.std.specs.Prelude.{◌≡◌, ◌<◌, true, false, IfOk, IsOkUnless, OnOk, OnErr, length, map, slice_index_or, slice_set};
ghost use Rattle.page.specs.declared.fault.Fault.TheVariants.{NoResource};
ghost use Rattle.page.specs.declared.profile.TheConstants.{SLOTS};
ghost use Rattle.changes.specs.Changes.{PageChange, unchanged, put_in, lsn_in, changed, PutsSome};

use crate::parts::{count_slots, fill, has_place, keep_value, place_page};
use page::{Fault, Page, SLOTS, Value};
use std::alloc::Global;
use std::marker::Model;

/// What changes in the pages of a store: their PageLSNs, and the slots into which something is put.
/// The pages are not in memory. It takes 12 bytes for each page of the store, 4 bytes for each slot
/// of a page that changes, and the values. Contracts see the change of each page, by its number.
#[derive(Drop)]
pub struct Changes {
    /// The PageLSN of each page.
    lsns: Vec<u64>,
    /// For each page its place among the cells, counted from 1; 0 for a page that keeps its slots.
    places: Vec<u32>,
    /// For each slot of a page its place among the values, counted from 1; 0 for a slot that stays
    /// as it is.
    cells: Vec<[u32; SLOTS]>,
    /// What is put into slots.
    values: Vec<Option<Value>>,
}

impl Model for Changes {
    ghost use Rattle.std.specs.Prelude.{List};
    ghost use Rattle.changes.specs.Changes.{PageChange};
    ghost use Rattle.changes.specs.Parts.{changes_in, AreParts};

    ghost Value = { List PageChange };

    ghost view = { λ c. changes_in c.lsns.items c.places.items c.cells.items c.values.items };

    ghost invariant = { λ c. AreParts c.lsns.items c.places.items c.cells.items c.values.items };
}

impl Changes {
    /// No change to the pages of a store that have these PageLSNs. The only error is `NoResource`.
    pub fn begin(alloc: Global, lsns: Vec<u64>) -> Result<Changes, Fault>
        ensures none { IfOk result (λ changes. changes ≡ map unchanged lsns.items) }
        ensures err { IsOkUnless result NoResource }
    {
        let places = vec![in alloc; 0; lsns.len()]?;
        Ok(Changes {
            lsns,
            places,
            cells: Vec::new(alloc),
            values: Vec::new(alloc),
        })
    }

    /// How many pages the store has.
    pub fn len(&self) -> usize
        ensures { result ≡ length self.now }
    {
        self.lsns.len()
    }

    /// The PageLSN of the page of this number after its change.
    pub fn lsn(&self, number: usize) -> u64
        requires { number < length self.now }
        ensures { (c : PageChange) → result ≡ (slice_index_or self.now number c).lsn }
    {
        self.lsns[number]
    }

    /// Whether something is put into a slot of a page.
    pub fn is_changed(&self, page: usize) -> bool
        requires { page < length self.now }
        ensures none { result ≡ false → (c : PageChange) → slice_index_or self.now page c
            ≡ unchanged (slice_index_or self.now page c).lsn }
        ensures some { result ≡ true → (c : PageChange)
            → PutsSome (slice_index_or self.now page c) }
    {
        let place = self.places[page];
        if place == 0 {
            return false;
        }
        has_place(&self.cells[place as usize - 1])
    }

    /// Puts a value into slot `slot` of a page, or makes it absent, as the record at this LSN did.
    /// The PageLSN becomes this LSN. The only error is `NoResource`; nothing has changed then.
    pub fn put(
        &mut self,
        page: usize,
        slot: usize,
        value: Option<Value>,
        lsn: u64,
    ) -> Result<(), Fault>
        requires page { page < length self.old }
        requires slot { slot < SLOTS }
        ensures put { OnOk result ((c : PageChange) → self.new ≡ slice_set self.old page
            (put_in slot lsn value (slice_index_or self.old page c))) }
        ensures same { OnErr result (self.new ≡ self.old) }
        ensures err { IsOkUnless result NoResource }
    {
        let place = place_page(&mut self.places, &mut self.cells, page)?;
        keep_value(&mut self.cells, &mut self.values, place, slot, value)?;
        self.lsns[page] = lsn;
        Ok(())
    }

    /// Takes memory for the values of this many slots into which nothing was put so far. The only
    /// error is `NoResource`. The changes stay the same.
    pub fn reserve(&mut self, slots: usize) -> Result<(), Fault>
        ensures same { self.new ≡ self.old }
        ensures err { IsOkUnless result NoResource }
    {
        self.values.reserve_exact(slots)?;
        Ok(())
    }

    /// Sets the PageLSN of a page.
    pub fn set_lsn(&mut self, page: usize, lsn: u64)
        requires { page < length self.old }
        ensures { (c : PageChange) → self.new ≡ slice_set self.old page
            (lsn_in lsn (slice_index_or self.old page c)) }
    {
        self.lsns[page] = lsn;
    }

    /// Changes a page of the store, which has its number.
    pub fn change(&self, page: &mut Page)
        requires { page.old.number < length self.now }
        ensures { (c : PageChange) → page.new
            ≡ changed (slice_index_or self.now page.old.number c) page.old }
    {
        // For the proof: how many slots a page has.
        let _slots = count_slots(&page.slots);
        let number = page.number as usize;
        page.lsn = self.lsns[number];
        let place = self.places[number];
        if place != 0 {
            fill(
                &self.cells[place as usize - 1],
                &self.values,
                &mut page.slots,
            );
        }
    }
}
