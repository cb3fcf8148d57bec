//! What a journal keeps of a page.

ghost use Rattle.std.specs.Prelude.{◌≡◌, ◌<◌, ◌≤◌, ◌↔◌, All, IsTrue, None, length, slice_index_or};
ghost use Rattle.page.specs.declared.profile.TheConstants.{SLOTS};
ghost use Rattle.journal.specs.declared.entries.PageEntry.{PageEntry};
ghost use Rattle.journal.specs.Arrays.{page_of, page_state_of, unless_0, IsValid};
ghost use Rattle.journal.specs.PageStates.{written, noted_change, IsCurrentSoFar};
ghost use Rattle.journal.specs.Steps.{HoldsImage, IsChanged, ChangesCell};

use crate::entries::{PageEntry, PageImage};
use crate::image::Image;
use page::{Page, SLOTS, Value};

// Nothing happens here: it tells the prover how many slots there are.
fn know_slots(slots: &[Image; SLOTS], writers: &[u32; SLOTS])
    ensures slots { length slots.now ≡ SLOTS }
    ensures writers { length writers.now ≡ SLOTS }
{}

// Nothing happens here: it tells the prover how many slots a page has.
fn know_values(slots: &[Option<Value>; SLOTS])
    ensures { length slots.now ≡ SLOTS }
{}

impl PageImage {
    /// This page as plain data.
    pub fn of(page: &Page) -> PageImage
        ensures page { page_of result ≡ page.now }
        ensures valid { All IsValid result.slots }
    {
        know_values(&page.slots);
        let mut slots = [Image::absent(); SLOTS];
        for (i, slot) in page.slots.iter().enumerate() {
            slots[i] = Image::of(slot);
        }
        PageImage {
            lsn: page.lsn,
            number: page.number,
            slots,
        }
    }

    /// The page that this is.
    pub fn page(&self) -> Page
        ensures { result ≡ page_of self.now }
    {
        let mut slots: [Option<Value>; SLOTS] = [None; SLOTS];
        for (i, image) in self.slots.iter().enumerate() {
            slots[i] = image.value();
        }
        Page {
            number: self.number,
            lsn: self.lsn,
            slots,
        }
    }
}

impl PageEntry {
    /// Puts an image into a slot, as a record of a transaction with this LSN does.
    pub fn change(&mut self, tx: u32, slot: u8, image: &Image, lsn: u64)
        requires slot { slot < SLOTS }
        requires tx { 0 < tx }
        requires lsn { 0 < lsn }
        ensures { IsChanged self.old self.new tx slot image.now lsn }
    {
        self.page.slots[slot as usize] = *image;
        self.page.lsn = lsn;
        self.writers[slot as usize] = tx;
        if self.rec_lsn == 0 {
            self.rec_lsn = lsn;
        }
    }

    /// What a slot holds, and the transaction of its last update or CLR, 0 for none.
    pub fn cell(&self, slot: u8) -> (&Image, u32)
        requires { slot < SLOTS }
        ensures image { HoldsImage self.now slot result.0.now }
        ensures writer { unless_0 result.1 ≡ slice_index_or (page_state_of self.now).writers slot None }
    {
        know_slots(&self.page.slots, &self.writers);
        (&self.page.slots[slot as usize], self.writers[slot as usize])
    }

    /// Notes that the image with this PageLSN is on the disk.
    pub fn mark_written(&mut self, lsn: u64)
        requires { lsn ≤ self.old.page.lsn }
        ensures { page_state_of self.new ≡ written (page_state_of self.old) lsn }
    {
        if self.rec_lsn != 0 {
            self.rec_lsn = if lsn == self.page.lsn {
                0
            } else {
                self.rec_lsn.max(lsn + 1)
            };
        }
    }

    /// Notes that the record with this LSN, of this transaction, is the last one in a slot and on the page.
    pub fn write(&mut self, slot: u8, tx: u32, lsn: u64)
        requires slot { slot < SLOTS }
        requires lsn { 0 < lsn }
        ensures { page_state_of self.new
            ≡ noted_change (page_state_of self.old) slot (unless_0 tx) lsn }
    {
        self.writers[slot as usize] = tx;
        self.rec_lsn = lsn;
    }

    /// Whether its PageLSN is the LSN of the last record on it, which RecLSN has here; where there
    /// is none, at most the log's base LSN.
    pub fn is_up_to_date(&self, base: u64) -> bool
        ensures { IsTrue result ↔ IsCurrentSoFar base (page_state_of self.now) }
    {
        if self.rec_lsn != 0 {
            self.page.lsn == self.rec_lsn
        } else {
            self.page.lsn <= base
        }
    }
}

/// Whether the journal has this cell.
pub fn is_cell(pages: &[PageEntry], page: u32, slot: u8) -> bool
    ensures { IsTrue result ↔ (page < length pages.now) × (slot < SLOTS) }
{
    (page as usize) < pages.len() && (slot as usize) < SLOTS
}

/// Puts an image into a cell, as a record of a transaction with this LSN does.
pub fn change_cell(pages: &mut [PageEntry], tx: u32, page: u32, slot: u8, image: &Image, lsn: u64)
    requires page { page < length pages.old }
    requires slot { slot < SLOTS }
    requires tx { 0 < tx }
    requires lsn { 0 < lsn }
    ensures { ChangesCell pages.old pages.new tx page slot image.now lsn }
{
    pages[page as usize].change(tx, slot, image, lsn);
}
