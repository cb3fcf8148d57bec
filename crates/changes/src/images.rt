//! The images of a store's pages, changed where they are.

ghost use Rattle.std.specs.Prelude.{◌≡◌, ◌≢◌, ◌+◌, ◌/◌, ◌%◌, ◌<◌, ◌≤◌, List, IsOk, IfErr, OnOk, length, drop, slice_index_or};
ghost use Rattle.page.specs.declared.fault.Fault.TheVariants.{BadPage};
ghost use Rattle.page.specs.declared.page.Page.{Page};
ghost use Rattle.page.specs.declared.profile.TheConstants.{PAGES, PAGE_BYTES};
ghost use Rattle.page.specs.Image.{SpellsPage};
ghost use Rattle.changes.specs.Changes.{PageChange, changed, page_lsn, PutsSome, AreChanged};
ghost use Rattle.changes.specs.Images.{AreGoodImages, AreImagesFrom, EncodesPage, HasBadImage, IsGoodImage};

use crate::Changes;
use crate::parts::count_slots;
use byteorder::{BigEndian, ByteOrder};
use page::{Fault, PAGE_BYTES, decode_page, encode_page_into};

/// Where the PageLSN is in the image of a page.
const LSN_AT: usize = 8;

/// Sets the PageLSN in the image of a page.
fn put_lsn(image: &mut [u8], lsn: u64)
    requires { length image.old ≡ PAGE_BYTES }
    ensures { (page : Page) → SpellsPage image.old page
        → SpellsPage image.new (page_lsn lsn page) }
{
    BigEndian::write_u64(&mut image[LSN_AT..LSN_AT + 8], lsn);
}

/// Changes the image of a page into which something is put. An image that does not encode the page
/// of this number is the error `BadPage(number)`.
fn put_slots(changes: &Changes, number: usize, image: &mut [u8]) -> Result<(), Fault>
    requires few { length changes.now ≤ PAGES }
    requires number { number < length changes.now }
    requires whole { length image.old ≡ PAGE_BYTES }
    ensures changed { OnOk result ((page : Page) (c : PageChange) → SpellsPage image.old page
        → page.number ≡ number
        → SpellsPage image.new (changed (slice_index_or changes.now number c) page)) }
    ensures good { OnOk result (EncodesPage number image.old) }
    ensures bad { IfErr result (λ e. (e ≡ BadPage number)
        × ((page : Page) → SpellsPage image.old page → page.number ≢ number)) }
{
    let Some((stored, _)) = image.split_first_chunk::<PAGE_BYTES>() else {
        unreachable!();
    };
    let mut page = decode_page(stored, number as u32)?;
    // For the proof: how many slots a page has.
    let _slots = count_slots(&page.slots);
    changes.change(&mut page);
    encode_page_into(&page, image);
    Ok(())
}

/// Changes the image of the page of this number. If something is put into the page, an image that
/// does not encode it is the error `BadPage(number)`.
fn change_image(changes: &Changes, number: usize, image: &mut [u8]) -> Result<(), Fault>
    requires few { length changes.now ≤ PAGES }
    requires number { number < length changes.now }
    requires whole { length image.old ≡ PAGE_BYTES }
    ensures changed { OnOk result ((page : Page) (c : PageChange) → SpellsPage image.old page
        → page.number ≡ number
        → SpellsPage image.new (changed (slice_index_or changes.now number c) page)) }
    ensures good { OnOk result (IsGoodImage changes.now number image.old) }
    ensures put { IfErr result (λ e. (c : PageChange)
        → PutsSome (slice_index_or changes.now number c)) }
    ensures bad { IfErr result (λ e. (e ≡ BadPage number)
        × ((page : Page) → SpellsPage image.old page → page.number ≢ number)) }
{
    if changes.is_changed(number) {
        return put_slots(changes, number, image);
    }
    put_lsn(image, changes.lsn(number));
    Ok(())
}

impl Changes {
    /// Changes images of pages of the store: those of page `first` and of the pages that follow it.
    /// If nothing is put into a page, only the PageLSN in its image is written. It takes no memory.
    /// The only error is `BadPage(number)`, if something is put into page `number` and its image
    /// does not encode the page of this number. It is not specified then which images have changed.
    pub fn change_images(&self, first: usize, images: &mut [u8]) -> Result<(), Fault>
        requires few { length self.now ≤ PAGES }
        requires whole { length images.old % PAGE_BYTES ≡ 0 }
        requires within { first + length images.old / PAGE_BYTES ≤ length self.now }
        ensures changed { OnOk result ((pages shown : List Page)
            → AreImagesFrom first images.old pages → AreChanged (drop first self.now) pages shown
            → AreImagesFrom first images.new shown) }
        ensures only { (pages : List Page) → AreImagesFrom first images.old pages → IsOk result }
        ensures good { OnOk result (AreGoodImages self.now first images.old) }
        ensures bad { IfErr result (HasBadImage self.now first images.old) }
    {
        for number in 0..images.len() / PAGE_BYTES {
            let place = PAGE_BYTES * number;
            change_image(self, first + number, &mut images[place..place + PAGE_BYTES])?;
        }
        Ok(())
    }
}
