//! Where the zeros at the end of an image begin.

ghost use Rattle.std.specs.Prelude.{◌≡◌, ◌+◌, ◌≤◌, ◌-◌, ◌↔◌, IsTrue, length, drop, replicate};
ghost use Rattle.page.specs.declared.page.Page.{Page};
ghost use Rattle.page.specs.Image.{SpellsPage};
ghost use Rattle.held_store.specs.Zeros.{cells_end};

use page::{MAGIC_BYTES, SLOTS, STORE_HEADER_BYTES};

/// How many bytes come before the directory of an image: as many as a store's header has after its
/// magic.
const DIRECTORY_AT: usize = STORE_HEADER_BYTES - MAGIC_BYTES;

/// How many bytes come before the cells of an image. An entry of the directory has four bytes.
const CELLS_AT: usize = DIRECTORY_AT + 4 * SLOTS;

/// Whether all of these bytes are zero. No byte ends the loop early, so that many bytes can be
/// checked at once.
fn is_zero(bytes: &[u8]) -> bool
    ensures { IsTrue result ↔ (bytes.now ≡ replicate (length bytes.now) 0) }
{
    let mut all = 0;
    for byte in bytes {
        all |= *byte;
    }
    all == 0
}

/// Where the cells of an image end, by the lengths in its directory. The directory may lie, and
/// bytes that are too short for one are all taken for cells.
fn cells_end(image: &[u8]) -> usize
    ensures { (page : Page) → SpellsPage image.now page → result ≡ cells_end page }
{
    if image.len() < CELLS_AT {
        return image.len();
    }
    let mut end = CELLS_AT;
    for slot in 0..SLOTS {
        let at = DIRECTORY_AT + 4 * slot;
        end += usize::from(u16::from_be_bytes([image[at + 2], image[at + 3]]));
    }
    end
}

/// How many bytes of an image have to be kept: those before the zeros that follow its cells. If
/// other bytes are found there, all are kept. A page's image keeps no byte after its cells.
pub fn kept_count(image: &[u8]) -> usize
    ensures within { result ≤ length image.now }
    ensures zeros { drop result image.now ≡ replicate (length image.now - result) 0 }
    ensures few { (page : Page) → SpellsPage image.now page → result ≤ cells_end page }
{
    let end = cells_end(image).min(image.len());
    if is_zero(&image[end..]) {
        end
    } else {
        image.len()
    }
}
