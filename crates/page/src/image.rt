//! The image of a page: [`PAGE_BYTES`] bytes.

ghost use Rattle.std.specs.Prelude.{◌≡◌, ◌≢◌, ◌<◌, ◌≤◌, ◌^◌, ◌↔◌, ◌++◌, ℕ, List, All, IsTrue, IfSome, IfOk, IfErr, length, take, replicate};
ghost use Rattle.std.specs.Int.{w16, to_be_bytes};
ghost use Rattle.page.specs.declared.page.Page.{Page};
ghost use Rattle.page.specs.Image.{Image, entry, directory, header, body, page_text, FitsSlot, FitsPage, SpellsPage};
ghost use Rattle.page.specs.declared.profile.TheConstants.{SLOTS, PAGE_BYTES};
ghost use Rattle.page.specs.declared.sizes.TheConstants.{DIRECTORY_BYTES, CELLS_AT, ROOM_BYTES};
ghost use Rattle.page.specs.Parts.{BeginsWithSlot, SpellsSlots, IsLsnOf};

use crate::numbers::numbers_at;
use crate::profile::{PAGE_BYTES, SLOTS, VALUE_BYTES};
use crate::sizes::{CELLS_AT, DIRECTORY_BYTES, PAGE_HEADER_BYTES};
use crate::{Fault, Page, Value};
use byteorder::{BigEndian, ByteOrder};

/// The directory entry of a slot whose cell is at this place.
fn entry(place: u16, slot: &Option<Value>) -> [u8; 4]
    ensures { result ≡ entry place slot.now }
{
    let mut entry = [0; 4];
    if let Some(value) = slot {
        BigEndian::write_u16(&mut entry, place);
        BigEndian::write_u16(&mut entry[2..], value.as_slice().len() as u16);
    }
    entry
}

/// Writes the directory of these slots.
fn put_directory(slots: &[Option<Value>; SLOTS], entries: &mut [u8])
    requires { length entries.old ≡ DIRECTORY_BYTES }
    ensures text { entries.new ≡ directory CELLS_AT slots.now }
    ensures count { length slots.now ≡ SLOTS }
    ensures fits { All FitsSlot slots.now }
{
    let mut place = CELLS_AT as u16;
    for (i, slot) in slots.iter().enumerate() {
        entries[4 * i..4 * i + 4].copy_from_slice(&entry(place, slot));
        if let Some(value) = slot {
            place += value.as_slice().len() as u16;
        }
    }
}

/// Writes the present cells of these slots, and zeros after them. Each cell is copied at the full
/// length that a value may have, since a copy of a fixed length is faster. The next cell or the
/// zeros then overwrite what was copied after the value.
fn put_cells(slots: &[Option<Value>; SLOTS], room: &mut [u8])
    requires { length room.old ≡ ROOM_BYTES }
    ensures { room.new ≡ body slots.now }
{
    let mut end = 0;
    for slot in slots {
        if let Some(value) = slot {
            room[end..end + VALUE_BYTES].copy_from_slice(value.padded());
            end += value.as_slice().len();
        }
    }
    room[end..].fill(0);
}

/// The header of a page's image.
fn header(number: u32, lsn: u64) -> [u8; PAGE_HEADER_BYTES]
    ensures text { result ≡ header number lsn }
    ensures fits { (number < 2 ^ 32) × (lsn < 2 ^ 64) }
{
    let mut header = [0; PAGE_HEADER_BYTES];
    BigEndian::write_u32(&mut header, number);
    BigEndian::write_u64(&mut header[8..], lsn);
    header
}

/// Writes the image of a page, as [`encode_page`] does, over bytes of the same length.
pub fn encode_page_into(page: &Page, image: &mut [u8])
    requires { length image.old ≡ PAGE_BYTES }
    ensures text { image.new ≡ page_text page.now }
    ensures fits { FitsPage page.now }
{
    image[..PAGE_HEADER_BYTES].copy_from_slice(&header(page.number, page.lsn));
    put_directory(&page.slots, &mut image[PAGE_HEADER_BYTES..CELLS_AT]);
    put_cells(&page.slots, &mut image[CELLS_AT..]);
}

/// The only encoding of a page: page number, four zeros, PageLSN; for each slot a directory entry
/// of offset and length; the present cells in slot order; zeros. All numbers are big endian.
pub fn encode_page(page: &Page) -> [u8; PAGE_BYTES]
    ensures text { result ≡ page_text page.now }
    ensures fits { FitsPage page.now }
{
    let mut image = [0; PAGE_BYTES];
    encode_page_into(page, &mut image);
    image
}

/// The offset and the length in the first directory entry.
fn entry_at(entries: &[u8]) -> (u16, u16)
    requires { 4 ≤ length entries.now }
    ensures text { take 4 entries.now ≡ to_be_bytes w16 result.0 ++ to_be_bytes w16 result.1 }
    ensures fits { (result.0 < 2 ^ 16) × (result.1 < 2 ^ 16) }
{
    let (offset, rest) = entries.split_at(2);
    (BigEndian::read_u16(offset), BigEndian::read_u16(rest))
}

/// The slot of the first directory entry in `entries`. Its cell has this place and comes first in
/// `bytes`. `None` if these do not encode a slot.
fn slot_at(entries: &[u8], bytes: &[u8], place: u16) -> Option<Option<Value>>
    requires entry { 4 ≤ length entries.now }
    requires place { 0 < place }
    ensures found { IfSome result (BeginsWithSlot entries.now bytes.now place) }
    ensures only { (slot : Image) → BeginsWithSlot entries.now bytes.now place slot
        → result ≡ Some slot }
{
    let (offset, length) = entry_at(entries);
    if offset == 0 && length == 0 {
        return Some(None);
    }
    if offset != place {
        return None;
    }
    let value = Value::new(bytes.get(..length as usize)?)?;
    Some(Some(value))
}

/// Whether all of these bytes are zero. It looks at every byte, so that many bytes can be checked
/// at once.
fn is_zero(bytes: &[u8]) -> bool
    ensures { IsTrue result ↔ (bytes.now ≡ replicate (length bytes.now) 0) }
{
    let mut all = 0;
    for byte in bytes {
        all |= *byte;
    }
    all == 0
}

/// The slots that this directory and the bytes after it encode. `None` if they encode no slots.
fn slots_at(entries: &[u8], bytes: &[u8]) -> Option<[Option<Value>; SLOTS]>
    requires entries { length entries.now ≡ DIRECTORY_BYTES }
    requires bytes { length bytes.now ≡ ROOM_BYTES }
    ensures found { IfSome result (SpellsSlots entries.now bytes.now) }
    ensures only { (slots : List Image) → SpellsSlots entries.now bytes.now slots
        → result ≡ Some slots }
{
    let mut slots = [None; SLOTS];
    let mut end = 0;
    for i in 0..SLOTS {
        let (_, entry) = entries.split_at(4 * i);
        let (_, rest) = bytes.split_at(end);
        let slot = slot_at(entry, rest, (CELLS_AT + end) as u16)?;
        if let Some(value) = &slot {
            end += value.as_slice().len();
        }
        slots[i] = slot;
    }
    let (_, rest) = bytes.split_at(end);
    if !is_zero(rest) {
        return None;
    }
    Some(slots)
}

/// Whether this directory and the bytes after it encode slots. Their values are not kept.
fn are_slots(entries: &[u8], bytes: &[u8]) -> bool
    requires entries { length entries.now ≡ DIRECTORY_BYTES }
    requires bytes { length bytes.now ≡ ROOM_BYTES }
    ensures { IsTrue result ↔ ((slots : List Image) × SpellsSlots entries.now bytes.now slots) }
{
    let mut end = 0;
    for i in 0..SLOTS {
        let (_, entry) = entries.split_at(4 * i);
        let (_, rest) = bytes.split_at(end);
        let Some(slot) = slot_at(entry, rest, (CELLS_AT + end) as u16) else {
            return false;
        };
        if let Some(value) = slot {
            end += value.as_slice().len();
        }
    }
    let (_, rest) = bytes.split_at(end);
    is_zero(rest)
}

/// The page of this number that these bytes encode. `None` if they encode no such page.
pub fn page_at(bytes: &[u8], number: u32) -> Option<Page>
    requires { length bytes.now ≡ PAGE_BYTES }
    ensures found { IfSome result (λ page. SpellsPage bytes.now page × (page.number ≡ number)) }
    ensures only { (page : Page) → SpellsPage bytes.now page → page.number ≡ number
        → result ≡ Some page }
{
    let (header, rest) = bytes.split_at(PAGE_HEADER_BYTES);
    let (entries, body) = rest.split_at(DIRECTORY_BYTES);
    let (own, zero, lsn) = numbers_at(header);
    if own != number || zero != 0 {
        return None;
    }
    let slots = slots_at(entries, body)?;
    Some(Page { number, lsn, slots })
}

/// The PageLSN of the page of this number that these bytes encode. `None` if they encode no such
/// page. All of them are looked at, as [`page_at`] does, but no value is copied.
pub fn lsn_at(bytes: &[u8], number: u32) -> Option<u64>
    requires { length bytes.now ≡ PAGE_BYTES }
    ensures found { IfSome result (IsLsnOf bytes.now number) }
    ensures only { (lsn : ℕ) → IsLsnOf bytes.now number lsn → result ≡ Some lsn }
{
    let (header, rest) = bytes.split_at(PAGE_HEADER_BYTES);
    let (entries, body) = rest.split_at(DIRECTORY_BYTES);
    let (own, zero, lsn) = numbers_at(header);
    if zero != 0 || own != number {
        return None;
    }
    if !are_slots(entries, body) {
        return None;
    }
    Some(lsn)
}

/// The page of this number that the bytes encode. For any other image the error is
/// `BadPage(number)`.
#[inline(always)]
pub fn decode_page(bytes: &[u8; PAGE_BYTES], number: u32) -> Result<Page, Fault>
    ensures found { IfOk result (λ page. SpellsPage bytes.now page × (page.number ≡ number)) }
    ensures only { (page : Page) → SpellsPage bytes.now page → page.number ≡ number
        → result ≡ Ok page }
    ensures bad { IfErr result (λ e. (e ≡ Fault.BadPage number)
        × ((page : Page) → SpellsPage bytes.now page → page.number ≢ number)) }
{
    match page_at(bytes, number) {
        Some(page) => Ok(page),
        None => Err(Fault::BadPage(number)),
    }
}
