//! The store file: header and page images.

ghost use Rattle.std.specs.Prelude.{◌≡◌, ◌<◌, ◌*◌, ◌^◌, ℕ, IfSome, IfOk, IfErr, OnOk, OnErr, length};
ghost use Rattle.page.specs.File.{store_header, store_text, FitsStore, BeginsWithHeader};
ghost use Rattle.page.specs.declared.profile.TheConstants.{PAGE_BYTES};
ghost use Rattle.page.specs.Images.{AreImages};

use crate::image::encode_page_into;
use crate::numbers::numbers_at;
use crate::profile::{PAGE_BYTES, PAGES, STORE_MAGIC};
use crate::sizes::{MAGIC_BYTES, STORE_HEADER_BYTES};
use crate::{Fault, Page, Store};
use byteorder::{BigEndian, ByteOrder};
use std::alloc::Global;

/// The header of a store's file: the first bytes of the encoding of a store with this page count
/// and master.
pub fn store_header(count: u32, master: u64) -> [u8; STORE_HEADER_BYTES]
    ensures text { result ≡ store_header count master }
    ensures fits { master < 2 ^ 64 }
{
    let mut header = [0; STORE_HEADER_BYTES];
    header[..MAGIC_BYTES].copy_from_slice(&STORE_MAGIC);
    BigEndian::write_u32(&mut header[MAGIC_BYTES..], count);
    BigEndian::write_u64(&mut header[STORE_HEADER_BYTES - 8..], master);
    header
}

/// Writes the images of pages, one after the other, over bytes of the same length. With it and
/// [`store_header`] a store can be written piece by piece.
pub fn encode_pages_into(pages: &[Page], images: &mut [u8])
    requires { length images.old ≡ PAGE_BYTES * length pages.now }
    ensures { AreImages images.new pages.now }
{
    for number in 0..pages.len() {
        let place = PAGE_BYTES * number;
        encode_page_into(&pages[number], &mut images[place..place + PAGE_BYTES]);
    }
}

/// Replaces the bytes in the vector with the only encoding of a store: [`STORE_MAGIC`], page count,
/// four zeros, master, then the images of the pages in order. All numbers are big endian. If the
/// vector has this length already, no memory is taken. The only error is `NoResource`, if memory is
/// refused; the vector then keeps its bytes.
pub fn encode_store_into(store: &Store, bytes: &mut Vec<u8>) -> Result<(), Fault>
    ensures ok { OnOk result (bytes.new.items ≡ store_text store.now) }
    ensures fits { OnOk result (FitsStore store.now) }
    ensures err { IfErr result (λ e. e ≡ Fault.NoResource) }
    ensures kept { OnErr result (bytes.new.items ≡ bytes.old.items) }
{
    bytes.resize(STORE_HEADER_BYTES + PAGE_BYTES * store.pages.len(), 0)?;
    let (header, images) = bytes.split_at_mut(STORE_HEADER_BYTES);
    header.copy_from_slice(&store_header(store.pages.len() as u32, store.master));
    encode_pages_into(&store.pages, images);
    Ok(())
}

/// The only encoding of a store, as [`encode_store_into`] writes it. The only error is
/// `NoResource`, if memory is refused.
pub fn encode_store(alloc: Global, store: &Store) -> Result<Vec<u8>, Fault>
    ensures ok { IfOk result (λ bytes. bytes.items ≡ store_text store.now) }
    ensures fits { OnOk result (FitsStore store.now) }
    ensures err { IfErr result (λ e. e ≡ Fault.NoResource) }
{
    let mut bytes = Vec::with_capacity(alloc, STORE_HEADER_BYTES + PAGE_BYTES * store.pages.len())?;
    encode_store_into(store, &mut bytes)?;
    Ok(bytes)
}

/// The page count and the master in the header of a store file. `None` if the bytes do not begin
/// with a valid header.
pub fn header_at(bytes: &[u8]) -> Option<(u32, u64)>
    ensures found { IfSome result (λ header. BeginsWithHeader bytes.now header.0 header.1) }
    ensures only { (count master : ℕ) → BeginsWithHeader bytes.now count master
        → result ≡ Some (count, master) }
{
    if bytes.len() < STORE_HEADER_BYTES {
        return None;
    }
    let (front, _) = bytes.split_at(STORE_HEADER_BYTES);
    let (magic, numbers) = front.split_at(MAGIC_BYTES);
    if magic != STORE_MAGIC.as_slice() {
        return None;
    }
    let (count, zero, master) = numbers_at(numbers);
    if zero != 0 || count == 0 || count as usize > PAGES {
        return None;
    }
    Some((count, master))
}
