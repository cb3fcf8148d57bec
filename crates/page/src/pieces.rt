//! A store whose bytes come piece by piece.

ghost use Rattle.std.specs.Prelude.{◌≡◌, ◌-◌, ◌%◌, ◌≤◌, ◌++◌, IfOk, IfErr, MatchResult, length};
ghost use Rattle.std.specs.Vec.{vec_capacity};
ghost use Rattle.page.specs.Store.{StoreContent};
ghost use Rattle.page.specs.File.{SpellsStore, StoreFault};
ghost use Rattle.page.specs.Pieces.{Reads};
ghost use Rattle.page.specs.declared.profile.TheConstants.{PAGES, PAGE_BYTES};
ghost use Rattle.page.specs.declared.sizes.TheConstants.{STORE_HEADER_BYTES};

use crate::came::Came;
use crate::file::header_at;
use crate::image::page_at;
use crate::profile::PAGE_BYTES;
use crate::sizes::STORE_HEADER_BYTES;
use crate::{Fault, Page, Store};
use std::alloc::Global;
use std::marker::Model;

/// Takes the pages whose images follow each other here. The first image is that of page
/// `pages.len()`. It stops at the page count and before a bad page. Returns whether a page was bad
/// before, or is now.
fn take_pages(pages: &mut Vec<Page>, count: u32, bad: bool, images: &[u8]) -> bool
    requires few { count ≤ PAGES }
    requires room { count ≤ vec_capacity pages.old }
    ensures room { count ≤ vec_capacity pages.new }
    ensures read { Reads images.now count pages.old.items bad pages.new.items result }
{
    if bad {
        return true;
    }
    if pages.len() >= count as usize {
        return false;
    }
    let mut rest = images;
    while pages.len() < count as usize && rest.len() >= PAGE_BYTES {
        let (image, behind) = rest.split_at(PAGE_BYTES);
        let Some(page) = page_at(image, pages.len() as u32) else {
            return true;
        };
        // Taken apart, since the check has to see the type of a slot where a page is pushed.
        let slots = page.slots;
        pages.push(Page { slots, ..page }).unwrap();
        rest = behind;
    }
    false
}

/// A store whose bytes come piece by piece. Contracts see it as the bytes that have come.
#[derive(Drop)]
pub struct StoreReader {
    /// The page count in the header. 0 if the header is not that of a store, or if memory was
    /// refused.
    count: u32,
    /// The master in the header.
    master: u64,
    /// The pages read so far, with room for all.
    pages: Vec<Page>,
    /// How many bytes have come, or the largest number if there are more.
    size: u64,
    /// Whether the image after the pages read so far has come and does not encode the page of its
    /// number.
    bad: bool,
    /// Whether memory for the pages was refused.
    refused: bool,
    /// The bytes that have come.
    came: Came,
}

impl Model for StoreReader {
    ghost use Rattle.std.specs.Prelude.{◌≤◌, ℕ, List};
    ghost use Rattle.std.specs.Vec.{vec_capacity};
    ghost use Rattle.page.specs.Pieces.{IsSoFar};

    ghost Value = { List ℕ };

    ghost view = { λ r. r.came.bytes };

    ghost invariant = { λ r. IsSoFar r.came.bytes r.count r.master r.pages.items r.size r.bad r.refused
        × (r.count ≤ vec_capacity r.pages) };
}

impl StoreReader {
    /// Begins with the first bytes of a store's file: the bytes of the header, or all bytes if
    /// there are fewer. This call takes the memory for the pages. If memory is refused, or the
    /// header is not that of a store, later bytes can still be taken; `finish` returns the error.
    pub fn begin(alloc: Global, header: &[u8]) -> StoreReader
        requires { length header.now ≤ STORE_HEADER_BYTES }
        ensures { result ≡ header.now }
    {
        let (count, master) = match header_at(header) {
            Some(numbers) => numbers,
            None => (0, 0),
        };
        let size = header.len() as u64;
        let came = Came::joined(&(&Came::new(), header));
        let Ok(pages) = Vec::with_capacity(alloc, count as usize) else {
            return StoreReader {
                count: 0,
                master,
                pages: Vec::new(alloc),
                size,
                bad: false,
                refused: true,
                came,
            };
        };
        StoreReader {
            count,
            master,
            pages,
            size,
            bad: false,
            refused: false,
            came,
        }
    }

    /// Takes the bytes that follow those taken so far. Together they are a header and whole images:
    /// only the last piece may end inside an image.
    pub fn take(&mut self, images: &[u8])
        requires header { STORE_HEADER_BYTES ≤ length self.old }
        requires whole { (length self.old - STORE_HEADER_BYTES) % PAGE_BYTES ≡ 0 }
        ensures { self.new ≡ self.old ++ images.now }
    {
        self.bad = take_pages(&mut self.pages, self.count, self.bad, images);
        self.size = self.size.saturating_add(images.len() as u64);
        self.came = Came::joined(&(&self.came, images));
    }

    /// The store that the bytes encode, after all bytes have come. Otherwise the error is the first
    /// of these that holds: `BadStoreHeader`, `StoreSize`, `BadPage` of the lowest page whose image
    /// does not encode the page of its number. Or it is `NoResource`, if memory was refused.
    pub fn finish(self) -> Result<Store, Fault>
        ensures found { IfOk result (SpellsStore self) }
        ensures only { (store : StoreContent) → SpellsStore self store
            → MatchResult result (λ read. read ≡ store) (λ e. e ≡ Fault.NoResource) }
        ensures fault { IfErr result (StoreFault self) }
    {
        let StoreReader {
            count,
            master,
            pages,
            size,
            bad,
            refused,
            came: _,
        } = self;
        if refused {
            return Err(Fault::NoResource);
        }
        if count == 0 {
            return Err(Fault::BadStoreHeader);
        }
        if size != (STORE_HEADER_BYTES + PAGE_BYTES * count as usize) as u64 {
            return Err(Fault::StoreSize);
        }
        if bad {
            return Err(Fault::BadPage(pages.len() as u32));
        }
        Ok(Store { master, pages })
    }
}

/// The store that the bytes encode. Otherwise the error is the first of these that holds:
/// `BadStoreHeader`, `StoreSize`, `BadPage` of the lowest page whose image does not encode the page
/// of its number. Or it is `NoResource`, if memory is refused.
pub fn decode_store(alloc: Global, bytes: &[u8]) -> Result<Store, Fault>
    ensures found { IfOk result (SpellsStore bytes.now) }
    ensures only { (store : StoreContent) → SpellsStore bytes.now store
        → MatchResult result (λ read. read ≡ store) (λ e. e ≡ Fault.NoResource) }
    ensures fault { IfErr result (StoreFault bytes.now) }
{
    let (header, images) = bytes.split_at(bytes.len().min(STORE_HEADER_BYTES));
    let mut reader = StoreReader::begin(alloc, header);
    if !images.is_empty() {
        reader.take(images);
    }
    reader.finish()
}
