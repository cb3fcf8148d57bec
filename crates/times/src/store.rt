//! The store over which both work.

use page::{Fault, Page, Store, decode_store, encode_page, store_header};
use std::alloc::Global;

/// A store of this many empty pages.
pub fn empty_store(alloc: Global, pages: u32) -> Result<Store, Fault> {
    let mut bytes = Vec::from_slice(alloc, &store_header(pages, 0))?;
    for number in 0..pages {
        bytes.extend_from_slice(&encode_page(&Page::empty(number)))?;
    }
    decode_store(alloc, &bytes)
}
