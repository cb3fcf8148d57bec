//! The pages of a store, and the only encoding of a store in bytes: a header and the images of its
//! pages. It also has the faults of all crates, and the limits of the files.
//!
//! Entry points: [`decode_store`] makes a [`Store`] of bytes, and [`encode_store`] the reverse.
//! [`StoreReader`] and [`LsnReader`] take the bytes piece by piece.
//!
//! The promise: bytes are read as a store if and only if they are its one encoding, and an error is
//! always the first fault.
//!
//! The modules, in the order of the way through it, with their definitions in `specs/`:
//!
//! - `value`, `page`, `store`: what a slot holds, a page, a store (`Store`).
//! - `profile`, `sizes`: the limits and the magics of the files, and what follows from them
//!   (`Profile`).
//! - `numbers`, `image`: a page in bytes (`Image`, `Parts`).
//! - `file`: the header of a store, and a store in bytes (`File`, `Images`).
//! - `came`, `pieces`: a store whose bytes come piece by piece (`Pieces`).
//! - `lsns`: the PageLSNs alone, for a store that is too large to keep (`Lsns`).
//! - `fault`: why a call failed, with numbers and texts for all crates (`Fault`, `Causes`).
//! - `laws`: one encoding, one fault, the limits fit together (`Laws`).
#![tactic(auto)]

mod came;
mod fault;
mod file;
mod image;
mod laws;
mod lsns;
mod numbers;
mod page;
mod pieces;
mod profile;
mod sizes;
mod store;
mod value;

pub use fault::Fault;
pub use file::{encode_pages_into, encode_store, encode_store_into, store_header};
pub use image::{decode_page, encode_page, encode_page_into};
pub use laws::{
    no_fault_of_a_store, numbers_of_stores, numbers_of_the_profile, one_page_spelling,
    one_store_fault, one_store_spelling,
};
pub use lsns::{LsnReader, StoreLsns};
pub use page::Page;
pub use pieces::{StoreReader, decode_store};
pub use profile::{
    BASED_LOG_MAGIC, CellNumber, LOG_MAGIC, PAGE_BYTES, PAGES, SLOTS, STORE_MAGIC, TRANSACTIONS,
    VALUE_BYTES, VERSION,
};
pub use sizes::{MAGIC_BYTES, STORE_HEADER_BYTES};
pub use store::Store;
pub use value::Value;
