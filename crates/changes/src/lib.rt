//! What a restart changes in the pages of a store, without the pages: in memory are their PageLSNs
//! and the slots into which something is put. So a large store takes 12 bytes for each page that
//! stays as it is.
//!
//! Entry points: the trait [`Pages`], which redo and undo use. Pages in memory implement it, and
//! [`Changes`] does; `Changes::change_images` then changes the images of the pages.
//!
//! The promise: what is put into slots shows in the pages as [`page::Page::set`] would have it, in
//! memory and in the images.
//!
//! The modules, in the order of the way through it, with their definitions in `specs/`:
//!
//! - `pages`: the trait of pages that redo and undo change (`Pages`, `Numbered`).
//! - `changes`: the changes of all pages (`Changes`).
//! - `parts`: the places where the values of slots are kept (`Parts`).
//! - `images`: the images of pages, changed where they are (`Images`).
//! - `laws`: a value that is put is a value that is set (`Laws`).
#![tactic(auto)]

mod changes;
mod images;
mod laws;
mod pages;
mod parts;

pub use changes::Changes;
pub use laws::puts_are_sets;
pub use pages::Pages;
