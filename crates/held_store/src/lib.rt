//! A store's bytes, in memory without the zeros at the ends of its images. Most images end in
//! zeros, so this takes less memory than the store, and less time to fill it.
//!
//! Entry point: [`HeldStore::read`] reads a source to its end. A [`HeldStore`] is itself a source
//! that can be read again, by [`device::Reread`].
//!
//! The promise: it gives back exactly the bytes that were read, whatever they are. They may be no
//! store, or one whose images are unsound.
//!
//! The modules, in the order of the way through it, with their definitions in `specs/`:
//!
//! - `zeros`: where the zeros at the end of an image begin.
//! - `block`: which of the kept bytes are those of an image (`Block`).
//! - `images`: images without the zeros at their ends (`Images`).
//! - `held`: a store without these zeros (`Held`).
#![tactic(auto)]

mod block;
mod held;
mod images;
mod zeros;

pub use held::HeldStore;
