//! What redo returns.

use page::Page;
use std::marker::Model;

/// The pages of a store after redo.
#[derive(Drop)]
pub struct Redone {
    /// The pages 0, 1, .., each with the records that it lacked.
    pub pages: Vec<Page>,
    /// How many records were applied to all of them together.
    pub applied: u64,
}

impl Model for Redone {
    ghost use Rattle.redo.specs.Redone.{RedoneContent};

    ghost Value = { RedoneContent };

    ghost view = { λ r. record { pages = r.pages.items; applied = r.applied } };
}
