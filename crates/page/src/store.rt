//! A store.

use crate::Page;
use std::marker::Model;

/// A store: 1 to [`PAGES`](crate::PAGES) pages, each at the index of its number. Contracts see it
/// as its master and the list of its pages.
#[derive(Drop)]
pub struct Store {
    /// The LSN of the begin record of the checkpoint to restart from, 0 if there is none.
    pub master: u64,
    /// The pages 0, 1, ..
    pub pages: Vec<Page>,
}

impl Model for Store {
    ghost use Rattle.page.specs.Store.{StoreContent, AreNumbered};

    ghost Value = { StoreContent };

    ghost view = { λ s. record { master = s.master; pages = s.pages.items } };

    ghost invariant = { λ s. AreNumbered s.pages.items };
}
