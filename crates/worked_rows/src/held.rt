//! Pages that are in memory while they are changed, or whose changes are.

use changes::Changes;
use page::{Fault, Page};
use std::alloc::Global;

/// What is in memory while the pages of a store are changed.
#[derive(Clone, Copy)]
pub enum Held {
    /// The pages.
    Pages,
    /// Only their changes, which are made to the pages at the end.
    Changes,
}

/// No change to these pages, which are all pages of a store in their order.
pub fn no_changes(alloc: Global, pages: &[Page]) -> Result<Changes, Fault> {
    let mut lsns = Vec::new(alloc);
    for page in pages {
        lsns.push(page.lsn)?;
    }
    Changes::begin(alloc, lsns)
}

/// Makes the changes to the pages of the store.
pub fn change_all(changes: &Changes, pages: &mut [Page]) {
    for page in pages.iter_mut() {
        if (page.number as usize) < changes.len() {
            changes.change(page);
        }
    }
}
