//! The base pages of a log: what pages held before its first record.

ghost use Rattle.std.specs.Prelude.{◌≡◌, IsTrue, ◌↔◌, ◌≤◌, All};
ghost use Rattle.log_laws.specs.Pages.{base_pages};
ghost use Rattle.audit.specs.Base.{IsBaseOf};

use page::{Page, Store, Value};
use wal::Log;

/// What the base pages hold in a cell; nothing if the page is past them.
pub fn base_value(base: &[Page], page: u32, slot: usize) -> Option<Value>
    ensures { result ≡ (base_pages base.now).cells page slot }
{
    match base.get(page as usize) {
        Some(page) => match page.slots.get(slot) {
            Some(value) => *value,
            None => None,
        },
        None => None,
    }
}

/// The PageLSN of a base page; 0 if the page is past them.
pub fn base_page_lsn(base: &[Page], page: u32) -> u64
    ensures { result ≡ (base_pages base.now).page_lsn page }
{
    match base.get(page as usize) {
        Some(page) => page.lsn,
        None => 0,
    }
}

/// Whether no page has a PageLSN above this LSN.
fn are_up_to(pages: &[Page], lsn: u64) -> bool
    ensures { IsTrue result ↔ All (λ page. page.lsn ≤ lsn) pages.now }
{
    for page in pages {
        if page.lsn > lsn {
            return false;
        }
    }
    true
}

/// Whether a store can be what the log's records were made over: it has as many pages as the log's
/// store, and no record of the log has changed one of them.
pub fn is_base_of(log: &Log, store: &Store, base: &Store) -> bool
    ensures { IsTrue result ↔ IsBaseOf log.now store.now base.now }
{
    base.pages.len() == store.pages.len() && are_up_to(&base.pages, log.base())
}
