//! How a journal of a new log is opened.

ghost use Rattle.std.specs.Prelude.{◌≡◌, ◌≢◌, ◌≤◌, ◌↔◌, All, IsTrue, IfOk, OnOk, IfErr, OnErr, length, map};
ghost use Rattle.page.specs.declared.profile.TheConstants.{SLOTS};
ghost use Rattle.log_laws.specs.Records.{lsn_before};
ghost use Rattle.journal.specs.PageStates.{first_page_state};
ghost use Rattle.journal.specs.Arrays.{page_state_of};
ghost use Rattle.journal.specs.Opened.{NewRefused};
ghost use Rattle.journal.specs.Outcomes.{BeginsJournal};

use crate::entries::{Head, PageEntry, PageImage};
use crate::refusal::Refusal;
use page::{Page, SLOTS, Store, Value};
use wal::{LARGEST_BASE, LogStart};

// Nothing happens here: it tells the prover how many slots a page has.
fn know_slots(slots: &[Option<Value>; SLOTS])
    ensures { length slots.now ≡ SLOTS }
{}

/// What a journal keeps of a page before the log's first record.
fn hold(page: &Page) -> PageEntry
    ensures held { page_state_of result ≡ first_page_state page.now }
    ensures slots { length page.now.slots ≡ SLOTS }
{
    know_slots(&page.slots);
    PageEntry {
        page: PageImage::of(page),
        rec_lsn: 0,
        writers: [0; SLOTS],
    }
}

/// Fills the array with these pages, as they are before the log's first record.
pub fn fill_pages(store: &[Page], pages: &mut [PageEntry])
    requires { length store.now ≡ length pages.old }
    ensures held { map page_state_of pages.new ≡ map first_page_state store.now }
    ensures slots { All (λ page. length page.slots ≡ SLOTS) store.now }
{
    for (i, page) in store.iter().enumerate() {
        pages[i] = hold(page);
    }
}

/// Whether no page has a PageLSN above this LSN.
fn are_up_to(pages: &[Page], lsn: u64) -> bool
    ensures { IsTrue result ↔ All (λ page. page.lsn ≤ lsn) pages.now }
{
    for page in pages {
        if page.lsn > lsn {
            return false;
        }
    }
    true
}

/// Opens the journal of a new log, which begins in this way and has no record. The pages of the
/// store become the base pages of the log, and `pages` is filled with them. The other two arrays
/// have no entry in use, whatever they contain. All of the log counts as on the disk.
///
/// Errors, after which `pages` is unchanged:
/// - BadArrays: `pages` has not as many entries as the store has pages.
/// - HasMaster: the store's master is not 0, so it names a checkpoint of another log.
/// - LogFull: the base LSN is larger than that of a log can be.
/// - PageAhead: a page has a PageLSN above the base LSN.
pub fn new(begins: LogStart, store: &Store, pages: &mut [PageEntry]) -> Result<Head, Refusal>
    ensures ok { IfOk result (BeginsJournal begins store.now pages.new) }
    ensures no_master { OnOk result (store.now.master ≡ 0) }
    ensures written { IfOk result (λ head. head.written ≡ lsn_before begins) }
    ensures none { IfOk result (λ head. head.transactions ≡ 0) }
    ensures kept { OnErr result (pages.new ≡ pages.old) }
    ensures err { IfErr result (NewRefused begins store.now (length pages.old)) }
{
    if pages.len() != store.pages.len() {
        return Err(Refusal::BadArrays);
    }
    if store.master != 0 {
        return Err(Refusal::HasMaster);
    }
    let base = begins.base();
    if base > LARGEST_BASE {
        return Err(Refusal::LogFull);
    }
    if !are_up_to(&store.pages, base) {
        return Err(Refusal::PageAhead);
    }
    fill_pages(&store.pages, pages);
    Ok(Head {
        last: base,
        written: base,
        transactions: 0,
        pending: 0,
        next: 1,
    })
}
