//! The law of pages, by number.

ghost use Rattle.std.specs.Prelude.{◌≡◌, ◌+◌, ◌*◌, ◌≤◌, ◌<◌, ◌⊎◌, ◌↔◌, ℕ, All, IsTrue, Some, None, true, length, IfOk, OnOk, IfErr, IfSome, slice_index, slice_index_or, IsOkUnless};
ghost use Rattle.page.specs.Store.{AreNumbered};
ghost use Rattle.page.specs.declared.fault.Fault.TheVariants.{NoResource};
ghost use Rattle.log_laws.specs.Records.{LogRecord, history, record_at, EachRecord};
ghost use Rattle.log_laws.specs.Meaning.{is_on};
ghost use Rattle.log_laws.specs.Pages.{PageLaw, base_pages};
ghost use Rattle.log_laws.specs.Store.{NamesPages};
ghost use Rattle.wal.specs.Content.{shown};
ghost use Rattle.audit.specs.Cells.{KeepsWriters, image_or};
ghost use Rattle.audit.specs.Pages.{page_lsn, writers_after, log_at, KeepsPage};
ghost use Rattle.audit.specs.FirstFault.{BrokenPage, PageLawFault};
ghost use Rattle.page.specs.declared.profile.TheConstants.{PAGES, SLOTS};

use crate::base::{base_page_lsn, base_value};
use crate::decide::is_value;
use page::{Fault, Page, SLOTS, Value};
use std::alloc::Global;
use wal::{Log, RecordView};

/// Notes the record at an LSN as the last writer of its cell, if it has a cell and its LSN is at
/// most its page's PageLSN.
fn note_writer(writers: &mut [u64], cell: Option<(u32, u8)>, pages: &[Page], lsn: u64)
    requires page { IfSome cell (λ c. c.0 < length pages.now) }
    requires cell { IfSome cell (λ c. SLOTS * c.0 + c.1 < length writers.old) }
    ensures { writers.new ≡ writers_after (page_lsn pages.now) writers.old cell lsn }
{
    if let Some((page, slot)) = cell {
        if lsn <= pages[page as usize].lsn {
            writers[SLOTS * page as usize + slot as usize] = lsn;
        }
    }
}

/// The highest PageLSN, 0 without pages.
fn highest_in(pages: &[Page]) -> u64
    ensures { All (λ page. page.lsn ≤ result) pages.now }
{
    let mut highest = 0;
    for page in pages {
        highest = page.lsn.max(highest);
    }
    highest
}

/// For each cell, the LSN of its last writer at or before its page's PageLSN, 0 for none. The only
/// error is `NoResource`.
fn writers_at(alloc: Global, log: &Log, pages: &[Page]) -> Result<Vec<u64>, Fault>
    requires few { length pages.now ≤ PAGES }
    requires named { EachRecord (NamesPages (length pages.now)) (history log.now) }
    ensures ok { IfOk result (λ w. KeepsWriters (length pages.now)
        (log_at pages.now (history log.now)) w.items) }
    ensures err { IsOkUnless result NoResource }
{
    let mut writers = vec![in alloc; 0; SLOTS * pages.len()]?;
    let base = log.base();
    // No record after the highest PageLSN counts for a page.
    let upto = highest_in(pages).min(log.last());
    for lsn in base..upto {
        let cell = log.glance_after(lsn).cell();
        note_writer(&mut writers, cell, pages, lsn + 1);
    }
    Ok(writers)
}

/// Whether a record is an update or a CLR on this page.
fn is_on_page(view: &RecordView, number: u32) -> bool
    ensures { result ≡ is_on number (shown view.now) }
{
    match view.change() {
        Some(change) => change.page == number,
        None => false,
    }
}

/// Whether the PageLSN is that of the base page or the LSN of a record on the page.
fn lsn_is_on(log: &Log, base: &[Page], page: &Page) -> bool
    ensures { IsTrue result ↔ (page.now.lsn ≡ (base_pages base.now).page_lsn page.now.number)
        ⊎ ((r : LogRecord) × (record_at (history log.now) page.now.lsn ≡ Some r)
        × (is_on page.now.number r ≡ true)) }
{
    if page.lsn == base_page_lsn(base, page.number) {
        return true;
    }
    match log.get(page.lsn) {
        Some(view) => is_on_page(&view, page.number),
        None => false,
    }
}

/// What the record at an LSN leaves in its cell; without a record, what was there before.
fn image_left(log: &Log, writer: u64, before: Option<Value>) -> Option<Value>
    ensures { result ≡ image_or before (record_at (history log.now) writer) }
{
    if writer <= log.base() || writer > log.last() {
        return before;
    }
    log.image(writer)
}

/// Whether both values are absent, or have the same bytes.
fn are_same_values(value: Option<Value>, other: Option<Value>) -> bool
    ensures { IsTrue result ↔ value ≡ other }
{
    match value {
        None => other.is_none(),
        Some(value) => is_value(Some(value.as_slice()), other),
    }
}

/// Whether each slot of the page with this number holds what its last writer left; if it has no
/// writer, what the base page holds there.
fn slots_are_left(
    log: &Log,
    base: &[Page],
    writers: &[u64],
    number: u32,
    slots: &[Option<Value>; SLOTS],
) -> bool
    requires { SLOTS * number + SLOTS ≤ length writers.now }
    ensures all { IsTrue result ↔ ((k : ℕ) → k < SLOTS
        → slice_index_or slots.now k None
        ≡ image_or ((base_pages base.now).cells number k)
        (record_at (history log.now) (slice_index writers.now (SLOTS * number + k)))) }
    ensures count { length slots.now ≡ SLOTS }
{
    for (slot, value) in slots.iter().enumerate() {
        let writer = writers[SLOTS * number as usize + slot];
        let left = image_left(log, writer, base_value(base, number, slot));
        if !are_same_values(*value, left) {
            return false;
        }
    }
    true
}

/// Checks the laws of a page. The error is that of the first law that it breaks.
fn check_page(log: &Log, base: &[Page], writers: &[u64], page: &Page) -> Result<(), Fault>
    requires { SLOTS * page.now.number + SLOTS ≤ length writers.now }
    ensures ok { OnOk result (KeepsPage (history log.now) writers.now page.now
        → PageLaw (base_pages base.now) (history log.now) page.now) }
    ensures err { IfErr result (λ e. KeepsPage (history log.now) writers.now page.now
        → BrokenPage (base_pages base.now) (history log.now) page.now e) }
{
    if page.lsn > log.last() {
        return Err(Fault::PageAheadOfLog(page.number));
    }
    if !lsn_is_on(log, base, page) {
        return Err(Fault::PageImage(page.number));
    }
    if !slots_are_left(log, base, writers, page.number, &page.slots) {
        return Err(Fault::PageImage(page.number));
    }
    Ok(())
}

/// Checks whether each page is what the log up to its PageLSN makes of the base page. The error
/// names the first page that is not. `NoResource`, if memory was refused, can come instead of any
/// other result.
pub fn check_pages(alloc: Global, log: &Log, base: &[Page], pages: &[Page]) -> Result<(), Fault>
    requires numbered { AreNumbered pages.now }
    requires named { EachRecord (NamesPages (length pages.now)) (history log.now) }
    ensures ok { OnOk result (All (PageLaw (base_pages base.now) (history log.now)) pages.now) }
    ensures err { IfErr result (PageLawFault (base_pages base.now) (history log.now) pages.now) }
{
    let writers = writers_at(alloc, log, pages)?;
    for page in pages {
        if let Err(fault) = check_page(log, base, &writers, page) {
            return Err(fault);
        }
    }
    Ok(())
}
