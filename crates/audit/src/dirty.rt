//! The dirty page table of a checkpoint, against the log and the pages.

ghost use Rattle.std.specs.Prelude.{◌≡◌, ◌+◌, ◌≤◌, ◌<◌, ◌↔◌, ℕ, All, IsTrue, Option, Some, ◌==◌, if◌then◌else◌, length, slice_index_or, IfOk, OnOk, IfErr, IfSome, IsOkUnless};
ghost use Rattle.page.specs.Store.{AreNumbered};
ghost use Rattle.page.specs.declared.fault.Fault.TheVariants.{NoResource};
ghost use Rattle.log_laws.specs.Records.{history, first, last_lsn, EachRecord, base_lsn};
ghost use Rattle.log_laws.specs.Redo.{rec_lsn_of};
ghost use Rattle.log_laws.specs.Store.{NamesPages};
ghost use Rattle.audit.specs.Pages.{page_lsn};
ghost use Rattle.audit.specs.Dirty.{KeepsMissing, missing_after, IsRecLsnInRange, IsCovered};
ghost use Rattle.audit.specs.FirstFault.{KeepsDirty, DirtyFault};

use page::{Fault, Page};
use std::alloc::Global;
use wal::{DirtyTable, Log};

/// Notes the record at an LSN, if it is the first on its page that the image lacks.
fn note_missing(missing: &mut [u64], cell: Option<(u32, u8)>, pages: &[Page], lsn: u64)
    requires page { IfSome cell (λ c. c.0 < length pages.now) }
    requires size { length missing.old ≡ length pages.now }
    ensures { missing.new ≡ missing_after (page_lsn pages.now) missing.old cell lsn }
{
    if let Some((page, _)) = cell {
        let number = page as usize;
        if missing[number] == 0 && pages[number].lsn < lsn {
            missing[number] = lsn;
        }
    }
}

/// For each page, the LSN of the first record on it that is above its PageLSN and at most `upto`; 0
/// for none. The only error is `NoResource`.
fn missing_in(alloc: Global, log: &Log, upto: u64, pages: &[Page]) -> Result<Vec<u64>, Fault>
    requires from { base_lsn (history log.now) ≤ upto }
    requires to { upto ≤ last_lsn (history log.now) }
    requires named { EachRecord (NamesPages (length pages.now)) (history log.now) }
    ensures ok { IfOk result (λ v. KeepsMissing pages.now (first upto (history log.now)) v.items) }
    ensures err { IsOkUnless result NoResource }
{
    let mut missing = vec![in alloc; 0; pages.len()]?;
    // For the proof: how large the last LSN can be.
    let _last = log.last();
    let base = log.base();
    for lsn in base..upto {
        let cell = log.glance_after(lsn).cell();
        note_missing(&mut missing, cell, pages, lsn + 1);
    }
    Ok(missing)
}

/// Puts the RecLSN of a page at the page's number, if there is such a page.
fn put_rec_lsn(listed: &mut [Option<u64>], page: u32, rec_lsn: u64)
    ensures count { length listed.new ≡ length listed.old }
    ensures put { (number : ℕ) (default : Option ℕ) → number < length listed.old
        → slice_index_or listed.new number default
        ≡ (if page == number then Some rec_lsn else slice_index_or listed.old number default) }
{
    if (page as usize) < listed.len() {
        listed[page as usize] = Some(rec_lsn);
    }
}

/// For each page, its RecLSN if the table lists it. The only error is `NoResource`.
fn rec_lsns_in(alloc: Global, dirty: &DirtyTable, count: usize) -> Result<Vec<Option<u64>>, Fault>
    ensures count { IfOk result (λ listed. length listed.items ≡ count) }
    ensures each { IfOk result (λ listed. (number : ℕ) (default : Option ℕ) → number < count
        → slice_index_or listed.items number default ≡ rec_lsn_of number dirty.now) }
    ensures err { IsOkUnless result NoResource }
{
    let mut listed = vec![in alloc; None; count]?;
    let last = dirty.len();
    // From the last entry to the first: if a page has two entries, the first of them counts.
    for behind in 0..last {
        let (page, rec_lsn) = dirty.entry(last - 1 - behind);
        put_rec_lsn(&mut listed, page, rec_lsn);
    }
    Ok(listed)
}

/// Whether a listed RecLSN is above the base LSN, at most the master, and at or before the first
/// missing record. If none is listed, no record may be missing.
fn is_covered(base: u64, listed: Option<u64>, missing: u64, master: u64) -> bool
    ensures { IsTrue result ↔ IsRecLsnInRange base listed master × IsCovered listed missing }
{
    match listed {
        None => missing == 0,
        Some(rec_lsn) => {
            base < rec_lsn && rec_lsn <= master && (missing == 0 || rec_lsn <= missing)
        }
    }
}

/// Checks the dirty page table of the checkpoint whose begin record is at `master`. The error names
/// the page with the smallest number of which the table is not true. `NoResource`, if memory was
/// refused, can come instead of any other result.
pub fn check_dirty(
    alloc: Global,
    log: &Log,
    master: u64,
    pages: &[Page],
    dirty: &DirtyTable,
) -> Result<(), Fault>
    requires from { base_lsn (history log.now) ≤ master }
    requires to { master ≤ last_lsn (history log.now) }
    requires numbered { AreNumbered pages.now }
    requires named { EachRecord (NamesPages (length pages.now)) (history log.now) }
    ensures ok { OnOk result (All (KeepsDirty (history log.now) master dirty.now) pages.now) }
    ensures err { IfErr result (DirtyFault (history log.now) master dirty.now pages.now) }
{
    let missing = missing_in(alloc, log, master, pages)?;
    let listed = rec_lsns_in(alloc, dirty, pages.len())?;
    for (number, page) in pages.iter().enumerate() {
        if !is_covered(log.base(), listed[number], missing[number], master) {
            return Err(Fault::DirtyTable(page.number));
        }
    }
    Ok(())
}
