//! The dirty page table by itself, which redo needs. It is found in only as many records as that
//! takes.

ghost use Rattle.std.specs.Prelude.{◌≡◌, ◌≤◌, ◌<◌, ◌⊎◌, ℕ, List, [], map, true, false, Option, Some, slice_index_or, IsTrue, IfOk, IfErr, IsOkUnless};
ghost use Rattle.page.specs.declared.fault.Fault.TheVariants.{NoResource};
ghost use Rattle.log_laws.specs.Records.{TableEntry, page_in, history, first, last_lsn, base_lsn};
ghost use Rattle.log_laws.specs.Redo.{rec_lsn_of};
ghost use Rattle.log_laws.specs.Checkpoint.{IsRising};
ghost use Rattle.analysis.specs.Tables.{base_of, analysed_rec_lsn, AreAllListed, AreDirtyPagesOf, ServesRedo, BaseFault};
ghost use Rattle.analysis.specs.Steps.{AreListed};

use crate::Tables;
use crate::base::checkpoint_tables;
use crate::page_scan::PageScan;
use crate::pass::redo_lsn_of;
use crate::scan::{is_known, note_page};
use page::{Fault, PAGES};
use std::alloc::Global;
use std::collections::BTreeMap;
use wal::Log;

/// The first page from this one on that is below `count` and not known; `count` if there is none.
fn first_unknown(known: &[bool], from: usize, count: usize) -> usize
    ensures { (page : ℕ) → from ≤ page → page < result
        → slice_index_or known.now page false ≡ true }
{
    for page in from..count {
        if !is_known(known, page) {
            return page;
        }
    }
    count
}

/// Whether each page below `stop` is known, if there is a `stop`. All pages below `whole` are
/// known; `whole` grows as far as that is found.
fn are_known(known: &[bool], whole: &mut usize, stop: Option<usize>) -> bool
    ensures known { (page : ℕ) → whole.old ≤ page → page < whole.new
        → slice_index_or known.now page false ≡ true }
    ensures all { IsTrue result → (count : ℕ) × (stop ≡ Some count) × (count ≤ whole.new) }
{
    match stop {
        None => false,
        Some(count) => {
            *whole = first_unknown(known, *whole, count);
            *whole >= count
        }
    }
}

/// A flag for each page of the largest store, for a page that is known. None is. The only error is
/// `NoResource`.
pub fn no_page_known(alloc: Global) -> Result<Vec<bool>, Fault>
    ensures listed { IfOk result (λ known. (dirty : List (ℕ × ℕ)) → AreListed known.items dirty) }
    ensures err { IsOkUnless result NoResource }
{
    Ok(vec![in alloc; false; PAGES]?)
}

/// Looks at the records after the LSN `from` for what they do to the dirty page table: at all of
/// them, or, if there is a `stop`, until each page below it is listed. Returns the LSN up to which
/// it has looked. Pages that are known are listed.
pub fn scan_pages(
    log: &Log,
    from: u64,
    stop: Option<usize>,
    dirty: &mut BTreeMap<u32, u64>,
    known: &mut [bool],
) -> Result<u64, Fault>
    requires from { base_lsn (history log.now) ≤ from }
    requires listed { AreListed known.old dirty.old.entries }
    ensures from { IfOk result (λ upto. from ≤ upto) }
    ensures pages { IfOk result (λ upto. (p m : ℕ) (base : Option ℕ) → m ≤ from
        → rec_lsn_of p dirty.old.entries ≡ analysed_rec_lsn p m base (first from (history log.now))
        → rec_lsn_of p dirty.new.entries
        ≡ analysed_rec_lsn p m base (first upto (history log.now))) }
    ensures whole { IfOk result (λ upto. (last_lsn (history log.now) ≤ upto)
        ⊎ ((count : ℕ) × (stop ≡ Some count) × AreAllListed count dirty.new.entries)) }
    ensures listed { AreListed known.new dirty.new.entries }
    ensures err { IsOkUnless result NoResource }
{
    let mut whole = 0;
    for lsn in from..log.last() {
        if are_known(known, &mut whole, stop) {
            return Ok(lsn);
        }
        note_page(dirty, known, log.glance_after(lsn), lsn + 1)?;
    }
    Ok(log.last().max(from))
}

/// Adds to the table of the checkpoint that `master` names the later dirty pages that redo needs,
/// for a store with this many pages. Returns the LSN from which redo begins.
fn list_pages(
    alloc: Global,
    log: &Log,
    master: u64,
    count: usize,
    dirty: &mut BTreeMap<u32, u64>,
) -> Result<u64, Fault>
    ensures pages { IfOk result (λ redo_lsn. (transactions : List TableEntry)
        (pages : List (ℕ × ℕ)) → base_of master (history log.now) ≡ Some (transactions, pages)
        → ((p : ℕ) → rec_lsn_of p dirty.old.entries ≡ rec_lsn_of p pages)
        → IsRising (map page_in dirty.new.entries)
        → ServesRedo log.now master count dirty.new.entries redo_lsn) }
    ensures err { IsOkUnless result NoResource }
{
    let first = log.base() + 1;
    let mut known = no_page_known(alloc)?;
    let upto = scan_pages(log, master.max(log.base()), Some(count), dirty, &mut known)?;
    let redo_lsn = redo_lsn_of(first, dirty);
    if 1 <= redo_lsn && redo_lsn <= upto {
        return Ok(redo_lsn);
    }
    scan_pages(log, upto, None, dirty, &mut known)?;
    Ok(redo_lsn_of(first, dirty))
}

/// The dirty pages that redo needs for a store with this many pages, and the LSN from which redo
/// begins. They are found without the transactions, with the errors of [`analyse`](crate::analyse).
/// The tables have no transactions, since redo does not need them.
///
/// The records are looked at only up to the point at which each page of the store is listed and
/// redo has begun. Later records are on pages that are listed, or on a page that the store does not
/// have. These tables may lack such a page, and redo returns an error for it. Otherwise they are
/// those of `analyse`.
pub fn analyse_pages(alloc: Global, log: &Log, master: u64, count: usize) -> Result<Tables, Fault>
    ensures pages { IfOk result (λ found. ServesRedo log.now master count
        found.dirty found.redo_lsn) }
    ensures no_transactions { IfOk result (λ found. found.transactions ≡ []) }
    ensures fault { IfErr result (BaseFault master (history log.now)) }
{
    let (_, mut dirty) = checkpoint_tables(alloc, log, master)?;
    let redo_lsn = list_pages(alloc, log, master, count, &mut dirty)?;
    // For the proof: the keys ascend.
    let _in_order = dirty.iter();
    Ok(Tables {
        transactions: BTreeMap::new(alloc),
        dirty,
        redo_lsn,
    })
}

/// All dirty pages of [`analyse`](crate::analyse), and the LSN from which redo begins. They are
/// found without the transactions, with the same errors. The tables have no transactions.
pub fn analyse_all_pages(alloc: Global, log: &Log, master: u64) -> Result<Tables, Fault>
    ensures pages { IfOk result (λ found. AreDirtyPagesOf log.now master
        found.dirty found.redo_lsn) }
    ensures fault { IfErr result (BaseFault master (history log.now)) }
{
    let (_, base) = checkpoint_tables(alloc, log, master)?;
    let mut scan = PageScan::begin(alloc, base)?;
    scan.pass(log, master)?;
    let dirty = scan.finish();
    let redo_lsn = redo_lsn_of(log.base() + 1, &dirty);
    // For the proof: the keys ascend.
    let _in_order = dirty.iter();
    Ok(Tables {
        transactions: BTreeMap::new(alloc),
        dirty,
        redo_lsn,
    })
}
