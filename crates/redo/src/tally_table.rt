//! The tallies of all pages of a store, in little memory for a page to which no record is applied.

ghost use Rattle.std.specs.Prelude.{◌≡◌, ℕ, ◌+◌, ◌<◌, ◌≤◌, ◌^◌, ◌⊎◌, ◌↔◌, ◌++◌, [], ◌∷◌, List, All, Option, Some, Contains, length, slice_set, slice_index_or, IfOk, OnOk, IfErr, OnErr, IsOkUnless};
ghost use Rattle.page.specs.declared.fault.Fault.TheVariants.{NoResource};
ghost use Rattle.page.specs.declared.page.Page.{Page};
ghost use Rattle.page.specs.declared.profile.TheConstants.{SLOTS};
ghost use Rattle.page.specs.Store.{AreNumbered};
ghost use Rattle.log_laws.specs.Records.{LogRecord, history, record_at};
ghost use Rattle.log_laws.specs.Meaning.{cell_of};
ghost use Rattle.wal.specs.Glances.{glance_of};
ghost use Rattle.log_laws.specs.Redo.{rec_lsn_of, is_redone};
ghost use Rattle.tables.specs.Tables.{TablesContent};
ghost use Rattle.redo.specs.Inputs.{InputContent};
ghost use Rattle.redo.specs.Changes.{NamesBelow, advance, counted, counted_by};
ghost use Rattle.redo.specs.Routes.{NoteFault, IsSeen};
ghost use Rattle.redo.specs.Parts.{resolved};
ghost use Rattle.redo.specs.Passing.{StandAtNumbers, LastsAreWithin, AreRedoneBy, AreScannedAtFirst, IsBegunIn, AreBegunIn, ListEach};
ghost use Rattle.redo.specs.Placed.{untouched, tallies_of, ArePlaced, page_first, kept_first};
ghost use Rattle.redo.specs.Joined.{HaveRoom, JoinsPage};
ghost use Rattle.redo.specs.Wanted.{IsLastIn};
ghost use Rattle.redo.specs.declared.tally.Tally.{Tally};
ghost use Rattle.redo.specs.declared.tally_table.PlacedPage.{PlacedPage};
ghost use Rattle.redo.specs.declared.wanted.Wanted.{Wanted};

use crate::kept::{count_lasts, keep, keep_joined};
use crate::tally::is_redone;
use crate::wanted::{Wanted, want_slots};
use changes::Pages;
use page::{Fault, SLOTS};
use std::alloc::Global;
use std::marker::Model;
use tables::Tables;
use wal::Glance;

/// A page of the store: its number, its PageLSN as far as redo has come, how many records were
/// applied to it, and the place of its last records among those that are kept, counted from 1; 0 if
/// no record was applied.
#[derive(Clone, Copy)]
pub struct PlacedPage {
    pub number: u32,
    pub place: u32,
    pub lsn: u64,
    pub applied: u64,
}

/// The tallies of all pages of a store. A page takes 40 bytes, and 128 more once a record was
/// applied to it. Contracts see the list of the tallies, each at the number of its page.
#[derive(Drop)]
pub struct TallyTable {
    pages: Vec<PlacedPage>,
    rec_lsns: Vec<Option<u64>>,
    kept: Vec<[u64; SLOTS]>,
}

impl Model for TallyTable {
    ghost use Rattle.std.specs.Prelude.{List};
    ghost use Rattle.redo.specs.declared.tally.Tally.{Tally};
    ghost use Rattle.redo.specs.declared.tally_table.PlacedPage.{PlacedPage};
    ghost use Rattle.redo.specs.Placed.{tallies_of, ArePlaced};

    ghost Value = { List Tally };

    ghost view = { λ t. tallies_of t.kept.items t.rec_lsns.items t.pages.items };

    ghost invariant = { λ t. ArePlaced t.kept.items t.rec_lsns.items t.pages.items };
}

/// Counts the record at an LSN, which is in a slot, for a page that has no place, if the page lacks
/// the record. The page then has a place. The only error is `NoResource`; nothing has changed then.
/// It is not inlined: the slots that it adds would be set to zeros at each record.
#[inline(never)]
fn count_first(
    page: &mut PlacedPage,
    kept: &mut Vec<[u64; SLOTS]>,
    rec_lsn: Option<u64>,
    redo_lsn: u64,
    lsn: u64,
    slot: usize,
) -> Result<(), Fault>
    requires slot { slot < SLOTS }
    requires room { page.old.applied + 1 < 2 ^ 64 }
    ensures page { OnOk result (page.new ≡ page_first
        (is_redone rec_lsn redo_lsn page.old.lsn lsn) (length kept.old.items) lsn page.old) }
    ensures kept { OnOk result (kept.new.items ≡ kept_first
        (is_redone rec_lsn redo_lsn page.old.lsn lsn) lsn slot kept.old.items) }
    ensures unchanged { OnErr result (page.new ≡ page.old) }
    ensures same { OnErr result (kept.new.items ≡ kept.old.items) }
    ensures err { IsOkUnless result NoResource }
{
    if !is_redone(rec_lsn, redo_lsn, page.lsn, lsn) {
        return Ok(());
    }
    let mut lasts = [0; SLOTS];
    lasts[slot] = lsn;
    let place = keep(kept, lasts)?;
    *page = PlacedPage {
        number: page.number,
        place,
        lsn,
        applied: page.applied + 1,
    };
    Ok(())
}

impl TallyTable {
    /// No tallies, with room for those of this many pages. The only error is `NoResource`.
    fn with_capacity(alloc: Global, count: usize) -> Result<TallyTable, Fault>
        ensures none { IfOk result (λ table. table ≡ []) }
        ensures err { IsOkUnless result NoResource }
    {
        Ok(TallyTable {
            pages: Vec::with_capacity(alloc, count)?,
            rec_lsns: Vec::with_capacity(alloc, count)?,
            kept: Vec::new(alloc),
        })
    }

    /// Adds the tally of the next page of the store, to which no record was applied. The only error
    /// is `NoResource`.
    fn push(&mut self, number: u32, lsn: u64, rec_lsn: Option<u64>) -> Result<(), Fault>
        requires number { number ≡ length self.old }
        ensures added { OnOk result (self.new ≡ self.old ++ untouched number lsn rec_lsn ∷ []) }
        ensures err { IsOkUnless result NoResource }
    {
        self.rec_lsns.push(rec_lsn)?;
        let page = PlacedPage {
            number,
            place: 0,
            lsn,
            applied: 0,
        };
        if self.pages.push(page).is_err() {
            self.rec_lsns.pop();
            return Err(Fault::NoResource);
        }
        Ok(())
    }

    /// How many pages the store has.
    pub fn len(&self) -> usize
        ensures { result ≡ length self.now }
    {
        self.pages.len()
    }

    /// The PageLSN of a page, as far as redo has come.
    pub fn lsn(&self, number: usize) -> u64
        requires { number < length self.now }
        ensures lsn { (t : Tally) → result ≡ (slice_index_or self.now number t).lsn }
        ensures lasts { (t : Tally) → length (slice_index_or self.now number t).lasts ≡ SLOTS }
    {
        let page = self.pages[number];
        if page.place == 0 {
            return page.lsn;
        }
        // For the proof: how many slots a page has.
        let _lasts = count_lasts(&self.kept[page.place as usize - 1]);
        page.lsn
    }

    /// How many records were applied to a page.
    pub fn applied(&self, number: usize) -> u64
        requires { number < length self.now }
        ensures { (t : Tally) → result ≡ (slice_index_or self.now number t).applied }
    {
        self.pages[number].applied
    }

    /// Adds, after others, the records that are the last in the slots of a page. The only error is
    /// `NoResource`.
    pub fn want(&self, number: usize, wanted: &mut Vec<Wanted>) -> Result<(), Fault>
        requires { number < length self.now }
        ensures each { OnOk result ((w : Wanted) (t : Tally) → Contains wanted.new.items w
            ↔ (Contains wanted.old.items w
            ⊎ IsLastIn number (slice_index_or self.now number t).lasts w)) }
        ensures err { IsOkUnless result NoResource }
    {
        let page = self.pages[number];
        if page.place == 0 {
            return Ok(());
        }
        want_slots(page.number, &self.kept[page.place as usize - 1], wanted)?;
        Ok(())
    }

    /// Counts the record at an LSN, which is in a slot, for its page, if the page lacks the record.
    /// Each page to which a record was applied lacks it. The only error is `NoResource`; nothing
    /// has changed then.
    #[inline(always)]
    pub fn count(
        &mut self,
        number: usize,
        redo_lsn: u64,
        lsn: u64,
        slot: usize,
    ) -> Result<(), Fault>
        requires page { number < length self.old }
        requires slot { slot < SLOTS }
        requires room { All (λ t. t.applied + 1 < 2 ^ 64) self.old }
        requires later { AreRedoneBy redo_lsn lsn self.old }
        ensures counted { OnOk result ((t : Tally) → self.new ≡ slice_set self.old number
            (counted redo_lsn lsn slot (slice_index_or self.old number t))) }
        ensures same { OnErr result (self.new ≡ self.old) }
        ensures err { IsOkUnless result NoResource }
    {
        let page = &mut self.pages[number];
        if page.place == 0 {
            let rec_lsn = self.rec_lsns[number];
            count_first(page, &mut self.kept, rec_lsn, redo_lsn, lsn, slot)?;
            return Ok(());
        }
        page.lsn = lsn;
        page.applied += 1;
        self.kept[page.place as usize - 1][slot] = lsn;
        Ok(())
    }

    /// Joins the tally of a page with that of a later stretch of the log, if records were applied
    /// to the page there and the page lacks the last of them. The only error is `NoResource`;
    /// nothing has changed then.
    pub fn join(&mut self, number: usize, redo_lsn: u64, later: &TallyTable) -> Result<(), Fault>
        requires page { number < length self.old }
        requires later { number < length later.now }
        requires room { HaveRoom number self.old later.now }
        ensures joined { OnOk result (JoinsPage number redo_lsn self.old later.now self.new) }
        ensures same { OnErr result (self.new ≡ self.old) }
        ensures err { IsOkUnless result NoResource }
    {
        let other = later.pages[number];
        if other.place == 0 {
            return Ok(());
        }
        let page = &mut self.pages[number];
        if !is_redone(self.rec_lsns[number], redo_lsn, page.lsn, other.lsn) {
            return Ok(());
        }
        let lasts = &later.kept[other.place as usize - 1];
        page.place = keep_joined(&mut self.kept, page.place, lasts)?;
        page.lsn = other.lsn;
        page.applied += other.applied;
        Ok(())
    }
}

/// How many pages there are. The only error is `NoResource`, if they are 2^32 or more, which no store has.
pub fn page_count<P: Pages>(pages: &P) -> Result<u32, Fault>
    ensures count { IfOk result (λ count. count ≡ P.count pages.now) }
    ensures err { IsOkUnless result NoResource }
{
    u32::try_from(pages.len()).map_err(|_| Fault::NoResource)
}

/// The PageLSN of a page. The tally of a page begins with it, for any log and for any tables that
/// have this RecLSN for the page.
fn lsn_of<P: Pages>(pages: &P, number: u32) -> u64
    requires { number < P.count pages.now }
    ensures { (stored shown : List Page) (tables : TablesContent) (rec_lsn : Option ℕ)
        → P.shows pages.now stored shown → AreNumbered shown
        → rec_lsn_of number tables.dirty ≡ rec_lsn
        → IsBegunIn shown tables number (untouched number result rec_lsn) }
{
    pages.lsn(number as usize)
}

/// The tallies of all pages before a record is applied to them, for any log. The only error is
/// `NoResource`.
pub fn begin_each<P: Pages>(alloc: Global, pages: &P, tables: &Tables) -> Result<TallyTable, Fault>
    ensures begun { IfOk result (λ tallies. (stored shown : List Page)
        → P.shows pages.now stored shown → AreNumbered shown
        → AreBegunIn shown tables.now tallies) }
    ensures count { IfOk result (λ tallies. length tallies ≡ P.count pages.now) }
    // Numbers, counts and last records do not depend on what the pages hold.
    ensures scanned { IfOk result AreScannedAtFirst }
    ensures err { IsOkUnless result NoResource }
{
    let count = page_count(pages)?;
    let mut tallies = TallyTable::with_capacity(alloc, count as usize)?;
    for number in 0..count {
        tallies.push(number, lsn_of(pages, number), tables.rec_lsn(number))?;
    }
    Ok(tallies)
}

/// The tallies of all pages before a record is applied to them, for any log and tables that list
/// each page from the LSN `first` on. The only error is `NoResource`.
pub fn begin_each_listed<P: Pages>(
    alloc: Global,
    pages: &P,
    first: u64,
) -> Result<TallyTable, Fault>
    ensures begun { IfOk result (λ tallies. (stored shown : List Page) (tables : TablesContent)
        → P.shows pages.now stored shown → AreNumbered shown
        → ListEach (P.count pages.now) first tables → AreBegunIn shown tables tallies) }
    ensures count { IfOk result (λ tallies. length tallies ≡ P.count pages.now) }
    // Numbers, counts and last records do not depend on what the pages hold.
    ensures scanned { IfOk result AreScannedAtFirst }
    ensures err { IsOkUnless result NoResource }
{
    let count = page_count(pages)?;
    let mut tallies = TallyTable::with_capacity(alloc, count as usize)?;
    for number in 0..count {
        tallies.push(number, lsn_of(pages, number), Some(first))?;
    }
    Ok(tallies)
}

/// Counts the record at an LSN for its page, if it has one and the page lacks the record. The
/// record is given at a glance. Returns `NoSuchPage` if the store lacks the page, and `NoResource`
/// if memory was refused; the tallies then stay as they were.
#[inline(always)]
pub fn count_seen(
    tallies: &mut TallyTable,
    redo_lsn: u64,
    lsn: u64,
    glance: Glance,
) -> Result<(), Fault>
    requires seen { IsSeen glance }
    requires numbered { StandAtNumbers tallies.old }
    requires room { All (λ t. t.applied < lsn) tallies.old }
    requires later { AreRedoneBy redo_lsn lsn tallies.old }
    ensures count { length tallies.new ≡ length tallies.old }
    ensures numbered { StandAtNumbers tallies.new }
    ensures few { (most : ℕ) → All (λ t. t.applied ≤ most) tallies.old
        → All (λ t. t.applied ≤ most + 1) tallies.new }
    ensures lasts { LastsAreWithin lsn tallies.old → LastsAreWithin lsn tallies.new }
    ensures later { (after : ℕ) → lsn < after → AreRedoneBy redo_lsn after tallies.new }
    ensures each { OnOk result ((input : InputContent) (r : LogRecord) (k : ℕ) (t : Tally)
        → input.redo_lsn ≡ redo_lsn → glance ≡ glance_of r
        → record_at (history input.log) lsn ≡ Some r → k < length tallies.old
        → resolved input (slice_index_or tallies.new k t)
        ≡ advance input.redo_lsn lsn r (resolved input (slice_index_or tallies.old k t))) }
    ensures counted { OnOk result ((r : LogRecord) (k : ℕ) (t : Tally)
        → glance ≡ glance_of r → k < length tallies.old → slice_index_or tallies.new k t
        ≡ counted_by redo_lsn lsn (cell_of r) (slice_index_or tallies.old k t)) }
    ensures exists { OnOk result ((r : LogRecord) → glance ≡ glance_of r
        → NamesBelow (length tallies.old) r) }
    ensures fault { IfErr result (λ e. (r : LogRecord) → glance ≡ glance_of r
        → NoteFault (length tallies.old) lsn r e) }
    ensures unchanged { OnErr result (tallies.new ≡ tallies.old) }
{
    let Some((page, slot)) = glance.cell() else {
        return Ok(());
    };
    let number = page as usize;
    if number >= tallies.len() {
        return Err(Fault::NoSuchPage(lsn));
    }
    tallies.count(number, redo_lsn, lsn, slot as usize)?;
    Ok(())
}
