//! The tallies of all pages while a log is read, record after record.

ghost use Rattle.std.specs.Prelude.{◌≡◌, ◌+◌, ◌-◌, ◌^◌, ◌≤◌, ◌<◌, ◌↔◌, List, All, Contains, length, min, IfOk, OnOk, IfErr, OnErr, IsOkUnless};
ghost use Rattle.std.specs.List.{sum_by};
ghost use Rattle.std.specs.List.Sorted.{IsNonDecreasingBy};
ghost use Rattle.page.specs.declared.fault.Fault.TheVariants.{NoResource};
ghost use Rattle.page.specs.Store.{AreNumbered};
ghost use Rattle.log_laws.specs.Records.{LogRecord, LogContent, History, history, base_lsn};
ghost use Rattle.wal.specs.Glances.{glance_of};
ghost use Rattle.tables.specs.Tables.{TablesContent};
ghost use Rattle.changes.specs.Numbered.{StayNumbered};
ghost use Rattle.redo.specs.Inputs.{InputContent, input_over};
ghost use Rattle.redo.specs.Counted.{AreCounted};
ghost use Rattle.redo.specs.Joined.{JoinsStretches, JoinsPages};
ghost use Rattle.redo.specs.Routes.{IsSeen, NoteFault};
ghost use Rattle.redo.specs.Passing.{IsRecordFor, CountsRecord, FindsPage, TakeFault};
ghost use Rattle.redo.specs.Passing.{BeginsBy, ContinuesBy, BeginsListed, ContinuesListed};
ghost use Rattle.redo.specs.Wanted.{IsWanted, HoldAllBut, ShowAllBut, ShowFinished};
ghost use Rattle.redo.specs.declared.wanted.Wanted.{Wanted};
ghost use Rattle.redo.specs.Changes.{NamesBelow};
ghost use Rattle.page.specs.declared.profile.TheConstants.{SLOTS};
ghost use Rattle.page.specs.declared.page.Page.{Page};

use crate::fetch::set_page_lsns;
use crate::join::join_each;
use crate::ordered::by_lsn;
use crate::tally_table::{TallyTable, begin_each, begin_each_listed, count_seen};
use crate::wanted::Wanted;
use changes::Pages;
use page::Fault;
use std::alloc::Global;
use std::marker::Model;
use tables::Tables;
use wal::Glance;

/// The tallies of all pages of a store while a log is read: for each slot, which is the last of the
/// records that its page lacks. The records are given one by one in the order of the log, up to its
/// last. Contracts see the tallies, the LSN from which records are looked at, the base LSN, up to
/// which none was counted, and an LSN above which none was counted.
#[derive(Drop)]
pub struct TallyScan {
    tallies: TallyTable,
    redo_lsn: u64,
    base: u64,
    upto: u64,
}

impl Model for TallyScan {
    ghost use Rattle.redo.specs.Passing.{TalliesSoFar, AreScanned};

    ghost Value = { TalliesSoFar };

    ghost view = { λ s. record { tallies = s.tallies; redo_lsn = s.redo_lsn; base = s.base; upto = s.upto } };

    ghost invariant = { λ s. AreScanned s.redo_lsn s.base s.upto s.tallies };
}

impl TallyScan {
    /// The scan before the first record of a log with this base LSN. No record is applied to the
    /// pages. The only error is `NoResource`.
    pub fn begin<P: Pages>(
        alloc: Global,
        pages: &P,
        tables: &Tables,
        base: u64,
    ) -> Result<TallyScan, Fault>
        ensures begun { IfOk result (λ scan. BeginsBy P.Pages pages.now
            tables.now base scan.tallies) }
        // The same for a log that begins earlier, if redo begins after the base LSN.
        ensures ahead { IfOk result (λ scan. ContinuesBy P.Pages pages.now
            tables.now base scan.tallies) }
        ensures count { IfOk result (λ scan. length scan.tallies ≡ P.count pages.now) }
        ensures redo_lsn { IfOk result (λ scan. scan.redo_lsn ≡ tables.now.redo_lsn) }
        ensures base { IfOk result (λ scan. scan.base ≡ base) }
        ensures upto { IfOk result (λ scan. scan.upto ≡ base) }
        ensures err { IsOkUnless result NoResource }
    {
        let tallies = begin_each(alloc, pages, tables)?;
        Ok(TallyScan {
            tallies,
            redo_lsn: tables.redo_lsn,
            base,
            upto: base,
        })
    }

    /// The scan before the first record of a log with this base LSN, with each page of the store
    /// listed as dirty from the LSN `first` on. Redo begins there too, and no tables are needed. No
    /// record is applied to the pages. If `first` is after the base LSN, the log may begin earlier:
    /// the scan is then that of a later stretch. The only error is `NoResource`.
    pub fn begin_listed<P: Pages>(
        alloc: Global,
        pages: &P,
        first: u64,
        base: u64,
    ) -> Result<TallyScan, Fault>
        ensures begun { IfOk result (λ scan. BeginsListed P.Pages pages.now
            first base scan.tallies) }
        // The same for a log that begins earlier, if `first` is after the base LSN.
        ensures ahead { IfOk result (λ scan. ContinuesListed P.Pages pages.now
            first base scan.tallies) }
        ensures count { IfOk result (λ scan. length scan.tallies ≡ P.count pages.now) }
        ensures redo_lsn { IfOk result (λ scan. scan.redo_lsn ≡ first) }
        ensures base { IfOk result (λ scan. scan.base ≡ base) }
        ensures upto { IfOk result (λ scan. scan.upto ≡ base) }
        ensures err { IsOkUnless result NoResource }
    {
        let tallies = begin_each_listed(alloc, pages, first)?;
        Ok(TallyScan {
            tallies,
            redo_lsn: first,
            base,
            upto: base,
        })
    }

    /// Counts the record at an LSN for its page, if it is on one and the page lacks the record. The
    /// record is given at a glance. It is one that redo looks at. The scan stays as it was if there
    /// is an error.
    #[inline(always)]
    fn note(&mut self, glance: Glance, lsn: u64) -> Result<(), Fault>
        requires seen { IsSeen glance }
        requires upto { self.old.upto < lsn }
        // For each log that the record can be of: if the tallies have all records before it, they
        // then have it too.
        ensures goes_on { OnOk result ((input : InputContent)
            → IsRecordFor input self.old.redo_lsn lsn glance
            → AreCounted input (lsn - 1) self.old.tallies → AreCounted input lsn self.new.tallies) }
        ensures exists { OnOk result ((r : LogRecord) → glance ≡ glance_of r
            → NamesBelow (length self.old.tallies) r) }
        ensures fault { IfErr result (λ e. (r : LogRecord) → glance ≡ glance_of r
            → NoteFault (length self.old.tallies) lsn r e) }
        ensures unchanged { OnErr result (self.new ≡ self.old) }

        ensures count { length self.new.tallies ≡ length self.old.tallies }
        ensures redo_lsn { self.new.redo_lsn ≡ self.old.redo_lsn }
        ensures base { self.new.base ≡ self.old.base }
        ensures upto { OnOk result (self.new.upto ≡ lsn) }
    {
        count_seen(&mut self.tallies, self.redo_lsn, lsn, glance)?;
        self.upto = lsn;
        Ok(())
    }

    /// Counts the record after an LSN for its page, if it is from `redo_lsn` on and the page lacks
    /// it. If `redo_lsn` is 0, none is counted. The record is given at a glance. Takes memory if it
    /// is the first that is applied to its page.
    ///
    /// Errors: `NoSuchPage` with the record's LSN if it is from `redo_lsn` on, and on a page which
    /// the store lacks; `NoResource` if memory was refused. The scan then stays as it was.
    #[inline(always)]
    pub fn take(&mut self, lsn: u64, glance: Glance) -> Result<(), Fault>
        requires seen { IsSeen glance }
        requires upto { self.old.upto ≤ lsn }
        requires room { lsn + 1 < 2 ^ 64 }
        ensures goes_on { OnOk result (CountsRecord lsn glance self.old self.new) }
        ensures exists { OnOk result (FindsPage lsn glance self.old) }
        ensures fault { IfErr result (TakeFault lsn glance self.old) }
        ensures unchanged { OnErr result (self.new ≡ self.old) }

        ensures count { length self.new.tallies ≡ length self.old.tallies }
        ensures redo_lsn { self.new.redo_lsn ≡ self.old.redo_lsn }
        ensures base { self.new.base ≡ self.old.base }
        ensures upto { self.new.upto ≤ lsn + 1 }
    {
        if self.redo_lsn == 0 || lsn + 1 < self.redo_lsn {
            return Ok(());
        }
        self.note(glance, lsn + 1)?;
        Ok(())
    }

    /// Joins the scan with that of a later stretch of the log, which began with the same PageLSNs.
    /// It then has the records of both. `later` stays as it is. Takes memory for each page to which
    /// a record was applied only there.
    ///
    /// The only error is `NoResource`. Some pages are joined then, and others are not: drop the
    /// scan, since it is that of no log.
    pub fn join(&mut self, later: &TallyScan) -> Result<(), Fault>
        requires pages { length later.now.tallies ≡ length self.old.tallies }
        requires upto { self.old.upto ≤ later.now.base }
        ensures joined { OnOk result (JoinsStretches self.old later.now self.new) }
        ensures each { JoinsPages self.old later.now self.new }
        ensures err { IsOkUnless result NoResource }

        ensures count { length self.new.tallies ≡ length self.old.tallies }
        ensures redo_lsn { self.new.redo_lsn ≡ self.old.redo_lsn }
        ensures base { self.new.base ≡ self.old.base }
        ensures upto { self.new.upto ≡ later.now.upto }
    {
        let upto = later.upto();
        let joined = join_each(&mut self.tallies, self.redo_lsn, &later.tallies);
        self.upto = upto;
        joined
    }

    /// An LSN up to which no record was counted.
    pub fn base(&self) -> u64
        ensures { result ≡ self.now.base }
    {
        self.base
    }

    /// An LSN above which no record was counted.
    pub fn upto(&self) -> u64
        ensures { result ≡ self.now.upto }
    {
        self.upto
    }

    /// How many pages the store has.
    pub fn pages(&self) -> usize
        ensures { result ≡ length self.now.tallies }
    {
        self.tallies.len()
    }

    /// How many records were applied to all pages together; 2^64 - 1 if they are more.
    pub fn applied(&self) -> u64
        ensures { result ≡ min u64.MAX (sum_by (λ t. t.applied) self.now.tallies) }
    {
        let mut applied: u64 = 0;
        for number in 0..self.tallies.len() {
            applied = applied.saturating_add(self.tallies.applied(number));
        }
        applied
    }

    /// The records whose images the slots of the pages want, in ascending order of LSN: for each
    /// slot to which a record was applied, the last one. The only error is `NoResource`.
    pub fn wanted(&self, alloc: Global) -> Result<Vec<Wanted>, Fault>
        ensures each { IfOk result (λ wanted. (w : Wanted) → Contains wanted.items w
            ↔ IsWanted self.now.tallies w) }
        ensures pages { IfOk result (λ wanted. All (λ w. w.page < length self.now.tallies)
            wanted.items) }
        ensures slots { IfOk result (λ wanted. All (λ w. w.slot < SLOTS) wanted.items) }
        // Before the first is fetched, the pages hold everything except these.
        ensures begun { IfOk result (λ wanted. (whole : History) (images : List Page)
            → HoldAllBut whole self.now.tallies wanted.items images images) }
        ensures rising { IfOk result (λ wanted. IsNonDecreasingBy (λ w. w.lsn) wanted.items) }
        ensures err { IsOkUnless result NoResource }
    {
        let mut wanted = Vec::new(alloc);
        for number in 0..self.tallies.len() {
            self.tallies.want(number, &mut wanted)?;
        }
        by_lsn(alloc, wanted)
    }

    /// Sets the PageLSN of each page. Its slots hold what was fetched.
    pub fn finish<P: Pages>(self, pages: &mut P)
        requires { P.count pages.old ≡ length self.tallies }
        ensures count { P.count pages.new ≡ P.count pages.old }
        ensures numbered { StayNumbered P.Pages pages.old pages.new }
        // If all that is wanted up to the LSN of the scan was fetched, each page is finished.
        ensures each { (whole : History) (rest : List Wanted) (images stored : List Page)
            → AreNumbered images → ShowAllBut P.Pages whole self.tallies rest images stored pages.old
            → All (λ w. self.upto < w.lsn) rest
            → ShowFinished P.Pages whole self.tallies images stored pages.new }
    {
        let TallyScan {
            tallies,
            redo_lsn: _,
            base: _,
            upto: _,
        } = self;
        set_page_lsns(&tallies, pages);
    }
}
