//! Pages into which values are put, in memory or not.

ghost use Rattle.std.specs.Prelude.{◌≡◌, ℕ, ◌<◌, List, OnOk, IsOkUnless, length, slice_index_or, slice_set};
ghost use Rattle.page.specs.declared.fault.Fault.TheVariants.{NoResource};
ghost use Rattle.page.specs.declared.page.Page.{Page};
ghost use Rattle.page.specs.declared.profile.TheConstants.{SLOTS};
ghost use Rattle.changes.specs.Changes.{page_put, page_lsn};
ghost use Rattle.changes.specs.Pages.{ShowsPages, ShowsChanges};

use crate::Changes;
use crate::parts::count_slots;
use page::{Fault, Page, Value};

/// The pages of a store while a restart changes them: the pages themselves, or only their changes.
/// Contracts see which pages it shows, given the pages that are in the store.
pub trait Pages {
    /// How many pages there are.
    ghost count: { Self → ℕ };

    /// If the first list is the pages in the store, it shows the second.
    ghost shows: { Self → List Page → List Page → Type 0 };

    /// How many pages there are.
    fn len(&self) -> usize
        ensures { result ≡ count self.now };

    /// The PageLSN of a page.
    fn lsn(&self, page: usize) -> u64
        requires { page < count self.now }
        ensures lsn { (stored shown : List Page) (d : Page) → shows self.now stored shown
            → result ≡ (slice_index_or shown page d).lsn }
        ensures wide { (stored shown : List Page) (d : Page) → shows self.now stored shown
            → length (slice_index_or shown page d).slots ≡ SLOTS };

    /// Takes memory for values that will be put into this many slots, so that it is taken once. The
    /// only error is `NoResource`. The pages stay the same.
    fn reserve(&mut self, slots: usize) -> Result<(), Fault>
        ensures count { count self.new ≡ count self.old }
        ensures same { (given shown : List Page) → shows self.old given shown
            → shows self.new given shown }
        ensures err { IsOkUnless result NoResource };

    /// Puts a value into a slot of a page, or makes the slot absent, as the record at this LSN did.
    /// The PageLSN becomes this LSN. The only error is `NoResource`; nothing has changed then.
    fn put(&mut self, page: usize, slot: usize, value: Option<Value>, lsn: u64) -> Result<(), Fault>
        requires page { page < count self.old }
        requires slot { slot < SLOTS }
        ensures count { count self.new ≡ count self.old }
        ensures put { OnOk result ((stored shown : List Page) (d : Page)
            → shows self.old stored shown → shows self.new stored (slice_set shown page
            (page_put slot lsn value (slice_index_or shown page d)))) }
        ensures wide { (stored shown : List Page) (d : Page) → shows self.old stored shown
            → length (slice_index_or shown page d).slots ≡ SLOTS }
        ensures err { IsOkUnless result NoResource };

    /// Sets the PageLSN of a page.
    fn set_lsn(&mut self, page: usize, lsn: u64)
        requires { page < count self.old }
        ensures count { count self.new ≡ count self.old }
        ensures set { (stored shown : List Page) (d : Page)
            → shows self.old stored shown → shows self.new stored (slice_set shown page
            (page_lsn lsn (slice_index_or shown page d))) }
        ensures wide { (stored shown : List Page) (d : Page) → shows self.old stored shown
            → length (slice_index_or shown page d).slots ≡ SLOTS };

    /// The pages that it shows are as many.
    ghost counted: { (pages : Self) (stored shown : List Page) → shows pages stored shown
        → length shown ≡ count pages };
}

impl Pages for Vec<Page> {
    ghost use Rattle.std.proofs.Common.{ap};

    ghost count = { λ pages. length pages.items };

    ghost shows = { λ pages. ShowsPages pages.items };

    ghost counted = { λ pages stored shown same. ap length same };

    fn len(&self) -> usize {
        Vec::len(self)
    }

    fn reserve(&mut self, _slots: usize) -> Result<(), Fault> {
        Ok(())
    }

    fn put(
        &mut self,
        page: usize,
        slot: usize,
        value: Option<Value>,
        lsn: u64,
    ) -> Result<(), Fault> {
        // For the proof: how many slots a page has.
        let _slots = count_slots(&self[page].slots);
        self[page].set(slot, value, lsn);
        Ok(())
    }

    fn lsn(&self, page: usize) -> u64 {
        // For the proof: how many slots a page has.
        let _slots = count_slots(&self[page].slots);
        self[page].lsn
    }

    fn set_lsn(&mut self, page: usize, lsn: u64) {
        // For the proof: how many slots a page has.
        let _slots = count_slots(&self[page].slots);
        self[page].lsn = lsn;
    }
}

impl Pages for Changes {
    ghost use Rattle.std.proofs.Common.{◌∙◌, sym};

    ghost count = { length };

    ghost shows = { ShowsChanges };

    ghost counted = { λ changes stored shown s. s.changed.count ∙ sym s.count };

    fn len(&self) -> usize {
        Changes::len(self)
    }

    fn reserve(&mut self, slots: usize) -> Result<(), Fault> {
        Changes::reserve(self, slots)
    }

    fn put(
        &mut self,
        page: usize,
        slot: usize,
        value: Option<Value>,
        lsn: u64,
    ) -> Result<(), Fault> {
        Changes::put(self, page, slot, value, lsn)
    }

    fn lsn(&self, page: usize) -> u64 {
        Changes::lsn(self, page)
    }

    fn set_lsn(&mut self, page: usize, lsn: u64) {
        Changes::set_lsn(self, page, lsn)
    }
}
