//! A page during redo, by LSNs only: which record is the last in each of its slots.

ghost use Rattle.std.specs.Prelude.{◌≡◌, ◌+◌, ◌<◌, ◌^◌};
ghost use Rattle.log_laws.specs.Redo.{is_redone};
ghost use Rattle.redo.specs.Changes.{counted};
ghost use Rattle.redo.specs.Placed.{untouched};
ghost use Rattle.page.specs.declared.profile.TheConstants.{SLOTS};

use page::SLOTS;

/// What redo knows of a page before it fetches a value. Of all the records that it applies to a
/// slot, only the last counts.
#[derive(Clone, Copy)]
pub struct Tally {
    /// The page's number.
    pub number: u32,
    /// The page's PageLSN, as far as redo has come.
    pub lsn: u64,
    /// The page's RecLSN, None if the page is not listed as dirty.
    pub rec_lsn: Option<u64>,
    /// How many records were applied to the page.
    pub applied: u64,
    /// For each slot the LSN of the record that was applied last, 0 for none.
    pub lasts: [u64; SLOTS],
}

/// Whether redo applies the record at an LSN to a page that has this RecLSN and PageLSN.
pub fn is_redone(rec_lsn: Option<u64>, redo_lsn: u64, page_lsn: u64, lsn: u64) -> bool
    ensures { result ≡ is_redone rec_lsn redo_lsn page_lsn lsn }
{
    match rec_lsn {
        Some(rec_lsn) => rec_lsn <= lsn && redo_lsn != 0 && redo_lsn <= lsn && page_lsn < lsn,
        None => false,
    }
}

impl Tally {
    /// The tally of a page before a record is applied to it.
    pub fn begin(number: u32, lsn: u64, rec_lsn: Option<u64>) -> Tally
        ensures { result ≡ untouched number lsn rec_lsn }
    {
        Tally {
            number,
            lsn,
            rec_lsn,
            applied: 0,
            lasts: [0; SLOTS],
        }
    }

    /// Counts the record at this LSN, which is in a slot, if the page lacks it.
    pub fn count(&mut self, redo_lsn: u64, lsn: u64, slot: usize)
        requires slot { slot < SLOTS }
        requires room { self.old.applied + 1 < 2 ^ 64 }
        ensures { self.new ≡ counted redo_lsn lsn slot self.old }
    {
        if is_redone(self.rec_lsn, redo_lsn, self.lsn, lsn) {
            self.lasts[slot] = lsn;
            self.lsn = lsn;
            self.applied += 1;
        }
    }
}
