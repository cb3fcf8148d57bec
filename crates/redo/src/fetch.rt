//! The images of the records that the pages want, fetched while a log is read in pieces.

ghost use Rattle.std.specs.Prelude.{◌≡◌, ℕ, ◌<◌, ◌≤◌, List, All, length, take, drop, slice_set, slice_index_or, IfOk, OnOk, IsOkUnless};
ghost use Rattle.std.specs.List.Sorted.{IsNonDecreasingBy};
ghost use Rattle.page.specs.declared.fault.Fault.TheVariants.{NoResource};
ghost use Rattle.page.specs.declared.page.Page.{Page};
ghost use Rattle.page.specs.declared.profile.TheConstants.{SLOTS};
ghost use Rattle.log_laws.specs.Records.{History, history, last_lsn};
ghost use Rattle.changes.specs.Changes.{page_lsn};
ghost use Rattle.changes.specs.Numbered.{StayNumbered};
ghost use Rattle.tables.specs.Pieces.{IsPieceOf};
ghost use Rattle.redo.specs.Wanted.{IsWanted, AreAhead, ShowAllBut, ShowLsns};
ghost use Rattle.redo.specs.declared.tally.Tally.{Tally};

use crate::tally_table::TallyTable;
use crate::wanted::Wanted;
use changes::Pages;
use page::Fault;
use wal::Log;

/// Puts the images of the wanted records up to the last LSN of a piece into their slots. These
/// records are at the front of the list, which is in ascending order of LSN. Returns how many there
/// are. Pass the rest of the list with the next piece. The only error is `NoResource`.
pub fn fetch_from<P: Pages>(piece: &Log, wanted: &[Wanted], pages: &mut P) -> Result<usize, Fault>
    requires pages { All (λ w. w.page < P.count pages.old) wanted.now }
    requires slots { All (λ w. w.slot < SLOTS) wanted.now }
    ensures within { IfOk result (λ taken. taken ≤ length wanted.now) }
    ensures count { P.count pages.new ≡ P.count pages.old }
    ensures taken { IfOk result (λ taken. All (λ w. w.lsn ≤ last_lsn (history piece.now))
        (take taken wanted.now)) }
    ensures rest { IfOk result (λ taken. IsNonDecreasingBy (λ w. w.lsn) wanted.now
        → All (λ w. last_lsn (history piece.now) < w.lsn) (drop taken wanted.now)) }
    // For each log that the piece can be of: what is left is still to be fetched.
    ensures fetched { IfOk result (λ taken. (whole : History) (tallies : List Tally)
        (images stored : List Page) → IsPieceOf whole (history piece.now)
        → All (IsWanted tallies) wanted.now → AreAhead whole (history piece.now) wanted.now
        → ShowAllBut P.Pages whole tallies wanted.now images stored pages.old
        → ShowAllBut P.Pages whole tallies (drop taken wanted.now) images stored pages.new) }
    ensures numbered { OnOk result (StayNumbered P.Pages pages.old pages.new) }
    ensures err { IsOkUnless result NoResource }
{
    let last = piece.last();
    for (taken, record) in wanted.iter().enumerate() {
        if record.lsn > last {
            return Ok(taken);
        }
        let image = piece.image(record.lsn);
        pages.put(
            record.page as usize,
            record.slot as usize,
            image,
            record.lsn,
        )?;
    }
    Ok(wanted.len())
}

/// Sets the PageLSN of a page to that of its tally.
fn set_page_lsn<P: Pages>(tallies: &TallyTable, number: usize, pages: &mut P)
    requires page { number < P.count pages.old }
    requires tally { number < length tallies.now }
    ensures count { P.count pages.new ≡ P.count pages.old }
    ensures set { (stored shown : List Page) (d : Page) (t : Tally)
        → P.shows pages.old stored shown → P.shows pages.new stored (slice_set shown number
        (page_lsn (slice_index_or tallies.now number t).lsn (slice_index_or shown number d))) }
    ensures numbered { StayNumbered P.Pages pages.old pages.new }
    ensures slots { (stored shown : List Page) (d : Page) → P.shows pages.old stored shown
        → length (slice_index_or shown number d).slots ≡ SLOTS }
    ensures lasts { (t : Tally) → length (slice_index_or tallies.now number t).lasts ≡ SLOTS }
{
    pages.set_lsn(number, tallies.lsn(number));
}

/// Sets the PageLSNs of pages to those of their tallies.
pub fn set_page_lsns<P: Pages>(tallies: &TallyTable, pages: &mut P)
    requires { P.count pages.old ≡ length tallies.now }
    ensures count { P.count pages.new ≡ P.count pages.old }
    ensures set { (stored shown : List Page) → P.shows pages.old stored shown
        → ShowLsns P.Pages tallies.now (length tallies.now) stored shown pages.new }
    ensures numbered { StayNumbered P.Pages pages.old pages.new }
    ensures lasts { (k : ℕ) (t : Tally) → k < length tallies.now
        → length (slice_index_or tallies.now k t).lasts ≡ SLOTS }
{
    for number in 0..tallies.len() {
        set_page_lsn(tallies, number, pages);
    }
}
