//! Redo by a log that a device holds, which is read in pieces.

ghost use Rattle.std.specs.Prelude.{◌≡◌, ◌≤◌, ◌<◌, ⊤, All, length, drop, IfOk, IfErr, OnOk};
ghost use Rattle.std.specs.List.Sorted.{IsNonDecreasingBy};
ghost use Rattle.changes.specs.Numbered.{StayNumbered};
ghost use Rattle.page.specs.declared.profile.TheConstants.{SLOTS};
ghost use Rattle.passes.specs.Marks.{IsLow, IsMarkAmong};
ghost use Rattle.passes.specs.Redoing.{PrecedesRedo, TalliesOn, StopsTallying, FetchCause, Tallies, TallyCause, FetchesNext, FetchesAll, FinishesAll, RepeatsBy, RepeatsAll, RedoStops};
ghost use Rattle.passes.specs.Calls.{IsRoom, HasRead, IsResourceIn};

use crate::forward::pass_to_end;
use crate::pass::Pass;
use crate::piece::piece_up_to;
use crate::{Marks, PassFault};
use changes::Pages;
use device::Reread;
use page::Fault;
use pieces::Mark;
use redo::{TallyScan, Wanted, fetch_from};
use std::alloc::Global;
use tables::Tables;
use wal::Glance;

/// The mark from which redo reads a log: the last one before the record at `redo_lsn`, or the first
/// one if there is none before it; the mark at the log's end if `redo_lsn` is 0.
fn mark_to_begin(marks: &Marks, redo_lsn: u64) -> Mark
    ensures low { IsLow result }
    ensures is_mark { IsMarkAmong marks.now result }
    ensures before { PrecedesRedo marks.now redo_lsn result }
{
    if redo_lsn == 0 {
        return marks.end();
    }
    marks.at(marks.place_before(redo_lsn))
}

impl Pass for TallyScan {
    ghost use Rattle.std.proofs.Common.{refl, ◌∙◌};

    ghost is_ready = { λ scan lsn. scan.upto ≤ lsn };

    ghost passes = { TalliesOn };

    ghost keeps = { λ old new. length new.tallies ≡ length old.tallies };

    ghost stops = { StopsTallying };

    ghost may_stop = { λ e. ⊤ };

    ghost begins = { λ scan whole before images tables tallied. tallied };

    ghost goes_on = { λ old now new whole before between after one more images tables tallied.
        more images tables (one images tables tallied) };

    ghost begins_same = { λ scan. refl };

    ghost stays_same = { λ old now new one more. more ∙ one };

    ghost stops_later = { λ old now whole before between e one later images tables tallied.
        later images tables (one images tables tallied) };

    ghost stops_for_memory = { λ scan whole before images tables tallied. tt };

    #[inline(always)]
    fn look_at(&mut self, lsn: u64, glance: Glance, _body: &[u8]) -> Result<(), Fault> {
        self.take(lsn, glance)
    }

    fn is_done(&self) -> bool {
        false
    }
}

/// The tallies of all pages of a store at the end of the log. The log is read from `redo_lsn` on,
/// and not at all if `redo_lsn` is 0. Errors are those of [`redo_in_pieces`].
fn tally_in_pieces<S: Reread, P: Pages>(
    alloc: Global,
    source: &mut S,
    marks: &Marks,
    room: &mut [u8],
    pages: &P,
    tables: &Tables,
) -> Result<TallyScan, PassFault>
    requires room { IsRoom (length room.old) }
    ensures count { IfOk result (λ scan. length scan.tallies ≡ P.count pages.now) }
    ensures tallied { IfOk result (Tallies P.Pages (S.text source.old) marks.now
        pages.now tables.now) }
    ensures fault { IfErr result (TallyCause P.Pages (S.text source.old) marks.now
        pages.now tables.now) }
    ensures source { HasRead S.text S.failures S.read_to source.old source.new result }
{
    let end = marks.end().lsn;
    let from = mark_to_begin(marks, tables.redo_lsn);
    // There is a first mark, and no mark is before it: its LSN is the log's base LSN.
    let _count = marks.len();
    let base = marks.at(0).lsn.min(from.lsn);
    let mut scan = TallyScan::begin(alloc, pages, tables, base)?;
    pass_to_end(source, from, end, room, &mut scan)?;
    Ok(scan)
}

/// Fetches the images of the wanted records in the piece after a mark. The piece must reach at
/// least the first of them. The list is in ascending order of LSN, so they are at its front.
/// Returns how many there are. Errors are those of [`piece_up_to`], and `NoResource` if memory was
/// refused.
fn fetch_piece<S: Reread, P: Pages>(
    alloc: Global,
    source: &mut S,
    mark: Mark,
    room: &mut [u8],
    wanted: &[Wanted],
    pages: &mut P,
) -> Result<usize, PassFault>
    requires room { IsRoom (length room.old) }
    requires low { IsLow mark }
    requires some { 0 < length wanted.now }
    requires rising { IsNonDecreasingBy (λ w. w.lsn) wanted.now }
    requires pages { All (λ w. w.page < P.count pages.old) wanted.now }
    requires slots { All (λ w. w.slot < SLOTS) wanted.now }
    ensures some { IfOk result (λ taken. 0 < taken) }
    ensures within { IfOk result (λ taken. taken ≤ length wanted.now) }
    ensures count { P.count pages.new ≡ P.count pages.old }
    ensures numbered { OnOk result (StayNumbered P.Pages pages.old pages.new) }
    ensures fetched { IfOk result (FetchesNext P.Pages (S.text source.old) mark wanted.now
        pages.old pages.new) }
    ensures fault { IfErr result (FetchCause (S.text source.old) mark (length room.old) wanted.now) }
    ensures source { HasRead S.text S.failures S.read_to source.old source.new result }
{
    let piece = piece_up_to(alloc, source, mark, wanted[0].lsn, room)?;
    Ok(fetch_from(&piece, wanted, pages)?)
}

/// Fetches the images of the wanted records up to an LSN. Each piece that is read begins at the
/// last mark before the first of those that are left. The list is in ascending order of LSN, so
/// they are at its front. Returns how many there are. Errors are those of [`piece_up_to`], and
/// `NoResource` if memory was refused.
fn fetch_in_pieces<S: Reread, P: Pages>(
    alloc: Global,
    source: &mut S,
    marks: &Marks,
    room: &mut [u8],
    upto: u64,
    wanted: &[Wanted],
    pages: &mut P,
) -> Result<usize, PassFault>
    requires room { IsRoom (length room.old) }
    requires rising { IsNonDecreasingBy (λ w. w.lsn) wanted.now }
    requires pages { All (λ w. w.page < P.count pages.old) wanted.now }
    requires slots { All (λ w. w.slot < SLOTS) wanted.now }
    ensures count { P.count pages.new ≡ P.count pages.old }
    ensures numbered { OnOk result (StayNumbered P.Pages pages.old pages.new) }
    ensures rest { IfOk result (λ taken. All (λ w. upto < w.lsn) (drop taken wanted.now)) }
    ensures fetched { IfOk result (FetchesAll P.Pages (S.text source.old) marks.now wanted.now
        pages.old pages.new) }
    ensures fault { IfErr result (IsResourceIn (S.text source.old) marks.now
        (length room.old) upto) }
    ensures source { HasRead S.text S.failures S.read_to source.old source.new result }
{
    let mut taken = 0;
    while taken < wanted.len() && wanted[taken].lsn <= upto {
        let mark = marks.at(marks.place_before(wanted[taken].lsn));
        taken += fetch_piece(alloc, source, mark, room, &wanted[taken..], pages)?;
    }
    Ok(taken)
}

/// Changes the pages of a store to those that their tallies describe, with images that are read
/// once more. Errors are those of [`piece_up_to`], and `NoResource` if memory was refused.
fn finish_in_pieces<S: Reread, P: Pages>(
    alloc: Global,
    source: &mut S,
    marks: &Marks,
    room: &mut [u8],
    scan: TallyScan,
    pages: &mut P,
) -> Result<(), PassFault>
    requires room { IsRoom (length room.old) }
    requires count { P.count pages.old ≡ length scan.tallies }
    ensures numbered { OnOk result (StayNumbered P.Pages pages.old pages.new) }
    ensures each { OnOk result (FinishesAll P.Pages (S.text source.old) marks.now scan.tallies
        pages.old pages.new) }
    ensures fault { IfErr result (IsResourceIn (S.text source.old) marks.now
        (length room.old) scan.upto) }
    ensures source { HasRead S.text S.failures S.read_to source.old source.new result }
{
    let wanted = scan.wanted(alloc)?;
    pages.reserve(wanted.len())?;
    fetch_in_pieces(alloc, source, marks, room, scan.upto(), &wanted, pages)?;
    scan.finish(pages);
    Ok(())
}

/// Ends redo of a store's pages by their tallies at the end of the log that a source holds. The
/// pages are in memory, or their changes are. `marks` are the marks of the log. Returns how many
/// records redo applied.
///
/// Errors: `Failed` if the source failed; `NoResource` if memory was refused. Any other fault is
/// returned only if the source no longer holds what it held when the marks were made, or if the
/// frames from some mark to the next do not fit in the room. After an error the pages are not
/// specified.
pub fn end_redo<S: Reread, P: Pages>(
    alloc: Global,
    source: &mut S,
    marks: &Marks,
    room: &mut [u8],
    pages: &mut P,
    scan: TallyScan,
) -> Result<u64, PassFault>
    requires room { IsRoom (length room.old) }
    requires count { length scan.tallies ≡ P.count pages.old }
    ensures redone { IfOk result (RepeatsBy P.Pages (S.text source.old) marks.now scan
        pages.old pages.new) }
    ensures numbered { OnOk result (StayNumbered P.Pages pages.old pages.new) }
    ensures fault { IfErr result (IsResourceIn (S.text source.old) marks.now
        (length room.old) scan.upto) }
    ensures source { HasRead S.text S.failures S.read_to source.old source.new result }
{
    let applied = scan.applied();
    // The log's last LSN fits, and no record counts twice, so the count fits.
    let _end = marks.end();
    finish_in_pieces(alloc, source, marks, room, scan, pages)?;
    Ok(applied)
}

/// Repeats history on the pages of a store by the log that a source holds, in the thread of the
/// caller. The pages are in memory, or their changes are; they are changed in place. Returns how
/// many records redo applied. After an error the pages are not specified.
///
/// The marks are those before the pieces of the log and, last, the one at its end. Each piece is
/// read into the room. The records from `redo_lsn` on are read to find which of them each page
/// lacks, and once more if a slot needs the image of one.
///
/// Errors: `Failed` if the source failed; `NoSuchPage` with the LSN of the first record from
/// `redo_lsn` on that is on a page which the store lacks; `NoResource` if memory was refused. Any
/// other fault is returned only if the source no longer holds what it held when the marks were made,
/// or if the frames from some mark to the next do not fit in the room.
pub fn redo_in_pieces<S: Reread, P: Pages>(
    alloc: Global,
    source: &mut S,
    marks: &Marks,
    room: &mut [u8],
    pages: &mut P,
    tables: &Tables,
) -> Result<u64, PassFault>
    requires room { IsRoom (length room.old) }
    ensures redone { IfOk result (RepeatsAll P.Pages (S.text source.old) marks.now tables.now
        pages.old pages.new) }
    ensures numbered { OnOk result (StayNumbered P.Pages pages.old pages.new) }
    ensures fault { IfErr result (RedoStops P.Pages (S.text source.old) marks.now
        (length room.old) pages.old tables.now) }
    ensures source { HasRead S.text S.failures S.read_to source.old source.new result }
{
    let scan = tally_in_pieces(alloc, source, marks, room, pages, tables)?;
    end_redo(alloc, source, marks, room, pages, scan)
}
