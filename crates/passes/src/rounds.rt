//! The first reading of a log without a checkpoint by several workers: in rounds of stretches, of
//! which each worker reads one, and which are then joined in the order of the log.

ghost use Rattle.std.specs.Prelude.{◌≡◌, ◌≤◌, ◌<◌, ◌+◌, ◌-◌, ◌^◌, List, [], ◌∷◌, ◌++◌, All, length, IfOk, IfErr, OnOk, IfSome, Some, IsOkUnless};
ghost use Rattle.page.specs.declared.fault.Fault.TheVariants.{NoResource};
ghost use Rattle.device.specs.Shared.{CountsSpan};
ghost use Rattle.redo.specs.declared.rounds.TheConstants.{WORKERS};
ghost use Rattle.passes.specs.declared.rounds.TheConstants.{LARGEST_SHARE, LEAST_SHARE};
ghost use Rattle.passes.specs.Calls.{IsRoom, HasRead, HasReadOn};
ghost use Rattle.passes.specs.Marks.{AreInReach, IsLow, IsResource};
ghost use Rattle.passes.specs.ReadOn.{KeepsMarks, IsReadyAfter, ReadsOn, JoinsMarks, StopsOnLog};
ghost use Rattle.passes.specs.Stretches.{IsFit, IsFitIn, IfRead, AreFit, ForEachRead, IsFoundOf, SpansMarks};
ghost use Rattle.passes.specs.Stretches.{JoinsScan, JoinsTallies, KeepsScan, KeepsJoined, BeginsAtLast};
ghost use Rattle.passes.specs.Stretches.{HasJoined, JoinsFound, JoinsStretch, JoinsEach, Spans};
ghost use Rattle.passes.specs.Stretches.{FindsBetween, ReadsShown};

use crate::PassFault;
use crate::fresh::ForwardScan;
use crate::marks::is_low;
use crate::read_on::{Reading, read_to_border};
use crate::stretch::{Stretch, StretchPass, read_stretches, stretches_at};
use changes::Pages;
use device::{Reread, Share, Span, read_full_at};
use page::Fault;
use pieces::Mark;
use redo::{TallyScan, WORKERS};
use std::alloc::Global;
use std::thread::Threads;
use wal::guess;

/// The least bytes of a log that a worker gets: starting a thread for fewer takes longer than it
/// saves.
const LEAST_SHARE: u64 = 1 << 20;

/// How many bytes the tallies of a stretch take for each page of the store.
const TALLY_BYTES: u64 = 40;

/// The most bytes of a log that a worker gets in a round. A transaction that finishes in a stretch
/// takes 4 bytes, and at least 50 of the log: so they take less than 1 MB.
const LARGEST_SHARE: u64 = 8 << 20;

/// How many bytes are read to guess where a frame begins.
const GUESSED: usize = 1 << 16;

/// The mark before the first record that seems to begin at an offset or soon after it. Nothing if
/// none does. The only error is `Failed`.
fn guess_mark<S: Reread>(
    source: &mut S,
    offset: u64,
    room: &mut [u8],
) -> Result<Option<Mark>, PassFault>
    requires room { IsRoom (length room.old) }
    requires reach { offset < 2 ^ 63 + 2 ^ 40 }
    ensures low { IfOk result (λ found. IfSome found IsLow) }
    ensures room { length room.new ≡ length room.old }
    ensures fault { IfErr result IsResource }
    ensures source { HasRead S.text S.failures S.read_to source.old source.new result }
{
    let most = room.len().min(GUESSED);
    let window = &mut room[..most];
    let count = read_full_at(source, offset, window)?;
    let Some((lsn, place)) = guess(&window[..count], 0, count) else {
        return Ok(None);
    };
    let mark = Mark {
        lsn: lsn.saturating_sub(1),
        offset: offset + place as u64,
    };
    if is_low(mark) {
        return Ok(Some(mark));
    }
    Ok(None)
}

/// How a round is divided.
#[derive(Clone, Copy, Debug)]
struct Round {
    /// How many workers read at once.
    workers: u64,
    /// How many bytes each gets.
    share: u64,
}

/// Adds a mark to a list. The only error is `NoResource`.
fn add_mark(list: &mut Vec<Mark>, mark: Mark) -> Result<(), Fault>
    ensures added { OnOk result (list.new.items ≡ list.old.items ++ mark ∷ []) }
    ensures err { IsOkUnless result NoResource }
{
    list.push(mark)?;
    Ok(())
}

/// The marks at which the stretches of a round begin: the mark after what was read, and then one
/// for each further share, if a record seems to begin there. Errors: `Failed`; `NoResource`.
fn guess_firsts<S: Reread>(
    alloc: Global,
    source: &mut S,
    from: Mark,
    round: Round,
    room: &mut [u8],
) -> Result<Vec<Mark>, PassFault>
    requires room { IsRoom (length room.old) }
    requires from { IsLow from }
    requires workers { round.workers ≤ WORKERS }
    requires share { round.share ≤ LARGEST_SHARE }
    ensures low { IfOk result (λ firsts. All IsLow firsts.items) }
    ensures fault { IfErr result IsResource }
    ensures source { HasRead S.text S.failures S.read_to source.old source.new result }
{
    let mut firsts = Vec::new(alloc);
    add_mark(&mut firsts, from)?;
    for number in 1..round.workers {
        let guessed = guess_mark(source, from.offset + round.share * number, room)?;
        if let Some(mark) = guessed {
            add_mark(&mut firsts, mark)?;
        }
    }
    Ok(firsts)
}

/// Joins the tallies of a stretch to those before it, unless redo had a fault before. Returns the
/// fault of redo: that one, or `NoResource` if memory is refused now.
fn join_tallies(tallies: &mut TallyScan, fault: Option<Fault>, later: TallyScan) -> Option<Fault>
    requires pages { length later.tallies ≡ length tallies.old.tallies }
    requires upto { tallies.old.upto ≤ later.base }
    ensures joined { JoinsTallies later fault result tallies.old tallies.new }
    ensures upto { tallies.new.upto ≤ later.upto }
    ensures count { length tallies.new.tallies ≡ length tallies.old.tallies }
{
    if fault.is_some() {
        return fault;
    }
    match tallies.join(&later) {
        Ok(()) => None,
        Err(fault) => Some(fault),
    }
}

/// Adds what was found in a stretch to what was found before it. The only error is `NoResource`.
fn join_scan(scan: &mut ForwardScan, later: StretchPass) -> Result<(), Fault>
    requires pages { length later.tallies.tallies ≡ length scan.old.tallies.tallies }
    requires upto { scan.old.tallies.upto ≤ later.tallies.base }
    ensures joined { OnOk result (JoinsScan later scan.old scan.new) }
    ensures upto { OnOk result (scan.new.tallies.upto ≤ later.tallies.upto) }
    ensures keeps { OnOk result (KeepsJoined later scan.old scan.new) }
    ensures err { IsOkUnless result NoResource }
{
    let StretchPass { tables, tallies } = later;
    scan.tables.join(tables)?;
    scan.fault = join_tallies(&mut scan.tallies, scan.fault, tallies);
    Ok(())
}

/// Joins a stretch to what was read before it; its worker has read this span. The only error is
/// `NoResource`.
fn join_stretch<S: Share>(
    source: &mut S,
    scan: &mut Reading<ForwardScan>,
    found: Stretch,
    span: Span,
) -> Result<(), Fault>
    requires fit { IsFit (length scan.old.pass.tallies.tallies) found }
    requires read { found.span ≡ Some span }
    requires ready { IsReadyAfter (λ x lsn. x.tallies.upto ≤ lsn) scan.old }
    requires some { 0 < length scan.old.marks }
    requires next { BeginsAtLast scan.old.marks found.reading.marks }
    ensures ready { OnOk result (IsReadyAfter (λ x lsn. x.tallies.upto ≤ lsn) scan.new) }
    ensures keeps { OnOk result (KeepsScan scan.old.pass scan.new.pass) }
    ensures marks { OnOk result (HasJoined found.reading.marks scan.old.marks scan.new.marks) }
    ensures analysed { OnOk result (JoinsFound (S.text source.old) found scan.old scan.new) }
    ensures passed { OnOk result (JoinsStretch (S.text source.old) found scan.old scan.new) }
    ensures reach { OnOk result (CountsSpan S.text S.read_to source.old source.new span) }
    ensures source { HasReadOn S.text S.failures S.read_to source.old source.new }
    ensures err { IsOkUnless result NoResource }
{
    let Stretch { reading, .. } = found;
    scan.marks.append(&reading.marks)?;
    join_scan(&mut scan.pass, reading.pass)?;
    source.count_read(span);
    Ok(())
}

/// Leaves a stretch out.
fn leave_out(_found: Stretch) {}

/// Takes the next stretch as its worker has read it, if it has and if the first mark is the last one
/// that is known. Otherwise it is read here, up to its border.
///
/// Errors are those of [`read_to_border`].
fn take_stretch<S: Share>(
    source: &mut S,
    scan: &mut Reading<ForwardScan>,
    room: &mut [u8],
    found: Stretch,
) -> Result<(), PassFault>
    requires room { IsRoom (length room.old) }
    requires fit { IfRead (IsFitIn (length room.old) (length scan.old.pass.tallies.tallies))
        found }
    requires ready { IsReadyAfter (λ x lsn. x.tallies.upto ≤ lsn) scan.old }
    ensures ready { OnOk result (IsReadyAfter (λ x lsn. x.tallies.upto ≤ lsn) scan.new) }
    ensures keeps { OnOk result (KeepsScan scan.old.pass scan.new.pass) }
    ensures marks { OnOk result (KeepsMarks (length room.old) scan.old.marks scan.new.marks) }
    ensures analysed { OnOk result (JoinsFound (S.text source.old) found scan.old scan.new) }
    ensures passed { OnOk result (JoinsStretch (S.text source.old) found scan.old scan.new) }
    ensures reach { OnOk result (Spans S.text S.read_to source.old source.new found
        scan.old scan.new) }
    ensures fault { IfErr result (StopsOnLog (S.text source.old) scan.old.marks) }
    ensures source { HasRead S.text S.failures S.read_to source.old source.new result }
{
    if let Some(span) = found.span {
        if found.reading.marks.first() == scan.marks.end() {
            join_stretch(source, scan, found, span)?;
            return Ok(());
        }
    }
    let border = found.border;
    leave_out(found);
    read_to_border(source, scan, border, room)
}

/// Takes the stretches of a round, in the order of the log. Errors are those of [`take_stretch`].
fn take_all<S: Share>(
    source: &mut S,
    scan: &mut Reading<ForwardScan>,
    room: &mut [u8],
    stretches: Vec<Stretch>,
) -> Result<(), PassFault>
    requires room { IsRoom (length room.old) }
    requires fit { AreFit (length room.old) (length scan.old.pass.tallies.tallies)
        stretches.items }
    requires found { ForEachRead (IsFoundOf (S.text source.old)) stretches.items }
    requires span { All (SpansMarks (S.text source.old)) stretches.items }
    requires ready { IsReadyAfter (λ x lsn. x.tallies.upto ≤ lsn) scan.old }
    ensures ready { OnOk result (IsReadyAfter (λ x lsn. x.tallies.upto ≤ lsn) scan.new) }
    ensures keeps { OnOk result (KeepsScan scan.old.pass scan.new.pass) }
    ensures marks { OnOk result (KeepsMarks (length room.old) scan.old.marks scan.new.marks) }
    ensures analysed { OnOk result (ReadsOn FindsBetween (S.text source.old) scan.old scan.new) }
    ensures passed { OnOk result (JoinsEach (S.text source.old) stretches.items
        scan.old scan.new) }
    ensures reach { OnOk result (JoinsMarks S.text S.read_to source.old source.new scan.old scan.new) }
    ensures fault { IfErr result (StopsOnLog (S.text source.old) scan.old.marks) }
    ensures source { HasRead S.text S.failures S.read_to source.old source.new result }
{
    for stretch in stretches {
        take_stretch(source, scan, room, stretch)?;
    }
    Ok(())
}

/// Reads the stretches of a round, each by a worker, and joins them.
///
/// Errors are those of [`read_by_workers`].
fn read_round<R: Threads + Sync, S: Share, P: Pages>(
    rt: &R,
    alloc: Global,
    source: &mut S,
    scan: &mut Reading<ForwardScan>,
    room: &mut [u8],
    round: Round,
    pages: &P,
) -> Result<(), PassFault>
    requires room { IsRoom (length room.old) }
    requires workers { round.workers ≤ WORKERS }
    requires share { round.share ≤ LARGEST_SHARE }
    requires pages { length scan.old.pass.tallies.tallies ≡ P.count pages.now }
    requires ready { IsReadyAfter (λ x lsn. x.tallies.upto ≤ lsn) scan.old }
    ensures ready { OnOk result (IsReadyAfter (λ x lsn. x.tallies.upto ≤ lsn) scan.new) }
    ensures keeps { OnOk result (KeepsScan scan.old.pass scan.new.pass) }
    ensures marks { OnOk result (KeepsMarks (length room.old) scan.old.marks scan.new.marks) }
    ensures analysed { OnOk result (ReadsOn FindsBetween (S.text source.old) scan.old scan.new) }
    ensures passed { OnOk result (ReadsShown P.Pages pages.now (S.text source.old)
        scan.old scan.new) }
    ensures reach { OnOk result (JoinsMarks S.text S.read_to source.old source.new scan.old scan.new) }
    ensures fault { IfErr result (StopsOnLog (S.text source.old) scan.old.marks) }
    ensures source { HasRead S.text S.failures S.read_to source.old source.new result }
{
    let from = scan.marks.end();
    let firsts = guess_firsts(alloc, source, from, round, room)?;
    let end = from.offset + round.share * round.workers;
    let mut stretches = stretches_at(alloc, pages, &firsts, end)?;
    read_stretches(rt, alloc, source.shared(), room.len(), &mut stretches);
    take_all(source, scan, room, stretches)
}

/// The least bytes of a log that a worker gets, if the store has this many pages: as many as its
/// tallies of them take, so that to begin and join them takes less than to read the stretch.
fn least_share(pages: usize) -> u64
    ensures { LEAST_SHARE ≤ result }
{
    LEAST_SHARE.max(TALLY_BYTES.saturating_mul(pages as u64))
}

/// Reads a log without a checkpoint on, from the last mark, by this many workers: each reads a
/// stretch of at least 1 MiB in a thread of its own, with a reader and a room of its own, and
/// returns what it found in it. With more than 26,214 pages a stretch has at least 40 bytes for
/// each, and with more than 209,715 the caller reads all. The stretches are joined in the order of the log. A stretch that
/// does not begin where the one before it ends is read by the caller, and so is one whose worker
/// found a fault. So all errors are those of one reader. What is left after the last round is not
/// read: it is too short for two workers, or the log ends or has a fault in it.
///
/// Errors: `Failed` if the source failed; the first error of [`read_log`](wal::read_log) for the
/// log; `NoResource` if memory was refused, or if a mark's LSN or its offset is above 2^63 - 1.
pub fn read_by_workers<R: Threads + Sync, S: Share, P: Pages>(
    rt: &R,
    alloc: Global,
    source: &mut S,
    scan: &mut Reading<ForwardScan>,
    room: &mut [u8],
    workers: u32,
    pages: &P,
) -> Result<(), PassFault>
    requires room { IsRoom (length room.old) }
    requires pages { length scan.old.pass.tallies.tallies ≡ P.count pages.now }
    requires ready { IsReadyAfter (λ x lsn. x.tallies.upto ≤ lsn) scan.old }
    ensures ready { OnOk result (IsReadyAfter (λ x lsn. x.tallies.upto ≤ lsn) scan.new) }
    ensures keeps { OnOk result (KeepsScan scan.old.pass scan.new.pass) }
    ensures marks { OnOk result (KeepsMarks (length room.old) scan.old.marks scan.new.marks) }
    ensures analysed { OnOk result (ReadsOn FindsBetween (S.text source.old) scan.old scan.new) }
    ensures passed { OnOk result (ReadsShown P.Pages pages.now (S.text source.old)
        scan.old scan.new) }
    ensures reach { OnOk result (JoinsMarks S.text S.read_to source.old source.new scan.old scan.new) }
    ensures fault { IfErr result (StopsOnLog (S.text source.old) scan.old.marks) }
    ensures source { HasRead S.text S.failures S.read_to source.old source.new result }
{
    let length = source.hint() as u64;
    let most = WORKERS.min(workers) as u64;
    let least = least_share(pages.len());
    for _ in 0..u64::MAX {
        let from = scan.marks.end().offset;
        let left = length.saturating_sub(from);
        let workers = most.min(left / least);
        if workers < 2 || least > LARGEST_SHARE {
            return Ok(());
        }
        let share = LARGEST_SHARE.min(left / workers);
        let round = Round { workers, share };
        read_round(rt, alloc, source, scan, room, round, pages)?;
        if scan.marks.end().offset < from + share * workers {
            return Ok(());
        }
    }
    // No log has 2^64 - 1 rounds.
    Err(PassFault::Fault(Fault::NoResource))
}
