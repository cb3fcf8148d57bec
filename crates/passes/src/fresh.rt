//! One forward reading of a log without a checkpoint: its marks, the tables of analysis and the
//! tallies of redo.

ghost use Rattle.std.specs.Prelude.{◌≡◌, ◌+◌, ◌≤◌, ◌<◌, ◌^◌, length, IfOk, IfErr, OnOk, Some, None, IsOkUnless};
ghost use Rattle.device.specs.Reread.{IsReadThrough};
ghost use Rattle.page.specs.declared.fault.Fault.TheVariants.{NoResource};
ghost use Rattle.wal.specs.declared.sizes.TheConstants.{LARGEST_BASE};
ghost use Rattle.analysis.specs.Fresh.{AreFreshTables, ForFound};
ghost use Rattle.analysis.specs.Passing.{HasNone0, AreWithout0};
ghost use Rattle.redo.specs.Routes.{IsSeen};
ghost use Rattle.passes.specs.Listing.{TalliesNext, HasBegun, ScansOn, HasFreshTables, BeginsTallies, AreTalliedIn, AreRefused};
ghost use Rattle.passes.specs.Calls.{IsRoom, HasRead, ForLog, FindsMarks, TextCause};

use crate::find::begin_marks;
use crate::pass::Pass;
use crate::read_on::{Reading, read_to_end};
use crate::rounds::read_by_workers;
use crate::{Marks, PassFault};
use analysis::FreshScan;
use changes::Pages;
use device::Share;
use page::Fault;
use redo::TallyScan;
use std::alloc::Global;
use std::thread::Threads;
use tables::Tables;
use wal::Glance;

/// Analysis and redo while a log without a checkpoint is read.
#[derive(Drop)]
pub struct ForwardScan {
    /// What the records so far do to the transaction table, and where redo begins.
    pub tables: FreshScan,
    /// The tallies of all pages, unless redo had a fault.
    pub tallies: TallyScan,
    /// The fault of redo: its record is on a page that the store lacks, or memory was refused.
    pub fault: Option<Fault>,
}

/// The scan before the first record of a log with this base LSN. The only error is `NoResource`.
fn begin_scan<P: Pages>(alloc: Global, pages: &P, base: u64) -> Result<ForwardScan, Fault>
    requires { base ≤ LARGEST_BASE }
    ensures analysed { IfOk result (λ scan. HasBegun scan.tables) }
    ensures tallied { IfOk result (BeginsTallies P.Pages pages.now base) }
    ensures upto { IfOk result (λ scan. scan.tallies.upto ≡ base) }
    ensures count { IfOk result (λ scan. length scan.tallies.tallies ≡ P.count pages.now) }
    ensures no_transaction_0 { IfOk result (λ scan. HasNone0 scan.tables.entries) }
    ensures err { IsOkUnless result NoResource }
{
    // Redo treats each page as dirty, so analysis need not list them.
    let tallies = TallyScan::begin_listed(alloc, pages, base + 1, base)?;
    Ok(ForwardScan {
        tables: FreshScan::begin(alloc),
        tallies,
        fault: None,
    })
}

/// Counts the record after an LSN for redo, unless redo had a fault before. The record is given at a
/// glance. Returns the first fault of redo: a record is on a page that the store lacks, or memory
/// was refused.
#[inline(always)]
fn tally_next(
    tallies: &mut TallyScan,
    fault: Option<Fault>,
    glance: Glance,
    lsn: u64,
) -> Option<Fault>
    requires seen { IsSeen glance }
    requires upto { tallies.old.upto ≤ lsn }
    requires room { lsn + 1 < 2 ^ 64 }
    ensures tallied { TalliesNext lsn glance fault result tallies.old tallies.new }
    ensures upto { tallies.new.upto ≤ lsn + 1 }
    ensures count { length tallies.new.tallies ≡ length tallies.old.tallies }
{
    if fault.is_some() {
        return fault;
    }
    match tallies.take(lsn, glance) {
        Ok(()) => None,
        Err(fault) => Some(fault),
    }
}

impl Pass for ForwardScan {
    ghost use Rattle.std.proofs.Common.{refl, ◌∙◌};

    ghost is_ready = { λ scan lsn. scan.tallies.upto ≤ lsn };

    ghost passes = { ScansOn };

    ghost keeps = { λ old new. (length new.tallies.tallies ≡ length old.tallies.tallies)
        × (HasNone0 old.tables.entries → HasNone0 new.tables.entries) };

    ghost stops = { λ scan whole before e. e ≡ NoResource };

    ghost may_stop = { λ e. e ≡ NoResource };

    ghost begins = { λ scan whole before. (λ found. found, λ images tallied. tallied) };

    ghost goes_on = { λ old now new whole before between after one more. (
      λ found. more.0 (one.0 found),
      λ images tallied. more.1 images (one.1 images tallied),
    ) };

    ghost begins_same = { λ scan. (refl, λ none. none) };

    ghost stays_same = { λ old now new one more. (more.0 ∙ one.0, λ none. more.1 (one.1 none)) };

    ghost stops_later = { λ old now whole before between e one later. later };

    ghost stops_for_memory = { λ scan whole before. refl };

    #[inline(always)]
    fn look_at(&mut self, lsn: u64, glance: Glance, _body: &[u8]) -> Result<(), Fault> {
        self.tables.take(lsn, glance)?;
        self.fault = tally_next(&mut self.tallies, self.fault, glance, lsn);
        Ok(())
    }

    fn is_done(&self) -> bool {
        false
    }
}

/// The tables at the end of the log, without the dirty pages; and the tallies, or the fault of redo.
/// The only error is `NoResource`.
fn finish_scan(
    alloc: Global,
    scan: ForwardScan,
) -> Result<(Tables, Result<TallyScan, Fault>), Fault>
    ensures tables { IfOk result (λ x. ForFound scan.tables (λ log. AreFreshTables log x.0)) }
    ensures no_transaction_0 { HasNone0 scan.tables.entries → IfOk result (λ x. AreWithout0 x.0) }
    ensures tallies { IfOk result (λ x. IfOk x.1 (λ all. (scan.fault ≡ None)
        × (all ≡ scan.tallies))) }
    ensures refused { IfOk result (λ x. IfErr x.1 (λ e. scan.fault ≡ Some e)) }
    ensures err { IsOkUnless result NoResource }
{
    let ForwardScan {
        tables,
        tallies,
        fault,
    } = scan;
    let tables = tables.finish(alloc)?;
    match fault {
        None => Ok((tables, Ok(tallies))),
        Some(fault) => Ok((tables, Err(fault))),
    }
}

/// The result of one forward reading of a log without a checkpoint.
#[derive(Drop)]
pub struct ForwardReading {
    /// The marks of the log.
    pub marks: Marks,
    /// How many bytes are torn at the log's end.
    pub torn: usize,
    /// The tables of the crash. They list no dirty page: redo has treated each page as dirty.
    pub tables: Tables,
    /// The tallies of redo at the log's end, or the fault of redo: `NoSuchPage` with the LSN of the
    /// first record on a page that the store lacks, or `NoResource` if memory was refused.
    pub tallies: Result<TallyScan, Fault>,
}

/// Reads the log that a source holds from its beginning to its end, each piece once: for its marks,
/// for analysis without a checkpoint, and for redo of the pages of a store. The pages are in memory,
/// or their changes are. Most of it is read by this many workers, if it is long enough for two of
/// them; the rest by the caller, into the room.
///
/// Errors are those of [`find_marks`](crate::find_marks).
pub fn read_forward<R: Threads + Sync, S: Share, P: Pages>(
    rt: &R,
    alloc: Global,
    source: &mut S,
    room: &mut [u8],
    workers: u32,
    pages: &P,
) -> Result<ForwardReading, PassFault>
    requires room { IsRoom (length room.old) }
    ensures found { IfOk result (λ x. FindsMarks (S.text source.old) (length room.old)
        x.marks x.torn) }
    ensures tables { IfOk result (HasFreshTables (S.text source.old)) }
    ensures no_transaction_0 { IfOk result (λ x. AreWithout0 x.tables) }
    ensures tallied { IfOk result (AreTalliedIn P.Pages (S.text source.old) pages.now) }
    ensures count { IfOk result (λ x. IfOk x.tallies (λ all. length all.tallies
        ≡ P.count pages.now)) }
    ensures refused { IfOk result (AreRefused P.Pages (S.text source.old) pages.now) }
    ensures read { OnOk result (IsReadThrough (S.text source.old) (S.read_to source.new)) }
    ensures fault { IfErr result (TextCause (S.text source.old)) }
    ensures source { HasRead S.text S.failures S.read_to source.old source.new result }
{
    let marks = begin_marks(alloc, source, room)?;
    let pass = begin_scan(alloc, pages, marks.end().lsn)?;
    let mut scan = Reading { marks, pass };
    read_by_workers(rt, alloc, source, &mut scan, room, workers, pages)?;
    let torn = read_to_end(source, &mut scan, room)?;
    let Reading { marks, pass } = scan;
    let (tables, tallies) = finish_scan(alloc, pass)?;
    Ok(ForwardReading {
        marks,
        torn,
        tables,
        tallies,
    })
}
