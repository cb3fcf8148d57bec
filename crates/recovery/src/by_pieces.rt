//! What is made of a log and a store that are read in pieces, before any of it is written: in memory
//! is what the recovery appends, and what changes in the pages of the store.

ghost use Rattle.std.specs.Prelude.{◌≡◌, ◌≤◌, length, IfOk, IfErr, OnOk};
ghost use Rattle.std.specs.Io.KnownBytes.{Keeps};
ghost use Rattle.page.specs.declared.fault.Fault.TheVariants.{ReadLog};
ghost use Rattle.page.specs.Lsns.{AreLsnsOf, SpellsLsns};
ghost use Rattle.changes.specs.Numbered.{StayNumbered};
ghost use Rattle.page.specs.declared.profile.TheConstants.{PAGES};
ghost use Rattle.device.specs.Reread.{IsReadThrough};
ghost use Rattle.device.specs.Rereading.{StaysRead};
ghost use Rattle.restart.specs.declared.options.Options.{Options};
ghost use Rattle.restart.specs.Options.{AreInRange};
ghost use Rattle.recovery.specs.ByPieces.{AreFew, AreMade, Continues, ContinuesLawful, ForLawfulTexts, HasSums, IfMeasured, IfRead, IsCauseOf, IsCauseOn, IsFileOf, IsLogRead, IsMadeLawful, IsMadeOf, IsMadeRead, IsOfLog, MeasuresLog, OnceLogRead, StoreFails, TextsCause};
ghost use Rattle.recovery.specs.Devices.{IsOfNoSink, IsResourceOrDevice, OnceRead};
ghost use Rattle.recovery.specs.declared.store_pieces.TheConstants.{PIECE};
ghost use Rattle.recovery.specs.declared.log_again.TheConstants.{ROOM};
ghost use Rattle.recovery.specs.Copying.{IsOfRereading};
ghost use Rattle.recovery.specs.Calls.{Blames};
ghost use Rattle.recovery.specs.StoreChanges.{DecodesLsns};
ghost use Rattle.std.specs.Option.{ForSome};

use crate::Report;
use crate::first_reading::{check_log, read_store_first};
use crate::log_again::{fault_after, sum_of_cut, sum_of_kept};
use crate::recovery::{frames_of, report_on};
use crate::tail_file::TailFile;
use changes::{Changes, Pages};
use device::{Reread, Share};
use page::{Fault, StoreLsns};
use passes::{Restarted, restart_in_pieces};
use std::alloc::Global;
use std::thread::Threads;
use undo::{Looked, Place};

/// What is made of a log before any of it is written, while the pages of a store are changed.
#[derive(Drop)]
pub struct Continuation {
    /// How many bytes the log has.
    pub length: u64,
    /// How many of them are kept.
    pub kept: u64,
    /// The frames of the records appended: the rest of the new log.
    pub frames: Vec<u8>,
    pub report: Report,
}

impl Continuation {
    /// The file of the tail, by which this log can be continued again. Its two sums are taken of what
    /// the log's device holds: these bytes are read once more, and the fault is `BadLsn` with an
    /// offset if it no longer holds them.
    pub fn measure_tail<L: Reread>(&self, log: &mut L, room: &mut [u8]) -> Result<TailFile, Fault>
        requires { length room.old ≡ ROOM }
        ensures is { IfOk result (IsFileOf self.now) }
        ensures sums { IfOk result (λ file. IfMeasured (L.text log.old) self.now
            (HasSums self.now file)) }
        ensures fault { IfErr result (λ e. IfMeasured (L.text log.old) self.now
            (λ _. e ≡ ReadLog)) }
        ensures named { IfErr result IsOfRereading }
        ensures grows { StaysRead L.text L.read_to log.old log.new }
        ensures cause { Blames ReadLog L.failures log.old log.new result }
    {
        let end = sum_of_kept(log, self.kept, room)?;
        let cut = sum_of_cut(log, self.kept, self.length, room)?;
        Ok(TailFile {
            length: self.length,
            kept: self.kept,
            end,
            cut,
            frames: &self.frames,
        })
    }
}

/// What is made of a log and a store before any of it is written.
#[derive(Drop)]
pub struct Made {
    /// What is made of the log.
    pub log: Continuation,
    /// The master of the store.
    pub master: u64,
    /// What changes in its pages.
    pub changes: Changes,
}

/// What is made of the log that a device holds and of the pages of a store with this master. The
/// pages are in memory, or their changes are; they are changed to those of the new store. The
/// faults of the log come first, then those of a restart. After an error the pages are not
/// specified. This many workers may read the log the first time.
pub fn continue_on<R: Threads + Sync, L: Share, P: Pages>(
    rt: &R,
    alloc: Global,
    log: &mut L,
    master: u64,
    pages: &mut P,
    room: &mut [u8],
    workers: u32,
) -> Result<Continuation, Fault>
    requires { length room.old ≡ ROOM }
    ensures lawful { ContinuesLawful P.Pages (L.text log.old) master pages.old pages.new result }
    ensures answer { IfOk result
        (Continues P.Pages (L.text log.old) master pages.old pages.new) }
    ensures measured { IfOk result (λ x. ForSome (L.text log.old) (λ text. MeasuresLog text x)) }
    ensures numbered { OnOk result (StayNumbered P.Pages pages.old pages.new) }
    ensures fault { IfErr result (IsCauseOn P.Pages (L.text log.old) master pages.old) }
    ensures same { OnOk result (Keeps (L.text log.old) (L.text log.new)) }
    ensures end { OnOk result (IsReadThrough (L.text log.old) (L.read_to log.new)) }
    ensures read { IfErr result
        (OnceLogRead (IsLogRead (L.text log.old) (L.read_to log.new))) }
    ensures named { IfErr result IsOfLog }
    ensures cause { Blames ReadLog L.failures log.old log.new result }
{
    let Restarted {
        kept,
        torn,
        gathered,
        redo_from,
        redone,
        outcome,
    } = match restart_in_pieces(rt, alloc, log, room, workers, master, pages) {
        Ok(restarted) => restarted,
        Err(stopped) => return Err(fault_after(log, stopped, room)),
    };
    let Some(length) = kept.checked_add(torn as u64) else {
        // No log has this many bytes.
        return Err(Fault::NoResource);
    };
    let looked = Looked {
        place: Place::Gathered(&gathered),
    };
    let frames = frames_of(alloc, &looked, &outcome.appended)?;
    let report = report_on(&looked, torn, pages.len(), redo_from, redone, outcome);
    Ok(Continuation {
        length,
        kept,
        frames,
        report,
    })
}

/// What is made of the log that a device holds and of a store that has this master and these
/// PageLSNs. The faults of the log come first, then those of a restart.
fn make_from<R: Threads + Sync, L: Share>(
    rt: &R,
    alloc: Global,
    log: &mut L,
    store: StoreLsns,
    room: &mut [u8],
    workers: u32,
) -> Result<Made, Fault>
    requires { length room.old ≡ ROOM }
    ensures lawful { IsMadeLawful (L.text log.old) (λ _ before. AreLsnsOf before store) result }
    ensures answer { IfOk result
        (IsMadeOf (L.text log.old) (λ before. AreLsnsOf before store)) }
    ensures measured { IfOk result (λ x. ForSome (L.text log.old)
        (λ text. MeasuresLog text x.log)) }
    ensures few { IfOk result (AreFew (λ text. SpellsLsns text store)) }
    ensures fault { IfErr result (IsCauseOf (L.text log.old) (λ text. SpellsLsns text store)) }
    ensures same { OnOk result (Keeps (L.text log.old) (L.text log.new)) }
    ensures end { OnOk result (IsReadThrough (L.text log.old) (L.read_to log.new)) }
    ensures read { IfErr result
        (OnceLogRead (IsLogRead (L.text log.old) (L.read_to log.new))) }
    ensures named { IfErr result IsOfLog }
    ensures cause { Blames ReadLog L.failures log.old log.new result }
{
    let StoreLsns { master, lsns } = store;
    let mut changes = Changes::begin(alloc, lsns)?;
    let log = continue_on(rt, alloc, log, master, &mut changes, room, workers)?;
    Ok(Made {
        log,
        master,
        changes,
    })
}

/// What is made of the log that a device holds and of a store, if the store's bytes encode one.
/// Otherwise the error is the fault of the log, if it has one, and then that of the store.
fn make<R: Threads + Sync, L: Share>(
    rt: &R,
    alloc: Global,
    log: &mut L,
    decoded: Result<StoreLsns, Fault>,
    room: &mut [u8],
    workers: u32,
) -> Result<Made, Fault>
    requires { length room.old ≡ ROOM }
    ensures lawful { IsMadeLawful (L.text log.old) (λ store _. DecodesLsns store decoded)
        result }
    ensures answer { IfOk result (IsMadeRead (L.text log.old) decoded) }
    ensures measured { IfOk result (λ x. ForSome (L.text log.old)
        (λ text. MeasuresLog text x.log)) }
    ensures few { IfOk result (AreFew (λ text. DecodesLsns text decoded)) }
    ensures fault { IfErr result (IsCauseOf (L.text log.old) (λ text. DecodesLsns text decoded)) }
    ensures same { OnOk result (Keeps (L.text log.old) (L.text log.new)) }
    ensures end { OnOk result (IsReadThrough (L.text log.old) (L.read_to log.new)) }
    ensures read { IfErr result
        (OnceLogRead (IsLogRead (L.text log.old) (L.read_to log.new))) }
    ensures named { IfErr result (λ e. IfRead decoded (IsOfLog e)) }
    ensures cause { IfRead decoded (Blames ReadLog L.failures log.old log.new result) }
{
    match decoded {
        Ok(store) => make_from(rt, alloc, log, store, room, workers),
        Err(fault) => {
            check_log(alloc, log, room)?;
            Err(fault)
        }
    }
}

/// Reads a store and its log, and returns what is made of them. The store is read first, from its
/// beginning to its end, then the log, as often as needed. Nothing is written.
///
/// A failure of the log's device comes before all other faults but `NoResource`: before one of those
/// is returned, the log is read to its end, and if it fails there, the fault is `ReadLog`. Then
/// come `ReadStore`, if the store's device failed, the faults of the log, those of the store, and
/// those of a restart.
pub fn read_and_make<R: Threads + Sync, L: Share, S: Reread>(
    rt: &R,
    alloc: Global,
    log: &mut L,
    store: &mut S,
    room: &mut [u8],
    pieces: &mut [u8],
    workers: u32,
) -> Result<Made, Fault>
    requires room { length room.old ≡ ROOM }
    requires pieces { length pieces.old ≡ PIECE }
    ensures answer { IfOk result (AreMade (L.text log.old) (S.text store.old)) }
    ensures few { IfOk result (λ x. length x.changes ≤ PAGES) }
    ensures lawful { IfErr result (λ e. ForLawfulTexts (L.text log.old) (S.text store.old)
        (IsResourceOrDevice e)) }
    ensures cause { IfErr result (λ e. (options : Options) → AreInRange options
        → TextsCause (L.text log.old) (S.text store.old) options e) }
    ensures named { IfErr result IsOfNoSink }
    ensures log_same { OnOk result (Keeps (L.text log.old) (L.text log.new)) }
    ensures store_same { OnOk result (Keeps (S.text store.old) (S.text store.new)) }
    ensures log_end { OnOk result (IsReadThrough (L.text log.old) (L.read_to log.new)) }
    ensures store_end { OnOk result (IsReadThrough (S.text store.old) (S.read_to store.new)) }
    ensures read_to_end { IfErr result
        (OnceRead (IsReadThrough (S.text store.old) (S.read_to store.new))) }
    ensures log_read { IfErr result
        (OnceLogRead (IsLogRead (L.text log.old) (L.read_to log.new))) }
    ensures log_source { Blames ReadLog L.failures log.old log.new result }
    ensures store_source { StoreFails result (S.failures store.old) (S.failures store.new) }
{
    let decoded = read_store_first(alloc, log, store, room, pieces)?;
    make(rt, alloc, log, decoded.store, room, workers)
}
