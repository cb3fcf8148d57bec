//! Recovery with a few pieces of the log and one of the store in memory: both are read, the new log
//! is written, and then the new store.

ghost use Rattle.std.specs.Prelude.{◌≡◌, ◌⊎◌, IfOk, IfErr, OnOk, Err};
ghost use Rattle.page.specs.declared.fault.Fault.{Fault};
ghost use Rattle.page.specs.declared.fault.Fault.TheVariants.{ReadLog, WriteLog, WriteStore};
ghost use Rattle.device.specs.Reread.{IsReadThrough};
ghost use Rattle.restart.specs.Options.{OptionsFault};
ghost use Rattle.recovery.specs.ByPieces.{ForBytes, ForTexts, IsLogRead, LogComesFirst, StoreFails, TextsCause};
ghost use Rattle.recovery.specs.Calls.{Blames, IsStored};
ghost use Rattle.recovery.specs.Devices.{ForLawful, OnceRead, UnlessDevice};
ghost use Rattle.recovery.specs.NewLogs.{AreCompleted, AreDelivered, AreLeft, AreWritten, ForCutOf, IsGuarded, IsLogOut, IsResumable};

use crate::Report;
use crate::by_pieces::read_and_make;
use crate::log_again::room_for_log;
use crate::new_log::NewLog;
use crate::store_changes::write_changed;
use crate::store_pieces::room_for_pieces;
use device::{Reread, Share, Sink};
use page::Fault;
use restart::{Options, check_options};
use std::alloc::Global;
use std::thread::Threads;

/// Recovers as [`recover`](crate::recover) does, but without the log or the store in memory. In
/// memory are 256 KiB of the log, the records that undo needs, 64 images of pages, 12 bytes for each
/// page, the tallies of redo, and the values that change. What is written does not depend on that,
/// nor on the options.
///
/// A log without a checkpoint is read the first time by the workers of the options. Each of them
/// gets at least 1 MiB of the log, and at most 8 MiB at once. It has in memory a room of 256 KiB,
/// 40 bytes for each page, 128 more for each page that a record there is applied to, and 4 for each
/// transaction that finishes there. The thread of the caller does all else.
///
/// `store` is read at offsets, first from its beginning to its end. Then `log` is read at offsets,
/// in pieces, from its beginning to its end and then as often as needed. A failure of `log`
/// comes before all other faults of reading but `NoResource`: before one of those is returned, `log`
/// is read to its end, and if it fails there, the fault is `ReadLog`.
///
/// Then the new log is written, and flushed: by a [`CopiedLog`](crate::CopiedLog) to a sink, by a
/// [`ContinuedLog`](crate::ContinuedLog) in place. It is the log without its torn tail, and the
/// records that the recovery appends. Then `store` is read once more, a piece at a time, while the
/// new store is written to `out_store`, which is flushed. The image of a page that no record is on
/// passes from the old store to the new one as bytes. A [`MemorySource`](device::MemorySource)
/// cannot fail then.
///
/// No one else may write the log or the store during the call. Otherwise a copy may differ from
/// what was read, or the fault may be one that they never had: `BadLsn` with an offset, if bytes of
/// the log are gone; `StoreSize` or `BadPage`, if those of the store are.
///
/// The errors are, in this order: [`Fault::BadWorkers`] and [`Fault::BadParting`], if the options
/// are out of their ranges; [`Fault::ReadLog`], if `log` failed, which may also come later;
/// [`Fault::ReadStore`], if `store` failed, which may also come last; the faults of
/// [`wal::read_log`] for the log; those of [`page::decode_store`] for the store; those of
/// [`restart`](restart::restart) from [`Fault::PageAheadOfLog`] on; [`Fault::WriteLog`], if a device
/// of `new_log` failed; [`Fault::WriteStore`], if `out_store` failed. [`Fault::NoResource`] may come
/// instead of any other result up to the first write: memory was refused, or an LSN of the log or
/// an offset in it is above 2^63 - 1.
///
/// After `WriteLog` nothing of the new store is written. A copy is then a prefix of the new log. In
/// place there is a prefix of the file of the tail, and the log is as it was; or that file is whole
/// and flushed, and the log is cut and continued by a prefix of what is appended. After
/// `WriteStore` the new log is written and flushed, and a prefix of the new store is written. After
/// `ReadLog` nothing is written, or, if `log` failed while it was copied, the same as after
/// `WriteLog`. After `ReadStore` nothing is written, or, if `store` failed when it was read once
/// more, the same as after `WriteStore`. A fault of bytes that are gone leaves what a failure at
/// that place leaves. After any other fault nothing is written.
///
/// If the log and the store were lawful, a recovery of the new log, as far as it is written, and of
/// the old store then ends as this one would have. A copy must have all that was read except the
/// torn tail for that.
pub fn recover_in_pieces<R: Threads + Sync, LR: Share, SR: Reread, N: NewLog, SW: Sink>(
    rt: &R,
    alloc: Global,
    log: &mut LR,
    store: &mut SR,
    new_log: &mut N,
    out_store: &mut SW,
    options: &Options,
) -> Result<Report, Fault>
    // For the bytes of a log and its store that are lawful over any base pages: both are written,
    // and a fault is a lack of memory or a device's.
    ensures lawful { ForLawful (LR.text log.old) (SR.text store.old) options.now (λ x. UnlessDevice
        result (AreDelivered N.NewLog new_log.old new_log.new SW.Sink out_store.old out_store.new
        x)) }

    // For what an interrupted restart of them may leave: what that restart would have written is
    // written.
    ensures interrupted { ForCutOf (LR.text log.old) (SR.text store.old) options.now
        (λ read x. UnlessDevice result (λ _. AreCompleted N.NewLog new_log.old new_log.new
        SW.Sink out_store.old out_store.new read x)) }

    // After a fault what is written of the new log, with the store that was read, is such bytes, if
    // a copy has all that is kept.
    ensures resumable { ForLawful (LR.text log.old) (SR.text store.old) options.now
        (λ x. IfErr result (λ e. (new_log.new ≡ new_log.old)
        ⊎ IsResumable N.NewLog new_log.old new_log.new x e)) }

    // On success.
    ensures answer { IfOk result (ForTexts (LR.text log.old) (SR.text store.old)
        (AreWritten N.NewLog new_log.old new_log.new SW.Sink out_store.old out_store.new)) }
    ensures options { (e : Fault) → OptionsFault options.now e → result ≡ Err e }

    // On an error, its condition holds, and this is what is left after it.
    ensures cause { IfErr result (TextsCause (LR.text log.old) (SR.text store.old) options.now) }
    ensures left { IfErr result (ForTexts (LR.text log.old) (SR.text store.old)
        (AreLeft N.NewLog new_log.old new_log.new SW.Sink out_store.old out_store.new)) }

    // On success both are flushed.
    ensures log_flushed { OnOk result (N.flushed new_log.old new_log.new) }
    ensures store_flushed { OnOk result (IsStored SW.Sink out_store.old out_store.new) }

    // The store and the log are read to their ends before anything is written, and the new log is
    // written and flushed before the store's sink is touched. A log in place is guarded before it is
    // changed.
    ensures log_read_first { ((new_log.new ≡ new_log.old) × (out_store.new ≡ out_store.old))
        ⊎ IsReadThrough (LR.text log.old) (LR.read_to log.new) }
    ensures read_first { ((new_log.new ≡ new_log.old) × (out_store.new ≡ out_store.old))
        ⊎ IsReadThrough (SR.text store.old) (SR.read_to store.new) }
    ensures guarded { (new_log.new ≡ new_log.old) ⊎ N.guarded new_log.old new_log.new }
    ensures guarded_first { ForBytes (LR.text log.old) (SR.text store.old) (λ log_held store_held.
        (new_log.new ≡ new_log.old)
        ⊎ IsGuarded N.NewLog new_log.old new_log.new log_held store_held) }
    ensures flushed_first { (out_store.new ≡ out_store.old)
        ⊎ N.flushed new_log.old new_log.new }
    ensures log_out_first { ForBytes (LR.text log.old) (SR.text store.old) (λ log_held store_held.
        (out_store.new ≡ out_store.old)
        ⊎ IsLogOut N.NewLog new_log.old new_log.new log_held store_held) }

    // A fault of what was read, or of writing, comes after the store was read to its end. Each fault
    // but those of the options, `ReadLog` and `NoResource` comes after the log was.
    ensures read_to_end { IfErr result
        (OnceRead (IsReadThrough (SR.text store.old) (SR.read_to store.new))) }
    ensures log_read { IfErr result
        (LogComesFirst (IsLogRead (LR.text log.old) (LR.read_to log.new))) }

    // A fault names a device if that device failed, and only then. If both sources failed, it names
    // the log's.
    ensures log_source { Blames ReadLog LR.failures log.old log.new result }
    ensures store_source { StoreFails result (SR.failures store.old) (SR.failures store.new) }
    ensures log_sink { Blames WriteLog N.failures new_log.old new_log.new result }
    ensures store_sink { Blames WriteStore SW.failures out_store.old out_store.new result }
{
    check_options(options)?;
    let mut room = room_for_log(alloc)?;
    let mut pieces = room_for_pieces(alloc)?;
    let workers = options.workers;
    let made = read_and_make(rt, alloc, log, store, &mut room, &mut pieces, workers)?;
    new_log.write(log, &made.log, &mut room)?;
    write_changed(store, out_store, made.master, &made.changes, &mut pieces)?;
    Ok(made.log.report)
}
