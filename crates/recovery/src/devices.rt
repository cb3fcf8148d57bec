//! Recovery over devices: the log and the store are read to their ends, the new ones are made in
//! memory, and then written, the log first. The store is read and written piece by piece.

ghost use Rattle.std.specs.Prelude.{◌≡◌, ◌≢◌, ◌⊎◌, ◌++◌, length, IfOk, IfErr, OnOk, OnErr, Err};
ghost use Rattle.std.specs.Io.KnownBytes.{IsAtEnd};
ghost use Rattle.page.specs.declared.fault.Fault.{Fault};
ghost use Rattle.page.specs.declared.fault.Fault.TheVariants.{NoResource, ReadLog, ReadStore, WriteLog, WriteStore};
ghost use Rattle.device.specs.Failures.{Counts};
ghost use Rattle.page.specs.File.{store_text};
ghost use Rattle.recovery.specs.declared.store_pieces.TheConstants.{PIECE};
ghost use Rattle.restart.specs.Options.{AreInRange, OptionsFault};
ghost use Rattle.recovery.specs.Devices.{Gave, IsFaultOf, AreOut, AreRemade, DeviceCause, Completes, Delivers, ForCut, ForLawful, IsOfNoSink, IsOut, LeavesCut, LeavesRemade, LogIsOut, NewLogIsOut, OnceRead, RemakesFor, UnlessDevice, Writes};
ghost use Rattle.recovery.specs.Calls.{AreAtEnd, Blames, IsStored, Began};

use crate::Report;
use crate::decoding::decode_both;
use crate::log_bytes::LogBytes;
use crate::log_text::{LogText, read_log_text};
use crate::recovery::{Remade, remake};
use crate::store_pieces::{room_for_pieces, write_store};
use device::{Failed, ReadFault, Sink, Source, read_all, write_all};
use page::Fault;
use redo::Gate;
use restart::{Options, check_options};
use std::alloc::Global;
use std::thread::Threads;

/// All bytes that a source has left. If it fails the fault is `failed`.
pub fn read_source<S: Source>(
    alloc: Global,
    source: &mut S,
    failed: Fault,
) -> Result<Vec<u8>, Fault>
    requires { failed ≢ NoResource }
    ensures gave { IfOk result (λ bytes. Gave (S.left source.old) bytes.items) }
    ensures end { OnOk result (IsAtEnd (S.left source.new)) }
    ensures fault { IfErr result (IsFaultOf failed) }
    ensures cause { Blames failed S.failures source.old source.new result }
{
    match read_all(alloc, source) {
        Ok(bytes) => Ok(bytes),
        Err(ReadFault::Failed) => Err(failed),
        Err(ReadFault::NoMemory) => Err(Fault::NoResource),
    }
}

/// Writes a log and flushes it: what is kept of the log that was read, followed by the frames
/// appended.
fn write_log<S: Sink>(sink: &mut S, kept: &LogBytes, frames: &[u8]) -> Result<(), Failed>
    ensures all { OnOk result (AreOut S.Sink sink.old sink.new (kept.now ++ frames.now)) }
    ensures beginning { OnErr result (Began S.Sink sink.old sink.new (kept.now ++ frames.now)) }
    ensures cause { Counts (S.failures sink.old) (S.failures sink.new) result }
{
    kept.write(sink)?;
    write_all(sink, frames)?;
    sink.flush()
}

/// Writes the new log, and then the new store. Each is whole and flushed before the next step.
fn write_both<L: Sink, S: Sink>(
    log: &mut L,
    store: &mut S,
    kept: &LogBytes,
    remade: &Remade,
    room: &mut [u8],
) -> Result<(), Fault>
    requires { length room.old ≡ PIECE }
    ensures log_out { OnOk result (LogIsOut L.Sink log.old log.new kept.now remade.now) }
    ensures store_out { OnOk result (AreOut S.Sink store.old store.new
        (store_text remade.now.store)) }
    ensures log_first { (store.new ≡ store.old) ⊎ LogIsOut L.Sink log.old log.new kept.now
        remade.now }
    ensures fault { IfErr result
        (LeavesRemade L.Sink log.old log.new S.Sink store.old store.new kept.now remade.now) }
    ensures log_sink { Blames WriteLog L.failures log.old log.new result }
    ensures store_sink { Blames WriteStore S.failures store.old store.new result }
{
    match write_log(log, kept, &remade.frames) {
        Ok(()) => match write_store(store, &remade.store, room) {
            Ok(()) => Ok(()),
            Err(Failed) => Err(Fault::WriteStore),
        },
        Err(Failed) => Err(Fault::WriteLog),
    }
}

/// Reads a log and a store to their ends, the log first. Returns the bytes of the log, and what a
/// restart makes of both: nothing of it is written yet.
///
/// The errors are those of [`recover`], except those of the options and of the sinks.
fn read_and_remake<LR: Source, SR: Source, G: Gate, R: Threads + Sync>(
    rt: &R,
    alloc: Global,
    log: &mut LR,
    store: &mut SR,
    options: &Options,
    gate: &G,
    room: &mut [u8],
) -> Result<(LogText, Remade), Fault>
    requires range { AreInRange options.now }
    requires room { length room.old ≡ PIECE }
    ensures lawful { ForLawful (LR.left log.old) (SR.left store.old) options.now
        (RemakesFor result) }
    ensures made { IfOk result (AreRemade (LR.left log.old) (SR.left store.old)) }
    ensures cause { IfErr result (DeviceCause (LR.left log.old) (SR.left store.old) options.now) }
    ensures no_sink { IfErr result IsOfNoSink }
    ensures end { OnOk result (AreAtEnd (LR.left log.new) (SR.left store.new)) }
    ensures read_to_ends { IfErr result
        (OnceRead (AreAtEnd (LR.left log.new) (SR.left store.new))) }
    ensures log_read_first { (store.new ≡ store.old) ⊎ IsAtEnd (LR.left log.new) }
    ensures log_unread { result ≡ Err ReadLog → store.new ≡ store.old }
    ensures log_source { Blames ReadLog LR.failures log.old log.new result }
    ensures store_source { Blames ReadStore SR.failures store.old store.new result }
{
    let workers = options.workers;
    let (text, known) = read_log_text(rt, alloc, log, workers)?;
    let (records, decoded) = decode_both(rt, alloc, &text, known, workers, store, room);
    let decoded = decoded?;
    let remade = remake(rt, alloc, records, decoded.store, options, gate)?;
    Ok((text, remade))
}

/// Recovers a store from a log. Reads both devices to their ends, and makes the result in memory
/// with [`restart`](restart::restart), with the pages divided by number. Then writes and flushes
/// the new log, and then the new store. Returns the report.
///
/// The new log is the log that was read without its torn tail, followed by the records that the
/// restart appends. What is written does not depend on the options or the gate. For a lawful log
/// and its store the new log is the log and its tail. Each page of the new store has what the
/// updates and compensations of the committed and in-doubt transactions, in LSN order, make of the
/// base page, which is empty or what the page held before the log's first record. A recovery of
/// these bytes writes them again. An interrupted recovery leaves a prefix of the new log and pages
/// of which some are new; from these a recovery writes what the first would have written.
///
/// The errors are, in this order: [`Fault::BadWorkers`] and [`Fault::BadParting`] for options out
/// of their ranges; [`Fault::ReadLog`] and [`Fault::ReadStore`] if a source failed; the faults of
/// [`wal::read_log`] for the log, of [`page::decode_store`] for the store, and of
/// [`restart`](restart::restart); [`Fault::WriteLog`] and [`Fault::WriteStore`] if a sink failed,
/// at a write or its flush. [`Fault::NoResource`], if memory or a thread was refused, may come
/// instead of any of these up to the first write. Both sources are read to their ends before an
/// error of their bytes is returned. After a store's first error only a piece of it is kept in
/// memory.
///
/// After `WriteLog` a prefix of the new log is written and nothing of the store. After `WriteStore`
/// the new log is written and flushed, and a prefix of the new store is written. After any other
/// fault nothing is written. For a lawful log and its store, the log that was written can be
/// recovered with the old store, to the same end, if it begins with all that was read except the
/// torn tail.
pub fn recover<LR: Source, SR: Source, LW: Sink, SW: Sink, G: Gate, R: Threads + Sync>(
    rt: &R,
    alloc: Global,
    log: &mut LR,
    store: &mut SR,
    out_log: &mut LW,
    out_store: &mut SW,
    options: &Options,
    gate: &G,
) -> Result<Report, Fault>
    // For the bytes of a log and its store that are lawful over any base pages: both are written,
    // and a fault is a lack of memory or a device's.
    ensures lawful { ForLawful (LR.left log.old) (SR.left store.old) options.now (λ x. UnlessDevice
        result (Delivers LW.Sink out_log.old out_log.new SW.Sink out_store.old out_store.new x)) }

    // For what an interrupted restart of them may leave: what that restart would have written is
    // written.
    ensures interrupted { ForCut (LR.left log.old) (SR.left store.old) options.now
        (λ x. UnlessDevice result (λ _. Completes LW.Sink out_log.old out_log.new
        SW.Sink out_store.old out_store.new x)) }

    // After a fault of a sink, what is written of the new log, with the store that was read, is
    // such bytes.
    ensures resumable { ForLawful (LR.left log.old) (SR.left store.old) options.now
        (λ x. IfErr result (LeavesCut LW.Sink out_log.old out_log.new x)) }

    // On success.
    ensures answer { IfOk result (Writes LW.Sink out_log.old out_log.new
        SW.Sink out_store.old out_store.new (LR.left log.old) (SR.left store.old)) }
    ensures options { (e : Fault) → OptionsFault options.now e → result ≡ Err e }

    // On an error, its condition holds, and this is what is written after it.
    ensures cause { IfErr result (DeviceCause (LR.left log.old) (SR.left store.old) options.now) }
    ensures out { IfErr result (IsOut LW.Sink out_log.old out_log.new
        SW.Sink out_store.old out_store.new (LR.left log.old) (SR.left store.old)) }

    // On success both are flushed.
    ensures log_flushed { OnOk result (IsStored LW.Sink out_log.old out_log.new) }
    ensures store_flushed { OnOk result (IsStored SW.Sink out_store.old out_store.new) }

    // The log is at its end before the store's source is touched, both are before a sink is, and
    // the new log is written and flushed before the store's sink is touched.
    ensures log_read_first { (store.new ≡ store.old) ⊎ IsAtEnd (LR.left log.new) }
    ensures log_unread { result ≡ Err ReadLog → store.new ≡ store.old }
    ensures read_first { ((out_log.new ≡ out_log.old) × (out_store.new ≡ out_store.old))
        ⊎ AreAtEnd (LR.left log.new) (SR.left store.new) }
    ensures log_out_first { (out_store.new ≡ out_store.old)
        ⊎ NewLogIsOut (LR.left log.old) (SR.left store.old) LW.Sink out_log.old out_log.new }

    // A fault of what was read, or of writing, comes after both sources were read to their ends.
    ensures read_to_ends { IfErr result
        (OnceRead (AreAtEnd (LR.left log.new) (SR.left store.new))) }

    // A fault names a device if that device failed, and only then.
    ensures log_source { Blames ReadLog LR.failures log.old log.new result }
    ensures store_source { Blames ReadStore SR.failures store.old store.new result }
    ensures log_sink { Blames WriteLog LW.failures out_log.old out_log.new result }
    ensures store_sink { Blames WriteStore SW.failures out_store.old out_store.new result }
{
    check_options(options)?;
    let mut room = room_for_pieces(alloc)?;
    let (text, remade) = read_and_remake(rt, alloc, log, store, options, gate, &mut room)?;
    let kept = LogBytes::kept_of(&text, &remade);
    write_both(out_log, out_store, &kept, &remade, &mut room)?;
    Ok(remade.report)
}
