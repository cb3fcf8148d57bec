//! What an engine writes of a log: its header, and the frames of its records.

ghost use Rattle.std.specs.Prelude.{◌≡◌, ◌<◌, IfOk, IfErr};
ghost use Rattle.wal.specs.Spelling.{Fits, frame};
ghost use Rattle.wal.specs.Content.{content};
ghost use Rattle.aries_c.specs.Fault.{IsMemoryOrNotWritable, OnDone, OnFailed, OnNoRoom, OnOtherFailure, OnNotWritable};
ghost use Rattle.aries_c.specs.LogHeader.{IsLogHeader};
ghost use Rattle.aries_c.specs.Record.{IsFrame};
ghost use Rattle.aries_c.specs.Tables.{IsEndFrame, WritesEnd, LacksEndRoom, HasNoEndFrame};
ghost use Rattle.aries_c.specs.Writing.{Wrote, LacksRoom, IsAnswer, IsAnswerOrMemory, HasNoText};

use crate::checkpoint::{dirty_named, entries_named};
use crate::frames::put_record;
use crate::record::with_spelling;
use crate::room::put;
use crate::{DirtyPage, Entry, Fault, Record};
use std::alloc::Global;
use wal::{LARGEST_BASE, based_header, plain_header, write_frame};

/// Writes the header of a log to the front of a buffer, and its length in bytes to `told`: 8 for
/// version 1, with base LSN 0; 16 for version 2, with a base LSN of at most 2^63 - 1.
///
/// Faults, by number: 65 (not writable), for any other version or base LSN; `told` stays as it was.
/// 64 (no room), if the buffer is too short; `told` gets the length all the same.
#[unsafe(no_mangle)]
pub extern "C" fn aries_write_log_header(
    version: u32,
    base_lsn: u64,
    out: &mut [u8],
    told: &mut usize,
) -> Fault
    ensures written { OnDone result
        (Wrote (IsLogHeader version base_lsn) out.old out.new told.new) }
    ensures no_room { OnNoRoom result (LacksRoom (IsLogHeader version base_lsn) out.old told.new) }
    ensures not_writable { OnNotWritable result (HasNoText (IsLogHeader version base_lsn)) }
    ensures answer { IsAnswer result }
    ensures kept { OnFailed result (out.new ≡ out.old) }
    ensures untold { OnNotWritable result (told.new ≡ told.old) }
{
    match version {
        1 if base_lsn == 0 => put(&plain_header(), out, told),
        2 if base_lsn <= LARGEST_BASE => put(&based_header(base_lsn), out, told),
        _ => Fault::not_writable(),
    }
}

/// The frame of a record at its LSN.
fn frame_of(alloc: Global, logged: &wal::Record, lsn: u64) -> Result<Vec<u8>, Fault>
    requires { Fits (content logged.now) }
    ensures found { IfOk result (λ text. text.items ≡ frame (content logged.now) lsn) }
    ensures lsn { IfOk result (λ _. 0 < lsn) }
    ensures err { IfErr result (IsMemoryOrNotWritable (lsn ≡ 0)) }
{
    if lsn == 0 {
        return Err(Fault::not_writable());
    }
    let mut frame = Vec::new(alloc);
    write_frame(logged, lsn, &mut frame)?;
    Ok(frame)
}

/// Writes the frame of a record, at its LSN, to the front of a buffer: any record but a checkpoint
/// end. 65: it has no encoding; 64: the buffer is too short. Nothing is allocated.
#[unsafe(no_mangle)]
pub extern "C" fn aries_write_record(named: &Record, out: &mut [u8], told: &mut usize) -> Fault
    ensures written { OnDone result (Wrote (IsFrame named.now) out.old out.new told.new) }
    ensures no_room { OnNoRoom result (LacksRoom (IsFrame named.now) out.old told.new) }
    ensures not_writable { OnNotWritable result (HasNoText (IsFrame named.now)) }
    ensures answer { IsAnswer result }
    ensures kept { OnFailed result (out.new ≡ out.old) }
    ensures untold { OnOtherFailure result (told.new ≡ told.old) }
{
    if named.lsn == 0 {
        return Fault::not_writable();
    }
    match named.writable() {
        Ok(record) => put_record(&record, named.lsn, out, told),
        Err(fault) => fault,
    }
}

/// The frame of the checkpoint end with the tables that C gives.
fn end_frame(
    alloc: Global,
    lsn: u64,
    begin: u64,
    entries: &[Entry],
    dirty: &[DirtyPage],
) -> Result<Vec<u8>, Fault>
    ensures found { IfOk result (λ text.
        IsEndFrame lsn begin entries.now dirty.now text.items) }
    ensures err { IfErr result
        (IsMemoryOrNotWritable (HasNoEndFrame lsn begin entries.now dirty.now)) }
{
    let end = wal::Record::CheckpointEnd {
        begin,
        transactions: entries_named(alloc, entries)?,
        dirty: dirty_named(alloc, dirty)?,
    };
    let end = with_spelling(end)?;
    frame_of(alloc, &end, lsn)
}

/// Writes the frame of a checkpoint end, at its LSN, to the front of a buffer: the LSN of its begin
/// record, and its tables, of at most [`page::TRANSACTIONS`] and [`page::PAGES`] entries in
/// ascending order of transaction and of page. 65: it has no encoding; 64: the buffer is too short;
/// 1: memory was refused.
#[unsafe(no_mangle)]
pub extern "C" fn aries_write_checkpoint_end(
    alloc: Global,
    lsn: u64,
    begin: u64,
    transactions: &[Entry],
    dirty: &[DirtyPage],
    out: &mut [u8],
    told: &mut usize,
) -> Fault
    ensures written { WritesEnd lsn begin transactions.now dirty.now out.old out.new told.new
        result }
    ensures no_room { LacksEndRoom lsn begin transactions.now dirty.now out.old told.new result }
    ensures not_writable { OnNotWritable result
        (HasNoEndFrame lsn begin transactions.now dirty.now) }
    ensures answer { IsAnswerOrMemory result }
    ensures kept { OnFailed result (out.new ≡ out.old) }
    ensures untold { OnOtherFailure result (told.new ≡ told.old) }
{
    match end_frame(alloc, lsn, begin, transactions, dirty) {
        Ok(frame) => put(&frame, out, told),
        Err(fault) => fault,
    }
}
