//! The new log as a copy: what is kept of the old log is read once more and written to a sink, and
//! the frames of the records appended after it. So the log is not in memory as a whole.

ghost use Rattle.std.specs.Prelude.{◌≡◌, ◌≤◌, ◌+◌, ◌^◌, length, IfErr, OnOk, OnErr, ⊤};
ghost use Rattle.std.specs.Io.KnownBytes.{Keeps};
ghost use Rattle.page.specs.declared.fault.Fault.TheVariants.{ReadLog, WriteLog};
ghost use Rattle.device.specs.Failures.{Counts};
ghost use Rattle.device.specs.Rereading.{StaysRead};
ghost use Rattle.recovery.specs.Devices.{AreOut};
ghost use Rattle.recovery.specs.Copying.{IsCopyFault, IsOfCopying, TookPart, TookPiece};
ghost use Rattle.recovery.specs.declared.log_again.TheConstants.{ROOM};
ghost use Rattle.recovery.specs.Calls.{Blames, ForKept, IsStored, Took, Began};

use crate::by_pieces::Continuation;
use crate::log_again::ROOM;
use crate::new_log::NewLog;
use crate::reading::read_from;
use device::{Failed, Reread, Sink, write_all};
use page::Fault;

/// Copies the bytes that a log's device holds from an offset on to a sink, after those that it took
/// before: as many as the room takes. `BadLsn` with the offset if the device no longer holds them
/// all.
fn copy_piece<L: Reread, S: Sink>(
    log: &mut L,
    sink: &mut S,
    offset: u64,
    room: &mut [u8],
) -> Result<(), Fault>
    requires { offset + length room.old ≤ 2 ^ 64 }
    ensures all { OnOk result
        (TookPiece (L.text log.old) offset room.old S.Sink sink.old sink.new) }
    ensures prefix { OnErr result
        (TookPart (L.text log.old) offset room.old S.Sink sink.old sink.new) }
    ensures fault { IfErr result (IsCopyFault (L.text log.old) (offset + length room.old)) }
    ensures named { IfErr result IsOfCopying }
    ensures same { Keeps (L.text log.old) (L.text log.new) }
    ensures grows { StaysRead L.text L.read_to log.old log.new }
    ensures unflushed { Keeps (S.flushed sink.old) (S.flushed sink.new) }
    ensures log_source { Blames ReadLog L.failures log.old log.new result }
    ensures log_sink { Blames WriteLog S.failures sink.old sink.new result }
{
    let count = read_from(log, offset, room, Fault::ReadLog)?;
    if count < room.len() {
        return Err(Fault::BadLsn(offset));
    }
    match write_all(sink, room) {
        Ok(()) => Ok(()),
        Err(Failed) => Err(Fault::WriteLog),
    }
}

/// Copies the first `kept` bytes that a log's device holds to a sink, a piece at a time, after
/// those that the sink took before. The sink is not flushed. `BadLsn` with an offset if the device
/// no longer holds the bytes after it.
fn copy_kept<L: Reread, S: Sink>(
    log: &mut L,
    sink: &mut S,
    kept: u64,
    room: &mut [u8],
) -> Result<(), Fault>
    requires { length room.old ≡ ROOM }
    ensures all { OnOk result (ForKept (L.text log.old) kept (Took S.Sink sink.old sink.new)) }
    ensures prefix { OnErr result (ForKept (L.text log.old) kept
        (Began S.Sink sink.old sink.new)) }
    ensures fault { IfErr result (IsCopyFault (L.text log.old) kept) }
    ensures named { IfErr result IsOfCopying }
    ensures grows { StaysRead L.text L.read_to log.old log.new }
    ensures unflushed { Keeps (S.flushed sink.old) (S.flushed sink.new) }
    ensures log_source { Blames ReadLog L.failures log.old log.new result }
    ensures log_sink { Blames WriteLog S.failures sink.old sink.new result }
{
    let mut offset: u64 = 0;
    while offset < kept {
        let wanted = (kept - offset).min(ROOM as u64) as usize;
        copy_piece(log, sink, offset, &mut room[..wanted])?;
        offset += wanted as u64;
    }
    Ok(())
}

/// Writes frames to a sink, after the bytes that it took before, and flushes it.
fn write_frames<S: Sink>(sink: &mut S, frames: &[u8]) -> Result<(), Failed>
    ensures all { OnOk result (AreOut S.Sink sink.old sink.new frames.now) }
    ensures prefix { OnErr result (Began S.Sink sink.old sink.new frames.now) }
    ensures cause { Counts (S.failures sink.old) (S.failures sink.new) result }
{
    write_all(sink, frames)?;
    sink.flush()
}

/// A new log that is copied: what is kept of the old one goes to a sink, piece by piece, and then the
/// frames, and the sink is flushed.
#[derive(Drop)]
pub struct CopiedLog<S> {
    /// The device that takes the new log.
    pub sink: S,
}

impl<S: Sink> NewLog for CopiedLog<S> {
    ghost use Rattle.std.specs.Prelude.{◌++◌, take};
    ghost use Rattle.recovery.specs.Calls.{Began, IsStored, Took};

    ghost failures = { λ x. S.failures x.sink };

    ghost holds = { λ old new log kept frames.
        Took S.Sink old.sink new.sink (take kept log ++ frames) };

    ghost leaves = { λ old new log kept frames e.
        Began S.Sink old.sink new.sink (take kept log ++ frames) };

    ghost flushed = { λ old new. IsStored S.Sink old.sink new.sink };

    ghost guarded = { λ old new. ⊤ };

    ghost guards = { λ old new log kept frames. ⊤ };

    fn write<R: Reread>(
        &mut self,
        log: &mut R,
        made: &Continuation,
        room: &mut [u8],
    ) -> Result<(), Fault> {
        copy_kept(log, &mut self.sink, made.kept, room)?;
        match write_frames(&mut self.sink, &made.frames) {
            Ok(()) => Ok(()),
            Err(Failed) => Err(Fault::WriteLog),
        }
    }
}
