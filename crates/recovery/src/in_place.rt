//! The new log as the old one, continued in place: it is cut after what is kept, and the frames of the
//! records appended follow. Before the log is touched, the file of its tail is written. With it, a
//! continuation that a power failure ended can be made again.

ghost use Rattle.std.specs.Prelude.{OnOk, OnErr};
ghost use Rattle.device.specs.Failures.{Counts};
ghost use Rattle.recovery.specs.InPlace.{IsContinued, IsLeft};

use crate::by_pieces::Continuation;
use crate::new_log::NewLog;
use device::{Continue, Failed, Reread, Sink, write_all};
use page::Fault;

/// Cuts a log after the bytes that are kept, and flushes the cut; then appends frames, and flushes
/// them.
pub fn continue_log<L: Continue>(log: &mut L, kept: u64, frames: &[u8]) -> Result<(), Failed>
    ensures done { OnOk result (IsContinued L.Sink log.old log.new kept frames.now) }
    ensures left { OnErr result (IsLeft L.Sink log.old log.new kept frames.now) }
    ensures cause { Counts (L.failures log.old) (L.failures log.new) result }
{
    log.cut(kept)?;
    log.flush()?;
    write_all(log, frames)?;
    log.flush()
}

/// A new log that is the old one, cut after its last whole record and flushed, and continued by the
/// frames, which are flushed too. It must be the log that is read, and hold the same bytes.
///
/// Before the log is touched, the file of its tail is written to another device and flushed: a
/// [`TailFile`](crate::TailFile), with all that is appended, the lengths of the log, and two sums. If
/// the power fails while the log is continued, its end may hold anything; with this file the
/// continuation can be made again.
#[derive(Drop)]
pub struct ContinuedLog<T, L> {
    /// The device that takes the file of the tail.
    pub tail: T,
    /// The log, opened for writing. It must be the one that the recovery reads, which no contract
    /// asks for.
    pub log: L,
}

impl<T: Sink, L: Continue> NewLog for ContinuedLog<T, L> {
    ghost use Rattle.std.specs.Prelude.{◌+◌};
    ghost use Rattle.recovery.specs.InPlace.{HoldsContinued, LeavesContinued, IsLogFlushed, IsTailFirst, IsGuardedBy};

    ghost failures = { λ x. T.failures x.tail + L.failures x.log };

    ghost holds = { λ old new log kept frames.
        HoldsContinued kept frames (L.taken old.log) (L.taken new.log) };

    ghost leaves = { λ old new log kept frames e.
        LeavesContinued L.Sink old.log new.log kept frames e };

    ghost flushed = { λ old new. IsLogFlushed L.Sink old.log new.log };

    ghost guarded = { λ old new. IsTailFirst T.Sink old.tail new.tail old.log new.log };

    ghost guards = { λ old new log kept frames.
        IsGuardedBy T.Sink old.tail new.tail old.log new.log log kept frames };

    fn write<R: Reread>(
        &mut self,
        log: &mut R,
        made: &Continuation,
        room: &mut [u8],
    ) -> Result<(), Fault> {
        let file = made.measure_tail(log, room)?;
        match file.write(&mut self.tail) {
            Ok(()) => {}
            Err(Failed) => return Err(Fault::WriteLog),
        }
        match continue_log(&mut self.log, file.kept, file.frames) {
            Ok(()) => Ok(()),
            Err(Failed) => Err(Fault::WriteLog),
        }
    }
}
