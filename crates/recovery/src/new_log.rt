//! Where a recovery in pieces puts the new log.

ghost use Rattle.std.specs.Prelude.{◌≡◌, ◌⊎◌, ℕ, List, length, IfErr, OnOk};
ghost use Rattle.page.specs.declared.fault.Fault.{Fault};
ghost use Rattle.page.specs.declared.fault.Fault.TheVariants.{ReadLog, WriteLog};
ghost use Rattle.device.specs.Rereading.{StaysRead};
ghost use Rattle.recovery.specs.ByPieces.{ForMade};
ghost use Rattle.recovery.specs.Calls.{Blames};
ghost use Rattle.recovery.specs.Copying.{IsOfCopying};
ghost use Rattle.recovery.specs.declared.log_again.TheConstants.{ROOM};

use crate::by_pieces::Continuation;
use device::Reread;
use page::Fault;

/// Where a recovery in pieces puts the new log: what is kept of the log that was read, and the
/// frames of the records appended. Two types implement it: [`CopiedLog`](crate::CopiedLog), which
/// copies the log to a sink, and [`ContinuedLog`](crate::ContinuedLog), which continues it in place.
///
/// Contracts see what has become of the new log between two moments, given the bytes of the log
/// that was read, how many of them are kept, and the frames.
pub trait NewLog {
    /// How often its devices have failed so far.
    ghost failures: { Self → ℕ };

    /// The new log is written.
    ghost holds: { (old new : Self) (log : List ℕ) (kept : ℕ) (frames : List ℕ) → Type 0 };

    /// It is what this fault leaves of it while it is written.
    ghost leaves: { (old new : Self) (log : List ℕ) (kept : ℕ) (frames : List ℕ) → Fault → Type 0 };

    /// All that is written of it is flushed.
    ghost flushed: { (old new : Self) → Type 0 };

    /// The old log is as it was, or the file of its tail was flushed before it was changed. A copy
    /// does not change it.
    ghost guarded: { (old new : Self) → Type 0 };

    /// The same, and the file is that of this log.
    ghost guards: { (old new : Self) (log : List ℕ) (kept : ℕ) (frames : List ℕ) → Type 0 };

    /// Writes the new log and flushes it. `log` holds the bytes of the old one, which may be read
    /// once more.
    ///
    /// The errors are: `ReadLog`, if `log` failed; `WriteLog`, if a device that is written failed;
    /// `BadLsn` with an offset, if `log` no longer holds the bytes after it.
    fn write<R: Reread>(
        &mut self,
        log: &mut R,
        made: &Continuation,
        room: &mut [u8],
    ) -> Result<(), Fault>
        requires { length room.old ≡ ROOM }
        ensures out { OnOk result (ForMade (R.text log.old) made.now (holds self.old self.new)) }
        ensures flushed { OnOk result (flushed self.old self.new) }
        ensures guarded { (self.new ≡ self.old) ⊎ guarded self.old self.new }
        ensures guards { (self.new ≡ self.old)
            ⊎ ForMade (R.text log.old) made.now (guards self.old self.new) }
        ensures left { IfErr result (λ e. ForMade (R.text log.old) made.now
            (λ log kept frames. leaves self.old self.new log kept frames e)) }
        ensures fault { IfErr result (λ e. ForMade (R.text log.old) made.now
            (λ log kept frames. (e ≡ ReadLog) ⊎ (e ≡ WriteLog))) }
        ensures named { IfErr result IsOfCopying }
        ensures log_grows { StaysRead R.text R.read_to log.old log.new }
        ensures log_source { Blames ReadLog R.failures log.old log.new result }
        ensures log_sink { Blames WriteLog failures self.old self.new result };
}
