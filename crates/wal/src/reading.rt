//! The log that frames make: the frames of its first bytes, those after them, and a torn tail.

ghost use Rattle.std.specs.Prelude.{◌≡◌, ◌≤◌, ◌<◌, ◌+◌, ◌^◌, ◌++◌, None, Ok, drop, length, IfErr, IfOk};
ghost use Rattle.wal.specs.Frames.{next_at, Fails};
ghost use Rattle.wal.specs.Stretches.{HasNoFrame};

use crate::next::seen_at;
use page::Fault;

/// How many bytes come after the last frame of a log, which ends at `end`, if they are a torn tail.
/// Otherwise the error is what is wrong with them. A frame there would have this LSN, and `before`
/// bytes of the log come before these bytes.
pub fn torn_from(lsn: u64, before: usize, bytes: &[u8], end: usize) -> Result<usize, Fault>
    requires end { end ≤ length bytes.now }
    requires short { before + length bytes.now < 2 ^ 63 }
    requires all { HasNoFrame bytes.now lsn end }
    ensures torn { IfOk result (λ torn.
        (next_at lsn (before + end) (drop end bytes.now) ≡ Ok None)
        × (length (drop end bytes.now) ≡ torn)) }
    ensures fault { IfErr result (λ e. Fails e (next_at lsn (before + end) (drop end bytes.now))) }
{
    let (_, tail) = bytes.split_at(end);
    match seen_at(lsn, before + end, tail) {
        Ok(None) => Ok(tail.len()),
        Ok(Some(_)) => unreachable!(),
        Err(fault) => Err(fault),
    }
}
