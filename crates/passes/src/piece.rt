//! A piece of a log that is read once more.

ghost use Rattle.std.specs.Prelude.{◌≡◌, ◌≤◌, length, IfOk, IfErr};
ghost use Rattle.log_laws.specs.Records.{history, last_lsn, base_lsn};
ghost use Rattle.passes.specs.Marks.{IsLow};
ghost use Rattle.passes.specs.Calls.{IsRoom, HasRead, IsResourceUpTo};
ghost use Rattle.passes.specs.Next.{IsPieceAfter};

use crate::PassFault;
use device::Reread;
use page::Fault;
use pieces::{Mark, piece_log, read_piece};
use std::alloc::Global;
use wal::Log;

/// Reads the piece after a mark into the room. The piece must reach at least the LSN `upto`.
///
/// Errors: `Failed` if the source failed; `NoResource` if memory was refused; any other fault only
/// if the source no longer holds what it held when the mark was made: `BadLsn` with the mark's
/// offset if the piece ends before that LSN.
pub fn piece_up_to<'a, S: Reread>(
    alloc: Global,
    source: &mut S,
    mark: Mark,
    upto: u64,
    room: &'a mut [u8],
) -> Result<Log<'a>, PassFault>
    requires room { IsRoom (length room.old) }
    requires low { IsLow mark }
    ensures piece { IfOk result (IsPieceAfter (S.text source.old) mark) }
    ensures base { IfOk result (λ log. base_lsn (history log) ≡ mark.lsn) }
    ensures reaches { IfOk result (λ log. upto ≤ last_lsn (history log)) }
    ensures fault { IfErr result (IsResourceUpTo (S.text source.old) mark (length room.old) upto) }
    ensures source { HasRead S.text S.failures S.read_to source.old source.new result }
{
    let count = read_piece(source, mark, room)?;
    let (log, _) = piece_log(alloc, mark, &room[..count])?;
    if log.base() != mark.lsn {
        return Err(PassFault::Fault(Fault::BadLsn(mark.offset)));
    }
    if log.last() < upto {
        return Err(PassFault::Fault(Fault::BadLsn(mark.offset)));
    }
    Ok(log)
}
