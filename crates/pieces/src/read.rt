//! The pieces of a log, read from a device.

ghost use Rattle.std.specs.Prelude.{◌≡◌, ◌+◌, ◌≤◌, ◌<◌, ◌^◌, drop, length, take, IfErr, IfOk, OnOk};
ghost use Rattle.std.specs.Io.KnownBytes.{Keeps};
ghost use Rattle.device.specs.Failures.{Counts};
ghost use Rattle.device.specs.Reread.{EndsBy, ReadsFrom};
ghost use Rattle.device.specs.Rereading.{ReadsOn, StaysRead};
ghost use Rattle.page.specs.declared.fault.Fault.{Fault};
ghost use Rattle.wal.specs.Headers.{header_of};
ghost use Rattle.wal.specs.Reads.{Cause};
ghost use Rattle.log_laws.specs.declared.start.LogStart.TheVariants.{Version2};
ghost use Rattle.wal.specs.declared.sizes.TheConstants.{BASED_HEADER_BYTES, LARGEST_BASE};
ghost use Rattle.pieces.specs.Pieces.{EndsInRoom, ForBegun, HoldsPiece, IsFirstMark, JoinsPiece};

use crate::mark::Mark;
use device::{Failed, Reread, read_full_at};
use page::Fault;
use std::alloc::Global;
use wal::{BASED_HEADER_BYTES, based_header, read_log};

/// The mark before the first record of a log that begins with these bytes: its first 16, or all if
/// there are fewer.
///
/// The errors are those of [`read_log`](wal::read_log) for the whole log, if its first 16 bytes
/// show one.
pub fn first_mark(alloc: Global, bytes: &[u8]) -> Result<Mark, Fault>
    requires { length bytes.now ≤ BASED_HEADER_BYTES }
    ensures mark { IfOk result (λ mark. ForBegun bytes.now (λ text. IsFirstMark text mark)) }
    ensures low { IfOk result (λ mark. mark.lsn ≤ LARGEST_BASE) }
    ensures within { IfOk result (λ mark. mark.offset ≤ length bytes.now) }
    ensures fault { IfErr result (λ e. ForBegun bytes.now (λ text. Cause text e)) }
{
    let (log, torn) = read_log(alloc, bytes)?;
    Ok(Mark {
        lsn: log.base(),
        offset: (bytes.len() - torn) as u64,
    })
}

/// Puts the header of a log that continues after this LSN at the front of the room.
fn put_header(room: &mut [u8], lsn: u64)
    requires { BASED_HEADER_BYTES ≤ length room.old }
    ensures { take BASED_HEADER_BYTES room.new ≡ header_of (Version2 lsn) }
{
    room[..BASED_HEADER_BYTES].copy_from_slice(&based_header(lsn));
}

/// Fills the room after the header with the bytes that the source holds from an offset on.
fn read_after_header<S: Reread>(
    source: &mut S,
    offset: u64,
    room: &mut [u8],
) -> Result<usize, Failed>
    requires room { BASED_HEADER_BYTES ≤ length room.old }
    requires reach { offset + length room.old ≤ 2 ^ 64 }
    ensures header { take BASED_HEADER_BYTES room.new ≡ take BASED_HEADER_BYTES room.old }
    ensures within { IfOk result (λ count. BASED_HEADER_BYTES + count ≤ length room.new) }
    ensures bytes { IfOk result (λ count. ReadsFrom (S.text source.old) offset count
        (drop BASED_HEADER_BYTES room.new)) }
    ensures end { IfOk result (λ count. BASED_HEADER_BYTES + count < length room.new
        → EndsBy (S.text source.old) (offset + count)) }
    ensures same { Keeps (S.text source.old) (S.text source.new) }
    ensures grows { StaysRead S.text S.read_to source.old source.new }
    ensures joins { ReadsOn S.text S.read_to source.old source.new offset result }
    ensures cause { Counts (S.failures source.old) (S.failures source.new) result }
{
    read_full_at(source, offset, &mut room[BASED_HEADER_BYTES..])
}

/// Puts the piece after a mark into the room: a header of version 2, and then the bytes that the
/// source holds from there on. Returns how many bytes of the room that takes: fewer than it has
/// only if the log ends.
///
/// `Failed` if the source failed. Its count of failures then rises by one, and the content of the
/// room is not specified.
pub fn read_piece<S: Reread>(source: &mut S, mark: Mark, room: &mut [u8]) -> Result<usize, Failed>
    requires room { BASED_HEADER_BYTES ≤ length room.old }
    requires reach { mark.offset + length room.old ≤ 2 ^ 64 }
    ensures header { IfOk result (λ count. BASED_HEADER_BYTES ≤ count) }
    ensures within { IfOk result (λ count. count ≤ length room.new) }
    ensures begins { OnOk result
        (take BASED_HEADER_BYTES room.new ≡ header_of (Version2 mark.lsn)) }
    ensures piece { IfOk result (λ count. HoldsPiece (S.text source.old) mark count room.new) }
    ensures end { IfOk result (λ count. EndsInRoom (S.text source.old) mark count room.new) }
    ensures same { Keeps (S.text source.old) (S.text source.new) }
    ensures grows { StaysRead S.text S.read_to source.old source.new }
    ensures joins { IfOk result (JoinsPiece S.text S.read_to source.old source.new mark) }
    ensures cause { Counts (S.failures source.old) (S.failures source.new) result }
{
    put_header(room, mark.lsn);
    let count = read_after_header(source, mark.offset, room)?;
    Ok(BASED_HEADER_BYTES + count)
}
