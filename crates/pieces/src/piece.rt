//! A piece of a log: the frames after a mark, as a log of their own.

ghost use Rattle.std.specs.Prelude.{◌≡◌, ◌+◌, ◌-◌, ◌≤◌, ◌<◌, ◌^◌, length, IfOk, IfErr};
ghost use Rattle.page.specs.declared.fault.Fault.{Fault};
ghost use Rattle.wal.specs.Reads.{Cause};
ghost use Rattle.wal.specs.declared.sizes.TheConstants.{BASED_HEADER_BYTES, LARGEST_BASE};
ghost use Rattle.pieces.specs.Pieces.{ContinuesEach, ForPiece, moved, OffsetFits};

use crate::mark::Mark;
use page::Fault;
use std::alloc::Global;
use wal::{BASED_HEADER_BYTES, Log, read_log};

/// An offset in a piece after this mark, counted from the log's beginning.
fn offset_in_log(mark: Mark, offset: u64) -> u64
    requires { mark.offset + offset < 2 ^ 64 }
    ensures { result ≡ mark.offset + offset - BASED_HEADER_BYTES }
{
    (mark.offset + offset).saturating_sub(BASED_HEADER_BYTES as u64)
}

/// The fault of a piece after this mark, with its offset counted from the log's beginning.
pub fn moved(mark: Mark, fault: Fault) -> Fault
    requires { OffsetFits mark.offset fault }
    ensures { result ≡ moved mark fault }
{
    match fault {
        Fault::BadLength(offset) => Fault::BadLength(offset_in_log(mark, offset)),
        Fault::BadRecord(offset) => Fault::BadRecord(offset_in_log(mark, offset)),
        Fault::BadLsn(offset) => Fault::BadLsn(offset_in_log(mark, offset)),
        other => other,
    }
}

/// The log of a piece after this mark, and how many bytes come after its last whole frame.
///
/// The error is the first in the piece. The errors are those of [`read_log`](wal::read_log), with
/// offsets that count from the log's beginning.
pub fn piece_log<'a>(alloc: Global, mark: Mark, bytes: &'a [u8]) -> Result<(Log<'a>, usize), Fault>
    requires low { mark.lsn ≤ LARGEST_BASE }
    requires room { mark.offset + length bytes.now < 2 ^ 64 }
    ensures goes_on { IfOk result (λ x. ContinuesEach bytes.now mark x.0 x.1) }
    ensures fault { IfErr result (λ e. ForPiece bytes.now mark (λ text _. Cause text e)) }
{
    match read_log(alloc, bytes) {
        Ok(read) => Ok(read),
        Err(fault) => Err(moved(mark, fault)),
    }
}
