//! A log that is read forward, piece after piece, while a pass looks at its records.

ghost use Rattle.std.specs.Prelude.{◌≤◌, ◌<◌, length, IfOk, IfErr, OnOk};
ghost use Rattle.wal.specs.declared.sizes.TheConstants.{LARGEST_BASE};
ghost use Rattle.passes.specs.Marks.{IsInReach, IsLow};
ghost use Rattle.passes.specs.Next.{EndsAt, ReadsToNext};
ghost use Rattle.passes.specs.Calls.{IsRoom, HasRead};
ghost use Rattle.passes.specs.Passes.{Takes, TakesToEnd, StopsAfter, StopsAtMark, StopsBefore, StopsToEnd};

use crate::PassFault;
use crate::frames::pass_over;
use crate::pass::Pass;
use device::Reread;
use page::Fault;
use pieces::{Mark, read_piece};
use wal::{BASED_HEADER_BYTES, LARGEST_BASE};

/// Reads the piece after a mark into the room, and gives its records to a pass. Returns the mark
/// after the last of them, and how many bytes of the room are left after it. If the log ends at the
/// mark, both marks are the same, and these bytes are the log's torn tail.
///
/// Errors: `Failed` if the source failed; those of [`read_log`](wal::read_log) for the log, if the
/// piece shows one, and those of the pass. If the source does not keep its bytes, also `BadLength`
/// with the mark's offset: no frame ends in the room.
pub fn take_next<S: Reread, P: Pass>(
    source: &mut S,
    mark: Mark,
    room: &mut [u8],
    pass: &mut P,
) -> Result<(Mark, usize), PassFault>
    requires room { IsRoom (length room.old) }
    requires low { IsLow mark }
    requires ready { P.is_ready pass.old mark.lsn }
    ensures within { IfOk result (λ x. IsInReach (length room.old) mark x.0) }
    ensures rises { IfOk result (λ x. mark.lsn ≤ x.0.lsn) }
    ensures ready { IfOk result (λ x. P.is_ready pass.new x.0.lsn) }
    ensures keeps { OnOk result (P.keeps pass.old pass.new) }
    ensures passed { IfOk result (λ x. Takes P.Pass (S.text source.old) mark
        pass.old pass.new x.0) }
    ensures ends { IfOk result (λ x. EndsAt (S.text source.old) mark x.0 x.1) }
    ensures reach { IfOk result (λ x. ReadsToNext S.text S.read_to source.old source.new
        mark x.0) }
    ensures fault { IfErr result (StopsAtMark P.Pass (S.text source.old) mark) }
    ensures known { IfErr result (StopsAfter P.Pass (S.text source.old) mark pass.old) }
    ensures source { HasRead S.text S.failures S.read_to source.old source.new result }
{
    let full = room.len();
    let count = read_piece(source, mark, room)?;
    let (last, torn) = pass_over(mark, &room[..count], pass)?;
    if last == mark.lsn && count == full {
        return Err(PassFault::Fault(Fault::BadLength(mark.offset)));
    }
    let whole = (count - BASED_HEADER_BYTES).saturating_sub(torn);
    let next = Mark {
        lsn: last,
        offset: mark.offset + whole as u64,
    };
    Ok((next, torn))
}

/// As [`take_next`], if the log is known to continue to the LSN `end`. Returns the mark after the
/// piece.
///
/// Errors: those of `take_next`; `NoResource` if the offset of the mark after the piece is above
/// 2^63 - 1. A fault of the bytes is returned only if the source no longer holds what it held:
/// `BadLsn` with the mark's offset if no record comes, or one after `end`.
fn take_before<S: Reread, P: Pass>(
    source: &mut S,
    mark: Mark,
    end: u64,
    room: &mut [u8],
    pass: &mut P,
) -> Result<Mark, PassFault>
    requires room { IsRoom (length room.old) }
    requires low { IsLow mark }
    requires before { mark.lsn < end }
    requires end { end ≤ LARGEST_BASE }
    requires ready { P.is_ready pass.old mark.lsn }
    ensures rises { IfOk result (λ next. mark.lsn < next.lsn) }
    ensures low { IfOk result IsLow }
    ensures ready { IfOk result (λ next. P.is_ready pass.new next.lsn) }
    ensures keeps { OnOk result (P.keeps pass.old pass.new) }
    ensures passed { IfOk result (Takes P.Pass (S.text source.old) mark
        pass.old pass.new) }
    ensures fault { IfErr result (StopsBefore P.Pass (S.text source.old) mark end pass.old) }
    ensures source { HasRead S.text S.failures S.read_to source.old source.new result }
{
    let (next, _) = take_next(source, mark, room, pass)?;
    if next.lsn <= mark.lsn || end < next.lsn {
        return Err(PassFault::Fault(Fault::BadLsn(mark.offset)));
    }
    if next.offset > LARGEST_BASE {
        return Err(PassFault::Fault(Fault::NoResource));
    }
    Ok(next)
}

/// Gives the pieces after a mark to a pass, up to the log's last LSN or until the pass is done.
/// Errors are those of [`take_before`].
pub fn pass_to_end<S: Reread, P: Pass>(
    source: &mut S,
    from: Mark,
    end: u64,
    room: &mut [u8],
    pass: &mut P,
) -> Result<(), PassFault>
    requires room { IsRoom (length room.old) }
    requires from { IsLow from }
    requires end { end ≤ LARGEST_BASE }
    requires ready { P.is_ready pass.old from.lsn }
    ensures passed { OnOk result (TakesToEnd P.Pass (S.text source.old) from end
        pass.old pass.new) }
    ensures keeps { OnOk result (P.keeps pass.old pass.new) }
    ensures fault { IfErr result (StopsToEnd P.Pass (S.text source.old) from end pass.old) }
    ensures source { HasRead S.text S.failures S.read_to source.old source.new result }
{
    let mut mark = from;
    while mark.lsn < end && !pass.is_done() {
        mark = take_before(source, mark, end, room, pass)?;
    }
    Ok(())
}
