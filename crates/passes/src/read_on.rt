//! A log that is read on, from the last of its marks: to a border, or to its end.

ghost use Rattle.std.specs.Prelude.{◌+◌, ◌≤◌, ◌<◌, length, IfOk, IfErr, OnOk, IfSome, IfNone};
ghost use Rattle.passes.specs.Calls.{IsRoom, HasRead};
ghost use Rattle.passes.specs.ReadOn.{KeepsMarks, IsReadyAfter, ReadsOn, ReadsToEnd, EndsAtLast};
ghost use Rattle.passes.specs.ReadOn.{JoinsMarks, ReadsAfterLast, ReadsIfEnds, StopsReading};

use crate::forward::take_next;
use crate::pass::Pass;
use crate::{Marks, PassFault};
use device::Reread;
use page::Fault;
use wal::{BASED_HEADER_BYTES, LONGEST_FRAME};

/// What is read of a log so far.
#[derive(Drop)]
pub struct Reading<P> {
    /// Its marks: the last one is where it is read on.
    pub marks: Marks,
    /// What has looked at the records between them.
    pub pass: P,
}

/// Reads the piece after the last mark into the room, gives its records to the pass, and adds the
/// mark after them. If no record comes, the log ends at the last mark: it then adds none, and
/// returns how many bytes are torn there.
///
/// Errors: those of [`take_next`]; `NoResource` if memory was refused, or if the LSN or the offset
/// of the mark is above 2^63 - 1.
fn read_piece_on<S: Reread, P: Pass>(
    source: &mut S,
    scan: &mut Reading<P>,
    room: &mut [u8],
) -> Result<Option<usize>, PassFault>
    requires room { IsRoom (length room.old) }
    requires ready { IsReadyAfter P.is_ready scan.old }
    ensures ready { OnOk result (IsReadyAfter P.is_ready scan.new) }
    ensures keeps { OnOk result (P.keeps scan.old.pass scan.new.pass) }
    ensures marks { OnOk result (KeepsMarks (length room.old) scan.old.marks scan.new.marks) }
    ensures passed { OnOk result (ReadsOn P.passes (S.text source.old) scan.old scan.new) }
    ensures ends { IfOk result (λ end. IfSome end
        (EndsAtLast (S.text source.old) scan.new.marks)) }
    ensures reach { OnOk result (JoinsMarks S.text S.read_to source.old source.new
        scan.old scan.new) }
    ensures read { IfOk result (ReadsIfEnds S.text S.read_to source.old source.new scan.old.marks) }
    ensures fault { IfErr result (StopsReading P.Pass (S.text source.old) scan.old.marks) }
    ensures source { HasRead S.text S.failures S.read_to source.old source.new result }
{
    let mark = scan.marks.end();
    let (next, torn) = take_next(source, mark, room, &mut scan.pass)?;
    if next.lsn == mark.lsn {
        return Ok(Some(torn));
    }
    scan.marks.push(next)?;
    Ok(None)
}

/// Reads the log that a source holds on to its end: each piece into the room and each once. The
/// records go to the pass, and the marks after the pieces are added. Returns how many bytes are torn
/// at the end.
///
/// Errors: `Failed` if the source failed; the first error of [`read_log`](wal::read_log) for the
/// log; those of the pass; `NoResource` if memory was refused, or if a mark's LSN or its offset is
/// above 2^63 - 1.
pub fn read_to_end<S: Reread, P: Pass>(
    source: &mut S,
    scan: &mut Reading<P>,
    room: &mut [u8],
) -> Result<usize, PassFault>
    requires room { IsRoom (length room.old) }
    requires ready { IsReadyAfter P.is_ready scan.old }
    ensures keeps { OnOk result (P.keeps scan.old.pass scan.new.pass) }
    ensures marks { OnOk result (KeepsMarks (length room.old) scan.old.marks scan.new.marks) }
    ensures passed { IfOk result (ReadsToEnd P.passes (S.text source.old)
        scan.old scan.new) }
    ensures read { OnOk result (ReadsAfterLast S.text S.read_to source.old source.new scan.old.marks) }
    ensures fault { IfErr result (StopsReading P.Pass (S.text source.old) scan.old.marks) }
    ensures source { HasRead S.text S.failures S.read_to source.old source.new result }
{
    for _ in 0..u64::MAX {
        let end = read_piece_on(source, scan, room)?;
        if let Some(torn) = end {
            return Ok(torn);
        }
    }
    // No log has 2^64 - 1 pieces.
    Err(PassFault::Fault(Fault::NoResource))
}

/// How many bytes of the room the next piece takes, if a border is `left` bytes after its mark. The
/// last piece before the border ends at it, if a frame does. So that its room takes the longest
/// frame too, the piece before leaves enough bytes for one.
fn room_before(left: u64, room: usize) -> usize
    requires { IsRoom room }
    ensures room { IsRoom result }
    ensures within { result ≤ room }
{
    let longest = LONGEST_FRAME as u64;
    let wanted = if left >= 2 * longest {
        left - longest
    } else {
        left.max(longest)
    };
    let most = (room - BASED_HEADER_BYTES) as u64;
    BASED_HEADER_BYTES + wanted.min(most) as usize
}

/// Reads the log that a source holds on, until a piece ends at the border or after it, or the log
/// ends. A piece ends at the border, if a frame does. Errors are those of [`read_to_end`].
pub fn read_to_border<S: Reread, P: Pass>(
    source: &mut S,
    scan: &mut Reading<P>,
    border: u64,
    room: &mut [u8],
) -> Result<(), PassFault>
    requires room { IsRoom (length room.old) }
    requires ready { IsReadyAfter P.is_ready scan.old }
    ensures ready { OnOk result (IsReadyAfter P.is_ready scan.new) }
    ensures keeps { OnOk result (P.keeps scan.old.pass scan.new.pass) }
    ensures marks { OnOk result (KeepsMarks (length room.old) scan.old.marks scan.new.marks) }
    ensures passed { OnOk result (ReadsOn P.passes (S.text source.old) scan.old scan.new) }
    ensures reach { OnOk result (JoinsMarks S.text S.read_to source.old source.new
        scan.old scan.new) }
    ensures fault { IfErr result (StopsReading P.Pass (S.text source.old) scan.old.marks) }
    ensures source { HasRead S.text S.failures S.read_to source.old source.new result }
{
    for _ in 0..u64::MAX {
        let offset = scan.marks.end().offset;
        if border <= offset {
            return Ok(());
        }
        let size = room_before(border - offset, room.len());
        let end = read_piece_on(source, scan, &mut room[..size])?;
        if end.is_some() {
            return Ok(());
        }
    }
    // No log has 2^64 - 1 pieces.
    Err(PassFault::Fault(Fault::NoResource))
}
