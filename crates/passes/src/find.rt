//! The first reading of a log: the marks before and after its pieces, and its fault if it has one.

ghost use Rattle.std.specs.Prelude.{◌≡◌, ⊤, length, IfOk, IfErr, OnOk};
ghost use Rattle.device.specs.Reread.{IsReadThrough};
ghost use Rattle.page.specs.declared.fault.Fault.TheVariants.{NoResource};
ghost use Rattle.pieces.specs.Pieces.{IsFirstMark, ReachesMark};
ghost use Rattle.passes.specs.Marks.{IsLow};
ghost use Rattle.passes.specs.Calls.{IsRoom, HasRead, ForText, FindsMarks, TextCause};
ghost use Rattle.passes.specs.ReadOn.{AreFirstMarks, ReachesLast};

use crate::pass::Pass;
use crate::read_on::{Reading, read_to_end};
use crate::{Marks, PassFault};
use device::{Reread, read_full_at};
use page::Fault;
use pieces::{Mark, first_mark};
use std::alloc::Global;
use wal::{BASED_HEADER_BYTES, Glance};

/// The mark before the first record of the log that a source holds.
///
/// Errors: `Failed` if the source failed; those of [`read_log`](wal::read_log) for the log, if its
/// first 16 bytes show one.
fn mark_at_start<S: Reread>(
    alloc: Global,
    source: &mut S,
    room: &mut [u8],
) -> Result<Mark, PassFault>
    requires room { IsRoom (length room.old) }
    ensures mark { IfOk result (λ mark. ForText (S.text source.old) (λ text. IsFirstMark text mark)) }
    ensures low { IfOk result IsLow }
    ensures reach { IfOk result (ReachesMark (S.text source.old) (S.read_to source.new)) }
    ensures fault { IfErr result (TextCause (S.text source.old)) }
    ensures source { HasRead S.text S.failures S.read_to source.old source.new result }
{
    let count = read_full_at(source, 0, &mut room[..BASED_HEADER_BYTES])?;
    let mark = first_mark(alloc, &room[..count])?;
    Ok(mark)
}

/// The marks of a log before any piece of it is read: the one before its first record.
///
/// Errors: those of [`mark_at_start`]; `NoResource` if memory was refused, or if the LSN of the mark
/// is above 2^63 - 1.
pub fn begin_marks<S: Reread>(
    alloc: Global,
    source: &mut S,
    room: &mut [u8],
) -> Result<Marks, PassFault>
    requires room { IsRoom (length room.old) }
    ensures first { IfOk result (AreFirstMarks (S.text source.old)) }
    ensures reach { IfOk result (ReachesLast (S.text source.old) (S.read_to source.new)) }
    ensures fault { IfErr result (TextCause (S.text source.old)) }
    ensures source { HasRead S.text S.failures S.read_to source.old source.new result }
{
    let first = mark_at_start(alloc, source, room)?;
    Ok(Marks::begin(alloc, first)?)
}

/// A pass that looks at nothing: only the marks of the log are wanted.
#[derive(Drop)]
struct NoPass;

impl Pass for NoPass {
    ghost is_ready = { λ scan lsn. ⊤ };

    ghost passes = { λ old new whole before after. ⊤ };

    ghost keeps = { λ old new. ⊤ };

    ghost stops = { λ scan whole before e. ⊤ };

    ghost may_stop = { λ e. e ≡ NoResource };

    ghost begins = { λ scan whole before. tt };

    ghost goes_on = { λ old now new whole before between after one more. tt };

    ghost begins_same = { λ scan. tt };

    ghost stays_same = { λ old now new one more. tt };

    ghost stops_later = { λ old now whole before between e one later. tt };

    ghost stops_for_memory = { λ scan whole before. tt };

    #[inline(always)]
    fn look_at(&mut self, _lsn: u64, _glance: Glance, _body: &[u8]) -> Result<(), Fault> {
        Ok(())
    }

    fn is_done(&self) -> bool {
        false
    }
}

/// Reads the log that a source holds from its beginning to its end, each piece into the room: its
/// marks, and how many bytes are torn at its end.
///
/// Errors: `Failed` if the source failed; the first error of [`read_log`](wal::read_log) for the
/// log; `NoResource` if memory was refused, or if a mark's LSN or its offset is above 2^63 - 1. The
/// room has at least `BASED_HEADER_BYTES + LONGEST_FRAME` bytes, so that each frame fits in it.
pub fn find_marks<S: Reread>(
    alloc: Global,
    source: &mut S,
    room: &mut [u8],
) -> Result<(Marks, usize), PassFault>
    requires room { IsRoom (length room.old) }
    ensures found { IfOk result (λ x. FindsMarks (S.text source.old) (length room.old) x.0 x.1) }
    ensures read { OnOk result (IsReadThrough (S.text source.old) (S.read_to source.new)) }
    ensures fault { IfErr result (TextCause (S.text source.old)) }
    ensures source { HasRead S.text S.failures S.read_to source.old source.new result }
{
    let marks = begin_marks(alloc, source, room)?;
    let mut reading = Reading {
        marks,
        pass: NoPass,
    };
    let torn = read_to_end(source, &mut reading, room)?;
    Ok((reading.marks, torn))
}
