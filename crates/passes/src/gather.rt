//! The records of a log that undo looks at, gathered in one reading from its end to its beginning.

ghost use Rattle.std.specs.Prelude.{length, IfOk, IfErr, OnOk};
ghost use Rattle.undo.specs.Wants.{WantUpTo, wants_in};
ghost use Rattle.passes.specs.Marks.{IsLow};
ghost use Rattle.passes.specs.Calls.{IsRoom, HasRead, IsResourceUpTo, IsResourceBetween};
ghost use Rattle.passes.specs.Gathers.{Gathers, AreGatheredFor};

use crate::piece::piece_up_to;
use crate::{Marks, PassFault};
use device::Reread;
use pieces::Mark;
use std::alloc::Global;
use tables::Tables;
use undo::{Gathered, Gathering};

/// Gathers what undo looks at in the piece after a mark. The piece must reach at least the LSN
/// `upto`. Errors are those of [`piece_up_to`], and `NoResource` if memory was refused.
fn gather_piece<S: Reread>(
    alloc: Global,
    source: &mut S,
    mark: Mark,
    upto: u64,
    room: &mut [u8],
    gathering: &mut Gathering,
) -> Result<(), PassFault>
    requires room { IsRoom (length room.old) }
    requires low { IsLow mark }
    ensures gathered { OnOk result (Gathers (S.text source.old) mark upto
        gathering.old gathering.new) }
    ensures before { OnOk result (WantUpTo mark.lsn (wants_in gathering.new.wants)) }
    ensures fault { IfErr result (IsResourceUpTo (S.text source.old) mark (length room.old) upto) }
    ensures source { HasRead S.text S.failures S.read_to source.old source.new result }
{
    let piece = piece_up_to(alloc, source, mark, upto, room)?;
    gathering.take(alloc, &piece)?;
    Ok(())
}

/// Gathers the records that undo looks at from the log that a source holds. The marks are those
/// before the pieces of the log and, last, the one at its end. The pieces are read into the room,
/// the last one first. Only those that have a record which undo looks at are read.
///
/// Errors: `Failed` if the source failed; `NoResource` if memory was refused; any other fault only
/// if the source no longer holds what it held when the marks were made.
pub fn gather_for_undo<S: Reread>(
    alloc: Global,
    source: &mut S,
    marks: &Marks,
    room: &mut [u8],
    tables: &Tables,
) -> Result<Gathered, PassFault>
    requires room { IsRoom (length room.old) }
    ensures gathered { IfOk result (AreGatheredFor (S.text source.old) marks.now tables.now) }
    ensures fault { IfErr result (IsResourceBetween (S.text source.old) marks.now
        (length room.old)) }
    ensures source { HasRead S.text S.failures S.read_to source.old source.new result }
{
    let base = marks.first().lsn;
    let count = marks.count();
    let mut gathering = Gathering::begin(alloc, base, count, tables)?;
    let mut upto = gathering.upto();
    while base < upto {
        let mark = marks.at(marks.place_before(upto));
        gather_piece(alloc, source, mark, upto, room, &mut gathering)?;
        upto = gathering.upto();
    }
    Ok(gathering.finish())
}
