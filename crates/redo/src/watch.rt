//! The gate, if there is one, that is called for the parts when one worker does the work on all of
//! them.

ghost use Rattle.std.specs.Prelude.{IsOkUnless};
ghost use Rattle.page.specs.declared.fault.Fault.TheVariants.{NoResource};

use crate::Parting;
use crate::gate::Gate;
use board::{Board, Draw};
use page::Fault;
use std::alloc::Global;

/// What watches one worker.
#[derive(Drop)]
pub enum Watch<'a, G: Gate> {
    /// Nobody: there are no parts.
    Nobody,
    /// A gate, which is called for each part of a partition.
    Gate { parting: &'a Parting, gate: &'a G },
}

/// Calls the gate of a watch for each part, drawn from a board of one range and one seat. The only
/// error is `NoResource`.
pub fn tell<G: Gate>(alloc: Global, watch: &Watch<G>) -> Result<(), Fault>
    ensures { IsOkUnless result NoResource }
{
    let Watch::Gate { parting, gate } = watch else {
        return Ok(());
    };
    let (board, mut seat) = Board::new(alloc, parting.parts(), 1, 1)?;
    while let Draw::Part(part) = board.draw_or_stop(&mut seat, 0) {
        gate.enter(0, part);
    }
    Ok(())
}
