//! The turns of the losers that wait: the newest update is undone first.

ghost use Rattle.std.specs.Prelude.{◌≡◌, ℕ, map, nat_eq, None, OnOk, IfSome, IfNone};
ghost use Rattle.std.specs.BinaryHeap.{IsHeap, heap_items};
ghost use Rattle.std.specs.List.{IsDistinct};
ghost use Rattle.std.proofs.Props.{props};

use crate::losers::Loser;
use std::alloc::{AllocError, Global};
use std::collections::BinaryHeap;

/// The turn of a loser. Turns are compared by their fields in the order in which they are declared
/// here: the LSN decides.
#[derive(Clone, Copy, Debug, PartialEq, Eq, PartialOrd, Ord)]
pub struct Turn {
    /// The LSN of the update that is undone.
    pub lsn: u64,
    /// The loser.
    pub loser: Loser,
}

/// The losers that wait. No two wait at the same LSN.
#[derive(Drop)]
pub struct Turns {
    /// A turn for each of them. The newest update comes first.
    heap: BinaryHeap<Turn>,
    ghost in_order: { IsHeap ⟦<Turn as Ord>⟧.cmp (heap_items heap) } by { Prim.hlevel props },
    ghost apart: { IsDistinct nat_eq
        (map (λ t. t.lsn) (heap_items heap)) } by { Prim.hlevel props },
}

impl Turns {
    ghost use Rattle.undo.specs.Turns.{turn_at, AlsoWaits, Taken};

    /// No loser waits.
    pub fn new(alloc: Global) -> Turns
        ensures { (lsn : ℕ) → turn_at result lsn ≡ None }
    {
        Turns {
            heap: BinaryHeap::new(alloc),
        }
    }

    /// The loser waits at an LSN at which no loser waits yet.
    pub fn put(&mut self, lsn: u64, loser: Loser) -> Result<(), AllocError>
        requires free { turn_at self.old lsn ≡ None }
        ensures { OnOk result (AlsoWaits lsn loser (turn_at self.old) (turn_at self.new)) }
    {
        self.heap.push(Turn { lsn, loser })?;
        Ok(())
    }

    /// Takes the loser that waits at the newest update. `None` if no loser waits.
    pub fn take_newest(&mut self) -> Option<(u64, Loser)>
        ensures taken { IfSome result (λ x. Taken x.0 x.1 (turn_at self.old) (turn_at self.new)) }
        ensures nobody { IfNone result ((n : ℕ) → turn_at self.old n ≡ None) }
    {
        let turn = self.heap.pop()?;
        Some((turn.lsn, turn.loser))
    }
}
