//! The LSNs at which the transactions that are rolled back continue.

ghost use Rattle.std.specs.Prelude.{◌≡◌, ◌∷◌, ◌<◌, ◌≤◌, ℕ, [], IfNone, IfSome, IsPermutation, OnOk};
ghost use Rattle.std.specs.BinaryHeap.{IsHeap, heap_items};
ghost use Rattle.std.proofs.Props.{props};

use std::alloc::{AllocError, Global};
use std::collections::BinaryHeap;

/// An LSN to which a transaction is sent. Wants are compared by their fields in the order in which
/// they are declared here: the LSN decides.
#[derive(Clone, Copy, Debug, PartialEq, Eq, PartialOrd, Ord)]
pub struct Want {
    /// The LSN of the record that is looked at next.
    pub lsn: u64,
    /// The transaction.
    pub tx: u32,
}

/// The LSNs at which all transactions that are rolled back continue.
#[derive(Drop)]
pub struct Wants {
    /// The highest LSN comes first.
    heap: BinaryHeap<Want>,
    ghost in_order: { IsHeap ⟦<Want as Ord>⟧.cmp (heap_items heap) } by { Prim.hlevel props },
}

impl Wants {
    ghost use Rattle.undo.specs.Wants.{wants_in, WantUpTo};

    /// No transaction continues.
    pub fn new(alloc: Global) -> Wants
        ensures { wants_in result ≡ [] }
    {
        Wants {
            heap: BinaryHeap::new(alloc),
        }
    }

    /// One more transaction continues.
    pub fn put(&mut self, want: Want) -> Result<(), AllocError>
        ensures { OnOk result (IsPermutation (want ∷ wants_in self.old) (wants_in self.new)) }
    {
        self.heap.push(want)?;
        Ok(())
    }

    /// The highest LSN at which a transaction continues; 0 if none does.
    pub fn highest(&self) -> u64
        ensures up_to { WantUpTo result (wants_in self.now) }
        ensures least { (n : ℕ) → WantUpTo n (wants_in self.now) → result ≤ n }
    {
        match self.heap.peek() {
            Some(want) => want.lsn,
            None => 0,
        }
    }

    /// Takes one that continues above this LSN; `None` if all continue at or below it.
    pub fn take_above(&mut self, lsn: u64) -> Option<Want>
        ensures above { IfSome result (λ w. lsn < w.lsn) }
        ensures taken { IfSome result
            (λ w. IsPermutation (wants_in self.old) (w ∷ wants_in self.new)) }
        ensures none { IfNone result (WantUpTo lsn (wants_in self.new)) }
        ensures same { IfNone result (wants_in self.new ≡ wants_in self.old) }
    {
        if self.heap.peek()?.lsn <= lsn {
            return None;
        }
        self.heap.pop()
    }
}
