//! How the transactions of a block have finished: two sets of bits, one bit for each transaction.

ghost use Rattle.std.specs.Prelude.{◌≡◌, ◌<◌, ◌==◌};
ghost use Rattle.std.specs.Int.{bit_at};
ghost use Rattle.audit.specs.declared.finish_table.TheConstants.{BLOCK};
ghost use Rattle.audit.specs.Finishes.{finish_at, no_finishes, IsNoted};

use crate::standing::Finish;

/// How the transactions of a block have finished, in 4 bytes. Each has the bit of its place in both
/// sets: it has not finished if both bits are 0, and has ended if both are 1.
#[derive(Clone, Copy)]
pub struct Finishes {
    /// Those that have committed.
    pub committed: u16,
    /// Those that have ended.
    pub ended: u16,
}

/// Whether the bit of a place is 1.
#[inline(always)]
fn has(bits: u16, place: u32) -> bool
    requires { place < BLOCK }
    ensures { result ≡ (bit_at bits place == 1) }
{
    (bits >> place) & 1 == 1
}

impl Finishes {
    /// Those of a block in which no transaction has finished.
    #[inline(always)]
    pub fn none() -> Finishes
        ensures { result ≡ no_finishes }
    {
        Finishes {
            committed: 0,
            ended: 0,
        }
    }

    /// How the transaction at a place has finished, None if it has not.
    #[inline(always)]
    pub fn get(self, place: u32) -> Option<Finish>
        requires { place < BLOCK }
        ensures { result ≡ finish_at self place }
    {
        if has(self.ended, place) {
            return Some(Finish::Ended);
        }
        if has(self.committed, place) {
            return Some(Finish::Committed);
        }
        None
    }

    /// These after the transaction at a place has finished in this way.
    #[inline(always)]
    pub fn with_finish(self, place: u32, finish: Finish) -> Finishes
        requires { place < BLOCK }
        ensures { IsNoted self place finish result }
    {
        let bit = 1u16 << place;
        match finish {
            Finish::Committed => Finishes {
                committed: self.committed | bit,
                ended: self.ended & !bit,
            },
            Finish::Ended => Finishes {
                committed: self.committed,
                ended: self.ended | bit,
            },
        }
    }
}
