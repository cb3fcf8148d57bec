//! What is left of a closed board.

ghost use Rattle.std.specs.Prelude.{◌≡◌, ◌+◌, ◌<◌, ◌≤◌, length, slice_index, take};
ghost use Rattle.std.specs.Slots.{slots_items, slots_len, IsFull};
ghost use Rattle.board.specs.declared.sizes.TheConstants.{SEATS};

use crate::sizes::SEATS;
use atomic_table::Closed;
use std::alloc::Global;
use std::marker::Model;

/// How many steps a closed board has seen on each range, and whether it was stopped. Contracts see
/// it as these counts and this flag (`TallyState`).
#[derive(Drop)]
pub struct Tally {
    pub(crate) words: [u64; SEATS],
    pub(crate) ranges: u32,
    pub(crate) stopped: bool,
}

impl Model for Tally {
    ghost use Rattle.std.specs.Prelude.{◌≤◌, take};
    ghost use Rattle.board.specs.Drawn.{TallyState};
    ghost use Rattle.board.specs.declared.sizes.TheConstants.{SEATS};

    ghost Value = { TallyState };

    ghost view = { λ t. record { words = take t.ranges t.words; stopped = t.stopped } };

    ghost invariant = { λ t. t.ranges ≤ SEATS };
}

impl Tally {
    /// How many steps all seats together made on this range, which is below the count of ranges:
    /// the steps that returned its numbers, and those that found its end.
    pub fn word(&self, range: u32) -> u64
        requires { range < length self.now.words }
        ensures { result ≡ slice_index self.now.words range }
    {
        self.words[range as usize]
    }

    /// Whether the closing seat had stopped the board: by its own call of `Board::stop`, or by the
    /// note of a seat that was joined into it.
    pub fn stopped(&self) -> bool
        ensures { result ≡ self.now.stopped }
    {
        self.stopped
    }
}

/// The counts of steps on the first `ranges` words.
pub(crate) fn words_of(closed: &Closed<(), Global>, ranges: u32) -> [u64; SEATS]
    requires full { IsFull closed.now.words }
    requires ranges { (slots_len closed.now.words ≡ ranges + 1) × (ranges ≤ SEATS) }
    ensures { take ranges result ≡ take ranges (slots_items closed.now.words) }
{
    let mut words = [0; SEATS];
    for range in 0..ranges as usize {
        words[range] = closed.word(range);
    }
    words
}
