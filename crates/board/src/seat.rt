//! A seat at a board.

ghost use Rattle.std.specs.Prelude.{◌≡◌, ◌<◌, Contains, MatchBool};
ghost use Rattle.board.specs.declared.sizes.TheConstants.{SEATS};

use crate::sizes::SEATS;
use crate::view::View;
use atomic_table::Seat as Token;
use std::marker::Model;

/// The right to draw from one board, in one thread at a time. It has at least one place, and can be
/// cut into as many seats as it has places. It holds no list: only contracts see the numbers that
/// it drew.
///
/// Contracts see it as its board, its places, the list of the numbers drawn, in order, the list of
/// the ranges that it knows as ended, and its two notes: whether it stopped the board, and whether
/// it saw that some seat had (`SeatState`).
#[derive(Drop)]
pub struct Seat {
    pub(crate) token: Token<(), View>,
    pub(crate) places: u32,
    /// A mark for each range that the seat knows as ended.
    pub(crate) ended: [bool; SEATS],
}

impl Model for Seat {
    ghost use Rattle.board.specs.Drawn.{SeatState};

    ghost Value = { SeatState };

    ghost use Rattle.board.specs.Seats.{state_of, IsSeat};

    ghost view = { state_of };

    ghost invariant = { IsSeat };
}

impl Seat {
    /// How many seats it can be cut into, including itself: at least 1.
    pub fn places(&self) -> u32
        ensures places { result ≡ self.now.places }
        ensures some { 0 < result }
    {
        self.places
    }

    /// Whether the seat knows this range as ended.
    pub(crate) fn knows_ended(&self, range: u32) -> bool
        requires { range < SEATS }
        ensures { MatchBool result (Contains self.now.ended range)
            (¬ Contains self.now.ended range) }
    {
        self.ended[range as usize]
    }
}
