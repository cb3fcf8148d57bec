//! The board, as threads share it.

ghost use Rattle.std.specs.Prelude.{◌≡◌, ℕ, ◌+◌, ◌*◌, ◌<◌, ◌≤◌, [], ◌++◌, All, Contains, length, sum, IfOk, IfErr, true, false, ◌||◌, replicate};
ghost use Rattle.board.specs.Drawn.{AreDistinct, AllEnded, AreFirstDrawn};
ghost use Rattle.page.specs.declared.fault.Fault.TheVariants.{NoResource};
ghost use Rattle.board.specs.declared.sizes.TheConstants.{PARTS, SEATS};

use crate::ended::{either_of, no_ends};
use crate::rule::{Both, ClaimRule, Look, OnePlace};
use crate::seat::Seat;
use crate::sizes::SEATS;
use crate::tally::{Tally, words_of};
use crate::view::{Plan, View};
use atomic_table::Table;
use page::Fault;
use std::alloc::Global;
use std::marker::Model;

/// Hands out the numbers below a count, its parts, each to one seat. Threads share the board by
/// reference, and each draws with a seat of its own. No call waits for another.
///
/// The parts are cut into ranges, and each range has a word that counts the steps on it. Range r
/// holds the numbers from `r * parts / ranges` up to, but not including, `(r + 1) * parts /
/// ranges`, rounded down. One more word records that some seat has stopped the board.
///
/// Contracts see it as its identity, with its sizes (`BoardId`).
#[derive(Drop)]
pub struct Board {
    pub(crate) table: Table<(), View, Plan, ClaimRule, Global>,
    pub(crate) plan: Plan,
}

impl Model for Board {
    ghost use Rattle.board.specs.Drawn.{BoardId};

    ghost Value = { BoardId };

    ghost use Rattle.board.specs.Boards.{board_of, IsBoard};

    ghost view = { board_of };

    ghost invariant = { IsBoard };
}

impl Board {
    /// A board of `parts` numbers (at most [`PARTS`](crate::PARTS)) in `ranges` ranges (1 to
    /// [`SEATS`](crate::SEATS)), and a seat with all its `seats` places (1 to `SEATS`). No number
    /// is drawn yet. The seat knows no range as ended, has not stopped the board, and has seen no
    /// stop.
    ///
    /// This is the only call that takes memory. It returns `NoResource` if memory is refused, and
    /// then nothing is left.
    pub fn new(alloc: Global, parts: u32, ranges: u32, seats: u32) -> Result<(Board, Seat), Fault>
        requires parts { parts ≤ PARTS }
        requires ranges { (1 ≤ ranges) × (ranges ≤ SEATS) }
        requires seats { (1 ≤ seats) × (seats ≤ SEATS) }
        ensures err { IfErr result (λ f. f ≡ NoResource) }
        ensures board { IfOk result (λ r. (r.0.parts ≡ parts) × (r.0.ranges ≡ ranges)
            × (r.0.seats ≡ seats)) }
        ensures seat { IfOk result (λ r. (r.1.board ≡ r.0) × (r.1.places ≡ seats) × (r.1.drawn ≡ [])
            × (r.1.ended ≡ []) × (r.1.stopped ≡ false) × (r.1.told ≡ false)) }
    {
        let plan = Plan {
            parts,
            ranges,
            seats,
        };
        let words = no_steps();
        let (table, token) = Table::of_words(alloc, &words[..ranges as usize + 1], &plan)?;
        let seat = Seat {
            token,
            places: seats,
            ended: no_ends(),
        };
        Ok((Board { table, plan }, seat))
    }

    /// Cuts a seat with at least two places in two: the first half gets one place, the second the
    /// others. Together they have the numbers of the seat. Both know the ranges that it knew as
    /// ended, and have its notes of a stop.
    pub fn split(&self, seat: Seat) -> (Seat, Seat)
        requires board { seat.board ≡ self.now }
        requires places { 2 ≤ seat.places }
        ensures board { (result.0.board ≡ self.now) × (result.1.board ≡ self.now) }
        ensures places { (result.0.places ≡ 1) × (result.1.places + 1 ≡ seat.places) }
        ensures drawn { result.0.drawn ++ result.1.drawn ≡ seat.drawn }
        ensures ended { (result.0.ended ≡ seat.ended) × (result.1.ended ≡ seat.ended) }
        ensures notes { (result.0.stopped ≡ seat.stopped) × (result.1.stopped ≡ seat.stopped)
            × (result.0.told ≡ seat.told) × (result.1.told ≡ seat.told) }
    {
        let Seat {
            mut token,
            places,
            ended,
        } = seat;
        let other = self.table.shared.split_seat::<OnePlace>(&mut token);
        let first = Seat {
            token,
            places: 1,
            ended,
        };
        let second = Seat {
            token: other,
            places: places - 1,
            ended,
        };
        (first, second)
    }

    /// Makes one seat of two. It has the places, the numbers, the ended ranges and the notes of a
    /// stop of both. Its numbers are distinct.
    ///
    /// The load of the stop word shows a fact that neither seat knows by itself: the two have no
    /// number in common. The content of the word is not noted, and no word changes.
    pub fn join(&self, first: Seat, second: Seat) -> Seat
        requires board { (first.board ≡ self.now) × (second.board ≡ self.now) }
        ensures board { result.board ≡ self.now }
        ensures places { result.places ≡ first.places + second.places }
        ensures drawn { result.drawn ≡ first.drawn ++ second.drawn }
        ensures distinct { AreDistinct result.drawn }
        ensures ended { result.ended ≡ first.ended ++ second.ended }
        ensures notes { (result.stopped ≡ (first.stopped || second.stopped))
            × (result.told ≡ (first.told || second.told)) }
    {
        let Seat {
            mut token,
            places,
            ended,
        } = first;
        let Seat {
            token: other,
            places: more,
            ended: also,
        } = second;
        self.table.shared.join_seat::<Both>(&mut token, other);
        let word = self.plan.ranges as usize;
        self.table.shared.load::<Look>(&mut token, word);
        Seat {
            token,
            places: places + more,
            ended: either_of(&ended, &also),
        }
    }

    /// Ends the board, by a seat that has all its places. The numbers of that seat are below
    /// `parts` and distinct. If it knows all ranges as ended, they are all the numbers below
    /// `parts`.
    ///
    /// The tally's words show which numbers they are: number k of range r was drawn if and only if
    /// word r counts more than k steps (`claims`). So there are at least as many steps on all
    /// ranges as numbers (`drawn`), and at most `parts + seats * ranges` (`bound`). If the seat has
    /// seen a stop, it has the note of the seat that stopped the board.
    pub fn close(self, seat: Seat) -> Tally
        requires board { seat.board ≡ self }
        requires places { seat.places ≡ self.seats }
        ensures distinct { AreDistinct seat.drawn }
        ensures below { All (λ x. x < self.parts) seat.drawn }
        ensures all { AllEnded self.ranges seat.ended → (x : ℕ) → x < self.parts
            → Contains seat.drawn x }
        ensures words { length result.words ≡ self.ranges }
        ensures claims { AreFirstDrawn self result.words seat.drawn }
        ensures drawn { length seat.drawn ≤ sum result.words }
        ensures bound { sum result.words ≤ self.parts + self.seats * self.ranges }
        ensures stopped { result.stopped ≡ seat.stopped }
        ensures told { seat.told ≡ true → seat.stopped ≡ true }
    {
        let Board { table, plan } = self;
        let Seat {
            token,
            places: _,
            ended: _,
        } = seat;
        let closed = table.close_with(token);
        let words = words_of(&closed, plan.ranges);
        let stopped = closed.word(plan.ranges as usize) == 1;
        closed.free();
        Tally {
            words,
            ranges: plan.ranges,
            stopped,
        }
    }
}

/// No step on any word yet.
fn no_steps() -> [u64; SEATS + 1]
    ensures { result ≡ replicate (SEATS + 1) 0 }
{
    [0; SEATS + 1]
}
