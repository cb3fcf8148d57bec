//! Drawing a number.

ghost use Rattle.std.specs.Prelude.{◌≡◌, ◌+◌, ◌<◌, ◌≤◌, [], ◌∷◌, ◌++◌, Contains, length, IfSome, IfNone};
ghost use Rattle.board.specs.Drawn.{AllEnded, EndedWithin, IsWithin, IsInRange, IsOfFirst, IsNext, Gains, KeepsPlaces, KeepsNotes, range_start, range_size};

use crate::board::Board;
use crate::rule::Claim;
use crate::seat::Seat;
use crate::view::Plan;

impl Board {
    /// The first number of a range, and how many it has.
    fn range(&self, range: u32) -> (u32, u32)
        requires { range < self.now.ranges }
        ensures start { result.0 ≡ range_start self.now.parts self.now.ranges range }
        ensures end { result.0 + result.1 ≡ range_start self.now.parts self.now.ranges (range + 1) }
        ensures size { result.1 ≡ range_size self.now.parts self.now.ranges range }
        ensures below { result.0 + result.1 ≤ self.now.parts }
    {
        let Plan { parts, ranges, .. } = self.plan;
        let start = range * parts / ranges;
        let end = (range + 1) * parts / ranges;
        (start, end - start)
    }

    /// Makes one step on a range that the seat does not know as ended. It returns a number of the
    /// range, or `None` if the range has ended, which the seat then knows. A step that finds k on
    /// the word claims the range's number k, if it has that many.
    fn claim(&self, seat: &mut Seat, range: u32) -> Option<u32>
        requires board { seat.old.board ≡ self.now }
        requires range { range < self.now.ranges }
        requires open { ¬ Contains seat.old.ended range }
        ensures seat { KeepsPlaces seat.old seat.new }
        ensures notes { KeepsNotes seat.old seat.new }
        ensures some { IfSome result (λ x. Gains self.now seat.old seat.new x
            × (seat.new.ended ≡ seat.old.ended)) }
        ensures number { IfSome result (λ x. IsInRange self.now range x) }
        ensures room { IfSome result (λ _. length seat.old.drawn < self.now.parts) }
        ensures none { IfNone result ((seat.new.drawn ≡ seat.old.drawn)
            × (seat.new.ended ≡ seat.old.ended ++ range ∷ [])) }
    {
        let (start, size) = self.range(range);
        let found = self
            .table
            .shared
            .fetch_add::<Claim>(&mut seat.token, range as usize, 1);
        if found < size as u64 {
            Some(start + found as u32)
        } else {
            seat.ended[range as usize] = true;
            None
        }
    }

    /// The same on any range, without a step if the seat knows the range as ended.
    fn claim_if_open(&self, seat: &mut Seat, range: u32) -> Option<u32>
        requires board { seat.old.board ≡ self.now }
        requires range { range < self.now.ranges }
        ensures seat { KeepsPlaces seat.old seat.new }
        ensures notes { KeepsNotes seat.old seat.new }
        ensures some { IfSome result (λ x. Gains self.now seat.old seat.new x) }
        ensures number { IfSome result (λ x. (¬ Contains seat.new.ended range)
            × IsInRange self.now range x) }
        ensures room { IfSome result (λ _. length seat.old.drawn < self.now.parts) }
        ensures none { IfNone result ((seat.new.drawn ≡ seat.old.drawn)
            × Contains seat.new.ended range) }
        ensures ended { IsWithin seat.old.ended seat.new.ended }
    {
        let _ = &self.plan;
        if seat.knows_ended(range) {
            None
        } else {
            self.claim(seat, range)
        }
    }

    /// Claims on the ranges from `from` up to, but not including, `to`, without those that the seat
    /// knows as ended, until a step returns a number.
    fn sweep(&self, seat: &mut Seat, from: u32, to: u32) -> Option<u32>
        requires board { seat.old.board ≡ self.now }
        requires ranges { to ≤ self.now.ranges }
        ensures seat { KeepsPlaces seat.old seat.new }
        ensures notes { KeepsNotes seat.old seat.new }
        ensures some { IfSome result (λ x. Gains self.now seat.old seat.new x) }
        ensures first { IfSome result (λ x. IsOfFirst self.now from to seat.new.ended x) }
        ensures room { IfSome result (λ _. length seat.old.drawn < self.now.parts) }
        ensures none { IfNone result ((seat.new.drawn ≡ seat.old.drawn)
            × EndedWithin from to seat.new.ended) }
        ensures ended { IsWithin seat.old.ended seat.new.ended }
    {
        let _ = &self.plan;
        for range in from..to {
            let drawn = self.claim_if_open(seat, range);
            if drawn.is_some() {
                return drawn;
            }
        }
        None
    }

    /// Draws a number below `parts` that no seat has drawn. It comes from range `home`, or else
    /// from the next range that has any left; range 0 follows the last range. In this order, it is
    /// a number of the first range that the seat does not know as ended afterwards. The number is
    /// put at the end of the seat's numbers. `home` is below the count of ranges.
    ///
    /// `None` if all ranges have ended, which the seat then knows; its numbers stay. A seat makes
    /// at most one step on the word of an ended range. So one call makes at most as many steps as
    /// there are ranges. The call ignores a stop: see `draw_or_stop`.
    pub fn draw(&self, seat: &mut Seat, home: u32) -> Option<u32>
        requires board { seat.old.board ≡ self.now }
        requires home { home < self.now.ranges }
        ensures seat { KeepsPlaces seat.old seat.new }
        ensures notes { KeepsNotes seat.old seat.new }
        ensures some { IfSome result (λ x. Gains self.now seat.old seat.new x) }
        ensures home { IfSome result (λ x. ¬ Contains seat.new.ended home
            → IsInRange self.now home x) }
        ensures order { IfSome result (λ x. IsNext self.now home seat.new.ended x) }
        ensures room { IfSome result (λ _. length seat.old.drawn < self.now.parts) }
        ensures none { IfNone result ((seat.new.drawn ≡ seat.old.drawn)
            × AllEnded self.now.ranges seat.new.ended) }
        ensures ended { IsWithin seat.old.ended seat.new.ended }
    {
        let drawn = self.sweep(seat, home, self.plan.ranges);
        if drawn.is_some() {
            return drawn;
        }
        self.sweep(seat, 0, home)
    }
}
