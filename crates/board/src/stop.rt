//! Stopping a board, and drawing until a seat has stopped it.

ghost use Rattle.std.specs.Prelude.{◌≡◌, ◌<◌, Contains, length, true, false};
ghost use Rattle.board.specs.Drawn.{AllEnded, IsWithin, IsInRange, IsNext, Gains, KeepsPlaces};
ghost use Rattle.board.specs.Draws.{IfPart, IfFinished, IfStopped, is_stopped};

use crate::board::Board;
use crate::draw::Draw;
use crate::rule::{SeeStop, SetStop};
use crate::seat::Seat;

impl Board {
    /// Stops the board, which the seat notes. From now on `draw_or_stop` gives no number to any
    /// seat. The seat's numbers and ended ranges stay. Stopping a board twice has no further
    /// effect.
    pub fn stop(&self, seat: &mut Seat)
        requires board { seat.old.board ≡ self.now }
        ensures seat { KeepsPlaces seat.old seat.new }
        ensures same { (seat.new.drawn ≡ seat.old.drawn) × (seat.new.ended ≡ seat.old.ended) }
        ensures notes { (seat.new.stopped ≡ true) × (seat.new.told ≡ seat.old.told) }
    {
        let word = self.plan.ranges as usize;
        self.table
            .shared
            .fetch_or::<SetStop>(&mut seat.token, word, 1);
    }

    /// Whether some seat has stopped the board. If so, this seat notes it.
    fn is_stopped(&self, seat: &mut Seat) -> bool
        requires board { seat.old.board ≡ self.now }
        ensures seat { KeepsPlaces seat.old seat.new }
        ensures same { (seat.new.drawn ≡ seat.old.drawn) × (seat.new.ended ≡ seat.old.ended)
            × (seat.new.stopped ≡ seat.old.stopped) }
        ensures told { seat.new.told ≡ result }
        ensures clear { result ≡ false → (seat.old.stopped ≡ false) × (seat.old.told ≡ false) }
    {
        let word = self.plan.ranges as usize;
        self.table.shared.load::<SeeStop>(&mut seat.token, word) != 0
    }

    /// Draws as `draw` does if no seat has stopped the board: `Part` for a number, `Finished` if
    /// all ranges have ended. Otherwise it returns `Stopped`: the seat's numbers and ended ranges
    /// stay, and the seat notes the stop. A seat that has stopped the board, or has seen a stop,
    /// always gets `Stopped`.
    pub fn draw_or_stop(&self, seat: &mut Seat, home: u32) -> Draw
        requires board { seat.old.board ≡ self.now }
        requires home { home < self.now.ranges }
        ensures seat { KeepsPlaces seat.old seat.new }
        ensures part { IfPart result (λ x. Gains self.now seat.old seat.new x) }
        ensures home { IfPart result (λ x. ¬ Contains seat.new.ended home
            → IsInRange self.now home x) }
        ensures order { IfPart result (λ x. IsNext self.now home seat.new.ended x) }
        ensures room { IfPart result (λ _. length seat.old.drawn < self.now.parts) }
        ensures finished { IfFinished result ((seat.new.drawn ≡ seat.old.drawn)
            × AllEnded self.now.ranges seat.new.ended) }
        ensures stopped { IfStopped result ((seat.new.drawn ≡ seat.old.drawn)
            × (seat.new.ended ≡ seat.old.ended)) }
        ensures ended { IsWithin seat.old.ended seat.new.ended }
        ensures notes { (seat.new.stopped ≡ seat.old.stopped)
            × (seat.new.told ≡ is_stopped result) }
        ensures heeds { is_stopped result ≡ false → (seat.old.stopped ≡ false)
            × (seat.old.told ≡ false) }
    {
        if self.is_stopped(seat) {
            return Draw::Stopped;
        }
        match self.draw(seat, home) {
            Some(x) => Draw::Part(x),
            None => Draw::Finished,
        }
    }
}
