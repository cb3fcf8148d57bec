//! The law of a board's words. The function is a law: what it ensures follows from the definitions
//! only.

ghost use Rattle.board.specs.Claims.{DrawnLaw};

/// If the rule of the words holds, the numbers that all seats drew are below the count of parts and
/// distinct. If also some seat knows all ranges as ended, each number below the count was drawn.
pub fn drawn()
    ensures { DrawnLaw }
{}
