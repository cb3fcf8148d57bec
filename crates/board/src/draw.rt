//! The result of a draw on a board that may be stopped.

/// The result of `Board::draw_or_stop`.
#[derive(Clone, Copy, PartialEq, Eq, Debug)]
pub enum Draw {
    /// A number below `parts` that no seat has drawn.
    Part(u32),
    /// All ranges have ended, and no seat had stopped the board when the call looked.
    Finished,
    /// Some seat has stopped the board.
    Stopped,
}
