//! A board: the work queue of redo's workers. It hands out the numbers of the parts, each once, by
//! single atomic steps on shared words. No other crate uses atomic operations.
//!
//! Entry points: `Board::new` makes a [`Board`] and its first [`Seat`]; `split` cuts a seat for
//! each thread, `draw` takes the next number, `join` and `close` end it.
//!
//! The promise: the numbers that the seats draw are distinct, and no number is left if the seats
//! have seen the end of each range.
//!
//! The modules, in the order of the way through it, with their definitions in `specs/`:
//!
//! - `sizes`: how large a board may be.
//! - `board`: how it begins, how seats are cut and joined, how it is closed (`Boards`).
//! - `seat`, `ended`: the right to draw in one thread, and the ranges whose ends it has seen
//!   (`Seats`).
//! - `claim`: one draw: from a home range first, then from the next ones (`Claims`).
//! - `stop`, `draw`: a board that a worker stops, and the result of a draw on it (`Draws`).
//! - `tally`: what is left of a closed board (`Drawn`).
//! - `view`, `rule`, `laws`: only for the proofs, what seats know, what holds between any two
//!   steps, and what follows from it.
#![tactic(auto)]

mod board;
mod claim;
mod draw;
mod ended;
pub mod laws;
mod rule;
mod seat;
mod sizes;
mod stop;
mod tally;
mod view;

pub use board::Board;
pub use draw::Draw;
pub use seat::Seat;
pub use sizes::{PARTS, SEATS};
pub use tally::Tally;
