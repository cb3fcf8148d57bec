//! A log of any length, read in pieces. A piece is a small log: its base LSN is the LSN of the last
//! record before it.
//!
//! Entry points: [`first_mark`] finds the place before the first record, [`read_piece`] reads the
//! bytes after a [`Mark`] into a buffer, and [`piece_log`] makes a log of them.
//!
//! The promise: each record of a piece is in the whole log, at the same LSN.
//!
//! The modules, in the order of the way through it, with their definitions in `specs/`:
//!
//! - `mark`: a place between two records, given by the LSN of the one before it and the offset of
//!   the one after it.
//! - `read`: the bytes of a piece, from a device.
//! - `piece`: the log of these bytes; the offset in a fault is that in the whole log (`Pieces`).
//! - `laws`: records of pieces are records of the log.
#![tactic(auto)]

mod laws;
mod mark;
mod piece;
mod read;

pub use laws::pieces_belong;
pub use mark::Mark;
pub use piece::{moved, piece_log};
pub use read::{first_mark, read_piece};
