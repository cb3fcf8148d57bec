//! The passes of a restart over a log that a device holds. The log is read in pieces, so it may be
//! longer than memory.
//!
//! Entry points: [`restart_in_pieces`]. It takes pages in memory, or only what changes in them.
//!
//! The promise: what it returns, and what it makes of the pages, is what a restart in memory
//! returns and makes.
//!
//! The modules, in the order of the way through it, with their definitions in `specs/`. Those that
//! most calls share are in `Calls`.
//!
//! - `in_pieces`: the restart, with a checkpoint by the passes below, without one by `fresh`
//!   (`InPieces`).
//! - `fresh`: one forward reading of a log without a checkpoint, for marks, tables and tallies
//!   together (`Listing`).
//! - `rounds`, `stretch`: the part of that reading that several workers share. Each reads a stretch
//!   of the log, and these are joined in its order (`Stretches`).
//! - `find`, `marks`: the first reading, and the marks between which the log is read again
//!   (`Marks`).
//! - `read_on`: a log that is read on from its last mark, to a border or to its end (`ReadOn`).
//! - `pass`, `frames`, `forward`: what looks at the records, and how frames and pieces are read for
//!   it (`Pieces`, `Passes`, `Next`).
//! - `piece`: a piece that is read once more.
//! - `analyse`: analysis, from the mark before the checkpoint on (`Tables`).
//! - `repeat`: redo, which takes the tallies from the mark before its first record on, and then the
//!   images (`Redoing`).
//! - `gather`: what undo looks at, from the end of the log to its beginning (`Gathers`).
//! - `fault`: why a pass stops, the device or a fault of the bytes.
#![tactic(auto)]

mod analyse;
mod fault;
mod find;
mod forward;
mod frames;
mod fresh;
mod gather;
mod in_pieces;
mod marks;
mod pass;
mod piece;
mod read_on;
mod repeat;
mod rounds;
mod stretch;

pub use analyse::tables_in_pieces;
pub use fault::PassFault;
pub use find::find_marks;
pub use gather::gather_for_undo;
pub use in_pieces::{Restarted, restart_in_pieces};
pub use marks::Marks;
pub use repeat::redo_in_pieces;
