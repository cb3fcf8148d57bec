//! The rounds of redo, and redo of a log that is read in pieces.

mod pieces;
mod rounds;
