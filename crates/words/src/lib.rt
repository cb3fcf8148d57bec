//! What the command lines of `aries` and `aries_dump` have in common: the words that the program
//! was given, errors, flags, and how a run with an error ends.
//!
//! Entry points: [`words_of`] and [`slices_of`] for the words of the system, [`Refusal`] and
//! [`refuse`] for runs that end at once.
//!
//! The promise: a run that ends at once has the exit status of its error: 2 for a wrong line, 1 for
//! a fault, 0 for help.
//!
//! The modules, in the order of the way through it, with their definitions in `specs/`:
//!
//! - `given`: the words of the command line as text.
//! - `flag`: options without a value (`Flags`).
//! - `refusal`: why a line is rejected, and its status (`Statuses`).
//! - `shown`: a text with words of the line in it, safe for a terminal.
//! - `fault`: the line `fault N: text`.
#![tactic(auto)]

mod fault;
mod flag;
mod given;
mod refusal;
mod shown;

pub use fault::refuse;
pub use flag::{flag_of, flag_option};
pub use given::{ERROR_BUFFER_BYTES, NoWords, slices_of, words_of};
pub use refusal::{Refusal, no_command};
