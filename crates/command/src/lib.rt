//! The command line of `aries`: from its words to a job. `clap` reads the options; this crate says
//! what they are, and checks the ranges of the numbers.
//!
//! Entry points: [`command_of`] returns a [`Job`], or a [`Refusal`] with a message and an exit
//! status.
//!
//! The promise: a job is what the arguments ask for, with its numbers in their ranges; only a line
//! without a mistake has one.
//!
//! The modules, in the order of the way through it, with their definitions in `specs/`:
//!
//! - `job`: the options of each command, and the job (`Line`, `Job`).
//! - `help`: texts of `--help`, and messages for wrong lines of `recover`.
#![tactic(auto)]

mod help;
mod job;

pub use job::{Job, command_of};
pub use words::Refusal;
