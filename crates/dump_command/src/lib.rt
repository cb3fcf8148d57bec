//! The command line of `aries_dump`: from its words to a job.
//!
//! Entry points: [`dump_of`] returns a [`Job`], or a refusal with a message and an exit status.
//!
//! The promise: a job is what the arguments ask for; only a line without a mistake has one.
//!
//! Its module is `job`: the options of each command, and the job (`specs/Line`, `Job`).
#![tactic(auto)]

mod job;

pub use job::{Job, dump_of};
