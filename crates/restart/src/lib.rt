//! A restart on values: analysis, redo and undo over a log and a store in memory.
//!
//! Entry points: [`restart`] with workers, and [`restart_alone`] without threads.
//!
//! The promise, the headline of `docs/PROOFS.md`: from a lawful log and its store a restart appends
//! the log's tail, and leaves exactly the effects of the committed and in-doubt transactions.
//!
//! The modules, in the order of the way through it, with their definitions in `specs/`:
//!
//! - `options`: workers and parts, and their ranges (`Options`).
//! - `passes`: the three passes in turn, after a check that no page is ahead of the log
//!   (`Restart`).
//! - `forward`: analysis and redo, in turn or at the same time.
//! - `unthreaded`: the same without threads, the shortest way to read.
//! - `doubt`: the transactions in doubt, which the report lists.
//! - `outcome`: what a restart returns (`Outcome`, `Results`).
//! - `laws`: one outcome, at most one fault (`OneAnswer`).
#![tactic(auto)]

mod doubt;
mod forward;
mod laws;
mod options;
mod outcome;
mod passes;
mod unthreaded;

pub use laws::{no_fault_of_a_restart, one_outcome, one_restart_fault};
pub use options::{Options, check_options};
pub use outcome::{BriefOutcome, Outcome, UndoOutcome};
pub use passes::{check_lsns, restart, restart_in_place, roll_back, roll_back_on};
pub use unthreaded::restart_alone;
