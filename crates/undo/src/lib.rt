//! Undo, the third pass of a restart: it rolls the losers back, the newest update first. It appends
//! a CLR for each update and an end for each loser, and changes the pages.
//!
//! Entry points: [`undo`] takes a log and pages in memory. [`undo_on`] takes any
//! [`changes::Pages`], and records in memory or gathered from pieces ([`Looked`]).
//!
//! The promise: the losers are rolled back, those in doubt stay as they are, and each page is as
//! the appended records make it. On a lawful log with true tables these records are the tail of the
//! log.
//!
//! The modules, in the order of the way through it, with their definitions in `specs/`:
//!
//! - `rollback`: the pass (`Undone`, `Rollback`).
//! - `losers`, `turns`: the losers, and a heap of them by the update to undo next (`Turns`).
//! - `walk`: the way of a transaction from a record to the update before it, past CLRs.
//! - `appended`: the appended records in compact form (`Appended`).
//! - `looked`, `gathered`: a log at which undo looks, in memory as a whole or only where undo comes
//!   (`Looked`, `Gathered`, `Enough`).
//! - `gathering`, `want`: these records, gathered while a log is read in pieces from its end to its
//!   beginning (`Gathering`, `Wants`).
//! - `laws`: undo has at most one fault, and what is gathered suffices.
#![tactic(auto)]

mod appended;
mod gathered;
mod gathering;
mod laws;
mod looked;
mod losers;
mod rollback;
mod turns;
mod walk;
mod want;

pub use appended::{Appended, frame_bytes_of, record_of, records_of};
pub use gathered::Gathered;
pub use gathering::Gathering;
pub use laws::{gathered_suffices, no_fault_of_undo, one_undo_fault};
pub use looked::{Looked, Place};
pub use rollback::{undo, undo_in_brief, undo_on};
