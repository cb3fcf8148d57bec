//! Redo, the second pass of a restart: it repeats history on the pages of a store. It notes for
//! each slot the last record that a page lacks, and only then puts the images of these records in.
//!
//! Entry points: [`redo`] with workers, [`redo_watched`] without threads, and [`TallyScan`] for a
//! log that is read record after record. A [`Gate`] is a hook that is called for each part.
//!
//! The promise: each page gets the records that ARIES applies, in order, for every number of
//! workers, partition and gate.
//!
//! The modules, in the order of the way through it, with their definitions in `specs/`:
//!
//! - `rounds`: redo as a whole; a module and a function cannot have the same name (`Redone`,
//!   `Parted`).
//! - `input`, `redone`: what redo takes and returns (`Inputs`).
//! - `parting`, `lists`: the pages divided into parts (`Parting`, `Lists`).
//! - `route`, `note`: the first round, in which each worker notes for its stretch of the log which
//!   records are on the pages of which part (`Routes`, `Notes`).
//! - `crew`, `gate`, `part`, `tally`: the second round, in which workers draw parts and find by
//!   LSNs alone the last record of each slot (`Changes`, `Parts`).
//! - `gather`, `finish`: the tallies in the order of the pages, and the third round, which puts the
//!   images into the pages.
//! - `one_pass`, `watch`, `unthreaded`: one pass over the records in place of the rounds, for one
//!   worker or no threads (`OnePass`).
//! - `tally_scan`, `tally_table`, `kept`, `wanted`, `ordered`, `fetch`: a log that is read record
//!   after record, with tallies only for pages that change, and then the images of the last records
//!   in pieces of the log (`Passing`, `Placed`, `Wanted`).
//! - `join`: the tallies of one stretch of the log joined with those of a later one (`Counted`,
//!   `Joined`).
//! - `laws`: redo has at most one fault; tables that continue others after an LSN.
#![tactic(auto)]

mod crew;
mod fetch;
mod finish;
mod gate;
mod gather;
mod input;
mod join;
mod kept;
mod laws;
mod lists;
mod note;
mod one_pass;
mod ordered;
mod part;
mod parting;
mod redone;
mod rounds;
mod route;
mod tally;
mod tally_scan;
mod tally_table;
mod unthreaded;
mod wanted;
mod watch;

pub use fetch::fetch_from;
pub use gate::{Gate, OpenGate};
pub use laws::{dirty_continue, listed_continue, no_fault_of_redo, one_redo_fault};
pub use parting::{PARTS, Parting};
pub use redone::Redone;
pub use rounds::{WORKERS, are_workers, redo, redo_in_place};
pub use tally_scan::TallyScan;
pub use unthreaded::redo_watched;
pub use wanted::Wanted;
pub use watch::Watch;
