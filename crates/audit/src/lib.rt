//! The audit: whether a log and a store are lawful.
//!
//! Entry points: [`audit`], and [`audit_from`] for a log that continues a base store.
//!
//! The promise: the result is Ok exactly for lawful inputs; otherwise it is the first broken law. No
//! choice of transaction numbers makes an audit slow.
//!
//! The modules, in the order of the way through it, with their definitions in `specs/`:
//!
//! - `verdict`: the audit as a whole: the base store, the records, the pages, the checkpoint
//!   (`FirstFault`, `Base`).
//! - `base`: the base pages: what pages held before the log's first record.
//! - `audit_state`: what is kept while the records are read (`Passing`).
//! - `records`, `decide`: the laws of the records in LSN order; one function for each law.
//! - `standings`, `standing`, `status`: what is known of each transaction after the records so far
//!   (`Standings`, `Statuses`).
//! - `unfinished_table`: the transactions that have not finished, by number (`Unfinished`).
//! - `finish_table`, `block_index`, `finishes`: how the others finished, in blocks of bits
//!   (`Finished`, `BlockIndex`, `Finishes`).
//! - `cell`: the value of each cell, and its last writer (`Cells`).
//! - `pages`: the law of pages, by number (`Pages`).
//! - `master`, `table`, `dirty`: the law of the checkpoint: which one the master names, and its two
//!   tables (`Dirty`).
//! - `laws`: an audit has at most one fault, and none for lawful input.
#![tactic(auto)]

mod audit_state;
mod base;
mod block_index;
mod cell;
mod decide;
mod dirty;
mod finish_table;
mod finishes;
mod laws;
mod master;
mod pages;
mod records;
mod standing;
mod standings;
mod status;
mod table;
mod unfinished_table;
mod verdict;

pub use laws::{
    no_fault_of_the_lawful, no_fault_of_the_lawful_over, one_first_fault, one_first_fault_over,
};
pub use verdict::{audit, audit_from};
