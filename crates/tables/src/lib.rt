//! The tables of a crash: the transaction table, the dirty page table, and the LSN from which redo
//! begins. Analysis finds them, redo uses the pages, and undo the transactions.
//!
//! Entry point: the type [`Tables`], whose fields are public.
//!
//! The promise is in the definitions: `specs/Tables` says what the fields mean, and `specs/Lawful`
//! which tables are true. The contracts of the passes use these words.
//!
//! Its module is `tables`: the type (`Tables`, `Lawful`; `Pieces` for a log that is read in
//! pieces).
#![tactic(auto)]

mod tables;

pub use tables::Tables;
