//! What a log means: the definitions on which all that is proved rests, and their laws.
//!
//! Entry points: the definitions in `specs/`, in this order: the records (`Records`); the transactions and
//! cells that they leave (`Meaning`); what a record may be after those before it (`Laws`); the records
//! by which a restart rolls back the losers (`Tail`); the hops of undo (`Hops`); which records redo
//! applies (`Redo`); the pages, the checkpoint and the store that go with a log (`Pages`,
//! `Checkpoint`, `Store`); what undo appends (`Undo`). None of them is about bytes: the bytes are in
//! the crate `wal`.
//!
//! The promise: the laws in `Theorems`, such as: a lawful log and its tail are lawful, have no loser,
//! and leave in each cell what the winners leave.
//!
//! The modules:
//!
//! - `state`: [`State`], the state of a transaction in a table.
//! - `start`: [`LogStart`], how a log begins.
//! - `laws`: the laws. Each function is one: it does nothing, and what it ensures follows from the
//!   definitions only.
#![tactic(auto)]

mod laws;
mod start;
mod state;

pub use laws::{
    cuts_resume, hops_meet_pending, lawful_by_record, losers_end, redo_replays, redo_suffices,
    replay_is_winners, restart_goes_on, store_settles, table_tells_doubt, tail_settles,
    undo_is_tail,
};
pub use start::LogStart;
pub use state::State;
