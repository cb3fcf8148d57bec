//! The journal: the part of an engine that makes the records of the log. It keeps the pages, the
//! unfinished transactions and their pending updates, and encodes each record as a frame.
//!
//! What it makes is a lawful log. An engine that keeps the rules of `specs/Traces` may stop at any
//! moment: it leaves a lawful log and store. A recovery of them leaves exactly the effects of the
//! committed transactions and of those in doubt.
//!
//! [`Journal`] owns what it keeps. The functions are the same operations over arrays of the caller:
//! they allocate nothing.
//!
//! The modules, in the order of the way through it, with their definitions in `specs/`:
//!
//! - `opening`, `reopening`: a journal of a new log, and of one with records, as a recovery leaves
//!   it (`Opened`, `Scan`).
//! - `entries`, `image`, `page_entry`, `table`: the arrays of transactions, pages and pending
//!   updates (`Arrays`, `Transactions`, `PageStates`).
//! - `beginning`, `operations`, `turns`: how transactions begin, update and undo, and how they
//!   commit, abort, end and prepare (`State`, `Outcomes`, `Steps`, `TurnsTaken`, `Holders`).
//! - `refusal`: why an operation is refused (`Refusals`).
//! - `framing`: the frames of records in a buffer (`Writing`).
//! - `checkpoints`: a begin record and an end record with the tables (`Listed`, `Taken`).
//! - `disk`: what is reported about the disk, and which pages may be written (`Runs`).
//! - `owned`: [`Journal`], the same over arrays of its own (`Owned`, `JournalState`).
//! - `laws`: what a crash leaves, after any number of lives (`Traces`, `Lives`, `Crash`,
//!   `Theorems`, `Files`, `Rollbacks`).
#![tactic(auto)]

mod beginning;
mod checkpoints;
mod disk;
mod entries;
mod framing;
mod image;
mod laws;
mod opening;
mod operations;
mod owned;
mod page_entry;
mod refusal;
mod reopening;
mod table;
mod turns;

pub use beginning::{begin, cancel};
pub use checkpoints::checkpoint;
pub use disk::{log_written, page_to_write, page_written};
pub use entries::{Head, PageEntry, PageImage, PendingEntry, TransactionEntry};
pub use framing::{compensation_size, put_compensation, put_update, update_size};
pub use image::Image;
pub use laws::{
    archive_reopens, can_roll_back, checkpoint_may_be_master, crash_is_lawful, crash_recovers,
    current_may_be_written, earlier_may_be_written, engine_survives, file_reads, forced_file_reads,
    frames_are_log, journal_can_roll_back, lives_survive, restart_reopens, synced_may_be_master,
};
pub use opening::new;
pub use operations::{holder, newest_pending, undo, update};
pub use owned::Journal;
pub use refusal::Refusal;
pub use reopening::open;
pub use turns::{Turn, take_turn};
