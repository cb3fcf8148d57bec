//! The program `aries` without its `main`: recovery and audit of files. It also exports what an
//! engine in Rattle needs of the crates below.
//!
//! Entry points: [`run`] for the program, and [`recover`] for an engine.
//!
//! The promise is that of `recovery`. Which files are opened, made, synced and renamed here, and in
//! which order, is only tested.
//!
//! The modules, in the order of the way through it:
//!
//! - `program`: from the words to the exit status.
//! - `files`: from two files to two files, or an audit; in memory or in pieces.
//! - `in_pieces`: a recovery in pieces, for new files and in place; the workers share the log.
//! - `new_file`: owners and rights of new files, and how their names reach the disk.
//! - `in_place`: a recovery in place, which syncs what it finds, finishes it, and then recovers.
//! - `names`: which files a run in place may change.
//! - `left`: what an interrupted run left, and how it is finished.
//! - `new_tail`: the file of the tail while it is written.
//! - `verbose`: the lines on standard error, why a job failed, and with `--verbose` what it took.
#![tactic(auto)]

mod files;
mod in_pieces;
mod in_place;
mod left;
mod names;
mod new_file;
mod new_tail;
mod program;
mod verbose;

pub use program::run;

// What a caller needs of the crates below.
pub use command::{Job, Refusal, command_of};
pub use device::{
    Continue, Failed, FileLog, FileSink, FileSource, MemorySink, MemorySource, Reread, Share,
    SharedFile, SharedFileSource, SharedSource, Sink, Source, Span,
};
pub use held_store::HeldStore;
pub use page::{Fault, Page, Store};
pub use recovery::{
    Continuation, ContinuedLog, CopiedLog, NewLog, Recovery, Report, TailFile, audit_texts,
    audit_texts_over, continue_log, hold_store, no_fault_of_a_recovery, no_fault_of_lawful_texts,
    no_fault_of_lawful_texts_over, one_audit_fault, one_audit_fault_over, one_recovery,
    one_recovery_fault, recover, recover_in_pieces, recovery_alone, report_text,
};
pub use redo::{Gate, OpenGate, Parting};
pub use restart::{
    Options, Outcome, no_fault_of_a_restart, one_outcome, one_restart_fault, restart,
};
pub use undo::{no_fault_of_undo, one_undo_fault, undo};
pub use wal::Log;
