//! The functions for programs in C, and in other languages by way of C. They are declared in
//! `include/aries.h`. The caller owns all buffers, and no file is touched.
//!
//! Entry points: [`aries_recover`] and [`aries_audit`] for files of an engine, and the calls
//! `aries_journal_...` for an engine that runs.
//!
//! The promise: a call that returns 0 has written its result to the buffers of the caller. Any
//! other number has its cause, and then the buffers are unchanged.
//!
//! The modules, in the order of the way through it, with their definitions in `specs/`:
//!
//! - `recovered`, `audited`: recovery and audit from buffer to buffer (`Recovered`).
//! - `fault`, `text`: the error of a call, with its number, its place and its text (`Fault`).
//! - `room`: buffers of the caller, which may be too short.
//! - `record`, `checkpoint`: records and tables as C has them (`Image`, `Record`, `Tables`).
//! - `dump`: the records of a log, many at a time (`Dump`).
//! - `marks`, `unfinished`: a log record by record, its end, and what an engine has to know that
//!   continues it (`Marks`, `Unfinished`).
//! - `log_writing`, `frames`, `pages`: what an engine writes without a journal, which is frames,
//!   pages and headers (`Writing`, `LogHeader`, `Pages`).
//! - `journal_opening`, `journaling`, `journal_disk`: a journal over arrays of the caller, how it
//!   is opened, its operations, the disk (`Journaling`, `JournalCalls`).
//! - `refusal`: the refusals of a journal, as C gets them.
#![tactic(auto)]

mod audited;
mod checkpoint;
mod dump;
mod fault;
mod frames;
mod journal_disk;
mod journal_opening;
mod journaling;
mod log_writing;
mod marks;
mod pages;
mod record;
mod recovered;
mod refusal;
mod room;
mod text;
mod unfinished;

pub use audited::{aries_audit, aries_audit_from};
pub use checkpoint::{DirtyPage, Entry, Tables};
pub use dump::{Read, aries_checkpoint, aries_records};
pub use fault::Fault;
pub use journal_disk::{
    aries_journal_checkpoint, aries_journal_log_written, aries_journal_page_to_write,
    aries_journal_page_written,
};
pub use journal_opening::{aries_journal_new, aries_journal_open};
pub use journaling::{
    aries_journal_begin, aries_journal_cancel, aries_journal_newest, aries_journal_turn,
    aries_journal_undo, aries_journal_update,
};
pub use log_writing::{aries_write_checkpoint_end, aries_write_log_header, aries_write_record};
pub use marks::{LogEnd, Mark, aries_log_begin, aries_log_end, aries_next_record};
pub use pages::{aries_read_page, aries_write_page, aries_write_store_header};
pub use record::Record;
pub use recovered::{Recovered, aries_recover};
pub use text::aries_fault_text;
pub use unfinished::{LogState, aries_unfinished};
