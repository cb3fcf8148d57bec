//! Recovery: from the bytes of a log and a store to a new log, a recovered store and a report. And
//! the audit of such bytes.
//!
//! Entry points: [`recovery_alone`] from buffer to buffer; [`recover`] over devices, with both logs
//! and both stores in memory; [`recover_in_pieces`] with a few pieces of the log and one of the store
//! in memory, which copies the log ([`CopiedLog`]) or continues it in place ([`ContinuedLog`]).
//! [`hold_store`] reads a store into memory for it.
//!
//! The promise: on lawful bytes the new log is the old one and its tail, and the new store has
//! exactly the effects of the committed and in-doubt transactions. A recovery may be killed at any
//! moment and run again. The only errors are `NoResource` (memory was refused, or a limit was
//! reached) and failures of devices.
//!
//! The modules, in the order of the way through it, with their definitions in `specs/`:
//!
//! - `unthreaded`: bytes in memory, without threads; begin to read here.
//! - `recovery`, `report`: from what was read to what is written, and the eight lines about it
//!   (`Recovery`, `Text`, `Calls`).
//! - `devices`: `recover`, which reads both sources, restarts, and writes the log and then the
//!   store (`Devices`).
//! - `log_text`, `decoding`, `store_pieces`: the log read and decoded while the store is read
//!   (`LogText`).
//! - `log_bytes`: the bytes of the old log that are kept.
//! - `first_reading`, `by_pieces`: what is made of a log and a store that are read in pieces
//!   (`ByPieces`); `log_again`: the log once more; `store_changes`: the store once more, changed
//!   (`StoreChanges`); `reading`: one piece of a device.
//! - `in_pieces`, `new_log`: `recover_in_pieces`, and where the new log goes (`NewLogs`): as a copy
//!   (`copying`, `Copying`), or in place (`in_place`, `tail_file`, `InPlace`, `TailFile`). In place
//!   a file is written first, by which the caller can finish what was interrupted. The crate
//!   `aries` opens, renames and removes that file.
//! - `texts`: the audit of bytes (`Audit`).
//! - `laws`: one recovery, at most one fault (`OneAnswer`).
#![tactic(auto)]

mod by_pieces;
mod copying;
mod decoding;
mod devices;
mod first_reading;
mod in_pieces;
mod in_place;
mod laws;
mod log_again;
mod log_bytes;
mod log_text;
mod new_log;
mod reading;
mod recovery;
mod report;
mod store_changes;
mod store_pieces;
mod tail_file;
mod texts;
mod unthreaded;

pub use by_pieces::Continuation;
pub use copying::CopiedLog;
pub use devices::{read_source, recover};
pub use first_reading::hold_store;
pub use in_pieces::recover_in_pieces;
pub use in_place::{ContinuedLog, continue_log};
pub use laws::{
    no_fault_of_a_recovery, no_fault_of_lawful_texts, no_fault_of_lawful_texts_over,
    one_audit_fault, one_audit_fault_over, one_recovery, one_recovery_fault,
};
pub use new_log::NewLog;
pub use recovery::Recovery;
pub use report::{Report, report_text};
pub use tail_file::TailFile;
pub use texts::{audit_texts, audit_texts_over};
pub use unthreaded::recovery_alone;
