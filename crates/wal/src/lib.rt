//! The log in bytes: its records, their frames, and how a log is read.
//!
//! Entry points: [`read_log`] reads a log that stays in its bytes, [`Log`] looks up its records, and
//! [`write_frame`] appends the frame of a record. [`read_log_by`] reads with several threads.
//!
//! The promise: bytes are a log and a torn tail if and only if the format says so; a record has
//! exactly one encoding; and an error is the first fault. What the records mean is in the crate
//! `log_laws`.
//!
//! The modules, in the order of the way through it, with their definitions in `specs/`:
//!
//! - `sizes`: how large the body of a frame and the tables of a checkpoint are (`Profile`).
//! - `record`: a record, owned, and which records have an encoding (`Content`, `Spelling`).
//! - `view`, `change`: a record that borrows from the bytes of a log; its transaction, the record
//!   before it, and what it puts into a cell.
//! - `field`: the fields of a record in bytes, read and written (`Reading`).
//! - `header`: the header of a log file (`Headers`).
//! - `head`, `frame`, `frame_size`: a record as a frame, written and read as a whole (`Head`,
//!   `Frames`).
//! - `next`, `glance`, `image`, `body`: the parts of a frame that most passes read: where it ends and
//!   what is seen of it, its cell, its image, its body (`Glances`).
//! - `offsets`, `part`, `stretch`, `joining`: frames one after another, and the stretches of a log
//!   that several threads read at once (`Stretches`).
//! - `reading`, `log`: the log that frames make, and its records by LSN (`Reads`).
//! - `checkpoint`: the checkpoint that a master names.
//! - `laws`: the laws of the bytes of a log, whole or cut (`Reads`, `Cut`).
#![tactic(auto)]

mod body;
mod change;
mod checkpoint;
mod field;
mod frame;
mod frame_size;
mod glance;
mod head;
mod header;
mod image;
mod joining;
mod laws;
mod log;
mod next;
mod offsets;
mod part;
mod reading;
mod record;
mod sizes;
mod stretch;
mod view;

pub use body::Body;
pub use change::Change;
pub use field::{dirty_bytes, entry_bytes};
pub use frame::{body_view, write_frame};
pub use glance::Glance;
pub use head::FrameHead;
pub use header::{based_header, header_bytes, plain_header, start_at};
pub use laws::{
    cuts_compose, cuts_settle, no_fault_of_a_log, numbers_of_a_log, numbers_of_logs, one_log_fault,
    one_reading,
};
pub use log::{Log, first_frames, read_log, read_log_behind, read_log_by};
pub use log_laws::{LogStart, State};
pub use next::{next_at, seen_at};
pub use record::{Entry, Record};
pub use sizes::{
    ABSENT, BASED_HEADER_BYTES, CELL_HEAD, CHECKPOINT_FRAME, DIRTY_BYTES, ENTRY_BYTES,
    LARGEST_BASE, LONGEST_FRAME, LSN_BYTES, PLAIN_FRAME, SMALLEST_FRAME,
};
pub use stretch::{Stretch, guess};
pub use view::{DirtyTable, RecordView, TransactionTable, value_of};
