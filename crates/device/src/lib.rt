//! Devices: what bytes are read from and written to. Each may fail at any call. Recovery knows only
//! their traits, so it runs over files, over memory and over devices of yours.
//!
//! Entry points: the traits [`Source`] and [`Sink`], [`Reread`] for a source that can be read
//! again, [`Share`] for one that other threads read too, and [`Continue`] for a log that is
//! continued in place. [`read_all`] and [`write_all`] move all bytes.
//!
//! The promise: an error means that the device failed. If the contract of a device knows its bytes,
//! it says which were read or written, and which are flushed.
//!
//! The modules, in the order of the way through it, with their definitions in `specs/`:
//!
//! - `traits`, `failures`: what a device is, and the count of its failures, which only contracts
//!   see (`Failures`, `Continued`, `Reread`).
//! - `transfer`, `again`: loops that read or write everything, from the current place or from an
//!   offset (`Transfer`).
//! - `shared`: a source that several threads read at once, each by a reader of its own (`Shared`).
//! - `memory`, `kept`: devices over memory (`Memory`, `Kept`).
//! - `file`, `shared_file`: devices over files; a flush of one also syncs the file (`Files`).
//! - `slow`: devices for tests, which pass a few bytes a call and fail at a call chosen beforehand
//!   (`Slow`).
#![tactic(auto)]

mod again;
mod failures;
mod file;
mod kept;
mod memory;
mod shared;
mod shared_file;
mod slow;
mod traits;
mod transfer;

pub use again::read_full_at;
pub use failures::Failures;
pub use file::{FileLog, FileSink, FileSource};
pub use memory::{MemorySink, MemorySource, SharedBytes};
pub use shared::{Share, SharedReader, SharedSource, Span};
pub use shared_file::{SharedFile, SharedFileSource};
pub use slow::{Pace, SlowBytes, SlowSink, SlowSource};
pub use traits::{Continue, Failed, Reread, Sink, Source};
pub use transfer::{ReadFault, read_all, read_front, read_full, read_rest, write_all};
