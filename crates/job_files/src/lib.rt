//! The files of a job, as both programs see them: what is noted of each while it is read or
//! written, the lock of a log, and what lies next to a log.
//!
//! Entry points: [`NotedFile`] wraps a file, and [`Notes`] has what was noted; [`try_lock`] locks a
//! log; [`notice`] prints why a log may not be whole.
//!
//! The promise: a noted file passes the bytes of the file on as they are. The lines and the lock
//! are only tested.
//!
//! The modules, in the order of the way through it, with their definitions in `specs/`:
//!
//! - `noted`: how much was read or written and when, and which call failed (`Noted`).
//! - `line`: the line that says why a file failed.
//! - `lock`: the exclusive lock that each program holds that changes a log.
//! - `beside`: the names of files next to a log.
//! - `notices`: what a program prints before it reads a log that may not be whole.
#![tactic(auto)]

mod beside;
mod line;
mod lock;
mod noted;
mod notices;

pub use beside::{folder_of, is_kept, real_name, tail_name};
pub use line::{Name, tell_failure, tell_let_pass};
pub use lock::{is_regular, try_lock};
pub use noted::{Call, Failure, NotedFile, Notes, Refusal};
pub use notices::notice;
