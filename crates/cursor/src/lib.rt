//! A log in bytes that is read record by record, from any record on; and where a log in bytes ends.
//!
//! Entry points: [`log_begin`] and [`next_record`], and [`log_end`]. No call allocates memory, and
//! none reads more than it says.
//!
//! The promise: the record after a mark is the next one of the log. As many bytes as `log_end` says
//! are a log without a torn tail, and no longer beginning of them is.
//!
//! The modules, in the order of the way through it, with their definitions in `specs/`:
//!
//! - `reading`: the first mark, and the record after a mark (`Ends`).
//! - `ending`: the last mark, and what follows it, which is nothing, a torn tail, or a fault.
//! - `laws`: a fault after a mark is that of the whole log.
#![tactic(auto)]

mod ending;
mod laws;
mod reading;

pub use ending::{Rest, log_end};
pub use laws::fault_is_of_log;
pub use reading::{log_begin, next_record};
