//! What a log or a store holds, in lines that people and programs read.
//!
//! Entry points: [`list_log`] and [`list_store`]. A [`Choice`] says which records are asked for, a
//! [`Style`] how a line is written.
//!
//! The promise: there is a line for each record or page that is asked for. A damaged log is listed
//! up to its fault, a damaged store by its whole pages.
//!
//! The modules, in the order of the way through it, with their definitions in `specs/`:
//!
//! - `log_lines`, `choice`: a log with its header, records and torn tail (`LogLines`, `Choice`).
//! - `record`, `tables`: the line of a record, and the tables of a checkpoint in it (`Record`,
//!   `Tables`).
//! - `store_lines`: a store with its header and pages (`StoreLines`).
//! - `line`, `style`: the fields of a line, as text or as JSON (`Line`).
//! - `value`, `escape`: a value as text between quotes, and in hexadecimal (`Values`).
//! - `stop`: what ends a listing, a fault or a print that failed.
//! - `laws`: the offset in a line is that of the frame.
#![tactic(auto)]

mod choice;
mod escape;
mod laws;
mod line;
mod log_lines;
mod record;
mod stop;
mod store_lines;
mod style;
mod tables;
mod value;

pub use choice::Choice;
pub use laws::frames_stand_there;
pub use log_lines::list_log;
pub use stop::Stop;
pub use store_lines::list_store;
pub use style::Style;
