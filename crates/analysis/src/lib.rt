//! Analysis, the first pass of a restart: it finds the tables of a crash in a log, from the
//! checkpoint that the store's master names up to the end.
//!
//! Entry points: [`analyse`] takes a whole log. If a log is read record after record,
//! [`CheckpointScan`] finds the tables of the checkpoint, and from these on [`TableScan`] those of
//! the crash. Without a checkpoint [`FreshScan`] finds them, without the dirty pages. If several
//! threads look at one stretch of the log each, [`StretchScan`] finds what it does to the transaction
//! table, and [`TransactionScan`] joins it; without a checkpoint [`FreshStretch`] and [`FreshScan`]
//! do so.
//!
//! The promise: on every log it finds the tables of the definition. On a lawful log and its store
//! they list exactly the unfinished transactions, and redo by them skips no record that a page
//! lacks.
//!
//! The modules, in the order of the way through it, with their definitions in `specs/`:
//!
//! - `pass`: both tables together (`Tables`).
//! - `base`: the tables of the checkpoint, from which the scan begins.
//! - `apart`, `dirty`: each table on its own, since redo needs only the pages and undo only the
//!   transactions.
//! - `scan`, `kept`: what one more record does to the tables, and where entries are found quickly
//!   (`Steps`).
//! - `checkpoint_scan`, `table_scan`, `transaction_scan`, `page_scan`: the same for a log that is
//!   read record after record, or in pieces (`Passing`).
//! - `fresh_scan`: the same without a checkpoint. The dirty pages are not listed (`Fresh`).
//! - `stretch_scan`, `stretch_join`, `stretch_laws`: a stretch of the log that is looked at without
//!   the table before it, and then joined to that table (`Stretch`).
//! - `fresh_stretch`: the same without a checkpoint (`Fresh`).
//! - `laws`: a log has one pair of tables, and at most one fault.
#![tactic(auto)]

mod apart;
mod base;
mod checkpoint_scan;
mod dirty;
mod fresh_scan;
mod fresh_stretch;
mod kept;
mod laws;
mod page_scan;
mod pass;
mod scan;
mod stretch_join;
mod stretch_laws;
mod stretch_scan;
mod table_scan;
mod transaction_scan;

pub use apart::{analyse_transactions, join_tables};
pub use checkpoint_scan::CheckpointScan;
pub use dirty::analyse_pages;
pub use fresh_scan::FreshScan;
pub use fresh_stretch::FreshStretch;
pub use laws::{entries_go_on, no_fault_of_tables, one_base_fault, one_tables, rec_lsns_go_on};
pub use page_scan::PageScan;
pub use pass::analyse;
pub use stretch_laws::{stretches_are_described, stretches_go_on};
pub use stretch_scan::StretchScan;
pub use table_scan::TableScan;
pub use tables::Tables;
pub use transaction_scan::TransactionScan;
