//! Worked rows for tests: logs written record by record, ten pages with a gate that holds the
//! workers, and pages that are in memory or not.
#![tactic(auto)]

pub mod held;
pub mod ten_pages;
pub mod written;
