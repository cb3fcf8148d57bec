//! The rollbacks of undo, and restarts.

mod both_ways;
mod gathered;
mod in_pieces;
mod restarts;
mod rollbacks;
mod written_pages;

use page::Fault;
use wal::Record;
use worked_rows::written::Text;

/// A log followed by these records.
fn with_appended(text: &Text, appended: &[Record]) -> Result<Vec<u8>, Fault> {
    let mut whole = text.copied()?;
    for entry in appended {
        whole.put(entry)?;
    }
    Ok(whole.bytes)
}
