//! The records of a log.

ghost use Rattle.std.specs.Prelude.{◌≡◌, ◌<◌, ◌≤◌, ◌^◌, true, ◌↔◌, map, All};
ghost use Rattle.log_laws.specs.Records.{tx_in, page_in};
ghost use Rattle.wal.specs.Spelling.{Fits, FitsPlain, FitsEntry, FitsDirty, FitsTable};
ghost use Rattle.log_laws.specs.Checkpoint.{IsRising};
ghost use Rattle.wal.specs.Content.{entry_of, content};
ghost use Rattle.page.specs.declared.profile.TheConstants.{PAGES, TRANSACTIONS};
ghost use Rattle.page.specs.Image.{FitsSlot};

use log_laws::State;
use page::{PAGES, SLOTS, TRANSACTIONS, VALUE_BYTES, Value};

/// What a transaction table has for a transaction.
#[derive(Clone, Copy, Debug, PartialEq, Eq)]
pub struct Entry {
    /// Its state.
    pub state: State,
    /// LastLSN: the LSN of its last record, 0 if there is none.
    pub last: u64,
    /// UndoNxtLSN: the LSN at which its undo continues, 0 if there is none.
    pub undo_next: u64,
}

/// A record of the log, with what it holds. LSNs are numbers from 1; the first LSN of a log is the
/// one after its base LSN. 0 means none. A value is `None` if the slot is absent.
#[derive(Drop)]
pub enum Record {
    /// A transaction changed a slot of a page, from the value before to the value after. `prev` is
    /// the LSN of the transaction's previous record.
    Update {
        tx: u32,
        prev: u64,
        page: u32,
        slot: u8,
        before: Option<Value>,
        after: Option<Value>,
    },
    /// A compensation log record (CLR): an update was undone, and the slot has this image. Undo
    /// continues at `undo_next`.
    Compensation {
        tx: u32,
        prev: u64,
        page: u32,
        slot: u8,
        undo_next: u64,
        image: Option<Value>,
    },
    /// A transaction has committed.
    Commit {
        tx: u32,
        prev: u64,
    },
    /// A transaction asked to be rolled back.
    Abort {
        tx: u32,
        prev: u64,
    },
    /// A transaction has ended.
    End {
        tx: u32,
        prev: u64,
    },
    /// A transaction has prepared to commit. It does no more work, and stays in doubt after a crash
    /// until a commit or an abort of it is logged.
    Prepare {
        tx: u32,
        prev: u64,
    },
    /// A checkpoint began.
    CheckpointBegin,
    /// The checkpoint that began at the LSN `begin`, with the transaction table and the dirty page
    /// table (page and RecLSN) as they were at its begin record.
    CheckpointEnd {
        begin: u64,
        transactions: Vec<(u32, Entry)>,
        dirty: Vec<(u32, u64)>,
    },
}

impl Record {
    /// Whether it has an encoding: a transaction number is at least 1 and a slot below [`SLOTS`].
    /// The tables of a checkpoint end have at most [`TRANSACTIONS`] and [`PAGES`] entries, in
    /// ascending order of number.
    pub fn is_writable(&self) -> bool
        ensures { result ≡ true ↔ Fits (content self.now) }
    {
        match self {
            Record::Update {
                tx,
                prev,
                page,
                slot,
                before,
                after,
            } => is_plain(*tx, *prev) && is_cell(*page, *slot) && fits(before) && fits(after),
            Record::Compensation {
                tx,
                prev,
                page,
                slot,
                undo_next,
                image,
            } => {
                is_plain(*tx, *prev) && is_cell(*page, *slot) && is_lsn(*undo_next) && fits(image)
            }
            Record::Commit { tx, prev } => is_plain(*tx, *prev),
            Record::Abort { tx, prev } => is_plain(*tx, *prev),
            Record::End { tx, prev } => is_plain(*tx, *prev),
            Record::Prepare { tx, prev } => is_plain(*tx, *prev),
            Record::CheckpointBegin => true,
            Record::CheckpointEnd {
                begin,
                transactions,
                dirty,
            } => is_lsn(*begin) && is_transaction_table(transactions) && is_dirty_table(dirty),
        }
    }
}

/// Whether the fields with which the records of a transaction begin have an encoding: no
/// transaction has the number 0.
fn is_plain(tx: u32, prev: u64) -> bool
    ensures { result ≡ true ↔ FitsPlain (record { tx = tx; prev = prev }) }
{
    tx > 0
}

/// Whether a page and a slot have an encoding: a page has `SLOTS` slots.
fn is_cell(page: u32, slot: u8) -> bool
    ensures { result ≡ true ↔ (page < 2 ^ 32) × (slot < SLOTS) }
{
    (slot as usize) < SLOTS
}

/// Whether an LSN, or the 0 that stands for none, has an encoding. Each does: a field of an LSN has
/// the eight bytes of a `u64`.
fn is_lsn(lsn: u64) -> bool
    ensures { result ≡ true ↔ lsn < 2 ^ 64 }
{
    true
}

/// Whether an image has an encoding: a value has at most `VALUE_BYTES` bytes.
fn fits(value: &Option<Value>) -> bool
    ensures { result ≡ true ↔ FitsSlot value.now }
{
    match value {
        None => true,
        Some(value) => value.as_slice().len() <= VALUE_BYTES,
    }
}

/// Whether a transaction and its entry in a transaction table have an encoding.
fn is_entry(tx: u32, entry: Entry) -> bool
    ensures { result ≡ true ↔ FitsEntry (entry_of (tx, entry)) }
{
    tx > 0 && is_lsn(entry.last) && is_lsn(entry.undo_next)
}

/// Whether a page and its RecLSN have an encoding in a dirty page table. All do.
fn is_dirty_page(page: u32, rec_lsn: u64) -> bool
    ensures { result ≡ true ↔ FitsDirty (page, rec_lsn) }
{
    true
}

/// Whether the entries are a transaction table that has an encoding: not too many, in ascending
/// order of transaction.
#[tactic(auto, using(crate::proofs::Rising::entries_fit))]
fn is_transaction_table(entries: &[(u32, Entry)]) -> bool
    ensures { result ≡ true ↔ FitsTable TRANSACTIONS tx_in FitsEntry (map entry_of entries.now) }
{
    entries.len() <= TRANSACTIONS && are_entries(entries)
}

/// Whether the entries are a dirty page table that has an encoding: not too many, in ascending
/// order of page.
#[tactic(auto, using(crate::proofs::Rising::dirty_pages_fit))]
fn is_dirty_table(entries: &[(u32, u64)]) -> bool
    ensures { result ≡ true ↔ FitsTable PAGES page_in FitsDirty entries.now }
{
    entries.len() <= PAGES && are_dirty_pages(entries)
}

/// Whether each entry has an encoding, and they are in ascending order of transaction.
fn are_entries(entries: &[(u32, Entry)]) -> bool
    ensures { result ≡ true ↔ All (λ x. FitsEntry (entry_of x)) entries.now
        × IsRising (map (λ x. x.0) entries.now) }
{
    let mut low = 0;
    for (tx, entry) in entries {
        let number = *tx as u64;
        if number < low {
            return false;
        }
        if !is_entry(*tx, *entry) {
            return false;
        }
        low = number + 1;
    }
    true
}

/// Whether each entry has an encoding, and they are in ascending order of page.
fn are_dirty_pages(entries: &[(u32, u64)]) -> bool
    ensures { result ≡ true ↔ All FitsDirty entries.now × IsRising (map (λ x. x.0) entries.now) }
{
    let mut low = 0;
    for (page, rec_lsn) in entries {
        let number = *page as u64;
        if number < low {
            return false;
        }
        if !is_dirty_page(*page, *rec_lsn) {
            return false;
        }
        low = number + 1;
    }
    true
}
