//! A record as it is in the bytes of a log.

ghost use Rattle.std.specs.Prelude.{ℕ, slice_index_or, ◌≡◌, ◌<◌, ◌*◌, ◌≤◌, length, map, option_map, IfSome, IfOk, IsOkUnless};
ghost use Rattle.std.specs.List.{slice_get};
ghost use Rattle.log_laws.specs.Records.{TableEntry, tx_in, page_in};
ghost use Rattle.wal.specs.Reading.{entry_at, dirty_at, table_at, entries_in, AreEntries, dirties_in, AreDirties};
ghost use Rattle.wal.specs.Spelling.{Fits};
ghost use Rattle.wal.specs.Content.{entry_of, content, shown};
ghost use Rattle.page.specs.declared.fault.Fault.TheVariants.{NoResource};
ghost use Rattle.page.specs.declared.profile.TheConstants.{VALUE_BYTES};

use crate::field::{dirty_at, entry_at};
use crate::record::{Entry, Record};
use crate::sizes::{DIRTY_BYTES, ENTRY_BYTES};
use page::{Fault, Value};
use std::alloc::{AllocError, Global};
use std::marker::Model;

/// The transaction table of a checkpoint end, borrowed from the log: an entry is decoded at use.
/// Contracts see the list of its entries.
#[derive(Drop)]
pub struct TransactionTable<'a> {
    bytes: &'a [u8],
    count: usize,
}

impl<'a> Model for TransactionTable<'a> {
    ghost use Rattle.std.specs.Prelude.{List};
    ghost use Rattle.log_laws.specs.Records.{TableEntry};

    ghost Value = { List TableEntry };

    ghost use Rattle.wal.specs.Reading.{entries_in, AreEntries};

    ghost view = { λ t. entries_in t.count t.bytes.now };

    ghost invariant = { λ t. AreEntries t.count t.bytes.now };
}

impl<'a> TransactionTable<'a> {
    /// How many entries it has.
    pub fn len(&self) -> usize
        ensures { result ≡ length self.now }
    {
        self.count
    }

    /// The transaction and its entry at a place from 0, in ascending order of transaction; `None`
    /// past the end.
    pub fn get(&self, place: usize) -> Option<(u32, Entry)>
        ensures { option_map entry_of result ≡ slice_get self.now place }
    {
        if place >= self.count {
            return None;
        }
        entry_in(self.bytes, self.count, place)
    }

    /// The transaction and its entry at a place from 0 that is below `len`.
    pub fn entry(&self, place: usize) -> (u32, Entry)
        requires { place < length self.now }
        ensures { (other : TableEntry) → slice_index_or self.now place other ≡ entry_of result }
    {
        match self.get(place) {
            Some(entry) => entry,
            None => unreachable!(),
        }
    }
}

/// The transaction and its entry at a place of a table of `count` entries.
fn entry_in(bytes: &[u8], count: usize, place: usize) -> Option<(u32, Entry)>
    requires table { AreEntries count bytes.now }
    requires place { place < count }
    ensures { option_map entry_of result ≡ slice_get (entries_in count bytes.now) place }
{
    let (_, rest) = bytes.split_at(ENTRY_BYTES * place);
    let (tx, entry, _) = entry_at(rest)?;
    Some((tx, entry))
}

/// The dirty page table of a checkpoint end, borrowed from the log: an entry is decoded at use.
/// Contracts see the list of its entries.
#[derive(Drop)]
pub struct DirtyTable<'a> {
    bytes: &'a [u8],
    count: usize,
}

impl<'a> Model for DirtyTable<'a> {
    ghost use Rattle.std.specs.Prelude.{ℕ, List};

    ghost Value = { List (ℕ × ℕ) };

    ghost use Rattle.wal.specs.Reading.{dirties_in, AreDirties};

    ghost view = { λ t. dirties_in t.count t.bytes.now };

    ghost invariant = { λ t. AreDirties t.count t.bytes.now };
}

impl<'a> DirtyTable<'a> {
    /// How many entries it has.
    pub fn len(&self) -> usize
        ensures { result ≡ length self.now }
    {
        self.count
    }

    /// The page and its RecLSN at a place from 0, in ascending order of page; `None` past the end.
    pub fn get(&self, place: usize) -> Option<(u32, u64)>
        ensures { result ≡ slice_get self.now place }
    {
        if place >= self.count {
            return None;
        }
        dirty_in(self.bytes, self.count, place)
    }

    /// The page and its RecLSN at a place from 0 that is below `len`.
    pub fn entry(&self, place: usize) -> (u32, u64)
        requires { place < length self.now }
        ensures { (other : ℕ × ℕ) → slice_index_or self.now place other ≡ result }
    {
        match self.get(place) {
            Some(entry) => entry,
            None => unreachable!(),
        }
    }
}

/// The page and its RecLSN at a place of a table of `count` entries.
fn dirty_in(bytes: &[u8], count: usize, place: usize) -> Option<(u32, u64)>
    requires table { AreDirties count bytes.now }
    requires place { place < count }
    ensures { result ≡ slice_get (dirties_in count bytes.now) place }
{
    let (_, rest) = bytes.split_at(DIRTY_BYTES * place);
    let (page, rec_lsn, _) = dirty_at(rest)?;
    Some((page, rec_lsn))
}

/// A table of `count` entries at the front, in ascending order of transaction, and the bytes after
/// it.
pub fn entries_at(count: u32, bytes: &[u8]) -> Option<(TransactionTable, &[u8])>
    ensures { option_map (λ x. (x.0, x.1.now)) result ≡ table_at tx_in entry_at count 0 bytes.now }
{
    let mut low = 0u64;
    let mut rest = bytes;
    for _ in 0..count {
        let (tx, _, after) = entry_at(rest)?;
        let number = tx as u64;
        if number < low {
            return None;
        }
        low = number + 1;
        rest = after;
    }
    let table = TransactionTable {
        bytes,
        count: count as usize,
    };
    Some((table, rest))
}

/// A table of `count` entries at the front, in ascending order of page, and the bytes after it.
pub fn dirties_at(count: u32, bytes: &[u8]) -> Option<(DirtyTable, &[u8])>
    ensures { option_map (λ x. (x.0, x.1.now)) result
        ≡ table_at page_in dirty_at count 0 bytes.now }
{
    let mut low = 0u64;
    let mut rest = bytes;
    for _ in 0..count {
        let (page, _, after) = dirty_at(rest)?;
        let number = page as u64;
        if number < low {
            return None;
        }
        low = number + 1;
        rest = after;
    }
    let table = DirtyTable {
        bytes,
        count: count as usize,
    };
    Some((table, rest))
}

/// A record as it is in the bytes of a log. Values and tables are borrowed from them.
#[derive(Drop)]
pub enum RecordView<'a> {
    /// A transaction changed a slot of a page, from the value before to the value after.
    Update {
        tx: u32,
        prev: u64,
        page: u32,
        slot: u8,
        before: Option<&'a [u8]>,
        after: Option<&'a [u8]>,
    },
    /// A compensation log record (CLR): an update was undone, and the slot has this image.
    Compensation {
        tx: u32,
        prev: u64,
        page: u32,
        slot: u8,
        undo_next: u64,
        image: Option<&'a [u8]>,
    },
    /// A transaction has committed.
    Commit {
        tx: u32,
        prev: u64,
    },
    /// A transaction asked to be rolled back.
    Abort {
        tx: u32,
        prev: u64,
    },
    /// A transaction has ended.
    End {
        tx: u32,
        prev: u64,
    },
    /// A transaction has prepared to commit.
    Prepare {
        tx: u32,
        prev: u64,
    },
    /// A checkpoint began.
    CheckpointBegin,
    /// The checkpoint that began at this LSN, with the tables as they were at its begin record.
    CheckpointEnd {
        begin: u64,
        transactions: TransactionTable<'a>,
        dirty: DirtyTable<'a>,
    },
}

impl<'a> RecordView<'a> {
    /// The record that it shows, with memory of its own. NoResource if memory for a table was
    /// refused. The views that `Log::get` returns fit.
    pub fn to_record(&self, alloc: Global) -> Result<Record, Fault>
        requires { Fits (shown self.now) }
        ensures ok { IfOk result (λ r. content r ≡ shown self.now) }
        ensures err { IsOkUnless result NoResource }
    {
        let record = match self {
            RecordView::Update {
                tx,
                prev,
                page,
                slot,
                before,
                after,
            } => Record::Update {
                tx: *tx,
                prev: *prev,
                page: *page,
                slot: *slot,
                before: value_of(*before),
                after: value_of(*after),
            },
            RecordView::Compensation {
                tx,
                prev,
                page,
                slot,
                undo_next,
                image,
            } => Record::Compensation {
                tx: *tx,
                prev: *prev,
                page: *page,
                slot: *slot,
                undo_next: *undo_next,
                image: value_of(*image),
            },
            RecordView::Commit { tx, prev } => Record::Commit {
                tx: *tx,
                prev: *prev,
            },
            RecordView::Abort { tx, prev } => Record::Abort {
                tx: *tx,
                prev: *prev,
            },
            RecordView::End { tx, prev } => Record::End {
                tx: *tx,
                prev: *prev,
            },
            RecordView::Prepare { tx, prev } => Record::Prepare {
                tx: *tx,
                prev: *prev,
            },
            RecordView::CheckpointBegin => Record::CheckpointBegin,
            RecordView::CheckpointEnd {
                begin,
                transactions,
                dirty,
            } => Record::CheckpointEnd {
                begin: *begin,
                transactions: entries_of(alloc, transactions)?,
                dirty: dirty_pages_of(alloc, dirty)?,
            },
        };
        Ok(record)
    }
}

/// The value of an image that a view borrows; an image of a log has at most
/// [`page::VALUE_BYTES`] bytes.
pub fn value_of(image: Option<&[u8]>) -> Option<Value>
    requires { IfSome image (λ bytes. length bytes.now ≤ VALUE_BYTES) }
    ensures { result ≡ option_map (λ bytes. bytes.now) image.entry }
{
    match image {
        None => None,
        Some(bytes) => Value::new(bytes),
    }
}

/// The entries of a borrowed transaction table, in its order, as a vector. The only error is a lack
/// of memory.
fn entries_of(alloc: Global, table: &TransactionTable) -> Result<Vec<(u32, Entry)>, AllocError>
    ensures { IfOk result (λ entries. map entry_of entries.items ≡ table.now) }
{
    let mut entries = Vec::with_capacity(alloc, table.len())?;
    for place in 0..table.len() {
        entries.push(table.entry(place))?;
    }
    Ok(entries)
}

/// The entries of a borrowed dirty page table, in its order, as a vector. The only error is a lack
/// of memory.
fn dirty_pages_of(alloc: Global, table: &DirtyTable) -> Result<Vec<(u32, u64)>, AllocError>
    ensures { IfOk result (λ entries. entries.items ≡ table.now) }
{
    let mut entries = Vec::with_capacity(alloc, table.len())?;
    for place in 0..table.len() {
        entries.push(table.entry(place))?;
    }
    Ok(entries)
}
