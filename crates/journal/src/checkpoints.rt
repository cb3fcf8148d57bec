//! Checkpoints: one call appends the begin record and the end record.

ghost use Rattle.std.specs.Prelude.{◌≡◌, ◌≤◌, ◌+◌, ◌*◌, OnOk, OnErr, IfOk, IfErr, length, flat_map};
ghost use Rattle.page.specs.declared.profile.TheConstants.{PAGES, TRANSACTIONS};
ghost use Rattle.wal.specs.declared.sizes.TheConstants.{ENTRY_BYTES, DIRTY_BYTES};
ghost use Rattle.wal.specs.Spelling.{entry, dirty_page};
ghost use Rattle.journal.specs.Listed.{listed_entry, listed_dirty, entries_listed, dirty_listed, text_of, checkpoint_bytes};
ghost use Rattle.journal.specs.Writing.{Begins, Continues};
ghost use Rattle.journal.specs.declared.checkpoints.TheConstants.{LONGEST_CHECKPOINT};
ghost use Rattle.journal.specs.Refusals.{IsNotRoom};
ghost use Rattle.journal.specs.Outcomes.{LeavesRest, Takes, RefusesCheckpoint};

use crate::entries::{Head, PageEntry, TransactionEntry};
use crate::framing::{LENGTH_BYTES, put};
use crate::operations::{next_lsn, reserve, room_for};
use crate::refusal::Refusal;
use crate::table::used;
use page::{PAGES, TRANSACTIONS};
use wal::{
    CHECKPOINT_FRAME, DIRTY_BYTES, ENTRY_BYTES, FrameHead, LONGEST_FRAME, LSN_BYTES,
    SMALLEST_FRAME, dirty_bytes, entry_bytes,
};

/// How many bytes the frames of a checkpoint take at most.
pub const LONGEST_CHECKPOINT: usize = SMALLEST_FRAME + LONGEST_FRAME;

/// How many entries the transaction table has for a transaction: one if it has a record, else none.
fn row(entry: &TransactionEntry) -> usize
    ensures count { result ≡ length (listed_entry entry.now) }
    ensures few { result ≤ 1 }
{
    if entry.last != 0 { 1 } else { 0 }
}

/// How many entries the dirty page table has for a page: none if the disk is known to have all
/// changes of it, else one.
fn dirty_row(held: &PageEntry) -> usize
    ensures count { result ≡ length (listed_dirty held.now) }
    ensures few { result ≤ 1 }
{
    if held.rec_lsn != 0 { 1 } else { 0 }
}

/// How many transactions have a record.
fn listed(entries: &[TransactionEntry]) -> usize
    ensures count { result ≡ length (entries_listed entries.now) }
    ensures few { result ≤ length entries.now }
{
    let mut count = 0;
    for entry in entries {
        count += row(entry);
    }
    count
}

/// How many pages have changes that the disk is not known to have.
fn dirty(pages: &[PageEntry]) -> usize
    ensures count { result ≡ length (dirty_listed pages.now) }
    ensures few { result ≤ length pages.now }
{
    let mut count = 0;
    for held in pages {
        count += dirty_row(held);
    }
    count
}

/// Writes the entry of a transaction, if it has one. Returns the offset after it.
fn put_entry(out: &mut [u8], at: usize, row: &TransactionEntry) -> usize
    requires { at + ENTRY_BYTES * length (listed_entry row.now) ≤ length out.old }
    ensures end { result ≡ at + ENTRY_BYTES * length (listed_entry row.now) }
    ensures text { Continues (flat_map entry (listed_entry row.now)) at out.old out.new }
{
    if row.last == 0 {
        return at;
    }
    put(out, at, &entry_bytes(row.tx, row.entry()));
    at + ENTRY_BYTES
}

/// Writes the entry of a page, if it has one. Returns the offset after it.
fn put_dirty(out: &mut [u8], at: usize, held: &PageEntry) -> usize
    requires { at + DIRTY_BYTES * length (listed_dirty held.now) ≤ length out.old }
    ensures end { result ≡ at + DIRTY_BYTES * length (listed_dirty held.now) }
    ensures text { Continues (flat_map dirty_page (listed_dirty held.now)) at out.old out.new }
{
    if held.rec_lsn == 0 {
        return at;
    }
    put(out, at, &dirty_bytes(held.page.number, held.rec_lsn));
    at + DIRTY_BYTES
}

/// Writes the entries of a transaction table. Returns the offset after them.
fn put_entries(out: &mut [u8], at: usize, entries: &[TransactionEntry]) -> usize
    requires { at + ENTRY_BYTES * length (entries_listed entries.now) ≤ length out.old }
    ensures end { result ≡ at + ENTRY_BYTES * length (entries_listed entries.now) }
    ensures text { Continues (flat_map entry (entries_listed entries.now)) at out.old out.new }
{
    let mut end = at;
    for entry in entries {
        end = put_entry(out, end, entry);
    }
    end
}

/// Writes the entries of a dirty page table. Returns the offset after them.
fn put_dirties(out: &mut [u8], at: usize, pages: &[PageEntry]) -> usize
    requires { at + DIRTY_BYTES * length (dirty_listed pages.now) ≤ length out.old }
    ensures end { result ≡ at + DIRTY_BYTES * length (dirty_listed pages.now) }
    ensures text { Continues (flat_map dirty_page (dirty_listed pages.now)) at out.old out.new }
{
    let mut end = at;
    for held in pages {
        end = put_dirty(out, end, held);
    }
    end
}

/// Writes the frames of a checkpoint to the front of the buffer: its begin record has the LSN
/// `begin`, and its end record the next one. Returns the offset after them.
fn put_checkpoint(
    out: &mut [u8],
    begin: u64,
    lsn: u64,
    entries: &[TransactionEntry],
    rows: usize,
    pages: &[PageEntry],
    dirties: usize,
) -> usize
    requires lsn { lsn ≡ begin + 1 }
    requires rows { rows ≡ length (entries_listed entries.now) }
    requires few_rows { rows ≤ TRANSACTIONS }
    requires dirties { dirties ≡ length (dirty_listed pages.now) }
    requires few_dirties { dirties ≤ PAGES }
    requires room { checkpoint_bytes rows dirties ≤ length out.old }
    ensures text { Begins (text_of begin entries.now pages.now) out.old out.new }
    ensures size { result ≡ length (text_of begin entries.now pages.now) }
{
    let tables = ENTRY_BYTES * rows + DIRTY_BYTES * dirties;
    let first = FrameHead {
        length: (SMALLEST_FRAME - LENGTH_BYTES) as u32,
        kind: 6,
        lsn: begin,
    };
    put(out, 0, &first.bytes());
    let second = FrameHead {
        length: (CHECKPOINT_FRAME - LENGTH_BYTES + tables) as u32,
        kind: 7,
        lsn,
    };
    put(out, SMALLEST_FRAME, &second.bytes());
    put(out, 2 * SMALLEST_FRAME, &begin.to_be_bytes());
    let at = 2 * SMALLEST_FRAME + LSN_BYTES;
    put(out, at, &(rows as u32).to_be_bytes());
    let middle = put_entries(out, at + 4, entries);
    put(out, middle, &(dirties as u32).to_be_bytes());
    put_dirties(out, middle + 4, pages)
}

/// Takes a checkpoint: puts the frames of its begin record and of its end record at the front of
/// `frames`, for the caller to append to the log, and counts them in the head. After the call they
/// have the LSNs `head.last - 1` and `head.last`. Returns the length of both frames in bytes: 42,
/// and 21 for each transaction that has a record, and 12 for each page with changes that the disk
/// is not known to have.
///
/// The LSN of the begin record may become the store's master when the log is on the disk up to the
/// end record, and when each image that was reported to
/// [`page_written`](crate::page_written) before the call is synced.
///
/// Refused, and nothing changes:
/// - LogFull: too few LSNs are left for two more records and the rollback of all that may be
///   unfinished.
/// - NoFrameRoom: `frames` is shorter than both frames, which take this many bytes, at most 70,698.
/// - BadArrays: the arrays are not those of a journal.
pub fn checkpoint(
    head: &mut Head,
    transactions: &[TransactionEntry],
    pages: &[PageEntry],
    frames: &mut [u8],
) -> Result<usize, Refusal>
    ensures ok { IfOk result
        (Takes head.old head.new transactions.now pages.now frames.old frames.new) }
    ensures rest { LeavesRest head.old head.new }
    ensures size { IfOk result (λ size. size ≤ length frames.old) }
    ensures short { IfOk result (λ size. size ≤ LONGEST_CHECKPOINT) }
    ensures enough { LONGEST_CHECKPOINT ≤ length frames.old → IfErr result IsNotRoom }
    ensures count { head.new.transactions ≡ head.old.transactions }
    ensures updates { head.new.pending ≡ head.old.pending }
    ensures lsn { OnOk result (head.new.last ≡ head.old.last + 2) }
    ensures head { OnErr result (head.new ≡ head.old) }
    ensures frames { OnErr result (frames.new ≡ frames.old) }
    ensures refused { IfErr result
        (RefusesCheckpoint head.old transactions.now pages.now (length frames.old)) }
{
    let begin = next_lsn(head.last)?;
    let lsn = next_lsn(begin)?;
    let count = used(head.transactions, transactions.len())?;
    if count > TRANSACTIONS || pages.len() > PAGES {
        return Err(Refusal::BadArrays);
    }
    reserve(head.last, 2, count, head.pending)?;
    let entries = &transactions[..count];
    let rows = listed(entries);
    let dirties = dirty(pages);
    let tables = ENTRY_BYTES * rows + DIRTY_BYTES * dirties;
    let size = SMALLEST_FRAME + CHECKPOINT_FRAME + tables;
    room_for(frames, size)?;
    put_checkpoint(frames, begin, lsn, entries, rows, pages, dirties);
    head.last = lsn;
    Ok(size)
}
