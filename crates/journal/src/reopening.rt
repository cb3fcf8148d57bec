//! How a journal is opened over a log that has records, and a store whose pages have all that the
//! log made of them, as a recovery leaves both.

ghost use Rattle.std.specs.Prelude.{◌≡◌, ◌≢◌, ◌+◌, ◌-◌, ◌≤◌, ◌<◌, ◌⊎◌, Some, All, take, drop, length, map, IfOk, OnOk, IfErr, OnErr, IsOkUnless};
ghost use Rattle.std.specs.List.{insert};
ghost use Rattle.log_laws.specs.Records.{Update, Compensation, Abort, Prepare, Commit, End, ◌▸◌, history, last_lsn};
ghost use Rattle.log_laws.specs.Meaning.{owner};
ghost use Rattle.wal.specs.Spelling.{Fits};
ghost use Rattle.wal.specs.Content.{shown};
ghost use Rattle.page.specs.declared.profile.TheConstants.{TRANSACTIONS};
ghost use Rattle.journal.specs.declared.refusal.Refusal.TheVariants.{NoNumber, TooManyTransactions};
ghost use Rattle.journal.specs.declared.entries.TransactionEntry.{TransactionEntry};
ghost use Rattle.journal.specs.Transactions.{next_after};
ghost use Rattle.journal.specs.PageStates.{clean, IsUpToDate, IsCurrentSoFar, IsOneBehind};
ghost use Rattle.journal.specs.Opened.{HasPageBehind, largest_number};
ghost use Rattle.journal.specs.Arrays.{page_state_of, unless_0, IsTable};
ghost use Rattle.journal.specs.Scan.{fresh, IsNoteRefusal, Enters, IsStranger, Leaves, NotesUpdate, RefusesUpdateNote, NotesUndo, RefusesUndoNote, Notes, RefusesStateNote, NotesRecord, RefusesNote, NotesWriter, AreCleaned};
ghost use Rattle.journal.specs.Outcomes.{ContinuesIn, RefusesOpen};

use crate::entries::{Head, PageEntry, PendingEntry, TransactionEntry};
use crate::image::Image;
use crate::opening::fill_pages;
use crate::operations::reserve;
use crate::refusal::Refusal;
use crate::table::{find, finish, newest, note_state, note_undo, note_update, room_for_one};
use page::{Store, TRANSACTIONS};
use wal::{Log, RecordView};

/// How many of these transactions have a number below this one.
fn place_of(entries: &[TransactionEntry], tx: u32) -> usize
    ensures within { result ≤ length entries.now }
    ensures below { All (λ e. e.tx < tx) (take result entries.now) }
    ensures above { IsTable entries.now → All (λ e. tx ≤ e.tx) (drop result entries.now) }
{
    for place in 0..entries.len() {
        if entries[place].tx >= tx {
            return place;
        }
    }
    entries.len()
}

/// Inserts a transaction without records into the first `count`, at this place.
fn put_in(transactions: &mut [TransactionEntry], count: usize, place: usize, tx: u32)
    requires place { place ≤ count }
    requires count { count < length transactions.old }
    ensures { take (count + 1) transactions.new
        ≡ insert (take count transactions.old) place (fresh tx) }
{
    transactions[place..count + 1].rotate_right(1);
    transactions[place] = TransactionEntry {
        last: 0,
        undo_next: 0,
        below: 0,
        tx,
        state: 0,
    };
}

/// The place of a transaction, which is inserted if it is not there. Also returns how many
/// transactions there are then. The only error is `TooManyTransactions`.
fn enter(
    transactions: &mut [TransactionEntry],
    count: usize,
    tx: u32,
) -> Result<(usize, usize), Refusal>
    requires { count ≤ length transactions.old }
    ensures place { IfOk result (λ r. r.0 < r.1) }
    ensures within { IfOk result (λ r. r.1 ≤ length transactions.old) }
    ensures few { IfOk result (λ r. count ≤ TRANSACTIONS → r.1 ≤ TRANSACTIONS) }
    ensures entered { IfOk result (Enters tx (take count transactions.old) transactions.new) }
    ensures err { IsOkUnless result TooManyTransactions }
    ensures full { OnErr result ((TRANSACTIONS ≤ count) ⊎ (length transactions.old ≤ count)) }
    ensures stranger { OnErr result (IsStranger tx (take count transactions.old)) }
{
    if let Some(place) = find(&transactions[..count], tx) {
        return Ok((place, count));
    }
    if count >= TRANSACTIONS || count >= transactions.len() {
        return Err(Refusal::TooManyTransactions);
    }
    let place = place_of(&transactions[..count], tx);
    put_in(transactions, count, place, tx);
    Ok((place, count + 1))
}

/// Removes a transaction, if it is there. Returns how many are left.
fn leave(transactions: &mut [TransactionEntry], count: usize, tx: u32) -> usize
    requires { count ≤ length transactions.old }
    ensures few { result ≤ count }
    ensures left { Leaves tx (take count transactions.old) (take result transactions.new) }
{
    match find(&transactions[..count], tx) {
        Some(place) => {
            finish(transactions, place, count);
            count - 1
        }
        None => count,
    }
}

/// Notes an update, which may be its transaction's first record. Returns how many transactions and
/// how many pending updates there are then.
fn note_logged_update(
    transactions: &mut [TransactionEntry],
    count: usize,
    pending: &mut [PendingEntry],
    held: usize,
    update: &PendingEntry,
) -> Result<(usize, usize), Refusal>
    requires { count ≤ length transactions.old }
    ensures count { IfOk result (λ r. r.0 ≤ length transactions.old) }
    ensures held { IfOk result (λ r. r.1 ≤ length pending.old) }
    ensures ok { IfOk result (NotesUpdate update.now transactions.old count pending.old held
        transactions.new pending.new) }
    ensures kinds { IfErr result IsNoteRefusal }
    ensures err { IfErr result
        (RefusesUpdateNote update.now transactions.old count pending.old held) }
{
    let (place, count) = enter(transactions, count, update.tx)?;
    let top = room_for_one(&transactions[..count], pending, held)?;
    note_update(transactions, place, pending, top, update);
    Ok((count, top + 1))
}

/// Notes a CLR. Returns how many transactions there are then.
fn note_logged_undo(
    transactions: &mut [TransactionEntry],
    count: usize,
    pending: &mut [PendingEntry],
    held: usize,
    tx: u32,
    lsn: u64,
    undo_next: u64,
) -> Result<usize, Refusal>
    requires count { count ≤ length transactions.old }
    requires held { held ≤ length pending.old }
    ensures count { IfOk result (λ n. n ≤ length transactions.old) }
    ensures ok { IfOk result (NotesUndo tx lsn undo_next transactions.old count pending.old held
        transactions.new pending.new) }
    ensures kinds { IfErr result IsNoteRefusal }
    ensures err { IfErr result (RefusesUndoNote tx lsn transactions.old count pending.old held) }
{
    let (place, count) = enter(transactions, count, tx)?;
    let below = transactions[place].below.min(held);
    let Some(top) = newest(&pending[..below], tx) else {
        return Err(Refusal::NothingToUndo);
    };
    note_undo(transactions, place, pending, top, lsn, undo_next);
    Ok(count)
}

/// Notes an abort (state 1) or a prepare (state 2). Returns how many transactions there are then.
fn note_logged_state(
    transactions: &mut [TransactionEntry],
    count: usize,
    tx: u32,
    state: u8,
    lsn: u64,
) -> Result<usize, Refusal>
    requires { count ≤ length transactions.old }
    ensures count { IfOk result (λ n. n ≤ length transactions.old) }
    ensures aborts { IfOk result
        (Notes Abort 1 tx state lsn transactions.old count transactions.new) }
    ensures prepares { IfOk result
        (Notes Prepare 2 tx state lsn transactions.old count transactions.new) }
    ensures kinds { IfErr result IsNoteRefusal }
    ensures err { IfErr result (RefusesStateNote tx transactions.old count) }
{
    let (place, count) = enter(transactions, count, tx)?;
    note_state(transactions, place, state, lsn);
    Ok(count)
}

/// Notes the record at an LSN of a lawful log. Returns how many transactions and how many pending
/// updates there are then.
fn note_record(
    transactions: &mut [TransactionEntry],
    count: usize,
    pending: &mut [PendingEntry],
    held: usize,
    view: &RecordView,
    lsn: u64,
) -> Result<(usize, usize), Refusal>
    requires count { count ≤ length transactions.old }
    requires held { held ≤ length pending.old }
    requires fits { Fits (shown view.now) }
    ensures count { IfOk result (λ r. r.0 ≤ length transactions.old) }
    ensures held { IfOk result (λ r. r.1 ≤ length pending.old) }
    ensures ok { IfOk result (NotesRecord (shown view.now) lsn
        transactions.old count pending.old held transactions.new pending.new) }
    ensures kinds { IfErr result IsNoteRefusal }
    ensures err { IfErr result
        (RefusesNote (shown view.now) lsn transactions.old count pending.old held) }
{
    match view {
        RecordView::Update {
            tx,
            prev,
            page,
            slot,
            before,
            ..
        } => {
            let update = PendingEntry {
                lsn,
                prev: *prev,
                tx: *tx,
                page: *page,
                slot: *slot,
                before: Image::lent(*before),
            };
            note_logged_update(transactions, count, pending, held, &update)
        }
        RecordView::Compensation { tx, undo_next, .. } => {
            let count = note_logged_undo(transactions, count, pending, held, *tx, lsn, *undo_next)?;
            Ok((count, held))
        }
        RecordView::Abort { tx, .. } => {
            let count = note_logged_state(transactions, count, *tx, 1, lsn)?;
            Ok((count, held))
        }
        RecordView::Prepare { tx, .. } => {
            let count = note_logged_state(transactions, count, *tx, 2, lsn)?;
            Ok((count, held))
        }
        RecordView::Commit { tx, .. } => Ok((leave(transactions, count, *tx), held)),
        RecordView::End { tx, .. } => Ok((leave(transactions, count, *tx), held)),
        RecordView::CheckpointBegin => Ok((count, held)),
        RecordView::CheckpointEnd { .. } => Ok((count, held)),
    }
}

/// The number of a record's transaction, 0 if it has none.
fn number_in(view: &RecordView) -> u32
    requires { Fits (shown view.now) }
    ensures { unless_0 result ≡ owner (shown view.now) }
{
    match view.tx() {
        Some(tx) => tx,
        None => 0,
    }
}

/// The smallest number that is above that of the record's transaction and not below `next`. The
/// only error is `NoNumber`, if there is none.
fn above(next: u32, view: &RecordView) -> Result<u32, Refusal>
    ensures ok { IfOk result (λ n. n ≡ next_after next (shown view.now)) }
    ensures err { IsOkUnless result NoNumber }
    ensures largest { OnErr result (owner (shown view.now) ≡ Some largest_number) }
{
    let tx = match view.tx() {
        Some(tx) => tx,
        None => 0,
    };
    match tx.checked_add(1) {
        Some(own) => Ok(next.max(own)),
        None => Err(Refusal::NoNumber),
    }
}

/// Notes that the record at an LSN is the last one in its cell and on its page, if it changes one.
fn note_change(pages: &mut [PageEntry], view: &RecordView, lsn: u64)
    requires fits { Fits (shown view.now) }
    requires lsn { 0 < lsn }
    ensures { NotesWriter (shown view.now) lsn pages.old pages.new }
{
    if let Some(change) = view.change() {
        if (change.page as usize) < pages.len() {
            pages[change.page as usize].write(change.slot, number_in(view), lsn);
        }
    }
}

/// Tests that each page is up to date, and sets its RecLSN to none: the disk has all of it. The
/// only error is `PageBehind`, for the first page that is not; those before it are set then.
fn settle_pages(pages: &mut [PageEntry], base: u64) -> Result<(), Refusal>
    ensures current { OnOk result (All (IsCurrentSoFar base) (map page_state_of pages.old)) }
    ensures clean { OnOk result (AreCleaned pages.old pages.new) }
    ensures err { IfErr result (IsOneBehind base (map page_state_of pages.old)) }
{
    for place in 0..pages.len() {
        if !pages[place].is_up_to_date(base) {
            return Err(Refusal::PageBehind(pages[place].page.number));
        }
        pages[place].rec_lsn = 0;
    }
    Ok(())
}

/// Opens the journal that continues a log. The log and the store must be lawful, and each page must
/// have all that the log made of it: a recovery leaves them like this. They must also be on the
/// disk, since the journal assumes that the whole log is. Transactions that are unfinished in the
/// log, such as those in doubt, keep their numbers and states, and hold their cells. It does not
/// matter what the arrays contained.
///
/// Errors, after which the arrays must not be used:
/// - BadArrays: `pages` has not as many entries as the store has pages.
/// - TooManyTransactions: after some record more transactions were unfinished than the table of a
///   checkpoint can list, or than `transactions` has room for.
/// - NoPendingRoom: after some record more updates were pending than `pending` has room for.
/// - NoNumber: a transaction has the largest number, so that none is left.
/// - PageBehind: the PageLSN of this page is not the LSN of the last record on it; or no record is
///   on it, and its PageLSN is above the base LSN.
/// - NothingToUndo: the log is not lawful: a CLR in it undoes nothing.
/// - LogFull: too few LSNs are left for the rollback of all that may be unfinished.
pub fn open(
    log: &Log,
    store: &Store,
    transactions: &mut [TransactionEntry],
    pages: &mut [PageEntry],
    pending: &mut [PendingEntry],
) -> Result<Head, Refusal>
    ensures count { IfOk result (λ head. head.transactions ≤ length transactions.old) }
    ensures updates { IfOk result (λ head. head.pending ≤ length pending.old) }
    ensures ok { IfOk result
        (ContinuesIn log.now store.now transactions.new pages.new pending.new) }
    ensures written { IfOk result (λ head. head.written ≡ last_lsn (history log.now)) }
    ensures current { OnOk result (All (IsUpToDate (history log.now)) store.now.pages) }
    ensures behind { IfErr result (HasPageBehind (history log.now) store.now.pages) }
    ensures refused { IfErr result
        (RefusesOpen log.now store.now transactions.old pages.old pending.old) }
{
    if pages.len() != store.pages.len() {
        return Err(Refusal::BadArrays);
    }
    let begins = log.base();
    let last = log.last();
    fill_pages(&store.pages, pages);
    let mut next = 1;
    let mut count = 0;
    let mut held = 0;
    for lsn in begins..last {
        let view = log.after(lsn);
        next = above(next, &view)?;
        let noted = note_record(transactions, count, pending, held, &view, lsn + 1)?;
        count = noted.0;
        held = noted.1;
        note_change(pages, &view, lsn + 1);
    }
    settle_pages(pages, begins)?;
    reserve(last, 0, count, held)?;
    Ok(Head {
        last,
        written: last,
        transactions: count,
        pending: held,
        next,
    })
}
