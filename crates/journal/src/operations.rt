//! Updates and undo. Each changes its own transaction alone. It leaves the LSN up to which the log is
//! known to be on the disk, and the number of the next transaction.

ghost use Rattle.std.specs.Prelude.{◌≡◌, ◌<◌, ◌≤◌, ◌+◌, ◌*◌, ◌^◌, true, false, None, IfSome, IfOk, OnOk, OnErr, IfErr, IsOkUnless, length};
ghost use Rattle.page.specs.declared.profile.TheConstants.{SLOTS};
ghost use Rattle.journal.specs.declared.refusal.Refusal.TheVariants.{LogFull, NoFrameRoom};
ghost use Rattle.journal.specs.declared.framing.TheConstants.{LONGEST_CHANGE, LONGEST_UNDO};
ghost use Rattle.journal.specs.Refusals.{IsNotRoom, CellMissing};
ghost use Rattle.journal.specs.Steps.{IsOther, IsNoOther, ShowsImage, ShowsWriter, IsFreeCell, RefusesCell};
ghost use Rattle.journal.specs.Outcomes.{arrays, AreSame, LeavesRest, Updates, RefusesUpdate, Undoes, RefusesUndo, IsNewest, MayUndo, HasFewPending, RefusesNewest, NamesHolder, RefusesHolder};

use crate::entries::{Head, PageEntry, PendingEntry, TransactionEntry};
use crate::framing::{compensation_size, put_compensation, put_update, update_size};
use crate::image::Image;
use crate::page_entry::{change_cell, is_cell};
use crate::refusal::Refusal;
use crate::table::{
    Need, bound, find, newest, note_undo, note_update, place_for, room_for_one, used,
};
use page::SLOTS;

/// The LSN after this one. The only error is `LogFull`, if there is none.
pub fn next_lsn(last: u64) -> Result<u64, Refusal>
    ensures ok { IfOk result (λ lsn. lsn ≡ last + 1) }
    ensures few { IfOk result (λ lsn. lsn < 2 ^ 64) }
    ensures err { IsOkUnless result LogFull }
    ensures full { OnErr result (last + 1 ≡ 2 ^ 64) }
{
    match last.checked_add(1) {
        Some(lsn) => Ok(lsn),
        None => Err(Refusal::LogFull),
    }
}

/// The sum of `last`, `more`, twice `count`, and `held`; `None` if no LSN is so large.
fn sum_of(last: u64, more: u64, count: usize, held: usize) -> Option<u64>
    ensures sum { IfSome result (λ n. n ≡ last + more + 2 * count + held) }
    ensures large { result ≡ None → 2 ^ 64 ≤ last + more + 2 * count + held }
{
    let twice = count.checked_mul(2)?;
    let owed = twice.checked_add(held)?;
    let all = (owed as u64).checked_add(more)?;
    all.checked_add(last)
}

/// Checks that there are LSNs for this many more records, and for the rollback of `count`
/// transactions with `held` pending updates. The only error is `LogFull`.
pub fn reserve(last: u64, more: u64, count: usize, held: usize) -> Result<(), Refusal>
    ensures ok { OnOk result (last + more + 2 * count + held < 2 ^ 64) }
    ensures err { IsOkUnless result LogFull }
    ensures full { OnErr result (2 ^ 64 ≤ last + more + 2 * count + held) }
{
    match sum_of(last, more, count, held) {
        Some(_) => Ok(()),
        None => Err(Refusal::LogFull),
    }
}

/// Checks that the buffer has room for a frame of this size. The only error is `NoFrameRoom`.
pub fn room_for(frame: &[u8], size: usize) -> Result<(), Refusal>
    ensures ok { OnOk result (size ≤ length frame.now) }
    ensures err { IsOkUnless result (NoFrameRoom size) }
    ensures short { OnErr result (length frame.now < size) }
{
    if frame.len() < size {
        return Err(Refusal::NoFrameRoom(size));
    }
    Ok(())
}

/// Whether the last writer of a cell, 0 for none, is another unfinished transaction.
fn is_other(entries: &[TransactionEntry], writer: u32, tx: u32) -> bool
    ensures held { result ≡ true → IsOther entries.now writer tx }
    ensures free { result ≡ false → IsNoOther entries.now writer tx }
{
    if writer == 0 || writer == tx {
        return false;
    }
    find(entries, writer).is_some()
}

/// What a cell holds, and the transaction of its last update or CLR, 0 for none. The errors are
/// `NoSuchPage` and `NoSuchSlot`.
fn cell_at<'a>(pages: &'a [PageEntry], page: u32, slot: u8) -> Result<(&'a Image, u32), Refusal>
    ensures page { OnOk result (page < length pages.now) }
    ensures slot { OnOk result (slot < SLOTS) }
    ensures value { IfOk result (λ c. ShowsImage pages.now page slot c.0.now) }
    ensures writer { IfOk result (λ c. ShowsWriter pages.now page slot c.1) }
    ensures err { IfErr result (CellMissing (length pages.now) page slot) }
{
    if page as usize >= pages.len() {
        return Err(Refusal::NoSuchPage);
    }
    if slot as usize >= SLOTS {
        return Err(Refusal::NoSuchSlot);
    }
    Ok(pages[page as usize].cell(slot))
}

/// What a cell holds, if this transaction may update it. Errors: `NoSuchPage`, `NoSuchSlot`, and
/// `Held` if its last writer is another unfinished transaction.
fn value_for<'a>(
    pages: &'a [PageEntry],
    entries: &[TransactionEntry],
    tx: u32,
    page: u32,
    slot: u8,
) -> Result<&'a Image, Refusal>
    ensures page { OnOk result (page < length pages.now) }
    ensures slot { OnOk result (slot < SLOTS) }
    ensures value { IfOk result (λ v. ShowsImage pages.now page slot v.now) }
    ensures free { OnOk result (IsFreeCell pages.now entries.now tx page slot) }
    ensures kind { IfErr result IsNotRoom }
    ensures err { IfErr result (RefusesCell pages.now entries.now tx page slot) }
{
    let (image, writer) = cell_at(pages, page, slot)?;
    if is_other(entries, writer, tx) {
        return Err(Refusal::Held(writer));
    }
    Ok(image)
}

/// The unfinished transaction that holds a cell: it has an update or a CLR there. `None` if no
/// transaction holds it.
///
/// Errors:
/// - NoSuchPage, NoSuchSlot: there is no such cell.
/// - BadArrays: an array is shorter than the head says.
pub fn holder(
    head: &Head,
    transactions: &[TransactionEntry],
    pages: &[PageEntry],
    page: u32,
    slot: u8,
) -> Result<Option<u32>, Refusal>
    ensures held { IfOk result (NamesHolder head.now transactions.now pages.now page slot) }
    ensures refused { IfErr result (RefusesHolder head.now transactions.now pages.now page slot) }
{
    let count = used(head.transactions, transactions.len())?;
    let (_, writer) = cell_at(pages, page, slot)?;
    if is_other(&transactions[..count], writer, 0) {
        Ok(Some(writer))
    } else {
        Ok(None)
    }
}

/// A transaction puts an image into a slot of a page: appends an update record, whose LSN is
/// `head.last` after the call. Writes its frame to the front of `out`, and returns the frame's
/// length in bytes, at most 128. The bytes of `out` after the frame are unchanged.
///
/// An update that was accepted can be undone: LSNs for that are reserved.
///
/// Refused, and nothing changes:
/// - BadImage: the length of the image is 49 to 254.
/// - LogFull: too few LSNs are left for two more records and the rollback of all that may be
///   unfinished.
/// - BadArrays: an array is shorter than the head says.
/// - UnknownTransaction: no transaction with this number has begun and not finished.
/// - Forbidden: the transaction is aborting or prepared.
/// - NoSuchPage, NoSuchSlot: there is no such cell.
/// - Held: another unfinished transaction, with this number, has an update or a CLR in the cell.
/// - NoFrameRoom: `out` is shorter than the frame, which takes this many bytes.
/// - NoPendingRoom: the array of pending updates is full, and each of them may still be undone.
pub fn update(
    head: &mut Head,
    transactions: &mut [TransactionEntry],
    pages: &mut [PageEntry],
    pending: &mut [PendingEntry],
    tx: u32,
    page: u32,
    slot: u8,
    after: &Image,
    out: &mut [u8],
) -> Result<usize, Refusal>
    ensures ok { IfOk result (Updates (arrays head.old transactions.old pages.old pending.old)
        (arrays head.new transactions.new pages.new pending.new)
        tx page slot after.now out.old out.new) }
    ensures rest { LeavesRest head.old head.new }
    ensures count { head.new.transactions ≡ head.old.transactions }
    ensures enough { LONGEST_CHANGE ≤ length out.old → IfErr result IsNotRoom }
    ensures same { OnErr result (AreSame (arrays head.old transactions.old pages.old pending.old)
        (arrays head.new transactions.new pages.new pending.new) out.old out.new) }
    ensures refused { IfErr result (RefusesUpdate
        (arrays head.old transactions.old pages.old pending.old)
        tx page slot after.now (length out.old)) }
{
    if !after.is_valid() {
        return Err(Refusal::BadImage);
    }
    let lsn = next_lsn(head.last)?;
    let count = used(head.transactions, transactions.len())?;
    reserve(head.last, 2, count, head.pending)?;
    let entries = &transactions[..count];
    let place = place_for(entries, tx, Need::Working)?;
    let prev = entries[place].last;
    let before = value_for(pages, entries, tx, page, slot)?;
    room_for(out, update_size(before, after))?;
    let top = room_for_one(entries, pending, head.pending)?;
    let size = put_update(out, lsn, tx, prev, page, slot, before, after);
    let update = PendingEntry {
        lsn,
        prev,
        tx,
        page,
        slot,
        before: *before,
    };
    note_update(transactions, place, pending, top, &update);
    change_cell(pages, tx, page, slot, after, lsn);
    head.pending = top + 1;
    head.last = lsn;
    Ok(size)
}

/// Undoes the newest pending update of an active or aborting transaction: puts the before image
/// back, and appends a CLR, whose LSN is `head.last` after the call. Writes its frame to the front
/// of `out`, and returns the frame's length in bytes, at most 87. The transaction still holds the
/// cell.
///
/// Refused, and nothing changes:
/// - UnknownTransaction: no transaction with this number has begun and not finished.
/// - Forbidden: the transaction is prepared. It has to abort first.
/// - NothingToUndo: the transaction has no pending update.
/// - NoFrameRoom: `out` is shorter than the frame, which takes this many bytes.
/// - BadArrays, LogFull: the arrays are not those of a journal.
pub fn undo(
    head: &mut Head,
    transactions: &mut [TransactionEntry],
    pages: &mut [PageEntry],
    pending: &mut [PendingEntry],
    tx: u32,
    out: &mut [u8],
) -> Result<usize, Refusal>
    ensures ok { IfOk result (Undoes (arrays head.old transactions.old pages.old pending.old)
        (arrays head.new transactions.new pages.new pending.new) tx out.old out.new) }
    ensures rest { LeavesRest head.old head.new }
    ensures count { head.new.transactions ≡ head.old.transactions }
    ensures updates { head.new.pending ≡ head.old.pending }
    ensures enough { LONGEST_UNDO ≤ length out.old → IfErr result IsNotRoom }
    ensures same { OnErr result (AreSame (arrays head.old transactions.old pages.old pending.old)
        (arrays head.new transactions.new pages.new pending.new) out.old out.new) }
    ensures refused { IfErr result (RefusesUndo
        (arrays head.old transactions.old pages.old pending.old) tx (length out.old)) }
{
    let count = used(head.transactions, transactions.len())?;
    // The pending updates must be within their array; how many they are is in the head.
    let _count = used(head.pending, pending.len())?;
    let entries = &transactions[..count];
    let place = place_for(entries, tx, Need::NotPrepared)?;
    let prev = entries[place].last;
    let below = bound(entries[place], head.pending);
    let Some(top) = newest(&pending[..below], tx) else {
        return Err(Refusal::NothingToUndo);
    };
    let lsn = next_lsn(head.last)?;
    let undone = pending[top];
    if !is_cell(pages, undone.page, undone.slot) {
        return Err(Refusal::BadArrays);
    }
    room_for(out, compensation_size(&undone.before))?;
    let size = put_compensation(
        out,
        lsn,
        tx,
        prev,
        undone.page,
        undone.slot,
        undone.prev,
        &undone.before,
    );
    note_undo(transactions, place, pending, top, lsn, undone.prev);
    change_cell(pages, tx, undone.page, undone.slot, &undone.before, lsn);
    head.last = lsn;
    Ok(size)
}

/// The LSN of the newest pending update of a transaction, 0 if it has none.
///
/// Errors: UnknownTransaction and Forbidden, as those of [`undo`].
pub fn newest_pending(
    head: &Head,
    transactions: &[TransactionEntry],
    pending: &[PendingEntry],
    tx: u32,
) -> Result<u64, Refusal>
    ensures newest { IfOk result (IsNewest head.now transactions.now pending.now tx) }
    ensures free { OnOk result (MayUndo head.now transactions.now pending.now tx) }
    ensures few { OnOk result (HasFewPending head.now transactions.now pending.now tx) }
    ensures refused { IfErr result (RefusesNewest head.now transactions.now pending.now tx) }
{
    let count = used(head.transactions, transactions.len())?;
    // The pending updates must be within their array; how many they are is in the head.
    let _count = used(head.pending, pending.len())?;
    let place = place_for(&transactions[..count], tx, Need::NotPrepared)?;
    let below = bound(transactions[place], head.pending);
    match newest(&pending[..below], tx) {
        Some(top) => Ok(pending[top].lsn),
        None => Ok(0),
    }
}
