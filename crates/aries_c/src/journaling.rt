//! The operations of transactions in a journal.

ghost use Rattle.std.specs.Prelude.{◌≡◌, ◌+◌, IfSome, None, length};
ghost use Rattle.journal.specs.TurnsTaken.{kind_of};
ghost use Rattle.journal.specs.Outcomes.{arrays, AreSame, TableIsSame, LeavesRest, Updates, Undoes};
ghost use Rattle.aries_c.specs.Fault.{OnDone, OnFailed};
ghost use Rattle.aries_c.specs.Journaling.{IsNoTurn};
ghost use Rattle.aries_c.specs.JournalCalls.{KeepsRun, HasBegun, Untouched, IsFresh, BeginFails, IsGone, CancelFails, UpdateFails, UndoFails, TakesTurn, TurnFails, IsNewest, NewestFails};

use crate::Fault;
use crate::refusal::{answer, frame_answer, refused};
use journal::{Head, Image, PageEntry, PendingEntry, TransactionEntry, Turn};

/// Begins a transaction, as [`journal::begin`] does, and writes its number to `tx`.
#[unsafe(no_mangle)]
pub extern "C" fn aries_journal_begin(
    journal: &mut Head,
    transactions: &mut [TransactionEntry],
    tx: &mut u32,
) -> Fault
    ensures ok { KeepsRun journal.old transactions.old journal.new transactions.new result }
    ensures begun { HasBegun journal.old transactions.old journal.new transactions.new tx.new result }
    ensures fresh { IsFresh journal.old transactions.old tx.new result }
    ensures last { journal.new.last ≡ journal.old.last }
    ensures others { Untouched journal.old transactions.old journal.new transactions.new tx.new result }
    ensures number { OnDone result (tx.new ≡ journal.old.next) }
    ensures next { OnDone result (journal.new.next ≡ tx.new + 1) }
    ensures unforced { journal.new.written ≡ journal.old.written }
    ensures journal { OnFailed result (journal.new ≡ journal.old) }
    ensures transactions { OnFailed result (transactions.new ≡ transactions.old) }
    ensures tx { OnFailed result (tx.new ≡ tx.old) }
    ensures refused { BeginFails journal.old transactions.old result }
{
    match journal::begin(journal, transactions) {
        Ok(number) => {
            *tx = number;
            Fault::none()
        }
        Err(refusal) => refused(refusal),
    }
}

/// A transaction that has no record leaves, as by [`journal::cancel`]. No record is written.
#[unsafe(no_mangle)]
pub extern "C" fn aries_journal_cancel(
    journal: &mut Head,
    transactions: &mut [TransactionEntry],
    tx: u32,
) -> Fault
    ensures ok { KeepsRun journal.old transactions.old journal.new transactions.new result }
    ensures gone { IsGone journal.old transactions.old journal.new transactions.new tx result }
    ensures last { journal.new.last ≡ journal.old.last }
    ensures unlogged { IsFresh journal.old transactions.old tx result }
    ensures others { Untouched journal.old transactions.old journal.new transactions.new tx result }
    ensures unforced { journal.new.written ≡ journal.old.written }
    ensures next { journal.new.next ≡ journal.old.next }
    ensures journal { OnFailed result (journal.new ≡ journal.old) }
    ensures transactions { OnFailed result (transactions.new ≡ transactions.old) }
    ensures refused { CancelFails journal.old transactions.old tx result }
{
    answer(journal::cancel(journal, transactions, tx))
}

/// A transaction puts an image into a slot of a page, as by [`journal::update`]. Writes the frame
/// of the update to the front of `out`, and the frame's length in bytes to `told`. 64: `out` is
/// too short; `told` gets the length all the same.
#[unsafe(no_mangle)]
pub extern "C" fn aries_journal_update(
    journal: &mut Head,
    transactions: &mut [TransactionEntry],
    pages: &mut [PageEntry],
    pending: &mut [PendingEntry],
    tx: u32,
    page: u32,
    slot: u8,
    after: &Image,
    out: &mut [u8],
    told: &mut usize,
) -> Fault
    ensures ok { OnDone result (Updates (arrays journal.old transactions.old pages.old pending.old)
        (arrays journal.new transactions.new pages.new pending.new)
        tx page slot after.now out.old out.new told.new) }
    ensures rest { LeavesRest journal.old journal.new }
    ensures same { OnFailed result (AreSame
        (arrays journal.old transactions.old pages.old pending.old)
        (arrays journal.new transactions.new pages.new pending.new) out.old out.new) }
    ensures refused { UpdateFails (arrays journal.old transactions.old pages.old pending.old)
        tx page slot after.now (length out.old) told.old told.new result }
{
    let written = journal::update(
        journal,
        transactions,
        pages,
        pending,
        tx,
        page,
        slot,
        after,
        out,
    );
    frame_answer(written, told)
}

/// Undoes the newest pending update of a transaction, as [`journal::undo`] does. Writes the frame
/// of the CLR to the front of `out`, and the frame's length in bytes to `told`. 64: `out` is too
/// short; `told` gets the length all the same.
#[unsafe(no_mangle)]
pub extern "C" fn aries_journal_undo(
    journal: &mut Head,
    transactions: &mut [TransactionEntry],
    pages: &mut [PageEntry],
    pending: &mut [PendingEntry],
    tx: u32,
    out: &mut [u8],
    told: &mut usize,
) -> Fault
    ensures ok { OnDone result (Undoes (arrays journal.old transactions.old pages.old pending.old)
        (arrays journal.new transactions.new pages.new pending.new) tx out.old out.new told.new) }
    ensures rest { LeavesRest journal.old journal.new }
    ensures same { OnFailed result (AreSame
        (arrays journal.old transactions.old pages.old pending.old)
        (arrays journal.new transactions.new pages.new pending.new) out.old out.new) }
    ensures refused { UndoFails (arrays journal.old transactions.old pages.old pending.old)
        tx (length out.old) told.old told.new result }
{
    let written = journal::undo(journal, transactions, pages, pending, tx, out);
    frame_answer(written, told)
}

/// What a transaction does, by the kind of its record. `None` if it does nothing by this kind.
fn turn_of(kind: u8) -> Option<Turn>
    ensures kind { IfSome result (λ turn. kind ≡ kind_of turn) }
    ensures none { result ≡ None → IsNoTurn kind }
{
    match kind {
        3 => Some(Turn::Commit),
        4 => Some(Turn::Abort),
        5 => Some(Turn::End),
        8 => Some(Turn::Prepare),
        _ => None,
    }
}

/// A transaction commits, aborts, ends or prepares, as by [`journal::take_turn`]. The kind of its
/// record says which: 3 a commit, 4 an abort, 5 an end, 8 a prepare. Writes the frame of the record
/// to the front of `out`, and the frame's length in bytes to `told`. 64: `out` is too short; `told`
/// gets the length all the same. 65: any other kind.
#[unsafe(no_mangle)]
pub extern "C" fn aries_journal_turn(
    journal: &mut Head,
    transactions: &mut [TransactionEntry],
    pending: &[PendingEntry],
    tx: u32,
    kind: u8,
    out: &mut [u8],
    told: &mut usize,
) -> Fault
    ensures ok { OnDone result (TakesTurn kind journal.old transactions.old journal.new
        transactions.new pending.now tx out.old out.new told.new) }
    ensures rest { LeavesRest journal.old journal.new }
    ensures same { OnFailed result (TableIsSame journal.old transactions.old out.old journal.new
        transactions.new out.new) }
    ensures refused { TurnFails kind journal.old transactions.old pending.now tx (length out.old)
        told.old told.new result }
{
    let Some(turn) = turn_of(kind) else {
        return Fault::not_writable();
    };
    let written = journal::take_turn(journal, transactions, pending, turn, tx, out);
    frame_answer(written, told)
}

/// Writes the LSN of the newest pending update of a transaction to `lsn`, 0 if it has none. To roll
/// back to a savepoint, which is an LSN, undo while this LSN is above it.
#[unsafe(no_mangle)]
pub extern "C" fn aries_journal_newest(
    journal: &Head,
    transactions: &[TransactionEntry],
    pending: &[PendingEntry],
    tx: u32,
    lsn: &mut u64,
) -> Fault
    ensures newest { IsNewest journal.now transactions.now pending.now tx lsn.new result }
    ensures lsn { OnFailed result (lsn.new ≡ lsn.old) }
    ensures refused { NewestFails journal.now transactions.now pending.now tx result }
{
    match journal::newest_pending(journal, transactions, pending, tx) {
        Ok(newest) => {
            *lsn = newest;
            Fault::none()
        }
        Err(refusal) => refused(refusal),
    }
}
