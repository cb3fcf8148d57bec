//! How transactions commit, abort, end and prepare. Each changes its own transaction alone.

ghost use Rattle.std.specs.Prelude.{◌≡◌, ◌<◌, ◌≤◌, ◌+◌, ◌*◌, ◌^◌, IfOk, OnOk, OnErr, IfErr, IsOkUnless, length, take};
ghost use Rattle.wal.specs.declared.sizes.TheConstants.{PLAIN_FRAME};
ghost use Rattle.journal.specs.declared.refusal.Refusal.TheVariants.{LogFull};
ghost use Rattle.journal.specs.declared.turns.Turn.TheVariants.{End, Prepare};
ghost use Rattle.journal.specs.Arrays.{NoneBy, bound_of};
ghost use Rattle.journal.specs.Refusals.{IsNotRoom, LacksLsns};
ghost use Rattle.journal.specs.Outcomes.{LeavesRest, TableIsSame};
ghost use Rattle.journal.specs.TurnsTaken.{kind_of, need_of, left_after, IsTaken, Turns, RefusesTurn, HoldsUp};

use crate::entries::{Head, PendingEntry, TransactionEntry};
use crate::framing::put_plain;
use crate::operations::{next_lsn, reserve, room_for};
use crate::refusal::Refusal;
use crate::table::{Need, bound, finish, newest, note_state, place_for, used};
use wal::PLAIN_FRAME;

/// What a transaction does by a record that has no image: each but an update and an undo.
#[derive(Clone, Copy)]
pub enum Turn {
    /// A transaction that is active or prepared commits: it has finished, and its cells are free.
    /// It needs no end record. The commit is durable when the log is on the disk up to its LSN.
    Commit,
    /// A transaction that is active or prepared aborts: from then on it can only be undone and end.
    /// A prepared transaction has to abort before it is undone; an active one need not.
    Abort,
    /// A transaction that is active or aborting, without pending updates, ends: it has finished,
    /// and its cells are free.
    End,
    /// An active transaction prepares to commit: from then on it can only commit or abort, and
    /// holds its cells until it has finished. It is in doubt after a crash if the log is on the
    /// disk up to its LSN.
    Prepare,
}

impl Turn {
    /// The states in which a transaction may do this.
    fn need(self) -> Need
        ensures { result ≡ need_of self }
    {
        match self {
            Turn::Commit => Need::NotAborting,
            Turn::Abort => Need::NotAborting,
            Turn::End => Need::NotPrepared,
            Turn::Prepare => Need::Working,
        }
    }

    /// The number of its record's kind.
    fn kind(self) -> u8
        ensures { result ≡ kind_of self }
    {
        match self {
            Turn::Commit => 3,
            Turn::Abort => 4,
            Turn::End => 5,
            Turn::Prepare => 8,
        }
    }
}

/// Checks that there are LSNs for a prepare and for the rollback of all that may be unfinished. The
/// LSNs for the other turns are reserved. The only error is `LogFull`.
fn check_lsns(head: &Head, turn: Turn) -> Result<(), Refusal>
    ensures ok { OnOk result (turn ≡ Prepare
        → head.now.last + 1 + 2 * head.now.transactions + head.now.pending < 2 ^ 64) }
    ensures err { IsOkUnless result LogFull }
    ensures prepares { OnErr result (turn ≡ Prepare) }
    ensures full { OnErr result (LacksLsns head.now 1) }
{
    match turn {
        Turn::Prepare => reserve(head.last, 1, head.transactions, head.pending),
        _ => Ok(()),
    }
}

/// Checks that a transaction which ends has no pending update. Errors: `StillPending`, `BadArrays`.
fn check_pending(
    head: &Head,
    entry: TransactionEntry,
    pending: &[PendingEntry],
    turn: Turn,
    tx: u32,
) -> Result<(), Refusal>
    ensures none { OnOk result (turn ≡ End
        → NoneBy tx (take (bound_of entry head.now.pending) pending.now)) }
    ensures kind { IfErr result IsNotRoom }
    ensures err { IfErr result (HoldsUp turn head.now entry pending.now tx) }
{
    match turn {
        Turn::End => {
            // The pending updates must be within their array.
            let _held = used(head.pending, pending.len())?;
            let below = bound(entry, head.pending);
            match newest(&pending[..below], tx) {
                Some(_) => Err(Refusal::StillPending),
                None => Ok(()),
            }
        }
        _ => Ok(()),
    }
}

/// Removes the entry of a transaction that has finished, or notes its state and the LSN of its
/// record. Returns how many are left.
fn note_turn(
    transactions: &mut [TransactionEntry],
    count: usize,
    place: usize,
    turn: Turn,
    lsn: u64,
) -> usize
    requires place { place < count }
    requires count { count ≤ length transactions.old }
    ensures left { result ≡ left_after turn count }
    ensures fewer { result ≤ count }
    ensures taken { IsTaken turn count place lsn transactions.old transactions.new }
{
    match turn {
        Turn::Commit => {
            finish(transactions, place, count);
            count - 1
        }
        Turn::Abort => {
            note_state(transactions, place, 1, lsn);
            count
        }
        Turn::End => {
            finish(transactions, place, count);
            count - 1
        }
        Turn::Prepare => {
            note_state(transactions, place, 2, lsn);
            count
        }
    }
}

/// A transaction commits, aborts, ends or prepares: appends its record, whose LSN is `head.last`
/// after the call. Writes the record's frame to the front of `out`, and returns the frame's length,
/// 25 bytes. The bytes of `out` after the frame are unchanged.
///
/// Refused, and nothing changes:
/// - UnknownTransaction: no transaction with this number has begun and not finished.
/// - Forbidden: the state of the transaction, which this is, does not allow it.
/// - StillPending: the transaction is to end, and has pending updates.
/// - LogFull: the transaction is to prepare, and too few LSNs are left for one more record and the
///   rollback of all that may be unfinished.
/// - NoFrameRoom: `out` has fewer than 25 bytes.
/// - BadArrays: the arrays are not those of a journal.
pub fn take_turn(
    head: &mut Head,
    transactions: &mut [TransactionEntry],
    pending: &[PendingEntry],
    turn: Turn,
    tx: u32,
    out: &mut [u8],
) -> Result<usize, Refusal>
    ensures ok { IfOk result (Turns turn head.old transactions.old head.new transactions.new
        pending.now tx out.old out.new) }
    ensures rest { LeavesRest head.old head.new }
    ensures count { head.new.transactions ≤ head.old.transactions }
    ensures updates { head.new.pending ≡ head.old.pending }
    ensures enough { PLAIN_FRAME ≤ length out.old → IfErr result IsNotRoom }
    ensures same { OnErr result
        (TableIsSame head.old transactions.old out.old head.new transactions.new out.new) }
    ensures refused { IfErr result
        (RefusesTurn turn head.old transactions.old pending.now tx (length out.old)) }
{
    let count = used(head.transactions, transactions.len())?;
    check_lsns(head, turn)?;
    let place = place_for(&transactions[..count], tx, turn.need())?;
    check_pending(head, transactions[place], pending, turn, tx)?;
    let lsn = next_lsn(head.last)?;
    room_for(out, PLAIN_FRAME)?;
    put_plain(out, lsn, turn.kind(), tx, transactions[place].last);
    head.transactions = note_turn(transactions, count, place, turn, lsn);
    head.last = lsn;
    Ok(PLAIN_FRAME)
}
