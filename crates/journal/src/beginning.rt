//! How transactions begin, and how one without a record leaves. No other transaction changes.

ghost use Rattle.std.specs.Prelude.{◌≡◌, ◌≤◌, ◌+◌, IfOk, OnOk, OnErr, IfErr, length};
ghost use Rattle.journal.specs.State.{HasBegun, IsGone, HasNoRecord, OthersStay};
ghost use Rattle.journal.specs.Outcomes.{LeavesRest, StaysJournal, RefusesBegin, RefusesCancel, LessIsOwed};

use crate::entries::{Head, TransactionEntry};
use crate::operations::reserve;
use crate::refusal::Refusal;
use crate::table::{find, finish, used};
use page::TRANSACTIONS;

/// Begins a transaction, which is active. Returns its number, from 1. No record is appended: the
/// first record of a transaction is its first update, or its commit, abort, end or prepare.
///
/// The number is larger than that of each transaction which began before, or which has a record in
/// the log that was opened. A number is given again if a crash left no record of its transaction.
///
/// Refused, and nothing changes:
/// - BadArrays: the array is shorter than the head says.
/// - TooManyTransactions: 1,024 transactions are unfinished, or the array is full.
/// - LogFull: too few LSNs are left for two more records and the rollback of all that may be
///   unfinished.
/// - NoNumber: the numbers are used up.
pub fn begin(head: &mut Head, transactions: &mut [TransactionEntry]) -> Result<u32, Refusal>
    ensures ok { OnOk result (StaysJournal head.old transactions.old head.new transactions.new) }
    ensures begun { IfOk result (HasBegun head.old transactions.old head.new transactions.new) }
    ensures others { IfOk result (OthersStay head.old transactions.old head.new transactions.new) }
    ensures number { IfOk result (λ tx. tx ≡ head.old.next) }
    ensures next { IfOk result (λ tx. head.new.next ≡ tx + 1) }
    ensures fresh { IfOk result (HasNoRecord head.old transactions.old) }
    ensures count { OnOk result (head.new.transactions ≤ length transactions.old) }
    ensures updates { head.new.pending ≡ head.old.pending }
    ensures unforced { head.new.written ≡ head.old.written }
    ensures last { head.new.last ≡ head.old.last }
    ensures head { OnErr result (head.new ≡ head.old) }
    ensures transactions { OnErr result (transactions.new ≡ transactions.old) }
    ensures refused { IfErr result (RefusesBegin head.old transactions.old) }
{
    let count = used(head.transactions, transactions.len())?;
    if count >= TRANSACTIONS || count >= transactions.len() {
        return Err(Refusal::TooManyTransactions);
    }
    reserve(head.last, 2, count, head.pending)?;
    let tx = head.next;
    let Some(next) = tx.checked_add(1) else {
        return Err(Refusal::NoNumber);
    };
    transactions[count] = TransactionEntry {
        last: 0,
        undo_next: 0,
        below: 0,
        tx,
        state: 0,
    };
    head.transactions = count + 1;
    head.next = next;
    Ok(tx)
}

/// A transaction that has no record leaves, and no record is written. Its number is not given to
/// another transaction.
///
/// Errors, after which nothing has changed:
/// - UnknownTransaction: no transaction of this number has begun and not finished.
/// - HasRecords: it has a record in the log, so it has to commit or to be rolled back.
pub fn cancel(
    head: &mut Head,
    transactions: &mut [TransactionEntry],
    tx: u32,
) -> Result<(), Refusal>
    ensures ok { OnOk result (StaysJournal head.old transactions.old head.new transactions.new) }
    ensures gone { OnOk result (IsGone head.old transactions.old head.new transactions.new tx) }
    ensures unlogged { OnOk result (HasNoRecord head.old transactions.old tx) }
    ensures others { OnOk result (OthersStay head.old transactions.old head.new transactions.new tx) }
    ensures owes { OnOk result (LessIsOwed head.old transactions.old head.new transactions.new) }
    ensures count { OnOk result (head.new.transactions + 1 ≡ head.old.transactions) }
    ensures last { head.new.last ≡ head.old.last }
    ensures updates { head.new.pending ≡ head.old.pending }
    ensures rest { LeavesRest head.old head.new }
    ensures head { OnErr result (head.new ≡ head.old) }
    ensures transactions { OnErr result (transactions.new ≡ transactions.old) }
    ensures refused { IfErr result (RefusesCancel head.old transactions.old tx) }
{
    let count = used(head.transactions, transactions.len())?;
    let Some(place) = find(&transactions[..count], tx) else {
        return Err(Refusal::UnknownTransaction);
    };
    if transactions[place].last != 0 {
        return Err(Refusal::HasRecords);
    }
    finish(transactions, place, count);
    head.transactions = count - 1;
    Ok(())
}
