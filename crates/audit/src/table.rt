//! The transaction table of a checkpoint, against the standings of the transactions at its begin
//! record.

ghost use Rattle.std.specs.Prelude.{◌≡◌, ◌==◌, ◌||◌, ◌↔◌, ℕ, List, All, IsTrue, true, map, IfOk, OnOk, IfSome, IsOkUnless};
ghost use Rattle.std.specs.Ordering.{nat_cmp};
ghost use Rattle.std.specs.BTreeSet.{contains};
ghost use Rattle.page.specs.declared.fault.Fault.TheVariants.{NoResource};
ghost use Rattle.log_laws.specs.Records.{tx_in, History};
ghost use Rattle.log_laws.specs.Meaning.{state_by, is_unfinished};
ghost use Rattle.log_laws.specs.Checkpoint.{true_table};
ghost use Rattle.log_laws.specs.Checkpoint.{IsRising};
ghost use Rattle.wal.specs.Content.{entry_of};
ghost use Rattle.audit.specs.Statuses.{IsStatusOf};
ghost use Rattle.audit.specs.Standings.{IsStandingOf, standing_in};
ghost use Rattle.audit.specs.Unfinished.{IsPlaced, IsOther};
ghost use Rattle.log_laws.specs.Checkpoint.{IsTrueEntry, Lists};

use crate::standing::Standing;
use crate::standings::Standings;
use crate::status::Status;
use crate::unfinished_table::PLACES;
use page::Fault;
use std::alloc::Global;
use std::collections::BTreeSet;
use wal::{Entry, State, TransactionTable};

/// Whether a transaction that has not finished, and has this status, has begun.
fn has_begun(status: Status) -> bool
    ensures { (t : ℕ) (log : History) (links : List ℕ) → IsStatusOf links t log status
        → result ≡ is_unfinished t log }
{
    status.last != 0
}

/// Whether this is the state of a transaction, by whether it has aborted and whether it has
/// prepared.
fn tells_state(state: State, aborted: bool, prepared: bool) -> bool
    ensures { IsTrue result ↔ state ≡ state_by aborted prepared }
{
    match state {
        State::Active => !aborted && !prepared,
        State::Prepared => !aborted && prepared,
        State::Aborting => aborted,
    }
}

/// Whether a transaction with this status is unfinished, and the entry is true of it.
fn is_true_of(status: Status, entry: Entry) -> bool
    ensures { (t : ℕ) (log : History) (links : List ℕ) → IsStatusOf links t log status
        → IsTrue result ↔ IsTrueEntry log (entry_of (t, entry)) }
{
    has_begun(status)
        && entry.last == status.last
        && entry.undo_next == status.undo_next
        && tells_state(entry.state, status.aborted, status.prepared)
}

/// Whether the transaction of an entry is unfinished, and the entry is true of it.
fn is_true_entry(standings: &Standings, tx: u32, entry: Entry) -> bool
    ensures { (log : History) (links : List ℕ)
        → IsStandingOf links tx log (standing_in standings.now tx)
        → IsTrue result ↔ IsTrueEntry log (entry_of (tx, entry)) }
{
    match standings.get(tx) {
        Standing::Unfinished(status) => is_true_of(status, entry),
        Standing::Finished(_) => false,
    }
}

/// Whether each entry is of an unfinished transaction, and true of it.
fn entries_are_true(standings: &Standings, transactions: &TransactionTable) -> bool
    ensures { (log : History) (links : List ℕ)
        → ((t : ℕ) → IsStandingOf links t log (standing_in standings.now t))
        → IsTrue result ↔ All (IsTrueEntry log) transactions.now }
{
    for place in 0..transactions.len() {
        let (tx, entry) = transactions.entry(place);
        if !is_true_entry(standings, tx, entry) {
            return false;
        }
    }
    true
}

/// Puts a transaction into the set. The only error is `NoResource`.
fn list(listed: &mut BTreeSet<u32>, tx: u32) -> Result<(), Fault>
    ensures ok { OnOk result ((t : ℕ) → contains nat_cmp listed.new t
        ≡ (tx == t || contains nat_cmp listed.old t)) }
    ensures err { IsOkUnless result NoResource }
{
    listed.insert(tx)?;
    Ok(())
}

/// The transactions that have an entry. The only error is `NoResource`.
fn listed_in(alloc: Global, transactions: &TransactionTable) -> Result<BTreeSet<u32>, Fault>
    ensures ok { IfOk result (λ set. (t : ℕ) → IsTrue (contains nat_cmp set t)
        ↔ Lists transactions.now t) }
    ensures err { IsOkUnless result NoResource }
{
    let mut listed = BTreeSet::new(alloc);
    for place in 0..transactions.len() {
        let (tx, _) = transactions.entry(place);
        list(&mut listed, tx)?;
    }
    Ok(listed)
}

/// Whether a transaction is listed, if it is unfinished.
fn is_listed(standings: &Standings, listed: &BTreeSet<u32>, tx: u32) -> bool
    ensures { (log : History) (links : List ℕ)
        → IsStandingOf links tx log (standing_in standings.now tx)
        → IsTrue result ↔ (is_unfinished tx log ≡ true
        → IsTrue (contains nat_cmp listed.now tx)) }
{
    match standings.get(tx) {
        Standing::Unfinished(status) => !has_begun(status) || listed.contains(&tx),
        Standing::Finished(_) => true,
    }
}

/// Whether each unfinished transaction that is at a place is listed.
fn placed_are_listed(standings: &Standings, listed: &BTreeSet<u32>) -> bool
    ensures { (log : History) (links : List ℕ)
        → ((t : ℕ) → IsStandingOf links t log (standing_in standings.now t))
        → IsTrue result ↔ ((t : ℕ) → IsPlaced standings.now.unfinished t
        → is_unfinished t log ≡ true → IsTrue (contains nat_cmp listed.now t)) }
{
    for place in 0..PLACES {
        if let Some((tx, _)) = standings.unfinished.places[place] {
            if !is_listed(standings, listed, tx) {
                return false;
            }
        }
    }
    true
}

/// Whether each unfinished transaction that has no place is listed.
fn others_are_listed(standings: &Standings, listed: &BTreeSet<u32>) -> bool
    ensures { (log : History) (links : List ℕ)
        → ((t : ℕ) → IsStandingOf links t log (standing_in standings.now t))
        → IsTrue result ↔ ((t : ℕ) → IsOther standings.now.unfinished t
        → is_unfinished t log ≡ true → IsTrue (contains nat_cmp listed.now t)) }
{
    for (tx, _) in &standings.unfinished.others {
        if !is_listed(standings, listed, *tx) {
            return false;
        }
    }
    true
}

/// Whether each unfinished transaction is listed.
fn unfinished_are_listed(standings: &Standings, listed: &BTreeSet<u32>) -> bool
    ensures { (log : History) (links : List ℕ)
        → ((t : ℕ) → IsStandingOf links t log (standing_in standings.now t))
        → IsTrue result ↔ ((t : ℕ) → is_unfinished t log ≡ true
        → IsTrue (contains nat_cmp listed.now t)) }
{
    placed_are_listed(standings, listed) && others_are_listed(standings, listed)
}

/// Whether the table is exactly that of the unfinished transactions. The only error is
/// `NoResource`.
fn is_true_table(
    alloc: Global,
    standings: &Standings,
    transactions: &TransactionTable,
) -> Result<bool, Fault>
    requires rising { IsRising (map tx_in transactions.now) }
    ensures ok { IfOk result (λ yes. (log : History) (links : List ℕ)
        → ((t : ℕ) → IsStandingOf links t log (standing_in standings.now t))
        → IsTrue yes ↔ transactions.now ≡ true_table log) }
    ensures err { IsOkUnless result NoResource }
{
    if !entries_are_true(standings, transactions) {
        return Ok(false);
    }
    let listed = listed_in(alloc, transactions)?;
    Ok(unfinished_are_listed(standings, &listed))
}

/// Whether the table, if there is one, is exactly that of the unfinished transactions. The only
/// error is `NoResource`.
pub fn is_true_if_any(
    alloc: Global,
    standings: &Standings,
    transactions: Option<&TransactionTable>,
) -> Result<bool, Fault>
    requires rising { IfSome transactions (λ t. IsRising (map tx_in t.now)) }
    ensures ok { IfOk result (λ yes. IfSome transactions.entry (λ t. (log : History) (links : List ℕ)
        → ((t : ℕ) → IsStandingOf links t log (standing_in standings.now t))
        → IsTrue yes ↔ t.now ≡ true_table log)) }
    ensures err { IsOkUnless result NoResource }
{
    match transactions {
        None => Ok(true),
        Some(transactions) => is_true_table(alloc, standings, transactions),
    }
}
