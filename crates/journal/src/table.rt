//! The arrays of transactions and of pending updates.

ghost use Rattle.std.specs.Prelude.{◌≡◌, ◌≢◌, ◌<◌, ◌≤◌, ◌+◌, ◌-◌, None, true, All, IfOk, IfErr, IfSome, OnOk, OnErr, IsOkUnless, length, slice_set, take};
ghost use Rattle.std.specs.List.{remove};
ghost use Rattle.journal.specs.declared.refusal.Refusal.TheVariants.{BadArrays};
ghost use Rattle.journal.specs.declared.entries.PendingEntry.{PendingEntry};
ghost use Rattle.journal.specs.Refusals.{allows, IsNotRoom};
ghost use Rattle.journal.specs.Arrays.{state_of, IsTable, is_live, AllLive, IsNoRoom, bound_of};
ghost use Rattle.journal.specs.Steps.{IsPlaceOf, IsAllowedAt, RefusesEntry, IsUpdatedAt, IsUndoneAt, IsInStateAt, IsUpdateOf, IsNewestOf, IsDeadAt, AllLiveBefore, IsDisownedAt, DropsDead, DropsDeadFrom, MakesRoom, DropsAllDead};

use crate::entries::{PendingEntry, TransactionEntry};
use crate::refusal::Refusal;
use wal::State;

/// How many of the newest pending updates are compacted together.
const RECENT: usize = 4096;

/// The sample of them is every eighth one.
const SAMPLED: usize = 8;

/// The states in which a transaction may do an operation.
#[derive(Clone, Copy)]
pub enum Need {
    /// Active.
    Working,
    /// Active or prepared.
    NotAborting,
    /// Active or aborting.
    NotPrepared,
}

impl Need {
    /// Whether this state is one of them.
    fn allows(self, state: State) -> bool
        ensures { result ≡ allows self state }
    {
        match state {
            State::Active => true,
            State::Aborting => match self {
                Need::Working => false,
                Need::NotAborting => false,
                Need::NotPrepared => true,
            },
            State::Prepared => match self {
                Need::Working => false,
                Need::NotAborting => true,
                Need::NotPrepared => false,
            },
        }
    }
}

/// The state with this number: 0 active, 1 aborting; any other number, prepared.
pub fn state_named(number: u8) -> State
    ensures { result ≡ state_of number }
{
    if number == 0 {
        State::Active
    } else if number == 1 {
        State::Aborting
    } else {
        State::Prepared
    }
}

/// Returns `count` if an array of this length has as many entries. The only error is `BadArrays`,
/// if it has fewer.
pub fn used(count: usize, length: usize) -> Result<usize, Refusal>
    ensures ok { IfOk result (λ n. n ≡ count) }
    ensures within { IfOk result (λ n. n ≤ length) }
    ensures err { IsOkUnless result BadArrays }
    ensures bad { OnErr result (length < count) }
{
    if count > length {
        return Err(Refusal::BadArrays);
    }
    Ok(count)
}

/// The place of the transaction with this number, if the array has it and each number from it to the
/// last one: transactions that began after it have not finished.
fn place_in_turn(entries: &[TransactionEntry], tx: u32) -> Option<usize>
    ensures within { IfSome result (λ i. i < length entries.now) }
    ensures found { IfSome result (IsPlaceOf entries.now tx) }
{
    let newest = entries.last()?;
    let younger = newest.tx.checked_sub(tx)? as usize;
    let place = (entries.len() - 1).checked_sub(younger)?;
    if entries[place].tx == tx {
        Some(place)
    } else {
        None
    }
}

/// The place of the transaction with this number, if the array has it, by bisection. The entries must
/// be in ascending order of number.
fn place_among(entries: &[TransactionEntry], tx: u32) -> Option<usize>
    ensures within { IfSome result (λ i. i < length entries.now) }
    ensures found { IfSome result (IsPlaceOf entries.now tx) }
    ensures none { IsTable entries.now → result ≡ None
        → All (λ e. e.tx ≢ tx) entries.now }
{
    let mut low = 0;
    let mut high = entries.len();
    'search: while low < high {
        let middle = low + (high - low) / 2;
        let own = entries[middle].tx;
        if own == tx {
            return Some(middle);
        }
        if own < tx {
            low = middle + 1;
        } else {
            high = middle;
        }
    }
    None
}

/// The place of the transaction with this number, if the array has it. The entries must be in
/// ascending order of number.
pub fn find(entries: &[TransactionEntry], tx: u32) -> Option<usize>
    ensures within { IfSome result (λ i. i < length entries.now) }
    ensures found { IfSome result (IsPlaceOf entries.now tx) }
    ensures none { IsTable entries.now → result ≡ None
        → All (λ e. e.tx ≢ tx) entries.now }
{
    match place_in_turn(entries, tx) {
        Some(place) => Some(place),
        None => place_among(entries, tx),
    }
}

/// The place of this transaction, if its state allows the operation. Errors: `UnknownTransaction`
/// if the array does not have it, or its number is 0; `Forbidden` with its state.
pub fn place_for(entries: &[TransactionEntry], tx: u32, need: Need) -> Result<usize, Refusal>
    ensures within { IfOk result (λ i. i < length entries.now) }
    ensures found { IfOk result (IsPlaceOf entries.now tx) }
    ensures some { OnOk result (0 < tx) }
    ensures allowed { IfOk result (IsAllowedAt entries.now need) }
    ensures kind { IfErr result IsNotRoom }
    ensures err { IfErr result (RefusesEntry entries.now need tx) }
{
    if tx == 0 {
        return Err(Refusal::UnknownTransaction);
    }
    let Some(place) = find(entries, tx) else {
        return Err(Refusal::UnknownTransaction);
    };
    let state = state_named(entries[place].state);
    if !need.allows(state) {
        return Err(Refusal::Forbidden(state));
    }
    Ok(place)
}

/// The newest pending update of a transaction is before this place, if `held` entries are in use.
/// If its UndoNxtLSN is 0, it has no pending update, and the place is 0.
pub fn bound(entry: TransactionEntry, held: usize) -> usize
    ensures { result ≡ bound_of entry held }
{
    if entry.undo_next == 0 {
        0
    } else {
        entry.below.min(held)
    }
}

/// The place of the newest update of a transaction; `None` if none of these updates is its own.
pub fn newest(pending: &[PendingEntry], tx: u32) -> Option<usize>
    ensures within { IfSome result (λ i. i < length pending.now) }
    ensures found { IfSome result (IsUpdateOf pending.now tx) }
    ensures above { IfSome result (IsNewestOf pending.now tx) }
    ensures none { result ≡ None → All (λ p. p.tx ≢ tx) pending.now }
{
    let mut rest = pending.len();
    'scan: while rest > 0 {
        rest -= 1;
        if pending[rest].tx == tx {
            return Some(rest);
        }
    }
    None
}

/// Whether the array has the transaction with this number.
fn is_listed(entries: &[TransactionEntry], tx: u32) -> bool
    ensures { IsTable entries.now → (p : PendingEntry) → p.tx ≡ tx
        → result ≡ is_live entries.now p }
{
    find(entries, tx).is_some()
}

/// The place of the first update that is not needed any more: the array of transactions does not
/// have its transaction.
fn first_dead(entries: &[TransactionEntry], pending: &[PendingEntry]) -> Option<usize>
    ensures within { IfSome result (λ i. i < length pending.now) }
    ensures dead { IfSome result (IsDeadAt entries.now pending.now) }
    ensures before { IfSome result (AllLiveBefore entries.now pending.now) }
    ensures none { result ≡ None → IsTable entries.now → AllLive entries.now pending.now }
{
    for place in 0..pending.len() {
        if !is_listed(entries, pending[place].tx) {
            return Some(place);
        }
    }
    None
}

/// Whether some of these updates are not needed any more.
pub fn has_dead(entries: &[TransactionEntry], pending: &[PendingEntry]) -> bool
    ensures { result ≡ true → IsTable entries.now → AllLive entries.now pending.now → ⊥ }
{
    first_dead(entries, pending).is_some()
}

/// Removes the updates that are not needed any more. The first of these updates is one of them.
/// Returns how many are left. These are at the front, in the same order.
fn compact(entries: &[TransactionEntry], pending: &mut [PendingEntry]) -> usize
    requires { 0 < length pending.old }
    ensures within { result < length pending.old }
    ensures kept { DropsDead entries.now result pending.old pending.new }
{
    let mut kept = 0;
    for place in 1..pending.len() {
        let update = pending[place];
        if is_listed(entries, update.tx) {
            pending[kept] = update;
            kept += 1;
        }
    }
    kept
}

/// Removes the updates that are not needed any more: the one at the place `dead`, and those after it.
/// Returns how many updates are left.
fn compact_from(entries: &[TransactionEntry], pending: &mut [PendingEntry], dead: usize) -> usize
    requires { dead < length pending.old }
    ensures within { result < length pending.old }
    ensures kept { DropsDeadFrom entries.now dead result pending.old pending.new }
{
    dead + compact(entries, &mut pending[dead..])
}

/// Whether at least half of a sample of these updates are not needed any more.
fn is_half_dead(entries: &[TransactionEntry], pending: &[PendingEntry]) -> bool {
    let sample = pending.iter().step_by(SAMPLED);
    let dead = sample
        .filter(|update| !is_listed(entries, update.tx))
        .count();
    dead >= pending.len() / SAMPLED / 2
}

/// Removes those of the last `RECENT` updates that are not needed any more, if the number of these
/// updates is a multiple of `RECENT`, and if half of the sample is not needed. So an update costs the
/// same however many others are pending. Returns how many updates are left.
fn compact_recent(entries: &[TransactionEntry], pending: &mut [PendingEntry]) -> usize
    ensures within { result ≤ length pending.old }
    ensures kept { MakesRoom entries.now (length pending.old) pending.old pending.new result }
{
    let count = pending.len();
    let Some(from) = count.checked_sub(RECENT) else {
        return count;
    };
    let recent = &pending[from..];
    if count % RECENT != 0 || !is_half_dead(entries, recent) {
        return count;
    }
    match first_dead(entries, recent) {
        Some(dead) => compact_from(entries, pending, from + dead),
        None => count,
    }
}

/// The place for one more pending update. If the array is full, all updates that are not needed any
/// more are removed first. If it is not, some may be. The errors, after which nothing is changed:
/// `NoPendingRoom` if the array is full and each update is needed; `BadArrays` if it has fewer than
/// `count` entries.
pub fn room_for_one(
    entries: &[TransactionEntry],
    pending: &mut [PendingEntry],
    count: usize,
) -> Result<usize, Refusal>
    ensures within { IfOk result (λ top. top < length pending.old) }
    ensures kept { IfOk result (MakesRoom entries.now count pending.old pending.new) }
    ensures full { IfOk result (DropsAllDead entries.now count pending.old pending.new) }
    ensures err { OnErr result (pending.new ≡ pending.old) }
    ensures causes { IfErr result (IsNoRoom entries.now count pending.old) }
{
    if count > pending.len() {
        return Err(Refusal::BadArrays);
    }
    if count < pending.len() {
        return Ok(compact_recent(entries, &mut pending[..count]));
    }
    match first_dead(entries, pending) {
        Some(dead) => Ok(compact_from(entries, pending, dead)),
        None => Err(Refusal::NoPendingRoom),
    }
}

/// Notes an update of the transaction at `place`: it becomes the pending update at `top`.
pub fn note_update(
    transactions: &mut [TransactionEntry],
    place: usize,
    pending: &mut [PendingEntry],
    top: usize,
    update: &PendingEntry,
)
    requires place { place < length transactions.old }
    requires top { top < length pending.old }
    ensures transaction { IsUpdatedAt place update.now.lsn (top + 1)
        transactions.old transactions.new }
    ensures pending { pending.new ≡ slice_set pending.old top update.now }
{
    let entry = &mut transactions[place];
    entry.last = update.lsn;
    entry.undo_next = update.lsn;
    entry.below = top + 1;
    pending[top] = *update;
}

/// Notes that the record with this LSN undid the pending update at `top`, which is one of the
/// transaction at `place`.
pub fn note_undo(
    transactions: &mut [TransactionEntry],
    place: usize,
    pending: &mut [PendingEntry],
    top: usize,
    lsn: u64,
    undo_next: u64,
)
    requires place { place < length transactions.old }
    requires top { top < length pending.old }
    ensures transaction { IsUndoneAt place lsn undo_next top transactions.old transactions.new }
    ensures pending { IsDisownedAt top pending.old pending.new }
{
    let entry = &mut transactions[place];
    entry.last = lsn;
    entry.undo_next = undo_next;
    entry.below = top;
    pending[top].tx = 0;
}

/// Notes that the record with this LSN put the transaction at `place` into the state with this
/// number.
pub fn note_state(transactions: &mut [TransactionEntry], place: usize, state: u8, lsn: u64)
    requires { place < length transactions.old }
    ensures { IsInStateAt place state lsn transactions.old transactions.new }
{
    let entry = &mut transactions[place];
    entry.last = lsn;
    entry.state = state;
}

/// Removes the transaction at this place from the first `count`. The others keep their order.
pub fn finish(transactions: &mut [TransactionEntry], place: usize, count: usize)
    requires place { place < count }
    requires count { count ≤ length transactions.old }
    ensures { take (count - 1) transactions.new ≡ remove (take count transactions.old) place }
{
    transactions[place..count].rotate_left(1);
}
