//! Rows worked by hand: the fault of each log and store, or none.

use super::records::{abort, commit, end, log_of, prepare};
use audit::audit;
use checks::check_all;
use page::{Fault, Value, decode_store};
use std::alloc::Global;
use std::test::Fail;
use wal::{Entry, Record, State, read_log};

/// The audit of a log's bytes and of a store of one page, in whose bytes only these are not zero.
fn judge(alloc: Global, log: &[u8], bytes: &[(usize, u8)]) -> Result<(), Fault> {
    let mut store = Vec::from_slice(alloc, b"ARIESPG1\0\0\0\x01")?;
    store.resize(1048, 0)?;
    for (place, byte) in bytes {
        if *place < store.len() {
            store[*place] = *byte;
        }
    }
    let (log, _) = read_log(alloc, log)?;
    let store = decode_store(alloc, &store)?;
    audit(alloc, &log, &store)
}

/// An update of slot 0 of page 0.
fn update(tx: u32, prev: u64, before: &[u8], after: &[u8]) -> Record {
    Record::Update {
        tx,
        prev,
        page: 0,
        slot: 0,
        before: if before.is_empty() {
            None
        } else {
            Value::new(before)
        },
        after: Value::new(after),
    }
}

/// A CLR that empties slot 0 of page 0.
fn compensation(prev: u64) -> Record {
    Record::Compensation {
        tx: 1,
        prev,
        page: 0,
        slot: 0,
        undo_next: 0,
        image: None,
    }
}

/// The audit of these records, and of a store of one empty page with this master.
fn judge_records(alloc: Global, records: &[&Record], master: u8) -> Result<(), Fault> {
    let log = log_of(alloc, records)?;
    judge(alloc, &log, &[(23, master)])
}

/// Whether an audit of an update, a prepare of its transaction and this record has this result.
fn is_judged(alloc: Global, last: Record, expected: Result<(), Fault>) -> bool {
    let first = update(1, 0, b"", b"a");
    judge_records(alloc, &[&first, &prepare(1), &last], 0) == expected
}

/// An update of another cell by another transaction.
fn other_cell() -> Record {
    Record::Update {
        tx: 2,
        prev: 0,
        page: 0,
        slot: 1,
        before: None,
        after: Value::new(b"b"),
    }
}

#[test]
fn laws_of_what_follows_a_prepare(rt: HostRuntime) -> Result<(), Fail> {
    let alloc = rt.alloc();
    let finished = Err(Fault::AfterFinish(3));
    let dirty = Err(Fault::DirtyWrite(3));
    check_all(&[
        (is_judged(alloc, commit(2), Ok(())), "prepared-commit"),
        (is_judged(alloc, abort(2), Ok(())), "prepared-abort"),
        (
            is_judged(alloc, other_cell(), Ok(())),
            "prepared-beside-loser",
        ),
        (
            is_judged(alloc, update(1, 2, b"a", b"b"), finished),
            "work-after-prepare: update",
        ),
        (
            is_judged(alloc, end(2), finished),
            "work-after-prepare: end",
        ),
        (
            is_judged(alloc, compensation(2), finished),
            "work-after-prepare: compensation",
        ),
        (
            is_judged(alloc, prepare(2), finished),
            "work-after-prepare: prepare",
        ),
        (
            is_judged(alloc, update(2, 0, b"a", b"c"), dirty),
            "write-over-prepared",
        ),
    ])
}

/// Whether an audit of these two records and a prepare reports that the prepare comes after the
/// finish.
fn is_after_finish(alloc: Global, first: Record, second: Record) -> bool {
    judge_records(alloc, &[&first, &second, &prepare(2)], 0) == Err(Fault::AfterFinish(3))
}

/// Whether an audit finds a single prepare lawful.
fn is_alone_lawful(alloc: Global) -> bool {
    judge_records(alloc, &[&prepare(0)], 0).is_ok()
}

/// Whether an audit finds an update and a prepare lawful.
fn is_prepared_lawful(alloc: Global) -> bool {
    judge_records(alloc, &[&update(1, 0, b"", b"a"), &prepare(1)], 0).is_ok()
}

/// Whether an audit finds the rollback of these lawful.
fn is_rolled_back_lawful(alloc: Global) -> bool {
    let first = update(1, 0, b"", b"a");
    let undone = [&first, &prepare(1), &abort(2), &compensation(3), &end(4)];
    judge_records(alloc, &undone, 0).is_ok()
}

#[test]
fn laws_of_a_prepare(rt: HostRuntime) -> Result<(), Fail> {
    let alloc = rt.alloc();
    let behind_commit = is_after_finish(alloc, update(1, 0, b"", b"a"), commit(1));
    let behind_abort = is_after_finish(alloc, update(1, 0, b"", b"a"), abort(1));
    check_all(&[
        (behind_commit, "behind a commit"),
        (behind_abort, "behind an abort"),
        (is_after_finish(alloc, abort(0), end(1)), "behind an end"),
        (is_alone_lawful(alloc), "as the first record"),
        (is_prepared_lawful(alloc), "prepared"),
        (
            is_rolled_back_lawful(alloc),
            "the rollback of prepared-abort",
        ),
    ])
}

/// The end of a checkpoint that lists T1 in this state, and page 0.
fn checkpoint_end(alloc: Global, begin: u64, state: State, last: u64) -> Result<Record, Fault> {
    let mut transactions = Vec::new(alloc);
    let entry = Entry {
        state,
        last,
        undo_next: 1,
    };
    transactions.push((1, entry))?;
    let mut dirty = Vec::new(alloc);
    dirty.push((0, 1))?;
    Ok(Record::CheckpointEnd {
        begin,
        transactions,
        dirty,
    })
}

/// Whether an audit of these records, and of a store with this master, accepts a checkpoint that
/// lists T1 in the right state, and rejects one with another state.
fn is_right(alloc: Global, records: &[&Record], master: u8, is_state: bool) -> bool {
    let expected = if is_state {
        Ok(())
    } else {
        Err(Fault::TransactionTable)
    };
    judge_records(alloc, records, master) == expected
}

/// Whether a checkpoint after only the prepare is right if it lists T1 in this state, and T1 is
/// prepared.
fn is_listed_prepared(alloc: Global, state: State) -> Result<bool, Fault> {
    let first = update(1, 0, b"", b"a");
    let last = checkpoint_end(alloc, 3, state, 2)?;
    let records = &[&first, &prepare(1), &Record::CheckpointBegin, &last];
    Ok(is_right(alloc, records, 3, state == State::Prepared))
}

/// The same after a prepare and an abort, where T1 is aborting.
fn is_listed_aborting(alloc: Global, state: State) -> Result<bool, Fault> {
    let first = update(1, 0, b"", b"a");
    let last = checkpoint_end(alloc, 4, state, 3)?;
    let begin = Record::CheckpointBegin;
    let records = &[&first, &prepare(1), &abort(2), &begin, &last];
    Ok(is_right(alloc, records, 4, state == State::Aborting))
}

/// The same if the prepare comes after the begin record, and T1 is active.
fn is_listed_active(alloc: Global, state: State) -> Result<bool, Fault> {
    let first = update(1, 0, b"", b"a");
    let last = checkpoint_end(alloc, 2, state, 1)?;
    let records = &[&first, &Record::CheckpointBegin, &prepare(1), &last];
    Ok(is_right(alloc, records, 2, state == State::Active))
}

const STATES: [(&str, State); 3] = [
    ("active", State::Active),
    ("prepared", State::Prepared),
    ("aborting", State::Aborting),
];

#[test]
fn states_in_a_checkpoint(rt: HostRuntime) -> Result<(), Fail> {
    let alloc = rt.alloc();
    for (name, state) in STATES {
        check_all(&[
            (is_listed_prepared(alloc, state)?, name),
            (is_listed_aborting(alloc, state)?, name),
            (is_listed_active(alloc, state)?, name),
        ])?;
    }
    Ok(())
}
