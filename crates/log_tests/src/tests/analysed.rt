//! Worked rows: the tables of small logs.

use super::records::{abort, commit, end, log_of, prepare};
use analysis::{Tables, analyse};
use checks::{check, check_all};
use page::Fault;
use std::alloc::Global;
use std::test::Fail;
use wal::{Entry, Log, Record, State, read_log, write_frame};

/// An update; a checkpoint that lists its transaction and page.
const CHECKPOINT: &[u8] =
    b"ARIESLG1\x00\x00\x00\x1d\x01\x00\x00\x00\x00\x00\x00\x00\x01\x00\x00\x00\x01\x00\x00\x00\x00\x00\x00\x00\x00\x00\x00\x00\x00\x00\xff\x01a\x00\x00\x00\x09\x06\x00\x00\x00\x00\x00\x00\x00\x02\x00\x00\x00:\x07\x00\x00\x00\x00\x00\x00\x00\x03\x00\x00\x00\x00\x00\x00\x00\x02\x00\x00\x00\x01\x00\x00\x00\x01\x00\x00\x00\x00\x00\x00\x00\x00\x01\x00\x00\x00\x00\x00\x00\x00\x01\x00\x00\x00\x01\x00\x00\x00\x00\x00\x00\x00\x00\x00\x00\x00\x01";

/// The same, and the commit.
const COMMIT: &[u8] =
    b"ARIESLG1\x00\x00\x00\x1d\x01\x00\x00\x00\x00\x00\x00\x00\x01\x00\x00\x00\x01\x00\x00\x00\x00\x00\x00\x00\x00\x00\x00\x00\x00\x00\xff\x01a\x00\x00\x00\x09\x06\x00\x00\x00\x00\x00\x00\x00\x02\x00\x00\x00:\x07\x00\x00\x00\x00\x00\x00\x00\x03\x00\x00\x00\x00\x00\x00\x00\x02\x00\x00\x00\x01\x00\x00\x00\x01\x00\x00\x00\x00\x00\x00\x00\x00\x01\x00\x00\x00\x00\x00\x00\x00\x01\x00\x00\x00\x01\x00\x00\x00\x00\x00\x00\x00\x00\x00\x00\x00\x01\x00\x00\x00\x15\x03\x00\x00\x00\x00\x00\x00\x00\x04\x00\x00\x00\x01\x00\x00\x00\x00\x00\x00\x00\x01";

/// Two updates, an abort, a CLR.
const ROLLBACK: &[u8] =
    b"ARIESLG1\x00\x00\x00\x1d\x01\x00\x00\x00\x00\x00\x00\x00\x01\x00\x00\x00\x01\x00\x00\x00\x00\x00\x00\x00\x00\x00\x00\x00\x00\x00\xff\x01a\x00\x00\x00\x1e\x01\x00\x00\x00\x00\x00\x00\x00\x02\x00\x00\x00\x01\x00\x00\x00\x00\x00\x00\x00\x01\x00\x00\x00\x00\x00\x01a\x01b\x00\x00\x00\x15\x04\x00\x00\x00\x00\x00\x00\x00\x03\x00\x00\x00\x01\x00\x00\x00\x00\x00\x00\x00\x02\x00\x00\x00$\x02\x00\x00\x00\x00\x00\x00\x00\x04\x00\x00\x00\x01\x00\x00\x00\x00\x00\x00\x00\x03\x00\x00\x00\x00\x00\x00\x00\x00\x00\x00\x00\x00\x01\x01a";

/// Only an abort.
const ABORT: &[u8] =
    b"ARIESLG1\x00\x00\x00\x15\x04\x00\x00\x00\x00\x00\x00\x00\x01\x00\x00\x00\x03\x00\x00\x00\x00\x00\x00\x00\x00";

/// An update, its commit, another update.
const UPDATE_AFTER_COMMIT: &[u8] =
    b"ARIESLG1\x00\x00\x00\x1d\x01\x00\x00\x00\x00\x00\x00\x00\x01\x00\x00\x00\x01\x00\x00\x00\x00\x00\x00\x00\x00\x00\x00\x00\x00\x00\xff\x01a\x00\x00\x00\x15\x03\x00\x00\x00\x00\x00\x00\x00\x02\x00\x00\x00\x01\x00\x00\x00\x00\x00\x00\x00\x01\x00\x00\x00\x1e\x01\x00\x00\x00\x00\x00\x00\x00\x03\x00\x00\x00\x01\x00\x00\x00\x00\x00\x00\x00\x02\x00\x00\x00\x00\x00\x01a\x01b";

/// The checkpoint with RecLSN 0.
const REC_LSN_ZERO: &[u8] =
    b"ARIESLG1\x00\x00\x00\x1d\x01\x00\x00\x00\x00\x00\x00\x00\x01\x00\x00\x00\x01\x00\x00\x00\x00\x00\x00\x00\x00\x00\x00\x00\x00\x00\xff\x01a\x00\x00\x00\x09\x06\x00\x00\x00\x00\x00\x00\x00\x02\x00\x00\x00:\x07\x00\x00\x00\x00\x00\x00\x00\x03\x00\x00\x00\x00\x00\x00\x00\x02\x00\x00\x00\x01\x00\x00\x00\x01\x00\x00\x00\x00\x00\x00\x00\x00\x01\x00\x00\x00\x00\x00\x00\x00\x01\x00\x00\x00\x01\x00\x00\x00\x00\x00\x00\x00\x00\x00\x00\x00\x00";

/// The checkpoint, a commit, an abort.
const ABORT_AFTER_COMMIT: &[u8] =
    b"ARIESLG1\x00\x00\x00\x1d\x01\x00\x00\x00\x00\x00\x00\x00\x01\x00\x00\x00\x01\x00\x00\x00\x00\x00\x00\x00\x00\x00\x00\x00\x00\x00\xff\x01a\x00\x00\x00\x09\x06\x00\x00\x00\x00\x00\x00\x00\x02\x00\x00\x00:\x07\x00\x00\x00\x00\x00\x00\x00\x03\x00\x00\x00\x00\x00\x00\x00\x02\x00\x00\x00\x01\x00\x00\x00\x01\x00\x00\x00\x00\x00\x00\x00\x00\x01\x00\x00\x00\x00\x00\x00\x00\x01\x00\x00\x00\x01\x00\x00\x00\x00\x00\x00\x00\x00\x00\x00\x00\x01\x00\x00\x00\x15\x03\x00\x00\x00\x00\x00\x00\x00\x04\x00\x00\x00\x01\x00\x00\x00\x00\x00\x00\x00\x01\x00\x00\x00\x15\x04\x00\x00\x00\x00\x00\x00\x00\x05\x00\x00\x00\x01\x00\x00\x00\x00\x00\x00\x00\x04";

/// An update and its commit.
const ONE_COMMIT: &[u8] =
    b"ARIESLG1\x00\x00\x00\x1d\x01\x00\x00\x00\x00\x00\x00\x00\x01\x00\x00\x00\x01\x00\x00\x00\x00\x00\x00\x00\x00\x00\x00\x00\x00\x00\xff\x01a\x00\x00\x00\x15\x03\x00\x00\x00\x00\x00\x00\x00\x02\x00\x00\x00\x01\x00\x00\x00\x00\x00\x00\x00\x01";

/// A log, a master, and what analysis finds: at most one transaction and one page each.
#[derive(Clone, Copy)]
pub struct Row {
    pub name: &'static str,
    pub log: &'static [u8],
    pub master: u64,
    pub transaction: Option<(u32, State, u64, u64)>,
    pub dirty: Option<(u32, u64)>,
    pub redo_lsn: u64,
}

const ACTIVE: Option<(u32, State, u64, u64)> = Some((1, State::Active, 1, 1));

const LAST: Option<(u32, State, u64, u64)> = Some((1, State::Active, 3, 3));

const ROLLED: Option<(u32, State, u64, u64)> = Some((1, State::Aborting, 4, 1));

const ALONE: Option<(u32, State, u64, u64)> = Some((3, State::Aborting, 1, 0));

const TURNED: Option<(u32, State, u64, u64)> = Some((1, State::Aborting, 5, 0));

const PAGE: Option<(u32, u64)> = Some((0, 1));

pub const ROWS: [Row; 8] = [
    Row {
        name: "checkpoint",
        log: CHECKPOINT,
        master: 2,
        transaction: ACTIVE,
        dirty: PAGE,
        redo_lsn: 1,
    },
    Row {
        name: "without its master",
        log: CHECKPOINT,
        master: 0,
        transaction: ACTIVE,
        dirty: PAGE,
        redo_lsn: 1,
    },
    Row {
        name: "commit",
        log: COMMIT,
        master: 2,
        transaction: None,
        dirty: PAGE,
        redo_lsn: 1,
    },
    Row {
        name: "rollback",
        log: ROLLBACK,
        master: 0,
        transaction: ROLLED,
        dirty: PAGE,
        redo_lsn: 1,
    },
    Row {
        name: "abort",
        log: ABORT,
        master: 0,
        transaction: ALONE,
        dirty: None,
        redo_lsn: 0,
    },
    Row {
        name: "update after commit",
        log: UPDATE_AFTER_COMMIT,
        master: 0,
        transaction: LAST,
        dirty: PAGE,
        redo_lsn: 1,
    },
    Row {
        name: "RecLSN 0",
        log: REC_LSN_ZERO,
        master: 2,
        transaction: ACTIVE,
        dirty: Some((0, 0)),
        redo_lsn: 1,
    },
    Row {
        name: "abort after commit",
        log: ABORT_AFTER_COMMIT,
        master: 2,
        transaction: TURNED,
        dirty: PAGE,
        redo_lsn: 1,
    },
];

/// Whether these are the transactions of the tables.
fn has_transactions(tables: &Tables, expected: Option<(u32, State, u64, u64)>) -> bool {
    match expected {
        None => tables.transactions.is_empty(),
        Some((tx, state, last, undo_next)) => tables.transactions.len() == 1
            && is_entry(tables.transactions.get(&tx), state, last, undo_next),
    }
}

/// Whether these are the dirty pages of the tables.
fn has_dirty(tables: &Tables, expected: Option<(u32, u64)>) -> bool {
    match expected {
        None => tables.dirty.is_empty(),
        Some((page, rec_lsn)) => tables.dirty.len() == 1
            && tables.dirty.get(&page) == Some(&rec_lsn),
    }
}

/// Whether there is an entry, and it is this.
fn is_entry(found: Option<&Entry>, state: State, last: u64, undo_next: u64) -> bool {
    match found {
        Some(entry) => entry.state == state && entry.last == last && entry.undo_next == undo_next,
        None => false,
    }
}

/// Whether analysis finds what the row says.
fn is_found(alloc: Global, row: &Row) -> Result<bool, Fault> {
    let (log, _) = read_log(alloc, row.log)?;
    let tables = analyse(alloc, &log, row.master)?;
    Ok(
        has_transactions(&tables, row.transaction)
            && has_dirty(&tables, row.dirty)
            && tables.redo_lsn == row.redo_lsn,
    )
}

#[test]
fn finds_the_tables(rt: HostRuntime) -> Result<(), Fail> {
    for row in &ROWS {
        check(is_found(rt.alloc(), row)?, row.name)?;
    }
    Ok(())
}

fn update(prev: u64) -> Record {
    Record::Update {
        tx: 1,
        prev,
        page: 0,
        slot: 0,
        before: None,
        after: None,
    }
}

/// The end of the checkpoint at `begin` that lists T1 in this state with these LSNs, and page 0.
fn checkpoint_end(
    alloc: Global,
    begin: u64,
    state: State,
    last: u64,
    undo_next: u64,
) -> Result<Record, Fault> {
    let mut transactions = Vec::new(alloc);
    let entry = Entry {
        state,
        last,
        undo_next,
    };
    transactions.push((1, entry))?;
    let mut dirty = Vec::new(alloc);
    dirty.push((0, 1))?;
    Ok(Record::CheckpointEnd {
        begin,
        transactions,
        dirty,
    })
}

/// The entry of T1 that analysis, from this master on, finds.
fn entry_of(alloc: Global, records: &[&Record], master: u64) -> Result<Option<Entry>, Fault> {
    let bytes = log_of(alloc, records)?;
    let (log, _) = read_log(alloc, &bytes)?;
    let tables = analyse(alloc, &log, master)?;
    Ok(tables.transactions.get(&1).copied())
}

/// Whether analysis, from this master on, finds T1 in this state with these LSNs.
fn has_entry(
    alloc: Global,
    records: &[&Record],
    master: u64,
    state: State,
    last: u64,
    undo_next: u64,
) -> bool {
    match entry_of(alloc, records, master) {
        Ok(Some(entry)) => is_entry(Some(&entry), state, last, undo_next),
        _ => false,
    }
}

/// Whether analysis of an update, a prepare and this record does not find T1.
fn has_no_entry(alloc: Global, third: Record) -> bool {
    match entry_of(alloc, &[&update(0), &prepare(1), &third], 0) {
        Ok(None) => true,
        _ => false,
    }
}

/// Whether analysis of an update and a prepare finds T1 prepared.
fn is_prepared(alloc: Global) -> bool {
    has_entry(alloc, &[&update(0), &prepare(1)], 0, State::Prepared, 2, 1)
}

/// Whether analysis of only a prepare does.
fn is_prepared_alone(alloc: Global) -> bool {
    has_entry(alloc, &[&prepare(0)], 0, State::Prepared, 1, 0)
}

/// Whether analysis of an update and these two records finds T1 in this state after the third
/// record, with this UndoNxtLSN.
fn has_behind(alloc: Global, second: Record, third: Record, state: State, undo_next: u64) -> bool {
    has_entry(
        alloc,
        &[&update(0), &second, &third],
        0,
        state,
        3,
        undo_next,
    )
}

#[test]
fn finds_prepared_transactions(rt: HostRuntime) -> Result<(), Fail> {
    let alloc = rt.alloc();
    check_all(&[
        (is_prepared(alloc), "prepared"),
        (is_prepared_alone(alloc), "prepare alone"),
        (has_no_entry(alloc, commit(2)), "prepared-commit"),
        (
            has_behind(alloc, prepare(1), abort(2), State::Aborting, 1),
            "prepared-abort",
        ),
    ])
}

#[test]
fn finds_prepares_that_no_law_allows(rt: HostRuntime) -> Result<(), Fail> {
    let alloc = rt.alloc();
    check_all(&[
        (
            has_behind(alloc, prepare(1), update(2), State::Prepared, 3),
            "work-after-prepare",
        ),
        (has_no_entry(alloc, end(2)), "an end in doubt"),
        (
            has_behind(alloc, abort(1), prepare(2), State::Aborting, 1),
            "a prepare behind an abort",
        ),
        (
            has_behind(alloc, commit(1), prepare(2), State::Prepared, 0),
            "a prepare behind a commit",
        ),
    ])
}

/// Whether analysis finds T1 prepared if a checkpoint lists it as prepared.
fn is_prepared_at_checkpoint(alloc: Global) -> Result<bool, Fault> {
    let listed = checkpoint_end(alloc, 3, State::Prepared, 2, 1)?;
    let records = &[&update(0), &prepare(1), &Record::CheckpointBegin, &listed];
    Ok(has_entry(alloc, records, 3, State::Prepared, 2, 1))
}

/// Whether analysis finds it aborting after an abort.
fn is_aborting_behind_checkpoint(alloc: Global) -> Result<bool, Fault> {
    let listed = checkpoint_end(alloc, 3, State::Prepared, 2, 1)?;
    let begin = Record::CheckpointBegin;
    let records = &[&update(0), &prepare(1), &begin, &listed, &abort(2)];
    Ok(has_entry(alloc, records, 3, State::Aborting, 5, 1))
}

#[test]
fn finds_what_a_checkpoint_has_as_prepared(rt: HostRuntime) -> Result<(), Fail> {
    let is_prepared = is_prepared_at_checkpoint(rt.alloc())?;
    let is_aborting = is_aborting_behind_checkpoint(rt.alloc())?;
    check_all(&[
        (is_prepared, "prepared-at-checkpoint"),
        (is_aborting, "an abort behind it"),
    ])
}

/// Whether analysis finds T1 prepared if it prepares within a checkpoint that lists it as active.
fn is_prepared_in_checkpoint(alloc: Global) -> Result<bool, Fault> {
    let listed = checkpoint_end(alloc, 2, State::Active, 1, 1)?;
    let records = &[&update(0), &Record::CheckpointBegin, &prepare(1), &listed];
    Ok(has_entry(alloc, records, 2, State::Prepared, 3, 1))
}

/// Whether analysis finds T1 aborting if it prepares after a checkpoint that lists it as aborting.
fn is_aborting_for_all_it_prepares(alloc: Global) -> Result<bool, Fault> {
    let listed = checkpoint_end(alloc, 2, State::Aborting, 1, 1)?;
    let records = &[&update(0), &Record::CheckpointBegin, &listed, &prepare(1)];
    Ok(has_entry(alloc, records, 2, State::Aborting, 4, 1))
}

#[test]
fn finds_prepares_beside_a_checkpoint(rt: HostRuntime) -> Result<(), Fail> {
    let is_prepared = is_prepared_in_checkpoint(rt.alloc())?;
    let is_aborting = is_aborting_for_all_it_prepares(rt.alloc())?;
    check_all(&[
        (is_prepared, "a prepare between begin and end"),
        (is_aborting, "a prepare of an aborting one"),
    ])
}

/// Whether analysis of a log returns `BadMaster` for this master.
fn is_bad_master(alloc: Global, log: &Log, master: u64) -> bool {
    match analyse(alloc, log, master) {
        Ok(_) => false,
        Err(fault) => fault == Fault::BadMaster,
    }
}

#[test]
fn refuses_a_master_that_is_no_begin(rt: HostRuntime) -> Result<(), Fail> {
    let (log, _) = read_log(rt.alloc(), ONE_COMMIT)?;
    let are_refused = is_bad_master(rt.alloc(), &log, 1) && is_bad_master(rt.alloc(), &log, 2);
    check_all(&[
        (are_refused, "masters 1 and 2"),
        (is_bad_master(rt.alloc(), &log, 9), "master 9"),
    ])
}

/// The bytes of a log of a million aborts, of a thousand transactions.
fn a_million_aborts(alloc: Global) -> Result<Vec<u8>, Fault> {
    let mut bytes = Vec::from_slice(alloc, b"ARIESLG1")?;
    for lsn in 1..1_000_001u64 {
        let logged = Record::Abort {
            tx: (lsn % 1000) as u32 + 1,
            prev: 0,
        };
        write_frame(&logged, lsn, &mut bytes)?;
    }
    Ok(bytes)
}

#[test]
fn scans_a_million_records(rt: HostRuntime) -> Result<(), Fail> {
    let bytes = a_million_aborts(rt.alloc())?;
    let (log, _) = read_log(rt.alloc(), &bytes)?;
    let tables = analyse(rt.alloc(), &log, 0)?;
    let is_whole = log.len() == 1_000_000 && tables.transactions.len() == 1000;
    check(
        is_whole && tables.redo_lsn == 0,
        "records, transactions, redo LSN",
    )
}
