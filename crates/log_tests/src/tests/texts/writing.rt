//! Frames that are written have the bytes worked out by hand.

use super::super::records::put;
use super::vectors::{
    CHECKPOINT_LOSER, EMPTY_AND_FULL_VALUES, ONE_COMMIT, ONE_LOSER_RESTARTED, PREPARED,
    PREPARED_AT_CHECKPOINT, ROLLBACK_INTERRUPTED,
};
use checks::{check, check_all};
use linked_list_allocator::LocalHeap;
use page::{Fault, Value};
use std::alloc::Global;
use std::test::Fail;
use wal::{Entry, Record, State, write_frame};

fn update(tx: u32, prev: u64, slot: u8, before: Option<Value>, after: Option<Value>) -> Record {
    Record::Update {
        tx,
        prev,
        page: 0,
        slot,
        before,
        after,
    }
}

/// Appends the frame of a record.
fn append(out: &mut Vec<u8>, lsn: u64, record: Record) -> Result<(), Fault> {
    put(out, lsn, &record)
}

/// The bytes of a log whose first record puts this value into slot 0.
fn first_update(alloc: Global, after: &[u8]) -> Result<Vec<u8>, Fault> {
    let mut out = Vec::from_slice(alloc, b"ARIESLG1")?;
    append(&mut out, 1, update(1, 0, 0, None, Value::new(after)))?;
    Ok(out)
}

fn one_commit(alloc: Global) -> Result<Vec<u8>, Fault> {
    let mut out = first_update(alloc, b"a")?;
    append(&mut out, 2, Record::Commit { tx: 1, prev: 1 })?;
    Ok(out)
}

fn empty_and_full_values(alloc: Global) -> Result<Vec<u8>, Fault> {
    let mut out = first_update(alloc, b"")?;
    let full = Value::new(&[b'z'; 48]);
    append(&mut out, 2, update(1, 1, 1, None, full))?;
    append(&mut out, 3, Record::Commit { tx: 1, prev: 2 })?;
    Ok(out)
}

#[test]
fn writes_updates_and_commits(rt: HostRuntime) -> Result<(), Fail> {
    let alloc = rt.alloc();
    let commit = one_commit(alloc)?;
    let values = empty_and_full_values(alloc)?;
    check_all(&[
        (commit.as_slice() == ONE_COMMIT, "one-commit"),
        (
            values.as_slice() == EMPTY_AND_FULL_VALUES,
            "empty-and-full-values",
        ),
    ])
}

/// The CLR of an update in slot 0.
fn compensation(prev: u64, undo_next: u64, image: Option<Value>) -> Record {
    Record::Compensation {
        tx: 1,
        prev,
        page: 0,
        slot: 0,
        undo_next,
        image,
    }
}

fn one_loser_restarted(alloc: Global) -> Result<Vec<u8>, Fault> {
    let mut out = first_update(alloc, b"a")?;
    append(&mut out, 2, compensation(1, 0, None))?;
    append(&mut out, 3, Record::End { tx: 1, prev: 2 })?;
    Ok(out)
}

fn rollback_interrupted(alloc: Global) -> Result<Vec<u8>, Fault> {
    let mut out = first_update(alloc, b"a")?;
    let second = update(1, 1, 0, Value::new(b"a"), Value::new(b"b"));
    append(&mut out, 2, second)?;
    append(&mut out, 3, Record::Abort { tx: 1, prev: 2 })?;
    append(&mut out, 4, compensation(3, 1, Value::new(b"a")))?;
    Ok(out)
}

#[test]
fn writes_compensations_aborts_and_ends(rt: HostRuntime) -> Result<(), Fail> {
    let alloc = rt.alloc();
    let restarted = one_loser_restarted(alloc)?;
    let interrupted = rollback_interrupted(alloc)?;
    check_all(&[
        (
            restarted.as_slice() == ONE_LOSER_RESTARTED,
            "one-loser-restarted",
        ),
        (
            interrupted.as_slice() == ROLLBACK_INTERRUPTED,
            "rollback-interrupted",
        ),
    ])
}

/// Appends a checkpoint that lists T1 with this entry, and page 0.
fn append_checkpoint(
    alloc: Global,
    out: &mut Vec<u8>,
    begin: u64,
    entry: Entry,
) -> Result<(), Fault> {
    append(out, begin, Record::CheckpointBegin)?;
    let transactions = Vec::from_slice(alloc, &[(1, entry)])?;
    let dirty = Vec::from_slice(alloc, &[(0, 1)])?;
    append(
        out,
        begin.saturating_add(1),
        Record::CheckpointEnd {
            begin,
            transactions,
            dirty,
        },
    )
}

fn prepared(alloc: Global) -> Result<Vec<u8>, Fault> {
    let mut out = first_update(alloc, b"a")?;
    append(&mut out, 2, Record::Prepare { tx: 1, prev: 1 })?;
    Ok(out)
}

fn prepared_at_checkpoint(alloc: Global) -> Result<Vec<u8>, Fault> {
    let mut out = prepared(alloc)?;
    let entry = Entry {
        state: State::Prepared,
        last: 2,
        undo_next: 1,
    };
    append_checkpoint(alloc, &mut out, 3, entry)?;
    Ok(out)
}

#[test]
fn writes_prepares(rt: HostRuntime) -> Result<(), Fail> {
    let alloc = rt.alloc();
    let alone = prepared(alloc)?;
    let listed = prepared_at_checkpoint(alloc)?;
    check_all(&[
        (alone.as_slice() == PREPARED, "prepared"),
        (
            listed.as_slice() == PREPARED_AT_CHECKPOINT,
            "prepared-at-checkpoint",
        ),
    ])
}

fn checkpoint_loser(alloc: Global) -> Result<Vec<u8>, Fault> {
    let mut out = first_update(alloc, b"a")?;
    let entry = Entry {
        state: State::Active,
        last: 1,
        undo_next: 1,
    };
    append_checkpoint(alloc, &mut out, 2, entry)?;
    Ok(out)
}

#[test]
fn writes_checkpoints(rt: HostRuntime) -> Result<(), Fail> {
    let out = checkpoint_loser(rt.alloc())?;
    check(out.as_slice() == CHECKPOINT_LOSER, "checkpoint-loser")
}

#[test]
fn refused_growth_leaves_the_vector(rt: HostRuntime) -> Result<(), Fail> {
    let heap = LocalHeap::new(rt.alloc(), 256)?;
    let mut out = Vec::new(&heap);
    let mut refused = false;
    for lsn in 1..64u64 {
        let record = Record::Commit { tx: 1, prev: 0 };
        if !record.is_writable() {
            break;
        }
        let before = out.len();
        match write_frame(&record, lsn, &mut out) {
            Ok(()) => {}
            Err(fault) => {
                refused = fault == Fault::NoResource && out.len() == before;
                break;
            }
        }
    }
    check_all(&[
        (refused, "refused, and the vector as it was"),
        (out.len() % 25 == 0, "whole frames"),
    ])
}

/// The frame of a record at the largest LSN.
fn frame_of(alloc: Global, record: Record) -> Result<Vec<u8>, Fault> {
    let mut out = Vec::new(alloc);
    append(&mut out, u64::MAX, record)?;
    Ok(out)
}

/// Whether the frame of a record at the largest LSN is these parts, one after the other.
fn is_frame(alloc: Global, record: Record, front: &[u8], numbers: &[u8], behind: &[u8]) -> bool {
    match frame_of(alloc, record) {
        Ok(frame) => are_parts(&frame, front, numbers, behind),
        Err(_) => false,
    }
}

/// Whether bytes are these parts, one after the other.
fn are_parts(bytes: &[u8], front: &[u8], numbers: &[u8], behind: &[u8]) -> bool {
    match bytes.strip_prefix(front) {
        Some(rest) => rest.strip_prefix(numbers) == Some(behind),
        None => false,
    }
}

#[test]
fn writes_the_largest_numbers(rt: HostRuntime) -> Result<(), Fail> {
    let alloc = rt.alloc();
    let (tx, prev) = (u32::MAX, u64::MAX);
    let ones = [0xff; 20];
    let commit = Record::Commit { tx, prev };
    let abort = Record::Abort { tx, prev };
    let end = Record::End { tx, prev };
    let prepare = Record::Prepare { tx, prev };
    check_all(&[
        (
            is_frame(alloc, commit, &[0, 0, 0, 21, 3], &ones, b""),
            "commit",
        ),
        (
            is_frame(alloc, abort, &[0, 0, 0, 21, 4], &ones, b""),
            "abort",
        ),
        (is_frame(alloc, end, &[0, 0, 0, 21, 5], &ones, b""), "end"),
        (
            is_frame(alloc, prepare, &[0, 0, 0, 21, 8], &ones, b""),
            "prepare",
        ),
    ])
}

#[test]
fn writes_the_largest_update(rt: HostRuntime) -> Result<(), Fail> {
    let last = Record::Update {
        tx: u32::MAX,
        prev: u64::MAX,
        page: u32::MAX,
        slot: 15,
        before: None,
        after: None,
    };
    let is_same = is_frame(
        rt.alloc(),
        last,
        &[0, 0, 0, 28, 1],
        &[0xff; 24],
        &[15, 0xff, 0xff],
    );
    check(is_same, "update")
}

const ENTRY: Entry = Entry {
    state: State::Active,
    last: 5,
    undo_next: 4,
};

#[test]
fn entries_are_told_apart() -> Result<(), Fail> {
    let aborting = Entry {
        state: State::Aborting,
        ..ENTRY
    };
    let prepared = Entry {
        state: State::Prepared,
        ..ENTRY
    };
    let later = Entry { last: 6, ..ENTRY };
    let undone = Entry {
        undo_next: 0,
        ..ENTRY
    };
    check_all(&[
        (ENTRY == ENTRY, "an entry and itself"),
        (ENTRY != aborting, "an aborting one"),
        (ENTRY != prepared, "a prepared one"),
        (ENTRY != later, "another LastLSN"),
        (ENTRY != undone, "another UndoNxtLSN"),
        (State::Active != State::Aborting, "active"),
        (State::Prepared != State::Aborting, "prepared"),
    ])
}
