//! Bytes that are read as logs, and bytes that are not a log.

use super::vectors::{
    BASE_LOSER, CHECKPOINT_LOSER, EMPTY_AND_FULL_VALUES, ONE_COMMIT, ONE_LOSER_RESTARTED,
    PARTIAL_ROLLBACK_COMMIT, PREPARED, PREPARED_AT_CHECKPOINT, ROLLBACK_INTERRUPTED,
};
use super::{is_rewritten, largest_checkpoint};
use checks::{check, check_all};
use page::Fault;
use std::alloc::Global;
use std::test::Fail;
use wal::{Entry, Glance, Log, RecordView, State, read_log};

const SPELLED: [(&str, &[u8]); 8] = [
    ("one-commit", ONE_COMMIT),
    ("one-loser-restarted", ONE_LOSER_RESTARTED),
    ("checkpoint-loser", CHECKPOINT_LOSER),
    ("partial-rollback-commit", PARTIAL_ROLLBACK_COMMIT),
    ("rollback-interrupted", ROLLBACK_INTERRUPTED),
    ("prepared", PREPARED),
    ("prepared-at-checkpoint", PREPARED_AT_CHECKPOINT),
    ("empty-and-full-values", EMPTY_AND_FULL_VALUES),
];

#[test]
fn records_of_views_spell_the_log(rt: HostRuntime) -> Result<(), Fail> {
    for (name, log) in SPELLED {
        check(is_rewritten(rt.alloc(), log)?, name)?;
    }
    Ok(())
}

/// Whether these are a log's base LSN, its number of records and its last LSN.
fn has_lsns(log: &Log, base: u64, records: u64, last: u64) -> bool {
    log.base() == base && log.len() == records && log.last() == last
}

/// Whether a log has no record at this LSN.
fn lacks(log: &Log, lsn: u64) -> bool {
    log.get(lsn).is_none()
}

/// Whether record 3 of a log is the compensation of record 2, to "a".
fn shows_compensation(log: &Log) -> bool {
    match log.get(3) {
        Some(
            RecordView::Compensation {
                tx,
                prev,
                page,
                slot,
                undo_next,
                image,
            },
        ) => tx == 1 && prev == 2 && page == 0 && slot == 0 && undo_next == 1 && is_a(image),
        _ => false,
    }
}

/// Whether a value is "a".
fn is_a(value: Option<&[u8]>) -> bool {
    match value {
        Some(value) => value == b"a".as_slice(),
        None => false,
    }
}

#[test]
fn views_show_compensations(rt: HostRuntime) -> Result<(), Fail> {
    let (log, torn) = read_log(rt.alloc(), PARTIAL_ROLLBACK_COMMIT)?;
    check_all(&[
        (torn == 0 && has_lsns(&log, 0, 4, 4), "four records"),
        (lacks(&log, 0) && lacks(&log, 5), "LSNs 0 and 5"),
        (shows_compensation(&log), "a compensation"),
    ])
}

/// Whether record 2 of a log is the prepare of transaction 1.
fn shows_prepare(log: &Log) -> bool {
    match log.get(2) {
        Some(RecordView::Prepare { tx, prev }) => tx == 1 && prev == 1,
        _ => false,
    }
}

/// Whether it is a prepare at a glance.
fn glances_at_prepare(log: &Log) -> bool {
    if log.base() != 0 || log.last() <= 1 {
        return false;
    }
    match log.glance_after(1) {
        Glance::Prepare { tx } => tx == 1,
        _ => false,
    }
}

#[test]
fn views_show_prepares(rt: HostRuntime) -> Result<(), Fail> {
    let (log, torn) = read_log(rt.alloc(), PREPARED)?;
    let is_whole = PREPARED.len() == 66 && torn == 0;
    check_all(&[
        (is_whole && has_lsns(&log, 0, 2, 2), "two records"),
        (shows_prepare(&log), "a prepare"),
        (glances_at_prepare(&log), "a prepare at a glance"),
    ])
}

/// Whether record 6 of a log is the first update of transaction 1.
fn shows_update(log: &Log) -> bool {
    match log.get(6) {
        Some(RecordView::Update { tx, prev, .. }) => tx == 1 && prev == 0,
        _ => false,
    }
}

/// Whether a log has an image at this LSN.
fn has_image(log: &Log, lsn: u64) -> bool {
    log.image(lsn).is_some()
}

#[test]
fn records_stand_behind_the_base_lsn(rt: HostRuntime) -> Result<(), Fail> {
    let (log, torn) = read_log(rt.alloc(), BASE_LOSER)?;
    let is_whole = BASE_LOSER.len() == 50 && torn == 0;
    let are_lacking = lacks(&log, 1) && lacks(&log, 5) && lacks(&log, 7);
    check_all(&[
        (is_whole && has_lsns(&log, 5, 1, 6), "one record"),
        (are_lacking, "LSNs 1, 5 and 7"),
        (shows_update(&log), "an update"),
        (!has_image(&log, 5) && has_image(&log, 6), "images"),
    ])
}

/// Whether these bytes are a log's header and nothing else, with this base LSN.
fn is_header(alloc: Global, bytes: &[u8], base: u64) -> Result<bool, Fault> {
    let (log, torn) = read_log(alloc, bytes)?;
    Ok(torn == 0 && has_lsns(&log, base, 0, base))
}

/// Whether these bytes have the error of a bad header.
fn is_bad_header(alloc: Global, bytes: &[u8]) -> bool {
    match read_log(alloc, bytes) {
        Ok(_) => false,
        Err(fault) => fault == Fault::BadLogHeader,
    }
}

#[test]
fn headers_of_version_2_have_16_bytes(rt: HostRuntime) -> Result<(), Fail> {
    let (header, _) = BASE_LOSER.split_at(16);
    let (short, _) = BASE_LOSER.split_at(15);
    check_all(&[
        (is_header(rt.alloc(), header, 5)?, "16 bytes"),
        (is_bad_header(rt.alloc(), short), "15 bytes"),
    ])
}

#[test]
fn tables_show_prepared_transactions(rt: HostRuntime) -> Result<(), Fail> {
    let (log, torn) = read_log(rt.alloc(), PREPARED_AT_CHECKPOINT)?;
    let prepared = Entry {
        state: State::Prepared,
        last: 2,
        undo_next: 1,
    };
    let is_shown = match log.get(4) {
        Some(RecordView::CheckpointEnd { transactions, .. }) => log.len() == 4
            && transactions.get(0) == Some((1, prepared))
            && transactions.get(1).is_none(),
        _ => false,
    };
    let is_whole = PREPARED_AT_CHECKPOINT.len() == 141 && torn == 0;
    check_all(&[(is_whole, "141 bytes"), (is_shown, "a checkpoint end")])
}

/// Whether the record of a log at this LSN is an update of an empty cell that holds this value.
fn lends(alloc: Global, lsn: u64, value: &[u8]) -> Result<bool, Fault> {
    let (log, _) = read_log(alloc, EMPTY_AND_FULL_VALUES)?;
    Ok(match log.get(lsn) {
        Some(
            RecordView::Update {
                before: None,
                after: Some(after),
                ..
            },
        ) => log.len() == 3 && after == value,
        _ => false,
    })
}

#[test]
fn values_are_slices_of_the_log(rt: HostRuntime) -> Result<(), Fail> {
    let alloc = rt.alloc();
    check_all(&[
        (lends(alloc, 1, &EMPTY_AND_FULL_VALUES[40..40])?, "empty"),
        (lends(alloc, 2, &EMPTY_AND_FULL_VALUES[72..120])?, "full"),
    ])
}

/// Whether these bytes are a log of this many records, with this many bytes of a torn tail.
fn is_torn(alloc: Global, bytes: &[u8], records: u64, torn_bytes: usize) -> Result<bool, Fault> {
    let (log, torn) = read_log(alloc, bytes)?;
    Ok(log.len() == records && torn == torn_bytes)
}

#[test]
fn drops_a_torn_tail(rt: HostRuntime) -> Result<(), Fail> {
    let alloc = rt.alloc();
    check_all(&[
        (is_torn(alloc, &ONE_COMMIT[..65], 1, 24)?, "a byte short"),
        (is_torn(alloc, b"ARIESLG1\0\0\0", 0, 3)?, "three bytes"),
        (is_torn(alloc, b"ARIESLG1\0\x01\x14\x19", 0, 4)?, "a length"),
        (is_torn(alloc, b"ARIESLG1", 0, 0)?, "nothing"),
    ])
}

#[test]
fn reads_the_largest_checkpoint(rt: HostRuntime) -> Result<(), Fail> {
    let text = largest_checkpoint(rt.alloc())?;
    let (log, _) = read_log(rt.alloc(), &text)?;
    let aborting = Entry {
        state: State::Aborting,
        last: 5,
        undo_next: 4,
    };
    let is_shown = match log.get(2) {
        Some(
            RecordView::CheckpointEnd {
                begin,
                transactions,
                dirty,
            },
        ) => begin == 1
            && transactions.len() == 1024
            && dirty.len() == 4096
            && transactions.get(1023) == Some((1024, aborting))
            && transactions.get(1024).is_none()
            && dirty.get(4095) == Some((4095, 3))
            && dirty.get(4096).is_none(),
        _ => false,
    };
    check(is_shown, "a checkpoint end")
}

#[test]
fn writes_the_largest_checkpoint(rt: HostRuntime) -> Result<(), Fail> {
    let text = largest_checkpoint(rt.alloc())?;
    check(text.len() == 70706, "70,706 bytes")?;
    check(is_rewritten(rt.alloc(), &text)?, "written")
}
