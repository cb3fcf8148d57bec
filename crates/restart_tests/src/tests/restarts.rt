//! Rows worked by hand, restarted on values: what is appended, the pages, the numbers, the master,
//! and the fault that comes first.

use super::both_ways::{Expected, GOOD, Manner, Numbers, is_restarted, refused, rolled_back};
use checks::check;
use page::Fault;
use std::alloc::Global;
use std::test::Fail;
use std::thread::Threads;
use worked_rows::written::{
    Row, Text, checkpoint_loser, one_commit, one_loser, page_with, partial_rollback_loser,
    prepared, prepared_abort, prepared_beside_loser, prepared_commit, prepared_idle,
    prepared_in_checkpoint, rollback_interrupted, several_kinds_of_loser, two_losers,
    undo_of_missing_page,
};

/// Fails if a restart of the row with this name on an empty page does not roll back all its
/// transactions: what it appends, the PageLSN, and how many records are redone, losers, CLRs and
/// ends there are.
fn check_rollback<R: Threads + Sync>(
    rt: &R,
    alloc: Global,
    name: &str,
    row: Row,
    master: u64,
    lsn: u64,
    numbers: [u64; 4],
) -> Result<(), Fail> {
    let is_right = is_restarted(rt, alloc, &row, master, &rolled_back(lsn, numbers))?;
    check(is_right, name)
}

/// Losers that have updates, and one that a checkpoint lists.
#[test]
fn rolls_back_losers(rt: HostRuntime) -> Result<(), Fail> {
    let alloc = rt.alloc();
    let row = one_loser(alloc)?;
    check_rollback(&rt, alloc, "one-loser", row, 0, 2, [1, 1, 1, 1])?;
    let row = two_losers(alloc)?;
    check_rollback(&rt, alloc, "two-losers", row, 0, 7, [3, 2, 3, 2])?;
    let row = checkpoint_loser(alloc)?;
    check_rollback(&rt, alloc, "checkpoint-loser", row, 2, 4, [1, 1, 1, 1])
}

/// Losers that were rolled back in part.
#[test]
fn rolls_back_what_a_rollback_left(rt: HostRuntime) -> Result<(), Fail> {
    let alloc = rt.alloc();
    let row = partial_rollback_loser(alloc)?;
    check_rollback(
        &rt,
        alloc,
        "partial-rollback-loser",
        row,
        0,
        6,
        [4, 1, 2, 1],
    )?;
    let row = rollback_interrupted(alloc)?;
    check_rollback(&rt, alloc, "rollback-interrupted", row, 0, 5, [3, 1, 1, 1])?;
    let row = several_kinds_of_loser(alloc)?;
    check_rollback(
        &rt,
        alloc,
        "several-kinds-of-loser",
        row,
        0,
        8,
        [3, 3, 1, 3],
    )
}

/// What losers did is undone in the same log as transactions in doubt, which are listed in
/// ascending order of number.
#[test]
fn rolls_back_losers_beside_those_in_doubt(rt: HostRuntime) -> Result<(), Fail> {
    let alloc = rt.alloc();
    let one = Numbers {
        redo_from: 1,
        redone: 1,
        losers: 1,
        compensated: 1,
        ended: 1,
    };
    let alone = Expected {
        page: page_with(4, None, None),
        numbers: one,
        in_doubt: &[],
    };
    let row = prepared_abort(alloc)?;
    check(is_restarted(&rt, alloc, &row, 0, &alone)?, "prepared-abort")?;
    let beside = Expected {
        page: page_with(4, Some(b'a'), None),
        numbers: Numbers { redone: 2, ..one },
        in_doubt: &[1],
    };
    let row = prepared_beside_loser(alloc)?;
    check(
        is_restarted(&rt, alloc, &row, 0, &beside)?,
        "prepared-beside-loser",
    )
}

/// A loser that did nothing.
#[test]
fn ends_an_idle_loser_beside_those_in_doubt(rt: HostRuntime) -> Result<(), Fail> {
    let alloc = rt.alloc();
    let idle = Expected {
        page: page_with(0, None, None),
        numbers: Numbers {
            redo_from: 0,
            redone: 0,
            losers: 1,
            compensated: 0,
            ended: 1,
        },
        in_doubt: &[3, 7],
    };
    let row = prepared_idle(alloc)?;
    check(is_restarted(&rt, alloc, &row, 0, &idle)?, "prepared-idle")
}

/// One update with a bad hop, and a prepare.
fn broken_in_doubt(alloc: Global) -> Result<Text, Fault> {
    let mut text = Text::new(alloc)?;
    text.update(1, 9, 0, None, Some(b'a'))?;
    text.prepare(1, 1)?;
    Ok(text)
}

/// One update on a page that does not exist, and a prepare. The master is 2.
fn missing_in_doubt(alloc: Global) -> Result<Text, Fault> {
    let mut text = undo_of_missing_page(alloc)?;
    text.prepare(1, 1)?;
    Ok(text)
}

/// A commit, followed by a prepare.
fn prepared_after_commit(alloc: Global) -> Result<Text, Fault> {
    let mut text = one_commit(alloc, 0)?;
    text.prepare(1, 2)?;
    Ok(text)
}

/// A prepare, followed by an end.
fn ended_in_doubt(alloc: Global) -> Result<Text, Fault> {
    let mut text = prepared(alloc)?;
    text.end(1, 2)?;
    Ok(text)
}

/// Whether a restart appends nothing to a log, reports this many records redone, the first of them
/// at LSN 1, no loser and these transactions in doubt, and makes a page that has "a" if one was
/// redone.
fn leaves<R: Threads + Sync>(
    rt: &R,
    alloc: Global,
    text: &Text,
    master: u64,
    redone: u64,
    in_doubt: &[u32],
) -> Result<bool, Fault> {
    let letter = if redone == 1 { Some(b'a') } else { None };
    let expected = Expected {
        page: page_with(redone, letter, None),
        numbers: Numbers {
            redo_from: redone,
            redone,
            losers: 0,
            compensated: 0,
            ended: 0,
        },
        in_doubt,
    };
    let row = Row {
        given: text.copied()?,
        made: text.copied()?,
    };
    is_restarted(rt, alloc, &row, master, &expected)
}

/// For transactions in doubt nothing is undone, and nothing is looked at.
#[test]
fn leaves_those_in_doubt(rt: HostRuntime) -> Result<(), Fail> {
    let alloc = rt.alloc();
    let text = prepared(alloc)?;
    check(leaves(&rt, alloc, &text, 0, 1, &[1])?, "prepared")?;
    let text = prepared_commit(alloc)?;
    check(leaves(&rt, alloc, &text, 0, 1, &[])?, "prepared-commit")?;
    let text = prepared_in_checkpoint(alloc)?;
    check(leaves(&rt, alloc, &text, 2, 1, &[1])?, "in a checkpoint")?;
    let text = broken_in_doubt(alloc)?;
    check(leaves(&rt, alloc, &text, 0, 1, &[1])?, "a bad hop")?;
    let text = missing_in_doubt(alloc)?;
    check(leaves(&rt, alloc, &text, 2, 0, &[1])?, "no such page")
}

/// On logs that no law allows, the tables determine which transactions are in doubt.
#[test]
fn leaves_those_that_the_tables_have_in_doubt(rt: HostRuntime) -> Result<(), Fail> {
    let alloc = rt.alloc();
    let text = prepared_after_commit(alloc)?;
    check(leaves(&rt, alloc, &text, 0, 1, &[1])?, "behind a commit")?;
    let text = ended_in_doubt(alloc)?;
    check(leaves(&rt, alloc, &text, 0, 1, &[])?, "behind an end")
}

/// An abort after a prepare makes its transaction a loser.
#[test]
fn rolls_back_what_turned_back(rt: HostRuntime) -> Result<(), Fail> {
    let alloc = rt.alloc();
    let mut text = broken_in_doubt(alloc)?;
    text.abort(1, 2)?;
    let refusal = refused(&rt, alloc, &text, 0, 0, GOOD);
    check(refusal == Some(Fault::BrokenChain(9)), "a bad hop")?;
    let mut text = missing_in_doubt(alloc)?;
    text.abort(1, 4)?;
    let refusal = refused(&rt, alloc, &text, 2, 0, GOOD);
    check(refusal == Some(Fault::NoSuchPage(1)), "no such page")
}

/// Each fault comes before the next ones, whose causes are there too.
#[test]
fn refuses_in_order(rt: HostRuntime) -> Result<(), Fail> {
    let alloc = rt.alloc();
    let mut text = Text::new(alloc)?;
    text.clr(2, 0, 5, 0, None)?;
    text.first_update(1)?;
    for (name, workers, pages, lsn, master, fault) in [
        ("no worker", 0, 2, 9, 7, Fault::BadWorkers),
        ("65 workers", 65, 2, 9, 7, Fault::BadWorkers),
        ("2 pages", 64, 2, 9, 7, Fault::BadParting),
        ("PageLSN 9", 1, 1, 9, 7, Fault::PageAheadOfLog(0)),
        ("master 7", 1, 1, 0, 7, Fault::BadMaster),
        ("page 1", 1, 1, 0, 0, Fault::NoSuchPage(2)),
    ] {
        let manner = Manner { pages, workers };
        let refusal = refused(&rt, alloc, &text, master, lsn, manner);
        check(refusal == Some(fault), name)?;
    }
    Ok(())
}

/// An update of page 0, followed by one of a page that a store of one page lacks.
fn missing_behind(alloc: Global) -> Result<Text, Fault> {
    let mut text = Text::new(alloc)?;
    text.update(1, 0, 0, None, Some(b'a'))?;
    text.first_update(1)?;
    Ok(text)
}

/// The same after a checkpoint that lists page 0 as dirty from past the log's end on. The master is
/// 1.
fn missing_behind_checkpoint(alloc: Global) -> Result<Text, Fault> {
    let mut text = Text::new(alloc)?;
    text.checkpoint(alloc, (1, 1, 1), &[(0, 9)])?;
    text.update(1, 0, 0, None, Some(b'a'))?;
    text.first_update(1)?;
    Ok(text)
}

/// A page that the store lacks is found even if each page of the store is listed before it, with
/// any number of workers.
#[test]
fn refuses_a_page_behind_all(rt: HostRuntime) -> Result<(), Fail> {
    let alloc = rt.alloc();
    let listed = missing_behind(alloc)?;
    let late = missing_behind_checkpoint(alloc)?;
    for workers in [1, 2, 4] {
        let manner = Manner { pages: 1, workers };
        let refusal = refused(&rt, alloc, &listed, 0, 0, manner);
        check(refusal == Some(Fault::NoSuchPage(2)), "page 1")?;
        let refusal = refused(&rt, alloc, &late, 1, 0, manner);
        check(
            refusal == Some(Fault::NoSuchPage(4)),
            "page 0 from LSN 9 on",
        )?;
    }
    Ok(())
}
