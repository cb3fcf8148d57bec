//! Rows worked by hand: what undo appends if the records that it looks at were gathered from pieces
//! of the log.

use super::in_pieces::gathered_of;
use super::rollbacks::alone;
use super::with_appended;
use analysis::analyse;
use checks::check;
use page::{Fault, Page, encode_page};
use std::alloc::Global;
use std::test::Fail;
use tables::Tables;
use undo::{Gathered, Looked, Place, records_of, undo_in_brief};
use wal::{Record, read_log};
use worked_rows::written::{
    Row, checkpoint_loser, one_loser, page_with, partial_rollback_loser, rollback_interrupted,
    several_kinds_of_loser, two_losers, undo_of_missing_page,
};

/// The page that undo makes and what it appends, from what was gathered of a log.
#[derive(Drop)]
pub struct Rollback {
    pages: Vec<Page>,
    pub appended: Vec<Record>,
}

/// What undo makes of what was gathered, and of one page.
pub fn undone(
    alloc: Global,
    gathered: &Gathered,
    tables: &Tables,
    page: Page,
) -> Result<Rollback, Fault> {
    let looked = Looked {
        place: Place::Gathered(gathered),
    };
    let (pages, brief) = undo_in_brief(alloc, &looked, tables, alone(alloc, page)?)?;
    let appended = records_of(alloc, &looked, &brief)?;
    Ok(Rollback { pages, appended })
}

fn rolled_back(alloc: Global, bytes: &[u8], master: u64, page: Page) -> Result<Rollback, Fault> {
    let (log, _) = read_log(alloc, bytes)?;
    let tables = analyse(alloc, &log, master)?;
    let gathered = gathered_of(alloc, bytes, &log, &tables)?;
    undone(alloc, &gathered, &tables, page)
}

/// Whether undo makes the row's new log of what was gathered, and makes the page an empty one with
/// this PageLSN.
fn is_undone(alloc: Global, row: &Row, master: u64, before: Page, lsn: u64) -> Result<bool, Fault> {
    let rollback = rolled_back(alloc, &row.given.bytes, master, before)?;
    let log = with_appended(&row.given, &rollback.appended)?;
    let emptied = match rollback.pages.as_slice() {
        [page] => encode_page(page) == encode_page(&page_with(lsn, None, None)),
        _ => false,
    };
    Ok(emptied && log.as_slice() == row.made.bytes.as_slice())
}

#[test]
fn undoes_what_was_gathered(rt: HostRuntime) -> Result<(), Fail> {
    let alloc = rt.alloc();
    let row = one_loser(alloc)?;
    let page = page_with(1, Some(b'a'), None);
    check(is_undone(alloc, &row, 0, page, 2)?, "one-loser")?;
    let row = two_losers(alloc)?;
    let page = page_with(3, Some(b'c'), Some(b'b'));
    check(is_undone(alloc, &row, 0, page, 7)?, "two-losers")?;
    let row = checkpoint_loser(alloc)?;
    let page = page_with(1, Some(b'a'), None);
    check(is_undone(alloc, &row, 2, page, 4)?, "checkpoint-loser")
}

#[test]
fn undoes_a_gathered_rollback(rt: HostRuntime) -> Result<(), Fail> {
    let alloc = rt.alloc();
    let row = partial_rollback_loser(alloc)?;
    let page = page_with(4, Some(b'c'), None);
    check(
        is_undone(alloc, &row, 0, page, 6)?,
        "partial-rollback-loser",
    )?;
    let row = rollback_interrupted(alloc)?;
    let page = page_with(4, Some(b'a'), None);
    check(is_undone(alloc, &row, 0, page, 5)?, "rollback-interrupted")?;
    let row = several_kinds_of_loser(alloc)?;
    let page = page_with(4, None, Some(b'b'));
    check(
        is_undone(alloc, &row, 0, page, 8)?,
        "several-kinds-of-loser",
    )
}

/// The fault of what was gathered of a log on a page; `None` if it is undone.
fn refused(alloc: Global, bytes: &[u8]) -> Option<Fault> {
    match rolled_back(alloc, bytes, 0, page_with(1, Some(b'a'), None)) {
        Ok(_) => None,
        Err(fault) => Some(fault),
    }
}

#[test]
fn refuses_what_was_gathered(rt: HostRuntime) -> Result<(), Fail> {
    let alloc = rt.alloc();
    let text = undo_of_missing_page(alloc)?;
    let fault = refused(alloc, &text.bytes);
    check(fault == Some(Fault::NoSuchPage(1)), "undo-of-missing-page")
}
