//! Rows worked by hand: what undo appends to a log and makes of its page.

ghost use Rattle.std.specs.Prelude.{IfOk};
ghost use Rattle.page.specs.Store.{AreNumbered};

use super::with_appended;
use analysis::analyse;
use changes::Changes;
use checks::check;
use page::{Fault, Page, encode_page};
use std::alloc::Global;
use std::test::Fail;
use tables::Tables;
use undo::{Looked, Place, records_of, undo, undo_on};
use wal::{Log, Record, read_log};
use worked_rows::held::{Held, change_all, no_changes};
use worked_rows::written::{
    Row, Text, checkpoint_loser, one_loser, page_with, partial_rollback_loser,
    rollback_interrupted, several_kinds_of_loser, two_losers,
};

pub fn alone(alloc: Global, page: Page) -> Result<Vec<Page>, Fault>
    ensures { IfOk result (λ pages. AreNumbered pages.items) }
{
    let mut pages = Vec::new(alloc);
    pages.push(Page { number: 0, ..page })?;
    Ok(pages)
}

/// What undo makes of a page, and what it appends.
#[derive(Drop)]
struct Rollback {
    pages: Vec<Page>,
    appended: Vec<Record>,
}

/// What undo makes of a page and appends, by these tables.
fn undone(alloc: Global, log: &Log, tables: &Tables, page: Page) -> Result<Rollback, Fault> {
    let (pages, appended) = undo(alloc, log, tables, alone(alloc, page)?)?;
    Ok(Rollback { pages, appended })
}

/// What undo appends by these tables, on these changes.
fn appended_on(
    alloc: Global,
    log: &Log,
    tables: &Tables,
    changes: &mut Changes,
) -> Result<Vec<Record>, Fault> {
    let looked = Looked {
        place: Place::Log(log),
    };
    let appended = undo_on(alloc, &looked, tables, changes)?;
    records_of(alloc, &looked, &appended)
}

/// [`undone`] by way of changes, which are made to the page at the end.
fn undone_on_changes(
    alloc: Global,
    log: &Log,
    tables: &Tables,
    page: Page,
) -> Result<Rollback, Fault> {
    let mut pages = alone(alloc, page)?;
    let mut changes = no_changes(alloc, &pages)?;
    let appended = appended_on(alloc, log, tables, &mut changes)?;
    change_all(&changes, &mut pages);
    Ok(Rollback { pages, appended })
}

/// What undo makes of a page and appends, by the tables that analysis finds.
fn rolled_back(
    alloc: Global,
    log: &[u8],
    master: u64,
    page: Page,
    held: Held,
) -> Result<Rollback, Fault> {
    let (log, _) = read_log(alloc, log)?;
    let tables = analyse(alloc, &log, master)?;
    match held {
        Held::Pages => undone(alloc, &log, &tables, page),
        Held::Changes => undone_on_changes(alloc, &log, &tables, page),
    }
}

/// Whether there is one page, and it is empty except for this PageLSN.
fn is_emptied(pages: &[Page], lsn: u64) -> bool {
    match pages {
        [page] => encode_page(page) == encode_page(&page_with(lsn, None, None)),
        _ => false,
    }
}

/// Whether a rollback made the row's new log, and an empty page with this PageLSN.
fn is_made(row: &Row, rollback: &Rollback, lsn: u64) -> Result<bool, Fault> {
    let log = with_appended(&row.given, &rollback.appended)?;
    Ok(is_emptied(&rollback.pages, lsn) && log.as_slice() == row.made.bytes.as_slice())
}

/// Whether undo of the row's log, with this master and page, makes the row's new log, and makes the
/// page an empty one with this PageLSN; and the same by way of changes.
fn is_undone(alloc: Global, row: &Row, master: u64, before: Page, lsn: u64) -> Result<bool, Fault> {
    for held in [Held::Pages, Held::Changes] {
        let rollback = rolled_back(alloc, &row.given.bytes, master, before, held)?;
        if !is_made(row, &rollback, lsn)? {
            return Ok(false);
        }
    }
    Ok(true)
}

#[test]
fn undoes_losers(rt: HostRuntime) -> Result<(), Fail> {
    let alloc = rt.alloc();
    let row = one_loser(alloc)?;
    let page = page_with(1, Some(b'a'), None);
    check(is_undone(alloc, &row, 0, page, 2)?, "one-loser")?;
    let row = two_losers(alloc)?;
    let page = page_with(3, Some(b'c'), Some(b'b'));
    check(is_undone(alloc, &row, 0, page, 7)?, "two-losers")?;
    let row = checkpoint_loser(alloc)?;
    let page = page_with(1, Some(b'a'), None);
    check(is_undone(alloc, &row, 2, page, 4)?, "checkpoint-loser")
}

#[test]
fn undoes_what_a_rollback_left(rt: HostRuntime) -> Result<(), Fail> {
    let alloc = rt.alloc();
    let row = partial_rollback_loser(alloc)?;
    let page = page_with(4, Some(b'c'), None);
    check(
        is_undone(alloc, &row, 0, page, 6)?,
        "partial-rollback-loser",
    )?;
    let row = rollback_interrupted(alloc)?;
    let page = page_with(4, Some(b'a'), None);
    check(is_undone(alloc, &row, 0, page, 5)?, "rollback-interrupted")?;
    let row = several_kinds_of_loser(alloc)?;
    let page = page_with(4, None, Some(b'b'));
    check(
        is_undone(alloc, &row, 0, page, 8)?,
        "several-kinds-of-loser",
    )
}

/// The fault of a log on a page.
fn refused(alloc: Global, text: &Text) -> Option<Fault> {
    let page = page_with(1, Some(b'a'), None);
    match rolled_back(alloc, &text.bytes, 0, page, Held::Pages) {
        Ok(_) => None,
        Err(fault) => Some(fault),
    }
}

/// Appends an update of transaction `tx` on a page that the tests do not give.
fn missing(text: &mut Text, tx: u32, prev: u64) -> Result<(), Fault> {
    text.put(&Record::Update {
        tx,
        prev,
        page: 7,
        slot: 0,
        before: None,
        after: None,
    })
}

/// An update's page comes before the walk from that update.
fn page_before_hop(alloc: Global) -> Result<Text, Fault> {
    let mut text = Text::new(alloc)?;
    missing(&mut text, 1, 9)?;
    Ok(text)
}

/// The walk continues from the newest update before the older one is looked at.
fn hop_before_older_page(alloc: Global) -> Result<Text, Fault> {
    let mut text = Text::new(alloc)?;
    missing(&mut text, 1, 0)?;
    text.update(2, 9, 0, None, None)?;
    Ok(text)
}

/// The newest update comes first, its page too.
fn newest_page_first(alloc: Global) -> Result<Text, Fault> {
    let mut text = Text::new(alloc)?;
    text.update(1, 9, 0, None, None)?;
    missing(&mut text, 2, 0)?;
    Ok(text)
}

/// All losers begin their walks before an update is looked at: a CLR sends transaction 3 to an LSN
/// with no record.
fn sent_before_page(alloc: Global) -> Result<Text, Fault> {
    let mut text = Text::new(alloc)?;
    text.clr(3, 0, 9, 0, None)?;
    missing(&mut text, 1, 0)?;
    Ok(text)
}

/// If several losers are sent to an LSN with no record, the one with the smallest number comes
/// first, wherever its records are.
fn smallest_number_first(alloc: Global) -> Result<Text, Fault> {
    let mut text = Text::new(alloc)?;
    text.clr(3, 0, 9, 0, None)?;
    text.clr(2, 0, 8, 0, None)?;
    text.clr(4, 0, 7, 0, None)?;
    Ok(text)
}

/// Bad hops and missing pages in one log: the first that is met is returned.
#[test]
fn first_fault_met(rt: HostRuntime) -> Result<(), Fail> {
    let alloc = rt.alloc();
    let fault = refused(alloc, &page_before_hop(alloc)?);
    check(fault == Some(Fault::NoSuchPage(1)), "page before hop")?;
    let fault = refused(alloc, &hop_before_older_page(alloc)?);
    check(
        fault == Some(Fault::BrokenChain(9)),
        "hop before older page",
    )?;
    let fault = refused(alloc, &newest_page_first(alloc)?);
    check(fault == Some(Fault::NoSuchPage(2)), "newest page first")?;
    let fault = refused(alloc, &sent_before_page(alloc)?);
    check(fault == Some(Fault::BrokenChain(9)), "sent before page")?;
    let fault = refused(alloc, &smallest_number_first(alloc)?);
    check(
        fault == Some(Fault::BrokenChain(8)),
        "smallest number first",
    )
}

/// One update by each of 10,000 transactions, in turn.
fn update_in_turn(text: &mut Text) -> Result<(), Fault> {
    for tx in 1..10_001u32 {
        let prev = text.lsn.saturating_sub(9_999);
        text.update(tx, prev, 0, None, None)?;
    }
    Ok(())
}

/// The begin records of 900,000 checkpoints.
fn begin_checkpoints(text: &mut Text) -> Result<(), Fault> {
    for _ in 0..900_000 {
        text.put(&Record::CheckpointBegin)?;
    }
    Ok(())
}

/// A million records, among them 10,000 losers with 10 pending updates each, in turn.
#[test]
fn undoes_many_losers(rt: HostRuntime) -> Result<(), Fail> {
    let mut text = Text::new(rt.alloc())?;
    for _ in 0..10 {
        update_in_turn(&mut text)?;
    }
    begin_checkpoints(&mut text)?;
    let page = page_with(100_000, None, None);
    let rollback = rolled_back(rt.alloc(), &text.bytes, 0, page, Held::Pages)?;
    check(rollback.appended.len() == 110_000, "appended")
}
