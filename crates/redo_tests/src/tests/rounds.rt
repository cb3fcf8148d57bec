//! Worked rows of redo.

use analysis::analyse;
use checks::check;
use page::{Fault, Page, Store, Value, decode_store};
use redo::{Gate, OpenGate, Parting, Redone, redo};
use std::alloc::Global;
use std::test::Fail;
use std::thread::Threads;
use wal::{Record, read_log};
use worked_rows::ten_pages::{HeldGate, are_all_changed, ten_pages, ten_updates};
use worked_rows::written::{
    Letter, Text, checkpoint_loser, one_commit, one_loser, page_with, partial_rollback_commit,
};

/// Redo by the tables that analysis finds.
fn redone<R: Threads + Sync, G: Gate>(
    rt: &R,
    alloc: Global,
    log: &[u8],
    store: &Store,
    parting: &Parting,
    workers: u32,
    gate: &G,
) -> Result<Redone, Fault> {
    let (log, _) = read_log(alloc, log)?;
    let tables = analyse(alloc, &log, store.master)?;
    if parting.pages() as usize != store.pages.len() {
        return Err(Fault::BadParting);
    }
    redo(rt, alloc, &log, store, &tables, parting, workers, gate)
}

/// What redo makes of a store of one page: how many records it applied, and the page.
#[derive(Clone, Copy)]
struct Image {
    applied: u64,
    page: Page,
}

/// Redo of a store of only this page.
fn image_of<R: Threads + Sync>(
    rt: &R,
    alloc: Global,
    text: &Text,
    master: u64,
    before: Page,
    workers: u32,
) -> Result<Image, Fault> {
    let mut pages = Vec::new(alloc);
    pages.push(Page {
        number: 0,
        ..before
    })?;
    let store = Store { master, pages };
    let parting = Parting::by_number(alloc, 1, 1)?;
    let answer = redone(rt, alloc, &text.bytes, &store, &parting, workers, &OpenGate)?;
    let page = match answer.pages.first() {
        Some(page) => *page,
        None => Page::empty(0),
    };
    Ok(Image {
        applied: answer.applied,
        page,
    })
}

/// Whether a slot of a page holds this letter, or nothing.
fn holds(page: &Page, slot: usize, letter: Letter) -> bool {
    match (page.slots.get(slot), letter) {
        (Some(Some(held)), Some(letter)) => held.as_slice() == [letter].as_slice(),
        (Some(None), None) => true,
        _ => false,
    }
}

/// Whether a partition by these entries is rejected.
fn is_bad(alloc: Global, pages: u32, parts: u32, entries: &[u32]) -> bool {
    Parting::new(alloc, pages, parts, entries).err() == Some(Fault::BadParting)
}

/// Whether a partition by number is rejected.
fn is_bad_by_number(alloc: Global, pages: u32, parts: u32) -> bool {
    Parting::by_number(alloc, pages, parts).err() == Some(Fault::BadParting)
}

/// Whether a partition of 4,097 pages is rejected.
fn are_too_many_pages(alloc: Global) -> Result<bool, Fault> {
    let entries = vec![in alloc; 0u32; 4097]?;
    Ok(is_bad(alloc, 4097, 1, &entries))
}

/// Whether a partition returns its numbers of pages and parts.
fn is_told(alloc: Global) -> Result<bool, Fault> {
    let parting = Parting::new(alloc, 2, 2, &[1, 0])?;
    Ok(parting.pages() == 2 && parting.parts() == 2)
}

#[test]
fn partings_are_checked(rt: HostRuntime) -> Result<(), Fail> {
    let alloc = rt.alloc();
    check(is_bad(alloc, 2, 2, &[0]), "one entry for two pages")?;
    check(is_bad(alloc, 2, 2, &[0, 2]), "an entry of 2 in two parts")?;
    check(is_bad(alloc, 0, 1, &[]), "no page")?;
    check(is_bad(alloc, 1, 4097, &[0]), "too many parts")?;
    check(are_too_many_pages(alloc)?, "too many pages")?;
    check(is_told(alloc)?, "two pages in two parts")
}

#[test]
fn partings_by_number_are_checked(rt: HostRuntime) -> Result<(), Fail> {
    for (name, pages, parts) in [
        ("no page", 0, 1),
        ("no part", 1, 0),
        ("too many pages", 4097, 1),
        ("too many parts", 1, 4097),
    ] {
        check(is_bad_by_number(rt.alloc(), pages, parts), name)?;
    }
    Ok(())
}

/// Updates on pages 0, 3, 1 and 5.
fn updates_on_four_pages(alloc: Global) -> Result<Text, Fault> {
    let mut text = Text::new(alloc)?;
    for (prev, page) in [(0, 0), (1, 3), (2, 1), (3, 5)] {
        text.put(&Record::Update {
            tx: 1,
            prev,
            page,
            slot: 0,
            before: None,
            after: None,
        })?;
    }
    Ok(text)
}

/// The fault of redo on an empty page.
fn refused<R: Threads + Sync>(rt: &R, alloc: Global, text: &Text, workers: u32) -> Option<Fault> {
    match image_of(rt, alloc, text, 0, Page::empty(0), workers) {
        Ok(_) => None,
        Err(fault) => Some(fault),
    }
}

#[test]
fn workers_come_before_pages(rt: HostRuntime) -> Result<(), Fail> {
    let alloc = rt.alloc();
    let text = updates_on_four_pages(alloc)?;
    for (name, workers, fault) in [
        ("no worker", 0, Fault::BadWorkers),
        ("65 workers", 65, Fault::BadWorkers),
        ("1 worker", 1, Fault::NoSuchPage(2)),
        ("2 workers", 2, Fault::NoSuchPage(2)),
        ("3 workers", 3, Fault::NoSuchPage(2)),
        ("64 workers", 64, Fault::NoSuchPage(2)),
    ] {
        let refusal = refused(&rt, alloc, &text, workers);
        check(refusal == Some(fault), name)?;
    }
    Ok(())
}

/// Whether redo leaves a page as it is that has the log's first record.
fn is_left<R: Threads + Sync>(
    rt: &R,
    alloc: Global,
    text: &Text,
    master: u64,
) -> Result<bool, Fault> {
    let flushed = page_with(1, Some(b'a'), None);
    let image = image_of(rt, alloc, text, master, flushed, 2)?;
    Ok(image.applied == 0 && image.page.lsn == 1 && holds(&image.page, 0, Some(b'a')))
}

#[test]
fn what_an_image_has_is_not_applied(rt: HostRuntime) -> Result<(), Fail> {
    let alloc = rt.alloc();
    let row = one_loser(alloc)?;
    check(is_left(&rt, alloc, &row.given, 0)?, "one loser")?;
    let row = checkpoint_loser(alloc)?;
    check(is_left(&rt, alloc, &row.given, 2)?, "a checkpoint")
}

#[test]
fn what_an_image_lacks_is_applied(rt: HostRuntime) -> Result<(), Fail> {
    let alloc = rt.alloc();
    let mut foreign = Page::empty(0);
    foreign.set(5, Value::new(b"q"), 0);
    let image = image_of(&rt, alloc, &one_commit(alloc, 0)?, 0, foreign, 2)?;
    check(image.applied == 1 && image.page.lsn == 1, "one record")?;
    check(holds(&image.page, 0, Some(b'a')), "slot 0 after 1 record")?;
    check(holds(&image.page, 5, Some(b'q')), "slot 5 after 1 record")?;
    let empty = Page::empty(0);
    let image = image_of(&rt, alloc, &partial_rollback_commit(alloc)?, 0, empty, 2)?;
    check(image.applied == 3 && image.page.lsn == 3, "three records")?;
    check(holds(&image.page, 0, Some(b'a')), "slot 0 after 3 records")?;
    check(holds(&image.page, 5, None), "slot 5 after 3 records")
}

/// Whether redo in this many parts changes all of the ten pages.
fn are_ten_redone<R: Threads + Sync, G: Gate>(
    rt: &R,
    alloc: Global,
    parts: u32,
    workers: u32,
    gate: &G,
) -> Result<bool, Fault> {
    let log = ten_updates(alloc)?;
    let store = decode_store(alloc, &ten_pages(alloc)?)?;
    let parting = Parting::by_number(alloc, 10, parts)?;
    let answer = redone(rt, alloc, &log, &store, &parting, workers, gate)?;
    Ok(answer.applied == 10 && are_all_changed(&answer.pages))
}

#[test]
fn any_workers_and_parting_give_the_same(rt: HostRuntime) -> Result<(), Fail> {
    let alloc = rt.alloc();
    for (name, workers, parts) in [
        ("1 worker, 1 part", 1, 1),
        ("1 worker, 10 parts", 1, 10),
        ("1 worker, 4096 parts", 1, 4096),
        ("2 workers, 1 part", 2, 1),
        ("2 workers, 10 parts", 2, 10),
        ("2 workers, 4096 parts", 2, 4096),
        ("64 workers, 1 part", 64, 1),
        ("64 workers, 10 parts", 64, 10),
        ("64 workers, 4096 parts", 64, 4096),
    ] {
        let is_same = are_ten_redone(&rt, alloc, parts, workers, &OpenGate)?;
        check(is_same, name)?;
    }
    Ok(())
}

/// Whether each number is among the others.
fn are_among(numbers: &[u64], others: &[u64]) -> bool {
    for number in numbers {
        if !others.contains(number) {
            return false;
        }
    }
    true
}

#[test]
fn the_gate_hears_who_draws_what(rt: HostRuntime) -> Result<(), Fail> {
    let alloc = rt.alloc();
    let gate = HeldGate::new(alloc, 4)?;
    check(are_ten_redone(&rt, alloc, 10, 4, &gate)?, "pages")?;
    check(gate.late() == 0, "somebody was held too long")?;
    check(gate.entered() == 10, "parts entered")?;
    let told = gate.all_told();
    let (first, others) = told.split_at(4);
    check(are_among(&[0, 102, 205, 307], first), "first parts")?;
    check(
        others == [103, 104, 106, 108, 109, 101].as_slice(),
        "others",
    )
}
