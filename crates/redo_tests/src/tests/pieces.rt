//! Redo of logs that are read in pieces: the rows of redo, cut after each few records, with the
//! pages in memory or only their changes.

use analysis::analyse;
use changes::Pages;
use checks::check;
use page::{Fault, Page, Store, Value, decode_store};
use redo::{Redone, TallyScan, fetch_from};
use std::alloc::Global;
use std::test::Fail;
use wal::{Log, Record, based_header, read_log, write_frame};
use worked_rows::held::{Held, change_all, no_changes};
use worked_rows::ten_pages::{are_all_changed, ten_pages, ten_updates};
use worked_rows::written::{long_commit, one_loser, page_with, partial_rollback_commit};

/// The first frame of these, and the others.
fn split_frame(frames: &[u8]) -> Option<(&[u8], &[u8])> {
    let high = frames.get(2)?;
    let low = frames.get(3)?;
    let bytes = 4 + 256 * *high as usize + *low as usize;
    if bytes > frames.len() {
        return None;
    }
    Some(frames.split_at(bytes))
}

/// The pieces of a log of version 1, each of this many records after a header of its own.
fn cut(alloc: Global, log: &[u8], records: u64) -> Result<Vec<Vec<u8>>, Fault> {
    let mut pieces = Vec::new(alloc);
    let mut piece = Vec::from_slice(alloc, &based_header(0))?;
    let mut frames = log.get(8..).unwrap_or(&[]);
    for lsn in 1..100u64 {
        let Some((frame, others)) = split_frame(frames) else {
            break;
        };
        piece.extend_from_slice(frame)?;
        if lsn.checked_rem(records) == Some(0) {
            pieces.push(piece)?;
            piece = Vec::from_slice(alloc, &based_header(lsn))?;
        }
        frames = others;
    }
    pieces.push(piece)?;
    Ok(pieces)
}

/// Gives each record of the next piece to the scan. A piece that does not follow the others is a
/// bad one.
fn take_each(scan: &mut TallyScan, piece: &Log) -> Result<(), Fault> {
    for lsn in piece.base()..piece.last() {
        if scan.upto() > lsn {
            return Err(Fault::BadLogHeader);
        }
        scan.take(lsn, piece.glance_after(lsn))?;
    }
    Ok(())
}

/// Fetches from a piece the images that are wanted after the first `taken`. Returns how many there
/// are then.
fn fetch<P: Pages>(
    alloc: Global,
    scan: &TallyScan,
    piece: &Log,
    taken: usize,
    pages: &mut P,
) -> Result<usize, Fault> {
    let wanted = scan.wanted(alloc)?;
    if scan.pages() != pages.len() || taken > wanted.len() {
        return Err(Fault::BadParting);
    }
    let more = fetch_from(piece, &wanted[taken..], pages)?;
    Ok(taken + more)
}

/// Sets the PageLSNs of the pages.
fn finish<P: Pages>(scan: TallyScan, pages: &mut P) -> Result<(), Fault> {
    if scan.pages() != pages.len() {
        return Err(Fault::BadParting);
    }
    scan.finish(pages);
    Ok(())
}

/// The tallies of the pages at the end of a log, which is read in these pieces.
fn tallied<P: Pages>(
    alloc: Global,
    log: &[u8],
    master: u64,
    pieces: &[Vec<u8>],
    pages: &P,
) -> Result<TallyScan, Fault> {
    let (whole, _) = read_log(alloc, log)?;
    let tables = analyse(alloc, &whole, master)?;
    let mut scan = TallyScan::begin(alloc, pages, &tables, 0)?;
    for piece in pieces {
        let (piece, _) = read_log(alloc, piece)?;
        take_each(&mut scan, &piece)?;
    }
    Ok(scan)
}

/// The tallies of the pages after one piece, by tables that list each page from its first record on.
fn tallied_alone<P: Pages>(alloc: Global, piece: &Log, pages: &P) -> Result<TallyScan, Fault> {
    let base = piece.base();
    let mut scan = TallyScan::begin_listed(alloc, pages, base.saturating_add(1), base)?;
    take_each(&mut scan, piece)?;
    Ok(scan)
}

/// Joins a scan with that of the piece after it.
fn join(scan: &mut TallyScan, later: &TallyScan) -> Result<(), Fault> {
    if scan.pages() != later.pages() || scan.upto() > later.base() {
        return Err(Fault::BadParting);
    }
    scan.join(later)
}

/// The tallies of the pages at the end of a log without a checkpoint. Each of these pieces is tallied
/// by itself, and then joined with those before it.
fn joined<P: Pages>(alloc: Global, pieces: &[Vec<u8>], pages: &P) -> Result<TallyScan, Fault> {
    let mut scan = TallyScan::begin_listed(alloc, pages, 1, 0)?;
    for piece in pieces {
        let (piece, _) = read_log(alloc, piece)?;
        let later = tallied_alone(alloc, &piece, pages)?;
        join(&mut scan, &later)?;
    }
    Ok(scan)
}

/// Redo of pages by a log that is read twice in pieces of this many records: once for the tallies,
/// and once for the images. Without a checkpoint the tallies are those of all pieces, joined. Returns
/// how many records were applied.
fn redo_on<P: Pages>(
    alloc: Global,
    log: &[u8],
    master: u64,
    pages: &mut P,
    records: u64,
) -> Result<u64, Fault> {
    let pieces = cut(alloc, log, records)?;
    let mut scan = tallied(alloc, log, master, &pieces, pages)?;
    let applied = scan.applied();
    if master == 0 {
        scan = joined(alloc, &pieces, pages)?;
    }
    if scan.applied() != applied {
        return Err(Fault::BadParting);
    }
    let mut taken = 0;
    for piece in &pieces {
        let (piece, _) = read_log(alloc, piece)?;
        taken = fetch(alloc, &scan, &piece, taken, pages)?;
    }
    finish(scan, pages)?;
    Ok(applied)
}

/// What redo in pieces of this many records makes of a store.
fn redone(
    alloc: Global,
    log: &[u8],
    store: Store,
    records: u64,
    held: Held,
) -> Result<Redone, Fault> {
    let master = store.master;
    let mut pages = store.pages;
    let applied = match held {
        Held::Pages => redo_on(alloc, log, master, &mut pages, records)?,
        Held::Changes => {
            let mut changes = no_changes(alloc, &pages)?;
            let applied = redo_on(alloc, log, master, &mut changes, records)?;
            change_all(&changes, &mut pages);
            applied
        }
    };
    Ok(Redone { pages, applied })
}

/// What is reported of a page: how many records were applied, its PageLSN, the letter in slot 0.
fn told(
    alloc: Global,
    log: &[u8],
    page: Page,
    records: u64,
    held: Held,
) -> Result<(u64, u64, u8), Fault> {
    let mut pages = Vec::new(alloc);
    pages.push(Page { number: 0, ..page })?;
    let answer = redone(alloc, log, Store { master: 0, pages }, records, held)?;
    let Some(page) = answer.pages.first() else {
        return Ok((answer.applied, 0, 0));
    };
    let letter = match page.slots[0] {
        Some(value) => value.as_slice().first().copied().unwrap_or(0),
        None => 0,
    };
    Ok((answer.applied, page.lsn, letter))
}

/// What redo in pieces of this many records makes of a page that has the first record.
fn told_flushed(
    alloc: Global,
    log: &[u8],
    records: u64,
    held: Held,
) -> Result<(u64, u64, u8), Fault> {
    told(alloc, log, page_with(1, Some(b'a'), None), records, held)
}

/// Whether redo in pieces of this many records makes of a page what it should.
fn is_page_redone(alloc: Global, records: u64, held: Held) -> Result<bool, Fault> {
    let rolled_back = partial_rollback_commit(alloc)?;
    let long = long_commit(alloc, 5)?;
    let loser = one_loser(alloc)?;
    let first = told(alloc, &rolled_back.bytes, Page::empty(0), records, held)?;
    let second = told(alloc, &long.bytes, Page::empty(0), records, held)?;
    let third = told_flushed(alloc, &loser.given.bytes, records, held)?;
    Ok(first == (3, 3, b'a') && second == (5, 5, b'a') && third == (0, 1, b'a'))
}

#[test]
fn a_page_is_redone_in_pieces(rt: HostRuntime) -> Result<(), Fail> {
    let alloc = rt.alloc();
    for records in 1..8 {
        check(is_page_redone(alloc, records, Held::Pages)?, "a page")?;
        check(is_page_redone(alloc, records, Held::Changes)?, "changes")?;
    }
    Ok(())
}

/// Whether redo in pieces of this many records changes all of the ten pages.
fn are_ten_redone(alloc: Global, records: u64, held: Held) -> Result<bool, Fault> {
    let store = decode_store(alloc, &ten_pages(alloc)?)?;
    let answer = redone(alloc, &ten_updates(alloc)?, store, records, held)?;
    Ok(answer.applied == 10 && are_all_changed(&answer.pages))
}

#[test]
fn ten_pages_are_redone_in_pieces(rt: HostRuntime) -> Result<(), Fail> {
    let alloc = rt.alloc();
    for records in 1..13 {
        check(are_ten_redone(alloc, records, Held::Pages)?, "ten pages")?;
        check(are_ten_redone(alloc, records, Held::Changes)?, "changes")?;
    }
    Ok(())
}

/// The log of updates on pages 0, 3, 1 and 5.
fn updates_on_four_pages(alloc: Global) -> Result<Vec<u8>, Fault> {
    let mut log = Vec::from_slice(alloc, b"ARIESLG1")?;
    for (prev, page) in [(0, 0), (1, 3), (2, 1), (3, 5)] {
        let logged = Record::Update {
            tx: 1,
            prev,
            page,
            slot: 0,
            before: None,
            after: Value::new(b"a"),
        };
        write_frame(&logged, prev + 1, &mut log)?;
    }
    Ok(log)
}

/// The fault of redo of an empty page in pieces of this many records.
fn refusal(alloc: Global, log: &[u8], records: u64, held: Held) -> Option<Fault> {
    told(alloc, log, Page::empty(0), records, held).err()
}

#[test]
fn the_first_missing_page_is_named(rt: HostRuntime) -> Result<(), Fail> {
    let alloc = rt.alloc();
    let log = updates_on_four_pages(alloc)?;
    for records in 1..6 {
        let refused = refusal(alloc, &log, records, Held::Pages);
        check(refused == Some(Fault::NoSuchPage(2)), "page 3 of 1")?;
        let refused = refusal(alloc, &log, records, Held::Changes);
        check(refused == Some(Fault::NoSuchPage(2)), "changes of page 3")?;
    }
    Ok(())
}
