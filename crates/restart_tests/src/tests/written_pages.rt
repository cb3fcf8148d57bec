//! Rows worked by hand: restarts that append nothing, restarts on pages that were written before
//! the crash, and restarts that are interrupted and begun again.

use super::both_ways::{
    Expected, GOOD, Manner, Numbers, by_pieces, is_restarted_on, outcome_of, refused, rolled_back,
};
use checks::check;
use page::{Fault, Page, Value, decode_store};
use std::alloc::Global;
use std::test::Fail;
use std::thread::Threads;
use wal::Record;
use worked_rows::held::Held;
use worked_rows::ten_pages::{are_all_changed, ten_pages, ten_updates};
use worked_rows::written::{
    Row, Text, checkpoint_loser, clr_points_past_zero, one_commit, one_loser, page_with,
    partial_rollback_commit, two_losers,
};

/// A row whose log a restart leaves as it is.
fn unchanged(given: Text) -> Result<Row, Fault> {
    let made = given.copied()?;
    Ok(Row { given, made })
}

/// The row `checkpoint-commit`. The master is 2.
fn checkpoint_commit(alloc: Global) -> Result<Text, Fault> {
    let mut text = checkpoint_loser(alloc)?.given;
    text.commit(1, 1)?;
    Ok(text)
}

/// Appends the records of the row `finished-rollback-commit`: transaction 1 was rolled back, and
/// transaction 2 has committed.
fn put_rollback_and_commit(text: &mut Text) -> Result<(), Fault> {
    text.update(1, 0, 0, None, Some(b'x'))?;
    text.abort(1, 1)?;
    text.clr(1, 2, 0, 0, None)?;
    text.end(1, 3)?;
    text.update(2, 0, 0, None, Some(b'y'))?;
    text.commit(2, 5)
}

/// The row `finished-rollback-commit`.
fn finished_rollback_commit(alloc: Global) -> Result<Text, Fault> {
    let mut text = Text::new(alloc)?;
    put_rollback_and_commit(&mut text)?;
    Ok(text)
}

/// The shortest value in slot 0, and the longest in slot 1.
fn shortest_and_longest() -> [Option<Value>; 2] {
    [Value::new(b""), Value::new(&[b'z'; 48])]
}

/// The row `empty-and-full-values`.
fn empty_and_full_values(alloc: Global) -> Result<Text, Fault> {
    let [shortest, longest] = shortest_and_longest();
    let mut text = Text::new(alloc)?;
    for (prev, slot, after) in [(0, 0, shortest), (1, 1, longest)] {
        text.put(&Record::Update {
            tx: 1,
            prev,
            page: 0,
            slot,
            before: None,
            after,
        })?;
    }
    text.commit(1, 2)?;
    Ok(text)
}

/// The page of that row after a restart.
fn page_of_both() -> Page {
    let [shortest, longest] = shortest_and_longest();
    let mut page = Page::empty(0);
    page.set(0, shortest, 1);
    page.set(1, longest, 2);
    page
}

/// What a restart must make of a row without losers: this page.
fn finished(page: Page, redo_from: u64, redone: u64) -> Expected<'static> {
    Expected {
        page,
        numbers: Numbers {
            redo_from,
            redone,
            losers: 0,
            compensated: 0,
            ended: 0,
        },
        in_doubt: &[],
    }
}

/// Fails if a restart of the row with this name on this page does not make what is expected.
fn check_restart_on<R: Threads + Sync>(
    rt: &R,
    alloc: Global,
    name: &str,
    row: Row,
    master: u64,
    page: &Page,
    expected: &Expected,
) -> Result<(), Fail> {
    let is_right = is_restarted_on(rt, alloc, &row, master, page, expected)?;
    check(is_right, name)
}

/// Fails if a restart of the row with this name on an empty page changes the log, or does not make
/// what is expected.
fn check_left<R: Threads + Sync>(
    rt: &R,
    alloc: Global,
    name: &str,
    text: Text,
    master: u64,
    expected: &Expected,
) -> Result<(), Fail> {
    check_restart_on(
        rt,
        alloc,
        name,
        unchanged(text)?,
        master,
        &Page::empty(0),
        expected,
    )
}

#[test]
fn appends_nothing_without_losers(rt: HostRuntime) -> Result<(), Fail> {
    let alloc = rt.alloc();
    let expected = finished(Page::empty(0), 0, 0);
    check_left(&rt, alloc, "empty-log", Text::new(alloc)?, 0, &expected)?;
    let expected = finished(page_with(1, Some(b'a'), None), 1, 1);
    check_left(
        &rt,
        alloc,
        "one-commit",
        one_commit(alloc, 0)?,
        0,
        &expected,
    )?;
    let text = checkpoint_commit(alloc)?;
    check_left(&rt, alloc, "checkpoint-commit", text, 2, &expected)
}

#[test]
fn appends_nothing_after_a_rollback(rt: HostRuntime) -> Result<(), Fail> {
    let alloc = rt.alloc();
    let expected = finished(page_with(3, Some(b'a'), None), 1, 3);
    let text = partial_rollback_commit(alloc)?;
    check_left(&rt, alloc, "partial-rollback-commit", text, 0, &expected)?;
    let expected = finished(page_with(5, Some(b'y'), None), 1, 3);
    let text = finished_rollback_commit(alloc)?;
    check_left(&rt, alloc, "finished-rollback-commit", text, 0, &expected)
}

#[test]
fn redoes_the_shortest_and_the_longest_value(rt: HostRuntime) -> Result<(), Fail> {
    let alloc = rt.alloc();
    let expected = finished(page_of_both(), 1, 2);
    let text = empty_and_full_values(alloc)?;
    check_left(&rt, alloc, "empty-and-full-values", text, 0, &expected)
}

#[test]
fn redoes_nothing_on_a_page_that_was_written(rt: HostRuntime) -> Result<(), Fail> {
    let alloc = rt.alloc();
    let page = page_with(1, Some(b'a'), None);
    let expected = rolled_back(2, [0, 1, 1, 1]);
    let row = one_loser(alloc)?;
    check_restart_on(&rt, alloc, "loser-flushed", row, 0, &page, &expected)
}

#[test]
fn redoes_nothing_on_a_page_written_before_a_checkpoint(rt: HostRuntime) -> Result<(), Fail> {
    let alloc = rt.alloc();
    let page = page_with(1, Some(b'a'), None);
    let expected = rolled_back(4, [0, 1, 1, 1]);
    let row = checkpoint_loser(alloc)?;
    check_restart_on(
        &rt,
        alloc,
        "checkpoint-loser-flushed",
        row,
        2,
        &page,
        &expected,
    )
}

#[test]
fn restarts_on_its_own_result(rt: HostRuntime) -> Result<(), Fail> {
    let alloc = rt.alloc();
    let row = unchanged(one_loser(alloc)?.made)?;
    let page = page_with(2, None, None);
    let expected = finished(page, 1, 0);
    check_restart_on(&rt, alloc, "restarted-result", row, 0, &page, &expected)
}

/// What an interrupted restart was to make: the new log, and the page at each PageLSN that it can
/// have, the last one at the end.
#[derive(Clone, Copy)]
struct Crash<'a> {
    made: &'a Text,
    master: u64,
    images: &'a [Page],
}

/// A prefix of a new log: how many records it has, its bytes, and the losers, CLRs and ends of the
/// restart that continues from it.
struct Cut {
    records: u64,
    bytes: usize,
    numbers: [u64; 3],
}

/// The prefixes of the new log of `two-losers`.
const OF_TWO_LOSERS: [Cut; 6] = [
    Cut {
        records: 3,
        bytes: 108,
        numbers: [2, 3, 2],
    },
    Cut {
        records: 4,
        bytes: 148,
        numbers: [2, 2, 2],
    },
    Cut {
        records: 5,
        bytes: 187,
        numbers: [2, 1, 2],
    },
    Cut {
        records: 6,
        bytes: 212,
        numbers: [1, 1, 1],
    },
    Cut {
        records: 7,
        bytes: 251,
        numbers: [1, 0, 1],
    },
    Cut {
        records: 8,
        bytes: 276,
        numbers: [0, 0, 0],
    },
];

/// The prefixes of the new log of `checkpoint-loser`.
const OF_CHECKPOINT_LOSER: [Cut; 3] = [
    Cut {
        records: 3,
        bytes: 116,
        numbers: [1, 1, 1],
    },
    Cut {
        records: 4,
        bytes: 155,
        numbers: [1, 0, 1],
    },
    Cut {
        records: 5,
        bytes: 180,
        numbers: [0, 0, 0],
    },
];

/// How many records change the page between this PageLSN and the end of a log of this many records.
fn redone_of(images: &[Page], records: u64, lsn: u64) -> u64 {
    let mut count = 0_u64;
    for image in images {
        if lsn < image.lsn && image.lsn <= records {
            count = count.saturating_add(1);
        }
    }
    count
}

/// The new log, cut, and what a restart must make of it again.
fn cut_row(alloc: Global, made: &Text, cut: &Cut) -> Result<Row, Fault> {
    let end = cut.bytes.min(made.bytes.len());
    let given = Text {
        bytes: Vec::from_slice(alloc, &made.bytes[..end])?,
        lsn: cut.records,
    };
    Ok(Row {
        given,
        made: made.copied()?,
    })
}

/// Whether a restart on a cut log makes the whole one of it, over each image that the page can
/// have.
fn is_completed<R: Threads + Sync>(
    rt: &R,
    alloc: Global,
    crash: &Crash,
    cut: &Cut,
) -> Result<bool, Fault> {
    let row = cut_row(alloc, crash.made, cut)?;
    let last = crash.images.last().map_or(0, |page| page.lsn);
    let [losers, compensated, ended] = cut.numbers;
    for image in crash.images {
        let redone = redone_of(crash.images, cut.records, image.lsn);
        let expected = rolled_back(last, [redone, losers, compensated, ended]);
        let can_be = image.lsn <= cut.records;
        if can_be && !is_restarted_on(rt, alloc, &row, crash.master, image, &expected)? {
            return Ok(false);
        }
    }
    Ok(true)
}

/// Whether that is so for each of these prefixes.
fn are_completed<R: Threads + Sync>(
    rt: &R,
    alloc: Global,
    crash: &Crash,
    cuts: &[Cut],
) -> Result<bool, Fault> {
    for cut in cuts {
        if !is_completed(rt, alloc, crash, cut)? {
            return Ok(false);
        }
    }
    Ok(true)
}

#[test]
fn goes_on_with_two_losers(rt: HostRuntime) -> Result<(), Fail> {
    let alloc = rt.alloc();
    let row = two_losers(alloc)?;
    let images = [
        Page::empty(0),
        page_with(1, Some(b'a'), None),
        page_with(2, Some(b'a'), Some(b'b')),
        page_with(3, Some(b'c'), Some(b'b')),
        page_with(4, Some(b'a'), Some(b'b')),
        page_with(5, Some(b'a'), None),
        page_with(7, None, None),
    ];
    let crash = Crash {
        made: &row.made,
        master: 0,
        images: &images,
    };
    let is_right = are_completed(&rt, alloc, &crash, &OF_TWO_LOSERS)?;
    check(is_right, "cuts-of-two-losers")
}

#[test]
fn goes_on_with_checkpoint_loser(rt: HostRuntime) -> Result<(), Fail> {
    let alloc = rt.alloc();
    let row = checkpoint_loser(alloc)?;
    let images = [
        Page::empty(0),
        page_with(1, Some(b'a'), None),
        page_with(4, None, None),
    ];
    let crash = Crash {
        made: &row.made,
        master: 2,
        images: &images,
    };
    let is_right = are_completed(&rt, alloc, &crash, &OF_CHECKPOINT_LOSER)?;
    check(is_right, "cuts-of-checkpoint-loser")
}

/// Whether a restart of `ten-pages` changes each page once and appends nothing.
fn are_ten_restarted(redone: u64, appended: &[Record], pages: &[Page]) -> bool {
    redone == 10 && appended.is_empty() && are_all_changed(pages)
}

/// Whether a restart of `ten-pages` in pieces does so.
fn are_ten_restarted_by_pieces<R: Threads + Sync>(
    rt: &R,
    alloc: Global,
    held: Held,
) -> Result<bool, Fault> {
    let log = ten_updates(alloc)?;
    let store = decode_store(alloc, &ten_pages(alloc)?)?;
    let (pages, made) = by_pieces(rt, alloc, &log, store, held)?;
    Ok(are_ten_restarted(made.numbers.redone, &made.appended, &pages))
}

#[test]
fn restarts_ten_pages(rt: HostRuntime) -> Result<(), Fail> {
    let alloc = rt.alloc();
    let log = ten_updates(alloc)?;
    let store = decode_store(alloc, &ten_pages(alloc)?)?;
    for workers in [1, 2, 64] {
        let manner = Manner { pages: 10, workers };
        let outcome = outcome_of(&rt, alloc, &log, &store, manner)?;
        let pages = &outcome.store.pages;
        let is_right = are_ten_restarted(outcome.redone, &outcome.appended, pages);
        check(is_right, "ten-pages")?;
    }
    let is_right = are_ten_restarted_by_pieces(&rt, alloc, Held::Pages)?;
    check(is_right, "ten-pages in pieces")?;
    let is_right = are_ten_restarted_by_pieces(&rt, alloc, Held::Changes)?;
    check(is_right, "the changes of ten-pages")
}

#[test]
fn refuses_rows_by_their_faults(rt: HostRuntime) -> Result<(), Fail> {
    let alloc = rt.alloc();
    let text = clr_points_past_zero(alloc)?;
    let refusal = refused(&rt, alloc, &text, 0, 0, GOOD);
    check(
        refusal == Some(Fault::BrokenChain(2)),
        "clr-points-past-zero",
    )?;
    let text = one_commit(alloc, 1)?;
    let refusal = refused(&rt, alloc, &text, 0, 0, GOOD);
    check(refusal == Some(Fault::NoSuchPage(1)), "no-such-page")
}
