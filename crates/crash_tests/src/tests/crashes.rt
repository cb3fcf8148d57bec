//! Random crashes of an engine over a journal. It lives up to three times.

use super::disk::{Disk, Files, image_in};
use super::engine::Engine;
use super::model::{Model, lasting_cells, page_of};
use audit::audit;
use checks::{check, check_all};
use journal::Journal;
use journal_recovery::recover_crashed;
use page::{Fault, PAGE_BYTES, STORE_HEADER_BYTES, decode_store, encode_page};
use recovery::Report;
use seeded::Random;
use std::alloc::Global;
use std::test::Fail;
use wal::read_log;

/// How often an engine is crashed and recovered.
const LIVES: u32 = 3;

/// Where the slots are in the image of a page. Before them are its number and its PageLSN.
const SLOTS_AT: usize = 16;

/// How many engines a test has. Take fewer for `rt try --test`, whose program is slow.
const ENGINES: u64 = 834;

/// How often something was seen.
#[derive(Clone, Copy)]
struct Seen {
    crashes: u32,
    torn_tails: u32,
    masters: u32,
    losers: u32,
    in_doubt: u32,
    redone: u32,
    killed: u32,
}

/// Counts one if this is so.
fn note(number: &mut u32, is_so: bool) {
    if is_so {
        *number = number.saturating_add(1);
    }
}

/// What a recovery made.
#[derive(Drop)]
struct Recovered {
    files: Files,
    /// How many bytes of the old log are kept.
    kept: usize,
    report: Report,
}

/// Recovers a log and a store.
fn recover(alloc: Global, files: &Files) -> Result<Recovered, Fault> {
    let store = Vec::from_slice(alloc, &files.store)?;
    let made = recover_crashed(alloc, &files.log, store)?;
    let mut log = Vec::from_slice(alloc, made.kept)?;
    let kept = log.len();
    log.extend_from_slice(&made.frames)?;
    Ok(Recovered {
        files: Files {
            log,
            store: made.store,
        },
        kept,
        report: made.report,
    })
}

/// Whether a log and a store are lawful. Returns the LSN of the last record.
fn last_of_lawful(alloc: Global, files: &Files) -> Result<u64, Fault> {
    let (log, _) = read_log(alloc, &files.log)?;
    let store = decode_store(alloc, &files.store)?;
    audit(alloc, &log, &store)?;
    Ok(log.last())
}

/// Whether the pages of a store have these values in their cells.
fn has_cells(store: &[u8], count: u32, cells: &[u16]) -> bool {
    for number in 0..count {
        let expected = encode_page(&page_of(number, cells));
        let Some(image) = image_in(store, number) else {
            return false;
        };
        if image[SLOTS_AT..] != expected[SLOTS_AT..] {
            return false;
        }
    }
    true
}

/// Whether just these transactions are unfinished in a model.
fn are_unfinished(model: &Model, in_doubt: &[u32]) -> bool {
    for tx in in_doubt {
        if model.state(*tx).is_none() {
            return false;
        }
    }
    model.workers.len() == in_doubt.len()
}

/// So many bytes from the beginning, or all.
fn front_of(bytes: &[u8], length: usize) -> &[u8] {
    &bytes[..length.min(bytes.len())]
}

/// The bytes after these.
fn rest_of(bytes: &[u8], length: usize) -> &[u8] {
    &bytes[length.min(bytes.len())..]
}

/// What a kill leaves while the result of a recovery is put in place: a part of what was appended to
/// the log, or all of it and some new pages.
fn killed(
    alloc: Global,
    old: &Files,
    new: &Recovered,
    count: u32,
    random: &mut Random,
) -> Result<Files, Fault> {
    let appended = new.files.log.len().saturating_sub(new.kept);
    let length = new
        .kept
        .saturating_add(random.place(appended.saturating_add(1)));
    let log = Vec::from_slice(alloc, front_of(&new.files.log, length))?;
    let pages = if length == new.files.log.len() {
        random.below(count)
    } else {
        0
    };
    let first = STORE_HEADER_BYTES + PAGE_BYTES * pages as usize;
    let mut store = Vec::from_slice(alloc, front_of(&new.files.store, first))?;
    store.extend_from_slice(rest_of(&old.store, first))?;
    Ok(Files { log, store })
}

/// A recovery that is killed and run again has the same result.
fn check_killed(
    alloc: Global,
    old: &Files,
    new: &Recovered,
    count: u32,
    random: &mut Random,
) -> Result<(), Fail> {
    let left = killed(alloc, old, new, count, random)?;
    last_of_lawful(alloc, &left)?;
    let again = recover(alloc, &left)?;
    check(
        again.files.log == new.files.log && again.files.store == new.files.store,
        "a recovery that was killed",
    )
}

/// A recovery has made what the model says: as many records, these in doubt, and these values. The log
/// that the crash left has records up to `last`.
fn check_recovered(
    alloc: Global,
    engine: &Engine,
    last: u64,
    model: &Model,
    made: &Recovered,
) -> Result<(), Fail> {
    let left = engine
        .model
        .events
        .get(..(last & 0xffff) as usize)
        .unwrap_or(&[]);
    let cells = lasting_cells(alloc, left, model.cells.len())?;
    let new_last = last_of_lawful(alloc, &made.files)?;
    check_all(&[
        (
            new_last == model.last_lsn(),
            "a CLR for each update, and an end",
        ),
        (are_unfinished(model, &made.report.in_doubt), "in doubt"),
        (model.cells == cells, "the model agrees with itself"),
        (
            has_cells(&made.files.store, engine.count, &cells),
            "the values",
        ),
    ])
}

/// The engine continues on what a recovery left.
fn reopen(alloc: Global, engine: &mut Engine, files: &Files, model: Model) -> Result<(), Fail> {
    let (log, _) = read_log(alloc, &files.log)?;
    let store = decode_store(alloc, &files.store)?;
    let journal = Journal::open(alloc, &log, &store)?;
    let disk = Disk::of(alloc, files, engine.count, store.master)?;
    engine.restart(journal, disk, model);
    Ok(())
}

/// An engine crashes. What is left is lawful. A recovery makes what the committed transactions and
/// those in doubt did, and the engine continues.
fn survive(
    alloc: Global,
    engine: &mut Engine,
    random: &mut Random,
    seen: &mut Seen,
) -> Result<(), Fail> {
    let left = engine.disk.crash(alloc, engine.count, random)?;
    let last = last_of_lawful(alloc, &left)?;
    check(last >= engine.forced, "all that was forced is left")?;
    let mut model = engine.model.cut(alloc, last)?;
    model.roll_back_losers()?;
    let made = recover(alloc, &left)?;
    check_recovered(alloc, engine, last, &model, &made)?;
    if random.once_in(4) {
        check_killed(alloc, &left, &made, engine.count, random)?;
        note(&mut seen.killed, true);
    }
    reopen(alloc, engine, &made.files, model)?;
    note(&mut seen.crashes, true);
    note(&mut seen.torn_tails, made.report.torn > 0);
    note(&mut seen.masters, engine.disk.master > 0);
    note(&mut seen.losers, made.report.losers > 0);
    note(&mut seen.in_doubt, !made.report.in_doubt.is_empty());
    note(&mut seen.redone, made.report.redone > 0);
    Ok(())
}

/// An engine works, and crashes.
fn live(
    alloc: Global,
    engine: &mut Engine,
    random: &mut Random,
    seen: &mut Seen,
) -> Result<(), Fail> {
    let steps = random.below(41).saturating_add(20);
    for _ in 0..steps {
        engine.step(random)?;
    }
    survive(alloc, engine, random, seen)
}

/// The lives of an engine.
fn run(alloc: Global, seed: u64, seen: &mut Seen) -> Result<(), Fail> {
    let mut random = Random::new(seed);
    let count = random.below(5).saturating_add(4);
    let mut engine = Engine::new(alloc, count)?;
    for _ in 0..LIVES {
        live(alloc, &mut engine, &mut random, seen)?;
    }
    Ok(())
}

/// The lives of many engines. Each kind of crash has to be among them often.
fn run_all(alloc: Global, first: u64) -> Result<(), Fail> {
    let mut seen = Seen {
        crashes: 0,
        torn_tails: 0,
        masters: 0,
        losers: 0,
        in_doubt: 0,
        redone: 0,
        killed: 0,
    };
    for number in 0..ENGINES {
        run(alloc, first.wrapping_add(number), &mut seen)?;
    }
    let some = seen.crashes / 10;
    check_all(&[
        (seen.torn_tails > some, "torn tails"),
        (seen.masters > some, "masters"),
        (seen.losers > some, "losers"),
        (seen.in_doubt > some, "transactions in doubt"),
        (seen.redone > some, "redone changes"),
        (seen.killed > some, "recoveries that were killed"),
    ])
}

#[test]
fn survives_2500_crashes(rt: HostRuntime) -> Result<(), Fail> {
    run_all(rt.alloc(), 0)
}

#[test]
fn survives_5000_crashes(rt: HostRuntime) -> Result<(), Fail> {
    run_all(rt.alloc(), ENGINES)
}

#[test]
fn survives_7500_crashes(rt: HostRuntime) -> Result<(), Fail> {
    run_all(rt.alloc(), 2 * ENGINES)
}

#[test]
fn survives_10000_crashes(rt: HostRuntime) -> Result<(), Fail> {
    run_all(rt.alloc(), 3 * ENGINES)
}
