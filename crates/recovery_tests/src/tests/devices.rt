//! Recovery over devices that pass a few bytes a call, and fail.

mod calls;
mod in_place;

use aries::{CopiedLog, Options, hold_store, recover, recover_in_pieces};
use checks::{check, check_all};
use device::{Pace, SlowSink, SlowSource};
use page::{Fault, Page};
use redo::OpenGate;
use std::alloc::Global;
use std::test::Fail;
use std::thread::Threads;
use worked_rows::written::{
    Row, clr_points_past_zero, one_commit, one_loser, page_with, store_of, two_losers,
};

/// Two workers, three parts.
const OPTIONS: Options = Options {
    workers: 2,
    parts: 3,
};

/// The paces of the four devices of a recovery.
#[derive(Clone, Copy, Debug)]
struct Paces {
    log_source: Pace,
    store_source: Pace,
    log_sink: Pace,
    store_sink: Pace,
}

impl Paces {
    /// Four devices of this pace.
    fn all(pace: Pace) -> Paces {
        Paces {
            log_source: pace,
            store_source: pace,
            log_sink: pace,
            store_sink: pace,
        }
    }

    /// These devices, one of which has this pace.
    fn with(self, device: Device, pace: Pace) -> Paces {
        match device {
            Device::LogSource => Paces {
                log_source: pace,
                ..self
            },
            Device::StoreSource => Paces {
                store_source: pace,
                ..self
            },
            Device::LogSink => Paces {
                log_sink: pace,
                ..self
            },
            Device::StoreSink => Paces {
                store_sink: pace,
                ..self
            },
        }
    }
}

/// A device of a recovery.
#[derive(Clone, Copy, Debug)]
enum Device {
    LogSource,
    StoreSource,
    LogSink,
    StoreSink,
}

/// How a device fails.
#[derive(Clone, Copy)]
enum Failure {
    /// At this call, each of which passes this many bytes.
    Call(usize, u32),
    /// At each flush.
    Flush,
}

impl Failure {
    fn pace(self) -> Pace {
        match self {
            Failure::Call(step, call) => Pace::failing(step, call),
            Failure::Flush => Pace::unflushed(),
        }
    }
}

/// A recovery into new files.
#[derive(Clone, Copy)]
enum Way {
    /// It holds the log and the store in memory.
    Memory,
    /// It reads both in pieces.
    Copying,
    /// It reads the store into memory first, and then both in pieces.
    CopyingHeld,
}

const WAYS: [Way; 3] = [Way::Memory, Way::Copying, Way::CopyingHeld];

/// A row, the bytes of the store that it begins with, and of the store that comes of it.
#[derive(Drop)]
struct Worked {
    row: Row,
    before: Vec<u8>,
    after: Vec<u8>,
}

/// A row on an empty page, which must become this page.
fn on_empty_page(alloc: Global, row: Row, after: &Page) -> Result<Worked, Fault> {
    let after = store_of(alloc, 0, after)?;
    let before = store_of(alloc, 0, &Page::empty(0))?;
    Ok(Worked { row, before, after })
}

fn worked_one_loser(alloc: Global) -> Result<Worked, Fault> {
    on_empty_page(alloc, one_loser(alloc)?, &page_with(2, None, None))
}

fn worked_two_losers(alloc: Global) -> Result<Worked, Fault> {
    on_empty_page(alloc, two_losers(alloc)?, &page_with(7, None, None))
}

fn worked_one_commit(alloc: Global) -> Result<Worked, Fault> {
    let row = Row {
        given: one_commit(alloc, 0)?,
        made: one_commit(alloc, 0)?,
    };
    on_empty_page(alloc, row, &page_with(1, Some(b'a'), None))
}

/// The result of a recovery, and how many bytes its sinks have taken.
type Seen = (Result<(), Fault>, usize, usize);

/// The result of a recovery over devices of these paces.
fn recovered<R: Threads + Sync>(
    rt: &R,
    alloc: Global,
    way: Way,
    worked: &Worked,
    paces: &Paces,
    new_log: &mut CopiedLog<SlowSink>,
    out_store: &mut SlowSink,
) -> Result<(), Fault> {
    let log = &mut SlowSource::new(&worked.row.given.bytes, paces.log_source);
    let store = &mut SlowSource::new(&worked.before, paces.store_source);
    let answer = match way {
        Way::Memory => {
            let out_log = &mut new_log.sink;
            recover(
                rt, alloc, log, store, out_log, out_store, &OPTIONS, &OpenGate,
            )
        }
        Way::Copying => recover_in_pieces(rt, alloc, log, store, new_log, out_store, &OPTIONS),
        Way::CopyingHeld => hold_store(alloc, log, store).and_then(|mut held| {
            recover_in_pieces(rt, alloc, log, &mut held, new_log, out_store, &OPTIONS)
        }),
    };
    answer.map(|_| ())
}

/// The sinks must have taken prefixes of the row's new log and store. The log must be flushed
/// before any of the store is taken, and both must be flushed if the recovery succeeds.
fn check_order(
    worked: &Worked,
    is_answered: bool,
    log: &SlowSink,
    store: &SlowSink,
) -> Result<(), Fail> {
    let new_log = worked.row.made.bytes.as_slice();
    let new_store = worked.after.as_slice();
    let are_beginnings = new_log.starts_with(log.bytes()) && new_store.starts_with(store.bytes());
    let is_first = store.bytes().is_empty() || log.flushed() == new_log;
    let is_flushed = !is_answered || store.flushed() == new_store;
    check_all(&[
        (are_beginnings, "not a beginning"),
        (is_first, "the store before the log"),
        (is_flushed, "not flushed"),
    ])
}

/// Recovers a row over devices of these paces.
fn seen<R: Threads + Sync>(
    rt: &R,
    alloc: Global,
    way: Way,
    worked: &Worked,
    paces: &Paces,
) -> Result<Seen, Fail> {
    let sink = SlowSink::new(alloc, worked.row.made.bytes.len(), paces.log_sink)?;
    let mut new_log = CopiedLog { sink };
    let mut store = SlowSink::new(alloc, worked.after.len(), paces.store_sink)?;
    let answer = recovered(rt, alloc, way, worked, paces, &mut new_log, &mut store);
    let log = &new_log.sink;
    let seen = (answer, log.bytes().len(), store.bytes().len());
    check_order(worked, answer.is_ok(), log, &store)?;
    Ok(seen)
}

/// The name of a row, the device that fails, how, and what is seen of the recovery.
type Failed = (&'static str, Device, Failure, Seen);

/// Recovers a row over devices of which one fails, and the others pass all they can.
fn check_failures<R: Threads + Sync>(
    rt: &R,
    alloc: Global,
    way: Way,
    worked: &Worked,
    rows: &[Failed],
) -> Result<(), Fail> {
    let fast = Paces::all(Pace::of_step(usize::MAX));
    for (name, device, failure, expected) in rows {
        let paces = fast.with(*device, failure.pace());
        let seen = seen(rt, alloc, way, worked, &paces)?;
        check(seen == *expected, name)?;
    }
    Ok(())
}

const ONE_LOSER: [Failed; 5] = [
    (
        "log-sink-fails-at-40",
        Device::LogSink,
        Failure::Call(40, 2),
        (Err(Fault::WriteLog), 40, 0),
    ),
    (
        "log-flush-fails",
        Device::LogSink,
        Failure::Flush,
        (Err(Fault::WriteLog), 105, 0),
    ),
    (
        "store-sink-fails-at-24",
        Device::StoreSink,
        Failure::Call(24, 2),
        (Err(Fault::WriteStore), 105, 24),
    ),
    (
        "store-flush-fails",
        Device::StoreSink,
        Failure::Flush,
        (Err(Fault::WriteStore), 105, 1048),
    ),
    (
        "store-source-fails",
        Device::StoreSource,
        Failure::Call(1000, 2),
        (Err(Fault::ReadStore), 0, 0),
    ),
];

/// Recovers a row of one loser over slow devices, and over devices that fail.
fn check_one_loser<R: Threads + Sync>(
    rt: &R,
    alloc: Global,
    way: Way,
    row: &Worked,
) -> Result<(), Fail> {
    let slow = seen(rt, alloc, way, row, &Paces::all(Pace::of_step(1)))?;
    let sources_fail = Paces {
        log_sink: Pace::of_step(usize::MAX),
        store_sink: Pace::of_step(usize::MAX),
        ..Paces::all(Pace::failing(usize::MAX, 1))
    };
    let failed = seen(rt, alloc, way, row, &sources_fail)?;
    check(slow == (Ok(()), 105, 1048), "one-byte-a-call")?;
    check(failed == (Err(Fault::ReadLog), 0, 0), "both-sources-fail")?;
    check_failures(rt, alloc, way, row, &ONE_LOSER)
}

#[test]
fn one_loser_over_devices(rt: HostRuntime) -> Result<(), Fail> {
    let alloc = rt.alloc();
    let row = worked_one_loser(alloc)?;
    for way in WAYS {
        check_one_loser(&rt, alloc, way, &row)?;
    }
    Ok(())
}

const ONE_COMMIT: [Failed; 3] = [
    (
        "log-writer-fails",
        Device::LogSink,
        Failure::Call(usize::MAX, 1),
        (Err(Fault::WriteLog), 0, 0),
    ),
    (
        "log-flush-fails",
        Device::LogSink,
        Failure::Flush,
        (Err(Fault::WriteLog), 66, 0),
    ),
    (
        "store-writer-fails",
        Device::StoreSink,
        Failure::Call(usize::MAX, 1),
        (Err(Fault::WriteStore), 66, 0),
    ),
];

#[test]
fn one_commit_over_devices(rt: HostRuntime) -> Result<(), Fail> {
    let alloc = rt.alloc();
    let row = worked_one_commit(alloc)?;
    for way in WAYS {
        check_failures(&rt, alloc, way, &row, &ONE_COMMIT)?;
    }
    Ok(())
}

#[test]
fn writes_nothing_where_it_refuses(rt: HostRuntime) -> Result<(), Fail> {
    let alloc = rt.alloc();
    let row = Row {
        given: clr_points_past_zero(alloc)?,
        made: clr_points_past_zero(alloc)?,
    };
    let row = on_empty_page(alloc, row, &Page::empty(0))?;
    for way in WAYS {
        let refused = seen(
            &rt,
            alloc,
            way,
            &row,
            &Paces::all(Pace::of_step(usize::MAX)),
        )?;
        check(refused == (Err(Fault::BrokenChain(2)), 0, 0), "refused")?;
    }
    Ok(())
}
