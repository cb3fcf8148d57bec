//! A device that fails at each of its calls in turn, and recoveries of what a failed one left.

use super::{
    Device, OPTIONS, Paces, Seen, WAYS, Way, Worked, recovered, seen, worked_one_loser,
    worked_two_losers,
};
use crate::in_memory::recover_in_memory;
use aries::CopiedLog;
use checks::{check, check_at};
use device::{Pace, SlowSink};
use page::Fault;
use redo::OpenGate;
use std::alloc::Global;
use std::test::Fail;
use std::thread::Threads;

impl Device {
    /// Whether this is what is seen of a recovery, to a log and a store of these sizes, in which
    /// this device failed.
    fn is_blamed(self, seen: &Seen, log: usize, store: usize) -> bool {
        match (self, seen) {
            (Device::LogSource, (Err(Fault::ReadLog), 0, 0)) => true,
            (Device::StoreSource, (Err(Fault::ReadStore), 0, 0)) => true,
            (Device::LogSink, (Err(Fault::WriteLog), taken, 0)) => *taken <= log,
            (Device::StoreSink, (Err(Fault::WriteStore), whole, taken)) => *whole == log
                && *taken <= store,
            _ => false,
        }
    }
}

/// How many calls of this device, of seven bytes each, fail before one at which the recovery in
/// memory succeeds. The fault of each of them must name the device.
fn failing_calls<R: Threads + Sync>(
    rt: &R,
    alloc: Global,
    worked: &Worked,
    device: Device,
) -> Result<u32, Fail> {
    let log = worked.row.made.bytes.len();
    let slow = Paces::all(Pace::of_step(7));
    for call in 1..1000u32 {
        let paces = slow.with(device, Pace::failing(7, call));
        let seen = seen(rt, alloc, Way::Memory, worked, &paces)?;
        if seen == (Ok(()), log, 1048) {
            return Ok(call - 1);
        }
        check(device.is_blamed(&seen, log, 1048), "another answer")?;
    }
    Err(Fail::new("no end"))
}

/// The devices of a recovery, and how many calls of each there are.
type Calls = [(&'static str, Device, u32); 4];

const ONE_LOSER_CALLS: Calls = [
    ("LogSource", Device::LogSource, 7),
    ("StoreSource", Device::StoreSource, 152),
    ("LogSink", Device::LogSink, 17),
    ("StoreSink", Device::StoreSink, 152),
];

const TWO_LOSERS_CALLS: Calls = [
    ("LogSource", Device::LogSource, 17),
    ("StoreSource", Device::StoreSource, 152),
    ("LogSink", Device::LogSink, 41),
    ("StoreSink", Device::StoreSink, 152),
];

fn check_calls<R: Threads + Sync>(
    rt: &R,
    alloc: Global,
    worked: &Worked,
    rows: &Calls,
) -> Result<(), Fail> {
    for (name, device, calls) in rows {
        let failing = failing_calls(rt, alloc, worked, *device)?;
        check(failing == *calls, name)?;
    }
    Ok(())
}

/// A source is called once more at its end. A sink is called once more to be flushed; the log's
/// gets its new records in a separate call. The header of a store is read and written by itself.
#[test]
fn each_device_fails_at_each_call(rt: HostRuntime) -> Result<(), Fail> {
    let alloc = rt.alloc();
    check_calls(&rt, alloc, &worked_one_loser(alloc)?, &ONE_LOSER_CALLS)?;
    check_calls(&rt, alloc, &worked_two_losers(alloc)?, &TWO_LOSERS_CALLS)
}

/// What a recovery leaves of the new log if its sink fails at this call, of seven bytes each.
fn log_left_at<R: Threads + Sync>(
    rt: &R,
    alloc: Global,
    way: Way,
    worked: &Worked,
    call: u32,
) -> Result<Vec<u8>, Fail> {
    let sink = SlowSink::new(alloc, worked.row.made.bytes.len(), Pace::failing(7, call))?;
    let mut new_log = CopiedLog { sink };
    let mut store = SlowSink::new(alloc, worked.after.len(), Pace::of_step(7))?;
    let fast = Paces::all(Pace::of_step(usize::MAX));
    let answer = recovered(rt, alloc, way, worked, &fast, &mut new_log, &mut store);
    check(answer == Err(Fault::WriteLog), "another answer")?;
    Ok(Vec::from_slice(alloc, new_log.sink.bytes())?)
}

/// Whether a recovery of this log, on the store that the row begins with, makes the row's.
fn is_gone_on_from<R: Threads + Sync>(
    rt: &R,
    alloc: Global,
    worked: &Worked,
    log: &[u8],
) -> Result<bool, Fault> {
    let (new_log, new_store, _) = recover_in_memory(
        rt,
        alloc,
        log,
        &worked.before,
        &OPTIONS,
        &OpenGate,
    )?;
    Ok(new_log == worked.row.made.bytes && new_store == worked.after)
}

/// A recovery of what is left of the new log makes the row's, at each call at which the sink fails
/// after all that was read: that takes 16 calls, the records appended take 24, then comes the flush.
fn check_gone_on<R: Threads + Sync>(
    rt: &R,
    alloc: Global,
    way: Way,
    row: &Worked,
) -> Result<(), Fail> {
    for call in 17..42u32 {
        let log = log_left_at(rt, alloc, way, row, call)?;
        let is_whole = log.len() >= row.row.given.bytes.len();
        let is_gone_on_from = is_gone_on_from(rt, alloc, row, &log)?;
        check_at(call as usize, is_whole, "all that was read, at call")?;
        check_at(call as usize, is_gone_on_from, "gone on from call")?;
    }
    Ok(())
}

#[test]
fn a_failed_recovery_is_gone_on_from(rt: HostRuntime) -> Result<(), Fail> {
    let alloc = rt.alloc();
    let row = worked_two_losers(alloc)?;
    for way in WAYS {
        check_gone_on(&rt, alloc, way, &row)?;
    }
    Ok(())
}

/// The fault of a recovery from a store of 67 pieces, if its device fails at a call. One call reads
/// the header, 67 the pieces, and one finds the end.
fn check_refused<R: Threads + Sync>(
    rt: &R,
    alloc: Global,
    way: Way,
    long: &Worked,
    refused: Fault,
) -> Result<(), Fail> {
    let fast = Paces::all(Pace::of_step(usize::MAX));
    for (call, fault) in [(2, Fault::ReadStore), (69, Fault::ReadStore), (70, refused)] {
        let paces = fast.with(Device::StoreSource, Pace::failing(usize::MAX, call));
        let seen = seen(rt, alloc, way, long, &paces)?;
        check_at(
            call as usize,
            seen == (Err(fault), 0, 0),
            "a failure at call",
        )?;
    }
    Ok(())
}

/// A store whose bytes have an error is read to its end too: a failure of each of these calls is
/// reported.
#[test]
fn a_refused_store_is_read_to_its_end(rt: HostRuntime) -> Result<(), Fail> {
    let alloc = rt.alloc();
    let mut long = worked_one_loser(alloc)?;
    long.before.resize(24 + 67 * 65_536, 0)?;
    for (first, refused) in [(b'A', Fault::StoreSize), (b'B', Fault::BadStoreHeader)] {
        if let Some(byte) = long.before.get_mut(0) {
            *byte = first;
        }
        for way in WAYS {
            check_refused(&rt, alloc, way, &long, refused)?;
        }
    }
    Ok(())
}
