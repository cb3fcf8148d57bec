//! A device that fails at each of its calls in turn, and at each flush, and recoveries of what is
//! left then.

use super::{Left, Paces, Worked, are_whole, is_untouched, left_of, torn_log, worked_two_losers};
use checks::{check, check_all, check_at};
use device::Pace;
use page::Fault;
use std::alloc::Global;
use std::test::Fail;
use std::thread::Threads;

/// A device of a recovery.
#[derive(Clone, Copy)]
enum Device {
    LogSource,
    StoreSource,
    Tail,
    Log,
    Store,
}

impl Device {
    /// This device has this pace, and the others pass all they can.
    fn of_pace(self, pace: Pace) -> Paces {
        let fast = Paces::fast();
        match self {
            Device::LogSource => Paces {
                log_source: pace,
                ..fast
            },
            Device::StoreSource => Paces {
                store_source: pace,
                ..fast
            },
            Device::Tail => Paces { tail: pace, ..fast },
            Device::Log => Paces { log: pace, ..fast },
            Device::Store => Paces {
                store: pace,
                ..fast
            },
        }
    }

    /// The fault that names this device.
    fn fault(self) -> Fault {
        match self {
            Device::LogSource => Fault::ReadLog,
            Device::StoreSource => Fault::ReadStore,
            Device::Tail | Device::Log => Fault::WriteLog,
            Device::Store => Fault::WriteStore,
        }
    }
}

/// What a recovery left when a device failed.
#[derive(Clone, Copy, PartialEq, Eq)]
enum Stage {
    /// Nothing was written.
    Before,
    /// The file of the tail was begun.
    Tail,
    /// The log was cut, and continued by a prefix of what is appended.
    Log,
    /// The log is whole, and the new store is begun.
    Store,
    /// None of these.
    Other,
}

/// Whether the log is continued and flushed, and the sink of the new store has a prefix of it.
fn is_store_begun(worked: &Worked, left: &Left) -> bool {
    let new_log = worked.row.made.bytes.as_slice();
    left.new.log.bytes() == new_log
        && left.new.log.flushed() == new_log
        && worked.after.starts_with(left.store.bytes())
}

/// Whether the log is a prefix of the new one, with all that was kept of the old one.
fn is_cut(worked: &Worked, left: &Left) -> bool {
    let log = left.new.log.bytes();
    log.len() >= worked.row.given.bytes.len() && worked.row.made.bytes.starts_with(log)
}

/// What a recovery of a log of these bytes left.
fn stage_of(worked: &Worked, read: &[u8], left: &Left) -> Stage {
    if is_untouched(left, read) {
        return Stage::Before;
    }
    if is_store_begun(worked, left) {
        return Stage::Store;
    }
    match left.store.bytes().is_empty() {
        true if left.new.log.bytes() == read => Stage::Tail,
        true if is_cut(worked, left) => Stage::Log,
        _ => Stage::Other,
    }
}

/// A recovery of what is left of the log and of the old store must end as the first would have.
fn check_again<R: Threads + Sync>(
    rt: &R,
    alloc: Global,
    worked: &Worked,
    left: &Left,
    call: u32,
) -> Result<(), Fail> {
    let again = left_of(rt, alloc, worked, left.new.log.bytes(), &Paces::fast())?;
    let is_whole = again.answer.is_ok() && are_whole(worked, &again);
    check_at(call as usize, is_whole, "gone on from call")
}

/// Whether a recovery ended with this fault.
fn has_ended(left: &Left, fault: Fault) -> bool {
    match &left.answer {
        Ok(_) => false,
        Err(found) => *found == fault,
    }
}

/// How many recoveries left each stage.
#[derive(Clone, Copy, PartialEq, Eq)]
struct Calls {
    before: u32,
    tail: u32,
    log: u32,
    store: u32,
}

impl Calls {
    /// Counts one more call at which a recovery left this.
    fn with(self, stage: Stage) -> Option<Calls> {
        match stage {
            Stage::Before => Some(Calls {
                before: self.before.saturating_add(1),
                ..self
            }),
            Stage::Tail => Some(Calls {
                tail: self.tail.saturating_add(1),
                ..self
            }),
            Stage::Log => Some(Calls {
                log: self.log.saturating_add(1),
                ..self
            }),
            Stage::Store => Some(Calls {
                store: self.store.saturating_add(1),
                ..self
            }),
            Stage::Other => None,
        }
    }
}

/// No call failed.
const NONE: Calls = Calls {
    before: 0,
    tail: 0,
    log: 0,
    store: 0,
};

/// What is left at each call of this device, of seven bytes each, that fails before one at which
/// the recovery succeeds.
fn failing_calls<R: Threads + Sync>(
    rt: &R,
    alloc: Global,
    worked: &Worked,
    device: Device,
) -> Result<Calls, Fail> {
    let read = torn_log(alloc, worked)?;
    let mut calls = NONE;
    for call in 1..1000u32 {
        let left = left_of(
            rt,
            alloc,
            worked,
            &read,
            &device.of_pace(Pace::failing(7, call)),
        )?;
        if left.answer.is_ok() {
            check(are_whole(worked, &left), "recovered")?;
            return Ok(calls);
        }
        check_at(
            call as usize,
            has_ended(&left, device.fault()),
            "the fault of call",
        )?;
        let Some(counted) = calls.with(stage_of(worked, &read, &left)) else {
            return Err(Fail::new("what is left"));
        };
        calls = counted;
        check_again(rt, alloc, worked, &left, call)?;
    }
    Err(Fail::new("no end"))
}

/// The header of the store takes 4 calls, its page 147, and one call finds the end. When the store
/// is read once more, after the log is continued, its page takes 147 calls.
#[test]
fn a_store_fails_at_each_read(rt: HostRuntime) -> Result<(), Fail> {
    let alloc = rt.alloc();
    let worked = worked_two_losers(alloc)?;
    let calls = failing_calls(&rt, alloc, &worked, Device::StoreSource)?;
    check_all(&[
        (calls.before == 152, "the first reading"),
        (calls.store == 147, "the second"),
        (calls.tail == 0 && calls.log == 0, "other calls"),
    ])
}

/// Its 113 bytes take 17 calls each time it is read. It is not read after the first write.
#[test]
fn a_log_fails_at_each_read(rt: HostRuntime) -> Result<(), Fail> {
    let alloc = rt.alloc();
    let worked = worked_two_losers(alloc)?;
    let calls = failing_calls(&rt, alloc, &worked, Device::LogSource)?;
    let only = Calls {
        before: calls.before,
        ..NONE
    };
    check(calls.before > 17 && calls == only, "the calls of the log")
}

/// The head of the tail's file takes 7 calls, its 164 bytes of frames take 24, its sum 2. The log
/// is cut and flushed before it takes the same frames. The header of the store takes 4 calls, and
/// its page 147. Each sink is flushed at the end.
#[test]
fn each_sink_in_place_fails_at_each_call(rt: HostRuntime) -> Result<(), Fail> {
    let alloc = rt.alloc();
    let worked = worked_two_losers(alloc)?;
    let tail = failing_calls(&rt, alloc, &worked, Device::Tail)?;
    let log = failing_calls(&rt, alloc, &worked, Device::Log)?;
    let store = failing_calls(&rt, alloc, &worked, Device::Store)?;
    check_all(&[
        (
            tail.before == 1 && tail.tail == 33 && tail.log == 0 && tail.store == 0,
            "the file of the tail",
        ),
        (
            log.before == 0 && log.tail == 1 && log.log == 26 && log.store == 0,
            "the log",
        ),
        (store == Calls { store: 152, ..NONE }, "the store"),
    ])
}

/// A flush that fails leaves all that was to be flushed.
#[test]
fn flushes_in_place_fail(rt: HostRuntime) -> Result<(), Fail> {
    let alloc = rt.alloc();
    let worked = worked_two_losers(alloc)?;
    let read = torn_log(alloc, &worked)?;
    for (name, device, stage, length) in [
        ("tail", Device::Tail, Stage::Tail, 0),
        ("log", Device::Log, Stage::Log, 0),
        ("store", Device::Store, Stage::Store, 1048),
    ] {
        let left = left_of(
            &rt,
            alloc,
            &worked,
            &read,
            &device.of_pace(Pace::unflushed()),
        )?;
        check(has_ended(&left, device.fault()), name)?;
        check(stage_of(&worked, &read, &left) == stage, name)?;
        check(left.store.bytes().len() == length, name)?;
        check_again(&rt, alloc, &worked, &left, 0)?;
    }
    Ok(())
}

/// If both sources fail, the fault is the log's.
#[test]
fn both_sources_in_place_fail(rt: HostRuntime) -> Result<(), Fail> {
    let alloc = rt.alloc();
    let worked = worked_two_losers(alloc)?;
    let bytes = worked.row.given.bytes.as_slice();
    let failing = Pace::failing(usize::MAX, 1);
    let paces = Paces {
        log_source: failing,
        store_source: failing,
        ..Paces::fast()
    };
    let left = left_of(&rt, alloc, &worked, bytes, &paces)?;
    check(has_ended(&left, Fault::ReadLog), "the fault")?;
    check(is_untouched(&left, bytes), "untouched")
}
