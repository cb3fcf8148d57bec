//! What an engine has to know of a log that it continues.

ghost use Rattle.std.specs.Prelude.{◌≡◌, ◌<◌, ◌≤◌, length, map};
ghost use Rattle.log_laws.specs.Records.{history};
ghost use Rattle.wal.specs.Reads.{Cause};
ghost use Rattle.wal.specs.Content.{entry_of};
ghost use Rattle.aries_c.specs.Fault.{Tells, OnDone, OnFailed, OnNoRoom, OnOtherFailure, OnMade};
ghost use Rattle.aries_c.specs.Tables.{told_entry, Fills};
ghost use Rattle.aries_c.specs.Unfinished.{IsHighest, TellsState, TellsUnfinished};

use crate::checkpoint::entry_told;
use crate::{Entry, Fault};
use analysis::analyse_transactions;
use std::alloc::Global;
use std::collections::BTreeMap;
use wal::{Log, read_log};

/// What an engine that continues a log has to know of it.
#[repr(C)]
#[derive(Clone, Copy)]
pub struct LogState {
    /// The LSN of its last record; the base LSN if there is none.
    pub last_lsn: u64,
    /// The highest number of a transaction that has a record; 0 if none has.
    pub highest: u64,
    /// How many transactions have a record, and have neither committed nor ended.
    pub unfinished: u64,
}

/// The highest number of a transaction that has a record; 0 if none has.
fn highest_in(log: &Log) -> u32
    ensures { IsHighest (history log.now) result }
{
    let mut highest = 0;
    for lsn in log.base()..log.last() {
        if let Some(tx) = log.after(lsn).tx() {
            highest = highest.max(tx);
        }
    }
    highest
}

/// Writes the entries of these transactions to the front of a buffer.
fn fill_unfinished(found: &BTreeMap<u32, wal::Entry>, out: &mut [Entry])
    requires { length found.now.entries ≤ length out.old }
    ensures { Fills told_entry (map entry_of found.now.entries) out.old out.new }
{
    let mut place = 0;
    for (tx, entry) in found {
        out[place] = entry_told((*tx, *entry));
        place += 1;
    }
}

/// Writes to `unfinished` the transactions of the log in these bytes that have a record and have
/// neither committed nor ended, in ascending order of number: after a recovery those in doubt. Writes
/// to `state` what else an engine has to know to continue the log. The whole log is read.
///
/// 64: `unfinished` is too short, and `state` has how many there are. Otherwise the error is the
/// first fault of [`read_log`], or 1. Unless the number is 0 `unfinished` is as before; unless it is
/// 0 or 64 `state` is as before too.
#[unsafe(no_mangle)]
pub extern "C" fn aries_unfinished(
    alloc: Global,
    log: &[u8],
    unfinished: &mut [Entry],
    state: &mut LogState,
) -> Fault
    ensures state { OnMade result (TellsState log.now state.new) }
    ensures entries { OnDone result
        (TellsUnfinished log.now unfinished.old unfinished.new state.new) }
    ensures short { OnNoRoom result (length unfinished.old < state.new.unfinished) }
    ensures fault { OnOtherFailure result (Tells (Cause log.now) result) }
    ensures kept { OnFailed result (unfinished.new ≡ unfinished.old) }
    ensures untold { OnOtherFailure result (state.new ≡ state.old) }
{
    let log = match read_log(alloc, log) {
        Ok((log, _)) => log,
        Err(fault) => return Fault::from(fault),
    };
    let found = match analyse_transactions(alloc, &log, 0) {
        Ok(found) => found,
        Err(fault) => return Fault::from(fault),
    };
    *state = LogState {
        last_lsn: log.last(),
        highest: highest_in(&log) as u64,
        unfinished: found.len() as u64,
    };
    if unfinished.len() < found.len() {
        return Fault::no_room();
    }
    fill_unfinished(&found, unfinished);
    Fault::none()
}
