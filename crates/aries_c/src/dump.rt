//! The records of a log, for a dump.

ghost use Rattle.std.specs.Prelude.{◌≡◌, ◌+◌, ◌-◌, ◌<◌, length, min, IfSome, IfNone};
ghost use Rattle.log_laws.specs.Records.{history, last_lsn, base_lsn};
ghost use Rattle.wal.specs.Reads.{Cause};
ghost use Rattle.aries_c.specs.Fault.{Tells, TellsOrRefuses, OnDone, OnFailed, OnNoRoom, OnOtherFailure, OnNotWritable};
ghost use Rattle.aries_c.specs.Tables.{HasTables, IsEndAt, HasNoTables, TellsTables, TablesExceed};
ghost use Rattle.aries_c.specs.Writing.{KeepsRest};
ghost use Rattle.aries_c.specs.Dump.{TellsEach, DumpsBytes};

use crate::checkpoint::{fill_dirty, fill_entries};
use crate::{DirtyPage, Entry, Fault, Record, Tables};
use std::alloc::Global;
use wal::{DirtyTable, Log, RecordView, TransactionTable, read_log};

/// What was read of a log: its base LSN, how many records it has, how many bytes its torn tail has,
/// and how many records were returned.
#[repr(C)]
#[derive(Clone, Copy)]
pub struct Read {
    pub base_lsn: u64,
    pub records: u64,
    pub torn: u64,
    pub given: u64,
}

/// Writes the records of a log from an LSN on to a buffer, as many as there are and have room, and
/// returns how many these are.
fn fill(log: &Log, from: u64, out: &mut [Record]) -> usize
    requires { base_lsn (history log.now) < from }
    ensures given { result ≡ min (length out.old) ((last_lsn (history log.now) + 1) - from) }
    ensures each { TellsEach (history log.now) from result out.new }
    ensures behind { KeepsRest result out.old out.new }
{
    let left = log.next_lsn().saturating_sub(from);
    let given = out.len().min(left as usize);
    for i in 0..given {
        let lsn = from + i as u64;
        out[i] = Record::of(lsn, &log.after(lsn - 1));
    }
    given
}

/// Writes to `out` the records of the log in these bytes, as many as there are and have room: from
/// the LSN `first` on, or from the first record if `first` is 0. Writes to `read` what was read of
/// the log. A checkpoint end comes without its tables: [`aries_checkpoint`] returns these. The
/// error is the first fault of [`read_log`], with its place, and leaves `out` and `read` as they
/// are.
#[unsafe(no_mangle)]
pub extern "C" fn aries_records(
    alloc: Global,
    log: &[u8],
    first: u64,
    out: &mut [Record],
    read: &mut Read,
) -> Fault
    ensures dumps { OnDone result (DumpsBytes log.now first out.old out.new read.new) }
    ensures fault { OnFailed result (Tells (Cause log.now) result) }
    ensures kept { OnFailed result ((out.new ≡ out.old) × (read.new ≡ read.old)) }
{
    match read_log(alloc, log) {
        Ok((log, torn)) => {
            let given = fill(&log, first.max(log.base() + 1), out);
            *read = Read {
                base_lsn: log.base(),
                records: log.len(),
                torn: torn as u64,
                given: given as u64,
            };
            Fault::none()
        }
        Err(fault) => Fault::from(fault),
    }
}

/// The LSN of the begin record, and the tables, of the checkpoint end at an LSN.
fn tables_at<'a>(log: &Log<'a>, lsn: u64) -> Option<(u64, TransactionTable<'a>, DirtyTable<'a>)>
    ensures found { IfSome result (λ x. IsEndAt (history log.now) lsn x.0 x.1 x.2) }
    ensures none { IfNone result (HasNoTables (IsEndAt (history log.now) lsn)) }
{
    match log.get(lsn)? {
        RecordView::CheckpointEnd {
            begin,
            transactions,
            dirty,
        } => Some((begin, transactions, dirty)),
        RecordView::Update { .. }
        | RecordView::Compensation { .. }
        | RecordView::Commit { .. }
        | RecordView::Abort { .. }
        | RecordView::End { .. }
        | RecordView::Prepare { .. }
        | RecordView::CheckpointBegin => None,
    }
}

/// The tables of the checkpoint end at an LSN of the log in these bytes, each at the front of its
/// buffer in ascending order of number, and how many entries they have. 65: there is no checkpoint
/// end at this LSN; 64: a buffer is too short, and `tables` has how many entries there are;
/// otherwise the first fault of [`read_log`]. Unless the number is 0 the buffers are as before;
/// unless it is 0 or 64 `tables` is as before too.
#[unsafe(no_mangle)]
pub extern "C" fn aries_checkpoint(
    alloc: Global,
    log: &[u8],
    lsn: u64,
    transactions: &mut [Entry],
    dirty: &mut [DirtyPage],
    tables: &mut Tables,
) -> Fault
    ensures tables { OnDone result
        (TellsTables log.now lsn transactions.old transactions.new dirty.old dirty.new tables.new) }
    ensures no_room { OnNoRoom result
        (TablesExceed log.now lsn transactions.old dirty.old tables.new) }
    ensures none { OnNotWritable result (HasNoTables (HasTables log.now lsn)) }
    ensures fault { OnFailed result (TellsOrRefuses (Cause log.now) result) }
    ensures kept { OnFailed result
        ((transactions.new ≡ transactions.old) × (dirty.new ≡ dirty.old)) }
    ensures untold { OnOtherFailure result (tables.new ≡ tables.old) }
{
    let log = match read_log(alloc, log) {
        Ok((log, _)) => log,
        Err(fault) => return Fault::from(fault),
    };
    let Some((begin, entries, pages)) = tables_at(&log, lsn) else {
        return Fault::not_writable();
    };
    *tables = Tables {
        begin,
        transactions: entries.len() as u64,
        dirty: pages.len() as u64,
    };
    if transactions.len() < entries.len() || dirty.len() < pages.len() {
        return Fault::no_room();
    }
    fill_entries(&entries, transactions);
    fill_dirty(&pages, dirty);
    Fault::none()
}
