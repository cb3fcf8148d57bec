//! A log that is read record by record, and where it ends.

ghost use Rattle.std.specs.Prelude.{◌≡◌, ◌+◌, ◌≤◌, ℕ, List, length};
ghost use Rattle.page.specs.declared.fault.Fault.TheVariants.{BadLogHeader};
ghost use Rattle.wal.specs.Reads.{Cause};
ghost use Rattle.cursor.specs.Ends.{IsFirst, IsEnd, EndsAfter, Follows};
ghost use Rattle.aries_c.specs.Fault.{told_of, OnDone, OnFailed, OnNotWritable};
ghost use Rattle.aries_c.specs.Marks.{mark_of, TellsNext, TellsWhy, end_of, TellsRest};

use crate::{Fault, Record};
use cursor::{Rest, log_begin, log_end, next_record};

/// A place in a log between two records.
#[repr(C)]
#[derive(Clone, Copy)]
pub struct Mark {
    /// The LSN of the last record before it; the base LSN of the log if there is none.
    pub lsn: u64,
    /// How many bytes of the log come before it: the offset of the next record's frame.
    pub offset: u64,
}

/// Where a log ends, and what follows it.
#[repr(C)]
#[derive(Clone, Copy)]
pub struct LogEnd {
    /// How many bytes from the front are a log with nothing torn.
    pub length: u64,
    /// The LSN of its last record; the base LSN if there is none.
    pub last_lsn: u64,
    /// How many bytes of a torn tail follow it; 0 if none does.
    pub torn: u64,
    /// The fault of what follows it, with `length` as place; number 0 if nothing or a torn tail
    /// does.
    pub damage: Fault,
}

/// This mark of the library, for C.
fn mark_told(mark: pieces::Mark) -> Mark
    ensures { mark_of result ≡ mark }
{
    Mark {
        lsn: mark.lsn,
        offset: mark.offset,
    }
}

/// Sets `mark` to before the first record of the log in these bytes. Only the header is read. 6: the
/// bytes do not begin with the header of a log; `mark` is as before.
#[unsafe(no_mangle)]
pub extern "C" fn aries_log_begin(log: &[u8], mark: &mut Mark) -> Fault
    ensures begin { OnDone result (IsFirst log.now (mark_of mark.new)) }
    ensures fault { OnFailed result (result ≡ told_of BadLogHeader) }
    ensures cause { OnFailed result (Cause log.now BadLogHeader) }
    ensures kept { OnFailed result (mark.new ≡ mark.old) }
{
    match log_begin(log) {
        Ok(begin) => {
            *mark = mark_told(begin);
            Fault::none()
        }
        Err(fault) => Fault::from(fault),
    }
}

/// Writes the record after `mark` to `out`, and sets `mark` to after that record. Only the frame
/// of this record is read. The mark has to be one of the log. 65: no whole record follows, since the
/// log ends there, perhaps with a torn tail; 7 to 9: what follows is not a frame. Then `mark` and
/// `out` are as before.
#[unsafe(no_mangle)]
pub extern "C" fn aries_next_record(log: &[u8], mark: &mut Mark, out: &mut Record) -> Fault
    ensures record { OnDone result (TellsNext log.now mark.old mark.new out.new) }
    ensures lsn { OnDone result (out.new.lsn ≡ mark.old.lsn + 1) }
    ensures within { OnDone result (mark.new.offset ≤ length log.now) }
    ensures end { OnNotWritable result (EndsAfter log.now (mark_of mark.old)) }
    ensures fault { OnFailed result (TellsWhy log.now mark.old result) }
    ensures kept { OnFailed result ((mark.new ≡ mark.old) × (out.new ≡ out.old)) }
{
    let from = pieces::Mark {
        lsn: mark.lsn,
        offset: mark.offset,
    };
    match next_record(log, from) {
        Ok(Some((view, next))) => {
            *out = Record::of(next.lsn, &view);
            *mark = mark_told(next);
            Fault::none()
        }
        Ok(None) => Fault::not_writable(),
        Err(fault) => Fault::from(fault),
    }
}

/// The end of a log at this mark, with this many torn bytes or this damage after it.
fn end_with(end: pieces::Mark, torn: u64, damage: Fault) -> LogEnd
    ensures end { end_of result ≡ end }
    ensures torn { result.torn ≡ torn }
    ensures damage { result.damage ≡ damage }
{
    LogEnd {
        length: end.offset,
        last_lsn: end.lsn,
        torn,
        damage,
    }
}

/// Where the log in these bytes ends, and what follows it there.
fn end_told(end: pieces::Mark, rest: Rest) -> LogEnd
    ensures end { end_of result ≡ end }
    ensures rest { (log : List ℕ) → Follows log end rest → TellsRest log result }
{
    match rest {
        Rest::Nothing => end_with(end, 0, Fault::none()),
        Rest::Torn(count) => end_with(end, count, Fault::none()),
        Rest::Damaged(fault) => end_with(end, 0, Fault::from(fault)),
    }
}

/// Writes to `end` how many bytes from the front of these bytes are a log with nothing torn, and what
/// follows them. No longer beginning of the bytes is such a log. 6: the bytes do not begin with the
/// header of a log; `end` is as before.
#[unsafe(no_mangle)]
pub extern "C" fn aries_log_end(log: &[u8], end: &mut LogEnd) -> Fault
    ensures end { OnDone result (IsEnd log.now (end_of end.new)) }
    ensures rest { OnDone result (TellsRest log.now end.new) }
    ensures fault { OnFailed result (result ≡ told_of BadLogHeader) }
    ensures cause { OnFailed result (Cause log.now BadLogHeader) }
    ensures kept { OnFailed result (end.new ≡ end.old) }
{
    match log_end(log) {
        Ok((mark, rest)) => {
            *end = end_told(mark, rest);
            Fault::none()
        }
        Err(fault) => Fault::from(fault),
    }
}
