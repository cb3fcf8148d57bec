//! Where the log in some bytes ends, and what follows it there.

ghost use Rattle.std.specs.Prelude.{◌≡◌, ◌+◌, ◌≤◌, ◌<◌, ◌^◌, length, Ok, Some, IfErr, IfNone, IfOk, IfSome};
ghost use Rattle.page.specs.declared.fault.Fault.TheVariants.{BadLogHeader};
ghost use Rattle.wal.specs.Frames.{size_in};
ghost use Rattle.wal.specs.Reads.{Cause};
ghost use Rattle.cursor.specs.Ends.{IsFirst, IsEnd, Follows, next_after, HasNoneAfter};

use crate::reading::{log_begin, size_after};
use page::Fault;
use pieces::Mark;

/// What follows the last whole frame of a log.
#[derive(Clone, Copy, Debug, PartialEq, Eq)]
pub enum Rest {
    /// Nothing: the bytes end there.
    Nothing,
    /// A torn tail of this many bytes: the beginning of a frame.
    Torn(u64),
    /// Damage: the fault of [`read_log`](wal::read_log) for all of the bytes. Its offset is that of
    /// the end of the log.
    Damaged(Fault),
}

/// How many bytes the frame after a mark takes; `None` also if something else is there.
fn whole_after(bytes: &[u8], mark: Mark) -> Option<usize>
    requires lsn { mark.lsn + 1 < 2 ^ 64 }
    requires within { mark.offset ≤ length bytes.now }
    ensures some { IfSome result (λ size. size_in (next_after bytes.now mark) ≡ Ok (Some size)) }
    ensures none { IfNone result (HasNoneAfter bytes.now mark) }
{
    match size_after(bytes, mark) {
        Ok(found) => found,
        Err(_) => None,
    }
}

/// The mark after the last whole frame from the first mark on.
fn last_mark(bytes: &[u8], begin: Mark) -> Mark
    requires { IsFirst bytes.now begin }
    ensures { IsEnd bytes.now result }
{
    let mut end = begin;
    while let Some(size) = whole_after(bytes, end) {
        end = Mark {
            lsn: end.lsn + 1,
            offset: end.offset + size as u64,
        };
    }
    end
}

/// What follows the end of the log.
fn rest_after(bytes: &[u8], end: Mark) -> Rest
    requires { IsEnd bytes.now end }
    ensures { Follows bytes.now end result }
{
    match size_after(bytes, end) {
        Ok(None) => {
            let torn = bytes.len() as u64 - end.offset;
            if torn == 0 {
                Rest::Nothing
            } else {
                Rest::Torn(torn)
            }
        }
        Ok(Some(_)) => unreachable!(),
        Err(fault) => Rest::Damaged(fault),
    }
}

/// Where the log in these bytes ends, and what follows it there: the bytes before the mark are a log
/// with nothing torn, and no longer beginning of the bytes is one. The LSN of the mark is that of
/// the log's last record. After a power cut the bytes that follow may be a torn tail, or anything
/// else, such as zeros: with the bytes before the mark alone a recovery is possible.
///
/// The bytes are read once, to the first that are not a frame. The error is `BadLogHeader`, if they
/// do not begin with the header of a log.
pub fn log_end(bytes: &[u8]) -> Result<(Mark, Rest), Fault>
    ensures end { IfOk result (λ x. IsEnd bytes.now x.0) }
    ensures rest { IfOk result (λ x. Follows bytes.now x.0 x.1) }
    ensures err { IfErr result (λ e. e ≡ BadLogHeader) }
    ensures fault { IfErr result (Cause bytes.now) }
{
    let begin = log_begin(bytes)?;
    let end = last_mark(bytes, begin);
    Ok((end, rest_after(bytes, end)))
}
