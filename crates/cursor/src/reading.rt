//! One record after the other, each from a mark.

ghost use Rattle.std.specs.Prelude.{◌≡◌, ◌+◌, ◌≤◌, ◌<◌, ◌^◌, length, Ok, Some, IfErr, IfNone, IfOk, IfSome};
ghost use Rattle.page.specs.declared.fault.Fault.TheVariants.{BadLogHeader};
ghost use Rattle.wal.specs.Frames.{size_in};
ghost use Rattle.wal.specs.Reads.{Cause};
ghost use Rattle.wal.specs.Spelling.{Fits};
ghost use Rattle.wal.specs.Content.{shown};
ghost use Rattle.cursor.specs.Ends.{IsFirst, IsNext, EndsAfter, HasFaultAt, next_after};

use page::Fault;
use pieces::Mark;
use wal::{RecordView, body_view, header_bytes, next_at, start_at};

/// The mark before the first record of the log in these bytes. Only the header is read: 8 bytes, or
/// 16 in version 2.
///
/// The error is `BadLogHeader`, if the bytes do not begin with the header of a log.
pub fn log_begin(bytes: &[u8]) -> Result<Mark, Fault>
    ensures begin { IfOk result (IsFirst bytes.now) }
    ensures err { IfErr result (λ e. e ≡ BadLogHeader) }
    ensures fault { IfErr result (Cause bytes.now) }
{
    let Some(begins) = start_at(bytes) else {
        return Err(Fault::BadLogHeader);
    };
    Ok(Mark {
        lsn: begins.base(),
        offset: header_bytes(begins) as u64,
    })
}

/// How many bytes the frame after a mark takes. `None` if no whole frame is there. The errors are
/// those of a log.
pub fn size_after(bytes: &[u8], mark: Mark) -> Result<Option<usize>, Fault>
    requires lsn { mark.lsn + 1 < 2 ^ 64 }
    requires within { mark.offset ≤ length bytes.now }
    ensures { result ≡ size_in (next_after bytes.now mark) }
{
    let offset = mark.offset as usize;
    let (_, rest) = bytes.split_at(offset);
    next_at(mark.lsn + 1, offset, rest)
}

/// The record of the frame after a mark, which takes this many bytes.
#[inline(always)]
fn view_after<'a>(bytes: &'a [u8], mark: Mark, size: usize) -> RecordView<'a>
    requires within { mark.offset ≤ length bytes.now }
    requires there { size_in (next_after bytes.now mark) ≡ Ok (Some size) }
    ensures record { next_after bytes.now mark ≡ Ok (Some (shown result, size)) }
    ensures fits { Fits (shown result) }
{
    let (_, frame) = bytes.split_at(mark.offset as usize);
    let (_, body) = frame.split_at(4);
    match body_view(&body[..size - 4]) {
        Some(view) => view,
        None => unreachable!(),
    }
}

/// The record of the frame after a mark, and the mark after it. `None` if no whole frame is there:
/// the log ends, perhaps with a torn tail. Only this frame is read.
///
/// The mark has to be one of the log: that of [`log_begin`], or one that this function returned, or
/// the LSN before that of a record and the offset of its frame. With any other mark the call
/// returns, but what it returns is not specified.
///
/// Errors; the offset is that of the mark:
/// - BadLength(offset): the length of the frame is below 9, or above that of a checkpoint end with
///   full tables.
/// - BadRecord(offset): its body does not encode a record.
/// - BadLsn(offset): it encodes a record, but with another LSN than the next one.
pub fn next_record<'a>(bytes: &'a [u8], mark: Mark) -> Result<Option<(RecordView<'a>, Mark)>, Fault>
    ensures record { IfOk result (λ found. IfSome found (λ x.
        IsNext bytes.now mark (shown x.0) x.1)) }
    ensures lsn { IfOk result (λ found. IfSome found (λ x. x.1.lsn ≡ mark.lsn + 1)) }
    ensures within { IfOk result (λ found. IfSome found (λ x. x.1.offset ≤ length bytes.now)) }
    ensures fits { IfOk result (λ found. IfSome found (λ x. Fits (shown x.0))) }
    ensures end { IfOk result (λ found. IfNone found (EndsAfter bytes.now mark)) }
    ensures fault { IfErr result (HasFaultAt bytes.now mark) }
{
    let Some(lsn) = mark.lsn.checked_add(1) else {
        return Ok(None);
    };
    if mark.offset > bytes.len() as u64 {
        return Ok(None);
    }
    let Some(size) = size_after(bytes, mark)? else {
        return Ok(None);
    };
    let view = view_after(bytes, mark, size);
    let next = Mark {
        lsn,
        offset: mark.offset + size as u64,
    };
    Ok(Some((view, next)))
}
