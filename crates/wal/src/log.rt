//! A log that stays in bytes.

ghost use Rattle.std.specs.Prelude.{◌≡◌, ◌+◌, ◌*◌, ◌<◌, ◌≤◌, ◌^◌, ◌++◌, ℕ, List, length, Some, None, option_map, IfErr, IfNone, IfOk, IfSome, Ok};
ghost use Rattle.wal.specs.Glances.{IsGlanceBehind};
ghost use Rattle.log_laws.specs.Meaning.{image_in};
ghost use Rattle.log_laws.specs.Records.{LogContent, ◌▸◌, history, last_lsn, base_lsn, record_at, first};
ghost use Rattle.wal.specs.Frames.{entry_at, log_at, Fails, Gives, IsLog};
ghost use Rattle.wal.specs.Reads.{Cause, Reads};
ghost use Rattle.wal.specs.Stretches.{AreFront, AreBehind, BeginsCut, BeginsLog};
ghost use Rattle.wal.specs.Spelling.{Fits};
ghost use Rattle.wal.specs.Content.{shown};
ghost use Rattle.wal.specs.declared.sizes.TheConstants.{BASED_HEADER_BYTES, HEADER_BYTES, LARGEST_BASE, LONGEST_FRAME, SMALLEST_FRAME};

use crate::body::Body;
use crate::glance::Glance;
use crate::header::{header_bytes, start_at};
use crate::joining::{stretch_alone, stretch_by};
use crate::part::Part;
use crate::reading::torn_from;
use crate::stretch::Stretch;
use crate::view::RecordView;
use log_laws::LogStart;
use page::{Fault, Value};
use std::alloc::Global;
use std::marker::Model;
use std::thread::Threads;

/// A log that stays in the bytes that it was read from, which may be in two parts. Besides these it
/// holds one offset for each record: 4 bytes in the first 4 GiB of a part, and 8 bytes after them.
/// Contracts see its content: how it begins, and its records, whose LSNs continue from there.
#[derive(Drop)]
pub struct Log<'a> {
    begins: LogStart,
    front: Part<'a>,
    back: Part<'a>,
}

impl<'a> Model for Log<'a> {
    ghost Value = { LogContent };

    ghost view = { λ log. record { begins = log.begins; records = log.front ++ log.back } };

    ghost invariant = { λ log. IsLog log.begins (log.front ++ log.back) };
}

impl<'a> Log<'a> {
    /// How many records it has.
    pub fn len(&self) -> u64
        ensures { result ≡ length self.now.records }
    {
        (self.front.len() + self.back.len()) as u64
    }

    /// How it begins: the version of its format, and the LSN after which its records come.
    pub fn start(&self) -> LogStart
        ensures { result ≡ self.now.begins }
    {
        self.begins
    }

    /// The LSN of its last record; the base LSN if it has no record. It is the sum of `base` and
    /// `len`.
    pub fn last(&self) -> u64
        ensures { result ≡ last_lsn (history self.now) }
    {
        self.begins.base() + self.len()
    }

    /// The base LSN, after which the log begins: its first record has the next LSN. It is 0 in
    /// version 1 of a log, and at most 9,223,372,036,854,775,807.
    #[inline(always)]
    pub fn base(&self) -> u64
        ensures is { result ≡ base_lsn (history self.now) }
        ensures low { result ≤ LARGEST_BASE }
    {
        self.begins.base()
    }

    /// The LSN of the record that would follow the last one. The base LSN is below 2^63 (`low`),
    /// the log has fewer than 2^63 bytes, and each record takes at least 13 of them. So there is
    /// room for many more LSNs (`room`).
    pub fn next_lsn(&self) -> u64
        ensures next { result ≡ last_lsn (history self.now) + 1 }
        ensures low { base_lsn (history self.now) ≤ LARGEST_BASE }
        ensures room { HEADER_BYTES + SMALLEST_FRAME * length self.now.records < 2 ^ 63 }
    {
        self.begins.base() + 1 + self.len()
    }

    /// The record at an LSN. `None` if the LSN is not above the base LSN, or is above the last one.
    /// The record is decoded from the bytes at each call, and takes no memory. What it shows fits
    /// the grammar (`fits`), as `to_record` requires.
    #[inline(always)]
    pub fn get(&self, lsn: u64) -> Option<RecordView<'a>>
        ensures found { option_map shown result ≡ record_at (history self.now) lsn }
        ensures fits { IfSome result (λ view. Fits (shown view)) }
    {
        self.body(lsn).view()
    }

    /// The body of the record at an LSN. It is the body of no record if the LSN is not above the
    /// base LSN, or is above the last one. If several are wanted, ask for all before looking at the
    /// first: the processor can then fetch them at the same time.
    #[inline(always)]
    pub fn body(&self, lsn: u64) -> Body<'a>
        ensures { result ≡ record_at (history self.now) lsn }
    {
        let Some(number) = self.number_of(lsn) else {
            return Body::none();
        };
        let (part, index) = self.place(number);
        part.body(index)
    }

    /// The image that the record at an LSN put into its cell, as `Body::image` returns it. `None`
    /// also if the LSN is not above the base LSN, or is above the last one.
    pub fn image(&self, lsn: u64) -> Option<Value>
        ensures { result ≡ image_in (record_at (history self.now) lsn) }
    {
        self.body(lsn).image()
    }

    /// The record after an LSN, that is, the record whose LSN is one higher. The given LSN must be
    /// at least the base LSN and below the last one.
    #[inline(always)]
    pub fn after(&self, lsn: u64) -> RecordView<'a>
        requires from { base_lsn (history self.now) ≤ lsn }
        requires to { lsn < last_lsn (history self.now) }
        ensures there { record_at (history self.now) (lsn + 1) ≡ Some (shown result) }
        ensures fits { Fits (shown result) }
        ensures next { first (lsn + 1) (history self.now)
            ≡ first lsn (history self.now) ▸ shown result }
    {
        // For the proof: how large the last LSN can be.
        let _last = self.last();
        match self.get(lsn + 1) {
            Some(view) => view,
            None => unreachable!(),
        }
    }

    /// The record after an LSN at a glance: as `after`, but nothing else of it is decoded.
    #[inline(always)]
    pub fn glance_after(&self, lsn: u64) -> Glance
        requires from { base_lsn (history self.now) ≤ lsn }
        requires to { lsn < last_lsn (history self.now) }
        ensures { IsGlanceBehind (history self.now) lsn result }
    {
        let (part, index) = self.place((lsn - self.base()) as usize);
        match part.body(index).glance() {
            Some(glance) => glance,
            None => unreachable!(),
        }
    }

    /// The number, from 0, of the record at an LSN. `None` if the LSN is not above the base LSN, or
    /// is above the last one.
    #[inline(always)]
    fn number_of(&self, lsn: u64) -> Option<usize>
        ensures some { IfSome result (λ number. (number < length self.now.records)
            × (record_at (history self.now) lsn ≡ Some (entry_at self.now.records number))) }
        ensures none { IfNone result (record_at (history self.now) lsn ≡ None) }
    {
        let base = self.begins.base();
        if lsn <= base || lsn > self.last() {
            return None;
        }
        Some((lsn - base - 1) as usize)
    }

    /// The part with the record of this number, from 0, and the number of the record in that part.
    #[inline(always)]
    fn place(&self, number: usize) -> (&Part<'a>, usize)
        requires { number < length self.now.records }
        ensures within { result.1 < length result.0.now }
        ensures there { entry_at result.0.now result.1 ≡ entry_at self.now.records number }
    {
        let count = self.front.len();
        if number < count {
            (&self.front, number)
        } else {
            (&self.back, number - count)
        }
    }
}

/// The log with this start. Its front is the header and these frames, and the second stretch has
/// all frames after the front. Returned with it is how many bytes the torn tail has.
fn log_of<'a>(
    begins: LogStart,
    front: &'a [u8],
    first: Stretch,
    back: &'a [u8],
    second: Stretch,
) -> Result<(Log<'a>, usize), Fault>
    requires short { length front.now + length back.now < 2 ^ 63 }
    requires first { AreFront begins front.now first }
    requires second { AreBehind first back.now second }
    ensures { Gives (λ x. x) result (log_at (front.now ++ back.now)) }
{
    let next = second.lsn + second.offsets.len() as u64;
    let torn = torn_from(next, front.len(), back, second.end)?;
    let log = Log {
        begins,
        front: Part::new(front, first.offsets),
        back: Part::new(back, second.offsets),
    };
    Ok((log, torn))
}

/// How a log begins, its header as a front without frames, and the bytes after it. The error is
/// `BadLogHeader`.
#[tactic(auto, unfolding(crate::specs::Frames::log_at))]
fn split_header<'a>(
    alloc: Global,
    bytes: &'a [u8],
) -> Result<(LogStart, &'a [u8], Stretch, &'a [u8]), Fault>
    ensures front { IfOk result (λ x. AreFront x.0 x.1.now x.2) }
    ensures empty { IfOk result (λ x. length x.2.offsets ≡ 0) }
    ensures parts { IfOk result (λ x. x.1.now ++ x.3.now ≡ bytes.now) }
    ensures err { IfErr result (λ e. Fails e (log_at bytes.now)) }
{
    let Some(begins) = start_at(bytes) else {
        return Err(Fault::BadLogHeader);
    };
    let (header, behind) = bytes.split_at(header_bytes(begins));
    let none = Stretch::none(alloc, begins.base() + 1, header.len(), 0);
    Ok((begins, header, none, behind))
}

/// The log in these bytes, and how many bytes its torn tail has: up to 3 bytes, or a length that a
/// body may have and fewer bytes than this length. A torn tail is not looked at, and is not part of
/// the log. The bytes are read once.
///
/// Errors. The first one in the bytes is returned; an offset is that of a frame's length field:
/// - NoResource: memory for the offsets was refused.
/// - BadLogHeader: the bytes begin neither with [`page::LOG_MAGIC`], which is version 1, nor with
///   [`page::BASED_LOG_MAGIC`] and 8 bytes of a base LSN of at most 9,223,372,036,854,775,807, which
///   is version 2.
/// - BadLength(offset): a complete length field is below 9, or above the length of a checkpoint end
///   with full tables.
/// - BadRecord(offset): a complete body does not encode a record with any LSN.
/// - BadLsn(offset): the body encodes a record, but its LSN is not the sum of the base LSN and the
///   frame's number from 1.
pub fn read_log<'a>(alloc: Global, bytes: &'a [u8]) -> Result<(Log<'a>, usize), Fault>
    // What is returned is what the bytes encode.
    ensures found { IfOk result (λ x. Reads bytes.now x.0 x.1) }
    // What the bytes encode is returned, unless memory runs out.
    ensures only { (log : LogContent) (torn : ℕ) → Reads bytes.now log torn
        → Gives (λ x. x) result (Ok (log, torn)) }
    // On an error, its condition holds for the bytes, a lack of memory aside.
    ensures fault { IfErr result (Cause bytes.now) }
{
    let (begins, header, none, behind) = split_header(alloc, bytes)?;
    let frames = stretch_alone(alloc, behind, none.lsn, 0)?;
    log_of(begins, header, none, behind, frames)
}

/// As [`read_log`], with the same results and errors, but with this many threads if the log is
/// long. Each thread takes a stretch of the bytes, guesses where its first frame begins, and reads
/// from there. What it read counts if the frames before it end exactly there, with the LSN before;
/// otherwise those bytes are read again. More threads take more memory: one more offset for each
/// record.
pub fn read_log_by<'a, R: Threads + Sync>(
    rt: &R,
    alloc: Global,
    bytes: &'a [u8],
    threads: usize,
) -> Result<(Log<'a>, usize), Fault>
    ensures found { IfOk result (λ x. Reads bytes.now x.0 x.1) }
    ensures only { (log : LogContent) (torn : ℕ) → Reads bytes.now log torn
        → Gives (λ x. x) result (Ok (log, torn)) }
    ensures fault { IfErr result (Cause bytes.now) }
{
    let (begins, header, none, behind) = split_header(alloc, bytes)?;
    let frames = stretch_by(rt, alloc, behind, none.lsn, 0, threads)?;
    log_of(begins, header, none, behind, frames)
}

/// The whole frames in the first bytes of a log, at least 16, when the rest is not read yet.
/// [`read_log_behind`] then takes them with the rest. They are read by this many threads. After the
/// last of them is at most the beginning of a frame.
///
/// The error is that of [`read_log_by`] for the log, whatever comes after these bytes: a bad header
/// or a bad frame among them, or `NoResource`.
pub fn first_frames<R: Threads + Sync>(
    rt: &R,
    alloc: Global,
    front: &[u8],
    threads: usize,
) -> Result<Stretch, Fault>
    requires { BASED_HEADER_BYTES ≤ length front.now }
    ensures frames { IfOk result (BeginsCut front.now) }
    ensures rest { IfOk result (λ first. length front.now < first.end + LONGEST_FRAME) }
    ensures fault { IfErr result (λ e. (more : List ℕ) → Cause (front.now ++ more) e) }
{
    let Some(begins) = start_at(front) else {
        return Err(Fault::BadLogHeader);
    };
    let first = begins.base() + 1;
    let frames = stretch_by(rt, alloc, front, first, header_bytes(begins), threads)?;
    let next = frames.lsn + frames.offsets.len() as u64;
    // The frame after them may be cut off here, but it must not be a bad one.
    torn_from(next, 0, front, frames.end)?;
    Ok(frames)
}

/// The log of a front and the bytes after it, which are in other memory. The front is a header and
/// these frames, to its end. The results and errors are those of [`read_log_by`] for all of the
/// bytes.
pub fn read_log_behind<'a, R: Threads + Sync>(
    rt: &R,
    alloc: Global,
    front: &'a [u8],
    first: Stretch,
    back: &'a [u8],
    threads: usize,
) -> Result<(Log<'a>, usize), Fault>
    requires first { BeginsLog front.now first }
    requires whole { first.end ≡ length front.now }
    ensures found { IfOk result (λ x. Reads (front.now ++ back.now) x.0 x.1) }
    ensures only { (log : LogContent) (torn : ℕ) → Reads (front.now ++ back.now) log torn
        → Gives (λ x. x) result (Ok (log, torn)) }
    ensures fault { IfErr result (Cause (front.now ++ back.now)) }
{
    let Some(begins) = start_at(front) else {
        unreachable!()
    };
    if front.len() + back.len() > isize::MAX as usize {
        return Err(Fault::NoResource);
    }
    let next = first.lsn + first.offsets.len() as u64;
    let second = stretch_by(rt, alloc, back, next, 0, threads)?;
    log_of(begins, front, first, back, second)
}
