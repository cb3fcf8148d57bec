//! The bytes of a log, read from its source. If they are many and there are threads, they are read
//! in two parts, so that the first half is decoded while the second is read.

ghost use Rattle.std.specs.Prelude.{◌≡◌, ◌≤◌, ◌<◌, ◌+◌, ◌-◌, ◌++◌, ℕ, List, length, take, drop, IfOk, IfErr, OnOk, IsOkUnless};
ghost use Rattle.std.specs.Io.KnownBytes.{IsAtEnd};
ghost use Rattle.page.specs.declared.fault.Fault.TheVariants.{NoResource, ReadLog};
ghost use Rattle.wal.specs.Reads.{Cause};
ghost use Rattle.wal.specs.Stretches.{BeginsCut};
ghost use Rattle.wal.specs.declared.sizes.TheConstants.{BASED_HEADER_BYTES, LONGEST_FRAME};
ghost use Rattle.recovery.specs.LogText.{text_of, rest_of, CameAfter, CameLast, IsLogText};
ghost use Rattle.recovery.specs.Recovery.{ReadsAs};
ghost use Rattle.recovery.specs.Devices.{Gave, IsFaultOf};
ghost use Rattle.recovery.specs.Calls.{Blames, ReadNext};

use crate::devices::read_source;
use device::{ReadFault, Source, read_front, read_rest};
use page::Fault;
use std::alloc::Global;
use std::thread::{Threads, join_mut};
use wal::{
    BASED_HEADER_BYTES, LONGEST_FRAME, Log, Stretch, first_frames, read_log_behind, read_log_by,
};

/// A log of fewer bytes than this is read in one part: for a shorter log two parts save no
/// measurable time.
const LONG: usize = 1 << 25;

/// A log whose source hints at more bytes than this is read in one part too, since a hint may be
/// far too large: room for half of it is made and touched before it is known to be needed.
const LONGEST: usize = 1 << 31;

/// Room for one more read.
const PIECE: usize = 1 << 16;

/// All bytes of a log: those of the front, and those of the back from `from` on. Before `from` the
/// back has room for the beginning of a frame with which the front may end.
#[derive(Drop)]
pub struct LogText {
    pub front: Vec<u8>,
    pub back: Vec<u8>,
    pub from: usize,
}

impl LogText {
    /// How many bytes they are.
    pub fn len(&self) -> u64
        requires { self.now.from ≤ length self.now.back.items }
        ensures { result ≡ length (text_of self.now) }
    {
        let (_, back) = self.back.split_at(self.from);
        self.front.len() as u64 + back.len() as u64
    }
}

/// What is known of the bytes of a log before all of them are decoded.
#[derive(Drop)]
pub enum Known {
    /// Nothing, and they are all in the front.
    Nothing,
    /// The front is a header and these frames.
    Front(Stretch),
    /// They are not a log; this is the fault.
    Fault(Fault),
}

/// The next bytes of a log's source: at least this many if there are as many, and up to 64 KiB
/// more.
fn read_next<S: Source>(alloc: Global, source: &mut S, count: usize) -> Result<Vec<u8>, Fault>
    ensures read { IfOk result (λ bytes. ReadNext S.left source.old source.new bytes.items) }
    ensures fault { IfErr result (IsFaultOf ReadLog) }
    ensures cause { Blames ReadLog S.failures source.old source.new result }
{
    match read_front(alloc, source, count) {
        Ok(bytes) => Ok(bytes),
        Err(ReadFault::Failed) => Err(Fault::ReadLog),
        Err(ReadFault::NoMemory) => Err(Fault::NoResource),
    }
}

/// All bytes that a log's source has left, after the first `filled` of these.
fn read_last<S: Source>(source: &mut S, bytes: &mut Vec<u8>, filled: usize) -> Result<(), Fault>
    requires { filled ≤ length bytes.old.items }
    ensures front { OnOk result (take filled bytes.new.items ≡ take filled bytes.old.items) }
    ensures read { OnOk result (CameAfter S.left source.old source.new filled bytes.new.items) }
    ensures end { OnOk result (IsAtEnd (S.left source.new)) }
    ensures fault { IfErr result (IsFaultOf ReadLog) }
    ensures cause { Blames ReadLog S.failures source.old source.new result }
{
    match read_rest(source, bytes, filled) {
        Ok(()) => Ok(()),
        Err(ReadFault::Failed) => Err(Fault::ReadLog),
        Err(ReadFault::NoMemory) => Err(Fault::NoResource),
    }
}

/// This many zeros, or none if there is no memory for them.
fn zeros(alloc: Global, count: usize) -> Vec<u8> {
    match vec![in alloc; 0; count] {
        Ok(room) => room,
        Err(_) => Vec::new(alloc),
    }
}

/// The next bytes of a log's source, at least `half` if there are as many, and this much room for
/// the rest. Another thread touches the room while the caller reads.
fn read_half<S: Source, R: Threads + Sync>(
    rt: &R,
    alloc: Global,
    source: &mut S,
    half: usize,
    room: usize,
) -> (Vec<u8>, Result<Vec<u8>, Fault>)
    ensures read { IfOk result.1 (λ bytes. ReadNext S.left source.old source.new bytes.items) }
    ensures fault { IfErr result.1 (IsFaultOf ReadLog) }
    ensures cause { Blames ReadLog S.failures source.old source.new result.1 }
{
    let other = alloc;
    let mut make = || -> Vec<u8> { zeros(other, room) };
    let mut read = || -> Result<Vec<u8>, Fault>
        ensures read { IfOk result (λ bytes. ReadNext S.left source.entry.now source.exit.now
            bytes.items) }
        ensures fault { IfErr result (IsFaultOf ReadLog) }
        ensures cause { Blames ReadLog S.failures source.entry.now source.exit.now result }
    { read_next(alloc, source, half) };
    join_mut(rt, &mut make, &mut read)
}

/// Room for at least the beginning of a frame. The only error is `NoResource`.
fn with_spare(mut room: Vec<u8>) -> Result<Vec<u8>, Fault>
    ensures room { IfOk result (λ room. LONGEST_FRAME ≤ length room.items) }
    ensures err { IsOkUnless result NoResource }
{
    if room.len() < LONGEST_FRAME {
        room.resize(LONGEST_FRAME, 0)?;
    }
    Ok(room)
}

/// Puts bytes at the front of a room that is at least as long.
fn put(room: &mut [u8], bytes: &[u8])
    requires { length bytes.now ≤ length room.old }
    ensures { room.new ≡ bytes.now ++ drop (length bytes.now) room.old }
{
    room[..bytes.len()].copy_from_slice(bytes);
}

/// Puts bytes into a room, directly before the offset `upto`.
fn put_before(room: &mut [u8], upto: usize, bytes: &[u8])
    requires upto { upto ≤ length room.old }
    requires room { length bytes.now ≤ upto }
    ensures there { drop (upto - length bytes.now) room.new ≡ bytes.now ++ drop upto room.old }
    ensures length { length room.new ≡ length room.old }
{
    let (_, rest) = room.split_at_mut(upto - bytes.len());
    put(rest, bytes);
}

/// Cuts a front after its frames, which end at `end`, and puts what followed them before the bytes
/// of the back, which begin after room for it. Returns where the bytes of the back then begin.
fn move_rest(front: &mut Vec<u8>, end: usize, back: &mut Vec<u8>) -> usize
    requires end { end ≤ length front.old.items }
    requires short { length front.old.items < end + LONGEST_FRAME }
    requires room { LONGEST_FRAME ≤ length back.old.items }
    ensures front { front.new.items ≡ take end front.old.items }
    ensures back { drop result back.new.items ≡ rest_of end front.old.items back.old.items }
    ensures within { result ≤ length back.new.items }
{
    let (_, rest) = front.split_at(end);
    let from = LONGEST_FRAME - rest.len();
    put_before(back, LONGEST_FRAME, rest);
    front.truncate(end);
    from
}

/// The frames of a first half, found by other threads, while the caller reads the rest into the
/// back, after the room at its front.
fn first_beside_rest<S: Source, R: Threads + Sync>(
    rt: &R,
    alloc: Global,
    source: &mut S,
    front: &[u8],
    back: &mut Vec<u8>,
    threads: usize,
) -> (Result<Stretch, Fault>, Result<(), Fault>)
    requires front { BASED_HEADER_BYTES ≤ length front.now }
    requires room { LONGEST_FRAME ≤ length back.old.items }
    ensures frames { IfOk result.0 (BeginsCut front.now) }
    ensures short { IfOk result.0 (λ first. length front.now < first.end + LONGEST_FRAME) }
    ensures no_log { IfErr result.0 (λ e. (more : List ℕ) → Cause (front.now ++ more) e) }
    ensures read { OnOk result.1 (CameLast S.left source.old source.new back.new.items) }
    ensures end { OnOk result.1 (IsAtEnd (S.left source.new)) }
    ensures fault { IfErr result.1 (IsFaultOf ReadLog) }
    ensures cause { Blames ReadLog S.failures source.old source.new result.1 }
{
    let mut decode = || -> Result<Stretch, Fault>
        requires { BASED_HEADER_BYTES ≤ length front.now }
        ensures frames { IfOk result (BeginsCut front.entry.now) }
        ensures short { IfOk result (λ first. length front.entry.now < first.end + LONGEST_FRAME) }
        ensures no_log { IfErr result (λ e. (more : List ℕ) → Cause (front.entry.now ++ more) e) }
    { first_frames(rt, alloc, front, threads) };
    let mut read = || -> Result<(), Fault>
        requires { LONGEST_FRAME ≤ length back.now.items }
        ensures read { OnOk result
            (CameLast S.left source.entry.now source.exit.now back.exit.now.items) }
        ensures end { OnOk result (IsAtEnd (S.left source.exit.now)) }
        ensures fault { IfErr result (IsFaultOf ReadLog) }
        ensures cause { Blames ReadLog S.failures source.entry.now source.exit.now result }
    { read_last(source, back, LONGEST_FRAME) };
    join_mut(rt, &mut decode, &mut read)
}

/// The bytes of both parts, with what was found of the first.
fn text_in_parts(
    mut front: Vec<u8>,
    mut back: Vec<u8>,
    first: Result<Stretch, Fault>,
) -> (LogText, Known)
    requires frames { IfOk first (BeginsCut front.items) }
    requires short { IfOk first (λ first. length front.items < first.end + LONGEST_FRAME) }
    requires no_log { IfErr first (λ e. (more : List ℕ) → Cause (front.items ++ more) e) }
    requires room { LONGEST_FRAME ≤ length back.items }
    ensures text { text_of result.0 ≡ front.items ++ drop LONGEST_FRAME back.items }
    ensures is { IsLogText result.0 result.1 }
{
    match first {
        Ok(first) => {
            let from = move_rest(&mut front, first.end, &mut back);
            (LogText { front, back, from }, Known::Front(first))
        }
        Err(fault) => {
            let from = LONGEST_FRAME;
            (LogText { front, back, from }, Known::Fault(fault))
        }
    }
}

/// All bytes of a log in one part, with nothing known of them.
fn text_in_one(alloc: Global, front: Vec<u8>) -> (LogText, Known)
    ensures text { text_of result.0 ≡ front.items }
    ensures is { IsLogText result.0 result.1 }
{
    let back = Vec::new(alloc);
    (
        LogText {
            front,
            back,
            from: 0,
        },
        Known::Nothing,
    )
}

/// All bytes that a log's source has left, by its hint of how many there are, in two parts. One
/// thread fewer than there are decodes the first half while the caller reads the second.
fn read_parts<S: Source, R: Threads + Sync>(
    rt: &R,
    alloc: Global,
    source: &mut S,
    hint: usize,
    threads: usize,
) -> Result<(LogText, Known), Fault>
    ensures gave { IfOk result (λ x. Gave (S.left source.old) (text_of x.0)) }
    ensures is { IfOk result (λ x. IsLogText x.0 x.1) }
    ensures end { OnOk result (IsAtEnd (S.left source.new)) }
    ensures fault { IfErr result (IsFaultOf ReadLog) }
    ensures cause { Blames ReadLog S.failures source.old source.new result }
{
    let half = hint / 2;
    let room = (hint - half).saturating_add(LONGEST_FRAME + PIECE);
    let (back, front) = read_half(rt, alloc, source, half, room);
    let mut front = front?;
    let filled = front.len();
    if filled < BASED_HEADER_BYTES {
        read_last(source, &mut front, filled)?;
        return Ok(text_in_one(alloc, front));
    }
    let mut back = with_spare(back)?;
    let others = threads.saturating_sub(1);
    let (first, read) = first_beside_rest(rt, alloc, source, &front, &mut back, others);
    read?;
    Ok(text_in_parts(front, back, first))
}

/// All bytes that a log's source has left. They come in one part if there is one worker, or the
/// source hints at less than 32 MiB or more than 2 GiB. Otherwise they come in two, with what was
/// found of the first.
pub fn read_log_text<S: Source, R: Threads + Sync>(
    rt: &R,
    alloc: Global,
    source: &mut S,
    workers: u32,
) -> Result<(LogText, Known), Fault>
    ensures gave { IfOk result (λ x. Gave (S.left source.old) (text_of x.0)) }
    ensures is { IfOk result (λ x. IsLogText x.0 x.1) }
    ensures end { OnOk result (IsAtEnd (S.left source.new)) }
    ensures fault { IfErr result (IsFaultOf ReadLog) }
    ensures cause { Blames ReadLog S.failures source.old source.new result }
{
    let hint = source.hint();
    if workers > 1 && (LONG..=LONGEST).contains(&hint) {
        return read_parts(rt, alloc, source, hint, workers as usize);
    }
    Ok(text_in_one(alloc, read_source(alloc, source, Fault::ReadLog)?))
}

/// The log in these bytes, of which this is known, and how many bytes its torn tail has, with the
/// errors of [`read_log`](wal::read_log); found by this many threads.
pub fn decode<'a, R: Threads + Sync>(
    rt: &R,
    alloc: Global,
    text: &'a LogText,
    known: Known,
    threads: usize,
) -> Result<(Log<'a>, usize), Fault>
    requires { IsLogText text.now known }
    ensures { ReadsAs (text_of text.now) result }
{
    match known {
        Known::Nothing => read_log_by(rt, alloc, &text.front, threads),
        Known::Front(first) => {
            let (_, back) = text.back.split_at(text.from);
            read_log_behind(rt, alloc, &text.front, first, back, threads)
        }
        Known::Fault(fault) => Err(fault),
    }
}
