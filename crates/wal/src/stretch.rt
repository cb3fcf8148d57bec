//! Stretches of a log, which several threads read at once: each guesses where a frame begins.

ghost use Rattle.std.specs.Prelude.{◌≡◌, ◌≤◌, ◌<◌, ◌+◌, ◌^◌, ℕ, List, All, Ok, Some, length, IfOk, IfSome, IsOkUnless};
ghost use Rattle.page.specs.declared.fault.Fault.TheVariants.{NoResource};
ghost use Rattle.wal.specs.Frames.{next_at};
ghost use Rattle.wal.specs.Stretches.{IsStretch, IfStretch, LeavesRoom, HasFrame, HasNoFrame};

use crate::field::u64_at;
use crate::next::seen_at;
use crate::offsets::Offsets;
use page::Fault;
use std::alloc::Global;
use std::thread;
use std::thread::Threads;

/// A stretch with fewer bytes than this is not worth a thread.
pub const SMALLEST_STRETCH: usize = 1 << 16;

/// The largest LSN that a guess takes. Each record after it in a log has room for its LSN.
pub const LARGEST_GUESS: u64 = 3 << 62;

/// Frames one after the other in some bytes. The first begins at `begin` and has LSN `lsn`; the
/// last ends at `end`.
#[derive(Drop)]
pub struct Stretch {
    pub lsn: u64,
    pub begin: usize,
    pub offsets: Offsets,
    pub end: usize,
}

impl Stretch {
    /// No frames yet, in bytes where the first frame will begin at `begin` and have this LSN. There
    /// is room for the frames of `room` bytes.
    pub fn none(alloc: Global, lsn: u64, begin: usize, room: usize) -> Stretch
        requires { LeavesRoom lsn }
        ensures frames { (bytes : List ℕ) → begin ≤ length bytes → IsStretch bytes result }
        ensures begins { (result.lsn ≡ lsn) × (result.begin ≡ begin) }
        ensures empty { (length result.offsets ≡ 0) × (result.end ≡ begin) }
    {
        Stretch {
            lsn,
            begin,
            offsets: Offsets::with_room(alloc, room),
            end: begin,
        }
    }
}

/// A stretch and the frames after it, until a frame ends at `upto` or later, or the bytes are not a
/// frame. All frames of all logs are read here. The only error is `NoResource`.
pub fn read_on(bytes: &[u8], known: Stretch, upto: usize) -> Result<Stretch, Fault>
    requires known { IsStretch bytes.now known }
    ensures frames { IfOk result (IsStretch bytes.now) }
    ensures begins { IfOk result (λ x. (x.lsn ≡ known.lsn) × (x.begin ≡ known.begin)) }
    ensures end { IfOk result (λ x. x.end < upto
        → HasNoFrame bytes.now (x.lsn + length x.offsets) x.end) }
    ensures err { IsOkUnless result NoResource }
{
    // For the proof: how many bytes there can be.
    let _len = bytes.len();
    let mut next = known.lsn + known.offsets.len() as u64;
    let Stretch {
        lsn,
        begin,
        mut offsets,
        mut end,
    } = known;
    while end < upto {
        let (_, rest) = bytes.split_at(end);
        let Ok(found) = seen_at(next, end, rest) else {
            break;
        };
        let Some((size, _)) = found else {
            break;
        };
        offsets.push(end)?;
        next += 1;
        end += size;
    }
    Ok(Stretch {
        lsn,
        begin,
        offsets,
        end,
    })
}

/// The LSN of the frame at the front, if these bytes begin with one.
fn lsn_in_front(bytes: &[u8]) -> Option<u64>
    ensures found { IfSome result (λ lsn. HasFrame bytes.now lsn 0) }
    ensures low { IfSome result LeavesRoom }
{
    let (_, body) = bytes.split_at_checked(5)?;
    let (lsn, _) = u64_at(body)?;
    if lsn > LARGEST_GUESS {
        return None;
    }
    match seen_at(lsn, 0, bytes) {
        Ok(Some(_)) => Some(lsn),
        _ => None,
    }
}

/// The first place from `from` on and before `upto` that looks like the beginning of a frame, and
/// the LSN of that frame. The bytes of a value may look like that too, so what is read from there
/// counts only if a frame of the log ends there. An LSN above 3 * 2^62 is not taken.
pub fn guess(bytes: &[u8], from: usize, upto: usize) -> Option<(u64, usize)>
    requires { upto ≤ length bytes.now }
    ensures found { IfSome result (λ x. HasFrame bytes.now x.0 x.1) }
    ensures within { IfSome result (λ x. (from ≤ x.1) × (x.1 < upto)) }
    ensures low { IfSome result (λ x. LeavesRoom x.0) }
{
    for begin in from..upto {
        let (_, rest) = bytes.split_at(begin);
        if let Some(lsn) = lsn_in_front(rest) {
            return Some((lsn, begin));
        }
    }
    None
}

/// The stretch that a thread reads. The bytes from `begin` on have `count` shares of about the same
/// size; this function reads the frames that begin in the share with this number, if one seems to
/// begin there.
fn guessed_stretch(
    alloc: Global,
    begin: usize,
    bytes: &[u8],
    count: usize,
    number: usize,
) -> Result<Option<Stretch>, Fault>
    requires number { number < count }
    requires begin { begin ≤ length bytes.now }
    ensures { IfStretch bytes.now result }
{
    let share = (bytes.len() - begin) / count;
    let from = begin + share * number;
    let Some((lsn, begin)) = guess(bytes, from, from + share) else {
        return Ok(None);
    };
    // The others are appended to the first.
    let room = if number == 0 { bytes.len() } else { share };
    let none = Stretch::none(alloc, lsn, begin, room);
    Ok(Some(read_on(bytes, none, from + share)?))
}

/// What the threads have read, if there was memory for all of it.
fn all_of(
    alloc: Global,
    bytes: &[u8],
    results: Vec<Result<Option<Stretch>, Fault>>,
) -> Result<Vec<Stretch>, Fault>
    requires { All (IfStretch bytes.now) results.items }
    ensures each { IfOk result (λ stretches. All (IsStretch bytes.now) stretches.items) }
    ensures err { IsOkUnless result NoResource }
{
    let mut stretches = Vec::new(alloc);
    for result in results {
        if let Some(stretch) = result? {
            stretches.push(stretch)?;
        }
    }
    Ok(stretches)
}

/// The stretches after `begin` that `threads` threads read, of about the same length, in order. The
/// only error is `NoResource`.
pub fn stretches_of<R: Threads + Sync>(
    rt: &R,
    alloc: Global,
    begin: usize,
    bytes: &[u8],
    threads: usize,
) -> Result<Vec<Stretch>, Fault>
    requires begin { begin ≤ length bytes.now }
    ensures each { IfOk result (λ stretches. All (IsStretch bytes.now) stretches.items) }
    ensures err { IsOkUnless result NoResource }
{
    let worker = |number: usize| -> Result<Option<Stretch>, Fault>
        requires { (number < threads) × (begin ≤ length bytes.now) }
        ensures { IfStretch bytes.entry.now result }
    { guessed_stretch(alloc, begin, bytes, threads, number) };
    let results = thread::map_indices(rt, alloc, threads, &worker)?;
    all_of(alloc, bytes, results)
}
