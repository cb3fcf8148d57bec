//! The stretches of a log joined.

ghost use Rattle.std.specs.Prelude.{◌≡◌, ◌≤◌, ◌+◌, All, length, IfOk, IsOkUnless};
ghost use Rattle.page.specs.declared.fault.Fault.TheVariants.{NoResource};
ghost use Rattle.wal.specs.Stretches.{IsStretch, LeavesRoom, HasNoFrame};

use crate::stretch::{SMALLEST_STRETCH, Stretch, read_on, stretches_of};
use page::Fault;
use std::alloc::Global;
use std::thread::Threads;

/// A stretch, followed by the frames of the next one if that begins at the offset where the first
/// ends, and with the next LSN. If not, those frames are left out. The only error is `NoResource`.
fn take_stretch(bytes: &[u8], known: Stretch, next: Stretch) -> Result<Stretch, Fault>
    requires known { IsStretch bytes.now known }
    requires next { IsStretch bytes.now next }
    ensures frames { IfOk result (IsStretch bytes.now) }
    ensures begins { IfOk result (λ x. (x.lsn ≡ known.lsn) × (x.begin ≡ known.begin)) }
    ensures err { IsOkUnless result NoResource }
{
    // For the proof: how many bytes there can be.
    let _len = bytes.len();
    if next.begin != known.end || next.lsn != known.lsn + known.offsets.len() as u64 {
        return Ok(known);
    }
    let mut offsets = known.offsets;
    offsets.append(next.offsets)?;
    Ok(Stretch {
        lsn: known.lsn,
        begin: known.begin,
        offsets,
        end: next.end,
    })
}

/// The frames from `begin` on, taken from stretches of them; the first frame must have this LSN. If
/// a stretch does not begin directly after the frames before it, the frames up to it are read
/// first. The only error is `NoResource`.
fn join_stretches(
    alloc: Global,
    bytes: &[u8],
    lsn: u64,
    begin: usize,
    stretches: Vec<Stretch>,
) -> Result<Stretch, Fault>
    requires begin { begin ≤ length bytes.now }
    requires lsn { LeavesRoom lsn }
    requires each { All (IsStretch bytes.now) stretches.items }
    ensures frames { IfOk result (IsStretch bytes.now) }
    ensures begins { IfOk result (λ x. (x.lsn ≡ lsn) × (x.begin ≡ begin)) }
    ensures end { IfOk result (λ x. HasNoFrame bytes.now (x.lsn + length x.offsets) x.end) }
    ensures err { IsOkUnless result NoResource }
{
    let mut known = Stretch::none(alloc, lsn, begin, 0);
    for stretch in stretches {
        known = read_on(bytes, known, stretch.begin)?;
        known = take_stretch(bytes, known, stretch)?;
    }
    read_on(bytes, known, bytes.len())
}

/// The frames from `begin` on, up to the first bytes that are not a frame; the first frame must
/// have this LSN. If there are many bytes, they are read by this many threads: each takes a share
/// of the bytes, guesses where its first frame begins, and reads from there. What it read counts if
/// the frames before it end exactly there, with the LSN before; otherwise those bytes are read
/// again. The only error is `NoResource`.
pub fn stretch_by<R: Threads + Sync>(
    rt: &R,
    alloc: Global,
    bytes: &[u8],
    lsn: u64,
    begin: usize,
    threads: usize,
) -> Result<Stretch, Fault>
    requires begin { begin ≤ length bytes.now }
    requires lsn { LeavesRoom lsn }
    ensures frames { IfOk result (IsStretch bytes.now) }
    ensures begins { IfOk result (λ x. (x.lsn ≡ lsn) × (x.begin ≡ begin)) }
    ensures end { IfOk result (λ x. HasNoFrame bytes.now (x.lsn + length x.offsets) x.end) }
    ensures err { IsOkUnless result NoResource }
{
    let threads = threads.min(bytes.len() / SMALLEST_STRETCH);
    if threads < 2 {
        return stretch_alone(alloc, bytes, lsn, begin);
    }
    let stretches = stretches_of(rt, alloc, begin, bytes, threads)?;
    join_stretches(alloc, bytes, lsn, begin, stretches)
}

/// As [`stretch_by`], in the thread of the caller.
pub fn stretch_alone(alloc: Global, bytes: &[u8], lsn: u64, begin: usize) -> Result<Stretch, Fault>
    requires begin { begin ≤ length bytes.now }
    requires lsn { LeavesRoom lsn }
    ensures frames { IfOk result (IsStretch bytes.now) }
    ensures begins { IfOk result (λ x. (x.lsn ≡ lsn) × (x.begin ≡ begin)) }
    ensures end { IfOk result (λ x. HasNoFrame bytes.now (x.lsn + length x.offsets) x.end) }
    ensures err { IsOkUnless result NoResource }
{
    let none = Stretch::none(alloc, lsn, begin, bytes.len());
    read_on(bytes, none, bytes.len())
}
