//! The frame at the front: whether there is one, how many bytes it takes, and its record at a
//! glance. All of it is read, but no image and no table is kept.

ghost use Rattle.std.specs.Prelude.{◌≡◌, option_map};
ghost use Rattle.wal.specs.Reading.{update_at, compensation_at, checkpoint_at, fields_at, body_at};
ghost use Rattle.wal.specs.Frames.{next_at, size_in};
ghost use Rattle.wal.specs.Glances.{glanced, seen_in};

use crate::field::{image_at, plain_at, slot_at, u32_at, u64_at};
use crate::frame::checkpoint_at;
use crate::glance::Glance;
use crate::sizes::{LARGEST_BODY, SMALLEST_BODY};
use page::Fault;

/// An update at a glance, and the bytes after its fields.
#[inline(always)]
#[tactic(auto, unfolding(crate::specs::Reading::update_at))]
fn update_seen(bytes: &[u8]) -> Option<(Glance, &[u8])>
    ensures { option_map (λ x. (x.0, x.1.now)) result ≡ glanced (update_at bytes.now) }
{
    let (tx, _, rest) = plain_at(bytes)?;
    let (page, rest) = u32_at(rest)?;
    let (slot, rest) = slot_at(rest)?;
    let (_, rest) = image_at(rest)?;
    let (_, rest) = image_at(rest)?;
    Some((Glance::Update { tx, page, slot }, rest))
}

/// A CLR at a glance, and the bytes after its fields.
#[inline(always)]
#[tactic(auto, unfolding(crate::specs::Reading::compensation_at))]
fn compensation_seen(bytes: &[u8]) -> Option<(Glance, &[u8])>
    ensures { option_map (λ x. (x.0, x.1.now)) result ≡ glanced (compensation_at bytes.now) }
{
    let (tx, _, rest) = plain_at(bytes)?;
    let (page, rest) = u32_at(rest)?;
    let (slot, rest) = slot_at(rest)?;
    let (undo_next, rest) = u64_at(rest)?;
    let (_, rest) = image_at(rest)?;
    let glance = Glance::Compensation {
        tx,
        page,
        slot,
        undo_next,
    };
    Some((glance, rest))
}

/// The end of a checkpoint at a glance, and the bytes after its fields. A function of its own: the
/// loop over frames takes fewer instructions so.
#[inline(always)]
#[tactic(auto, using(crate::proofs::NextFrame::checkpoint_some))]
fn checkpoint_seen(bytes: &[u8]) -> Option<(Glance, &[u8])>
    ensures { option_map (λ x. (x.0, x.1.now)) result ≡ glanced (checkpoint_at bytes.now) }
{
    let (_, rest) = checkpoint_at(bytes)?;
    Some((Glance::Checkpoint, rest))
}

/// A record of this kind at a glance, and the bytes after its fields.
#[inline(always)]
#[tactic(auto, unfolding(crate::specs::Reading::fields_at, crate::specs::Reading::plain_record_at))]
fn fields_seen(kind: u8, bytes: &[u8]) -> Option<(Glance, &[u8])>
    ensures { option_map (λ x. (x.0, x.1.now)) result ≡ glanced (fields_at kind bytes.now) }
{
    match kind {
        1 => update_seen(bytes),
        2 => compensation_seen(bytes),
        3 => {
            let (tx, _, rest) = plain_at(bytes)?;
            Some((Glance::Commit { tx }, rest))
        }
        4 => {
            let (tx, _, rest) = plain_at(bytes)?;
            Some((Glance::Abort { tx }, rest))
        }
        5 => {
            let (tx, _, rest) = plain_at(bytes)?;
            Some((Glance::End { tx }, rest))
        }
        6 => Some((Glance::Checkpoint, bytes)),
        7 => checkpoint_seen(bytes),
        8 => {
            let (tx, _, rest) = plain_at(bytes)?;
            Some((Glance::Prepare { tx }, rest))
        }
        _ => None,
    }
}

/// The record that all of these bytes encode, at a glance, and its LSN.
#[inline(always)]
#[tactic(auto, unfolding(crate::specs::Reading::body_at))]
fn body_seen(bytes: &[u8]) -> Option<(Glance, u64)>
    ensures { result ≡ glanced (body_at bytes.now) }
{
    match bytes {
        [] => None,
        [kind, rest @ ..] => {
            let (lsn, rest) = u64_at(rest)?;
            let (glance, rest) = fields_seen(*kind, rest)?;
            if !rest.is_empty() {
                return None;
            }
            Some((glance, lsn))
        }
    }
}

/// How many bytes the frame at the front takes, which must have this LSN, and its record at a
/// glance. `None` after the last whole frame.
#[inline(always)]
#[tactic(auto, using(crate::proofs::NextFrame::seen_of_none, crate::proofs::NextFrame::seen_of_other, crate::proofs::NextFrame::seen_of_right), unfolding(crate::specs::Frames::next_at))]
pub fn seen_at(lsn: u64, offset: usize, bytes: &[u8]) -> Result<Option<(usize, Glance)>, Fault>
    ensures { result ≡ seen_in (next_at lsn offset bytes.now) }
{
    if bytes.len() < 4 {
        return Ok(None);
    }
    let (front, rest) = bytes.split_at(4);
    let size = u32::from_be_bytes([front[0], front[1], front[2], front[3]]) as usize;
    if size < SMALLEST_BODY || size > LARGEST_BODY {
        return Err(Fault::BadLength(offset as u64));
    }
    if rest.len() < size {
        return Ok(None);
    }
    match body_seen(&rest[..size]) {
        None => Err(Fault::BadRecord(offset as u64)),
        Some((glance, own)) => {
            if own != lsn {
                return Err(Fault::BadLsn(offset as u64));
            }
            Ok(Some((4 + size, glance)))
        }
    }
}

/// How many bytes the frame at the front takes, which must have this LSN. `None` after the last
/// whole frame.
#[inline(always)]
#[tactic(auto, using(crate::proofs::NextFrame::size_of_fault, crate::proofs::NextFrame::size_of_no_frame, crate::proofs::NextFrame::size_of_frame))]
pub fn next_at(lsn: u64, offset: usize, bytes: &[u8]) -> Result<Option<usize>, Fault>
    ensures { result ≡ size_in (next_at lsn offset bytes.now) }
{
    match seen_at(lsn, offset, bytes) {
        Err(e) => Err(e),
        Ok(None) => Ok(None),
        Ok(Some((size, _))) => Ok(Some(size)),
    }
}
