//! Frames: a record in bytes, read and written.

ghost use Rattle.std.specs.Prelude.{◌≡◌, ◌++◌, ◌∷◌, [], ◌<◌, true, OnOk, OnErr, length, is_some, option_map, IsOkUnless};
ghost use Rattle.page.specs.declared.fault.Fault.TheVariants.{NoResource};
ghost use Rattle.std.specs.Int.{to_be_bytes};
ghost use Rattle.wal.specs.Reading.{update_at, compensation_at, transactions_at, dirties_at, checkpoint_at, fields_at, body_at};
ghost use Rattle.wal.specs.Spelling.{image, frame, kind_of, fields, Fits};
ghost use Rattle.wal.specs.Head.{head_text};
ghost use Rattle.wal.specs.Content.{content, Keeps, shown};

use crate::field::{
    image_at, plain_at, put_dirties, put_entries, put_image, slot_at, u32_at, u64_at,
};
use crate::frame_size::body_len;
use crate::head::FrameHead;
use crate::record::Record;
use crate::view;
use crate::view::{DirtyTable, RecordView, TransactionTable};
use page::{Fault, PAGES, TRANSACTIONS};
use std::alloc::{AllocError, Allocator};

/// An update whose fields are at the front. `None` if these bytes are none.
#[inline(always)]
#[tactic(auto, unfolding(crate::specs::Reading::update_at))]
fn update_at(bytes: &[u8]) -> Option<RecordView>
    ensures { option_map shown result ≡ option_map (λ x. x.0) (update_at bytes.now) }
{
    let (tx, prev, rest) = plain_at(bytes)?;
    let (page, rest) = u32_at(rest)?;
    let (slot, rest) = slot_at(rest)?;
    let (before, rest) = image_at(rest)?;
    let (after, _) = image_at(rest)?;
    Some(RecordView::Update {
        tx,
        prev,
        page,
        slot,
        before,
        after,
    })
}

/// A CLR whose fields are at the front. `None` if these bytes are none.
#[inline(always)]
#[tactic(auto, unfolding(crate::specs::Reading::compensation_at))]
fn compensation_at(bytes: &[u8]) -> Option<RecordView>
    ensures { option_map shown result ≡ option_map (λ x. x.0) (compensation_at bytes.now) }
{
    let (tx, prev, rest) = plain_at(bytes)?;
    let (page, rest) = u32_at(rest)?;
    let (slot, rest) = slot_at(rest)?;
    let (undo_next, rest) = u64_at(rest)?;
    let (image, _) = image_at(rest)?;
    Some(RecordView::Compensation {
        tx,
        prev,
        page,
        slot,
        undo_next,
        image,
    })
}

/// The transaction table of a checkpoint end at the front, and the bytes after it. `None` if it
/// would have too many entries, or if these bytes are none.
#[tactic(auto, unfolding(crate::specs::Reading::transactions_at))]
fn transactions_at(bytes: &[u8]) -> Option<(TransactionTable, &[u8])>
    ensures { option_map (λ x. (x.0, x.1.now)) result ≡ transactions_at bytes.now }
{
    let (count, rest) = u32_at(bytes)?;
    if count as usize > TRANSACTIONS {
        return None;
    }
    view::entries_at(count, rest)
}

/// The dirty page table of a checkpoint end at the front, and the bytes after it. `None` if it
/// would have too many entries, or if these bytes are none.
#[tactic(auto, unfolding(crate::specs::Reading::dirties_at))]
fn dirties_at(bytes: &[u8]) -> Option<(DirtyTable, &[u8])>
    ensures { option_map (λ x. (x.0, x.1.now)) result ≡ dirties_at bytes.now }
{
    let (count, rest) = u32_at(bytes)?;
    if count as usize > PAGES {
        return None;
    }
    view::dirties_at(count, rest)
}

/// The fields of a checkpoint end at the front. The function is not inlined, since reading the
/// tables takes long.
#[inline(never)]
#[tactic(auto, unfolding(crate::specs::Reading::checkpoint_at))]
pub fn checkpoint_at(bytes: &[u8]) -> Option<(RecordView, &[u8])>
    ensures { option_map (λ x. (shown x.0, x.1.now)) result ≡ checkpoint_at bytes.now }
{
    let (begin, rest) = u64_at(bytes)?;
    let (transactions, rest) = transactions_at(rest)?;
    let (dirty, rest) = dirties_at(rest)?;
    let view = RecordView::CheckpointEnd {
        begin,
        transactions,
        dirty,
    };
    Some((view, rest))
}

/// The record of this kind at the front. Each arm makes the record where it is wanted: copying a
/// record that was just put together waits until its fields are written.
#[inline(always)]
#[tactic(auto, unfolding(crate::specs::Reading::fields_at, crate::specs::Reading::plain_record_at))]
fn fields_at(kind: u8, bytes: &[u8]) -> Option<RecordView>
    ensures { option_map shown result ≡ option_map (λ x. x.0) (fields_at kind bytes.now) }
{
    match kind {
        1 => update_at(bytes),
        2 => compensation_at(bytes),
        3 => {
            let (tx, prev, _) = plain_at(bytes)?;
            Some(RecordView::Commit { tx, prev })
        }
        4 => {
            let (tx, prev, _) = plain_at(bytes)?;
            Some(RecordView::Abort { tx, prev })
        }
        5 => {
            let (tx, prev, _) = plain_at(bytes)?;
            Some(RecordView::End { tx, prev })
        }
        6 => Some(RecordView::CheckpointBegin),
        7 => {
            let (view, _) = checkpoint_at(bytes)?;
            Some(view)
        }
        8 => {
            let (tx, prev, _) = plain_at(bytes)?;
            Some(RecordView::Prepare { tx, prev })
        }
        _ => None,
    }
}

/// The record whose body these bytes are; `None` if they are no such body.
#[inline(always)]
#[tactic(auto, unfolding(crate::specs::Reading::body_at))]
pub fn body_view(bytes: &[u8]) -> Option<RecordView>
    requires { 0 < length bytes.now → is_some (body_at bytes.now) ≡ true }
    ensures { option_map shown result ≡ option_map (λ x. x.0) (body_at bytes.now) }
{
    match bytes {
        [] => None,
        [kind, rest @ ..] => {
            let (_, rest) = u64_at(rest)?;
            fields_at(*kind, rest)
        }
    }
}

/// Appends the head of a frame, and the fields of its record.
fn put_fields<A: Allocator>(
    out: &mut Vec<u8, A>,
    head: FrameHead,
    logged: &Record,
) -> Result<(), AllocError>
    requires { Fits (content logged.now) }
    ensures ok { OnOk result (out.new.items
        ≡ out.old.items ++ (head_text head ++ fields (content logged.now))) }
    ensures kept { Keeps out.old.items out.new.items }
{
    match logged {
        Record::Update {
            tx,
            prev,
            page,
            slot,
            before,
            after,
        } => {
            out.extend_from_slice(&head.with_cell(*tx, *prev, *page, *slot))?;
            put_image(out, before)?;
            put_image(out, after)?;
        }
        Record::Compensation {
            tx,
            prev,
            page,
            slot,
            undo_next,
            image,
        } => {
            out.extend_from_slice(&head.with_cell(*tx, *prev, *page, *slot))?;
            out.extend_from_slice(&undo_next.to_be_bytes())?;
            put_image(out, image)?;
        }
        Record::Commit { tx, prev } => out.extend_from_slice(&head.with_plain(*tx, *prev))?,
        Record::Abort { tx, prev } => out.extend_from_slice(&head.with_plain(*tx, *prev))?,
        Record::End { tx, prev } => out.extend_from_slice(&head.with_plain(*tx, *prev))?,
        Record::Prepare { tx, prev } => out.extend_from_slice(&head.with_plain(*tx, *prev))?,
        Record::CheckpointBegin => out.extend_from_slice(&head.bytes())?,
        Record::CheckpointEnd {
            begin,
            transactions,
            dirty,
        } => {
            out.extend_from_slice(&head.bytes())?;
            out.extend_from_slice(&begin.to_be_bytes())?;
            put_entries(out, transactions)?;
            put_dirties(out, dirty)?;
        }
    }
    Ok(())
}

/// The number of a record's kind in its frame.
fn kind_of(logged: &Record) -> u8
    ensures { result ≡ kind_of (content logged.now) }
{
    match logged {
        Record::Update { .. } => 1,
        Record::Compensation { .. } => 2,
        Record::Commit { .. } => 3,
        Record::Abort { .. } => 4,
        Record::End { .. } => 5,
        Record::CheckpointBegin => 6,
        Record::CheckpointEnd { .. } => 7,
        Record::Prepare { .. } => 8,
    }
}

/// Appends the frame of a record that has an encoding. On an error the bytes from before are still
/// in front, and some of the frame may be after them.
#[tactic(auto, using(crate::proofs::Keeping::keeps_same, crate::proofs::Keeping::keeps_then, crate::proofs::Keeping::keeps_if))]
fn put_frame<A: Allocator>(
    out: &mut Vec<u8, A>,
    logged: &Record,
    lsn: u64,
) -> Result<(), AllocError>
    requires { Fits (content logged.now) }
    ensures ok { OnOk result (out.new.items ≡ out.old.items ++ frame (content logged.now) lsn) }
    ensures kept { Keeps out.old.items out.new.items }
{
    let head = FrameHead {
        length: body_len(logged),
        kind: kind_of(logged),
        lsn,
    };
    out.reserve(4 + head.length as usize)?;
    put_fields(out, head, logged)?;
    Ok(())
}

/// Appends the only encoding of the record with this LSN. `Record::is_writable` returns whether
/// there is one.
///
/// On the error NoResource, the vector was refused memory and keeps the bytes that it had.
#[tactic(auto, using(crate::proofs::Keeping::cut_back))]
pub fn write_frame<A: Allocator>(
    logged: &Record,
    lsn: u64,
    out: &mut Vec<u8, A>,
) -> Result<(), Fault>
    requires writable { Fits (content logged.now) }
    requires lsn { 0 < lsn }
    ensures ok { OnOk result (out.new.items ≡ out.old.items ++ frame (content logged.now) lsn) }
    ensures kept { OnErr result (out.new.items ≡ out.old.items) }
    ensures err { IsOkUnless result NoResource }
{
    let len = out.len();
    match put_frame(out, logged, lsn) {
        Ok(()) => Ok(()),
        Err(_) => {
            out.truncate(len);
            Err(Fault::NoResource)
        }
    }
}
