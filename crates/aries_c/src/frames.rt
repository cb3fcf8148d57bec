//! The frames of records, written to a buffer of the caller. Nothing is allocated.

ghost use Rattle.std.specs.Prelude.{◌<◌};
ghost use Rattle.page.specs.declared.profile.TheConstants.{SLOTS};
ghost use Rattle.log_laws.specs.Records.{CheckpointBegin};
ghost use Rattle.wal.specs.Spelling.{Fits};
ghost use Rattle.wal.specs.Content.{content};
ghost use Rattle.aries_c.specs.Record.{IsGivenWhole, update_of, compensation_of};
ghost use Rattle.aries_c.specs.Writing.{PutsFrame, PutsPlain};

use crate::Fault;
use crate::room::put;
use journal::{Image, compensation_size, put_compensation, put_update, update_size};
use page::Value;
use wal::{FrameHead, PLAIN_FRAME, Record, SMALLEST_FRAME};

/// How many bytes of a frame come before its body: those of the body's length.
const LENGTH_BYTES: usize = 4;

/// Whose record a change is, the LSN of that transaction's record before it, and the cell.
#[derive(Clone, Copy)]
pub struct Head {
    pub tx: u32,
    pub prev: u64,
    pub page: u32,
    pub slot: u8,
}

/// Writes the frame of an update, as `put` writes a text.
fn put_update_frame(
    lsn: u64,
    head: Head,
    before: &Option<Value>,
    after: &Option<Value>,
    out: &mut [u8],
    told: &mut usize,
) -> Fault
    requires tx { 0 < head.tx }
    requires slot { head.slot < SLOTS }
    ensures { PutsFrame (update_of head before.now after.now) lsn out.old out.new told.new result }
{
    let Head {
        tx,
        prev,
        page,
        slot,
    } = head;
    let before = Image::of(before);
    let after = Image::of(after);
    *told = update_size(&before, &after);
    if out.len() < *told {
        return Fault::no_room();
    }
    put_update(out, lsn, tx, prev, page, slot, &before, &after);
    Fault::none()
}

/// Writes the frame of a CLR, as `put` writes a text.
fn put_compensation_frame(
    lsn: u64,
    head: Head,
    undo_next: u64,
    image: &Option<Value>,
    out: &mut [u8],
    told: &mut usize,
) -> Fault
    requires tx { 0 < head.tx }
    requires slot { head.slot < SLOTS }
    ensures { PutsFrame (compensation_of head undo_next image.now) lsn out.old out.new
        told.new result }
{
    let Head {
        tx,
        prev,
        page,
        slot,
    } = head;
    let image = Image::of(image);
    *told = compensation_size(&image);
    if out.len() < *told {
        return Fault::no_room();
    }
    put_compensation(out, lsn, tx, prev, page, slot, undo_next, &image);
    Fault::none()
}

/// Writes the frame of a commit (kind 3), an abort (4), an end (5) or a prepare (8), as `put` writes
/// a text.
fn put_plain_frame(
    lsn: u64,
    kind: u8,
    tx: u32,
    prev: u64,
    out: &mut [u8],
    told: &mut usize,
) -> Fault
    ensures { PutsPlain kind tx prev lsn out.old out.new told.new result }
{
    let head = FrameHead {
        length: (PLAIN_FRAME - LENGTH_BYTES) as u32,
        kind,
        lsn,
    };
    put(&head.with_plain(tx, prev), out, told)
}

/// Writes the frame of a checkpoint begin, as `put` writes a text.
fn put_begin_frame(lsn: u64, out: &mut [u8], told: &mut usize) -> Fault
    ensures { PutsFrame CheckpointBegin lsn out.old out.new told.new result }
{
    let head = FrameHead {
        length: (SMALLEST_FRAME - LENGTH_BYTES) as u32,
        kind: 6,
        lsn,
    };
    put(&head.bytes(), out, told)
}

/// Writes the frame of a record, which is not a checkpoint end, as `put` writes a text.
pub fn put_record(logged: &Record, lsn: u64, out: &mut [u8], told: &mut usize) -> Fault
    requires fits { Fits (content logged.now) }
    requires whole { IsGivenWhole (content logged.now) }
    ensures { PutsFrame (content logged.now) lsn out.old out.new told.new result }
{
    match logged {
        Record::Update {
            tx,
            prev,
            page,
            slot,
            before,
            after,
        } => {
            let head = Head {
                tx: *tx,
                prev: *prev,
                page: *page,
                slot: *slot,
            };
            put_update_frame(lsn, head, before, after, out, told)
        }
        Record::Compensation {
            tx,
            prev,
            page,
            slot,
            undo_next,
            image,
        } => {
            let head = Head {
                tx: *tx,
                prev: *prev,
                page: *page,
                slot: *slot,
            };
            put_compensation_frame(lsn, head, *undo_next, image, out, told)
        }
        Record::Commit { tx, prev } => put_plain_frame(lsn, 3, *tx, *prev, out, told),
        Record::Abort { tx, prev } => put_plain_frame(lsn, 4, *tx, *prev, out, told),
        Record::End { tx, prev } => put_plain_frame(lsn, 5, *tx, *prev, out, told),
        Record::Prepare { tx, prev } => put_plain_frame(lsn, 8, *tx, *prev, out, told),
        Record::CheckpointBegin => put_begin_frame(lsn, out, told),
        Record::CheckpointEnd { .. } => unreachable!(),
    }
}
