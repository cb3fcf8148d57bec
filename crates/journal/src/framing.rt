//! The frames of records, written into a buffer. Nothing is allocated.

ghost use Rattle.std.specs.Prelude.{◌≡◌, ◌≤◌, ◌<◌, ◌+◌, length};
ghost use Rattle.page.specs.declared.profile.TheConstants.{SLOTS};
ghost use Rattle.wal.specs.declared.sizes.TheConstants.{PLAIN_FRAME};
ghost use Rattle.wal.specs.Spelling.{image, Fits};
ghost use Rattle.journal.specs.Arrays.{image_of};
ghost use Rattle.journal.specs.Writing.{Continues, IsWritten, update_bytes, clr_bytes, update_with, clr_with, WritesPlain, PlainFits};

use crate::image::Image;
use page::VALUE_BYTES;
use wal::{ABSENT, CELL_HEAD, FrameHead, LSN_BYTES, PLAIN_FRAME};

/// How many bytes of a frame come before its body: those of the body's length.
pub const LENGTH_BYTES: usize = 4;

/// How many bytes the longest frame of an update or a CLR takes.
pub const LONGEST_CHANGE: usize = CELL_HEAD + 2 * (1 + VALUE_BYTES);

/// How many bytes the longest frame of a CLR takes, which is longer than that of an abort or an end.
pub const LONGEST_UNDO: usize = CELL_HEAD + LSN_BYTES + 1 + VALUE_BYTES;

/// Writes bytes at an offset.
pub fn put(out: &mut [u8], at: usize, bytes: &[u8])
    requires { at + length bytes.now ≤ length out.old }
    ensures { Continues bytes.now at out.old out.new }
{
    out[at..at + bytes.len()].copy_from_slice(bytes);
}

/// Writes an image at an offset.
fn put_image(out: &mut [u8], at: usize, written: &Image)
    requires { at + length (image (image_of written.now)) ≤ length out.old }
    ensures { Continues (image (image_of written.now)) at out.old out.new }
{
    match written.bytes() {
        Some(bytes) => {
            put(out, at, &[bytes.len() as u8]);
            put(out, at + 1, bytes);
        }
        None => put(out, at, &[ABSENT]),
    }
}

/// How many bytes the frame of an update with these images takes.
pub fn update_size(before: &Image, after: &Image) -> usize
    ensures size { result ≡ update_bytes before.now after.now }
    ensures short { result ≤ LONGEST_CHANGE }
{
    CELL_HEAD + before.frame_len() + after.frame_len()
}

/// Writes the frame of an update to the front of the buffer. Returns its length in bytes, which is
/// that of [`update_size`].
pub fn put_update(
    out: &mut [u8],
    lsn: u64,
    tx: u32,
    prev: u64,
    page: u32,
    slot: u8,
    before: &Image,
    after: &Image,
) -> usize
    requires room { update_bytes before.now after.now ≤ length out.old }
    requires tx { 0 < tx }
    requires slot { slot < SLOTS }
    ensures written { IsWritten (update_with tx prev page slot before.now after.now)
        lsn out.old out.new result }
    ensures fits { Fits (update_with tx prev page slot before.now after.now) }
{
    let size = update_size(before, after);
    let head = FrameHead {
        length: (size - LENGTH_BYTES) as u32,
        kind: 1,
        lsn,
    };
    put(out, 0, &head.with_cell(tx, prev, page, slot));
    put_image(out, CELL_HEAD, before);
    put_image(out, CELL_HEAD + before.frame_len(), after);
    size
}

/// How many bytes the frame of a CLR with this image takes.
pub fn compensation_size(restored: &Image) -> usize
    ensures size { result ≡ clr_bytes restored.now }
    ensures short { result ≤ LONGEST_UNDO }
{
    CELL_HEAD + LSN_BYTES + restored.frame_len()
}

/// Writes the frame of a CLR to the front of the buffer. Returns its length in bytes, which is that
/// of [`compensation_size`].
pub fn put_compensation(
    out: &mut [u8],
    lsn: u64,
    tx: u32,
    prev: u64,
    page: u32,
    slot: u8,
    undo_next: u64,
    restored: &Image,
) -> usize
    requires room { clr_bytes restored.now ≤ length out.old }
    requires tx { 0 < tx }
    requires slot { slot < SLOTS }
    ensures written { IsWritten (clr_with tx prev page slot undo_next restored.now)
        lsn out.old out.new result }
    ensures fits { Fits (clr_with tx prev page slot undo_next restored.now) }
{
    let size = compensation_size(restored);
    let head = FrameHead {
        length: (size - LENGTH_BYTES) as u32,
        kind: 2,
        lsn,
    };
    put(out, 0, &head.with_cell(tx, prev, page, slot));
    put(out, CELL_HEAD, &undo_next.to_be_bytes());
    put_image(out, CELL_HEAD + LSN_BYTES, restored);
    size
}

/// Writes the frame of a commit (kind 3), an abort (4), an end (5) or a prepare (8) to the front of
/// the buffer. It takes 25 bytes.
pub fn put_plain(out: &mut [u8], lsn: u64, kind: u8, tx: u32, prev: u64)
    requires room { PLAIN_FRAME ≤ length out.old }
    requires tx { 0 < tx }
    ensures written { WritesPlain kind tx prev lsn out.old out.new }
    ensures fits { PlainFits kind tx prev }
{
    let head = FrameHead {
        length: (PLAIN_FRAME - LENGTH_BYTES) as u32,
        kind,
        lsn,
    };
    put(out, 0, &head.with_plain(tx, prev));
}
