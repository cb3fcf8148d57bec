//! How many bytes the frame of a record takes.

ghost use Rattle.std.specs.Prelude.{◌≡◌, ◌≤◌, ◌+◌, ℕ, IfSome, length, option_map};
ghost use Rattle.page.specs.declared.profile.TheConstants.{VALUE_BYTES};
ghost use Rattle.wal.specs.Content.{content, shown};
ghost use Rattle.wal.specs.Spelling.{Fits, body, frame, image as spelling};

use crate::field::image_len;
use crate::record::Record;
use crate::sizes::{
    CELL_BYTES, CHECKPOINT_BODY, CHECKPOINT_FRAME, DIRTY_BYTES, ENTRY_BYTES, LSN_BYTES, PLAIN_BODY,
    PLAIN_FRAME, SMALLEST_BODY, SMALLEST_FRAME,
};
use crate::view::RecordView;
use page::VALUE_BYTES;

/// How many bytes the body of a record takes.
pub fn body_len(logged: &Record) -> u32
    requires { Fits (content logged.now) }
    ensures { result ≡ length (body (content logged.now) 0) }
{
    match logged {
        Record::Update { before, after, .. } => {
            (PLAIN_BODY + CELL_BYTES + image_len(before) + image_len(after)) as u32
        }
        Record::Compensation { image, .. } => (PLAIN_BODY
            + CELL_BYTES
            + LSN_BYTES
            + image_len(image)) as u32,
        Record::Commit { .. } => PLAIN_BODY as u32,
        Record::Abort { .. } => PLAIN_BODY as u32,
        Record::End { .. } => PLAIN_BODY as u32,
        Record::Prepare { .. } => PLAIN_BODY as u32,
        Record::CheckpointBegin => SMALLEST_BODY as u32,
        Record::CheckpointEnd {
            transactions,
            dirty,
            ..
        } => {
            (CHECKPOINT_BODY + ENTRY_BYTES * transactions.len() + DIRTY_BYTES * dirty.len()) as u32
        },
    }
}

/// How many bytes an image takes: one, and those of its value.
fn image_bytes(image: Option<&[u8]>) -> usize
    requires { IfSome image (λ bytes. length bytes.now ≤ VALUE_BYTES) }
    ensures size { result ≡ length (spelling (option_map (λ bytes. bytes.now) image.entry)) }
    ensures small { result ≤ 1 + VALUE_BYTES }
{
    match image {
        None => 1,
        Some(bytes) => 1 + bytes.len(),
    }
}

impl<'a> RecordView<'a> {
    /// How many bytes its frame takes in the log.
    pub fn frame_bytes(&self) -> u64
        requires { Fits (shown self.now) }
        ensures { (lsn : ℕ) → result ≡ length (frame (shown self.now) lsn) }
    {
        match self {
            RecordView::Update { before, after, .. } => {
                (PLAIN_FRAME + CELL_BYTES + image_bytes(*before) + image_bytes(*after)) as u64
            }
            RecordView::Compensation { image, .. } => {
                (PLAIN_FRAME + CELL_BYTES + LSN_BYTES + image_bytes(*image)) as u64
            }
            RecordView::Commit { .. } => PLAIN_FRAME as u64,
            RecordView::Abort { .. } => PLAIN_FRAME as u64,
            RecordView::End { .. } => PLAIN_FRAME as u64,
            RecordView::Prepare { .. } => PLAIN_FRAME as u64,
            RecordView::CheckpointBegin => SMALLEST_FRAME as u64,
            RecordView::CheckpointEnd {
                transactions,
                dirty,
                ..
            } => {
                let entries = ENTRY_BYTES * transactions.len() + DIRTY_BYTES * dirty.len();
                (CHECKPOINT_FRAME + entries) as u64
            }
        }
    }
}
