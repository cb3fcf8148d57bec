//! What every record has: its transaction, the record before it, and what it puts into a cell.

ghost use Rattle.std.specs.Prelude.{◌≡◌, option_map};
ghost use Rattle.log_laws.specs.Meaning.{owner, prev_of, change_of};
ghost use Rattle.wal.specs.Content.{shown, shown_change};

use crate::view::RecordView;

/// What an update or a compensation log record (CLR) puts into a cell, that is, a slot of a page.
#[derive(Clone, Copy)]
pub struct Change<'a> {
    /// The number of the page.
    pub page: u32,
    /// The slot in the page. Records of a log have slots up to 15.
    pub slot: u8,
    /// The value that the slot then has, `None` if it is absent.
    pub image: Option<&'a [u8]>,
}

impl<'a> RecordView<'a> {
    /// The transaction of the record; `None` for a record of a checkpoint.
    #[inline]
    pub fn tx(&self) -> Option<u32>
        ensures { result ≡ owner (shown self.now) }
    {
        match self {
            RecordView::Update { tx, .. } => Some(*tx),
            RecordView::Compensation { tx, .. } => Some(*tx),
            RecordView::Commit { tx, .. } => Some(*tx),
            RecordView::Abort { tx, .. } => Some(*tx),
            RecordView::End { tx, .. } => Some(*tx),
            RecordView::Prepare { tx, .. } => Some(*tx),
            RecordView::CheckpointBegin => None,
            RecordView::CheckpointEnd { .. } => None,
        }
    }

    /// PrevLSN: the LSN of the previous record of its transaction, 0 if there is none. It is 0 for
    /// a record of a checkpoint.
    #[inline]
    pub fn prev(&self) -> u64
        ensures { result ≡ prev_of (shown self.now) }
    {
        match self {
            RecordView::Update { prev, .. } => *prev,
            RecordView::Compensation { prev, .. } => *prev,
            RecordView::Commit { prev, .. } => *prev,
            RecordView::Abort { prev, .. } => *prev,
            RecordView::End { prev, .. } => *prev,
            RecordView::Prepare { prev, .. } => *prev,
            RecordView::CheckpointBegin => 0,
            RecordView::CheckpointEnd { .. } => 0,
        }
    }

    /// What it puts into a cell: the after image of an update, the image of a CLR. `None` for a
    /// record of another kind, which changes no cell.
    #[inline]
    pub fn change(&self) -> Option<Change<'a>>
        ensures { option_map shown_change result ≡ change_of (shown self.now) }
    {
        match self {
            RecordView::Update {
                page,
                slot,
                after,
                ..
            } => Some(Change {
                page: *page,
                slot: *slot,
                image: *after,
            }),
            RecordView::Compensation {
                page,
                slot,
                image,
                ..
            } => Some(Change {
                page: *page,
                slot: *slot,
                image: *image,
            }),
            RecordView::Commit { .. } => None,
            RecordView::Abort { .. } => None,
            RecordView::End { .. } => None,
            RecordView::Prepare { .. } => None,
            RecordView::CheckpointBegin => None,
            RecordView::CheckpointEnd { .. } => None,
        }
    }
}
