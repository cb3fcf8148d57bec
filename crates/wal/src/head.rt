//! The head of a frame: what comes before its images and tables. It is put together here, so that a
//! frame takes few appends.

ghost use Rattle.std.specs.Prelude.{◌≡◌, ◌++◌, ◌∷◌, []};
ghost use Rattle.std.specs.Int.{w32, w64, to_be_bytes};
ghost use Rattle.wal.specs.Head.{head_text};

use crate::sizes::{CELL_HEAD, PLAIN_FRAME, SMALLEST_FRAME};

/// What each frame begins with.
#[derive(Clone, Copy)]
pub struct FrameHead {
    /// How many bytes the body has.
    pub length: u32,
    /// The number of the record's kind.
    pub kind: u8,
    /// Its LSN.
    pub lsn: u64,
}

impl FrameHead {
    /// Its bytes.
    #[inline(always)]
    pub fn bytes(self) -> [u8; SMALLEST_FRAME]
        ensures { result ≡ head_text self }
    {
        let mut head = [0; SMALLEST_FRAME];
        head[..4].copy_from_slice(&self.length.to_be_bytes());
        head[4] = self.kind;
        head[5..].copy_from_slice(&self.lsn.to_be_bytes());
        head
    }

    /// Its bytes, followed by a transaction and a PrevLSN.
    #[inline(always)]
    pub fn with_plain(self, tx: u32, prev: u64) -> [u8; PLAIN_FRAME]
        ensures { result ≡ head_text self ++ (to_be_bytes w32 tx ++ to_be_bytes w64 prev) }
    {
        let mut head = [0; PLAIN_FRAME];
        head[..SMALLEST_FRAME].copy_from_slice(&self.bytes());
        head[SMALLEST_FRAME..SMALLEST_FRAME + 4].copy_from_slice(&tx.to_be_bytes());
        head[SMALLEST_FRAME + 4..].copy_from_slice(&prev.to_be_bytes());
        head
    }

    /// The same, followed by a page and a slot.
    #[inline(always)]
    pub fn with_cell(self, tx: u32, prev: u64, page: u32, slot: u8) -> [u8; CELL_HEAD]
        ensures { result ≡ head_text self ++ ((to_be_bytes w32 tx ++ to_be_bytes w64 prev)
            ++ (to_be_bytes w32 page ++ (slot ∷ []))) }
    {
        let mut head = [0; CELL_HEAD];
        head[..PLAIN_FRAME].copy_from_slice(&self.with_plain(tx, prev));
        head[PLAIN_FRAME..PLAIN_FRAME + 4].copy_from_slice(&page.to_be_bytes());
        head[PLAIN_FRAME + 4] = slot;
        head
    }
}
