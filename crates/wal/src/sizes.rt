//! How large the body of a frame and the tables of a checkpoint are.

use page::{MAGIC_BYTES, PAGES, TRANSACTIONS};

/// How many bytes the header of a log takes in version 1: its magic.
pub const HEADER_BYTES: usize = MAGIC_BYTES;

/// How many bytes the header of a log takes in version 2: its magic and the base LSN.
pub const BASED_HEADER_BYTES: usize = HEADER_BYTES + LSN_BYTES;

/// The largest base LSN that a log may have.
pub const LARGEST_BASE: u64 = 9_223_372_036_854_775_807;

/// How many bytes an LSN takes.
pub const LSN_BYTES: usize = 8;

/// The byte in place of the length of a value that is absent.
pub const ABSENT: u8 = 255;

/// How many bytes a cell takes: page and slot.
pub const CELL_BYTES: usize = 5;

/// How many bytes an entry of a transaction table takes: transaction, state, LastLSN, UndoNxtLSN.
pub const ENTRY_BYTES: usize = 5 + 2 * LSN_BYTES;

/// How many bytes an entry of a dirty page table takes: page and RecLSN.
pub const DIRTY_BYTES: usize = 4 + LSN_BYTES;

/// How many bytes the smallest body takes, which is that of a checkpoint begin: kind and LSN.
pub const SMALLEST_BODY: usize = 1 + LSN_BYTES;

/// How many bytes the smallest frame takes: the length of its body, and the body.
pub const SMALLEST_FRAME: usize = 4 + SMALLEST_BODY;

/// How many bytes the body of a commit, an abort, an end or a prepare takes: kind, LSN,
/// transaction, PrevLSN.
pub const PLAIN_BODY: usize = SMALLEST_BODY + 4 + LSN_BYTES;

/// How many bytes the frame of a commit, an abort, an end or a prepare takes.
pub const PLAIN_FRAME: usize = 4 + PLAIN_BODY;

/// How many bytes of the frame of an update or a CLR come before its images and UndoNxtLSN: the
/// frame's head, the transaction, the PrevLSN, the page and the slot.
pub const CELL_HEAD: usize = PLAIN_FRAME + CELL_BYTES;

/// How many bytes the body of a checkpoint end takes without its entries: kind, LSN, the LSN of its
/// begin record, and the count of each table.
pub const CHECKPOINT_BODY: usize = SMALLEST_BODY + LSN_BYTES + 8;

/// How many bytes the frame of a checkpoint end takes without its entries.
pub const CHECKPOINT_FRAME: usize = 4 + CHECKPOINT_BODY;

/// How many bytes the largest body takes, which is that of a checkpoint end with full tables.
pub const LARGEST_BODY: usize = CHECKPOINT_BODY + ENTRY_BYTES * TRANSACTIONS + DIRTY_BYTES * PAGES;

/// How many bytes the longest frame takes.
pub const LONGEST_FRAME: usize = 4 + LARGEST_BODY;
