//! How many bytes the parts of a page and of a store take.

use crate::profile::{PAGE_BYTES, SLOTS};

/// How many bytes the header of a page's image takes: its number, four zeros, PageLSN.
pub const PAGE_HEADER_BYTES: usize = 16;

/// How many bytes the directory of a page takes: for each slot an offset and a length.
pub const DIRECTORY_BYTES: usize = 4 * SLOTS;

/// Where the cells of a page begin.
pub const CELLS_AT: usize = PAGE_HEADER_BYTES + DIRECTORY_BYTES;

/// How many bytes a page has for its cells.
pub const ROOM_BYTES: usize = PAGE_BYTES - CELLS_AT;

/// How many bytes a magic takes.
pub const MAGIC_BYTES: usize = 8;

/// How many bytes the header of a store takes: its magic, its page count, four zeros, its master.
pub const STORE_HEADER_BYTES: usize = MAGIC_BYTES + PAGE_HEADER_BYTES;
