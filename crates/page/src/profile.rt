//! The profile: the limits and the magics of the files. Another profile has other numbers here, and
//! the same code everywhere else. What the numbers have to keep is proved in `laws.rt`, here and in
//! `wal`.

/// The version of the programs. It names the profile, unless that is the default.
pub const VERSION: &str = "0.1.0";

/// How many pages a store has at most.
pub const PAGES: usize = 4096;

/// How many slots a page has.
pub const SLOTS: usize = 16;

/// How many bytes the image of a page takes.
pub const PAGE_BYTES: usize = 1024;

/// How many bytes a value has at most.
pub const VALUE_BYTES: usize = 48;

/// How many entries the transaction table of a checkpoint has at most. Its dirty page table has at
/// most one for each page.
pub const TRANSACTIONS: usize = 1024;

/// A number for each cell of a store.
pub type CellNumber = u16;

/// The first bytes of a store.
pub const STORE_MAGIC: [u8; 8] = *b"ARIESPG1";

/// The first bytes of a log of version 1, which has no base LSN.
pub const LOG_MAGIC: [u8; 8] = *b"ARIESLG1";

/// The first bytes of a log of version 2, which has a base LSN.
pub const BASED_LOG_MAGIC: [u8; 8] = *b"ARIESLG2";
