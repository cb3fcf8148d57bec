//! How large a board is.

/// How many numbers a board has at most.
pub const PARTS: u32 = 4096;

/// How many ranges a board has at most, and how many places its seats have together.
pub const SEATS: usize = 64;
