//! A place in a log between two records.

ghost use Rattle.std.specs.Prelude.{◌≡◌, ◌+◌, ◌≤◌, ◌<◌, ◌^◌};

/// A place in a log between two records: how far a reading has come, or where it continues.
#[derive(Clone, Copy, Debug, PartialEq, Eq)]
pub struct Mark {
    /// The LSN of the last record before it; the base LSN of the log if there is none.
    pub lsn: u64,
    /// How many bytes of the log come before it: the offset of the next record's frame.
    pub offset: u64,
}
