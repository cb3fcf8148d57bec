//! How a log begins.

ghost use Rattle.std.specs.Prelude.{◌≡◌};
ghost use Rattle.log_laws.specs.Records.{lsn_before};

/// How a log file begins: the version of its format, and the LSN after which its records come.
#[derive(Clone, Copy)]
pub enum LogStart {
    /// Version 1: the first record has LSN 1.
    Version1,
    /// Version 2, for a log that continues one that was archived.
    Version2 {
        /// The base LSN: that of the last record before this log. The first record here has the
        /// next LSN.
        base: u64,
    },
}

impl LogStart {
    /// The LSN after which its records come.
    #[inline(always)]
    pub fn base(self) -> u64
        ensures { result ≡ lsn_before self }
    {
        match self {
            LogStart::Version1 => 0,
            LogStart::Version2 { base } => base,
        }
    }
}
