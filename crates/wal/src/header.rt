//! The header of a log file.

ghost use Rattle.std.specs.Prelude.{◌≡◌};
ghost use Rattle.wal.specs.Headers.{header_bytes, header_of, start_at};
ghost use Rattle.log_laws.specs.declared.start.LogStart.TheVariants.{Version1, Version2};

use crate::field::u64_at;
use crate::sizes::{BASED_HEADER_BYTES, HEADER_BYTES, LARGEST_BASE};
use log_laws::LogStart;
use page::{BASED_LOG_MAGIC, LOG_MAGIC};

/// How many bytes the header of a log takes that begins so.
#[inline(always)]
pub fn header_bytes(start: LogStart) -> usize
    ensures { result ≡ header_bytes start }
{
    match start {
        LogStart::Version1 => HEADER_BYTES,
        LogStart::Version2 { .. } => BASED_HEADER_BYTES,
    }
}

/// The header of a log in version 1, whose base LSN is 0.
pub fn plain_header() -> [u8; HEADER_BYTES]
    ensures { result ≡ header_of Version1 }
{
    LOG_MAGIC
}

/// The header of a log in version 2 with this base LSN, which must be at most
/// 9,223,372,036,854,775,807.
pub fn based_header(base: u64) -> [u8; BASED_HEADER_BYTES]
    ensures { result ≡ header_of (Version2 base) }
{
    let mut header = [0; BASED_HEADER_BYTES];
    header[..HEADER_BYTES].copy_from_slice(&BASED_LOG_MAGIC);
    header[HEADER_BYTES..].copy_from_slice(&base.to_be_bytes());
    header
}

/// How the log in these bytes begins. `None` if it has no header: the first 8 bytes are neither
/// magic; or, in version 2, there are fewer than 16 bytes, or the base LSN is above
/// 9,223,372,036,854,775,807.
#[tactic(auto, unfolding(crate::specs::Headers::start_at))]
pub fn start_at(bytes: &[u8]) -> Option<LogStart>
    ensures { result ≡ start_at bytes.now }
{
    if bytes.starts_with(&LOG_MAGIC) {
        return Some(LogStart::Version1);
    }
    if !bytes.starts_with(&BASED_LOG_MAGIC) {
        return None;
    }
    let (_, rest) = bytes.split_at(HEADER_BYTES);
    let (base, _) = u64_at(rest)?;
    if base > LARGEST_BASE {
        return None;
    }
    Some(LogStart::Version2 { base })
}
