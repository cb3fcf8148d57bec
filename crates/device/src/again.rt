//! Reading a source again, from an offset.

ghost use Rattle.std.specs.Prelude.{◌≡◌, ◌+◌, ◌^◌, ◌≤◌, ◌<◌, ◌⊎◌, take, drop, length, IfOk};
ghost use Rattle.std.specs.Io.KnownBytes.{Keeps};
ghost use Rattle.device.specs.Failures.{Counts};
ghost use Rattle.device.specs.Reread.{EndsBy, ReadsFrom};
ghost use Rattle.device.specs.Rereading.{ReadsOn, StaysRead};

use crate::{Failed, Reread};

/// The bytes from an offset on: none if it is at or past their end.
pub fn bytes_from(bytes: &[u8], offset: u64) -> &[u8]
    ensures { result.now ≡ drop offset bytes.now }
{
    let start = bytes.len().min(offset as usize);
    &bytes[start..]
}

/// How far a device is read without a gap, after a read of `count` bytes at `offset`.
pub fn read_to_after(before: u64, offset: u64, count: usize) -> u64
    requires { offset + count < 2 ^ 64 }
    ensures grows { before ≤ result }
    ensures joins { offset ≤ before → offset + count ≤ result }
    ensures given { (result ≡ before) ⊎ ((offset ≤ before) × (result ≡ offset + count)) }
{
    if offset > before {
        return before;
    }
    before.max(offset + count as u64)
}

/// One read into a buffer after the bytes that were read before it. The first byte of the buffer is
/// at offset `start`.
fn read_behind_at<S: Reread>(
    source: &mut S,
    start: u64,
    buffer: &mut [u8],
    filled: usize,
) -> Result<usize, Failed>
    requires room { filled < length buffer.old }
    requires reach { start + length buffer.old ≤ 2 ^ 64 }
    ensures front { take filled buffer.new ≡ take filled buffer.old }
    ensures within { IfOk result (λ count. filled + count ≤ length buffer.new) }
    ensures bytes { IfOk result (λ count. ReadsFrom (S.text source.old) (start + filled) count
        (drop filled buffer.new)) }
    ensures end { IfOk result (λ count. count ≡ 0 → EndsBy (S.text source.old) (start + filled)) }
    ensures same { Keeps (S.text source.old) (S.text source.new) }
    ensures grows { StaysRead S.text S.read_to source.old source.new }
    ensures joins { ReadsOn S.text S.read_to source.old source.new (start + filled) result }
    ensures cause { Counts (S.failures source.old) (S.failures source.new) result }
{
    source.read_at(start + filled as u64, &mut buffer[filled..])
}

/// Fills a buffer with the bytes that a source holds from `offset` on, and returns how many they
/// are. They are fewer than the buffer takes only if the source ends. The rest of the buffer is not
/// specified, nor is the place from which `read` continues afterwards. The sum of `offset` and the
/// buffer's length is at most 2^64.
///
/// `Failed` if the source failed. Its count of failures then rises by one, and the content of the
/// buffer is not specified. The source still holds the same bytes.
pub fn read_full_at<S: Reread>(
    source: &mut S,
    offset: u64,
    buffer: &mut [u8],
) -> Result<usize, Failed>
    requires { offset + length buffer.old ≤ 2 ^ 64 }
    ensures within { IfOk result (λ count. count ≤ length buffer.new) }
    ensures bytes { IfOk result (λ count. ReadsFrom (S.text source.old) offset count buffer.new) }
    ensures end { IfOk result (λ count. count < length buffer.new
        → EndsBy (S.text source.old) (offset + count)) }
    ensures same { Keeps (S.text source.old) (S.text source.new) }
    ensures grows { StaysRead S.text S.read_to source.old source.new }
    ensures joins { ReadsOn S.text S.read_to source.old source.new offset result }
    ensures cause { Counts (S.failures source.old) (S.failures source.new) result }
{
    let mut filled = 0;
    while filled < buffer.len() {
        let count = read_behind_at(source, offset, buffer, filled)?;
        if count == 0 {
            return Ok(filled);
        }
        filled += count;
    }
    Ok(filled)
}
