//! The numbers in the 16 bytes that the headers of a page and of a store file have in common.

ghost use Rattle.std.specs.Prelude.{◌≡◌, ◌<◌, ◌^◌, ◌++◌, length};
ghost use Rattle.std.specs.Int.{w32, w64, to_be_bytes};

use byteorder::{BigEndian, ByteOrder};

/// The three big endian numbers in these 16 bytes.
pub fn numbers_at(bytes: &[u8]) -> (u32, u32, u64)
    requires { length bytes.now ≡ 16 }
    ensures text { bytes.now
        ≡ to_be_bytes w32 result.0 ++ to_be_bytes w32 result.1 ++ to_be_bytes w64 result.2 }
    ensures fits { (result.0 < 2 ^ 32) × (result.1 < 2 ^ 32) × (result.2 < 2 ^ 64) }
{
    let (first, rest) = bytes.split_at(4);
    let (second, third) = rest.split_at(4);
    (
        BigEndian::read_u32(first),
        BigEndian::read_u32(second),
        BigEndian::read_u64(third),
    )
}
