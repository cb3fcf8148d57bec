//! What a slot holds, as people and programs read it.

ghost use Rattle.std.specs.Prelude.{◌≡◌, ◌+◌, ◌*◌, ◌≤◌, ◌<◌, ℕ, ◌++◌, IfSome, slice_index, length, option_map, take};
ghost use Rattle.std.specs.List.{flat_map};
ghost use Rattle.hex.specs.Hex.{encode_lower};
ghost use Rattle.page.specs.declared.profile.TheConstants.{VALUE_BYTES};
ghost use Rattle.dump.specs.Values.{IsPlain, escaped, value, image};
ghost use Rattle.dump.specs.declared.value.TheConstants.{IMAGE_ROOM};

use crate::Style;
use crate::escape::{ESCAPE_BYTES, escape_of, is_plain};
use crate::line::put_text;
use page::VALUE_BYTES;

/// The most bytes that are written for a slot. They are those of the longest value as JSON: for
/// each byte up to six as text and two digits, and twenty more.
pub const IMAGE_ROOM: usize = 8 * VALUE_BYTES + 20;

/// Writes two hexadecimal digits for each byte.
#[inline(always)]
fn put_hex(buffer: &mut [u8], at: usize, bytes: &[u8]) -> usize
    requires { at + 2 * length bytes.now ≤ length buffer.old }
    ensures end { result ≡ at + 2 * length bytes.now }
    ensures text { take result buffer.new ≡ take at buffer.old ++ encode_lower bytes.now }
{
    let end = at + 2 * bytes.len();
    match hex::encode_to_slice(bytes, &mut buffer[at..end]) {
        Ok(()) => end,
        Err(_) => unreachable!(),
    }
}

/// How many bytes at the front are written as themselves between quotes.
#[inline(always)]
fn plain_in_front(bytes: &[u8]) -> usize
    ensures end { result ≤ length bytes.now }
    ensures plain { (k : ℕ) → k < result → IsPlain (slice_index bytes.now k) }
{
    for (place, byte) in bytes.iter().enumerate() {
        if !is_plain(*byte) {
            return place;
        }
    }
    bytes.len()
}

/// Writes what each byte is between quotes. For each, [`ESCAPE_BYTES`] bytes are written; what
/// comes next overwrites those that do not count.
#[inline(always)]
fn put_escapes(buffer: &mut [u8], at: usize, style: Style, bytes: &[u8]) -> usize
    requires { at + 6 * length bytes.now + 2 ≤ length buffer.old }
    ensures end { result ≤ at + 6 * length bytes.now }
    ensures text { take result buffer.new
        ≡ take at buffer.old ++ flat_map (escaped style) bytes.now }
{
    let mut end = at;
    for byte in bytes {
        let escape = escape_of(style, *byte);
        buffer[end..end + ESCAPE_BYTES].copy_from_slice(escape);
        end += (escape[ESCAPE_BYTES - 1] - b'0') as usize;
    }
    end
}

/// Writes what comes between quotes. The bytes at the front that are written as themselves, in most
/// texts all, are copied at once.
#[inline(always)]
fn put_each(buffer: &mut [u8], at: usize, style: Style, bytes: &[u8]) -> usize
    requires { at + 6 * length bytes.now + 2 ≤ length buffer.old }
    ensures end { result ≤ at + 6 * length bytes.now }
    ensures text { take result buffer.new
        ≡ take at buffer.old ++ flat_map (escaped style) bytes.now }
{
    let (plain, rest) = bytes.split_at(plain_in_front(bytes));
    let end = at + plain.len();
    buffer[at..end].copy_from_slice(plain);
    put_escapes(buffer, end, style, rest)
}

/// Writes a value: its bytes as text between quotes, and in hexadecimal.
pub fn put_value(buffer: &mut [u8], at: usize, style: Style, bytes: &[u8]) -> usize
    requires short { length bytes.now ≤ VALUE_BYTES }
    requires room { at + IMAGE_ROOM ≤ length buffer.old }
    ensures end { result ≤ at + IMAGE_ROOM }
    ensures text { take result buffer.new ≡ take at buffer.old ++ value style bytes.now }
{
    match style {
        Style::Text => {
            let at = put_text(buffer, at, b"\"");
            let at = put_each(buffer, at, style, bytes);
            let at = put_text(buffer, at, b"\" (");
            let at = put_hex(buffer, at, bytes);
            put_text(buffer, at, b")")
        }
        Style::Json => {
            let at = put_text(buffer, at, b"{\"text\":\"");
            let at = put_each(buffer, at, style, bytes);
            let at = put_text(buffer, at, b"\",\"hex\":\"");
            let at = put_hex(buffer, at, bytes);
            put_text(buffer, at, b"\"}")
        }
    }
}

/// Writes what a slot holds.
pub fn put_image(buffer: &mut [u8], at: usize, style: Style, held: Option<&[u8]>) -> usize
    requires fits { IfSome held (λ bytes. length bytes.now ≤ VALUE_BYTES) }
    requires room { at + IMAGE_ROOM ≤ length buffer.old }
    ensures end { result ≤ at + IMAGE_ROOM }
    ensures text { take result buffer.new ≡ take at buffer.old
        ++ image style (option_map (λ bytes. bytes.now) held.entry) }
{
    match held {
        None => match style {
            Style::Text => put_text(buffer, at, b"absent"),
            Style::Json => put_text(buffer, at, b"null"),
        },
        Some(bytes) => put_value(buffer, at, style, bytes),
    }
}
