//! The parts of a line: an offset and a kind, and named fields.
//!
//! A line is written into a buffer that has room for all that is put there. Each function returns
//! where in the buffer its text ends. So no part checks whether there is room for it.

ghost use Rattle.std.specs.Prelude.{◌≡◌, ◌+◌, ◌≤◌, ◌++◌, IfSome, length, option_map, take, decimal};
ghost use Rattle.page.specs.declared.profile.TheConstants.{VALUE_BYTES};
ghost use Rattle.dump.specs.Line.{opening, closing, named, number_field, word_field, image_field};
ghost use Rattle.dump.specs.declared.value.TheConstants.{IMAGE_ROOM};

use crate::Style;
use crate::value::put_image;
use itoa::write_digits;
use page::VALUE_BYTES;

/// Writes a text at this place of a line. Returns where it ends.
#[inline(always)]
pub fn put_text(buffer: &mut [u8], at: usize, text: &[u8]) -> usize
    requires { at + length text.now ≤ length buffer.old }
    ensures end { result ≡ at + length text.now }
    ensures text { take result buffer.new ≡ take at buffer.old ++ text.now }
{
    for (place, byte) in text.iter().enumerate() {
        buffer[at + place] = *byte;
    }
    at + text.len()
}

/// How many digits a number has.
#[inline]
fn digits_in(number: u64) -> usize
    ensures { result ≡ length (decimal number) }
{
    let mut left = number;
    let mut digits = 0;
    while left >= 10_000 {
        left /= 10_000;
        digits += 4;
    }
    if left < 10 {
        digits + 1
    } else if left < 100 {
        digits + 2
    } else if left < 1000 {
        digits + 3
    } else {
        digits + 4
    }
}

/// Writes a number in decimal. Its digits are counted first, since they are written from the last
/// to the first. So its end is known, and no digit is written twice.
#[inline]
pub fn put_number(buffer: &mut [u8], at: usize, number: u64) -> usize
    requires { at + 20 ≤ length buffer.old }
    ensures end { result ≤ at + 20 }
    ensures text { take result buffer.new ≡ take at buffer.old ++ decimal number }
{
    let end = at + digits_in(number);
    write_digits(number, buffer, end);
    end
}

/// Writes the beginning of a line: the offset in the file of the thing that the line describes, and
/// what it is.
#[inline(always)]
pub fn put_opening(buffer: &mut [u8], style: Style, offset: u64, kind: &str) -> usize
    requires { 40 + length kind.now ≤ length buffer.old }
    ensures end { result ≤ 40 + length kind.now }
    ensures text { take result buffer.new ≡ opening style offset kind.now }
{
    match style {
        Style::Text => {
            let at = put_number(buffer, 0, offset);
            let at = put_text(buffer, at, b": ");
            put_text(buffer, at, kind.as_bytes())
        }
        Style::Json => {
            let at = put_text(buffer, 0, b"{\"offset\":");
            let at = put_number(buffer, at, offset);
            let at = put_text(buffer, at, b",\"kind\":\"");
            let at = put_text(buffer, at, kind.as_bytes());
            put_text(buffer, at, b"\"")
        }
    }
}

/// The end of a line.
#[inline(always)]
pub fn closing(style: Style) -> &'static [u8]
    ensures { result.now ≡ closing style }
{
    match style {
        Style::Text => b"\n",
        Style::Json => b"}\n",
    }
}

/// Writes the name of a field, after other fields.
#[inline(always)]
pub fn put_name(buffer: &mut [u8], at: usize, style: Style, name: &str) -> usize
    requires { at + length name.now + 4 ≤ length buffer.old }
    ensures end { result ≤ at + length name.now + 4 }
    ensures text { take result buffer.new ≡ take at buffer.old ++ named style name.now }
{
    match style {
        Style::Text => {
            let at = put_text(buffer, at, b", ");
            let at = put_text(buffer, at, name.as_bytes());
            put_text(buffer, at, b" ")
        }
        Style::Json => {
            let at = put_text(buffer, at, b",\"");
            let at = put_text(buffer, at, name.as_bytes());
            put_text(buffer, at, b"\":")
        }
    }
}

/// Writes a field that is a number.
#[inline(always)]
pub fn put_number_field(
    buffer: &mut [u8],
    at: usize,
    style: Style,
    name: &str,
    number: u64,
) -> usize
    requires { at + length name.now + 24 ≤ length buffer.old }
    ensures end { result ≤ at + length name.now + 24 }
    ensures text { take result buffer.new
        ≡ take at buffer.old ++ number_field style name.now number }
{
    let at = put_name(buffer, at, style, name);
    put_number(buffer, at, number)
}

/// Writes a field that is a word: one of the words of the formats.
pub fn put_word_field(buffer: &mut [u8], at: usize, style: Style, name: &str, text: &str) -> usize
    requires { at + length name.now + length text.now + 6 ≤ length buffer.old }
    ensures end { result ≤ at + length name.now + length text.now + 6 }
    ensures text { take result buffer.new
        ≡ take at buffer.old ++ word_field style name.now text.now }
{
    let at = put_name(buffer, at, style, name);
    match style {
        Style::Text => put_text(buffer, at, text.as_bytes()),
        Style::Json => {
            let at = put_text(buffer, at, b"\"");
            let at = put_text(buffer, at, text.as_bytes());
            put_text(buffer, at, b"\"")
        }
    }
}

/// Writes a field that is what a slot holds.
#[inline(always)]
pub fn put_image_field(
    buffer: &mut [u8],
    at: usize,
    style: Style,
    name: &str,
    held: Option<&[u8]>,
) -> usize
    requires fits { IfSome held (λ bytes. length bytes.now ≤ VALUE_BYTES) }
    requires room { at + length name.now + IMAGE_ROOM + 4 ≤ length buffer.old }
    ensures end { result ≤ at + length name.now + IMAGE_ROOM + 4 }
    ensures text { take result buffer.new ≡ take at buffer.old
        ++ image_field style name.now (option_map (λ bytes. bytes.now) held.entry) }
{
    let at = put_name(buffer, at, style, name);
    put_image(buffer, at, style, held)
}
