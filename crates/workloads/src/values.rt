//! Values as engines store them, each made from a number by chance. What makes one is not inlined, since
//! each call would clear its locals.

use crate::chance::Chance;
use page::{VALUE_BYTES, Value};

/// A letter for each byte.
fn in_letters<const N: usize>(mut bytes: [u8; N]) -> [u8; N] {
    for byte in bytes.iter_mut() {
        *byte = b'a' + (*byte & 15);
    }
    bytes
}

/// Bytes by chance.
#[inline(never)]
fn by_chance(drawn: u64) -> [u8; VALUE_BYTES] {
    let mut chance = Chance::new(drawn);
    let mut bytes = [0; VALUE_BYTES];
    let (eights, _) = bytes.as_mut_slice().as_chunks_mut::<8>();
    for eight in eights {
        *eight = chance.draw().to_be_bytes();
    }
    bytes
}

/// Letters and a line feed.
#[inline(never)]
pub fn line_of(drawn: u64) -> Option<Value> {
    let mut bytes = in_letters(by_chance(drawn));
    if let Some(last) = bytes.last_mut() {
        *last = b'\n';
    }
    Value::new(&bytes)
}

/// An object as engines keep them: `{"id":7,"name":"x"}`.
#[inline(never)]
pub fn json_of(drawn: u64) -> Option<Value> {
    let digit = b'0' + (drawn % 10) as u8;
    let [first, second, third, ..] = in_letters(drawn.to_be_bytes());
    let mut bytes = *b"{\"id\":0,\"name\":\"xyz\"}";
    bytes[6] = digit;
    bytes[16] = first;
    bytes[17] = second;
    bytes[18] = third;
    Value::new(&bytes)
}

/// Words of six letters, one of which has an accent.
#[inline(never)]
pub fn accents_of(drawn: u64) -> Option<Value> {
    let mut bytes = by_chance(drawn);
    let (eights, _) = bytes.as_mut_slice().as_chunks_mut::<8>();
    for eight in eights {
        let [a, b, c, d, e, f, ..] = in_letters(*eight);
        *eight = [a, b, 0xc3, 0xa0 + (c & 15), d, e, f, b' '];
    }
    Value::new(&bytes)
}

/// Sixteen bytes.
#[inline(never)]
pub fn key_of(drawn: u64) -> Option<Value> {
    Value::new(&by_chance(drawn)[..16])
}

/// As many bytes as a value can have.
#[inline(never)]
pub fn longest_of(drawn: u64) -> Option<Value> {
    Value::new(&by_chance(drawn))
}
