//! What a slot holds, as plain data.

ghost use Rattle.std.specs.Prelude.{◌≡◌, ◌≤◌, ◌+◌, ◌⊎◌, ◌↔◌, IsTrue, IfSome, length, option_map};
ghost use Rattle.page.specs.declared.profile.TheConstants.{VALUE_BYTES};
ghost use Rattle.wal.specs.declared.sizes.TheConstants.{ABSENT};
ghost use Rattle.wal.specs.Spelling.{image};
ghost use Rattle.journal.specs.Arrays.{image_of, IsValid};

use page::{VALUE_BYTES, Value};
use wal::ABSENT;

/// What a slot holds: a value, which is the first `length` (0 to 48) of the bytes; or none, if
/// `length` is 255.
#[repr(C)]
#[derive(Clone, Copy)]
pub struct Image {
    /// How many bytes the value has, 0 to 48; 255 if it is absent.
    pub length: u8,
    /// The bytes of the value, and any others after them.
    pub bytes: [u8; VALUE_BYTES],
}

// Nothing happens here: it tells the prover how many bytes there are.
fn know_bytes(bytes: &[u8; VALUE_BYTES])
    ensures { length bytes.now ≡ VALUE_BYTES }
{}

impl Image {
    /// An absent value.
    pub fn absent() -> Image
        ensures image { image_of result ≡ None }
        ensures valid { IsValid result }
    {
        Image {
            length: ABSENT,
            bytes: [0; VALUE_BYTES],
        }
    }

    /// This value, of at most 48 bytes.
    pub fn present(value: &[u8]) -> Image
        requires { length value.now ≤ VALUE_BYTES }
        ensures image { image_of result ≡ Some value.now }
        ensures valid { IsValid result }
    {
        let mut bytes = [0; VALUE_BYTES];
        bytes[..value.len()].copy_from_slice(value);
        Image {
            length: value.len() as u8,
            bytes,
        }
    }

    /// This value, or none.
    pub fn of(slot: &Option<Value>) -> Image
        ensures image { image_of result ≡ slot.now }
        ensures valid { IsValid result }
    {
        match slot {
            None => Image::absent(),
            Some(value) => Image::present(value.as_slice()),
        }
    }

    /// An image in a record that is borrowed from the bytes of the log. It has at most 48 bytes.
    pub fn lent(image: Option<&[u8]>) -> Image
        requires { IfSome image (λ bytes. length bytes.now ≤ VALUE_BYTES) }
        ensures image { image_of result ≡ option_map (λ bytes. bytes.now) image.entry }
        ensures valid { IsValid result }
    {
        match image {
            None => Image::absent(),
            Some(value) => Image::present(value),
        }
    }

    /// The bytes of its value; `None` if the value is absent.
    pub fn bytes(&self) -> Option<&[u8]>
        ensures { option_map (λ bytes. bytes.now) result ≡ image_of self.now }
    {
        know_bytes(&self.bytes);
        if self.length as usize <= VALUE_BYTES {
            Some(&self.bytes[..self.length as usize])
        } else {
            None
        }
    }

    /// The bytes of its value; `None` if the value is absent.
    pub fn value(&self) -> Option<Value>
        ensures { result ≡ image_of self.now }
    {
        match self.bytes() {
            Some(bytes) => Value::new(bytes),
            None => None,
        }
    }

    /// Whether its length is 0 to 48, or 255: no other is one of an image.
    pub fn is_valid(&self) -> bool
        ensures { IsTrue result ↔ IsValid self.now }
    {
        self.length as usize <= VALUE_BYTES || self.length == ABSENT
    }

    /// How many bytes its encoding in a frame takes: 1 to 49.
    pub fn frame_len(&self) -> usize
        ensures length { result ≡ length (image (image_of self.now)) }
        ensures short { result ≤ 1 + VALUE_BYTES }
    {
        match self.bytes() {
            Some(bytes) => 1 + bytes.len(),
            None => 1,
        }
    }
}
