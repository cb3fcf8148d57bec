//! A part of a log: frames one after the other in bytes of their own.

ghost use Rattle.std.specs.Prelude.{◌≡◌, ◌<◌, List, All, Some, length, map};
ghost use Rattle.log_laws.specs.Records.{LogRecord};
ghost use Rattle.wal.specs.Frames.{IsPlace, record_of, entry_at};

use crate::body::Body;
use crate::offsets::Offsets;
use std::marker::Model;

/// Frames in bytes, by their offsets. Contracts see their records.
#[derive(Drop)]
pub struct Part<'a> {
    bytes: &'a [u8],
    offsets: Offsets,
}

impl<'a> Model for Part<'a> {
    ghost Value = { List LogRecord };

    ghost view = { λ part. map (record_of part.bytes.now) part.offsets };

    ghost invariant = { λ part. All (IsPlace part.bytes.now) part.offsets };
}

impl<'a> Part<'a> {
    /// The frames at these offsets.
    pub fn new(bytes: &'a [u8], offsets: Offsets) -> Part<'a>
        requires { All (IsPlace bytes.now) offsets }
        ensures { result ≡ map (record_of bytes.now) offsets }
    {
        Part { bytes, offsets }
    }

    /// How many records it has.
    #[inline(always)]
    pub fn len(&self) -> usize
        ensures { result ≡ length self.now }
    {
        self.offsets.len()
    }

    /// The body of its record with this number from 0.
    #[inline(always)]
    pub fn body(&self, index: usize) -> Body<'a>
        requires { index < length self.now }
        ensures { result ≡ Some (entry_at self.now index) }
    {
        Body::at(self.bytes, self.offsets.get(index))
    }
}
