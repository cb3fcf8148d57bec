//! What a sink over memory keeps.

ghost use Rattle.std.specs.Prelude.{◌≡◌, ◌≤◌, ◌++◌, ℕ, [], take, vec_len, OnOk, OnErr};

use std::alloc::AllocError;

/// The bytes that were taken, of which a prefix is flushed.
#[derive(Drop)]
pub struct Kept {
    bytes: Vec<u8>,
    /// How many of them are flushed.
    flushed: usize,
    ghost within: { flushed ≤ vec_len bytes },
}

impl Kept {
    ghost use Rattle.device.specs.Kept.{bytes_taken, bytes_flushed};

    /// These bytes, of which none is flushed.
    pub fn new(bytes: Vec<u8>) -> Kept
        ensures taken { bytes_taken result ≡ bytes.items }
        ensures flushed { bytes_flushed result ≡ [] }
    {
        Kept { bytes, flushed: 0 }
    }

    /// These bytes, all of which are flushed.
    pub fn flushed_of(bytes: Vec<u8>) -> Kept
        ensures taken { bytes_taken result ≡ bytes.items }
        ensures flushed { bytes_flushed result ≡ bytes.items }
    {
        let flushed = bytes.len();
        Kept { bytes, flushed }
    }

    /// The bytes taken so far.
    pub fn bytes(&self) -> &[u8]
        ensures { result.now ≡ bytes_taken self.now }
    {
        &self.bytes
    }

    /// Those of them that are flushed.
    pub fn flushed(&self) -> &[u8]
        ensures { result.now ≡ bytes_flushed self.now }
    {
        &self.bytes[..self.flushed]
    }

    /// Takes more bytes. `AllocError` if memory for them was refused; then none is taken.
    pub fn append(&mut self, bytes: &[u8]) -> Result<(), AllocError>
        ensures taken { OnOk result (bytes_taken self.new ≡ bytes_taken self.old ++ bytes.now) }
        ensures refused { OnErr result (bytes_taken self.new ≡ bytes_taken self.old) }
        ensures unflushed { bytes_flushed self.new ≡ bytes_flushed self.old }
    {
        self.bytes.extend_from_slice(bytes)
    }

    /// Flushes all.
    pub fn flush(&mut self)
        ensures taken { bytes_taken self.new ≡ bytes_taken self.old }
        ensures all { bytes_flushed self.new ≡ bytes_taken self.new }
    {
        self.flushed = self.bytes.len();
    }

    /// Cuts off what comes after the first `length` bytes.
    pub fn cut(&mut self, length: u64)
        ensures taken { bytes_taken self.new ≡ take length (bytes_taken self.old) }
        ensures flushed { (count : ℕ) × (bytes_flushed self.new
            ≡ take count (bytes_flushed self.old)) }
    {
        self.bytes.truncate(length as usize);
        self.flushed = self.flushed.min(self.bytes.len());
    }
}
