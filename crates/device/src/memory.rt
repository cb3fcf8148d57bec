//! Devices over memory. Contracts know their bytes.

ghost use Rattle.std.specs.Prelude.{◌≡◌, Some, [], ◌^◌};
ghost use Rattle.device.specs.Memory.{bytes_left, bytes_held, bytes_shared, bytes_taken, bytes_flushed, failures_met};

use crate::again::bytes_from;
use crate::kept::Kept;
use crate::{Continue, Failed, Failures, Reread, Share, SharedSource, Sink, Source, Span};
use std::alloc::Global;
use std::io::Read;

/// Borrowed bytes that several threads read at once. A read of them never fails.
#[derive(Drop)]
pub struct SharedBytes<'a> {
    bytes: &'a [u8],
}

impl<'a> SharedBytes<'a> {
    /// A source that holds these bytes.
    pub fn new(bytes: &'a [u8]) -> SharedBytes<'a>
        ensures { bytes_shared result ≡ bytes.now }
    {
        SharedBytes { bytes }
    }
}

impl<'a> SharedSource for SharedBytes<'a> {
    ghost text = { λ source. Some (bytes_shared source) };

    fn read_at(&self, offset: u64, buffer: &mut [u8]) -> Result<usize, Failed> {
        let held = bytes_from(self.bytes, offset);
        let count = held.len().min(buffer.len());
        buffer[..count].copy_from_slice(&held[..count]);
        Ok(count)
    }
}

/// A source of borrowed bytes. It never fails. Those bytes count as read from the start.
#[derive(Drop)]
pub struct MemorySource<'a> {
    shared: SharedBytes<'a>,
    rest: &'a [u8],
}

impl<'a> MemorySource<'a> {
    /// A source that has all of these bytes left.
    pub fn new(bytes: &'a [u8]) -> MemorySource<'a>
        ensures left { bytes_left result ≡ bytes.now }
        ensures text { bytes_held result ≡ bytes.now }
    {
        MemorySource {
            shared: SharedBytes::new(bytes),
            rest: bytes,
        }
    }
}

impl<'a> Source for MemorySource<'a> {
    ghost failures = { λ _. 0 };

    ghost left = { λ source. Some (bytes_left source) };

    fn hint(&self) -> usize {
        self.rest.len()
    }

    fn read(&mut self, buffer: &mut [u8]) -> Result<usize, Failed> {
        let count = self.rest.len().min(buffer.len());
        let (front, rest) = self.rest.split_at(count);
        buffer[..count].copy_from_slice(front);
        self.rest = rest;
        Ok(count)
    }
}

impl<'a> Reread for MemorySource<'a> {
    ghost text = { λ source. Some (bytes_held source) };

    // All of the bytes are in memory, and past their end there are none.
    ghost read_to = { λ _. 2 ^ 64 };

    fn read_at(&mut self, offset: u64, buffer: &mut [u8]) -> Result<usize, Failed> {
        let held = bytes_from(self.shared.bytes, offset);
        let count = held.len().min(buffer.len());
        buffer[..count].copy_from_slice(&held[..count]);
        Ok(count)
    }
}

impl<'a> Share for MemorySource<'a> {
    type Shared = SharedBytes<'a>;

    fn shared(&self) -> &SharedBytes<'a> {
        &self.shared
    }

    /// Nothing is to be counted, since all bytes count as read.
    fn count_read(&mut self, _span: Span) {}
}

/// A sink that keeps what it takes. It fails if it is refused the memory for it.
#[derive(Drop)]
pub struct MemorySink {
    kept: Kept,
    failures: Failures,
}

impl MemorySink {
    /// A sink that has taken nothing. It takes no memory before its first byte.
    pub fn new(alloc: Global) -> MemorySink
        ensures taken { bytes_taken result ≡ [] }
        ensures flushed { bytes_flushed result ≡ [] }
        ensures failures { failures_met result ≡ 0 }
    {
        MemorySink {
            kept: Kept::new(Vec::new(alloc)),
            failures: Failures::new(),
        }
    }

    /// A sink that holds these bytes, all of them flushed.
    pub fn holding(bytes: Vec<u8>) -> MemorySink
        ensures taken { bytes_taken result ≡ bytes.items }
        ensures flushed { bytes_flushed result ≡ bytes.items }
        ensures failures { failures_met result ≡ 0 }
    {
        MemorySink {
            kept: Kept::flushed_of(bytes),
            failures: Failures::new(),
        }
    }

    /// The bytes taken so far.
    pub fn bytes(&self) -> &[u8]
        ensures { result.now ≡ bytes_taken self.now }
    {
        self.kept.bytes()
    }

    /// Those of them that are flushed: all that had been taken at the last flush.
    pub fn flushed(&self) -> &[u8]
        ensures { result.now ≡ bytes_flushed self.now }
    {
        self.kept.flushed()
    }
}

impl Sink for MemorySink {
    ghost failures = { failures_met };

    ghost taken = { λ sink. Some (bytes_taken sink) };

    ghost flushed = { λ sink. Some (bytes_flushed sink) };

    fn write(&mut self, bytes: &[u8]) -> Result<usize, Failed> {
        match self.kept.append(bytes) {
            Ok(()) => Ok(bytes.len()),
            Err(_) => {
                self.failures.rise();
                Err(Failed)
            }
        }
    }

    fn flush(&mut self) -> Result<(), Failed> {
        self.kept.flush();
        Ok(())
    }
}

impl Continue for MemorySink {
    fn cut(&mut self, length: u64) -> Result<(), Failed> {
        self.kept.cut(length);
        Ok(())
    }
}
