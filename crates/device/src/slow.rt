//! Devices for tests, over memory. They pass a few bytes a call and fail at a call that is chosen
//! beforehand. Contracts know their bytes.

ghost use Rattle.std.specs.Prelude.{◌≡◌, Some, None, true, false, [], IfOk, ◌<◌, ◌≤◌, ◌-◌, ◌^◌};
ghost use Rattle.device.specs.Slow.{bytes_left, bytes_held, bytes_shared, bytes_joined, bytes_taken, bytes_flushed, read_failures, write_failures};

use crate::again::{bytes_from, read_to_after};
use crate::kept::Kept;
use crate::{Continue, Failed, Failures, Reread, Share, SharedSource, Sink, Source, Span};
use std::alloc::{AllocError, Global};
use std::sync::atomic::{AtomicU64, Ordering};

/// How fast a device is, and at which call it fails.
#[derive(Clone, Copy, Debug)]
pub struct Pace {
    /// How many bytes a call passes at most. 0 is taken for 1.
    pub step: usize,
    /// The call that fails, the first being 1.
    pub fails_at: Option<u32>,
    /// Whether each flush fails.
    pub fails_flush: bool,
}

impl Pace {
    /// A device that passes this many bytes a call and never fails.
    pub fn of_step(step: usize) -> Pace
        ensures { result ≡ record { step = step; fails_at = None; fails_flush = false } }
    {
        Pace {
            step,
            fails_at: None,
            fails_flush: false,
        }
    }

    /// A device that passes this many bytes a call and fails at this call.
    pub fn failing(step: usize, call: u32) -> Pace
        ensures { result ≡ record { step = step; fails_at = Some call; fails_flush = false } }
    {
        Pace {
            step,
            fails_at: Some(call),
            fails_flush: false,
        }
    }

    /// A device that passes all bytes in one call, and whose flushes fail.
    pub fn unflushed() -> Pace
        ensures { result ≡ record { step = 2 ^ 64 - 1; fails_at = None; fails_flush = true } }
    {
        Pace {
            step: usize::MAX,
            fails_at: None,
            fails_flush: true,
        }
    }

    /// Counts a call. Returns whether it fails.
    fn is_due(&mut self) -> bool {
        match self.fails_at {
            Some(1) => {
                self.fails_at = None;
                true
            }
            Some(call) => {
                self.fails_at = Some(call.saturating_sub(1));
                false
            }
            None => false,
        }
    }

    /// How many of these bytes a call passes.
    fn count_of(&self, bytes: usize) -> usize
        ensures within { result ≤ bytes }
        ensures progress { 0 < bytes → 0 < result }
    {
        bytes.min(self.step.max(1))
    }
}

/// Borrowed bytes that several threads read at once. The call that fails is one of all their calls.
#[derive(Drop)]
pub struct SlowBytes<'a> {
    bytes: &'a [u8],
    pace: Pace,
    /// How many calls there were.
    calls: AtomicU64,
}

impl<'a> SlowBytes<'a> {
    /// A source that holds these bytes.
    pub fn new(bytes: &'a [u8], pace: Pace) -> SlowBytes<'a>
        ensures { bytes_shared result ≡ bytes.now }
    {
        SlowBytes {
            bytes,
            pace,
            calls: AtomicU64::new(0),
        }
    }

    /// Counts a call. Returns whether it fails.
    fn is_due(&self) -> bool {
        let call = self.calls.fetch_add(1, Ordering::SeqCst).wrapping_add(1);
        self.pace.fails_at.map(u64::from) == Some(call)
    }
}

impl<'a> SharedSource for SlowBytes<'a> {
    ghost text = { λ source. Some (bytes_shared source) };

    fn read_at(&self, offset: u64, buffer: &mut [u8]) -> Result<usize, Failed> {
        if self.is_due() {
            return Err(Failed);
        }
        let held = bytes_from(self.bytes, offset);
        let count = self.pace.count_of(held.len().min(buffer.len()));
        buffer[..count].copy_from_slice(&held[..count]);
        Ok(count)
    }
}

/// A source of borrowed bytes.
#[derive(Drop)]
pub struct SlowSource<'a> {
    shared: SlowBytes<'a>,
    rest: &'a [u8],
    /// How far they are read at offsets without a gap.
    read_to: u64,
    pace: Pace,
    failures: Failures,
}

impl<'a> SlowSource<'a> {
    /// A source that has all of these bytes left. As other threads read it, it passes as many bytes
    /// a call and never fails.
    pub fn new(bytes: &'a [u8], pace: Pace) -> SlowSource<'a>
        ensures left { bytes_left result ≡ bytes.now }
        ensures failures { read_failures result ≡ 0 }
        ensures text { bytes_held result ≡ bytes.now }
        ensures unread { bytes_joined result ≡ 0 }
    {
        SlowSource::sharing(bytes, pace, Pace::of_step(pace.step))
    }

    /// As `new`, but as other threads read it, it has a pace of its own.
    pub fn sharing(bytes: &'a [u8], pace: Pace, shared_pace: Pace) -> SlowSource<'a>
        ensures left { bytes_left result ≡ bytes.now }
        ensures failures { read_failures result ≡ 0 }
        ensures text { bytes_held result ≡ bytes.now }
        ensures unread { bytes_joined result ≡ 0 }
    {
        SlowSource {
            shared: SlowBytes::new(bytes, shared_pace),
            rest: bytes,
            read_to: 0,
            pace,
            failures: Failures::new(),
        }
    }
}

impl<'a> Source for SlowSource<'a> {
    ghost failures = { read_failures };

    ghost left = { λ source. Some (bytes_left source) };

    /// How much one call passes at most. As a hint this is wrong: there may be more bytes, or
    /// fewer.
    fn hint(&self) -> usize {
        self.pace.step
    }

    fn read(&mut self, buffer: &mut [u8]) -> Result<usize, Failed> {
        if self.pace.is_due() {
            self.failures.rise();
            return Err(Failed);
        }
        let count = self.pace.count_of(self.rest.len().min(buffer.len()));
        let (front, rest) = self.rest.split_at(count);
        buffer[..count].copy_from_slice(front);
        self.rest = rest;
        Ok(count)
    }
}

impl<'a> Reread for SlowSource<'a> {
    ghost text = { λ source. Some (bytes_held source) };

    ghost read_to = { bytes_joined };

    fn read_at(&mut self, offset: u64, buffer: &mut [u8]) -> Result<usize, Failed> {
        if self.pace.is_due() {
            self.failures.rise();
            return Err(Failed);
        }
        let held = bytes_from(self.shared.bytes, offset);
        let count = self.pace.count_of(held.len().min(buffer.len()));
        buffer[..count].copy_from_slice(&held[..count]);
        self.read_to = read_to_after(self.read_to, offset, count);
        Ok(count)
    }
}

impl<'a> Share for SlowSource<'a> {
    type Shared = SlowBytes<'a>;

    fn shared(&self) -> &SlowBytes<'a> {
        &self.shared
    }

    fn count_read(&mut self, span: Span) {
        if span.from <= self.read_to {
            self.read_to = self.read_to.max(span.to);
        }
    }
}

/// A sink that keeps what it takes, in memory that it has beforehand. It fails if that is full.
#[derive(Drop)]
pub struct SlowSink {
    kept: Kept,
    pace: Pace,
    failures: Failures,
}

impl SlowSink {
    /// A sink that has taken nothing, with room for `room` bytes. `AllocError` if the memory was
    /// refused.
    pub fn new(alloc: Global, room: usize, pace: Pace) -> Result<SlowSink, AllocError>
        ensures taken { IfOk result (λ sink. bytes_taken sink ≡ []) }
        ensures flushed { IfOk result (λ sink. bytes_flushed sink ≡ []) }
        ensures failures { IfOk result (λ sink. write_failures sink ≡ 0) }
    {
        Ok(SlowSink {
            kept: Kept::new(Vec::with_capacity(alloc, room)?),
            pace,
            failures: Failures::new(),
        })
    }

    /// A sink that holds these bytes, all of them flushed, and has room for `room` bytes in all.
    /// `AllocError` if the memory was refused.
    pub fn holding(
        alloc: Global,
        bytes: &[u8],
        room: usize,
        pace: Pace,
    ) -> Result<SlowSink, AllocError>
        ensures taken { IfOk result (λ sink. bytes_taken sink ≡ bytes.now) }
        ensures flushed { IfOk result (λ sink. bytes_flushed sink ≡ bytes.now) }
        ensures failures { IfOk result (λ sink. write_failures sink ≡ 0) }
    {
        let mut held = Vec::with_capacity(alloc, room)?;
        held.extend_from_slice(bytes)?;
        Ok(SlowSink {
            kept: Kept::flushed_of(held),
            pace,
            failures: Failures::new(),
        })
    }

    /// The bytes taken so far.
    pub fn bytes(&self) -> &[u8]
        ensures { result.now ≡ bytes_taken self.now }
    {
        self.kept.bytes()
    }

    /// Those of them that are flushed: all that had been taken at the last flush that did not fail.
    pub fn flushed(&self) -> &[u8]
        ensures { result.now ≡ bytes_flushed self.now }
    {
        self.kept.flushed()
    }
}

impl Sink for SlowSink {
    ghost failures = { write_failures };

    ghost taken = { λ sink. Some (bytes_taken sink) };

    ghost flushed = { λ sink. Some (bytes_flushed sink) };

    fn write(&mut self, bytes: &[u8]) -> Result<usize, Failed> {
        let count = self.pace.count_of(bytes.len());
        if self.pace.is_due() || self.kept.append(&bytes[..count]).is_err() {
            self.failures.rise();
            return Err(Failed);
        }
        Ok(count)
    }

    fn flush(&mut self) -> Result<(), Failed> {
        if self.pace.fails_flush || self.pace.is_due() {
            self.failures.rise();
            return Err(Failed);
        }
        self.kept.flush();
        Ok(())
    }
}

impl Continue for SlowSink {
    fn cut(&mut self, length: u64) -> Result<(), Failed> {
        if self.pace.is_due() {
            self.failures.rise();
            return Err(Failed);
        }
        self.kept.cut(length);
        Ok(())
    }
}
