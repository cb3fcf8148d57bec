//! Sources that several threads read at once. Each thread has a reader of its own.

ghost use Rattle.std.specs.Prelude.{◌≡◌, ◌+◌, ◌<◌, ◌≤◌, ◌^◌, ℕ, List, None, IfOk, IfSome, IsTrue, is_some, Ok, OnErr, length};
ghost use Rattle.std.specs.declared.option.Option.{Option};
ghost use Rattle.std.specs.Io.{ReadsAtMost};
ghost use Rattle.std.specs.Io.KnownBytes.{Keeps};
ghost use Rattle.device.specs.Failures.{Counts};
ghost use Rattle.device.specs.Rereading.{StaysRead};
ghost use Rattle.device.specs.Shared.{GivesFrom, EndsIfNone, ReaderGives, ReaderEnds, ReaderReaches, ReachesInAny};
ghost use Rattle.device.specs.Shared.{CountsSpan, CountsNoMore, span_from, span_to, reader_source, reader_from, reader_read_to, reader_place, reader_failures};

use crate::again::read_to_after;
use crate::{Failed, Failures, Reread, Source};

/// A source that several threads read at once, each from any offset.
pub trait SharedSource: Sync {
    /// All bytes that the device holds, from its beginning on, or `None` if they are not known.
    ghost text: { Self → Option (List ℕ) } = { λ _. None };

    /// Puts bytes that the device holds from `offset` on at the front of the buffer, and returns
    /// how many: 0 only if `offset` is at or past the end, or if the buffer is empty. There may be
    /// fewer than the device holds and the buffer takes. The rest of the buffer is not specified.
    ///
    /// `Failed` if the device failed. The content of the buffer is then not specified. The device
    /// still holds the same bytes, and can be read again.
    fn read_at(&self, offset: u64, buffer: &mut [u8]) -> Result<usize, Failed>
        ensures bound { ReadsAtMost result buffer.new }
        ensures bytes { GivesFrom (text self.now) offset result buffer.new }
        ensures end { EndsIfNone (text self.now) offset result buffer.new };
}

/// The bytes that a reader has read without a gap: from one offset to another. Only a
/// [`SharedReader`] makes one.
#[derive(Clone, Copy, Debug)]
pub struct Span {
    pub(crate) from: u64,
    pub(crate) to: u64,
}

/// A source that can be read again, by other threads too.
pub trait Share: Reread {
    /// What these threads read.
    type Shared: SharedSource;

    /// The source as other threads read it. It holds the same bytes.
    fn shared(&self) -> &Self::Shared
        ensures same { Self.Shared.text result.now ≡ Self.text self.now };

    /// Counts the bytes of a span as read, which a reader of the shared source has read. The device
    /// is then read to the end of the span without a gap, if it was read to its beginning before.
    fn count_read(&mut self, span: Span)
        ensures same { Keeps (Self.text self.old) (Self.text self.new) }
        ensures grows { StaysRead Self.text Self.read_to self.old self.new }
        ensures joins { CountsSpan Self.text Self.read_to self.old self.new span }
        ensures given { CountsNoMore Self.text Self.read_to self.old self.new span }
        ensures failures { Self.failures self.new ≡ Self.failures self.old };
}

/// One thread's reader of a shared source: a source of its own, which can be read again. It counts
/// as read up to the offset at which it was begun.
#[derive(Drop)]
pub struct SharedReader<'a, S> {
    source: &'a S,
    from: u64,
    /// How far it has read from there without a gap.
    read_to: u64,
    /// The offset from which `read` continues.
    at: u64,
    failures: Failures,
}

impl<'a, S: SharedSource> SharedReader<'a, S> {
    /// A reader that begins at this offset.
    pub fn new(source: &'a S, from: u64) -> SharedReader<'a, S>
        ensures source { reader_source result ≡ source.now }
        ensures begun { reader_from result ≡ from }
        ensures unread { reader_read_to result ≡ from }
        ensures place { reader_place result ≡ from }
        ensures failures { reader_failures result ≡ 0 }
    {
        SharedReader {
            source,
            from,
            read_to: from,
            at: from,
            failures: Failures::new(),
        }
    }

    /// What it has read without a gap from an offset on. `None` if it was begun after that.
    pub fn span_from(&self, offset: u64) -> Option<Span>
        ensures from { IfSome result (λ span. span_from span ≡ offset) }
        ensures to { IfSome result (λ span. span_to span ≡ reader_read_to self.now) }
        ensures begun { reader_from self.now ≤ offset → IsTrue (is_some result) }
    {
        if offset < self.from {
            return None;
        }
        Some(Span {
            from: offset,
            to: self.read_to,
        })
    }
}

impl<'a, S> SharedReader<'a, S> {
    /// Counts a read at an offset, which returned this. `Failed` too if the read ends past the
    /// greatest offset.
    fn counted(&mut self, offset: u64, read: Result<usize, Failed>) -> Result<usize, Failed>
        ensures passed { IfOk result (λ count. read ≡ Ok count) }
        ensures fits { IfOk result (λ count. offset + count < 2 ^ 64) }
        ensures same { reader_source self.new ≡ reader_source self.old }
        ensures begun { reader_from self.new ≡ reader_from self.old }
        ensures place { reader_place self.new ≡ reader_place self.old }
        ensures reach { ReachesInAny self.old self.new offset result }
        ensures cause { Counts (reader_failures self.old) (reader_failures self.new) result }
    {
        match read {
            Ok(count) if offset.checked_add(count as u64).is_some() => {
                self.read_to = read_to_after(self.read_to, offset, count);
                Ok(count)
            }
            _ => {
                self.failures.rise();
                Err(Failed)
            }
        }
    }
}

impl<'a, S: SharedSource> Source for SharedReader<'a, S> {
    ghost failures = { reader_failures };

    /// Contracts say what it reads, by the offset from which it continues. `Failed` too if the read
    /// ends past the greatest offset.
    fn read(&mut self, buffer: &mut [u8]) -> Result<usize, Failed>
        ensures bound { ReadsAtMost result buffer.new }
        ensures bytes { ReaderGives S.text self.old (reader_place self.old) result buffer.new }
        ensures end { ReaderEnds S.text self.old (reader_place self.old) result buffer.new }
        ensures continues { IfOk result (λ count. reader_place self.new
            ≡ reader_place self.old + count) }
        ensures stays { OnErr result (reader_place self.new ≡ reader_place self.old) }
        ensures same { reader_source self.new ≡ reader_source self.old }
        ensures begun { reader_from self.new ≡ reader_from self.old }
        ensures reach { ReaderReaches S.text self.old self.new (reader_place self.old) result }
        ensures cause { Counts (reader_failures self.old) (reader_failures self.new) result }
    {
        let read = self.source.read_at(self.at, buffer);
        let count = self.counted(self.at, read)?;
        self.at += count as u64;
        Ok(count)
    }
}

impl<'a, S: SharedSource> Reread for SharedReader<'a, S> {
    ghost text = { λ reader. S.text (reader_source reader) };

    ghost read_to = { reader_read_to };

    /// `Failed` too if the read ends past the greatest offset. `read` continues where it did.
    fn read_at(&mut self, offset: u64, buffer: &mut [u8]) -> Result<usize, Failed>
        ensures bound { ReadsAtMost result buffer.new }
        ensures bytes { ReaderGives S.text self.old offset result buffer.new }
        ensures end { ReaderEnds S.text self.old offset result buffer.new }
        ensures source { reader_source self.new ≡ reader_source self.old }
        ensures same { Keeps (S.text (reader_source self.old)) (S.text (reader_source self.new)) }
        ensures begun { reader_from self.new ≡ reader_from self.old }
        ensures reach { ReaderReaches S.text self.old self.new offset result }
        ensures place { reader_place self.new ≡ reader_place self.old }
        ensures cause { Counts (reader_failures self.old) (reader_failures self.new) result }
    {
        let read = self.source.read_at(offset, buffer);
        self.counted(offset, read)
    }
}
