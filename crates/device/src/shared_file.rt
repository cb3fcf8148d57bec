//! A file that several threads read at once, by calls that name the offset. Contracts know none of
//! its bytes, since no file of the system reports what it holds.

ghost use Rattle.std.specs.Prelude.{◌≡◌, IfOk, ◌<◌, length};
ghost use Rattle.std.specs.Io.{ReadsAtMost};
ghost use Rattle.device.specs.Failures.{Counts};
ghost use Rattle.device.specs.Files.{OwnReads, own_failures, own_source, read_file, read_failures};

use crate::{Failed, FileSource, Reread, Share, SharedSource, Source, Span};
use std::fs::File;
use std::io::{ErrorKind, Read, Seek};
use std::os::unix::fs::FileExt;

/// An open file that several threads read at once.
#[derive(Drop)]
pub struct SharedFile {
    file: File,
}

impl SharedFile {
    /// A source that reads this file. The file's position stays where it is.
    pub fn new(file: File) -> SharedFile {
        SharedFile { file }
    }
}

impl SharedSource for SharedFile {
    /// One read, which is tried again if a signal interrupted it. `Failed` too at an offset of 2^63
    /// or more.
    fn read_at(&self, offset: u64, buffer: &mut [u8]) -> Result<usize, Failed> {
        for _ in 0..u64::MAX {
            match self.file.read_at(buffer, offset) {
                Ok(count) => return Ok(count),
                Err(error) => {
                    if error.kind() != ErrorKind::Interrupted {
                        return Err(Failed);
                    }
                }
            }
        }
        Err(Failed)
    }
}

/// A source over an open file, which other threads read through a second one. Both must be open on
/// the same file, as the clone of a handle is, which no type can check.
#[derive(Drop)]
pub struct SharedFileSource<F> {
    source: FileSource<F>,
    shared: SharedFile,
}

impl<F> SharedFileSource<F> {
    /// This source, which other threads read through this file.
    pub fn new(source: FileSource<F>, shared: SharedFile) -> SharedFileSource<F>
        ensures { own_source result ≡ source }
    {
        SharedFileSource { source, shared }
    }
}

impl<F: Read> Source for SharedFileSource<F> {
    ghost failures = { λ source. read_failures (own_source source) };

    ghost left = { λ source. F.remaining (read_file (own_source source)) };

    fn hint(&self) -> usize {
        self.source.hint()
    }

    fn read(&mut self, buffer: &mut [u8]) -> Result<usize, Failed> {
        self.source.read(buffer)
    }
}

/// Contracts do not know all of its bytes.
impl<F: Read + Seek> Reread for SharedFileSource<F> {
    /// As for a [`FileSource`].
    fn read_at(&mut self, offset: u64, buffer: &mut [u8]) -> Result<usize, Failed>
        ensures bound { ReadsAtMost result buffer.new }
        ensures there { OwnReads F.stream_position F.remaining self.old self.new offset
            result buffer.new }
        ensures cause { Counts (own_failures self.old) (own_failures self.new) result }
    {
        self.source.read_at(offset, buffer)
    }
}

impl<F: Read + Seek> Share for SharedFileSource<F> {
    type Shared = SharedFile;

    fn shared(&self) -> &SharedFile {
        &self.shared
    }

    /// Nothing is to be counted, since contracts do not know the bytes.
    fn count_read(&mut self, _span: Span)
        ensures { own_source self.new ≡ own_source self.old }
    {}
}
