//! Devices over files. Contracts know the bytes of such a device only if they know the bytes of its
//! file. The bytes of a file of the system are not known. A reader or a writer whose bytes are
//! known, such as one over memory, shows that none is lost, doubled or made up here. Contracts do
//! not know what is flushed, since they do not know it for any file.

ghost use Rattle.std.specs.Prelude.{◌≡◌, IfOk, ◌<◌, length};
ghost use Rattle.std.specs.Io.{ReadsAtMost, WritesAtMost};
ghost use Rattle.std.specs.Io.KnownBytes.{Keeps, ReadConsumes, WriteAppends};
ghost use Rattle.device.specs.Failures.{Counts};
ghost use Rattle.device.specs.Files.{ReadsThere, read_file, read_failures, written_file, write_failures, log_file, log_failures, AppendsToLog};

use crate::{Continue, Failed, Failures, Reread, Sink, Source};
use std::fs::OpenFile;
use std::io::{ErrorKind, Read, Seek, SeekFrom, Write};

/// A source over an open file.
#[derive(Drop)]
pub struct FileSource<F> {
    file: F,
    hint: usize,
    failures: Failures,
}

impl<F> FileSource<F> {
    /// A source that reads the file from its current position.
    pub fn new(file: F) -> FileSource<F>
        ensures file { read_file result ≡ file }
        ensures failures { read_failures result ≡ 0 }
    {
        FileSource {
            file,
            hint: 0,
            failures: Failures::new(),
        }
    }
}

impl<F: OpenFile> FileSource<F> {
    /// As `new`, and the length that the file reports is a hint to the reader. A file that reports
    /// no length is read as well.
    pub fn sized(file: F) -> FileSource<F>
        ensures file { read_file result ≡ file }
        ensures failures { read_failures result ≡ 0 }
    {
        let hint = match file.metadata() {
            Ok(metadata) => metadata.len() as usize,
            Err(_) => 0,
        };
        FileSource {
            file,
            hint,
            failures: Failures::new(),
        }
    }
}

/// One read, which is tried again if a signal interrupted it.
fn read_once<F: Read>(file: &mut F, buffer: &mut [u8]) -> Result<usize, Failed>
    ensures within { ReadsAtMost result buffer.new }
    ensures bytes { ReadConsumes (F.remaining file.old) (F.remaining file.new) result buffer.new }
{
    for _ in 0..u64::MAX {
        match file.read(buffer) {
            Ok(count) => return Ok(count),
            Err(error) => {
                if error.kind() != ErrorKind::Interrupted {
                    return Err(Failed);
                }
            }
        }
    }
    Err(Failed)
}

impl<F: Read> Source for FileSource<F> {
    ghost failures = { read_failures };

    ghost left = { λ source. F.remaining (read_file source) };

    fn hint(&self) -> usize {
        self.hint
    }

    fn read(&mut self, buffer: &mut [u8]) -> Result<usize, Failed> {
        let answer = read_once(&mut self.file, buffer);
        if answer.is_err() {
            self.failures.rise();
        }
        answer
    }
}

/// Goes to an offset of a file, and reads once there.
fn read_once_at<F: Read + Seek>(
    file: &mut F,
    offset: u64,
    buffer: &mut [u8],
) -> Result<usize, Failed>
    ensures within { ReadsAtMost result buffer.new }
    ensures there { ReadsThere F.stream_position F.remaining file.old file.new offset
        result buffer.new }
{
    match file.seek(SeekFrom::Start(offset)) {
        Ok(_) => read_once(file, buffer),
        Err(_) => Err(Failed),
    }
}

/// Contracts do not know all of its bytes, since no file reports what it holds.
impl<F: Read + Seek> Reread for FileSource<F> {
    /// `Failed` too if the file cannot go to the offset, for example to 2^63 or more. `read`
    /// continues after the bytes that this call read.
    fn read_at(&mut self, offset: u64, buffer: &mut [u8]) -> Result<usize, Failed>
        ensures bound { ReadsAtMost result buffer.new }
        ensures there { ReadsThere F.stream_position F.remaining (read_file self.old)
            (read_file self.new) offset result buffer.new }
        ensures cause { Counts (read_failures self.old) (read_failures self.new) result }
    {
        let answer = read_once_at(&mut self.file, offset, buffer);
        if answer.is_err() {
            self.failures.rise();
        }
        answer
    }
}

/// A sink over an open file.
#[derive(Drop)]
pub struct FileSink<F> {
    file: F,
    failures: Failures,
}

impl<F> FileSink<F> {
    /// A sink that writes to the file from its current position.
    pub fn new(file: F) -> FileSink<F>
        ensures file { written_file result ≡ file }
        ensures failures { write_failures result ≡ 0 }
    {
        FileSink {
            file,
            failures: Failures::new(),
        }
    }
}

/// One write, which is tried again if a signal interrupted it. A write that takes none of some
/// bytes has failed.
fn write_once<F: Write>(file: &mut F, bytes: &[u8]) -> Result<usize, Failed>
    ensures within { WritesAtMost result bytes.now }
    ensures progress { IfOk result (λ count. 0 < length bytes.now → 0 < count) }
    ensures bytes { WriteAppends (F.contents file.old) (F.contents file.new) result bytes.now }
{
    for _ in 0..u64::MAX {
        match file.write(bytes) {
            Ok(0) if !bytes.is_empty() => return Err(Failed),
            Ok(count) => return Ok(count),
            Err(error) => {
                if error.kind() != ErrorKind::Interrupted {
                    return Err(Failed);
                }
            }
        }
    }
    Err(Failed)
}

/// Writes what is in the file's own buffer, and then asks the file to reach its disk. Whether both
/// were done.
fn is_synced<F: Write + OpenFile>(file: &mut F) -> bool
    ensures bytes { Keeps (F.contents file.old) (F.contents file.new) }
{
    file.flush().is_ok() && file.sync_all().is_ok()
}

impl<F: Write + OpenFile> Sink for FileSink<F> {
    ghost failures = { write_failures };

    ghost taken = { λ sink. F.contents (written_file sink) };

    // One call of the system. It may take fewer bytes than there are, as the trait allows.
    fn write(&mut self, bytes: &[u8]) -> Result<usize, Failed> {
        let answer = write_once(&mut self.file, bytes);
        if answer.is_err() {
            self.failures.rise();
        }
        answer
    }

    fn flush(&mut self) -> Result<(), Failed> {
        if is_synced(&mut self.file) {
            return Ok(());
        }
        self.failures.rise();
        Err(Failed)
    }
}

/// A log in an open file that is continued in place. Contracts know which bytes it writes, but not
/// those that it holds, since no file reports them. So they do not know what a cut leaves, nor what
/// is synced.
#[derive(Drop)]
pub struct FileLog<F> {
    sink: FileSink<F>,
}

impl<F> FileLog<F> {
    /// A log in a file that was opened to append: each write goes to the file's end.
    pub fn new(file: F) -> FileLog<F>
        ensures file { log_file result ≡ file }
        ensures failures { log_failures result ≡ 0 }
    {
        FileLog {
            sink: FileSink::new(file),
        }
    }
}

impl<F: Write + OpenFile> Sink for FileLog<F> {
    ghost failures = { log_failures };

    fn write(&mut self, bytes: &[u8]) -> Result<usize, Failed>
        ensures bound { WritesAtMost result bytes.now }
        ensures progress { IfOk result (λ count. 0 < length bytes.now → 0 < count) }
        ensures written { AppendsToLog F.contents self.old self.new result bytes.now }
        ensures cause { Counts (log_failures self.old) (log_failures self.new) result }
    {
        self.sink.write(bytes)
    }

    fn flush(&mut self) -> Result<(), Failed>
        ensures unwritten { Keeps (F.contents (log_file self.old))
            (F.contents (log_file self.new)) }
        ensures cause { Counts (log_failures self.old) (log_failures self.new) result }
    {
        self.sink.flush()
    }
}

/// Cuts off what a file holds after this many bytes. Whether that was done: it is not if the file
/// is shorter, since the cut would fill it up with zeros. A file of just this length is not
/// changed, so that a sync of it costs nothing.
fn is_cut<F: OpenFile>(file: &F, length: u64) -> bool {
    match file.metadata() {
        Ok(metadata) if length == metadata.len() => true,
        Ok(metadata) => length < metadata.len() && file.set_len(length).is_ok(),
        Err(_) => false,
    }
}

impl<F: Write + OpenFile> Continue for FileLog<F> {
    /// `Failed` too if the file holds fewer bytes.
    fn cut(&mut self, length: u64) -> Result<(), Failed>
        ensures unwritten { Keeps (F.contents (log_file self.old))
            (F.contents (log_file self.new)) }
        ensures cause { Counts (log_failures self.old) (log_failures self.new) result }
    {
        if is_cut(&self.sink.file, length) {
            return Ok(());
        }
        self.sink.failures.rise();
        Err(Failed)
    }
}
