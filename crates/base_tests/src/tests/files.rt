//! Files that are interrupted, fail or take nothing, and one of the system.

ghost use Rattle.std.specs.Prelude.{IfOk, ◌≤◌};

use checks::{check, check_all};
use device::{
    Continue, Failed, FileLog, FileSink, FileSource, ReadFault, Reread, Sink, read_all, write_all,
};
use std::alloc::Global;
use std::fs::{File, Metadata, OpenFile, OpenOptions};
use std::io::{Error, ErrorKind, Read, Seek, SeekFrom, Write};
use std::test::Fail;
use std::{fs, io};

/// What a file does at a call.
#[derive(Clone, Copy)]
enum Turn {
    /// It passes this number of bytes.
    Pass(usize),
    /// A signal interrupts it.
    Interrupted,
    /// It fails.
    Broken,
    /// It fails, except for a sync.
    Unflushed,
}

/// A file that takes these turns, one a call, and then passes no byte. It is not synced if its next
/// turn fails, and not before it was asked to flush what was written.
#[derive(Drop)]
struct Fake<'a> {
    turns: &'a [Turn],
    is_asked_to_flush: bool,
}

impl<'a> Fake<'a> {
    /// The result of one call for this number of bytes.
    fn turn(&mut self, bytes: usize) -> io::Result<usize>
        ensures { IfOk result (λ count. count ≤ bytes) }
    {
        let turn = match self.turns.split_first() {
            Some((first, rest)) => {
                self.turns = rest;
                *first
            }
            None => Turn::Pass(0),
        };
        match turn {
            Turn::Pass(count) => Ok(count.min(bytes)),
            Turn::Interrupted => Err(Error::from(ErrorKind::Interrupted)),
            Turn::Broken | Turn::Unflushed => Err(Error::from(ErrorKind::Other)),
        }
    }
}

impl<'a> Read for Fake<'a> {
    fn read(&mut self, buf: &mut [u8]) -> io::Result<usize> {
        let count = self.turn(buf.len())?;
        buf[..count].fill(b'x');
        Ok(count)
    }
}

impl<'a> Seek for Fake<'a> {
    fn seek(&mut self, _to: SeekFrom) -> io::Result<u64> {
        self.turn(0)?;
        Ok(0)
    }
}

impl<'a> Write for Fake<'a> {
    fn write(&mut self, buf: &[u8]) -> io::Result<usize> {
        self.is_asked_to_flush = false;
        self.turn(buf.len())
    }

    fn flush(&mut self) -> io::Result<()> {
        self.is_asked_to_flush = true;
        match self.turns.first() {
            Some(Turn::Unflushed) => Err(Error::from(ErrorKind::Other)),
            _ => Ok(()),
        }
    }
}

impl<'a> OpenFile for Fake<'a> {
    fn metadata(&self) -> io::Result<Metadata> {
        Err(Error::from(ErrorKind::Unsupported))
    }

    fn set_len(&self, _size: u64) -> io::Result<()> {
        Err(Error::from(ErrorKind::Unsupported))
    }

    fn sync_all(&self) -> io::Result<()> {
        match self.turns.first() {
            Some(Turn::Broken) => Err(Error::from(ErrorKind::Other)),
            _ if !self.is_asked_to_flush => Err(Error::from(ErrorKind::Other)),
            _ => Ok(()),
        }
    }

    fn sync_data(&self) -> io::Result<()> {
        self.sync_all()
    }
}

/// A file with these turns, to be read.
fn source<'a>(turns: &'a [Turn]) -> FileSource<Fake<'a>> {
    FileSource::new(Fake {
        turns,
        is_asked_to_flush: false,
    })
}

/// A file with these turns, to be written.
fn sink<'a>(turns: &'a [Turn]) -> FileSink<Fake<'a>> {
    FileSink::new(Fake {
        turns,
        is_asked_to_flush: false,
    })
}

/// Whether all that a file with these turns gives is this.
fn is_read(alloc: Global, turns: &[Turn], bytes: &[u8]) -> Result<bool, ReadFault> {
    let read = read_all(alloc, &mut source(turns))?;
    Ok(read.as_slice() == bytes)
}

/// The result of writing "abc" to a file with these turns.
fn written(turns: &[Turn]) -> Result<(), Failed> {
    write_all(&mut sink(turns), b"abc")
}

/// The result of a flush of a file with these turns.
fn flushed(turns: &[Turn]) -> Result<(), Failed> {
    sink(turns).flush()
}

#[test]
fn interruptions_are_no_failures(rt: HostRuntime) -> Result<(), Fail> {
    let turns = [
        Turn::Interrupted,
        Turn::Pass(2),
        Turn::Interrupted,
        Turn::Pass(1),
    ];
    check(is_read(rt.alloc(), &turns, b"xxx")?, "read")?;
    check(written(&turns).is_ok(), "written")
}

#[test]
fn reads_fail_in_mid_stream(rt: HostRuntime) -> Result<(), Fail> {
    let turns = [Turn::Pass(2), Turn::Broken, Turn::Pass(1)];
    let read = is_read(rt.alloc(), &turns, b"xx");
    check(matches!(read, Err(ReadFault::Failed)), "read")
}

/// The result of a read of a file with these turns from an offset. A seek takes the first turn.
fn read_again(turns: &[Turn]) -> Result<usize, Failed> {
    source(turns).read_at(7, &mut [0; 4])
}

#[test]
fn a_file_is_read_again_or_fails() -> Result<(), Fail> {
    let seek = Turn::Pass(0);
    let interrupted = [seek, Turn::Interrupted, Turn::Pass(3), Turn::Pass(1)];
    check_all(&[
        (read_again(&interrupted) == Ok(3), "an interrupted read"),
        (read_again(&[seek]) == Ok(0), "the end"),
        (read_again(&[Turn::Broken]).is_err(), "a seek that fails"),
        (
            read_again(&[seek, Turn::Broken]).is_err(),
            "a read that fails",
        ),
    ])
}

#[test]
fn writes_fail_in_mid_stream() -> Result<(), Fail> {
    let turns = [Turn::Pass(2), Turn::Broken, Turn::Pass(1)];
    check(written(&turns).is_err(), "written")
}

#[test]
fn a_write_that_takes_nothing_fails() -> Result<(), Fail> {
    check(written(&[Turn::Pass(2), Turn::Pass(0)]).is_err(), "written")?;
    check(sink(&[Turn::Pass(0)]).write(b"") == Ok(0), "no bytes")
}

#[test]
fn flush_syncs() -> Result<(), Fail> {
    check(flushed(&[]).is_ok(), "flushed")?;
    check(flushed(&[Turn::Broken]).is_err(), "a sync that fails")
}

#[test]
fn a_file_is_flushed_before_it_is_synced() -> Result<(), Fail> {
    let turns = [Turn::Pass(3), Turn::Pass(2)];
    let mut out = sink(&turns);
    write_all(&mut out, b"abc")?;
    let first = out.flush();
    write_all(&mut out, b"de")?;
    let second = out.flush();
    check_all(&[
        (first.is_ok(), "the first flush"),
        (second.is_ok(), "the second flush"),
        (flushed(&[Turn::Unflushed]).is_err(), "a flush that fails"),
    ])
}

/// Writes "bytes" to a new file of the system.
fn write_new(rt: &HostRuntime, path: &str) -> Result<(), Fail> {
    let mut out = FileSink::new(File::create_new(rt, path)?);
    let is_out = write_all(&mut out, b"bytes").is_ok() && out.flush().is_ok();
    check(is_out, "written")
}

/// Whether a file of the system holds "bytes".
fn holds_bytes(alloc: Global, file: File) -> Result<bool, ReadFault> {
    let read = read_all(alloc, &mut FileSource::new(file))?;
    Ok(read.as_slice() == b"bytes".as_slice())
}

#[test]
fn a_file_of_the_system(rt: HostRuntime) -> Result<(), Fail> {
    let path = "device-of-the-tests";
    let _ = fs::remove_file(&rt, path);
    write_new(&rt, path)?;
    let is_read = holds_bytes(rt.alloc(), File::open(&rt, path)?);
    fs::remove_file(&rt, path)?;
    check(is_read?, "read")
}

/// A log in a new file of the system that holds "bytes", opened to append.
fn new_log(rt: &HostRuntime, path: &str) -> Result<FileLog<File>, Fail> {
    let _ = fs::remove_file(rt, path);
    write_new(rt, path)?;
    let mut options = OpenOptions::new();
    options.append(true);
    Ok(FileLog::new(options.open(rt, path)?))
}

/// A log is cut to fewer bytes, and never to more: it would be filled up with zeros.
#[test]
fn a_log_of_the_system_is_continued(rt: HostRuntime) -> Result<(), Fail> {
    let path = "log-to-continue";
    let mut log = new_log(&rt, path)?;
    let is_longer = log.cut(6).is_ok();
    let is_cut = log.cut(1).is_ok() && log.flush().is_ok();
    let is_out = write_all(&mut log, b"xy").is_ok() && log.flush().is_ok();
    let bytes = fs::read(&rt, path)?;
    fs::remove_file(&rt, path)?;
    check_all(&[
        (!is_longer, "longer"),
        (is_cut && is_out, "continued"),
        (bytes.len() == 3 && bytes.ends_with(b"xy"), "bytes"),
    ])
}
