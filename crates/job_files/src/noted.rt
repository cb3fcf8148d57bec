//! What is noted of a job's files: how much was read or written and when, and which call failed.

ghost use Rattle.job_files.specs.Noted.{inner_file};

use std::cell::Cell;
use std::fmt;
use std::fs::{Metadata, OpenFile};
use std::io::{self, ErrorKind, Read, Seek, SeekFrom, Write};
use std::rt::Clock;
use std::time::{Duration, Instant};

/// A call on a file.
#[derive(Clone, Copy, Debug, PartialEq, Eq)]
pub enum Call {
    Open,
    Make,
    Read,
    Write,
    Sync,
    SyncFolder,
    Rename,
    Remove,
    Lock,
    /// Keeps the bytes that are cut off a log.
    Keep,
}

impl fmt::Display for Call {
    fn fmt<W: fmt::Write>(&self, f: &mut fmt::Formatter<W>) -> fmt::Result {
        f.write_str(match self {
            Call::Open => "opening",
            Call::Make => "making",
            Call::Read => "reading",
            Call::Write => "writing",
            Call::Sync => "syncing",
            Call::SyncFolder => "syncing the folder of",
            Call::Rename => "renaming",
            Call::Remove => "removing",
            Call::Lock => "locking",
            Call::Keep => "keeping what is cut off",
        })
    }
}

/// Why a file is not taken for what the job needs it to be.
#[derive(Clone, Copy, Debug, PartialEq, Eq)]
pub enum Refusal {
    /// It is a folder, a pipe or a device.
    NotRegular,
    /// It has a second name, a hard link.
    SecondName,
    /// Its name stands for another file by now.
    Replaced,
    /// Another file of the job is the same.
    Twice,
    /// Another program has locked it.
    Locked,
    /// No recovery left it there, or its bytes have changed.
    NotLeft,
    /// It is the file of the tail of another log.
    OtherLog,
    /// Its owner is neither that of the log nor the user of the process.
    OtherOwner,
    /// It is a log that `aries_files` keeps.
    Kept,
    /// It is a log whose LSNs may be too large to read it in pieces.
    HighLsns,
}

impl fmt::Display for Refusal {
    fn fmt<W: fmt::Write>(&self, f: &mut fmt::Formatter<W>) -> fmt::Result {
        f.write_str(match self {
            Refusal::NotRegular => "is not a regular file, so nothing is recovered in place",
            Refusal::SecondName => "has a second name (a hard link), which would keep the old file",
            Refusal::Replaced => "was replaced by another program just now: run this again",
            Refusal::Twice => "is given twice, or is one that the recovery needs for itself",
            Refusal::Locked => "is locked by another program: wait until that has ended",
            Refusal::NotLeft => "was not left by a recovery, or is damaged: move it away",
            Refusal::OtherLog => {
                "is of another log: put that log back, or remove the file if the log was replaced"
            }
            Refusal::OtherOwner => "is of another user than the log: remove it if it is not yours",
            Refusal::Kept => {
                "is kept by aries_files, by sums-N or pages beside it: \
                 open and close the folder with its own program"
            }
            Refusal::HighLsns => "has LSNs near 2^63: recover it into new files",
        })
    }
}

/// Why a job ended that concerns a file.
#[derive(Clone, Copy)]
pub enum Failure {
    /// A call failed, for the reason that the system gave.
    Call(Call, io::Error),
    /// The file was refused.
    Refused(Refusal),
}

/// A file of a job, and what is noted of it.
#[derive(Drop)]
pub struct Notes<'a> {
    /// The role of the file in the job, such as `new log`.
    pub role: &'a str,
    pub path: &'a str,
    bytes: Cell<u64>,
    began: Cell<Option<Instant>>,
    ended: Cell<Option<Instant>>,
    failure: Cell<Option<Failure>>,
    let_pass: Cell<Option<Failure>>,
}

impl<'a> Notes<'a> {
    /// A file with nothing noted yet.
    pub fn new(role: &'a str, path: &'a str) -> Notes<'a> {
        Notes {
            role,
            path,
            bytes: Cell::new(0),
            began: Cell::new(None),
            ended: Cell::new(None),
            failure: Cell::new(None),
            let_pass: Cell::new(None),
        }
    }

    /// How many bytes the calls on the file have read and written so far. Those that are read twice
    /// count twice.
    pub fn bytes(&self) -> u64 {
        self.bytes.get()
    }

    /// When the first call on the open file began, if there was one and the clock worked.
    pub fn began(&self) -> Option<Instant> {
        self.began.get()
    }

    /// When the last call on the open file ended, if there was one and the clock worked.
    pub fn ended(&self) -> Option<Instant> {
        self.ended.get()
    }

    /// How long it took from the first call to the last.
    pub fn duration(&self) -> Option<Duration> {
        Some(self.ended()?.duration_since(self.began()?))
    }

    /// The last failure of those that end the job.
    pub fn failure(&self) -> Option<Failure> {
        self.failure.get()
    }

    /// The last call that failed without ending the job.
    pub fn let_pass(&self) -> Option<Failure> {
        self.let_pass.get()
    }

    /// Notes a call that failed. A call that a signal interrupted does not count: it is made again.
    pub fn fail(&self, call: Call, error: io::Error) {
        if error.kind() != ErrorKind::Interrupted {
            self.failure.set(Some(Failure::Call(call, error)));
        }
    }

    /// Notes that the file was refused.
    pub fn refuse(&self, refusal: Refusal) {
        self.failure.set(Some(Failure::Refused(refusal)));
    }

    /// Notes for this file what was noted for it elsewhere.
    pub fn note(&self, failure: Failure) {
        self.failure.set(Some(failure));
    }

    /// Notes a call that failed although the job goes on.
    pub fn pass_over(&self, call: Call, error: io::Error) {
        self.let_pass.set(Some(Failure::Call(call, error)));
    }

    /// Notes that a call on the open file begins.
    fn begin<C: Clock>(&self, clock: &C) {
        if self.began.get().is_none() {
            self.began.set(Instant::now(clock).ok());
        }
    }

    /// Notes that a call on the open file ended, and whether it failed.
    fn end<T, C: Clock>(&self, clock: &C, call: Call, answer: &io::Result<T>) {
        self.ended.set(Instant::now(clock).ok());
        if let Err(error) = answer {
            self.fail(call, *error);
        }
    }

    /// Notes how many bytes a call passed.
    fn pass(&self, answer: &io::Result<usize>) {
        if let Ok(count) = answer {
            self.bytes
                .set(self.bytes.get().saturating_add(*count as u64));
        }
    }
}

/// An open file whose calls are noted. It reads and writes the bytes of the file.
#[derive(Drop)]
pub struct NotedFile<'a, F, C> {
    file: F,
    clock: &'a C,
    notes: &'a Notes<'a>,
}

impl<'a, F, C> NotedFile<'a, F, C> {
    /// Notes the calls on this file from now on.
    pub fn new(file: F, clock: &'a C, notes: &'a Notes<'a>) -> NotedFile<'a, F, C> {
        NotedFile { file, clock, notes }
    }
}

impl<'a, F: Read, C: Clock> Read for NotedFile<'a, F, C> {
    ghost remaining = { λ noted. F.remaining (inner_file noted) };

    fn read(&mut self, buf: &mut [u8]) -> io::Result<usize> {
        self.notes.begin(self.clock);
        let answer = self.file.read(buf);
        self.notes.end(self.clock, Call::Read, &answer);
        self.notes.pass(&answer);
        answer
    }
}

impl<'a, F: Seek, C: Clock> Seek for NotedFile<'a, F, C> {
    ghost stream_position = { λ noted. F.stream_position (inner_file noted) };

    ghost stream_bytes = { λ noted. F.stream_bytes (inner_file noted) };

    fn seek(&mut self, to: SeekFrom) -> io::Result<u64> {
        self.notes.begin(self.clock);
        let answer = self.file.seek(to);
        self.notes.end(self.clock, Call::Read, &answer);
        answer
    }
}

impl<'a, F: Write, C: Clock> Write for NotedFile<'a, F, C> {
    ghost contents = { λ noted. F.contents (inner_file noted) };

    fn write(&mut self, buf: &[u8]) -> io::Result<usize> {
        self.notes.begin(self.clock);
        let answer = self.file.write(buf);
        self.notes.end(self.clock, Call::Write, &answer);
        self.notes.pass(&answer);
        if matches!(answer, Ok(0)) && !buf.is_empty() {
            let error = io::Error::from(ErrorKind::WriteZero);
            self.notes.fail(Call::Write, error);
        }
        answer
    }

    fn flush(&mut self) -> io::Result<()> {
        self.notes.begin(self.clock);
        let answer = self.file.flush();
        self.notes.end(self.clock, Call::Write, &answer);
        answer
    }
}

impl<'a, F: OpenFile, C: Clock> OpenFile for NotedFile<'a, F, C> {
    fn metadata(&self) -> io::Result<Metadata> {
        self.file.metadata()
    }

    fn set_len(&self, size: u64) -> io::Result<()> {
        self.file.set_len(size)
    }

    // A sync is never the first call on a file, so its beginning is not noted.
    fn sync_all(&self) -> io::Result<()> {
        let answer = self.file.sync_all();
        self.notes.end(self.clock, Call::Sync, &answer);
        answer
    }

    // As `sync_all`.
    fn sync_data(&self) -> io::Result<()> {
        let answer = self.file.sync_data();
        self.notes.end(self.clock, Call::Sync, &answer);
        answer
    }
}
