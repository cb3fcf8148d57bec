//! The file of the tail while it is written. It has a name of its own until it is whole, so a file
//! with the name of the tail is always whole.

use crate::left::remove_left;
use crate::names::{PlaceFiles, name_until_whole};
use crate::new_file::{make, remove, sync_folder};
use device::FileSource;
use job_files::{Call, Failure, NotedFile, Notes};
use page::{Fault, VALUE_BYTES};
use recovery::read_source;
use std::alloc::Global;
use std::cell::Cell;
use std::fs::{self, File, Files, Metadata, OpenFile};
use std::io::{self, ErrorKind, Read, Seek, SeekFrom, Write};
use std::rt::Clock;
use wal::CELL_HEAD;

/// How many bytes the longest frame takes that is not a checkpoint's: an update with two values. An
/// engine that appends record by record leaves no longer torn tail.
pub const LONGEST_UPDATE: u64 = (CELL_HEAD + 2 * (1 + VALUE_BYTES)) as u64;

/// Bytes that are cut off a log.
#[derive(Clone, Copy, Debug, PartialEq, Eq)]
pub struct Cut {
    /// How many bytes of the log are before them.
    pub offset: u64,
    /// How many they are.
    pub count: u64,
}

/// The name of the file that keeps what is cut off a log at an offset.
pub fn torn_name(alloc: Global, log: &str, cut: Cut) -> io::Result<String> {
    let offset = cut.offset;
    Ok(format!(in alloc; "{log}.torn-{offset}")?)
}

/// The number of eight bytes at an offset in the front of a file.
fn number_at(front: &[u8; 24], offset: usize) -> u64 {
    let mut number = 0;
    for byte in front.iter().skip(offset).take(8) {
        number = number << 8 | u64::from(*byte);
    }
    number
}

/// What is cut off a log, by the front of the file of its tail: the magic, how long the log was, and
/// how much of it is kept.
fn cut_of(front: &[u8; 24]) -> Cut {
    let (length, kept) = (number_at(front, 8), number_at(front, 16));
    Cut {
        offset: kept,
        count: length.saturating_sub(kept),
    }
}

/// The new file of a tail. A sync of it puts it in its place: the file is synced, what is cut off
/// the log is kept if it is more than a torn record, the file gets the name of the tail, and its
/// folder is synced. After that the log may be changed.
#[derive(Drop)]
pub struct NewTail<'a, R: Files<File = File> + Clock> {
    file: NotedFile<'a, File, R>,
    rt: &'a R,
    alloc: Global,
    files: &'a PlaceFiles<'a>,
    log: File,
    cut: &'a Cell<Option<Cut>>,
}

impl<'a, R: Files<File = File> + Clock> NewTail<'a, R> {
    /// The file that was made for the tail of a log. `log` is the open log: it holds the lock. What
    /// is cut off the log is noted in `cut` when it is known.
    pub fn new(
        rt: &'a R,
        alloc: Global,
        files: &'a PlaceFiles<'a>,
        (made, log): (File, File),
        cut: &'a Cell<Option<Cut>>,
    ) -> NewTail<'a, R> {
        NewTail {
            file: NotedFile::new(made, rt, &files.new_tail),
            rt,
            alloc,
            files,
            log,
            cut,
        }
    }

    /// The first bytes of the file, which is whole.
    fn front(&self) -> io::Result<[u8; 24]> {
        let mut front = [0; 24];
        let files = self.files;
        let mut written = File::open(self.rt, files.new_tail.path)?;
        written.read_exact(&mut front)?;
        Ok(front)
    }

    /// The bytes that are cut off the log.
    fn torn(&self, cut: Cut) -> io::Result<Vec<u8>> {
        let mut torn = vec![in self.alloc; 0; cut.count as usize]?;
        let files = self.files;
        let mut log = File::open(self.rt, files.log.path)?;
        log.seek(SeekFrom::Start(cut.offset))?;
        log.read_exact(&mut torn)?;
        Ok(torn)
    }

    /// Writes a file with these bytes next to the log. It gets its name when it is synced.
    fn write_whole(&self, name: &str, bytes: &[u8]) -> io::Result<()> {
        let new_name = name_until_whole(self.alloc, name)?;
        let new = Notes::new("file", new_name.as_str());
        let failed = io::Error::from(ErrorKind::Other);
        if remove(self.rt, &new, Fault::WriteLog).is_err() {
            return Err(failed);
        }
        let Ok(mut file) = make(self.rt, &new, &self.log, Fault::WriteLog) else {
            return Err(failed);
        };
        file.write_all(bytes)?;
        file.sync_all()?;
        fs::rename(self.rt, new_name.as_str(), name)
    }

    /// Keeps what is cut off in a file next to the log. If an interrupted run has kept it, the file
    /// is there with the same bytes. One with other bytes is not replaced.
    fn keep(&self, cut: Cut) -> io::Result<()> {
        let torn = self.torn(cut)?;
        let files = self.files;
        let name = torn_name(self.alloc, files.log.path, cut)?;
        let file = match File::open(self.rt, name.as_str()) {
            Ok(file) => file,
            Err(error) if error.kind() == ErrorKind::NotFound => {
                return self.write_whole(name.as_str(), &torn);
            }
            Err(error) => return Err(error),
        };
        let mut source = FileSource::sized(file);
        match read_source(self.alloc, &mut source, Fault::WriteLog) {
            Ok(found) if found.as_slice() == torn.as_slice() => Ok(()),
            Ok(_) => Err(io::Error::from(ErrorKind::AlreadyExists)),
            Err(_) => Err(io::Error::from(ErrorKind::Other)),
        }
    }

    /// Puts the file, which is synced, in its place.
    fn put(&self) -> io::Result<()> {
        let files = self.files;
        let cut = cut_of(&self.front()?);
        if cut.count > LONGEST_UPDATE {
            if let Err(error) = self.keep(cut) {
                files.out_log.fail(Call::Keep, error);
                return Err(error);
            }
        }
        self.cut.set(Some(cut));
        let (new, tail) = (&files.new_tail, &files.tail);
        if let Err(error) = fs::rename(self.rt, new.path, tail.path) {
            new.fail(Call::Rename, error);
            return Err(error);
        }
        match sync_folder(self.rt, tail, Fault::WriteLog) {
            Ok(()) => Ok(()),
            Err(_) => Err(io::Error::from(ErrorKind::Other)),
        }
    }
}

impl<'a, R: Files<File = File> + Clock> Write for NewTail<'a, R> {
    fn write(&mut self, buf: &[u8]) -> io::Result<usize> {
        self.file.write(buf)
    }

    fn flush(&mut self) -> io::Result<()> {
        self.file.flush()
    }
}

impl<'a, R: Files<File = File> + Clock> OpenFile for NewTail<'a, R> {
    fn metadata(&self) -> io::Result<Metadata> {
        self.file.metadata()
    }

    fn set_len(&self, size: u64) -> io::Result<()> {
        self.file.set_len(size)
    }

    // The recovery flushes the file of the tail before it changes the log. So here the file gets its
    // name, and the folder is synced.
    fn sync_all(&self) -> io::Result<()> {
        self.file.sync_all()?;
        self.put()
    }

    fn sync_data(&self) -> io::Result<()> {
        self.sync_all()
    }
}

/// Makes the file in which the tail is written. One that an interrupted run left is removed.
pub fn make_tail<R: Files<File = File>>(
    rt: &R,
    files: &PlaceFiles,
    log: &File,
) -> Result<File, Fault> {
    remove_left(rt, &files.new_tail, Fault::WriteLog)?;
    make(rt, &files.new_tail, log, Fault::WriteLog)
}
