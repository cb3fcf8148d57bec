//! The files of a recovery in place: which they are, and whether it may change them.

use crate::files::OldFiles;
use crate::new_file::{open, refuse};
use job_files::{
    Call, Notes, Refusal, folder_of, is_kept, is_regular, real_name, tail_name, try_lock,
};
use page::Fault;
use std::alloc::{AllocError, Global};
use std::fs::{self, File, Files, Metadata, OpenFile, OpenOptions};
use std::io::ErrorKind;
use std::os::unix::fs::MetadataExt;
use std::path::Path;

/// The names of the files of a recovery in place. A link to the log or the store is followed.
#[derive(Drop)]
pub struct Names {
    pub log: String,
    pub store: String,
    /// The file of the tail.
    pub tail: String,
    /// The file of the tail while it is written.
    pub new_tail: String,
    /// The new store: its own file, or the one that is renamed over the old store.
    pub new_store: String,
    /// Whether the new store replaces the old one.
    pub is_replacing: bool,
}

/// The name of a file while it is written that is then renamed to this path. Nothing else has such
/// a name.
pub fn name_until_whole(alloc: Global, path: &str) -> Result<String, AllocError> {
    format!(in alloc; "{path}.aries-new")
}

/// The name of a file itself; `fault` if a link cannot be followed.
fn follow<R: Files>(rt: &R, alloc: Global, file: &Notes, fault: Fault) -> Result<String, Fault> {
    real_name(rt, alloc, file.path).map_err(|error| refuse(file, Call::Open, error, fault))
}

impl Names {
    /// The names for a log, a store, and a new store that does not replace it, if one is given.
    pub fn new<R: Files>(
        rt: &R,
        alloc: Global,
        old: &OldFiles,
        out_store: Option<&str>,
    ) -> Result<Names, Fault> {
        let log = follow(rt, alloc, &old.log, Fault::ReadLog)?;
        let store = follow(rt, alloc, &old.store, Fault::ReadStore)?;
        let tail = tail_name(alloc, log.as_str())?;
        let new_tail = name_until_whole(alloc, tail.as_str())?;
        let new_store = match out_store {
            Some(path) => String::from_str(alloc, path)?,
            None => name_until_whole(alloc, store.as_str())?,
        };
        Ok(Names {
            log,
            store,
            tail,
            new_tail,
            new_store,
            is_replacing: out_store.is_none(),
        })
    }
}

/// The files of a recovery in place, and what is noted of them.
#[derive(Drop)]
pub struct PlaceFiles<'a> {
    /// The log as it is read.
    pub log: Notes<'a>,
    /// The log as it is continued.
    pub out_log: Notes<'a>,
    pub store: Notes<'a>,
    /// The file of the tail that an interrupted run left.
    pub tail: Notes<'a>,
    /// The file of the tail that this run writes.
    pub new_tail: Notes<'a>,
    pub new_store: Notes<'a>,
    pub is_replacing: bool,
}

impl<'a> PlaceFiles<'a> {
    /// Files with these names, with nothing noted yet.
    pub fn new(names: &'a Names) -> PlaceFiles<'a> {
        PlaceFiles {
            log: Notes::new("log", names.log.as_str()),
            out_log: Notes::new("log", names.log.as_str()),
            store: Notes::new("store", names.store.as_str()),
            tail: Notes::new("file of the tail", names.tail.as_str()),
            new_tail: Notes::new("file of the tail", names.new_tail.as_str()),
            new_store: Notes::new("new store", names.new_store.as_str()),
            is_replacing: names.is_replacing,
        }
    }
}

/// The log and the store of a recovery in place, opened, and the log locked.
#[derive(Drop)]
pub struct Opened {
    /// The log, to be read.
    pub log: File,
    /// The log, to be cut and appended to.
    pub out_log: File,
    /// Holds the lock of the log.
    pub lock: File,
    pub store: File,
}

/// Notes why a file was refused, and returns its fault.
pub fn turn_down(file: &Notes, refusal: Refusal, fault: Fault) -> Fault {
    file.refuse(refusal);
    fault
}

/// What there is at a path, if anything is; a link is followed.
fn metadata_of<R: Files>(rt: &R, path: &str) -> Option<Metadata> {
    fs::metadata(rt, path).ok()
}

/// Whether these are one file.
fn are_same(one: &Metadata, other: &Metadata) -> bool {
    one.dev() == other.dev() && one.ino() == other.ino()
}

/// Whether two paths of files that are not there name one file: in one folder, by one name.
fn would_be_one<R: Files>(rt: &R, one: &str, other: &str) -> bool {
    let (folder, other_folder) = (folder_of(one), folder_of(other));
    let is_one_folder = match (metadata_of(rt, folder), metadata_of(rt, other_folder)) {
        (Some(a), Some(b)) => are_same(&a, &b),
        _ => false,
    };
    is_one_folder && Path::new(one).file_name() == Path::new(other).file_name()
}

/// Whether two paths lead to one file, or would if it were made.
fn are_one<R: Files>(rt: &R, one: &str, other: &str) -> bool {
    match (metadata_of(rt, one), metadata_of(rt, other)) {
        (Some(a), Some(b)) => are_same(&a, &b),
        (None, None) => would_be_one(rt, one, other),
        _ => false,
    }
}

/// Refuses a file that is changed in place if it is no regular file: opening a pipe would wait for
/// its other end. A path with nothing is refused when it is opened.
fn check_kind<R: Files>(rt: &R, file: &Notes, fault: Fault) -> Result<(), Fault> {
    if metadata_of(rt, file.path).is_none() || is_regular(rt, file.path) {
        return Ok(());
    }
    Err(turn_down(file, Refusal::NotRegular, fault))
}

/// Refuses a file that is no longer the one of its name, since another program has put a new one
/// there; and one that has a second name: that one has a file of a tail of its own, and a rename
/// would leave the old store there.
fn check_single<R: Files>(rt: &R, opened: &File, file: &Notes, fault: Fault) -> Result<(), Fault> {
    let found = match opened.metadata() {
        Ok(found) => found,
        Err(error) => return Err(refuse(file, Call::Open, error, fault)),
    };
    match metadata_of(rt, file.path) {
        Some(named) if !are_same(&named, &found) => {
            Err(turn_down(file, Refusal::Replaced, fault))
        }
        Some(_) if found.nlink() == 1 => Ok(()),
        Some(_) => Err(turn_down(file, Refusal::SecondName, fault)),
        None => Err(turn_down(file, Refusal::Replaced, fault)),
    }
}

/// Refuses a new store that is one of the other files, or has the name of one, and a store that is
/// the log or the file of its tail.
fn check_different<R: Files>(rt: &R, files: &PlaceFiles) -> Result<(), Fault> {
    let (log, store, new_store) = (files.log.path, files.store.path, files.new_store.path);
    let (tail, new_tail) = (files.tail.path, files.new_tail.path);
    if are_one(rt, store, log) || are_one(rt, store, tail) || are_one(rt, store, new_tail) {
        return Err(turn_down(&files.store, Refusal::Twice, Fault::WriteLog));
    }
    let is_taken = are_one(rt, new_store, log)
        || are_one(rt, new_store, store)
        || are_one(rt, new_store, tail)
        || are_one(rt, new_store, new_tail);
    if is_taken {
        return Err(turn_down(&files.new_store, Refusal::Twice, Fault::WriteStore));
    }
    Ok(())
}

/// Refuses a log that `aries_files` keeps: commits may be in another file, and the folder could not
/// be opened again after a recovery.
fn check_not_kept<R: Files>(rt: &R, alloc: Global, files: &PlaceFiles) -> Result<(), Fault> {
    if is_kept(rt, alloc, files.log.path)? {
        return Err(turn_down(&files.log, Refusal::Kept, Fault::WriteLog));
    }
    Ok(())
}

/// Opens the log to append to it; `WriteLog` if that failed.
pub fn open_to_append<R: Files<File = File>>(rt: &R, log: &Notes) -> Result<File, Fault> {
    let mut options = OpenOptions::new();
    options.read(true).append(true);
    match options.open(rt, log.path) {
        Ok(file) => Ok(file),
        Err(error) => Err(refuse(log, Call::Open, error, Fault::WriteLog)),
    }
}

/// Locks the log for this run. Returns a handle that holds the lock. If the file system has no
/// locks, that is only noted.
fn lock(opened: &File, log: &Notes) -> Result<File, Fault> {
    let held = match opened.try_clone() {
        Ok(held) => held,
        Err(error) => return Err(refuse(log, Call::Lock, error, Fault::WriteLog)),
    };
    match try_lock(&held) {
        Ok(true) => {}
        Ok(false) => return Err(turn_down(log, Refusal::Locked, Fault::WriteLog)),
        Err(error) if error.kind() == ErrorKind::Unsupported => log.pass_over(Call::Lock, error),
        Err(error) => return Err(refuse(log, Call::Lock, error, Fault::WriteLog)),
    }
    Ok(held)
}

/// Opens the log and the store, and locks the log. Refuses files that a recovery in place may not
/// change, before anything is changed.
pub fn open_in_place<R: Files<File = File>>(
    rt: &R,
    alloc: Global,
    files: &PlaceFiles,
) -> Result<Opened, Fault> {
    check_kind(rt, &files.log, Fault::WriteLog)?;
    if files.is_replacing {
        check_kind(rt, &files.store, Fault::WriteStore)?;
    }
    let log = open(rt, &files.log, Fault::ReadLog)?;
    let store = open(rt, &files.store, Fault::ReadStore)?;
    let out_log = open_to_append(rt, &files.out_log)?;
    let lock = lock(&out_log, &files.out_log)?;
    check_single(rt, &log, &files.log, Fault::WriteLog)?;
    check_single(rt, &out_log, &files.out_log, Fault::WriteLog)?;
    if files.is_replacing {
        check_single(rt, &store, &files.store, Fault::WriteStore)?;
    }
    check_different(rt, files)?;
    check_not_kept(rt, alloc, files)?;
    Ok(Opened {
        log,
        out_log,
        lock,
        store,
    })
}
