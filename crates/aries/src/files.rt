//! Recovery from two files to two files, and the audit of two files, or of two over a third.

ghost use Rattle.std.specs.Prelude.{◌≢◌};
ghost use Rattle.page.specs.declared.fault.Fault.TheVariants.{NoResource};

use crate::in_pieces::{recover_opened, share_log};
use crate::new_file::{make, open, sync_folder};
use device::{FileSink, FileSource, Reread, Source, read_full_at};
use job_files::{NotedFile, Notes};
use page::Fault;
use recovery::{CopiedLog, Report, audit_texts, audit_texts_over, read_source, recover};
use redo::OpenGate;
use restart::Options;
use std::alloc::Global;
use std::fs::{File, OpenFile};
use std::io;
use std::rt::{Clock, Files};
use std::thread::Threads;
use wal::{BASED_HEADER_BYTES, LARGEST_BASE, read_log};

/// A log of fewer bytes than this is short: starting threads takes longer than they save.
const SHORT: usize = 16 << 20;

/// What a job reads.
#[derive(Drop)]
pub struct OldFiles<'a> {
    pub log: Notes<'a>,
    pub store: Notes<'a>,
    /// The base store of an audit, if it is given.
    pub base: Option<Notes<'a>>,
}

impl<'a> OldFiles<'a> {
    /// Files at these paths, with nothing noted yet.
    pub fn new(log: &'a str, store: &'a str, base: Option<&'a str>) -> OldFiles<'a> {
        OldFiles {
            log: Notes::new("log", log),
            store: Notes::new("store", store),
            base: base.map(|path| Notes::new("base store", path)),
        }
    }
}

/// What a recovery writes. Nothing is noted of it when it is made.
#[derive(Drop)]
pub struct NewFiles<'a> {
    pub log: Notes<'a>,
    pub store: Notes<'a>,
}

/// These options, with one worker if one worker may do all and the log has few bytes.
fn options_for(options: &Options, may_be_one: bool, bytes: usize) -> Options {
    let mut chosen = *options;
    if may_be_one && bytes < SHORT {
        chosen.workers = 1;
    }
    chosen
}

/// Whether no LSN of an open log, which is a regular file, is above the largest base LSN. A log has
/// fewer records than bytes. Only a failure of this reading is noted. The file is at its beginning
/// afterwards.
pub fn has_low_lsns<C: Clock>(
    clock: &C,
    alloc: Global,
    file: &File,
    log: &Notes,
) -> Result<bool, Fault> {
    let notes = Notes::new(log.role, log.path);
    let mut source = FileSource::new(NotedFile::new(file, clock, &notes));
    let mut header = [0; BASED_HEADER_BYTES];
    let count = read_full_at(&mut source, 0, &mut header);
    let (Ok(count), Ok(_)) = (count, source.read_at(0, &mut [])) else {
        if let Some(failure) = notes.failure() {
            log.note(failure);
        }
        return Err(Fault::ReadLog);
    };
    let length = file.metadata().map_or(0, |metadata| metadata.len());
    match read_log(alloc, &header[..count]) {
        Ok((log, _)) => Ok(log.base() <= LARGEST_BASE.saturating_sub(length)),
        Err(_) => Ok(true),
    }
}

/// Whether an open log is read in pieces: it is a regular file, which can be read again, and none of
/// its LSNs is above the largest base LSN. `ReadLog` if its header could not be read.
fn is_read_in_pieces<C: Clock>(
    clock: &C,
    alloc: Global,
    log: &File,
    notes: &Notes,
) -> Result<bool, Fault> {
    match log.metadata() {
        Ok(metadata) if metadata.is_file() => has_low_lsns(clock, alloc, log, notes),
        _ => Ok(false),
    }
}

/// Recovers from open files into new ones that were made.
fn recover_made<R: Files<File = File> + Clock + Threads + Sync>(
    rt: &R,
    alloc: Global,
    (old, log, store): (&OldFiles, File, File),
    (new, new_log, new_store): (&NewFiles, File, File),
    options: &Options,
    may_be_one: bool,
) -> Result<Report, Fault> {
    let in_pieces = is_read_in_pieces(rt, alloc, &log, &old.log)?;
    let mut out_log = FileSink::new(NotedFile::new(new_log, rt, &new.log));
    let mut out_store = FileSink::new(NotedFile::new(new_store, rt, &new.store));
    if in_pieces {
        let mut log = share_log(rt, log, &old.log)?;
        let mut new_log = CopiedLog { sink: out_log };
        let store = (store, &old.store);
        return recover_opened(
            rt,
            alloc,
            &mut log,
            store,
            &mut new_log,
            &mut out_store,
            options,
        );
    }
    let mut log = FileSource::sized(NotedFile::new(log, rt, &old.log));
    let mut store = FileSource::new(NotedFile::new(store, rt, &old.store));
    let options = options_for(options, may_be_one, log.hint());
    recover(
        rt,
        alloc,
        &mut log,
        &mut store,
        &mut out_log,
        &mut out_store,
        &options,
        &OpenGate,
    )
}

/// Empties the new files after a fault, unless it is that of writing one of them: then nothing of a
/// result is out. A log that is copied while it is read may fail when some of it is written.
fn empty_after(fault: Fault, new_log: io::Result<File>, new_store: io::Result<File>) {
    if matches!(fault, Fault::WriteLog | Fault::WriteStore) {
        return;
    }
    if let (Ok(new_log), Ok(new_store)) = (new_log, new_store) {
        let _ = new_log.set_len(0);
        let _ = new_store.set_len(0);
    }
}

/// Recovers the store in one file from the log in another, into two new files, each with the mode
/// of the old one, and with its owner and group if the system allows that. All four are opened, in
/// the order log, store, new log, new store, before the first is read. The new store is written
/// after the new log is whole and synced. The folders of the new files are synced last. After
/// `WriteLog` and `WriteStore` new files made so far stay as they are: empty, incomplete, or, if a
/// folder was not synced, whole. After any other fault they are empty.
///
/// A log in a regular file is read in pieces, and copied as the new log is written. The workers of
/// the options read it the first time, if it has no checkpoint; one thread reads all else. With such
/// a log a store in a regular file of more than 16 MiB is read in pieces too, twice; no store of the
/// default profile is so large. Any other store is read into memory first. A log that is no regular
/// file is read into memory; then one worker does all if it may and the log is short.
pub fn recover_files<R: Files<File = File> + Clock + Threads + Sync>(
    rt: &R,
    alloc: Global,
    old: &OldFiles,
    new: &NewFiles,
    options: &Options,
    may_be_one: bool,
) -> Result<Report, Fault> {
    let log = open(rt, &old.log, Fault::ReadLog)?;
    let store = open(rt, &old.store, Fault::ReadStore)?;
    let new_log = make(rt, &new.log, &log, Fault::WriteLog)?;
    let new_store = make(rt, &new.store, &store, Fault::WriteStore)?;
    let (log_again, store_again) = (new_log.try_clone(), new_store.try_clone());
    let (read, made) = ((old, log, store), (new, new_log, new_store));
    match recover_made(rt, alloc, read, made, options, may_be_one) {
        Ok(report) => {
            sync_folder(rt, &new.log, Fault::WriteLog)?;
            sync_folder(rt, &new.store, Fault::WriteStore)?;
            Ok(report)
        }
        Err(fault) => {
            empty_after(fault, log_again, store_again);
            Err(fault)
        }
    }
}

/// The bytes of a file; `fault` if it cannot be opened or read to its end.
fn read_file<R: Files + Clock>(
    rt: &R,
    alloc: Global,
    file: &Notes,
    fault: Fault,
) -> Result<Vec<u8>, Fault>
    requires { fault ≢ NoResource }
{
    let opened = open(rt, file, fault)?;
    let mut source = FileSource::sized(NotedFile::new(opened, rt, file));
    read_source(alloc, &mut source, fault)
}

/// Whether the log and the store in two files are lawful: over the pages of the base store in a
/// third file if there is one, otherwise over empty pages. All are read to their ends, in this
/// order, before the first is decoded.
pub fn audit_files<R: Files + Clock>(rt: &R, alloc: Global, files: &OldFiles) -> Result<(), Fault> {
    let log = read_file(rt, alloc, &files.log, Fault::ReadLog)?;
    let store = read_file(rt, alloc, &files.store, Fault::ReadStore)?;
    match &files.base {
        Some(base) => {
            let base = read_file(rt, alloc, base, Fault::ReadStore)?;
            audit_texts_over(alloc, &log, &store, &base)
        }
        None => audit_texts(alloc, &log, &store),
    }
}
