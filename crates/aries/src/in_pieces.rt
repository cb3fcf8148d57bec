//! Recovery in pieces from open files: how the workers share the log, and which store is read into
//! memory first.

use crate::new_file::refuse;
use device::{FileSource, Share, SharedFile, SharedFileSource, Sink};
use job_files::{Call, NotedFile, Notes};
use page::Fault;
use recovery::{NewLog, Report, hold_store, recover_in_pieces};
use restart::Options;
use std::alloc::Global;
use std::fs::{File, OpenFile};
use std::rt::Clock;
use std::thread::Threads;

/// A store of more bytes than this is large: it is not read into memory.
const LARGE: u64 = 16 << 20;

/// An open log as a source that the workers read too, through a second handle; `ReadLog` if the
/// system refuses one. What is read through it is not noted.
pub fn share_log<'a, C: Clock>(
    clock: &'a C,
    log: File,
    notes: &'a Notes<'a>,
) -> Result<SharedFileSource<NotedFile<'a, File, C>>, Fault> {
    let again = match log.try_clone() {
        Ok(again) => again,
        Err(error) => return Err(refuse(notes, Call::Open, error, Fault::ReadLog)),
    };
    let source = FileSource::sized(NotedFile::new(log, clock, notes));
    Ok(SharedFileSource::new(source, SharedFile::new(again)))
}

/// Recovers from an open log and an open store. A large store in a regular file is read twice, in
/// pieces; any other is read into memory first, so that it cannot fail once the new log is written.
pub fn recover_opened<R: Clock + Threads + Sync, L: Share, N: NewLog, S: Sink>(
    rt: &R,
    alloc: Global,
    log: &mut L,
    (store, notes): (File, &Notes),
    new_log: &mut N,
    out_store: &mut S,
    options: &Options,
) -> Result<Report, Fault> {
    let is_large = match store.metadata() {
        Ok(metadata) => metadata.is_file() && metadata.len() > LARGE,
        Err(_) => false,
    };
    let mut store = FileSource::new(NotedFile::new(store, rt, notes));
    if is_large {
        return recover_in_pieces(rt, alloc, log, &mut store, new_log, out_store, options);
    }
    let mut held = hold_store(alloc, log, &mut store)?;
    recover_in_pieces(rt, alloc, log, &mut held, new_log, out_store, options)
}
