//! Recovery in place: the log file is continued in place, and the new store is a new file or
//! replaces the old one.
//!
//! What is found is synced before it is read, so a run relies on nothing that a power failure can
//! still take away. At each moment the files hold enough to recover: until the file of the tail is
//! in its place, the log is as it was. From then on the log can be continued again from that file,
//! and the old store goes with it until the new one is whole and synced. So a run that was killed,
//! or that a power failure ended, can be run again. The log is locked from the first reading to the
//! end, so that no two runs do this at once.

use crate::files::has_low_lsns;
use crate::in_pieces::{recover_opened, share_log};
use crate::left::{Finished, finish, remove_left};
use crate::names::{Opened, PlaceFiles, open_in_place, turn_down};
use crate::new_file::{make, refuse, remove, sync_folder, sync_found};
use crate::new_tail::{Cut, NewTail, make_tail};
use device::{FileLog, FileSink};
use job_files::{Call, NotedFile, Notes, Refusal, folder_of};
use page::Fault;
use recovery::{ContinuedLog, Report};
use restart::Options;
use std::alloc::Global;
use std::cell::Cell;
use std::fs::{self, File, Files, OpenFile};
use std::os::unix::fs::MetadataExt;
use std::rt::Clock;
use std::thread::Threads;

/// What a recovery in place has done.
#[derive(Drop)]
pub struct Done {
    pub report: Report,
    /// What it finished of an interrupted one.
    pub finished: Option<Finished>,
    /// What it cut off the log.
    pub cut: Option<Cut>,
}

/// Makes what is seen durable before it is read: the log, the store, and the names in their folders.
fn settle<R: Files<File = File>>(rt: &R, files: &PlaceFiles, opened: &Opened) -> Result<(), Fault> {
    sync_found(&opened.out_log, &files.out_log, Fault::WriteLog)?;
    sync_found(&opened.store, &files.store, Fault::ReadStore)?;
    sync_folder(rt, &files.log, Fault::WriteLog)?;
    if folder_of(files.store.path) != folder_of(files.log.path) {
        sync_folder(rt, &files.store, Fault::WriteStore)?;
    }
    Ok(())
}

/// Makes the file of the new store. If the store replaces the old one, the file may be there
/// already, left by an interrupted run.
fn make_store<R: Files<File = File>>(
    rt: &R,
    files: &PlaceFiles,
    old: &File,
) -> Result<File, Fault> {
    if files.is_replacing {
        remove_left(rt, &files.new_store, Fault::WriteStore)?;
    }
    make(rt, &files.new_store, old, Fault::WriteStore)
}

/// Refuses a log that cannot be read in pieces, since its LSNs may pass 2^63 - 1.
fn check_lsns<C: Clock>(clock: &C, alloc: Global, log: &File, notes: &Notes) -> Result<(), Fault> {
    if has_low_lsns(clock, alloc, log, notes)? {
        return Ok(());
    }
    Err(turn_down(notes, Refusal::HighLsns, Fault::WriteLog))
}

/// Recovers from open files into new ones that were made, and continues the log.
fn recover_made<'x, R: Files<File = File> + Clock + Threads + Sync>(
    rt: &'x R,
    alloc: Global,
    files: &'x PlaceFiles<'x>,
    opened: Opened,
    (new_tail, new_store): (File, File),
    options: &Options,
    cut: &'x Cell<Option<Cut>>,
) -> Result<Report, Fault> {
    let Opened {
        log,
        out_log,
        lock,
        store,
    } = opened;
    // The lock is one of `out_log`, another opening of the file. So it stays when a handle of `log`
    // is closed.
    let mut log = share_log(rt, log, &files.log)?;
    let new_tail = NewTail::new(rt, alloc, files, (new_tail, lock), cut);
    let mut new_log = ContinuedLog {
        tail: FileSink::new(new_tail),
        log: FileLog::new(NotedFile::new(out_log, rt, &files.out_log)),
    };
    let mut out_store = FileSink::new(NotedFile::new(new_store, rt, &files.new_store));
    recover_opened(
        rt,
        alloc,
        &mut log,
        (store, &files.store),
        &mut new_log,
        &mut out_store,
        options,
    )
}

/// Renames the new store, which is synced, to the name of the old one, if it replaces that. Then
/// syncs its folder.
fn place_store<R: Files<File = File>>(rt: &R, files: &PlaceFiles) -> Result<(), Fault> {
    let (new, old) = (&files.new_store, &files.store);
    if files.is_replacing {
        if let Err(error) = fs::rename(rt, new.path, old.path) {
            return Err(refuse(new, Call::Rename, error, Fault::WriteStore));
        }
    }
    sync_folder(rt, new, Fault::WriteStore)
}

/// Makes the new store, recovers, and puts the store in its place. After a fault the new store is
/// gone.
fn recover_and_place<'x, R: Files<File = File> + Clock + Threads + Sync>(
    rt: &'x R,
    alloc: Global,
    files: &'x PlaceFiles<'x>,
    opened: Opened,
    new_tail: File,
    options: &Options,
    cut: &'x Cell<Option<Cut>>,
) -> Result<Report, Fault> {
    let new_store = make_store(rt, files, &opened.store)?;
    let answer = recover_made(
        rt,
        alloc,
        files,
        opened,
        (new_tail, new_store),
        options,
        cut,
    );
    let answer = answer.and_then(|report| place_store(rt, files).map(|()| report));
    if answer.is_err() {
        let _ = fs::remove_file(rt, files.new_store.path);
    }
    answer
}

/// Finishes what an interrupted run began, and recovers. `new_tail` was made by this process.
fn finish_and_recover<'x, R: Files<File = File> + Clock + Threads + Sync>(
    rt: &'x R,
    alloc: Global,
    files: &'x PlaceFiles<'x>,
    opened: Opened,
    new_tail: File,
    options: &Options,
) -> Result<Done, Fault> {
    let user = match new_tail.metadata() {
        Ok(metadata) => metadata.uid(),
        Err(error) => return Err(refuse(&files.new_tail, Call::Make, error, Fault::WriteLog)),
    };
    let finished = finish(rt, alloc, files, &opened.log, user)?;
    let cut = Cell::new(None);
    let report = recover_and_place(rt, alloc, files, opened, new_tail, options, &cut)?;
    Ok(Done {
        report,
        finished,
        cut: cut.get(),
    })
}

/// Recovers the store in one file from the log in another, which is continued in place. The log is
/// locked, and what is found is synced. If an interrupted run left the file of a tail, the log is
/// continued from that again. Then the new file of the tail is written, synced and put in its
/// place; the log is cut, synced, continued and synced; the new store is written, synced, and put
/// in its place; and the file of the tail is removed.
///
/// Before anything is changed the log is opened to be read and to be appended to, and the store to
/// be read. `WriteLog` or `WriteStore` also come, before anything is changed, if a file is not one
/// that may be changed in place; the notes say why. After any fault the run can be made again, and
/// finishes what was begun. No file stays that it made, except the file of the tail once that is in
/// its place: from then on the log may have been changed. Until then the log and the store are as
/// they were, or as the run before would have left the log. If a large store is read once more and
/// has a fault then (`ReadStore`, `StoreSize` or `BadPage`), the log is continued already, and the
/// store is as it was.
pub fn recover_files_in_place<'x, R: Files<File = File> + Clock + Threads + Sync>(
    rt: &'x R,
    alloc: Global,
    files: &'x PlaceFiles<'x>,
    options: &Options,
) -> Result<Done, Fault> {
    let opened = open_in_place(rt, alloc, files)?;
    settle(rt, files, &opened)?;
    check_lsns(rt, alloc, &opened.log, &files.log)?;
    // Held until the end: `opened` goes to the recovery, which closes it.
    let _lock = match opened.lock.try_clone() {
        Ok(lock) => lock,
        Err(error) => return Err(refuse(&files.out_log, Call::Lock, error, Fault::WriteLog)),
    };
    let new_tail = make_tail(rt, files, &opened.log)?;
    let answer = finish_and_recover(rt, alloc, files, opened, new_tail, options);
    if answer.is_err() {
        let _ = fs::remove_file(rt, files.new_tail.path);
        return answer;
    }
    remove(rt, &files.tail, Fault::WriteLog)?;
    sync_folder(rt, &files.tail, Fault::WriteLog)?;
    answer
}
