//! What an interrupted recovery in place left: the file of the tail, from which the log is continued
//! again, and files that were not whole yet.

use crate::names::{PlaceFiles, open_to_append, turn_down};
use crate::new_file::{open, refuse, remove, sync_found};
use device::{FileLog, FileSource, read_full};
use job_files::{Call, NotedFile, Notes, Refusal};
use page::{Fault, MAGIC_BYTES};
use recovery::{TailFile, continue_log, read_source};
use std::alloc::Global;
use std::fs::{self, File, Files, OpenFile};
use std::io::{ErrorKind, Read, Seek, SeekFrom};
use std::os::unix::fs::MetadataExt;
use std::rt::Clock;
use wal::{LONGEST_FRAME, PLAIN_FRAME, SMALLEST_FRAME};

/// What was finished of an interrupted recovery.
#[derive(Clone, Copy, Debug, PartialEq, Eq)]
pub struct Finished {
    /// How many CLRs its tail has.
    pub compensated: u64,
    /// How many end records its tail has.
    pub ended: u64,
}

/// What a file of a tail says of the log next to it.
#[derive(Clone, Copy, Debug, PartialEq, Eq)]
enum Standing {
    /// The run was interrupted after it began to change the log, or before.
    Interrupted,
    /// The log has gone on since: it was continued, or it replaced the log of that run.
    Past,
    /// It is not this log's.
    Foreign,
}

/// The length of the body of the first of some frames, and what comes after that frame; `None` if it
/// is not whole.
fn first_frame(frames: &[u8]) -> Option<(usize, &[u8])> {
    let (head, body) = frames.split_at_checked(4)?;
    let length = head
        .iter()
        .fold(0, |length, byte| length << 8 | usize::from(*byte));
    let (_, rest) = body.split_at_checked(length)?;
    Some((length, rest))
}

/// Whether these bytes begin with a whole frame, as a torn tail never does.
fn begins_with_frame(bytes: &[u8]) -> bool {
    match first_frame(bytes) {
        Some((length, _)) => length >= SMALLEST_FRAME - 4,
        None => false,
    }
}

/// What a file of a tail without frames says of a log that ends with these bytes after those that
/// are kept. The run that wrote it only cuts. What it cuts off is there, or what a power failure
/// left of that; a whole frame came later.
fn standing_of_cut(file: &TailFile, rest: &[u8]) -> Standing {
    let torn = file.length.saturating_sub(file.kept);
    if file.cuts(rest) {
        Standing::Interrupted
    } else if rest.len() as u64 > torn || begins_with_frame(rest) {
        Standing::Past
    } else {
        Standing::Interrupted
    }
}

/// What a file of a tail says of a log that ends with these bytes after those that are kept. A run
/// that was interrupted leaves what it cuts off, or anything at all in the place of its frames. If
/// all of these are there, and more after them, the log has gone on.
fn standing_of_end(file: &TailFile, rest: &[u8]) -> Standing {
    if file.frames.is_empty() {
        return standing_of_cut(file, rest);
    }
    let torn = file.length.saturating_sub(file.kept);
    let longest = torn.max(file.frames.len() as u64);
    if rest.len() > file.frames.len() && rest.starts_with(file.frames) {
        Standing::Past
    } else if rest.len() as u64 <= longest {
        Standing::Interrupted
    } else {
        Standing::Foreign
    }
}

/// What a file of a tail says of a log with these bytes from [`TailFile::end_offset`] on.
fn standing_of(file: &TailFile, after: &[u8]) -> Standing {
    let length = file.kept.saturating_sub(file.end_offset()) as usize;
    match after.split_at_checked(length) {
        Some((end, rest)) if file.belongs_to(end) => standing_of_end(file, rest),
        _ => Standing::Foreign,
    }
}

/// How many CLRs and end records some frames have. An end is the only one of its length.
fn count_frames(frames: &[u8]) -> Finished {
    let mut counts = Finished {
        compensated: 0,
        ended: 0,
    };
    let mut rest = frames;
    for _ in 0..frames.len() {
        let Some((length, next)) = first_frame(rest) else {
            return counts;
        };
        if length == PLAIN_FRAME - 4 {
            counts.ended = counts.ended.saturating_add(1);
        } else {
            counts.compensated = counts.compensated.saturating_add(1);
        }
        rest = next;
    }
    counts
}

/// The bytes of the log by which it is seen how far an interrupted run came: from
/// [`TailFile::end_offset`] on, and one more than such a run leaves.
fn read_end<R: Files<File = File> + Clock>(
    rt: &R,
    alloc: Global,
    log: &Notes,
    file: &TailFile,
) -> Result<Vec<u8>, Fault> {
    let torn = file
        .length
        .saturating_sub(file.kept)
        .min(LONGEST_FRAME as u64) as usize;
    let end = file.kept.saturating_sub(file.end_offset()) as usize;
    let room = end
        .saturating_add(torn.max(file.frames.len()))
        .saturating_add(1);
    let mut opened = open(rt, log, Fault::ReadLog)?;
    if let Err(error) = opened.seek(SeekFrom::Start(file.end_offset())) {
        return Err(refuse(log, Call::Read, error, Fault::ReadLog));
    }
    let mut source = FileSource::new(NotedFile::new(opened, rt, log));
    let mut bytes = vec![in alloc; 0; room]?;
    match read_full(&mut source, &mut bytes) {
        Ok(count) => {
            bytes.truncate(count);
            Ok(bytes)
        }
        Err(_) => Err(Fault::ReadLog),
    }
}

/// Continues the log from the file of a tail, if the run that wrote it was interrupted.
fn continue_again<R: Files<File = File> + Clock>(
    rt: &R,
    alloc: Global,
    files: &PlaceFiles,
    file: &TailFile,
) -> Result<Option<Finished>, Fault> {
    let after = read_end(rt, alloc, &files.log, file)?;
    match standing_of(file, &after) {
        Standing::Interrupted => {
            let opened = open_to_append(rt, &files.out_log)?;
            let mut continued = FileLog::new(NotedFile::new(opened, rt, &files.out_log));
            match continue_log(&mut continued, file.kept, file.frames) {
                Ok(()) => Ok(Some(count_frames(file.frames))),
                Err(_) => Err(Fault::WriteLog),
            }
        }
        Standing::Past => Ok(None),
        Standing::Foreign => Err(turn_down(&files.tail, Refusal::OtherLog, Fault::WriteLog)),
    }
}

/// Refuses a file of a tail by what the system says of it: one that is no regular file, one of
/// another user, which may have no right to change the log, and one that is longer than the tail of
/// this log can be.
fn check_tail(tail: &Notes, opened: &File, log: &File, user: u32) -> Result<(), Fault> {
    let (Ok(found), Ok(log)) = (opened.metadata(), log.metadata()) else {
        return Err(Fault::WriteLog);
    };
    let refusal = if !found.is_file() {
        Refusal::NotRegular
    } else if found.uid() != log.uid() && found.uid() != user {
        Refusal::OtherOwner
    } else if found.len()
        > log
            .len()
            .saturating_mul(4)
            .saturating_add(LONGEST_FRAME as u64)
    {
        Refusal::NotLeft
    } else {
        return Ok(());
    };
    Err(turn_down(tail, refusal, Fault::WriteLog))
}

/// The file of the tail in these bytes, if it is whole and keeps a log that has a header.
fn whole_file(bytes: &[u8]) -> Option<TailFile<'_>> {
    let file = TailFile::read(bytes)?;
    let torn = file.length.checked_sub(file.kept)?;
    let is_possible = file.kept >= MAGIC_BYTES as u64 && torn <= LONGEST_FRAME as u64;
    if is_possible { Some(file) } else { None }
}

/// Finishes what an interrupted run began: if it left the file of a tail, the log is continued from
/// that again. The file stays until this run puts its own in its place, or removes it. It is synced
/// before it is read. `user` is the user of the process. Returns what was finished, `None` if
/// nothing had to be.
pub fn finish<R: Files<File = File> + Clock>(
    rt: &R,
    alloc: Global,
    files: &PlaceFiles,
    log: &File,
    user: u32,
) -> Result<Option<Finished>, Fault> {
    let tail = &files.tail;
    match fs::symlink_metadata(rt, tail.path) {
        Ok(found) if found.is_file() => {}
        Ok(_) => return Err(turn_down(tail, Refusal::NotRegular, Fault::WriteLog)),
        Err(error) if error.kind() == ErrorKind::NotFound => return Ok(None),
        Err(error) => return Err(refuse(tail, Call::Open, error, Fault::WriteLog)),
    }
    let opened = open(rt, tail, Fault::WriteLog)?;
    check_tail(tail, &opened, log, user)?;
    sync_found(&opened, tail, Fault::WriteLog)?;
    let mut source = FileSource::sized(NotedFile::new(opened, rt, tail));
    let bytes = read_source(alloc, &mut source, Fault::WriteLog)?;
    match whole_file(&bytes) {
        Some(file) => continue_again(rt, alloc, files, &file),
        None => Err(turn_down(tail, Refusal::NotLeft, Fault::WriteLog)),
    }
}

/// Whether these are the first bytes of a file that a recovery was writing: those of one of its
/// formats, or zeros where the power failed.
fn may_be_left(first: &[u8]) -> bool {
    let name = b"ARIES";
    let length = first.len().min(name.len());
    first[..length] == name[..length] || first.iter().all(|byte| *byte == 0)
}

/// Removes a file that an interrupted run left before it was whole; `fault` if that failed, or if no
/// run left it.
pub fn remove_left<R: Files<File = File>>(rt: &R, file: &Notes, fault: Fault) -> Result<(), Fault> {
    match fs::symlink_metadata(rt, file.path) {
        Ok(found) if !found.is_file() => {
            return Err(turn_down(file, Refusal::NotLeft, fault));
        }
        Ok(_) => {}
        Err(error) if error.kind() == ErrorKind::NotFound => return Ok(()),
        Err(error) => return Err(refuse(file, Call::Open, error, fault)),
    }
    let mut first = [0; MAGIC_BYTES];
    let count = match open(rt, file, fault)?.read(&mut first) {
        Ok(count) => count,
        Err(error) => return Err(refuse(file, Call::Read, error, fault)),
    };
    if !may_be_left(&first[..count]) {
        return Err(turn_down(file, Refusal::NotLeft, fault));
    }
    remove(rt, file, fault)
}
