//! What the program does with its words.

use device::{FileSource, ReadFault, read_all};
use dump::{Choice, Stop, Style, list_log, list_store};
use dump_command::{Job, dump_of};
use job_files::{Call, NotedFile, Notes, notice, tell_failure};
use page::Fault;
use std::alloc::Global;
use std::fs::File;
use std::io::{BufWriter, ErrorKind, Write};
use std::rt::{Clock, Files};
use words::refuse;

/// How many bytes of lines are buffered before they are printed.
const HELD_BACK: usize = 65_536;

/// The bytes of a file; `fault` if it cannot be opened or read to its end.
fn read_file<R: Files + Clock>(
    rt: &R,
    alloc: Global,
    file: &Notes,
    fault: Fault,
) -> Result<Vec<u8>, Fault> {
    let opened = match File::open(rt, file.path) {
        Ok(opened) => opened,
        Err(error) => {
            file.fail(Call::Open, error);
            return Err(match error.kind() {
                ErrorKind::OutOfMemory => Fault::NoResource,
                _ => fault,
            });
        }
    };
    match read_all(
        alloc,
        &mut FileSource::sized(NotedFile::new(opened, rt, file)),
    ) {
        Ok(bytes) => Ok(bytes),
        Err(ReadFault::Failed) => Err(fault),
        Err(ReadFault::NoMemory) => Err(Fault::NoResource),
    }
}

/// How lines are written.
fn style_of(is_json: bool) -> Style {
    if is_json { Style::Json } else { Style::Text }
}

/// What is noted of the file of a job.
fn notes_of(job: &Job) -> Notes<'_> {
    match job {
        Job::Log { file, .. } => Notes::new("log", file.as_str()),
        Job::Store { file, .. } => Notes::new("store", file.as_str()),
    }
}

/// Prints what the job asks for of a file.
fn list<R: Files + Clock, O: Write>(
    rt: &R,
    alloc: Global,
    job: &Job,
    file: &Notes,
    out: &mut O,
) -> Result<(), Stop> {
    match job {
        Job::Log {
            from,
            to,
            transaction,
            page,
            is_json,
            ..
        } => {
            let choice = Choice {
                from: from.unwrap_or(0),
                to: to.unwrap_or(u64::MAX),
                transaction: *transaction,
                page: *page,
            };
            let bytes = read_file(rt, alloc, file, Fault::ReadLog)?;
            list_log(alloc, &bytes, style_of(*is_json), &choice, out)
        }
        Job::Store { page, is_json, .. } => {
            let bytes = read_file(rt, alloc, file, Fault::ReadStore)?;
            list_store(alloc, &bytes, style_of(*is_json), *page, out)
        }
    }
}

/// Does the job. What was listed before a fault is printed before the fault is. Lines on a log that
/// may not be whole come first, and a line on a file that failed before its fault.
fn run_job<R: Files<File = File> + Clock, O: Write, E: Write>(
    rt: &R,
    alloc: Global,
    job: &Job,
    out: &mut O,
    err: &mut E,
) -> u8 {
    let Ok(mut held) = BufWriter::with_capacity(alloc, HELD_BACK, out) else {
        return refuse(Fault::NoResource, err);
    };
    let file = notes_of(job);
    if let Job::Log { .. } = job {
        notice(rt, alloc, "aries_dump", file.path, err);
    }
    let listed = list(rt, alloc, job, &file, &mut held);
    let flushed = held.flush();
    match listed {
        Ok(()) if flushed.is_ok() => 0,
        Ok(()) | Err(Stop::Print(_)) => 1,
        Err(Stop::Fault(fault)) => {
            let _ = tell_failure("aries_dump", &file, err);
            refuse(fault, err)
        }
    }
}

/// Runs the program: `words` are its words, the first of which is its name; `out` is standard
/// output and `err` is standard error. Returns the exit status: 0 if all was listed or help was
/// asked for, 1 for a fault, printed to `err` as `fault N: text`, or a failed print, 2 for a line
/// that is wrong.
pub fn run<R: Files<File = File> + Clock, O: Write, E: Write>(
    rt: &R,
    alloc: Global,
    words: &[&str],
    out: &mut O,
    err: &mut E,
) -> u8 {
    match dump_of(alloc, words) {
        Ok(job) => run_job(rt, alloc, &job, out, err),
        Err(refusal) => refusal.explain(out, err),
    }
}
