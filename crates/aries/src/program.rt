//! The program: from its words to its exit status.

use crate::files::{NewFiles, OldFiles, audit_files, recover_files};
use crate::in_place::recover_files_in_place;
use crate::names::{Names, PlaceFiles};
use crate::verbose::{
    says_why, tell_audit, tell_done, tell_in_place, tell_new, tell_old, tell_place,
    tell_place_files, tell_recovery, tell_torn,
};
use command::{Job, command_of};
use job_files::{Notes, notice};
use page::Fault;
use recovery::{Report, report_text};
use restart::Options;
use std::alloc::Global;
use std::fs::File;
use std::io::{self, Write};
use std::rt::{Clock, Files};
use std::thread::Threads;
use std::time::Instant;
use words::refuse;

/// Prints the text of a report.
fn print_text<O: Write>(text: &[u8], out: &mut O) -> io::Result<()> {
    out.write_all(text)?;
    out.flush()
}

/// The status of what was printed. If verbose, it prints why a print failed.
fn status_of_print<E: Write>(printed: io::Result<()>, verbose: bool, err: &mut E) -> u8 {
    let Err(error) = printed else {
        return 0;
    };
    if verbose {
        let _ = writeln!(err, "aries: printing: {error}");
    }
    1
}

/// Prints the report of a recovery, and fault 1 if memory for it is refused.
fn tell_report<O: Write, E: Write>(
    alloc: Global,
    report: &Report,
    verbose: bool,
    out: &mut O,
    err: &mut E,
) -> u8 {
    match report_text(alloc, report) {
        Ok(text) => status_of_print(print_text(&text, out), verbose, err),
        Err(fault) => refuse(fault, err),
    }
}

/// Audits, and prints `lawful` or the fault. If verbose, it first prints what the audit did or why
/// it failed.
fn run_audit<R: Files + Clock, O: Write, E: Write>(
    rt: &R,
    alloc: Global,
    files: &OldFiles,
    verbose: bool,
    out: &mut O,
    err: &mut E,
) -> u8 {
    match audit_files(rt, alloc, files) {
        Ok(()) => {
            if verbose {
                tell_audit(files, Instant::now(rt).ok(), err);
            }
            status_of_print(writeln!(out, "lawful"), verbose, err)
        }
        Err(fault) => {
            if says_why(fault, verbose) && !tell_old(files, err) {
                tell_place(fault, files, err);
            }
            refuse(fault, err)
        }
    }
}

/// Recovers into new files.
fn run_recovery<R: Files<File = File> + Clock + Threads + Sync, O: Write, E: Write>(
    rt: &R,
    alloc: Global,
    (old, new): (&OldFiles, &NewFiles),
    (options, may_be_one): (&Options, bool),
    verbose: bool,
    out: &mut O,
    err: &mut E,
) -> u8 {
    match recover_files(rt, alloc, old, new, options, may_be_one) {
        Ok(report) => {
            if verbose {
                tell_recovery(old, new, err);
            }
            tell_torn(&old.log, &report, err);
            tell_report(alloc, &report, verbose, out, err)
        }
        Err(fault) => {
            if says_why(fault, verbose) && !tell_old(old, err) && !tell_new(new, err) {
                tell_place(fault, old, err);
            }
            refuse(fault, err)
        }
    }
}

/// Recovers in place, in files with these names.
fn run_in_place<R: Files<File = File> + Clock + Threads + Sync, O: Write, E: Write>(
    rt: &R,
    alloc: Global,
    names: &Names,
    options: &Options,
    verbose: bool,
    out: &mut O,
    err: &mut E,
) -> u8 {
    let files = PlaceFiles::new(names);
    match recover_files_in_place(rt, alloc, &files, options) {
        Ok(done) => {
            if verbose {
                tell_in_place(&files, err);
            }
            tell_done(alloc, &files, &done, err);
            tell_report(alloc, &done.report, verbose, out, err)
        }
        Err(fault) => {
            if says_why(fault, verbose) && !tell_place_files(&files, err) {
                let old = OldFiles::new(names.log.as_str(), names.store.as_str(), None);
                tell_place(fault, &old, err);
            }
            refuse(fault, err)
        }
    }
}

/// Finds the names of a recovery in place, and recovers.
fn name_and_run<'x, R: Files<File = File> + Clock + Threads + Sync, O: Write, E: Write>(
    rt: &R,
    alloc: Global,
    given: (&'x str, &'x str, Option<&'x str>),
    options: &Options,
    verbose: bool,
    out: &mut O,
    err: &mut E,
) -> u8 {
    let (log, store, out_store) = given;
    let old = OldFiles::new(log, store, None);
    match Names::new(rt, alloc, &old, out_store) {
        Ok(names) => run_in_place(rt, alloc, &names, options, verbose, out, err),
        Err(fault) => {
            if says_why(fault, verbose) && !tell_old(&old, err) {
                tell_place(fault, &old, err);
            }
            refuse(fault, err)
        }
    }
}

/// Does the job. First it prints what there is to know of a log that is not recovered in place.
fn run_job<R: Files<File = File> + Clock + Threads + Sync, O: Write, E: Write>(
    rt: &R,
    alloc: Global,
    job: &Job,
    out: &mut O,
    err: &mut E,
) -> u8 {
    match job {
        Job::Recover {
            log,
            store,
            out_log,
            out_store,
            options,
            may_be_one,
            verbose,
        } => {
            notice(rt, alloc, "aries", log.as_str(), err);
            let old = OldFiles::new(log.as_str(), store.as_str(), None);
            let new = NewFiles {
                log: Notes::new("new log", out_log.as_str()),
                store: Notes::new("new store", out_store.as_str()),
            };
            let how = (options, *may_be_one);
            run_recovery(rt, alloc, (&old, &new), how, *verbose, out, err)
        }
        Job::RecoverInPlace {
            log,
            store,
            out_store,
            options,
            may_be_one: _,
            verbose,
        } => {
            let given = (log.as_str(), store.as_str(), text_of(out_store));
            name_and_run(rt, alloc, given, options, *verbose, out, err)
        }
        Job::Audit {
            log,
            store,
            base,
            verbose,
        } => {
            notice(rt, alloc, "aries", log.as_str(), err);
            let files = OldFiles::new(log.as_str(), store.as_str(), text_of(base));
            run_audit(rt, alloc, &files, *verbose, out, err)
        }
    }
}

/// The text of a name, if it is there.
fn text_of(name: &Option<String>) -> Option<&str> {
    match name {
        Some(name) => Some(name.as_str()),
        None => None,
    }
}

/// Runs the program `aries`: `words` are its words, the first of which is its name; `out` is
/// standard output and `err` is standard error. Returns the exit status: 0 if the job was done or
/// help was asked for, 1 for a fault, printed to `err` as `fault N: text`, or a failed print, 2 for
/// a line that is wrong. After fault 1 of a recovery nothing is written, or all is if memory for
/// the report was refused. Before the line of a fault 2 to 5, `err` gets one that begins with
/// `aries: ` and says which file and why; before any work, lines on a log that may not be whole;
/// after it, lines on what was finished or cut. With `--verbose` it also gets why any other fault
/// came, or what was read and written, and in which time.
pub fn run<R: Files<File = File> + Clock + Threads + Sync, O: Write, E: Write>(
    rt: &R,
    alloc: Global,
    words: &[&str],
    out: &mut O,
    err: &mut E,
) -> u8 {
    match command_of(alloc, words) {
        Ok(job) => run_job(rt, alloc, &job, out, err),
        Err(refusal) => refusal.explain(out, err),
    }
}
