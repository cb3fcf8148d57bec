//! The lines on standard error that begin with `aries: `: why a job failed, what it found, and how
//! long its parts took.

use crate::files::{NewFiles, OldFiles};
use crate::in_place::Done;
use crate::left::Finished;
use crate::names::PlaceFiles;
use crate::new_tail::{Cut, LONGEST_UPDATE, torn_name};
use job_files::{Name, Notes, tell_failure, tell_let_pass};
use page::Fault;
use recovery::Report;
use std::alloc::Global;
use std::fmt;
use std::io::{self, Write};
use std::time::{Duration, Instant};

/// A time in milliseconds, to the microsecond; nothing if the clock did not work.
#[derive(Drop)]
struct Took(Option<Duration>);

impl fmt::Display for Took {
    fn fmt<W: fmt::Write>(&self, f: &mut fmt::Formatter<W>) -> fmt::Result {
        let Some(time) = self.0 else {
            return Ok(());
        };
        let millis = time.as_millis();
        let micros = time.subsec_micros() % 1000;
        write!(f, " in {millis}.{micros:03} ms")
    }
}

/// Where a fault lies that no call on a file has caused.
#[derive(Clone, Copy)]
enum Place {
    Memory,
    Log,
    Store,
    /// The store or the base store: both are decoded.
    AnyStore,
    Base,
    /// The two do not fit each other.
    LogAndStore,
    /// The fault of a call, or one that no command line causes.
    Nowhere,
}

/// Where a fault lies.
fn place_of(fault: Fault) -> Place {
    match fault {
        Fault::NoResource => Place::Memory,
        Fault::BadLogHeader
        | Fault::BadLength(_)
        | Fault::BadRecord(_)
        | Fault::BadLsn(_)
        | Fault::BrokenChain(_)
        | Fault::Chain(_)
        | Fault::AfterFinish(_)
        | Fault::WrongCompensation(_)
        | Fault::BeforeImage(_)
        | Fault::DirtyWrite(_)
        | Fault::EndTooEarly(_)
        | Fault::TransactionTable
        | Fault::DirtyTable(_) => Place::Log,
        Fault::BadStoreHeader | Fault::StoreSize | Fault::BadPage(_) => Place::AnyStore,
        Fault::PageImage(_) => Place::Store,
        Fault::BadBase => Place::Base,
        Fault::BadMaster | Fault::NoSuchPage(_) | Fault::PageAheadOfLog(_) => Place::LogAndStore,
        Fault::ReadLog
        | Fault::ReadStore
        | Fault::WriteLog
        | Fault::WriteStore
        | Fault::BadParting
        | Fault::BadWorkers => Place::Nowhere,
    }
}

/// Prints in which of the files a fault lies that no file has caused.
pub fn tell_place<E: Write>(fault: Fault, old: &OldFiles, err: &mut E) {
    let (log, store) = (Name(&old.log), Name(&old.store));
    let _ = match (place_of(fault), &old.base) {
        (Place::Memory, _) => writeln!(err, "aries: memory was refused"),
        (Place::Log, _) => writeln!(err, "aries: in {log}"),
        (Place::LogAndStore, _) => writeln!(err, "aries: between {log} and {store}"),
        (Place::Store, _) | (Place::AnyStore, None) => writeln!(err, "aries: in {store}"),
        (Place::AnyStore, Some(base)) => {
            let base = Name(base);
            writeln!(err, "aries: in {store} or {base}")
        }
        (Place::Base, Some(base)) => {
            let base = Name(base);
            writeln!(err, "aries: in {base}")
        }
        (Place::Base, None) | (Place::Nowhere, _) => Ok(()),
    };
}

/// Whether a fault comes with a line that says why: always if it is that of a file which could not
/// be read or written.
pub fn says_why(fault: Fault, verbose: bool) -> bool {
    let is_of_a_file = matches!(
        fault,
        Fault::ReadLog | Fault::ReadStore | Fault::WriteLog | Fault::WriteStore
    );
    verbose || is_of_a_file
}

/// Prints which of the files that a job reads ended it, and why. Returns whether one has.
pub fn tell_old<E: Write>(old: &OldFiles, err: &mut E) -> bool {
    if tell_failure("aries", &old.log, err) || tell_failure("aries", &old.store, err) {
        return true;
    }
    match &old.base {
        Some(base) => tell_failure("aries", base, err),
        None => false,
    }
}

/// The same of the files that a recovery makes.
pub fn tell_new<E: Write>(new: &NewFiles, err: &mut E) -> bool {
    tell_failure("aries", &new.log, err) || tell_failure("aries", &new.store, err)
}

/// The same of the files of a recovery in place.
pub fn tell_place_files<E: Write>(files: &PlaceFiles, err: &mut E) -> bool {
    tell_failure("aries", &files.log, err)
        || tell_failure("aries", &files.store, err)
        || tell_failure("aries", &files.out_log, err)
        || tell_failure("aries", &files.tail, err)
        || tell_failure("aries", &files.new_tail, err)
        || tell_failure("aries", &files.new_store, err)
}

/// Prints how many bytes of a file were read or written, and how long it took.
fn tell_file<E: Write>(done: &str, file: &Notes, err: &mut E) {
    let (name, bytes, took) = (Name(file), file.bytes(), Took(file.duration()));
    let _ = writeln!(err, "aries: {done} {name}: {bytes} bytes{took}");
}

/// The time between two instants, if the clock worked at both.
fn between(from: Option<Instant>, to: Option<Instant>) -> Took {
    match (from, to) {
        (Some(from), Some(to)) => Took(Some(to.duration_since(from))),
        _ => Took(None),
    }
}

/// Prints what a recovery read, and how long it took until `began`, when it began to write.
fn tell_read<E: Write>(log: &Notes, store: &Notes, began: Option<Instant>, err: &mut E) {
    tell_file("read", log, err);
    tell_file("read", store, err);
    let took = between(store.ended(), began);
    let _ = writeln!(err, "aries: recovered in memory{took}");
}

/// Prints what a recovery into new files read and wrote and how long each part took; and the folders
/// that it could not sync because the system does not allow it. The report comes after these lines,
/// so they are flushed.
pub fn tell_recovery<E: Write>(old: &OldFiles, new: &NewFiles, err: &mut E) {
    tell_read(&old.log, &old.store, new.log.began(), err);
    tell_file("wrote and synced", &new.log, err);
    tell_file("wrote and synced", &new.store, err);
    tell_let_pass("aries", &new.log, err);
    tell_let_pass("aries", &new.store, err);
    let _ = err.flush();
}

/// As [`tell_recovery`], of a recovery in place.
pub fn tell_in_place<E: Write>(files: &PlaceFiles, err: &mut E) {
    tell_read(&files.log, &files.store, files.new_tail.began(), err);
    tell_file("wrote and synced", &files.new_tail, err);
    tell_let_pass("aries", &files.tail, err);
    tell_file("wrote and synced", &files.out_log, err);
    tell_file("wrote and synced", &files.new_store, err);
    tell_let_pass("aries", &files.log, err);
    tell_let_pass("aries", &files.store, err);
    tell_let_pass("aries", &files.new_store, err);
    let _ = err.flush();
}

/// Prints how many bytes after the last whole record were left out of a new log, if they are more
/// than a torn record.
pub fn tell_torn<E: Write>(log: &Notes, report: &Report, err: &mut E) {
    if report.torn > LONGEST_UPDATE {
        let (name, torn) = (Name(log), report.torn);
        let _ = writeln!(
            err,
            "aries: {torn} bytes after the last whole record of {name} are not in the new one: \
             more than a torn record"
        );
    }
}

/// Prints what a recovery in place did besides its report: that it could not lock the log, what it
/// finished of an interrupted run, and what it cut off the log, if that is more than a torn record.
pub fn tell_done<E: Write>(alloc: Global, files: &PlaceFiles, done: &Done, err: &mut E) {
    let name = Name(&files.log);
    tell_let_pass("aries", &files.out_log, err);
    if let Some(Finished { compensated, ended }) = done.finished {
        let _ = writeln!(
            err,
            "aries: finished an interrupted recovery of {name}: {compensated} CLRs, {ended} ends"
        );
    }
    if let Some(cut) = done.cut {
        if cut.count > LONGEST_UPDATE {
            let _ = tell_cut(alloc, files, cut, err);
        }
    }
}

/// Prints how many bytes were cut off the log, and which file has them.
fn tell_cut<E: Write>(alloc: Global, files: &PlaceFiles, cut: Cut, err: &mut E) -> io::Result<()> {
    let (name, Cut { offset, count }) = (Name(&files.log), cut);
    let kept = torn_name(alloc, files.log.path, cut)?;
    writeln!(
        err,
        "aries: cut {count} bytes off {name} at byte {offset}: more than a torn record; \
         they are in {kept:?}"
    )
}

/// Prints what an audit that ended at `end` read, and how long each part took. The verdict comes
/// after these lines, so they are flushed.
pub fn tell_audit<E: Write>(old: &OldFiles, end: Option<Instant>, err: &mut E) {
    tell_file("read", &old.log, err);
    tell_file("read", &old.store, err);
    let mut last = &old.store;
    if let Some(base) = &old.base {
        tell_file("read", base, err);
        last = base;
    }
    let took = between(last.ended(), end);
    let _ = writeln!(err, "aries: audited{took}");
    let _ = err.flush();
}
