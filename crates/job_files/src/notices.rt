//! What a program says of a log before it reads it, if the log may not be whole.

use crate::beside::{is_kept, real_name, tail_name};
use crate::lock::{is_locked, is_regular};
use std::alloc::Global;
use std::fs::{self, File, Files};
use std::io::{self, Write};

/// Says which files next to a log show that the log is not whole.
fn notice_beside<R: Files, E: Write>(
    rt: &R,
    alloc: Global,
    program: &str,
    log: &str,
    err: &mut E,
) -> io::Result<()> {
    let tail = tail_name(alloc, log)?;
    if fs::symlink_metadata(rt, tail.as_str()).is_ok() {
        writeln!(
            err,
            "{program}: {tail:?} is there: a recovery in place was interrupted, or the log was replaced later; \
             first run aries recover --in-place again, or remove that file"
        )?;
    }
    if is_kept(rt, alloc, log)? {
        writeln!(
            err,
            "{program}: sums-N or pages is in the folder of {log:?}: aries_files keeps the log; \
             first open and close the folder with its own program"
        )?;
    }
    Ok(())
}

/// Prints a line for each reason why the log at this path may not be whole: another program has
/// locked it, a recovery in place was interrupted, or `aries_files` keeps it and has not closed it.
/// Nothing else changes; a print that fails does not count.
pub fn notice<R: Files<File = File>, E: Write>(
    rt: &R,
    alloc: Global,
    program: &str,
    log: &str,
    err: &mut E,
) {
    if !is_regular(rt, log) {
        return;
    }
    if is_locked(rt, log) {
        let _ = writeln!(
            err,
            "{program}: the log {log:?} is locked: another program may be writing it"
        );
    }
    if let Ok(path) = real_name(rt, alloc, log) {
        let _ = notice_beside(rt, alloc, program, path.as_str(), err);
    }
}
