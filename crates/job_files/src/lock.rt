//! The lock of a log. Each program that changes a log holds an exclusive lock on its file: a recovery
//! in place, and an engine that keeps its files with `aries_files`.

use std::fs::{self, File, Files, TryLockError};
use std::io;

/// Locks the file of a log for one program. The lock lasts until each handle of this opening is
/// closed, so also until the program ends. Returns whether it was locked: not if another program
/// has locked it. An error means that the file system has no locks.
pub fn try_lock(file: &File) -> io::Result<bool> {
    match file.try_lock() {
        Ok(()) => Ok(true),
        Err(TryLockError::WouldBlock) => Ok(false),
        Err(TryLockError::Error(error)) => Err(error),
    }
}

/// Whether a path names a regular file, or a link to one. It is not opened: opening a pipe waits
/// for its other end.
pub fn is_regular<R: Files>(rt: &R, path: &str) -> bool {
    match fs::metadata(rt, path) {
        Ok(metadata) => metadata.is_file(),
        Err(_) => false,
    }
}

/// Whether another program has locked the log at this path, and so may be changing it. The lock
/// that this takes to find out is gone when it returns.
pub fn is_locked<R: Files<File = File>>(rt: &R, path: &str) -> bool {
    if !is_regular(rt, path) {
        return false;
    }
    match File::open(rt, path) {
        Ok(file) => matches!(file.try_lock_shared(), Err(TryLockError::WouldBlock)),
        Err(_) => false,
    }
}
