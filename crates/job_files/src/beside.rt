//! The names of files next to a log.

use crate::lock::is_regular;
use std::alloc::{AllocError, Global};
use std::fs::{self, Files};
use std::io::{self, ErrorKind, Read};
use std::path::Path;

/// The folder of a file, `.` if its path names none.
pub fn folder_of(path: &str) -> &str {
    match Path::new(path).parent() {
        Some(folder) if !folder.as_str().is_empty() => folder.as_str(),
        _ => ".",
    }
}

/// The name of the file of a log's tail.
pub fn tail_name(alloc: Global, log: &str) -> Result<String, AllocError> {
    format!(in alloc; "{log}.tail")
}

/// The name of the file itself: if the path names a link, that of the file to which it leads. So
/// what belongs next to a file is found there, by whatever name the file is reached. A link to a
/// pipe, such as `/dev/stdin`, leads to no name, and keeps its own.
pub fn real_name<R: Files>(rt: &R, alloc: Global, path: &str) -> io::Result<String> {
    let is_link = match fs::symlink_metadata(rt, path) {
        Ok(metadata) => metadata.is_symlink(),
        Err(_) => false,
    };
    if is_link {
        match rt.canonicalize(alloc, path) {
            Ok(real) => return Ok(real.into_string()),
            Err(error) if error.kind() == ErrorKind::NotFound => {}
            Err(error) => return Err(error),
        }
    }
    Ok(String::from_str(alloc, path)?)
}

/// Whether one of these names, each ended by a zero, is that of a file with sums of `aries_files`.
fn have_sums(names: &[u8]) -> bool {
    names
        .split(|byte| *byte == 0)
        .any(|name| name.starts_with(b"sums-"))
}

/// Whether a folder has a file with sums of `aries_files`. A folder that cannot be read has none.
fn has_sums<R: Files>(rt: &R, folder: &str) -> bool {
    let Ok(mut listed) = rt.open_dir(folder) else {
        return false;
    };
    let mut names = [0; 1 << 13];
    for _ in 0..u64::MAX {
        match listed.read(&mut names) {
            Ok(0) | Err(_) => return false,
            Ok(count) if have_sums(&names[..count]) => return true,
            Ok(_) => {}
        }
    }
    false
}

/// Whether `aries_files` keeps the log at this path and has not closed it: then `sums-N`, where N
/// is a base LSN, or `pages` is in the folder. Such a log may go on in another file, and its pages
/// are repaired when it is opened.
pub fn is_kept<R: Files>(rt: &R, alloc: Global, log: &str) -> Result<bool, AllocError> {
    let folder = folder_of(log);
    let pages = format!(in alloc; "{folder}/pages")?;
    Ok(is_regular(rt, pages.as_str()) || has_sums(rt, folder))
}
