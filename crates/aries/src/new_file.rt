//! New files: their owners and rights, and how their names reach the disk.

use job_files::{Call, Notes, folder_of};
use page::Fault;
use std::fs::{self, File, Files, Metadata, OpenFile, OpenOptions, Permissions};
use std::io::{self, ErrorKind};
use std::os::unix::fs::{MetadataExt, OpenOptionsExt, PermissionsExt, fchown};

/// Notes that a file was not opened or made, and returns the fault: lack of memory, or the file's.
pub fn refuse(file: &Notes, call: Call, error: io::Error, fault: Fault) -> Fault {
    file.fail(call, error);
    match error.kind() {
        ErrorKind::OutOfMemory => Fault::NoResource,
        _ => fault,
    }
}

/// Opens a file to be read; `fault` if that failed.
pub fn open<R: Files>(rt: &R, file: &Notes, fault: Fault) -> Result<R::File, Fault> {
    File::open(rt, file.path).map_err(|error| refuse(file, Call::Open, error, fault))
}

/// Removes a file, if it is there; `fault` if that failed.
pub fn remove<R: Files>(rt: &R, file: &Notes, fault: Fault) -> Result<(), Fault> {
    match fs::remove_file(rt, file.path) {
        Ok(()) => Ok(()),
        Err(error) if error.kind() == ErrorKind::NotFound => Ok(()),
        Err(error) => Err(refuse(file, Call::Remove, error, fault)),
    }
}

/// The rights that a mode gives its owner, and those that it gives both its group and all others.
/// This is the mode for a file of another group: members of that group were among the others, and
/// its others may be of the old group.
fn mode_without_group(mode: u32) -> u32 {
    mode & 0o700 | mode & (mode >> 3) & 0o007
}

/// Gives a new file the owner and the group of an old one, as far as the system allows it: root may
/// do both, any other user may choose among its own groups.
fn give_away(made: &File, old: &Metadata) {
    if fchown(made, Some(old.uid()), Some(old.gid())).is_err() {
        let _ = fchown(made, None, Some(old.gid()));
    }
}

/// Gives a new file the owner, the group and the mode of an old one, as far as the system allows
/// it. Without the group it gets no rights for a group.
fn give_rights(made: &File, old: &Metadata) {
    give_away(made, old);
    let mode = old.permissions().mode() & 0o777;
    let has_group = match made.metadata() {
        Ok(metadata) => metadata.gid() == old.gid(),
        Err(_) => false,
    };
    let mode = if has_group {
        mode
    } else {
        mode_without_group(mode)
    };
    let _ = made.set_permissions(Permissions::from_mode(mode));
}

/// Makes a new file. A user other than its owner may read or write it only if that user may read or
/// write `old`. It has the owner of `old` if the system allows that, else that of the process; and
/// the mode of `old` if it has its group, otherwise no rights for a group. If nothing is known of
/// `old`, only the owner has rights. `fault` if the file could not be made.
pub fn make<R: Files<File = File>>(
    rt: &R,
    file: &Notes,
    old: &File,
    fault: Fault,
) -> Result<File, Fault> {
    let metadata = old.metadata().ok();
    let alone = match &metadata {
        Some(metadata) => mode_without_group(metadata.permissions().mode() & 0o777),
        None => 0o600,
    };
    let mut options = OpenOptions::new();
    options.read(true).write(true).create_new(true).mode(alone);
    match options.open(rt, file.path) {
        Ok(made) => {
            if let Some(metadata) = &metadata {
                give_rights(&made, metadata);
            }
            Ok(made)
        }
        Err(error) => Err(refuse(file, Call::Make, error, fault)),
    }
}

/// Whether a failure to sync shows only that the system cannot sync such a file, or does not allow
/// it.
fn is_let_pass(error: io::Error) -> bool {
    matches!(
        error.kind(),
        ErrorKind::PermissionDenied | ErrorKind::InvalidInput | ErrorKind::Unsupported
    )
}

/// Syncs the folder of a file, so that names in it reach the disk; `fault` if the folder could not
/// be synced. If the system does not allow the sync, because the folder may not be read or the file
/// system has no such operation, that is only noted, and the job goes on.
pub fn sync_folder<R: Files<File = File>>(rt: &R, file: &Notes, fault: Fault) -> Result<(), Fault> {
    let synced = File::open(rt, folder_of(file.path)).and_then(|folder| folder.sync_all());
    let Err(error) = synced else {
        return Ok(());
    };
    if is_let_pass(error) {
        file.pass_over(Call::SyncFolder, error);
        return Ok(());
    }
    file.fail(Call::SyncFolder, error);
    Err(fault)
}

/// Syncs a file that was found, before it is read: what a process wrote that was killed may be in
/// the cache of the system only. A pipe has nothing to sync. `fault` if that failed.
pub fn sync_found(found: &File, file: &Notes, fault: Fault) -> Result<(), Fault> {
    match found.sync_all() {
        Ok(()) => Ok(()),
        Err(error) if error.kind() == ErrorKind::InvalidInput => Ok(()),
        Err(error) => Err(refuse(file, Call::Sync, error, fault)),
    }
}
