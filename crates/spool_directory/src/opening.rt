//! The opening of a directory.
use crate::directory::Directory;
use crate::fault::SpoolFault;
use std::fs::{DirBuilder, File, OpenOptions, TryLockError};
use std::io;
use std::io::ErrorKind;
use std::os::unix::fs::{DirBuilderExt, OpenOptionsExt};

/// A directory that no other server can open.
#[derive(Drop)]
pub struct SpoolDirectory<'a> {
    pub(crate) directory: Directory<'a>,
    pub(crate) lock: File,
}

/// Makes a directory that only its owner can enter, if it isn't there.
fn make(rt: &HostRuntime, path: &str) -> io::Result<()> {
    match DirBuilder::new().mode(0o700).create(rt, path) {
        Err(error) if error.kind() != ErrorKind::AlreadyExists => Err(error),
        _ => Ok(()),
    }
}

/// Opens the file that a server locks. It is created if it is missing.
fn open_lock(rt: &HostRuntime, path: &str) -> io::Result<File> {
    OpenOptions::new()
        .write(true)
        .create(true)
        .mode(0o600)
        .open(rt, path)
}

/// The fault that another server has locked the directory.
fn in_use(directory: Directory<'_>) -> SpoolFault {
    match String::from_str(directory.alloc(), directory.path) {
        Ok(path) => SpoolFault::InUse(path),
        Err(_) => SpoolFault::OutOfMemory,
    }
}

impl<'a> SpoolDirectory<'a> {
    /// Opens the directory of a path for this server alone. It is made if it is missing, in a directory that is
    /// there.
    pub fn open(rt: &'a HostRuntime, path: &'a str) -> Result<SpoolDirectory<'a>, SpoolFault> {
        let directory = Directory { rt, path };
        directory.or_refused("make", path, make(rt, path))?;
        let Ok(name) = directory.path_of("lock") else {
            return Err(SpoolFault::OutOfMemory);
        };
        let lock = directory.or_refused("open", &name, open_lock(rt, &name))?;
        match lock.try_lock() {
            Ok(()) => Ok(SpoolDirectory { directory, lock }),
            Err(TryLockError::WouldBlock) => Err(in_use(directory)),
            Err(TryLockError::Error(error)) => Err(directory.refused("lock", &name, error)),
        }
    }
}
