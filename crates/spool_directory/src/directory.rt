//! The files of a directory.
use crate::fault::{FileFault, SpoolFault};
use crate::named::{old_name, trace_name, unfinished_name};
use crate::system_error::SystemError;
use crate::trouble::ReadTrouble;
use std::alloc::{AllocError, Global};
use std::fs::{File, OpenOptions};
use std::io::{ErrorKind, Write};
use std::os::unix::fs::OpenOptionsExt;
use std::{fs, io};

/// A directory of a path.
#[derive(Clone, Copy)]
pub(crate) struct Directory<'a> {
    pub(crate) rt: &'a HostRuntime,
    pub(crate) path: &'a str,
}

/// Removes a file, if it is there.
fn remove_if_there(rt: &HostRuntime, path: &str) -> io::Result<()> {
    match fs::remove_file(rt, path) {
        Err(error) if error.kind() != ErrorKind::NotFound => Err(error),
        _ => Ok(()),
    }
}

/// Creates a file that only its owner can read, to be appended to, and writes to it.
fn create(rt: &HostRuntime, path: &str, head: &[u8]) -> io::Result<File> {
    let mut file = OpenOptions::new()
        .append(true)
        .create_new(true)
        .mode(0o600)
        .open(rt, path)?;
    file.write_all(head)?;
    Ok(file)
}

impl<'a> Directory<'a> {
    /// The allocator.
    pub(crate) fn alloc(&self) -> Global {
        self.rt.alloc()
    }

    /// The path of a file with a name.
    pub(crate) fn path_of(&self, name: &str) -> Result<String, AllocError> {
        let path = self.path;
        format!(in self.alloc(); "{path}/{name}")
    }

    /// The path of the file of the journal with a number.
    pub(crate) fn trace_path(&self, number: u32) -> Result<String, AllocError> {
        let name = trace_name(self.alloc(), number)?;
        self.path_of(&name)
    }

    /// The path of the file with a number while its first lines are written.
    fn unfinished_path(&self, number: u32) -> Result<String, AllocError> {
        let name = unfinished_name(self.alloc(), number)?;
        self.path_of(&name)
    }

    /// Waits until the names of the files are on the disk.
    pub(crate) fn sync(&self) -> io::Result<()> {
        File::open(self.rt, self.path)?.sync_all()
    }

    /// Opens the file of the journal with a number for reading.
    pub(crate) fn open(&self, number: u32) -> io::Result<File> {
        let path = self.trace_path(number)?;
        File::open(self.rt, &path)
    }

    /// Creates the file with a number, with its first lines. It isn't a file of the journal until it is published.
    /// Where an error is returned, it isn't there.
    pub(crate) fn create(&self, number: u32, head: &[u8]) -> io::Result<File> {
        let unfinished = self.unfinished_path(number)?;
        remove_if_there(self.rt, &unfinished)?;
        match create(self.rt, &unfinished, head) {
            Ok(file) => Ok(file),
            Err(error) => {
                let _removed = fs::remove_file(self.rt, &unfinished);
                Err(error)
            }
        }
    }

    /// Makes the file with a number that was created a file of the journal. Where an error is returned, no file of the
    /// journal has the number.
    fn name(&self, number: u32) -> io::Result<()> {
        let unfinished = self.unfinished_path(number)?;
        let path = self.trace_path(number)?;
        fs::rename(self.rt, &unfinished, &path)
    }

    /// Makes the file with a number that was created a file of the journal, once its lines are on the disk, and waits
    /// until its name is, too. Where an error is returned, no file of the journal has the number.
    pub(crate) fn publish(&self, number: u32, file: &File) -> io::Result<()> {
        let path = self.trace_path(number)?;
        file.sync_all()?;
        self.name(number)?;
        match self.sync() {
            Err(error) if fs::remove_file(self.rt, &path).is_ok() => Err(error),
            _ => Ok(()),
        }
    }

    /// Makes the file of the journal with a number, with its first lines, and waits until it is on the disk, if asked.
    /// Where an error is returned, there is no such file.
    pub(crate) fn make(&self, number: u32, head: &[u8], sync: bool) -> io::Result<File> {
        let file = self.create(number, head)?;
        if sync {
            self.publish(number, &file)?;
        } else {
            self.name(number)?;
        }
        Ok(file)
    }

    /// Cuts the file of the journal with a number.
    pub(crate) fn cut(&self, number: u32, length: u64) -> io::Result<()> {
        let path = self.trace_path(number)?;
        let file = OpenOptions::new().write(true).open(self.rt, &path)?;
        file.set_len(length)?;
        file.sync_all()
    }

    /// Removes the file of the journal with a number, or gives it another name, if it is to be kept.
    pub(crate) fn put_aside(&self, number: u32, keep: bool) -> io::Result<()> {
        let path = self.trace_path(number)?;
        if !keep {
            return remove_if_there(self.rt, &path);
        }
        let name = old_name(self.alloc(), number)?;
        let kept = self.path_of(&name)?;
        fs::rename(self.rt, &path, &kept)
    }

    /// Removes the file with a number whose first lines weren't all written.
    pub(crate) fn remove_unfinished(&self, number: u32) -> io::Result<()> {
        let path = self.unfinished_path(number)?;
        remove_if_there(self.rt, &path)
    }

    /// The fault that the system refuses to do `what` with a file or a directory.
    pub(crate) fn refused(&self, what: &'static str, path: &str, error: io::Error) -> SpoolFault {
        if error.kind() == ErrorKind::OutOfMemory {
            return SpoolFault::OutOfMemory;
        }
        match String::from_str(self.alloc(), path) {
            Ok(path) => SpoolFault::Refused {
                what,
                path,
                error: SystemError(error),
            },
            Err(_) => SpoolFault::OutOfMemory,
        }
    }

    /// What the system gave. That it refuses to do `what` with a file or a directory is a fault.
    pub(crate) fn or_refused<T>(
        &self,
        what: &'static str,
        path: &str,
        given: io::Result<T>,
    ) -> Result<T, SpoolFault> {
        match given {
            Ok(value) => Ok(value),
            Err(error) => Err(self.refused(what, path, error)),
        }
    }

    /// As [`Directory::refused`], for the file of the journal with a number.
    pub(crate) fn refused_trace(
        &self,
        what: &'static str,
        number: u32,
        error: io::Error,
    ) -> SpoolFault {
        match self.trace_path(number) {
            Ok(path) => self.refused(what, &path, error),
            Err(_) => SpoolFault::OutOfMemory,
        }
    }

    /// The fault of the file of the journal with a number.
    pub(crate) fn fault(&self, number: u32, trouble: ReadTrouble) -> SpoolFault {
        match trouble {
            ReadTrouble::System(error) => self.refused_trace("read", number, error),
            ReadTrouble::Settings(sentence) => SpoolFault::Settings(sentence),
            ReadTrouble::File(line, why) => match self.trace_path(number) {
                Ok(file) => SpoolFault::File(FileFault { file, line, why }),
                Err(_) => SpoolFault::OutOfMemory,
            },
        }
    }
}
