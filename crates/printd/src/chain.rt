//! The files of a recording or a spool, one after the other.
use crate::tape::{MOST_FILES, name_of};
use recordings::{GOES_ON, fill};
use spool_directory::leads_to;
use std::alloc::AllocError;
use std::fs::{File, metadata};
use std::io::ErrorKind;
use std::os::unix::fs::MetadataExt;
use std::{fs, io};

/// The end of the name of a spool's file.
const SUFFIX: &str = ".trace";

/// The number of bytes that are read to find out whether a file goes on from another.
const HEAD: usize = 64;

/// The files of a recording or a spool: each has a number, and goes on from the file before it or begins a day.
#[derive(Clone, Copy)]
pub(crate) struct FileChain<'a> {
    rt: &'a HostRuntime,
    /// The first file of a recording, or the directory of a spool.
    path: &'a str,
    is_spool: bool,
}

/// The number of the file of a spool with a name.
fn number_of(name: &str) -> Option<u32> {
    name.strip_suffix(SUFFIX)?.parse::<u32>().ok()
}

impl<'a> FileChain<'a> {
    /// Creates the chain of a recording or of the directory of a spool. The error is the system's, for example that
    /// nothing is at the path.
    pub(crate) fn new(rt: &'a HostRuntime, path: &'a str) -> io::Result<FileChain<'a>> {
        let is_spool = metadata(rt, path)?.is_dir();
        Ok(FileChain { rt, path, is_spool })
    }

    /// The path of the file with a number. The only error is out of memory.
    pub(crate) fn name(&self, number: u32) -> Result<String, AllocError> {
        let path = self.path;
        if self.is_spool {
            format!(in self.rt.alloc(); "{path}/{number:06}{SUFFIX}")
        } else {
            name_of(self.rt, path, number)
        }
    }

    /// Opens the file with a number.
    pub(crate) fn open(&self, number: u32) -> io::Result<File> {
        let name = self.name(number)?;
        File::open(self.rt, &name)
    }

    /// Returns whether the file with a number goes on from another.
    pub(crate) fn goes_on(&self, number: u32) -> io::Result<bool> {
        let mut head = vec![in self.rt.alloc(); 0; HEAD]?;
        let mut file = self.open(number)?;
        let count = fill(&mut file, &mut head)?;
        Ok(head[..count].starts_with(GOES_ON))
    }

    /// The number of the file with which the newest day begins.
    pub(crate) fn first(&self) -> io::Result<u32> {
        if !self.is_spool {
            return Ok(0);
        }
        for number in self.numbers()?.iter().rev() {
            if !self.goes_on(*number)? {
                return Ok(*number);
            }
        }
        Err(io::Error::from(ErrorKind::NotFound))
    }

    /// The numbers of a spool's files, in order.
    fn numbers(&self) -> io::Result<Vec<u32>> {
        let mut numbers = Vec::new(self.rt.alloc());
        for entry in fs::read_dir(self.rt, self.path)? {
            match entry {
                Ok(entry) => if let Some(number) = number_of(entry.file_name()) {
                    numbers.push(number)?;
                }
                Err(error) if error.kind() == ErrorKind::InvalidFilename => {}
                Err(error) => return Err(error),
            }
        }
        numbers.sort_unstable();
        Ok(numbers)
    }

    /// The number of the file to be read once all of the open file with a number was read: the file after it, or, where
    /// it was moved away, one that was begun anew. `None` while there is none.
    pub(crate) fn next(&self, number: u32, file: &File) -> io::Result<Option<u32>> {
        let written = self.written(file)?;
        if let Some(after) = self.after(number, written)? {
            return Ok(Some(after));
        }
        let name = self.name(number)?;
        match leads_to(self.rt, &name, file) {
            Ok(true) => Ok(None),
            _ if self.is_spool => Ok(self.first().ok()),
            _ => Ok(self.begun_anew(number, written)?),
        }
    }

    /// The least time at which a file that comes after a file was last written to, in s since the beginning of 1970. The
    /// numbers of a spool's files rise, also where the clock was set back.
    fn written(&self, file: &File) -> io::Result<i64> {
        if self.is_spool {
            return Ok(0);
        }
        Ok(file.metadata()?.mtime())
    }

    /// The number of the file after the file with a number, which was last written to at this time.
    fn after(&self, number: u32, written: i64) -> Result<Option<u32>, AllocError> {
        for after in number.saturating_add(1)..MOST_FILES {
            let name = self.name(after)?;
            if self.has_begun(&name, written) {
                return Ok(Some(after));
            }
            if self.is_spool || !self.is_packed(&name)? {
                break;
            }
        }
        Ok(None)
    }

    /// The number of the file of a recording that was begun anew in place of the file with a number, which was moved
    /// away and last written to at this time: that number, or that of the first file.
    fn begun_anew(&self, number: u32, written: i64) -> Result<Option<u32>, AllocError> {
        for place in [number, 0] {
            if self.has_begun(&self.name(place)?, written) {
                return Ok(Some(place));
            }
        }
        Ok(None)
    }

    /// Returns whether a file has a first line, and was written to at this time or later, in s since the beginning of
    /// 1970.
    fn has_begun(&self, name: &str, written: i64) -> bool {
        match metadata(self.rt, name) {
            Ok(found) => found.len() >= GOES_ON.len() as u64 && found.mtime() >= written,
            Err(_) => false,
        }
    }

    /// Returns whether a packed file of this name is there.
    fn is_packed(&self, name: &str) -> Result<bool, AllocError> {
        let packed = format!(in self.rt.alloc(); "{name}.gz")?;
        Ok(metadata(self.rt, &packed).is_ok())
    }
}
