//! The files that a directory has.
use crate::directory::Directory;
use crate::named::{Named, read_name};
use std::alloc::{AllocError, Global};
use std::io::ErrorKind;
use std::{fs, io};

/// The files that a directory has.
#[derive(Drop)]
pub(crate) struct Listing {
    /// The numbers of the files of the journal, in order, with those before the last base.
    pub(crate) traces: Vec<u32>,
    /// The numbers of the files whose first lines weren't all written.
    pub(crate) unfinished: Vec<u32>,
    /// The greatest number of a file that is or was one of the journal; 0 if there is none.
    pub(crate) last: u32,
}

impl Listing {
    /// Creates the listing of an empty directory.
    fn new(alloc: Global) -> Listing {
        Listing {
            traces: Vec::new(alloc),
            unfinished: Vec::new(alloc),
            last: 0,
        }
    }

    /// Adds a file with a name.
    fn add(&mut self, name: &str) -> Result<(), AllocError> {
        match read_name(name.as_bytes()) {
            Named::Trace(number) => {
                self.traces.push(number)?;
                self.last = self.last.max(number);
            }
            Named::Old(number) => self.last = self.last.max(number),
            Named::Unfinished(number) => self.unfinished.push(number)?,
            Named::Other => {}
        }
        Ok(())
    }
}

impl Directory<'_> {
    /// The files that the directory has. A file whose name isn't UTF-8 is none of the journal.
    pub(crate) fn list(&self) -> io::Result<Listing> {
        let mut listing = Listing::new(self.alloc());
        for entry in fs::read_dir(self.rt, self.path)? {
            match entry {
                Ok(entry) => listing.add(entry.file_name())?,
                Err(error) if error.kind() == ErrorKind::InvalidFilename => {}
                Err(error) => return Err(error),
            }
        }
        listing.traces.sort_unstable();
        Ok(listing)
    }
}
