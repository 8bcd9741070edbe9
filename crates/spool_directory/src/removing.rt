//! The removal of files that the journal doesn't need.
use crate::directory::Directory;
use crate::listing::Listing;
use crate::system_error::SystemError;
use std::io;
use std::io::ErrorKind;

impl Directory<'_> {
    /// Reports that files can't be removed. The next start tries again.
    fn say_left(&self, number: u32, error: io::Error) {
        let (path, error) = (self.path, SystemError(error));
        let _printed = eprintln!(self.rt;
            "printd: cannot remove file {number} of {path}: {error}; the next start tries again"
        );
    }

    /// Removes the file of the journal with a number, or gives it another name, if it is to be kept. A failure is
    /// reported.
    pub(crate) fn let_go(&self, number: u32, keep: bool) {
        match self.put_aside(number, keep) {
            Err(error) if error.kind() != ErrorKind::NotFound => self.say_left(number, error),
            _ => {}
        }
    }

    /// Removes the files whose first lines weren't all written.
    fn clear_unfinished(&self, listing: &Listing) {
        for number in &listing.unfinished {
            if let Err(error) = self.remove_unfinished(*number) {
                self.say_left(*number, error);
            }
        }
    }

    /// Removes all files before the base with a number, and those whose first lines weren't all written.
    pub(crate) fn clear(&self, listing: &Listing, base: u32, keep: bool) {
        self.clear_unfinished(listing);
        for number in &listing.traces {
            if *number < base {
                self.let_go(*number, keep);
            }
        }
    }
}
