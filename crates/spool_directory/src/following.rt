//! The playing of files that go on after others.
ghost use Rattle.std.specs.Prelude.{IfOk, OnOk};
ghost use Rattle.spool_directory.specs.Starting.{IsPlaying, GoesOn};

use crate::directory::Directory;
use crate::fault::{SpoolFault, Why};
use crate::head::{is_base, read_next};
use crate::listing::Listing;
use crate::named::{Named, read_name, trace_name};
use crate::playing::{FileEnd, PlayedFiles, length_of_file, play_turns};
use crate::trouble::ReadTrouble;
use journal::Resumption;
use recordings::LineReader;
use std::alloc::Global;
use std::fs::File;

/// The fault of a file that goes on after a file of this name, which isn't the one before it.
fn not_continued(alloc: Global, listing: &Listing, continued: &[u8]) -> ReadTrouble {
    let there = match read_name(continued) {
        Named::Trace(number) => listing.traces.contains(&number),
        _ => false,
    };
    match String::from_utf8_lossy(alloc, continued) {
        Ok(name) if there => ReadTrouble::File(None, Why::ContinuesOther(name)),
        Ok(name) => ReadTrouble::File(None, Why::ContinuesMissing(name)),
        Err(error) => ReadTrouble::from(error),
    }
}

/// Plays a file that goes on after the file with the number `before`.
fn play_next(
    alloc: Global,
    listing: &Listing,
    before: u32,
    file: &mut File,
    resumption: &mut Resumption,
) -> Result<FileEnd, ReadTrouble>
    ensures { OnOk result (GoesOn resumption.old resumption.new) }
{
    let length = length_of_file(file)?;
    let mut lines = LineReader::new(alloc, file)?;
    let head = read_next(alloc, &mut lines)?;
    let name = trace_name(alloc, before)?;
    if head.continues.as_slice() != name.as_bytes() {
        return Err(not_continued(alloc, listing, &head.continues));
    }
    let whole = play_turns(alloc, &mut lines, &head.version, head.length, resumption)?;
    Ok(FileEnd { whole, length })
}

/// The fault of a file that goes on after a file, although there is no base.
fn orphan(alloc: Global, listing: &Listing, file: &mut File) -> Result<(), ReadTrouble> {
    let mut lines = LineReader::new(alloc, file)?;
    let head = read_next(alloc, &mut lines)?;
    Err(not_continued(alloc, listing, &head.continues))
}

impl Directory<'_> {
    /// Opens the file of the journal with a number.
    pub(crate) fn open_trace(&self, number: u32) -> Result<File, SpoolFault> {
        match self.open(number) {
            Ok(file) => Ok(file),
            Err(error) => Err(self.refused_trace("open", number, error)),
        }
    }

    /// What was read of the file of the journal with a number. What went wrong is a fault.
    fn or_fault<T>(&self, number: u32, read: Result<T, ReadTrouble>) -> Result<T, SpoolFault> {
        match read {
            Ok(value) => Ok(value),
            Err(trouble) => Err(self.fault(number, trouble)),
        }
    }

    /// Returns whether the file with a number is a base.
    fn is_base(&self, number: u32) -> Result<bool, SpoolFault> {
        let mut file = self.open_trace(number)?;
        self.or_fault(number, is_base(self.alloc(), &mut file))
    }

    /// The fault of the first file, which goes on after a file although there is no base.
    fn refuse_orphan(&self, listing: &Listing, number: u32) -> Result<(), SpoolFault> {
        let mut file = self.open_trace(number)?;
        self.or_fault(number, orphan(self.alloc(), listing, &mut file))
    }

    /// The number of the last base; `None` if the directory has no file of a journal.
    pub(crate) fn last_base(&self, listing: &Listing) -> Result<Option<u32>, SpoolFault> {
        for number in listing.traces.iter().rev() {
            if self.is_base(*number)? {
                return Ok(Some(*number));
            }
        }
        if let Some(number) = listing.traces.first() {
            self.refuse_orphan(listing, *number)?;
        }
        Ok(None)
    }

    /// Plays the file with a number after those that were played.
    fn follow(
        &self,
        listing: &Listing,
        number: u32,
        played: &mut PlayedFiles,
    ) -> Result<(), SpoolFault>
        ensures { OnOk result (GoesOn played.old.resumption played.new.resumption) }
    {
        let directory = *self;
        if played.ending.is_torn() {
            return Err(directory.fault(played.last, ReadTrouble::File(None, Why::Torn)));
        }
        let mut file = directory.open_trace(number)?;
        let played_next = play_next(
            directory.alloc(),
            listing,
            played.last,
            &mut file,
            &mut played.resumption,
        );
        match played_next {
            Ok(ending) => {
                played.ending = ending;
                played.last = number;
                Ok(())
            }
            Err(trouble) => Err(directory.fault(number, trouble)),
        }
    }

    /// Plays the files after the base.
    fn follow_all(&self, listing: &Listing, played: &mut PlayedFiles) -> Result<(), SpoolFault>
        ensures { OnOk result (GoesOn played.old.resumption played.new.resumption) }
    {
        for number in &listing.traces {
            if *number <= played.last {
                continue;
            }
            self.follow(listing, *number, played)?;
        }
        Ok(())
    }

    /// Plays the journal that begins with the base with a number.
    pub(crate) fn play(&self, listing: &Listing, base: u32) -> Result<PlayedFiles, SpoolFault>
        ensures { IfOk result (λ played. IsPlaying played.resumption) }
    {
        let mut played = match self.play_base(base) {
            Ok(played) => played,
            Err(fault) => return Err(fault),
        };
        match self.follow_all(listing, &mut played) {
            Ok(()) => Ok(played),
            Err(fault) => Err(fault),
        }
    }
}
