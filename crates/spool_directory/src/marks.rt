//! The marks of the files of a journal.
use crate::directory::Directory;
use crate::head::{read_base, read_next};
use crate::listing::Listing;
use crate::trouble::ReadTrouble;
use base_types::JobId;
use journal::Mark;
use recordings::LineReader;
use std::alloc::Global;
use std::fs::File;

/// The last mark in the turns of a file, if they have one.
fn last_mark(alloc: Global, lines: &mut LineReader<'_, File>) -> Result<Option<Mark>, ReadTrouble> {
    let mut line = Vec::new(alloc);
    let (mut last, mut next) = (None, None);
    for _ in 0..u64::MAX {
        if !lines.read_whole(&mut line)? {
            break;
        }
        next = Mark::read(&line).or(next);
        if line.starts_with(b"turn ") {
            last = next;
        }
    }
    Ok(last)
}

/// The last mark of a file, if it has one.
fn mark_of(alloc: Global, is_base: bool, file: &mut File) -> Result<Option<Mark>, ReadTrouble> {
    let mut lines = LineReader::new(alloc, file)?;
    if is_base {
        read_base(alloc, &mut lines)?;
    } else {
        read_next(alloc, &mut lines)?;
    }
    last_mark(alloc, &mut lines)
}

impl Directory<'_> {
    /// The last mark of the journal that begins with the base with a number, if it has one.
    fn end_mark(&self, listing: &Listing, base: u32) -> Result<Option<Mark>, ReadTrouble> {
        let mut last = None;
        for number in &listing.traces {
            if *number >= base {
                let mut file = self.open(*number)?;
                last = mark_of(self.alloc(), *number == base, &mut file)?.or(last);
            }
        }
        Ok(last)
    }

    /// The id of the next job, if no job was unfinished at the end of the journal that begins with the base with a
    /// number; `None` where it isn't known.
    pub(crate) fn quiet_end(&self, listing: &Listing, base: u32) -> Option<JobId> {
        match self.end_mark(listing, base) {
            Ok(Some(Mark::Quiet(number))) => JobId::new(number),
            _ => None,
        }
    }
}
