//! A file of the journal before it has its name.
ghost use Rattle.std.specs.Prelude.{◌≡◌, [], IfOk};

use crate::clock::{millis_of, now};
use crate::directory::Directory;
use crate::fault::SpoolFault;
use crate::writer::{Tail, base_head, next_head, number_after};
use base_types::JobId;
use journal::{ResubmissionFault, Storage, StoredLines};
use std::fs::File;
use std::io;
use std::io::Write;
use std::time::Duration;

/// A file of the journal before it has its name: a start that is killed leaves the journal as it was.
#[derive(Drop)]
pub(crate) struct DraftFile<'a> {
    directory: Directory<'a>,
    number: u32,
    file: File,
    length: u64,
    /// The time at which it was begun.
    time: Duration,
    /// Why the system refused to store lines, or something else.
    error: Option<io::Error>,
    /// The lines of the journal, without the first lines of its files.
    pub(crate) stored: StoredLines,
}

impl<'a> DraftFile<'a> {
    /// Begins the file with a number, with its first lines.
    fn begin(
        directory: Directory<'a>,
        number: u32,
        head: &[u8],
        time: Duration,
    ) -> io::Result<DraftFile<'a>>
        ensures { IfOk result (λ draft. draft.stored.lines ≡ []) }
    {
        let file = directory.create(number, head)?;
        Ok(DraftFile {
            directory,
            number,
            file,
            length: head.len() as u64,
            time,
            error: None,
            stored: StoredLines::new(),
        })
    }

    /// Begins a base after the file with the number `last`, whose first job gets the id `first`.
    pub(crate) fn base(
        directory: Directory<'a>,
        last: u32,
        settings: &[u8],
        first: JobId,
        version: &str,
    ) -> io::Result<DraftFile<'a>>
        ensures { IfOk result (λ draft. draft.stored.lines ≡ []) }
    {
        let time = now(directory.rt)?;
        let head = base_head(directory.alloc(), settings, millis_of(time), version, first)?;
        DraftFile::begin(directory, number_after(last)?, &head, time)
    }

    /// Begins a file after that with the number `last`. It goes on after the file with the number `before`, with
    /// these lines first.
    pub(crate) fn next(
        directory: Directory<'a>,
        last: u32,
        before: u32,
        lines: &[u8],
        version: &str,
    ) -> io::Result<DraftFile<'a>> {
        let time = now(directory.rt)?;
        let mut head = next_head(directory.alloc(), before, millis_of(time), version)?;
        head.extend_from_slice(lines)?;
        DraftFile::begin(directory, number_after(last)?, &head, time)
    }

    /// The same file, whose lines come after others that are stored.
    pub(crate) fn after(self, stored: StoredLines) -> DraftFile<'a>
        ensures { result.stored ≡ stored }
    {
        DraftFile { stored, ..self }
    }

    /// The time at which it was begun, in ms since the beginning of 1970.
    pub(crate) fn began(&self) -> u64 {
        millis_of(self.time)
    }

    /// Records that the file is of no use, since the system refused something else.
    pub(crate) fn fail(&mut self, error: io::Error)
        ensures { self.new.stored ≡ self.old.stored }
    {
        self.error = Some(error);
    }

    /// Gives the file its name, once its lines are on the disk. Returns it with the lines that are stored.
    pub(crate) fn publish(self) -> (io::Result<Tail>, StoredLines)
        ensures { result.1 ≡ self.entry.stored }
    {
        let DraftFile {
            directory,
            number,
            file,
            length,
            time,
            stored,
            ..
        } = self;
        match directory.publish(number, &file) {
            Ok(()) => (Ok(Tail::of(file, number, length, time)), stored),
            Err(error) => (Err(error), stored),
        }
    }

    /// Removes the file, since it can't be written for this cause. Returns the fault.
    pub(crate) fn abandon(self, cause: ResubmissionFault) -> SpoolFault {
        let DraftFile {
            directory,
            number,
            error,
            ..
        } = self;
        let _removed = directory.remove_unfinished(number);
        match (cause, error) {
            (ResubmissionFault::NotStored, Some(error)) => {
                directory.refused("write to", directory.path, error)
            }
            (ResubmissionFault::Changed(job), _) => SpoolFault::Changed(job),
            _ => SpoolFault::OutOfMemory,
        }
    }
}

impl Storage for DraftFile<'_> {
    ghost stored = { λ draft. draft.stored.lines };

    fn append(&mut self, lines: &[u8]) -> bool {
        if let Err(error) = self.file.write_all(lines) {
            self.error = Some(error);
            return false;
        }
        self.length = self.length.saturating_add(lines.len() as u64);
        self.stored.append(lines);
        true
    }
}
