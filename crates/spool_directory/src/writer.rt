//! The file to which the lines of a journal are appended.
use crate::clock::{day_of, millis_of, now};
use crate::directory::Directory;
use crate::named::{TraceName, trace_name};
use crate::opening::SpoolDirectory;
use crate::spool_files::SpoolOptions;
use crate::system_error::SystemError;
use crate::watching::WatchedFile;
use base_types::JobId;
use recordings::{put_base, put_goes_on, put_started};
use std::alloc::{AllocError, Global};
use std::fs::File;
use std::io;
use std::io::{ErrorKind, Write};
use std::time::Duration;

/// The number of bytes from which on lines go to another file.
const MOST: u64 = 268_435_456;

/// The last file of a journal.
#[derive(Drop)]
pub(crate) struct Tail {
    file: File,
    pub(crate) number: u32,
    /// The number of bytes of the lines that are stored.
    length: u64,
    /// The day on which the file was begun, in days since the beginning of 1970.
    day: u64,
}

/// The files of a journal to which lines are appended.
#[derive(Drop)]
pub(crate) struct JournalWriter<'a> {
    pub(crate) opened: SpoolDirectory<'a>,
    pub(crate) options: SpoolOptions<'a>,
    /// The start of the server, in ms since the beginning of 1970.
    pub(crate) started: u64,
    /// The number of the base.
    pub(crate) base: u32,
    /// The beginning of the base, in ms since the beginning of 1970.
    pub(crate) begun: u64,
    pub(crate) tail: Tail,
    /// Whether bytes of lines that aren't stored may follow those that are.
    pub(crate) torn: bool,
    /// Whether the last lines weren't stored.
    pub(crate) failing: bool,
    pub(crate) watch: WatchedFile,
}

/// The number after a file's number.
pub(crate) fn number_after(number: u32) -> io::Result<u32> {
    match number.checked_add(1) {
        Some(next) => Ok(next),
        None => Err(io::Error::from(ErrorKind::AlreadyExists)),
    }
}

/// The first lines of a base.
pub(crate) fn base_head(
    alloc: Global,
    settings: &[u8],
    began: u64,
    version: &str,
    first: JobId,
) -> Result<Vec<u8>, AllocError> {
    let mut head = Vec::new(alloc);
    put_base(&mut head, settings, began, version, first)?;
    Ok(head)
}

/// The first lines of a file that goes on after the file with the number `before`.
pub(crate) fn next_head(
    alloc: Global,
    before: u32,
    started: u64,
    version: &str,
) -> Result<Vec<u8>, AllocError> {
    let mut head = Vec::new(alloc);
    let name = trace_name(alloc, before)?;
    put_goes_on(&mut head, name.as_bytes())?;
    put_started(&mut head, started, version)?;
    Ok(head)
}

impl Tail {
    /// The open file.
    pub(crate) fn file(&self) -> &File {
        &self.file
    }

    /// A file with a number, of this length, that is begun at a time.
    pub(crate) fn of(file: File, number: u32, length: u64, time: Duration) -> Tail {
        Tail {
            file,
            number,
            length,
            day: day_of(time),
        }
    }

    /// Makes the file with a number, with its first lines. Waits until they are on the disk, if asked.
    fn make(
        directory: Directory<'_>,
        number: u32,
        head: &[u8],
        time: Duration,
        sync: bool,
    ) -> io::Result<Tail> {
        let file = directory.make(number, head, sync)?;
        Ok(Tail::of(file, number, head.len() as u64, time))
    }

    /// Writes lines after those that are stored, and waits until they are on the disk, if asked.
    fn write(&mut self, lines: &[u8], sync: bool) -> io::Result<()> {
        self.file.write_all(lines)?;
        if sync {
            self.file.sync_data()?;
        }
        self.length = self.length.saturating_add(lines.len() as u64);
        Ok(())
    }
}

impl JournalWriter<'_> {
    /// Cuts off what follows the lines that are stored.
    fn mend(&mut self) -> io::Result<()> {
        if self.torn {
            self.tail.file.set_len(self.tail.length)?;
            self.torn = false;
        }
        Ok(())
    }

    /// Goes on in another file, if another day has begun or the file is large. Waits until both files are on the
    /// disk only if all lines do: it takes as long as the disk needs for a whole file.
    fn turn_over(&mut self) -> io::Result<()> {
        let directory = self.opened.directory;
        let time = now(directory.rt)?;
        if day_of(time) == self.tail.day && self.tail.length < MOST {
            return Ok(());
        }
        let before = self.tail.number;
        let head = next_head(
            directory.alloc(),
            before,
            self.started,
            self.options.version,
        )?;
        let sync = self.options.sync;
        if sync {
            self.tail.file.sync_data()?;
        }
        self.tail = Tail::make(directory, number_after(before)?, &head, time, sync)?;
        Ok(())
    }

    /// Stores all of these lines or none.
    fn store(&mut self, lines: &[u8]) -> io::Result<()> {
        self.mend()?;
        self.turn_over()?;
        let written = self.tail.write(lines, self.options.sync);
        if written.is_err() {
            self.torn = true;
            let _mended = self.mend();
        }
        written
    }

    /// Reports that lines can't be stored, and why.
    fn say_failing(&self, error: io::Error) {
        let directory = self.opened.directory;
        let (path, name) = (directory.path, TraceName(self.tail.number));
        let until = match error.kind() {
            ErrorKind::StorageFull | ErrorKind::QuotaExceeded => "there is room",
            _ => "it can",
        };
        let error = SystemError(error);
        let _printed = eprintln!(directory.rt;
            "printd: cannot write to {path}/{name}: {error}; nothing is answered until {until}"
        );
    }

    /// Reports that lines are stored again.
    fn say_working(&self) {
        let directory = self.opened.directory;
        let (path, name) = (directory.path, TraceName(self.tail.number));
        let _printed = eprintln!(directory.rt; "printd: {path}/{name} takes lines again");
    }

    /// Stores all of these lines or none. Returns whether they are stored. The first failure is reported, and the
    /// first success after a failure.
    pub(crate) fn append(&mut self, lines: &[u8]) -> bool {
        let stored = self.store(lines);
        self.watch();
        let failing = stored.is_err();
        match stored {
            Ok(()) if self.failing => self.say_working(),
            Err(error) if !self.failing => self.say_failing(error),
            _ => {}
        }
        self.failing = failing;
        !failing
    }

    /// Goes on in a base that was begun at this time, in ms since the beginning of 1970, and lets the files before it
    /// go.
    pub(crate) fn begin_anew(&mut self, tail: Tail, began: u64) {
        let directory = self.opened.directory;
        let number = tail.number;
        self.tail = tail;
        self.torn = false;
        self.begun = began;
        for gone in self.base..number {
            directory.let_go(gone, self.options.keep);
        }
        self.base = number;
    }
}
