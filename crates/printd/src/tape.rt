//! The files of a recording.
use crate::failure::{cannot_with, or_cannot_with, out_of_memory};
use command_line::VERSION;
use daemon::Tape;
use program::ExitStatus;
use recordings::{put_goes_on, put_start};
use spool_directory::{day_of, leads_to, millis_of, now};
use std::alloc::AllocError;
use std::fs::{File, OpenOptions, metadata};
use std::io;
use std::io::{ErrorKind, Write};
use std::os::unix::fs::OpenOptionsExt;

/// The most files of one name.
pub(crate) const MOST_FILES: u32 = 1_000_000;

/// The files of a recording: the first file, and a further file for each day that begins. Only its owner can
/// read a file.
#[derive(Drop)]
pub(crate) struct TapeFiles<'a> {
    rt: &'a HostRuntime,
    path: &'a str,
    /// The text of the settings with which the server starts.
    settings: &'a [u8],
    heads: bool,
    /// The open file; `None` before the first file.
    file: Option<File>,
    /// The number of the next file.
    next: u32,
    /// The day of the open file, in days since the beginning of 1970.
    day: u64,
    /// Whether the path of the open file was seen to lead to it no more.
    missing: bool,
}

/// The place of the point before the last part of a file's name; the end of the path where the name has
/// no such part.
fn point_of(path: &str) -> usize {
    let bytes = path.as_bytes();
    let start = match bytes.iter().rposition(|byte| *byte == b'/') {
        Some(place) => place.saturating_add(1),
        None => 0,
    };
    match bytes.iter().rposition(|byte| *byte == b'.') {
        Some(place) if place > start => place,
        _ => bytes.len(),
    }
}

/// The name of the file with this number. The first file has the path itself; the next file of `day.trace` is
/// `day.1.trace`.
pub(crate) fn name_of(rt: &HostRuntime, path: &str, number: u32) -> Result<String, AllocError> {
    if number == 0 {
        return String::from_str(rt.alloc(), path);
    }
    match path.split_at_checked(point_of(path)) {
        Some((prefix, end)) => format!(in rt.alloc(); "{prefix}.{number}{end}"),
        None => format!(in rt.alloc(); "{path}.{number}"),
    }
}

/// Creates a file that nobody else can read; `None` where a file of its name exists, or a packed file of its
/// name.
fn make(rt: &HostRuntime, name: &str) -> io::Result<Option<File>> {
    let packed = format!(in rt.alloc(); "{name}.gz")?;
    if metadata(rt, &packed).is_ok() {
        return Ok(None);
    }
    match OpenOptions::new()
        .write(true)
        .create_new(true)
        .mode(0o600)
        .open(rt, name)
    {
        Ok(file) => Ok(Some(file)),
        Err(error) if error.kind() == ErrorKind::AlreadyExists => Ok(None),
        Err(error) => Err(error),
    }
}

impl<'a> TapeFiles<'a> {
    /// Creates a recording without any open file.
    pub(crate) fn new(
        rt: &'a HostRuntime,
        path: &'a str,
        settings: &'a [u8],
        heads: bool,
    ) -> TapeFiles<'a> {
        TapeFiles {
            rt,
            path,
            settings,
            heads,
            file: None,
            next: 0,
            day: 0,
            missing: false,
        }
    }

    /// Begins the first file. An error is reported, and its exit status returned.
    pub(crate) fn begin(&mut self) -> Result<(), ExitStatus> {
        or_cannot_with(self.rt, "record to", self.path, self.open_first())
    }

    /// Opens the first file, and writes its start. The error is the system's, or that the path leads to a folder.
    fn open_first(&mut self) -> io::Result<()> {
        if let Ok(found) = metadata(self.rt, self.path) {
            if found.is_dir() {
                return Err(io::Error::from(ErrorKind::IsADirectory));
            }
        }
        let began = now(self.rt)?;
        let mut text = Vec::new(self.rt.alloc());
        put_start(
            &mut text,
            self.settings,
            millis_of(began),
            VERSION,
            self.heads,
        )?;
        self.day = day_of(began);
        self.open_next()?;
        self.write(&text)
    }

    /// Opens the first file, from the next number on, whose name is free.
    fn open_next(&mut self) -> io::Result<()> {
        for number in self.next..MOST_FILES {
            let made = self.make(number)?;
            if made.is_some() {
                self.file = made;
                self.next = number.saturating_add(1);
                return Ok(());
            }
        }
        Err(io::Error::from(ErrorKind::AlreadyExists))
    }

    /// Creates the file with this number; `None` where the file exists.
    fn make(&self, number: u32) -> io::Result<Option<File>> {
        let name = name_of(self.rt, self.path, number)?;
        make(self.rt, &name)
    }

    /// Goes on in another file where another day has begun.
    fn turn_over(&mut self) -> io::Result<()> {
        let day = day_of(now(self.rt)?);
        if day == self.day {
            return Ok(());
        }
        let mut text = Vec::new(self.rt.alloc());
        let before = name_of(self.rt, self.path, self.next.saturating_sub(1))?;
        put_goes_on(&mut text, before.as_bytes())?;
        self.day = day;
        self.open_next()?;
        self.write(&text)
    }

    /// Writes to the open file.
    fn write(&mut self, bytes: &[u8]) -> io::Result<()> {
        match &mut self.file {
            Some(file) => file.write_all(bytes),
            None => Ok(()),
        }
    }

    /// Appends lines to the file of the day.
    fn append(&mut self, lines: &[u8]) -> io::Result<()> {
        self.turn_over()?;
        self.watch();
        self.write(lines)
    }

    /// Reports that the open file was moved or removed, once until it is back.
    fn watch(&mut self) {
        let Some(file) = &self.file else {
            return;
        };
        let Ok(name) = name_of(self.rt, self.path, self.next.saturating_sub(1)) else {
            return;
        };
        let missing = !leads_to(self.rt, &name, file).unwrap_or(false);
        if missing && !self.missing {
            let _printed = eprintln!(self.rt;
                "printd: the recording {name} was moved or removed; the server records on to that file until midnight of UTC"
            );
        }
        self.missing = missing;
    }

    /// Reports that the recording has ended, and why.
    fn say_ended(&self, error: io::Error) {
        let _status = cannot_with(self.rt, "record to", self.path, error);
        let _printed = eprintln!(self.rt; "printd: the recording has ended; the server goes on");
    }
}

impl Tape for TapeFiles<'_> {
    fn put(&mut self, lines: &[u8]) -> bool {
        match self.append(lines) {
            Ok(()) => true,
            Err(error) => {
                self.say_ended(error);
                false
            }
        }
    }

    fn lose(&mut self) {
        self.say_ended(out_of_memory());
    }
}
