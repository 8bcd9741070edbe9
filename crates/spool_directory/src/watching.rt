//! Whether the file of a journal is still where it was made.
use crate::clock::now;
use crate::named::TraceName;
use crate::writer::JournalWriter;
use std::fs::File;
use std::os::unix::fs::MetadataExt;
use std::{fs, io};

/// What was last seen of the file to which lines are appended.
#[derive(Clone, Copy)]
pub(crate) struct WatchedFile {
    /// When it was looked at, in seconds since the beginning of 1970.
    looked: u64,
    /// Whether it was moved or removed.
    missing: bool,
}

impl WatchedFile {
    /// The watch before the first look.
    pub(crate) fn new() -> WatchedFile {
        WatchedFile {
            looked: 0,
            missing: false,
        }
    }
}

/// Returns whether a path leads to an open file. The error is the system's, for example that the path leads to
/// no file.
pub fn leads_to(rt: &HostRuntime, path: &str, file: &File) -> io::Result<bool> {
    let found = fs::metadata(rt, path)?;
    let own = file.metadata()?;
    Ok(found.dev() == own.dev() && found.ino() == own.ino())
}

impl JournalWriter<'_> {
    /// Looks once a second whether the file is where it was made, and reports once that it isn't.
    pub(crate) fn watch(&mut self) {
        let Ok(time) = now(self.opened.directory.rt) else {
            return;
        };
        if time.as_secs() == self.watch.looked {
            return;
        }
        let missing = !self.is_there();
        if missing && !self.watch.missing {
            self.say_missing();
        }
        self.watch = WatchedFile {
            looked: time.as_secs(),
            missing,
        };
    }

    /// Returns whether the file is where it was made.
    fn is_there(&self) -> bool {
        let directory = self.opened.directory;
        match directory.trace_path(self.tail.number) {
            Ok(path) => leads_to(directory.rt, &path, self.tail.file()).unwrap_or(false),
            Err(_) => true,
        }
    }

    /// Reports that the file was moved or removed.
    fn say_missing(&self) {
        let directory = self.opened.directory;
        let (path, name) = (directory.path, TraceName(self.tail.number));
        let _printed = eprintln!(directory.rt;
            "printd: {path}/{name} was moved or removed: after a restart the jobs are those of the files that are there then"
        );
    }
}
