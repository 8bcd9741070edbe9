//! The destination of a log: standard error, or a file.
use libc::net::{POLLOUT, poll};
use libc::types::pollfd;
use spool_directory::leads_to;
use std::fs::{File, OpenOptions};
use std::io;
use std::io::{ErrorKind, Stderr, Write};
use std::os::fd::{AsRawFd, RawFd};

/// The descriptor of standard error.
const STANDARD_ERROR: RawFd = 2;

/// The destination of the lines of a log. A write that would have to wait returns [`ErrorKind::WouldBlock`].
#[derive(Drop)]
pub(crate) enum LogOutput<'a> {
    StandardError(Stderr),
    File(LogFile<'a>),
}

/// A file to which lines are appended. It is opened again where its path leads to another file, or to no
/// file.
#[derive(Drop)]
pub(crate) struct LogFile<'a> {
    rt: &'a HostRuntime,
    path: &'a str,
    file: File,
}

/// Opens a file for appending, and creates the file if it is missing.
fn open(rt: &HostRuntime, path: &str) -> io::Result<File> {
    OpenOptions::new().append(true).create(true).open(rt, path)
}

/// Returns whether the system reports that a write of up to 4,096 bytes to a descriptor does not wait.
fn has_room(fd: RawFd) -> bool {
    let mut asked = [pollfd {
        fd,
        events: POLLOUT,
        revents: 0,
    }];
    poll(&mut asked, 0) > 0
}

impl<'a> LogFile<'a> {
    /// Opens the file of a path. The error is the system's.
    pub(crate) fn open(rt: &'a HostRuntime, path: &'a str) -> io::Result<LogFile<'a>> {
        let file = open(rt, path)?;
        Ok(LogFile { rt, path, file })
    }

    /// Opens the file of the path again if it is another file. Where the open fails, the open file is kept.
    fn renew(&mut self) {
        if let Ok(true) = leads_to(self.rt, self.path, &self.file) {
            return;
        }
        if let Ok(file) = open(self.rt, self.path) {
            self.file = file;
        }
    }
}

impl Write for LogOutput<'_> {
    fn write(&mut self, bytes: &[u8]) -> io::Result<usize> {
        match self {
            LogOutput::StandardError(_) if !has_room(STANDARD_ERROR) => Err(io::Error::from(
                ErrorKind::WouldBlock,
            )),
            LogOutput::StandardError(errors) => errors.write(bytes),
            LogOutput::File(log) => {
                log.renew();
                if !has_room(log.file.as_raw_fd()) {
                    return Err(io::Error::from(ErrorKind::WouldBlock));
                }
                log.file.write(bytes)
            }
        }
    }

    fn flush(&mut self) -> io::Result<()> {
        Ok(())
    }
}
