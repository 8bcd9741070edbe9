//! The system's errors in words.
use std::fmt;
use std::io::{Error, ErrorKind};

/// An error of the system, as words with its number.
#[derive(Clone, Copy)]
pub struct SystemError(pub Error);

/// The system's reason, in words.
fn reason(error: &Error) -> &'static str {
    match error.kind() {
        ErrorKind::NotFound => "no such file",
        ErrorKind::PermissionDenied => "permission denied",
        ErrorKind::AlreadyExists => "it is there already",
        ErrorKind::IsADirectory => "it is a folder",
        ErrorKind::NotADirectory => "a part of its path is no folder",
        ErrorKind::ReadOnlyFilesystem => "nothing can be written there",
        ErrorKind::StorageFull => "no space is left",
        ErrorKind::QuotaExceeded => "no more space is granted",
        ErrorKind::FileTooLarge => "no larger file is granted",
        ErrorKind::OutOfMemory => "out of memory",
        _ => "the system refuses it",
    }
}

impl fmt::Display for SystemError {
    fn fmt<W: fmt::Write>(&self, f: &mut fmt::Formatter<W>) -> fmt::Result {
        let reason = reason(&self.0);
        match self.0.raw_os_error() {
            Some(code) => write!(f, "{reason} (the system's error {code})"),
            None => f.write_str(reason),
        }
    }
}
