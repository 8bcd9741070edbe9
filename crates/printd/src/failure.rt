//! Reports about failures of the program.
use program::ExitStatus;
use quotes::Escaped;
use std::alloc::AllocError;
use std::fmt::Display;
use std::io;
use std::io::{ErrorKind, Write};

/// The system's reason, in words.
fn reason(error: &io::Error) -> &'static str {
    match error.kind() {
        ErrorKind::NotFound => "no such file",
        ErrorKind::PermissionDenied => "permission denied",
        ErrorKind::AlreadyExists => "a file has that name",
        ErrorKind::AddrInUse => "the address is in use",
        ErrorKind::AddrNotAvailable => "this machine does not have that address",
        ErrorKind::IsADirectory => "it is a folder",
        ErrorKind::NotADirectory => "a part of its path is no folder",
        ErrorKind::StorageFull => "no space is left",
        ErrorKind::OutOfMemory => "out of memory",
        ErrorKind::WriteZero => "it takes no bytes, or there is no memory for its buffer",
        ErrorKind::Unsupported => "the system does not know such addresses",
        _ => "the system refuses it",
    }
}

/// The error of refused memory.
pub(crate) fn out_of_memory() -> io::Error {
    io::Error::from(ErrorKind::OutOfMemory)
}

/// Writes a line to standard error, with control characters escaped: it may have text of files and names of files. A
/// failure of the write is ignored.
pub(crate) fn say<T: Display>(rt: &HostRuntime, what: &T) {
    let Ok(text) = format!(in rt.alloc(); "{what}") else {
        return;
    };
    let line = Escaped(text.as_bytes());
    let _printed = eprintln!(rt; "printd: {line}");
}

/// Reports in a line of standard error what failed and why, and returns the exit status. Writes nothing where
/// nobody reads the output any more.
pub(crate) fn cannot(rt: &HostRuntime, what: &str, error: io::Error) -> ExitStatus {
    if error.kind() != ErrorKind::BrokenPipe {
        let reason = reason(&error);
        let what = Escaped(what.as_bytes());
        let _printed = match error.raw_os_error() {
            Some(code) => {
                eprintln!(rt; "printd: cannot {what}: {reason} (the system's error {code})")
            }
            None => eprintln!(rt; "printd: cannot {what}: {reason}"),
        };
    }
    ExitStatus::Failed
}

/// Reports as [`cannot`] does, for an object with a name.
pub(crate) fn cannot_with(
    rt: &HostRuntime,
    what: &str,
    name: &str,
    error: io::Error,
) -> ExitStatus {
    match format!(in rt.alloc(); "{what} {name}") {
        Ok(text) => cannot(rt, &text, error),
        Err(_) => cannot(rt, what, error),
    }
}

/// The value of what was done. An error is reported as [`cannot`] does, and its exit status returned.
pub(crate) fn or_cannot<T>(
    rt: &HostRuntime,
    what: &str,
    done: io::Result<T>,
) -> Result<T, ExitStatus> {
    match done {
        Ok(value) => Ok(value),
        Err(error) => Err(cannot(rt, what, error)),
    }
}

/// As [`or_cannot`], for an object with a name.
pub(crate) fn or_cannot_with<T>(
    rt: &HostRuntime,
    what: &str,
    name: &str,
    done: io::Result<T>,
) -> Result<T, ExitStatus> {
    match done {
        Ok(value) => Ok(value),
        Err(error) => Err(cannot_with(rt, what, name, error)),
    }
}

/// As [`or_cannot`], where the only error is out of memory.
pub(crate) fn or_no_memory<T>(
    rt: &HostRuntime,
    what: &str,
    done: Result<T, AllocError>,
) -> Result<T, ExitStatus> {
    match done {
        Ok(value) => Ok(value),
        Err(_) => Err(cannot(rt, what, out_of_memory())),
    }
}

/// As [`or_cannot_with`], where the only error is out of memory.
pub(crate) fn or_no_memory_with<T>(
    rt: &HostRuntime,
    what: &str,
    name: &str,
    done: Result<T, AllocError>,
) -> Result<T, ExitStatus> {
    match done {
        Ok(value) => Ok(value),
        Err(_) => Err(cannot_with(rt, what, name, out_of_memory())),
    }
}

/// Ends a command whose output was written. An error is reported, and its exit status returned.
pub(crate) fn end_written(
    rt: &HostRuntime,
    written: io::Result<()>,
) -> Result<ExitStatus, ExitStatus> {
    or_cannot(rt, "write to standard output", written)?;
    Ok(ExitStatus::Done)
}

/// Writes a text to standard output. An error is reported, and its exit status returned.
pub(crate) fn write_text(rt: &HostRuntime, text: &str) -> Result<ExitStatus, ExitStatus> {
    end_written(rt, io::writer(rt).write_all(text.as_bytes()))
}
