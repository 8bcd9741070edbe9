//! Why a spool directory is refused.
use crate::system_error::SystemError;
use base_types::JobId;
use std::fmt;

/// What is wrong with a file of a journal.
#[derive(Drop)]
pub enum Why {
    /// The line isn't one of a journal, or is where none of its kind may be.
    BadLine,
    /// In the turn of the line the server does something else than the file records, which a server of this version
    /// wrote.
    Differs(String),
    /// No line is `.` alone.
    NoSettings,
    /// The file ends within a turn, and another goes on after it.
    Torn,
    /// The file goes on after the file of this name, which is missing.
    ContinuesMissing(String),
    /// The file goes on after the file of this name, which isn't the one before it.
    ContinuesOther(String),
}

/// A fault of a file.
#[derive(Drop)]
pub struct FileFault {
    /// The path of the file.
    pub file: String,
    /// The number of the line, counted from 1, if the fault is in a line.
    pub line: Option<u64>,
    pub why: Why,
}

/// Why a spool directory can't be used. What is displayed is a sentence for the operator.
#[derive(Drop)]
pub enum SpoolFault {
    /// Another server has locked the directory of this path.
    InUse(String),
    /// The system refuses to do `what` with the file or the directory of a path.
    Refused {
        what: &'static str,
        path: String,
        error: SystemError,
    },
    /// A file isn't as a server left it. Nothing was changed.
    File(FileFault),
    /// The settings of a base are refused, for the reason that the sentence states. Nothing was changed.
    Settings(String),
    /// The job of this id changed while others were submitted again. Nothing was changed.
    Changed(JobId),
    /// All ids of jobs are used in the directory of this path.
    AllIdsUsed(String),
    OutOfMemory,
}

impl fmt::Display for Why {
    fn fmt<W: fmt::Write>(&self, f: &mut fmt::Formatter<W>) -> fmt::Result {
        let words = match self {
            Why::BadLine => ": this is no line of a journal",
            Why::NoSettings => ": no line after the settings is \".\" alone",
            Why::Torn => {
                return f.write_str(
                    ": it ends within a turn, and another file continues it: move the later files away, or restore the directory from a backup",
                );
            }
            Why::Differs(version) => {
                return write!(
                    f,
                    ": here this server does something else than the file says, which a server of version {version} wrote: if this is that version, the file was changed: restore it from a backup; else start that version, and start it again once no job is unfinished"
                );
            }
            Why::ContinuesMissing(name) => {
                return write!(f, " continues {name}, which is missing: put it back");
            }
            Why::ContinuesOther(name) => {
                return write!(
                    f,
                    " continues {name}, which isn't the file before it: put the right files back"
                );
            }
        };
        write!(
            f,
            "{words}: put the file aside, or restore it from a backup"
        )
    }
}

impl fmt::Display for FileFault {
    fn fmt<W: fmt::Write>(&self, f: &mut fmt::Formatter<W>) -> fmt::Result {
        let file = self.file.as_str();
        let why = &self.why;
        match self.line {
            Some(line) => write!(f, "{file}: line {line}{why}; nothing was changed"),
            None => write!(f, "{file}{why}; nothing was changed"),
        }
    }
}

impl fmt::Display for SpoolFault {
    fn fmt<W: fmt::Write>(&self, f: &mut fmt::Formatter<W>) -> fmt::Result {
        match self {
            SpoolFault::InUse(path) => write!(f, "{path} is in use by another server"),
            SpoolFault::Refused { what, path, error } => write!(f, "cannot {what} {path}: {error}"),
            SpoolFault::File(fault) => write!(f, "{fault}"),
            SpoolFault::Settings(sentence) => write!(f, "{sentence}; nothing was changed"),
            SpoolFault::Changed(job) => {
                let id = job.number();
                write!(
                    f,
                    "job {id} changed while it was submitted again; nothing was changed"
                )
            }
            SpoolFault::AllIdsUsed(path) => write!(
                f,
                "all ids of jobs are used: put the files of {path} aside"
            ),
            SpoolFault::OutOfMemory => f.write_str("out of memory"),
        }
    }
}

impl SpoolFault {
    /// Returns whether this server does something else than a file records, which a server of another version wrote.
    pub(crate) fn is_of_other(&self, version: &str) -> bool {
        match self {
            SpoolFault::File(
                FileFault {
                    why: Why::Differs(other),
                    ..
                },
            ) => other.as_str() != version,
            _ => false,
        }
    }
}
