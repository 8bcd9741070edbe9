//! What went wrong while a file was read, without the file's name.
use crate::fault::Why;
use journal::PlayFault;
use recordings::Divergence;
use std::alloc::{AllocError, AllocFailed, Global};
use std::io;

/// What went wrong while a file was read.
#[derive(Drop)]
pub(crate) enum ReadTrouble {
    /// The system's error, or out of memory.
    System(io::Error),
    /// The file isn't as a server left it. The number is that of the line, if the fault is in a line.
    File(Option<u64>, Why),
    /// The settings are refused, for the reason that the sentence states.
    Settings(String),
}

impl From<io::Error> for ReadTrouble {
    fn from(error: io::Error) -> ReadTrouble {
        ReadTrouble::System(error)
    }
}

impl From<AllocError> for ReadTrouble {
    fn from(error: AllocError) -> ReadTrouble {
        ReadTrouble::System(io::Error::from(error))
    }
}

impl<T: Drop> From<AllocFailed<T>> for ReadTrouble {
    fn from(error: AllocFailed<T>) -> ReadTrouble {
        ReadTrouble::System(io::Error::from(AllocError::from(error)))
    }
}

/// The fault of a line that isn't one of a journal.
pub(crate) fn bad_line(number: u64) -> ReadTrouble {
    ReadTrouble::File(Some(number), Why::BadLine)
}

/// The number of the line at which the engine strayed; `number` where it isn't known.
fn line_of(number: u64, stray: &Divergence) -> u64 {
    match &stray.wanted {
        Some(wanted) => wanted.number,
        None => number,
    }
}

/// The fault of a turn in which the engine does something else than a server of a version did.
fn differs(alloc: Global, number: u64, version: &[u8]) -> ReadTrouble {
    match String::from_utf8_lossy(alloc, version) {
        Ok(version) => ReadTrouble::File(Some(number), Why::Differs(version)),
        Err(error) => ReadTrouble::from(error),
    }
}

/// The fault of a line with this number, in a file that a server of a version wrote.
pub(crate) fn play_trouble(
    alloc: Global,
    number: u64,
    version: &[u8],
    fault: &PlayFault,
) -> ReadTrouble {
    match fault {
        PlayFault::BadLine => bad_line(number),
        PlayFault::Differs(stray) => differs(alloc, line_of(number, stray), version),
        PlayFault::NotedOtherwise => differs(alloc, number, version),
        PlayFault::OutOfMemory => ReadTrouble::from(AllocError),
    }
}
