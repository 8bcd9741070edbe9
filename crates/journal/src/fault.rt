//! Why a file isn't played.
use recordings::Divergence;
use std::alloc::{AllocError, AllocFailed};

/// Why a line of a file isn't played.
#[derive(Drop)]
pub enum PlayFault {
    /// The line isn't one of a journal, or is where none of its kind may be.
    BadLine,
    /// In the turn that the line ends, the engine makes another call than the file contains.
    Differs(Divergence),
    /// In the turn that the line ends, the engine makes the calls of the file, but notes them otherwise.
    NotedOtherwise,
    OutOfMemory,
}

impl From<AllocError> for PlayFault {
    fn from(_error: AllocError) -> PlayFault {
        PlayFault::OutOfMemory
    }
}

impl<T: Drop> From<AllocFailed<T>> for PlayFault {
    fn from(_error: AllocFailed<T>) -> PlayFault {
        PlayFault::OutOfMemory
    }
}
