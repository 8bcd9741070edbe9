//! Why jobs aren't submitted again.
use crate::filing::FilingFault;
use base_types::JobId;
use std::alloc::{AllocError, AllocFailed};

/// Why jobs aren't submitted again. The engine and the storage aren't to be used any more.
#[derive(Clone, Copy)]
pub enum ResubmissionFault {
    OutOfMemory,
    /// The storage takes no lines.
    NotStored,
    /// The job of this id changed while others were submitted.
    Changed(JobId),
}

impl From<AllocError> for ResubmissionFault {
    fn from(_error: AllocError) -> ResubmissionFault {
        ResubmissionFault::OutOfMemory
    }
}

impl<T: Drop> From<AllocFailed<T>> for ResubmissionFault {
    fn from(_error: AllocFailed<T>) -> ResubmissionFault {
        ResubmissionFault::OutOfMemory
    }
}

impl From<FilingFault> for ResubmissionFault {
    fn from(fault: FilingFault) -> ResubmissionFault {
        match fault {
            FilingFault::OutOfMemory => ResubmissionFault::OutOfMemory,
            FilingFault::NotStored => ResubmissionFault::NotStored,
        }
    }
}
