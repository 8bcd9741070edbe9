//! The faults of a day.

use drawing::Page;
use std::alloc::{AllocError, AllocFailed};

/// Why a text has no day, why its jobs aren't a list for some settings, or why the devices of a day can't be
/// made.
#[derive(Drop)]
pub enum DayFault {
    /// The reason is in the sentence.
    Refused { sentence: String },
    OutOfMemory,
}

impl From<AllocError> for DayFault {
    fn from(_error: AllocError) -> DayFault {
        DayFault::OutOfMemory
    }
}

impl<T: Drop> From<AllocFailed<T>> for DayFault {
    fn from(_error: AllocFailed<T>) -> DayFault {
        DayFault::OutOfMemory
    }
}

/// The fault with a sentence as its reason, unless memory for it was refused.
pub(crate) fn refused(sentence: Page) -> DayFault {
    match sentence.finish() {
        Ok(sentence) => DayFault::Refused { sentence },
        Err(_) => DayFault::OutOfMemory,
    }
}
