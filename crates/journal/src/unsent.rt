//! Why a client isn't made.
use ipp_codec::EncodeFault;
use std::alloc::{AllocError, AllocFailed};

/// Why a client isn't made.
#[derive(Clone, Copy)]
pub(crate) enum Unsent {
    /// A request has no spelling.
    Unspellable,
    OutOfMemory,
}

impl From<AllocError> for Unsent {
    fn from(_error: AllocError) -> Unsent {
        Unsent::OutOfMemory
    }
}

impl<T: Drop> From<AllocFailed<T>> for Unsent {
    fn from(_error: AllocFailed<T>) -> Unsent {
        Unsent::OutOfMemory
    }
}

impl From<EncodeFault> for Unsent {
    fn from(fault: EncodeFault) -> Unsent {
        match fault {
            EncodeFault::Unspellable => Unsent::Unspellable,
            EncodeFault::OutOfMemory => Unsent::OutOfMemory,
        }
    }
}
