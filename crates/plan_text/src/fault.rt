use std::alloc::{AllocError, AllocFailed};
use thiserror::Error;

/// The fault of a plan's text, which is that of its first faulty line.
#[derive(Clone, Copy, Debug, PartialEq, Eq)]
pub enum TextFault {
    /// A line of an unknown form, or at a place where it may not be.
    BadLine,
    /// A number out of its range, a line above the allowed number, priorities that don't fall, or ids that
    /// don't rise.
    OutOfRange,
    /// The text ends without the line `end`.
    NoEnd,
}

/// Why no plan was read.
#[derive(Debug, Drop, Error)]
pub enum ReadError {
    /// The text isn't that of a plan.
    #[error("the text is no plan: {0:?}")]
    Fault(TextFault),
    #[error("out of memory")]
    OutOfMemory,
}

impl From<TextFault> for ReadError {
    ghost use Rattle.std.specs.Prelude.{◌≡◌};
    ghost use Rattle.plan_text.specs.declared.fault.ReadError.TheVariants.{Fault};

    ghost from_gives = { λ fault error. error ≡ Fault fault };

    fn from(fault: TextFault) -> ReadError {
        ReadError::Fault(fault)
    }
}

impl From<AllocError> for ReadError {
    ghost use Rattle.std.specs.Prelude.{◌≡◌};
    ghost use Rattle.plan_text.specs.declared.fault.ReadError.TheVariants.{OutOfMemory};

    ghost from_gives = { λ _ error. error ≡ OutOfMemory };

    fn from(_error: AllocError) -> ReadError {
        ReadError::OutOfMemory
    }
}

impl<T: Drop> From<AllocFailed<T>> for ReadError {
    ghost use Rattle.std.specs.Prelude.{◌≡◌};
    ghost use Rattle.plan_text.specs.declared.fault.ReadError.TheVariants.{OutOfMemory};

    ghost from_gives = { λ _ error. error ≡ OutOfMemory };

    fn from(_error: AllocFailed<T>) -> ReadError {
        ReadError::OutOfMemory
    }
}
