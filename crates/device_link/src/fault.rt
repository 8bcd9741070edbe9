use std::alloc::AllocError;
use thiserror::Error;

/// A fault of a device's stream.
#[derive(Clone, Copy, Debug, PartialEq, Eq, Error)]
pub enum LinkFault {
    /// A line that isn't of the protocol, or that a device may not send now.
    #[error("a line that isn't one of a device's")]
    BadLine,
    /// A line of more than [`base_types::Limits::DEVICE_LINE_BYTES`] bytes, with its line feed.
    #[error("a line that is too long")]
    LineTooLong,
}

/// Why the reader gives no report.
#[derive(Clone, Copy, Debug, PartialEq, Eq, Error)]
pub enum LinkError {
    /// The first fault of the stream. The reader gives no other answer from then on.
    #[error("{0}")]
    Fault(LinkFault),
    /// Memory for the names of a report was refused. The report stays to be read.
    #[error("out of memory")]
    OutOfMemory,
}

impl From<AllocError> for LinkError {
    ghost use Rattle.std.specs.Prelude.{◌≡◌};
    ghost use Rattle.device_link.specs.declared.fault.LinkError.TheVariants.{OutOfMemory};

    ghost from_gives = { λ _ error. error ≡ OutOfMemory };

    fn from(_: AllocError) -> LinkError {
        LinkError::OutOfMemory
    }
}
