use std::alloc::AllocError;
use thiserror::Error;

/// A fault of an LPD client's stream.
#[derive(Clone, Copy, Debug, PartialEq, Eq, Error)]
pub enum LpdFault {
    /// A command or subcommand that isn't in RFC 1179.
    #[error("an unknown command")]
    UnknownCode,
    /// A line of more than [`base_types::Limits::LPD_LINE_BYTES`] bytes, with its line feed.
    #[error("a line that is too long")]
    LineTooLong,
    /// A file's length that is 0 or isn't a decimal number.
    #[error("a file without a length")]
    BadCount,
    /// A file's name that isn't of the form of RFC 1179, section 6, within [`base_types`]' limits.
    #[error("a file without a proper name")]
    BadName,
    /// A file without a zero byte after it.
    #[error("a file without its end")]
    MissingZero,
    /// A file longer than the limit of its kind.
    #[error("a file that is too large")]
    TooLarge,
}

/// Why the reader gives no item.
#[derive(Clone, Copy, Debug, PartialEq, Eq, Error)]
pub enum LpdError {
    /// The first fault of the stream. The reader gives no other answer from then on.
    #[error("{0}")]
    Fault(LpdFault),
    /// Memory for the content of a line was refused. The line stays to be read. A file needs no memory.
    #[error("out of memory")]
    OutOfMemory,
}

impl From<AllocError> for LpdError {
    ghost use Rattle.std.specs.Prelude.{◌≡◌};
    ghost use Rattle.lpd.specs.declared.fault.LpdError.TheVariants.{OutOfMemory};

    ghost from_gives = { λ _ error. error ≡ OutOfMemory };

    fn from(_: AllocError) -> LpdError {
        LpdError::OutOfMemory
    }
}
