use std::alloc::AllocError;
use thiserror::Error;

/// The fault of the server's stream.
#[derive(Clone, Copy, Debug, PartialEq, Eq, Error)]
pub enum OrderFault {
    /// A line that isn't one of the server's.
    #[error("a line that isn't one of the server's")]
    BadLine,
    /// A line of more than [`base_types::Limits::DEVICE_LINE_BYTES`] bytes, with its line feed.
    #[error("a line that is too long")]
    LineTooLong,
}

/// Why the reader gives no order.
#[derive(Clone, Copy, Debug, PartialEq, Eq, Error)]
pub enum OrderError {
    /// The first fault of the stream. The reader gives no other answer from then on.
    #[error("{0}")]
    Fault(OrderFault),
    /// Memory for the name of an order's medium was refused. The order stays to be read.
    #[error("out of memory")]
    OutOfMemory,
}

impl From<AllocError> for OrderError {
    ghost use Rattle.std.specs.Prelude.{◌≡◌};
    ghost use Rattle.adapter_core.specs.declared.order_fault.OrderError.TheVariants.{OutOfMemory};

    ghost from_gives = { λ _ error. error ≡ OutOfMemory };

    fn from(_: AllocError) -> OrderError {
        OrderError::OutOfMemory
    }
}
