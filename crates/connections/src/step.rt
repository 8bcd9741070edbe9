//! The step of a connection for the next item of its peer's stream.
use crate::ask::Ask;
use events::Status;
use http_front::HttpRejection;

/// The bytes that a step makes due.
#[derive(Clone, Copy, PartialEq, Eq)]
pub enum Due {
    Nothing,
    /// An acknowledgement or a refusal of LPD (RFC 1179, section 6).
    Byte(u8),
    /// The interim head that asks a client to continue (RFC 9110, section 15.2.1).
    Continue,
    /// The reply to a request of HTTP that is refused.
    Refusal(HttpRejection),
    /// The reply to a request of IPP by a status alone, under its request-id.
    Status {
        closes: bool,
        status: Status,
        request: u32,
    },
}

/// The step of a connection for the next item of its peer's stream.
#[derive(Drop)]
pub enum Step {
    /// Bytes become due. After the last step the connection drains.
    Due { due: Due, last: bool },
    /// An ask to the server. After the last step the connection drains.
    Asks { ask: Ask, last: bool },
    /// The connection breaks, and the server is notified.
    Breaks(Ask),
}
