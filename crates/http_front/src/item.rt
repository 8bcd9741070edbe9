use crate::refusal::HttpRejection;

/// An item of a client's stream. The items come in the order of the stream.
#[derive(Clone, Copy, PartialEq, Eq)]
pub enum HttpItem {
    /// The head of a request that passed the checks.
    Head {
        /// Whether the connection closes after the reply (RFC 9112, section 9.3).
        closes: bool,
    },
    /// `100 Continue` is due (RFC 9110, section 10.1.1).
    Continue,
    /// Bytes of the body, which the reader lends as its part.
    BodyPart,
    /// The end of the body.
    BodyEnd,
    /// The request is refused. No item follows.
    Refuse(HttpRejection),
}
