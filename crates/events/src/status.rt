//! The statuses of responses (RFC 8011, appendix B).
ghost use Rattle.std.specs.Prelude.{◌≡◌};
ghost use Rattle.events.specs.Status.{code_of};

/// The status of a response (RFC 8011, appendix B), of those that this server uses.
#[derive(Clone, Copy, PartialEq, Eq)]
pub enum Status {
    Ok,
    OkIgnoredOrSubstituted,
    BadRequest,
    NotAuthorized,
    NotPossible,
    NotFound,
    TooLarge,
    FormatNotSupported,
    AttributesNotSupported,
    CharsetNotSupported,
    CompressionNotSupported,
    OperationNotSupported,
    VersionNotSupported,
    TemporaryError,
    Busy,
}

impl Status {
    /// The number of the status in a reply.
    pub fn code(self) -> u16
        ensures { result ≡ code_of self }
    {
        match self {
            Status::Ok => 0x0000,
            Status::OkIgnoredOrSubstituted => 0x0001,
            Status::BadRequest => 0x0400,
            Status::NotAuthorized => 0x0403,
            Status::NotPossible => 0x0404,
            Status::NotFound => 0x0406,
            Status::TooLarge => 0x0408,
            Status::FormatNotSupported => 0x040A,
            Status::AttributesNotSupported => 0x040B,
            Status::CharsetNotSupported => 0x040D,
            Status::CompressionNotSupported => 0x040F,
            Status::OperationNotSupported => 0x0501,
            Status::VersionNotSupported => 0x0503,
            Status::TemporaryError => 0x0505,
            Status::Busy => 0x0507,
        }
    }
}
