//! The refusals of requests, with their statuses.
ghost use Rattle.std.specs.Prelude.{◌≡◌};
ghost use Rattle.http_front.specs.Reply.{status_of};

use http::StatusCode;

/// Why a request is refused, by the status of the reply (RFC 9110, sections 15.5 and 15.6).
#[derive(Clone, Copy, PartialEq, Eq)]
pub enum HttpRejection {
    /// 400: a head, a framing or a chunk that violates the grammar.
    BadRequest,
    /// 405: a method other than POST.
    MethodNotAllowed,
    /// 413: a body above the limit.
    ContentTooLarge,
    /// 415: a body that isn't IPP, or is compressed.
    UnsupportedMediaType,
    /// 417: an expectation other than `100-continue`.
    ExpectationFailed,
    /// 431: a head above the limit.
    HeadTooLarge,
    /// 501: a transfer coding other than `chunked`.
    NotImplemented,
}

/// The status of the reply to a refused request. It is no method: a type whose methods name a large library has each
/// crate above load it.
pub(crate) fn status_of(refusal: HttpRejection) -> StatusCode
    ensures { result ≡ status_of refusal }
{
    match refusal {
        HttpRejection::BadRequest => StatusCode::BAD_REQUEST,
        HttpRejection::MethodNotAllowed => StatusCode::METHOD_NOT_ALLOWED,
        HttpRejection::ContentTooLarge => StatusCode::PAYLOAD_TOO_LARGE,
        HttpRejection::UnsupportedMediaType => StatusCode::UNSUPPORTED_MEDIA_TYPE,
        HttpRejection::ExpectationFailed => StatusCode::EXPECTATION_FAILED,
        HttpRejection::HeadTooLarge => StatusCode::REQUEST_HEADER_FIELDS_TOO_LARGE,
        HttpRejection::NotImplemented => StatusCode::NOT_IMPLEMENTED,
    }
}
