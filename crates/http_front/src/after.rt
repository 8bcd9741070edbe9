//! The part of the stream that the reader awaits after a head or a body.
ghost use Rattle.std.specs.Prelude.{◌≡◌};
ghost use Rattle.http_front.specs.Stream.{after_head, body_by, after_body, begins_head, is_last, past_body};

use crate::awaited::{Awaited, Following, Framing, Request};
use base_types::Limits;

/// The part that the reader awaits after a head.
pub(crate) fn after_head(request: Request) -> Awaited
    ensures { result ≡ after_head request }
{
    if request.invites {
        return Awaited::Invitation(request.framing, request.closes);
    }
    body_by(request.framing, request.closes)
}

/// Returns whether an exchange is the last: it closes the connection, or its body has too few bytes for an
/// IPP message. The bytes after the last exchange are dropped.
pub(crate) fn is_last(closes: bool, length: u32) -> bool
    ensures { result ≡ is_last closes length }
{
    closes || length < Limits::IPP_HEADER_BYTES as u32
}

/// The part that the reader awaits for a body with this framing.
pub(crate) fn body_by(framing: Framing, closes: bool) -> Awaited
    ensures { result ≡ body_by framing closes }
{
    match framing {
        Framing::Length(count) => Awaited::Body(count, Following::Close(is_last(closes, count))),
        Framing::Chunked => Awaited::Size(Limits::HTTP_BODY_BYTES as u32, closes),
    }
}

/// The part that the reader awaits after a body. `last` indicates whether the exchange is the last.
pub(crate) fn after_body(last: bool) -> Awaited
    ensures { result ≡ after_body last }
{
    if last {
        return Awaited::Nothing;
    }
    Awaited::Head
}

/// What the reader awaits after `count` more bytes of a body or of a chunk.
pub(crate) fn past_body(count: u32, awaited: Awaited) -> Awaited
    ensures { result ≡ past_body count awaited }
{
    match awaited {
        Awaited::Body(left, next) => Awaited::Body(left.saturating_sub(count), next),
        Awaited::Head => Awaited::Head,
        Awaited::Invitation(framing, closes) => Awaited::Invitation(framing, closes),
        Awaited::Size(room, closes) => Awaited::Size(room, closes),
        Awaited::Trailer(last) => Awaited::Trailer(last),
        Awaited::Nothing => Awaited::Nothing,
    }
}

/// Returns whether the first line of a head begins with the first byte: the bytes don't begin with CR or LF.
pub(crate) fn begins_head(bytes: &[u8]) -> bool
    ensures { result ≡ begins_head bytes.now }
{
    match bytes {
        [] | [b'\r' | b'\n', ..] => false,
        _ => true,
    }
}
