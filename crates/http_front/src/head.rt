//! The head of a request: its parts and its checks.
ghost use Rattle.std.specs.Prelude.{◌≡◌, codes, map};
ghost use Rattle.httparse.specs.Borrowed.{header_parts};
ghost use Rattle.http_front.specs.Head.{is_chunked, coded, within_limit, counted, framing_of, is_ipp, is_plain, is_plain_ipp, closes_after, is_empty, expecting, judged, Asks};
ghost use Rattle.http_front.specs.Fields.{first_of};

use crate::awaited::{Framing, Request};
use crate::fields::{all_have, any_lists, count_of, first_of};
use crate::refusal::HttpRejection;
use crate::words::{is_word, length_in};
use base_types::Limits;
use httparse::{EMPTY_HEADER, Header, Status};
use text::without_parameters;

const FIELDS: usize = Limits::HTTP_FIELDS;

/// Returns the request of the bytes of a head. The error is the first check that fails.
pub(crate) fn read_head(head: &[u8]) -> Result<Request, HttpRejection>
    ensures { Asks head.now result }
{
    let mut fields = [EMPTY_HEADER; FIELDS];
    let mut request = httparse::Request::new(&mut fields);
    let Ok(Status::Complete(length)) = request.parse(head) else {
        return Err(HttpRejection::BadRequest);
    };
    if length != head.len() || request.headers.len() > FIELDS {
        return Err(HttpRejection::BadRequest);
    }
    let (Some(method), Some(minor)) = (request.method, request.version) else {
        return Err(HttpRejection::BadRequest);
    };
    judged(method.as_bytes(), minor, request.headers)
}

/// Returns the request of a head with a method, a minor version and fields.
fn judged(method: &[u8], minor: u8, fields: &[Header]) -> Result<Request, HttpRejection>
    ensures { result ≡ judged method.now minor (map header_parts fields.now) }
{
    if minor == 1 && count_of(b"host", fields) != 1 {
        return Err(HttpRejection::BadRequest);
    }
    if method != b"POST".as_slice() {
        return Err(HttpRejection::MethodNotAllowed);
    }
    let framing = framing_of(minor, fields)?;
    if !is_plain_ipp(fields) {
        return Err(HttpRejection::UnsupportedMediaType);
    }
    expecting(minor, fields, framing)
}

/// Returns the framing of the body.
fn framing_of(minor: u8, fields: &[Header]) -> Result<Framing, HttpRejection>
    ensures { result ≡ framing_of minor (map header_parts fields.now) }
{
    if count_of(b"transfer-encoding", fields) > 0 {
        return coded(minor, fields);
    }
    counted(fields)
}

/// Returns the framing by a transfer coding, which an HTTP/1.0 message and one with a length may not have.
fn coded(minor: u8, fields: &[Header]) -> Result<Framing, HttpRejection>
    ensures { result ≡ coded minor (map header_parts fields.now) }
{
    if minor == 0 || count_of(b"content-length", fields) > 0 {
        return Err(HttpRejection::BadRequest);
    }
    if !is_chunked(fields) {
        return Err(HttpRejection::NotImplemented);
    }
    Ok(Framing::Chunked)
}

/// Returns whether the transfer coding is chunked, by exactly one field.
fn is_chunked(fields: &[Header]) -> bool
    ensures { result ≡ is_chunked (map header_parts fields.now) }
{
    if count_of(b"transfer-encoding", fields) != 1 {
        return false;
    }
    match first_of(b"transfer-encoding", fields) {
        Some(value) => is_word(value, b"chunked"),
        None => false,
    }
}

/// Returns the framing by Content-Length, whose fields have to agree. Without the field the length is 0.
fn counted(fields: &[Header]) -> Result<Framing, HttpRejection>
    ensures { result ≡ counted (map header_parts fields.now) (first_of (codes "content-length") (map header_parts fields.now)) }
{
    let Some(value) = first_of(b"content-length", fields) else {
        return Ok(Framing::Length(0));
    };
    if !all_have(b"content-length", value, fields) {
        return Err(HttpRejection::BadRequest);
    }
    within_limit(length_in(value))
}

/// Returns the framing of a length, which has to be a number within the limit.
fn within_limit(length: Option<u32>) -> Result<Framing, HttpRejection>
    ensures { result ≡ within_limit length }
{
    match length {
        None => Err(HttpRejection::BadRequest),
        Some(count) if count as usize > Limits::HTTP_BODY_BYTES => Err(
            HttpRejection::ContentTooLarge,
        ),
        Some(count) => Ok(Framing::Length(count)),
    }
}

/// Returns whether the body is IPP and isn't compressed.
fn is_plain_ipp(fields: &[Header]) -> bool
    ensures { result ≡ is_plain_ipp (map header_parts fields.now) }
{
    is_ipp(fields) && is_plain(fields)
}

/// Returns whether the body is IPP, by the first Content-Type field.
fn is_ipp(fields: &[Header]) -> bool
    ensures { result ≡ is_ipp (map header_parts fields.now) }
{
    match first_of(b"content-type", fields) {
        Some(value) => is_word(without_parameters(value), b"application/ipp"),
        None => false,
    }
}

/// Returns whether the body isn't compressed, by the first Content-Encoding field.
fn is_plain(fields: &[Header]) -> bool
    ensures { result ≡ is_plain (map header_parts fields.now) }
{
    match first_of(b"content-encoding", fields) {
        Some(value) => is_word(value, b"identity"),
        None => true,
    }
}

/// Returns the request of a framing. An expectation other than `100-continue` is refused.
fn expecting(minor: u8, fields: &[Header], framing: Framing) -> Result<Request, HttpRejection>
    ensures { result ≡ expecting minor (map header_parts fields.now) framing (first_of (codes "expect") (map header_parts fields.now)) }
{
    let closes = closes_after(minor, fields);
    let invites = match first_of(b"expect", fields) {
        None => false,
        Some(value) if is_word(value, b"100-continue") => minor == 1 && !is_empty(framing),
        Some(_) => return Err(HttpRejection::ExpectationFailed),
    };
    Ok(Request {
        framing,
        invites,
        closes,
    })
}

/// Returns whether the connection closes after the reply: for HTTP/1.0 and for `Connection: close`.
fn closes_after(minor: u8, fields: &[Header]) -> bool
    ensures { result ≡ closes_after minor (map header_parts fields.now) }
{
    minor == 0 || any_lists(b"connection", b"close", fields)
}

/// Returns whether the framing is a length of 0.
fn is_empty(framing: Framing) -> bool
    ensures { result ≡ is_empty framing }
{
    match framing {
        Framing::Length(count) => count == 0,
        Framing::Chunked => false,
    }
}
