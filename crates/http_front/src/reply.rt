//! The heads of replies.
ghost use Rattle.std.specs.Prelude.{◌≡◌, ◌+◌, ◌<◌, ◌≤◌, ◌++◌, OnOk, OnErr, IsOk, true, vec_len, length as length_of};
ghost use Rattle.std.specs.Vec.{vec_capacity};
ghost use Rattle.http_front.specs.Reply.{IsReplyStatus, continue_head, ending, head, own_field, phrase, status_line, status_of};

use crate::refusal::{HttpRejection, status_of};
use http::StatusCode;
use itoa::Buffer;
use std::alloc::AllocError;

/// The interim head that asks a client to send the body (RFC 9110, section 15.2.1).
pub fn continue_head() -> &'static [u8]
    ensures { result.now ≡ continue_head }
{
    b"HTTP/1.1 100 Continue\r\n\r\n"
}

/// Appends the head of a reply of 200 with a body of `length` bytes. `closes` indicates whether the connection closes
/// after it (RFC 9112, sections 4 and 9.6).
///
/// The only error is out of memory, and nothing is appended then. Memory is taken only where the room is less
/// than the head needs; 128 bytes of room always suffice. The room never shrinks.
pub fn write_reply_head(length: usize, closes: bool, output: &mut Vec<u8>) -> Result<(), AllocError>
    ensures ok { OnOk result (output.new.items ≡ output.old.items ++ head 200 length closes) }
    ensures err { OnErr result (output.new.items ≡ output.old.items) }
    ensures room { vec_len output.old + 128 ≤ vec_capacity output.old → IsOk result }
    ensures full { OnErr result (vec_capacity output.old < vec_len output.old + length_of (head 200 length closes)) }
    ensures capacity { vec_capacity output.old ≤ vec_capacity output.new }
{
    write_head(StatusCode::OK, length, closes, output)
}

/// Appends the head of the reply to a refused request, which has no body. The connection closes after it. The errors
/// and the room are those of [`write_reply_head`].
pub fn write_refusal_head(refusal: HttpRejection, output: &mut Vec<u8>) -> Result<(), AllocError>
    ensures ok { OnOk result (output.new.items ≡ output.old.items ++ head (status_of refusal) 0 true) }
    ensures err { OnErr result (output.new.items ≡ output.old.items) }
    ensures room { vec_len output.old + 128 ≤ vec_capacity output.old → IsOk result }
    ensures full { OnErr result (vec_capacity output.old < vec_len output.old + length_of (head (status_of refusal) 0 true)) }
    ensures capacity { vec_capacity output.old ≤ vec_capacity output.new }
{
    write_head(status_of(refusal), 0, true, output)
}

/// Appends the head of a reply of 200, or of a refusal, with a body of `length` bytes.
fn write_head(
    status: StatusCode,
    length: usize,
    closes: bool,
    output: &mut Vec<u8>,
) -> Result<(), AllocError>
    requires { IsReplyStatus status }
    ensures ok { OnOk result (output.new.items ≡ output.old.items ++ head status length closes) }
    ensures err { OnErr result (output.new.items ≡ output.old.items) }
    ensures room { vec_len output.old + 128 ≤ vec_capacity output.old → IsOk result }
    ensures full { OnErr result (vec_capacity output.old < vec_len output.old + length_of (head status length closes)) }
    ensures capacity { vec_capacity output.old ≤ vec_capacity output.new }
{
    let mut digits = Buffer::new();
    let number = digits.format(length).as_bytes();
    let reason = reason(status);
    let field = own_field(status);
    let last = ending(closes);
    let fixed = b"HTTP/1.1 200 \r\nContent-Length: ".len();
    output.reserve(fixed + reason.len() + field.len() + number.len() + last.len())?;
    append_status_line(status, reason, output);
    append(field, output);
    append(b"Content-Length: ", output);
    append(number, output);
    append(last, output);
    Ok(())
}

/// Appends a status line (RFC 9112, section 4), for which there is room.
fn append_status_line(status: StatusCode, reason: &[u8], output: &mut Vec<u8>)
    requires reason { reason.now ≡ phrase status }
    requires room { vec_len output.old + length_of (phrase status) + 15 ≤ vec_capacity output.old }
    ensures appended { output.new.items ≡ output.old.items ++ status_line status }
    ensures len { vec_len output.new ≡ vec_len output.old + length_of (phrase status) + 15 }
    ensures capacity { vec_capacity output.old ≤ vec_capacity output.new }
{
    append(b"HTTP/1.1 ", output);
    append(status.as_str().as_bytes(), output);
    append(b" ", output);
    append(reason, output);
    append(b"\r\n", output);
}

/// Appends bytes for which there is room.
fn append(bytes: &[u8], output: &mut Vec<u8>)
    requires { vec_len output.old + length_of bytes.now ≤ vec_capacity output.old }
    ensures appended { output.new.items ≡ output.old.items ++ bytes.now }
    ensures len { vec_len output.new ≡ vec_len output.old + length_of bytes.now }
    ensures capacity { vec_capacity output.old ≤ vec_capacity output.new }
{
    output.extend_from_slice(bytes).unwrap();
}

/// The reason phrase of a reply's status. That of 413 is RFC 9110's (section 15.5.14); the library has the one of
/// RFC 7231.
fn reason(status: StatusCode) -> &'static [u8]
    ensures { result.now ≡ phrase status }
{
    if status == StatusCode::PAYLOAD_TOO_LARGE {
        return b"Content Too Large";
    }
    status.canonical_reason().unwrap_or("").as_bytes()
}

/// The field that only replies of this status have.
fn own_field(status: StatusCode) -> &'static [u8]
    ensures { result.now ≡ own_field status }
{
    if status == StatusCode::OK {
        return b"Content-Type: application/ipp\r\n";
    }
    if status == StatusCode::METHOD_NOT_ALLOWED {
        return b"Allow: POST\r\n";
    }
    b""
}

/// The bytes of a head after the length.
fn ending(closes: bool) -> &'static [u8]
    ensures text { result.now ≡ ending closes }
    ensures short { length_of result.now ≤ 23 }
{
    if closes {
        return b"\r\nConnection: close\r\n\r\n";
    }
    b"\r\n\r\n"
}
