//! The parsed request of a body.
ghost use Rattle.std.specs.Prelude.{◌≡◌, IfOk, OnErr};
ghost use Rattle.ipp_operations.specs.ParsedRequest.{Asks, status_of};
ghost use Rattle.ipp_operations.specs.Reader.{WasFed, AsksOf};

use crate::event::event_of;
use crate::header::{header_of, operation_of};
use crate::request_parser::RequestParser;
use events::{Event, Status};
use ipp_codec::{CodecFault, Decoder};
use octets::Pages;
use std::alloc::{AllocError, Global};

/// A parsed IPP body.
#[derive(Drop)]
pub enum ParsedRequest {
    /// The body has no whole header.
    TooShort,
    /// The request is refused with a status, under this request-id.
    Refused(Status, u32),
    /// The event of the request, whose reply is due under this request-id.
    Event(u32, Event),
}

/// Parses an IPP body: returns its event, or the status of the first check that fails (RFC 8011, section
/// 4.1). The only error is out of memory.
pub fn ipp_event(alloc: Global, body: &[u8]) -> Result<ParsedRequest, AllocError>
    ensures { IfOk result (λ asked. Asks body.now asked) }
{
    let mut reader = RequestParser::new(alloc);
    reader.feed(body)?;
    reader.finish()
}

/// The parsed request of a body whose head was fed to a decoder. Its event takes the document, unless memory
/// is refused.
pub(crate) fn parse_header(
    alloc: Global,
    decoder: &Decoder,
    document: &mut Pages,
) -> Result<ParsedRequest, AllocError>
    requires { WasFed decoder.now }
    ensures asked { IfOk result (λ asked. AsksOf decoder.now document.old asked) }
    ensures err { OnErr result (document.new ≡ document.old) }
{
    let Some(header) = header_of(decoder.head()) else {
        return Ok(ParsedRequest::TooShort);
    };
    let operation = match operation_of(header) {
        Ok(operation) => operation,
        Err(status) => return Ok(ParsedRequest::Refused(status, header.request_id)),
    };
    let message = match decoder.finish() {
        Ok((message, _)) => message,
        Err(fault) => return Ok(ParsedRequest::Refused(status_of(fault), header.request_id)),
    };
    match event_of(alloc, operation, &message, document)? {
        Ok(event) => Ok(ParsedRequest::Event(header.request_id, event)),
        Err(status) => Ok(ParsedRequest::Refused(status, header.request_id)),
    }
}

/// The status of a fault of the encoding.
fn status_of(fault: CodecFault) -> Status
    ensures { result ≡ status_of fault }
{
    match fault {
        CodecFault::TooLarge => Status::TooLarge,
        _ => Status::BadRequest,
    }
}
