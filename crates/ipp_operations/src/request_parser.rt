//! The parser of bodies that come in segments.
ghost use Rattle.std.specs.Prelude.{◌≡◌, ◌++◌, ℕ, [], List, IfOk, OnOk, OnErr};
ghost use Rattle.ipp_operations.specs.ParsedRequest.{Asks, request_id_of};
ghost use Rattle.ipp_operations.specs.Reader.{HasRead, reads_document};

use crate::header::{header_of, operation_of, request_id};
use crate::parsed_request::{ParsedRequest, parse_header};
use ipp_codec::{DecodeError, Decoder, Fed};
use octets::Pages;
use printer_objects::Operation;
use std::alloc::{AllocError, Global};
use std::marker::Model;

/// A parser of an IPP body that comes in segments of any length. In clauses it is a record of its decoder and
/// of the octets that it keeps of the document.
///
/// It holds one copy of the head, and one of the document if the operation has a document.
#[derive(Drop)]
pub struct RequestParser {
    alloc: Global,
    decoder: Decoder,
    document: Pages,
}

impl Model for RequestParser {
    ghost use Rattle.ipp_operations.specs.Reader.{ReaderState, WasFed};

    ghost Value = { ReaderState };

    ghost view = { λ r. record { decoder = r.decoder; document = r.document } };

    ghost invariant = { λ r. WasFed r.decoder };
}

impl RequestParser {
    /// Creates the parser of a new body.
    pub fn new(alloc: Global) -> RequestParser
        ensures { HasRead [] result }
    {
        RequestParser {
            alloc,
            decoder: Decoder::new(alloc),
            document: Pages::new(alloc),
        }
    }

    /// Feeds the next bytes of the body. The only error is out of memory, and none of the bytes is taken
    /// then.
    pub fn feed(&mut self, segment: &[u8]) -> Result<(), AllocError>
        ensures fed { OnOk result ((bytes : List ℕ) → HasRead bytes self.old → HasRead (bytes ++ segment.now) self.new) }
        ensures err { OnErr result (self.new ≡ self.old) }
    {
        let reached = self.decoder.reached();
        let count = match self.decoder.feed(segment) {
            Ok(Fed::Head(count)) => count,
            Ok(Fed::More) => return Ok(()),
            Err(DecodeError::Fault(_)) => return Ok(()),
            Err(DecodeError::OutOfMemory) => return Err(AllocError),
        };
        if !reads_document(self.decoder.head()) {
            return Ok(());
        }
        let kept = self.document.push(&segment[count..]);
        if kept.is_err() {
            self.decoder.back_to(reached);
        }
        kept
    }

    /// The request-id, once the header is whole. The call takes no memory.
    pub fn request_id(&self) -> Option<u32>
        ensures { (bytes : List ℕ) → HasRead bytes self.now → result ≡ request_id_of bytes }
    {
        request_id(self.decoder.head())
    }

    /// Returns the event of the body, or the status of the first check that fails (RFC 8011, section 4.1).
    /// The event takes the document.
    ///
    /// The only error is out of memory: then the parser is unchanged, and `finish` can be called again.
    pub fn finish(&mut self) -> Result<ParsedRequest, AllocError>
        ensures asked { IfOk result (λ asked. (bytes : List ℕ) → HasRead bytes self.old → Asks bytes asked) }
        ensures err { OnErr result (self.new ≡ self.old) }
    {
        parse_header(self.alloc, &self.decoder, &mut self.document)
    }
}

/// Returns whether the header in these bytes has an operation with a document.
fn reads_document(head: &[u8]) -> bool
    ensures { result ≡ reads_document head.now }
{
    let Some(header) = header_of(head) else {
        return false;
    };
    match operation_of(header) {
        Ok(operation) => matches!(operation, Operation::PrintJob | Operation::SendDocument),
        Err(_) => false,
    }
}
