//! The reader of IPP messages that finds where the document begins.
ghost use Rattle.std.specs.Prelude.{◌≡◌, ◌+◌, ◌≤◌, OnOk, length};

use crate::redacted_read::RedactedRead;
use base_types::Limits;
use std::alloc::AllocError;

/// The next part of a message (RFC 8010, section 3.1).
#[derive(Clone, Copy)]
enum Next {
    /// This many bytes that are passed over, and the part after them.
    Passed(u32, NextField),
    /// The tag of a group or of an attribute.
    Tag,
    /// The first byte of a length, and the part after this many bytes.
    High(NextField),
    /// The second byte of a length, whose first byte is this, and the part after this many bytes.
    Low(u8, NextField),
    /// The document.
    Document,
}

/// The part after bytes that are passed over.
#[derive(Clone, Copy)]
enum NextField {
    Tag,
    ValueLength,
}

/// The number of bytes before the groups: a version, an operation or status, and a request-id.
const PREFIX: u32 = Limits::IPP_HEADER_BYTES as u32;

/// The end-of-attributes tag.
const END_OF_ATTRIBUTES: u8 = 3;

/// The least tag of a value.
const FIRST_VALUE: u8 = 16;

/// A message that is read byte by byte.
#[derive(Clone, Copy)]
pub(crate) struct Message {
    next: Next,
}

/// The part after the bytes of a length.
fn passing(count: u32, tail: NextField) -> Next {
    match (count, tail) {
        (0, NextField::Tag) => Next::Tag,
        (0, NextField::ValueLength) => Next::High(NextField::Tag),
        _ => Next::Passed(count, tail),
    }
}

/// The part after a tag.
fn after_tag(tag: u8) -> Next {
    if tag == END_OF_ATTRIBUTES {
        Next::Document
    } else if tag < FIRST_VALUE {
        Next::Tag
    } else {
        Next::High(NextField::ValueLength)
    }
}

/// The part after a byte.
fn after(next: Next, byte: u8) -> Next {
    match next {
        Next::Passed(count, tail) => passing(count.saturating_sub(1), tail),
        Next::Tag => after_tag(byte),
        Next::High(tail) => Next::Low(byte, tail),
        Next::Low(high, tail) => { passing(u32::from(u16::from_be_bytes([high, byte])), tail) }
        Next::Document => Next::Document,
    }
}

impl Message {
    /// Creates the reader of a message of which nothing was read.
    pub(crate) fn new() -> Message {
        Message {
            next: Next::Passed(PREFIX, NextField::Tag),
        }
    }

    /// Reads bytes, and leaves out those of the document. The only error is out of memory.
    pub(crate) fn redact(
        &mut self,
        bytes: &[u8],
        output: &mut RedactedRead,
    ) -> Result<(), AllocError>
        ensures { OnOk result (output.new ≡ output.old + length bytes.now) }
    {
        let place = self.read(bytes);
        output.keep(&bytes[..place])?;
        output.leave_out(bytes.len() - place)
    }

    /// Reads bytes. Returns the place where the document begins, or the number of bytes.
    fn read(&mut self, bytes: &[u8]) -> usize
        ensures { result ≤ length bytes.now }
    {
        for place in 0..bytes.len() {
            if let Next::Document = self.next {
                return place;
            }
            self.next = after(self.next, bytes[place]);
        }
        bytes.len()
    }
}
