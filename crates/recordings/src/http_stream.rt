//! The stream of an IPP client.
ghost use Rattle.std.specs.Prelude.{◌≡◌, ◌≤◌, ◌+◌, OnOk, IfOk, length};

use crate::message::Message;
use crate::redacted_read::RedactedRead;
use http_front::{HttpItem, HttpReader};
use std::alloc::{AllocError, Global};
use std::cmp::min;

/// The stream of an HTTP client, read as the server reads it.
#[derive(Drop)]
pub(crate) struct HttpStream {
    reader: HttpReader,
    message: Message,
    /// Whether a request was refused: the server reads no more bytes.
    over: bool,
}

impl HttpStream {
    /// Creates a stream of which nothing was read.
    pub(crate) fn new(alloc: Global) -> HttpStream {
        HttpStream {
            reader: HttpReader::new(alloc),
            message: Message::new(),
            over: false,
        }
    }

    /// The number of leading bytes that are those of a body, or aren't read any more; other bytes are
    /// read by lines.
    pub(crate) fn body_prefix(&self, bytes: &[u8]) -> usize
        ensures { result ≤ length bytes.now }
    {
        if self.over {
            return bytes.len();
        }
        min(self.reader.body_left() as usize, bytes.len())
    }

    /// Reads bytes of a body, or up to a line feed, and leaves out the octets of documents. The only error is
    /// out of memory.
    ///
    /// A part of a body is at the beginning of the bytes, since a head and the line of a chunk's size end in a
    /// line feed.
    pub(crate) fn redact(
        &mut self,
        bytes: &[u8],
        output: &mut RedactedRead,
    ) -> Result<(), AllocError>
        ensures { OnOk result (output.new ≡ output.old + length bytes.now) }
    {
        if self.over {
            return output.leave_out(bytes.len());
        }
        if self.pass_body(bytes) {
            return self.message.redact(bytes, output);
        }
        self.reader.feed(bytes)?;
        let count = self.redact_parts(bytes, output)?;
        output.keep(&bytes[count..])
    }

    /// Passes over bytes that are only of a body, of which the reader needs only their number. Returns
    /// whether they are.
    fn pass_body(&mut self, bytes: &[u8]) -> bool {
        match u32::try_from(bytes.len()) {
            Ok(count) => self.reader.pass_body(count),
            Err(_) => false,
        }
    }

    /// Reads the bytes that were fed, and leaves out the octets of documents in the parts of a body. Returns
    /// the number of bytes in these parts.
    fn redact_parts(&mut self, bytes: &[u8], output: &mut RedactedRead) -> Result<usize, AllocError>
        ensures { IfOk result (λ count. count ≤ length bytes.now × (output.new ≡ output.old + count)) }
    {
        let mut count = 0usize;
        for _ in 0..u64::MAX {
            match self.next_item() {
                None => return Ok(count),
                Some(item) => count += self.take(item, &bytes[count..], output)?,
            }
        }
        Ok(count)
    }

    /// The next item of the bytes that were fed, if it is whole.
    fn next_item(&mut self) -> Option<HttpItem> {
        self.reader.next_item()
    }

    /// Takes an item of these bytes. Returns the number of bytes of its part of a body.
    fn take(
        &mut self,
        item: HttpItem,
        bytes: &[u8],
        output: &mut RedactedRead,
    ) -> Result<usize, AllocError>
        ensures { IfOk result (λ count. count ≤ length bytes.now × (output.new ≡ output.old + count)) }
    {
        match item {
            HttpItem::Head { .. } => self.message = Message::new(),
            HttpItem::BodyPart => return self.take_part(bytes, output),
            HttpItem::Continue | HttpItem::BodyEnd => {}
            HttpItem::Refuse(_) => self.over = true,
        }
        Ok(0)
    }

    /// Takes the part of a body at the beginning of the bytes. Returns its length.
    fn take_part(&mut self, bytes: &[u8], output: &mut RedactedRead) -> Result<usize, AllocError>
        ensures { IfOk result (λ count. count ≤ length bytes.now × (output.new ≡ output.old + count)) }
    {
        let count = min(self.reader.part().len(), bytes.len());
        self.message.redact(&bytes[..count], output)?;
        Ok(count)
    }
}
