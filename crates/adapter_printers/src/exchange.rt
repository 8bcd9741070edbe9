//! A request of HTTP to a printer, and the reply (RFC 9112), without sockets.
ghost use Rattle.std.specs.Prelude.{◌≤◌, length};

use crate::address::IppAddress;
use crate::task_outcome::ReplyFault;
use http1::encode::Frame;
use http1::{BodySize, Client, Event, Header, Limits, ReadError, WriteError};
use httparse::spans::{EMPTY_HEADER_SPAN, HeaderSpan, ResponseSpans, Span};
use std::alloc::{AllocError, Global};
use text::{decimal, drop_prefix};

/// The most fields of a head.
const FIELDS: usize = 64;

/// The most bytes of a body.
const BODY_BYTES: usize = 1_048_576;

/// How far a reply is read.
#[derive(Clone, Copy)]
enum Progress {
    Reads,
    Whole,
    Broken(ReplyFault),
}

/// A request and its reply, on a connection of their own. It keeps at most a head and a segment, and the body.
#[derive(Drop)]
pub(crate) struct Exchange {
    client: Client,
    /// The bytes around the chunk that is sent.
    frame: Option<Frame>,
    progress: Progress,
    /// The bytes of the reply that aren't read yet.
    input: Vec<u8>,
    status: u32,
    /// The seconds of the field Retry-After (RFC 9110, section 10.2.3). A date isn't read.
    retry_after: u32,
    body: Vec<u8>,
    ghost body_bounded: { length body.items ≤ 1048576 },
}

impl Exchange {
    /// Creates the exchange of a new connection.
    pub(crate) fn new(alloc: Global) -> Exchange {
        Exchange {
            client: Client::new(Limits::default()),
            frame: None,
            progress: Progress::Reads,
            input: Vec::new(alloc),
            status: 0,
            retry_after: 0,
            body: Vec::new(alloc),
        }
    }

    /// Appends a request with this body. The only error is out of memory.
    pub(crate) fn write_request(
        &mut self,
        alloc: Global,
        address: &IppAddress,
        body: &[u8],
        output: &mut Vec<u8>,
    ) -> Result<(), AllocError> {
        // names as most clients spell them, for printers that know no other case
        let length = format!(in alloc; "{}", body.len())?;
        let framing = field(b"Content-Length", length.as_bytes());
        let size = BodySize::Known(body.len() as u64);
        self.write_head(address, framing, size, output)?;
        written(self.client.write_data(output, body))?;
        self.write_end(output)
    }

    /// Appends the beginning of a request whose body comes in chunks, with the first of them. The only error is
    /// out of memory.
    pub(crate) fn write_prefix(
        &mut self,
        address: &IppAddress,
        chunk: &[u8],
        output: &mut Vec<u8>,
    ) -> Result<(), AllocError> {
        let framing = field(b"Transfer-Encoding", b"chunked");
        self.write_head(address, framing, BodySize::Unknown, output)?;
        written(self.client.write_data(output, chunk))
    }

    /// Appends the bytes before a chunk of `count` octets. The only error is out of memory.
    pub(crate) fn begin_chunk(
        &mut self,
        count: usize,
        output: &mut Vec<u8>,
    ) -> Result<(), AllocError> {
        let frame = written(self.client.frame_data(count))?;
        self.frame = Some(frame);
        output.extend_from_slice(frame.prefix())
    }

    /// Appends the bytes after the chunk. The only error is out of memory.
    pub(crate) fn end_chunk(&self, output: &mut Vec<u8>) -> Result<(), AllocError> {
        match self.frame {
            Some(frame) => output.extend_from_slice(frame.suffix()),
            None => Ok(()),
        }
    }

    /// Appends the end of the request. The only error is out of memory.
    pub(crate) fn write_end(&mut self, output: &mut Vec<u8>) -> Result<(), AllocError> {
        written(self.client.write_end(output, &[]))
    }

    /// Appends the head of a request with a body of this size, which the field `framing` states. The only error is
    /// out of memory.
    fn write_head(
        &mut self,
        address: &IppAddress,
        framing: Header<'_>,
        size: BodySize,
        output: &mut Vec<u8>,
    ) -> Result<(), AllocError> {
        let fields = [
            field(b"Host", address.host.as_bytes()),
            field(b"User-Agent", b"printd"),
            field(b"Content-Type", b"application/ipp"),
            field(b"Connection", b"close"),
            framing,
        ];
        let path = address.path.as_bytes();
        written(
            self.client
                .write_request(output, b"POST", path, &fields, size),
        )
    }

    /// Takes bytes of the printer. The only error is out of memory.
    pub(crate) fn handle_bytes(&mut self, bytes: &[u8]) -> Result<(), AllocError> {
        self.input.extend_from_slice(bytes)?;
        for _ in 0..=self.input.len() {
            if !self.read()? {
                return Ok(());
            }
        }
        Ok(())
    }

    /// Records that the printer has closed the connection.
    pub(crate) fn handle_end(&mut self) {
        if self.is_done() {
            return;
        }
        self.progress = match self.client.read_eof() {
            Ok(_) => Progress::Whole,
            Err(error) => Progress::Broken(fault_of(error)),
        };
    }

    /// Returns whether the reply is whole or has a fault.
    pub(crate) fn is_done(&self) -> bool {
        !matches!(self.progress, Progress::Reads)
    }

    /// The fault of the reply, if it has one.
    pub(crate) fn fault(&self) -> Option<ReplyFault> {
        match self.progress {
            Progress::Broken(fault) => Some(fault),
            Progress::Reads | Progress::Whole => None,
        }
    }

    /// The status, once the head is read; else 0.
    pub(crate) fn status(&self) -> u32 {
        self.status
    }

    /// The body so far.
    pub(crate) fn body(&self) -> &[u8] {
        &self.body
    }

    /// The ms after which the printer wants to be asked again; 0 if it didn't say so.
    pub(crate) fn retry_after(&self) -> u64 {
        u64::from(self.retry_after) * 1000
    }

    /// Reads the next part of the reply. Returns whether another one may be there.
    fn read(&mut self) -> Result<bool, AllocError> {
        if self.is_done() {
            return Ok(false);
        }
        let mut fields = [EMPTY_HEADER_SPAN; FIELDS];
        let read = match self.client.read(&self.input, &mut fields) {
            Ok(read) => read,
            Err(error) => {
                self.progress = Progress::Broken(fault_of(error));
                return Ok(false);
            }
        };
        match read.event {
            Event::NeedMore | Event::Informational(_) => {}
            Event::Head(head) => self.take_head(head, &fields),
            Event::Data(span) => self.keep(span)?,
            Event::End(_) | Event::Paused | Event::Upgraded | Event::Closed => {
                self.progress = Progress::Whole;
            }
        }
        let count = read.consumed.min(self.input.len());
        drop_prefix(&mut self.input, count);
        Ok(!matches!(read.event, Event::NeedMore))
    }

    /// Takes the head of the reply.
    fn take_head(&mut self, head: ResponseSpans, fields: &[HeaderSpan]) {
        self.status = u32::from(head.code);
        self.retry_after = retry_after(&self.input, fields);
        if matches!(self.client.unread_size(), BodySize::Known(size) if size > BODY_BYTES as u64) {
            self.progress = Progress::Broken(ReplyFault::TooLong);
        }
    }

    /// Appends a segment of the body.
    fn keep(&mut self, span: Span) -> Result<(), AllocError> {
        let segment = part(&self.input, span);
        if segment.len() > BODY_BYTES.saturating_sub(self.body.len()) {
            self.progress = Progress::Broken(ReplyFault::TooLong);
            return Ok(());
        }
        self.body.extend_from_slice(segment)
    }
}

/// A field of a head.
fn field<'a>(name: &'a [u8], value: &'a [u8]) -> Header<'a> {
    Header { name, value }
}

/// The outcome of a call that writes. All that is written here can be spelled.
fn written<T>(outcome: Result<T, WriteError>) -> Result<T, AllocError> {
    match outcome {
        Ok(value) => Ok(value),
        Err(_) => Err(AllocError),
    }
}

/// A part of the input.
fn part(input: &[u8], span: Span) -> &[u8] {
    input.get(span.start..span.end).unwrap_or(&[])
}

/// The seconds of the first field Retry-After; 0 if there is none, or it is a date.
fn retry_after(input: &[u8], fields: &[HeaderSpan]) -> u32 {
    for field in fields {
        if part(input, field.name).eq_ignore_ascii_case(b"retry-after") {
            return decimal(part(input, field.value)).unwrap_or(0);
        }
    }
    0
}

/// Why a reply can't be read.
fn fault_of(error: ReadError) -> ReplyFault {
    match error {
        ReadError::TooLarge | ReadError::Parse(httparse::Error::TooManyHeaders) => {
            ReplyFault::TooLong
        }
        ReadError::Framing(_) => ReplyFault::BadLength,
        ReadError::UnexpectedEof => ReplyFault::Ended,
        _ => ReplyFault::NotHttp,
    }
}
