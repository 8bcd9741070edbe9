//! The connections of a server, with the readers that find the octets of documents.
ghost use Rattle.std.specs.Prelude.{◌≡◌, ◌<◌, ◌≤◌, ◌+◌, OnOk, length};

use crate::http_stream::HttpStream;
use crate::lpd_stream::LpdStream;
use crate::redacted_read::RedactedRead;
use memchr::memchr;
use std::alloc::{AllocError, Global};
use wires::{Door, WireId};

/// The reader of a connection's bytes.
#[derive(Drop)]
enum Stream {
    Http(HttpStream),
    Lpd(LpdStream),
    /// The lines of a device, which has no documents.
    Device,
}

/// A connection.
#[derive(Drop)]
struct RedactedConnection {
    id: WireId,
    stream: Stream,
}

/// The open connections, with their readers.
#[derive(Drop)]
pub(crate) struct Redactor {
    alloc: Global,
    connections: Vec<RedactedConnection>,
}

/// The number of bytes up to and with the first line feed, or of all bytes.
fn line_end(bytes: &[u8]) -> usize
    requires { 0 < length bytes.now }
    ensures low { 0 < result }
    ensures high { result ≤ length bytes.now }
{
    match memchr(b'\n', bytes) {
        Some(place) => place + 1,
        None => bytes.len(),
    }
}

impl Stream {
    /// The number of leading bytes that are read at once: those of a body or a data file, or of a line.
    fn segment(&self, bytes: &[u8]) -> usize
        requires { 0 < length bytes.now }
        ensures low { 0 < result }
        ensures high { result ≤ length bytes.now }
    {
        let body = match self {
            Stream::Http(http) => http.body_prefix(bytes),
            Stream::Lpd(lpd) => lpd.body_prefix(bytes),
            Stream::Device => bytes.len(),
        };
        if body > 0 { body } else { line_end(bytes) }
    }

    /// Reads a segment, and leaves out the octets of documents. The only error is out of memory.
    fn redact(&mut self, bytes: &[u8], output: &mut RedactedRead) -> Result<(), AllocError>
        ensures { OnOk result (output.new ≡ output.old + length bytes.now) }
    {
        match self {
            Stream::Http(http) => http.redact(bytes, output),
            Stream::Lpd(lpd) => lpd.redact(bytes, output),
            Stream::Device => output.keep(bytes),
        }
    }

    /// Reads bytes, segment by segment. The only error is out of memory.
    fn redact_all(&mut self, bytes: &[u8], output: &mut RedactedRead) -> Result<(), AllocError>
        ensures { OnOk result (output.new ≡ output.old + length bytes.now) }
    {
        let mut rest = bytes;
        while !rest.is_empty() {
            let (segment, later) = rest.split_at(self.segment(rest));
            self.redact(segment, output)?;
            rest = later;
        }
        Ok(())
    }
}

impl Redactor {
    /// Creates a redactor without connections.
    pub(crate) fn new(alloc: Global) -> Redactor {
        Redactor {
            alloc,
            connections: Vec::new(alloc),
        }
    }

    /// Adds a connection that was accepted at a door. The only error is out of memory.
    pub(crate) fn open(&mut self, id: WireId, door: Door) -> Result<(), AllocError> {
        let stream = match door {
            Door::Ipp => Stream::Http(HttpStream::new(self.alloc)),
            Door::Lpd => Stream::Lpd(LpdStream::new(self.alloc)),
            Door::Devices => Stream::Device,
        };
        self.connections.push(RedactedConnection { id, stream })?;
        Ok(())
    }

    /// Removes a connection that was closed.
    pub(crate) fn close(&mut self, id: WireId) {
        self.connections.retain(|connection| connection.id != id);
    }

    /// The place of a connection.
    fn place_of(&self, id: WireId) -> Option<usize> {
        self.connections
            .iter()
            .position(|connection| connection.id == id)
    }

    /// Returns whether a connection is that of a device.
    pub(crate) fn is_device(&self, id: WireId) -> bool {
        match self.place_of(id) {
            Some(place) if place < self.connections.len() => {
                matches!(&self.connections[place].stream, Stream::Device)
            }
            _ => false,
        }
    }

    /// Reads bytes of a connection, and leaves out the octets of documents. The only error is out of memory.
    pub(crate) fn redact(
        &mut self,
        id: WireId,
        bytes: &[u8],
        output: &mut RedactedRead,
    ) -> Result<(), AllocError>
        ensures { OnOk result (output.new ≡ output.old + length bytes.now) }
    {
        match self.place_of(id) {
            Some(place) if place < self.connections.len() => {
                self.connections[place].stream.redact_all(bytes, output)
            }
            _ => output.leave_out(bytes.len()),
        }
    }
}
