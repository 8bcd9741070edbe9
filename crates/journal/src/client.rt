//! A client in memory.
ghost use Rattle.std.specs.Prelude.{◌≡◌, ◌<◌, ◌≤◌, ℕ, List, ◌++◌, IfSome, length};
ghost use Rattle.std.specs.Io.Slices.{io_slices_bytes};

use octets::Octets;
use std::alloc::{AllocError, Global};
use std::cmp::min;
use std::io::IoSlice;
use wires::{Door, Progress, Wire, WireId};

/// The number of the client's connection.
const NUMBER: WireId = 0;

/// A part of what a client sends.
#[derive(Drop)]
enum Part {
    Bytes(Vec<u8>),
    Document(Octets),
}

/// A client that sends requests over one connection and then ends. It takes each reply, and reads none.
#[derive(Drop)]
pub(crate) struct Client {
    parts: Vec<Part>,
    /// The number of parts that were sent, and of bytes of the next one.
    sent: usize,
    start: usize,
    accepted: bool,
    pub(crate) closed: bool,
}

impl Part {
    /// The bytes from `start` on that lie together in memory; empty at the end.
    fn rest(&self, start: usize) -> &[u8] {
        match self {
            Part::Bytes(bytes) => bytes.get(start..).unwrap_or(&[]),
            Part::Document(octets) if start <= octets.len() => octets.segment(start),
            Part::Document(_) => &[],
        }
    }
}

/// The first part of the bytes.
fn first_of<'a>(bytes: &[IoSlice<'a>]) -> &'a [u8]
    ensures { (rest : List ℕ) × (io_slices_bytes bytes.now ≡ result.now ++ rest) }
{
    match bytes {
        [first, ..] => first.as_slice(),
        [] => &[],
    }
}

impl Client {
    /// Creates a client that sends nothing.
    pub(crate) fn new(alloc: Global) -> Client {
        Client {
            parts: Vec::new(alloc),
            sent: 0,
            start: 0,
            accepted: false,
            closed: false,
        }
    }

    /// Adds bytes to what the client sends.
    pub(crate) fn put(&mut self, bytes: Vec<u8>) -> Result<(), AllocError> {
        self.parts.push(Part::Bytes(bytes))?;
        Ok(())
    }

    /// Adds a document to what the client sends, without a copy.
    pub(crate) fn put_document(&mut self, octets: &Octets) -> Result<(), AllocError> {
        self.parts.push(Part::Document(octets.share()?))?;
        Ok(())
    }

    /// The next bytes; empty at the end of a part.
    fn rest(&self) -> &[u8] {
        match self.parts.get(self.sent) {
            Some(part) => part.rest(self.start),
            None => &[],
        }
    }

    /// Passes the parts that were sent whole.
    fn pass_ends(&mut self) {
        while self.sent < self.parts.len() {
            let client = &*self;
            if !client.rest().is_empty() {
                return;
            }
            self.sent += 1;
            self.start = 0;
        }
    }

    /// Moves the next bytes to the beginning of a buffer. Returns their number, or `None` if there are none.
    fn send(&mut self, buffer: &mut [u8]) -> Option<usize>
        ensures { IfSome result (λ n. (0 < n) × (n ≤ length buffer.old)) }
    {
        self.pass_ends();
        let client = &*self;
        let rest = client.rest();
        let count = min(rest.len(), buffer.len());
        if count == 0 {
            return None;
        }
        buffer[..count].copy_from_slice(&rest[..count]);
        self.start = self.start.saturating_add(count);
        Some(count)
    }
}

impl Wire for Client {
    ghost polled = { λ old poll new. Unit {0} };

    ghost faults = { λ c. 0 };

    fn poll_accept(&mut self, door: Door) -> Progress<WireId> {
        if self.accepted || !matches!(door, Door::Ipp) {
            return Progress::Waiting;
        }
        self.accepted = true;
        Progress::Done(NUMBER)
    }

    fn poll_read(&mut self, _id: WireId, buffer: &mut [u8]) -> Progress<usize> {
        match self.send(buffer) {
            Some(count) => Progress::Done(count),
            None => Progress::End,
        }
    }

    fn poll_write(&mut self, _id: WireId, bytes: &[IoSlice<'_>]) -> Progress<usize> {
        let taken = first_of(bytes);
        if taken.is_empty() {
            return Progress::Waiting;
        }
        Progress::Done(taken.len())
    }

    fn close(&mut self, _id: WireId) {
        self.closed = true;
    }

    fn failures(&self) -> u64 {
        0
    }
}
