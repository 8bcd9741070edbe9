//! The traits of connections to peers.
ghost use Rattle.std.specs.Io.{ReadsAtMost, WritesAtMost};

use crate::host_port::HostPort;
use std::alloc::Global;
use std::io;
use std::rt::Files;

/// The peers of an adapter.
#[derive(Clone, Copy, PartialEq, Eq)]
pub enum Peer {
    Server,
    Printer,
}

/// What a wait reported of the connection to a peer.
#[derive(Clone, Copy)]
pub struct Readiness {
    pub peer: Peer,
    /// Whether a read would not have to wait.
    pub readable: bool,
    /// Whether a write would not have to wait.
    pub writable: bool,
}

/// What makes connections.
pub trait Network {
    type Stream: Stream;

    /// Begins a connection to a peer at one of the addresses of a place: the address of number `choice`,
    /// counted again from the first after the last.
    fn connect(&self, peer: Peer, place: &HostPort, choice: usize) -> io::Result<Self::Stream>;
}

/// A connection to a peer, closed when it is dropped. No call waits.
pub trait Stream: Drop {
    /// Takes the result of a wait.
    fn notified(&mut self, _readiness: Readiness) {}

    /// Returns whether the connection is made. The error is why it can't be.
    fn is_open(&self) -> io::Result<bool>;

    /// Reads bytes into `buffer`. Returns 0 at the end of the stream.
    fn read(&mut self, buffer: &mut [u8]) -> io::Result<usize>
        ensures { ReadsAtMost result buffer.new };

    /// Writes bytes. Returns how many it took.
    fn write(&mut self, bytes: &[u8]) -> io::Result<usize>
        ensures { WritesAtMost result bytes.now };

    /// Ends the writing side.
    fn end_writing(&self) -> io::Result<()>;

    /// Returns whether both sides have ended, and the peer has acknowledged all bytes. The error is why the
    /// connection broke.
    fn has_ended(&self) -> io::Result<bool>;

    /// Returns how many written bytes the peer hasn't acknowledged, if that is known. The end of the writing
    /// side counts as a byte.
    fn unacknowledged<F: Files>(&self, alloc: Global, files: &F) -> io::Result<Option<u64>>;
}
