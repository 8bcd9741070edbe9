//! The buffer for bytes that are read of a socket ahead of need.
ghost use Rattle.std.specs.Prelude.{◌≤◌, length};

use mio::net::TcpStream;
use std::alloc::{AllocError, Global};
use std::cmp::min;
use std::io;
use std::io::Read;
use std::marker::Model;

/// The number of bytes that one read ahead asks for.
pub(crate) const READ_AHEAD: usize = 65_536;

/// Bytes that were read of a socket ahead of need, where many come: one call of the system reads bytes that
/// are taken by many reads. In clauses it is the list of the bytes that aren't taken yet.
#[derive(Drop)]
pub(crate) struct ReadAhead {
    alloc: Global,
    bytes: Vec<u8>,
    /// The range of `bytes` that isn't taken yet.
    start: usize,
    end: usize,
}

impl Model for ReadAhead {
    ghost use Rattle.std.specs.Prelude.{ℕ, List, ◌-◌, ◌≤◌, take, drop, length};

    ghost Value = { List ℕ };

    ghost view = { λ a. take (a.end - a.start) (drop a.start a.bytes.items) };

    ghost invariant = { λ a. (a.start ≤ a.end) × (a.end ≤ length a.bytes.items) };
}

impl ReadAhead {
    /// Creates an empty buffer, which takes no memory yet.
    pub(crate) fn new(alloc: Global) -> ReadAhead {
        ReadAhead {
            alloc,
            bytes: Vec::new(alloc),
            start: 0,
            end: 0,
        }
    }

    /// Returns whether all bytes that were read are taken.
    pub(crate) fn is_empty(&self) -> bool {
        self.start == self.end
    }

    /// Moves bytes into `buffer`, as many as there are and as it has room for. Returns their number.
    pub(crate) fn take(&mut self, buffer: &mut [u8]) -> usize
        ensures { result ≤ length buffer.new }
    {
        let count = min(self.end - self.start, buffer.len());
        let end = self.start + count;
        buffer[..count].copy_from_slice(&self.bytes[self.start..end]);
        self.start = end;
        count
    }

    /// Returns whether there is memory to read into. The memory is taken now, if it wasn't taken yet.
    pub(crate) fn has_room(&mut self) -> bool {
        if self.bytes.is_empty() {
            self.start = 0;
            self.end = 0;
            match vec![in self.alloc; 0; READ_AHEAD] {
                Ok(bytes) => self.bytes = bytes,
                Err(AllocError) => return false,
            }
        }
        true
    }

    /// Reads from a socket into the buffer's memory. Returns 0 at the end of the stream. Bytes that weren't
    /// taken before are dropped.
    pub(crate) fn read(&mut self, stream: &mut TcpStream) -> io::Result<usize> {
        self.start = 0;
        self.end = 0;
        let count = stream.read(&mut self.bytes)?;
        self.end = count;
        Ok(count)
    }

    /// Frees the buffer's memory. Bytes that weren't taken are dropped.
    pub(crate) fn release(&mut self) {
        self.start = 0;
        self.end = 0;
        self.bytes = Vec::new(self.alloc);
    }
}
