//! The socket of a connection.
ghost use Rattle.std.specs.Io.{ReadsAtMost, WritesAtMost};
ghost use Rattle.std.specs.Io.Slices.{io_slices_bytes};

use crate::connection_log::CloseReason;
use crate::idle_timeout::IdleTimeout;
use crate::read_ahead::{READ_AHEAD, ReadAhead};
use base_types::Moment;
use mio::event::Event;
use mio::net::TcpStream;
use std::alloc::Global;
use std::io;
use std::io::{ErrorKind, IoSlice, Read, Write};

/// The socket of a connection, with the events that the poll reported and the time that its peer has left. A
/// call never blocks. After a call that would have to wait, or that moved fewer bytes than it asked for, the
/// system isn't called until the poll reports the socket.
#[derive(Drop)]
pub(crate) struct Link {
    stream: TcpStream,
    readable: bool,
    writable: bool,
    /// The peer has ended: once all bytes are read, a read returns 0.
    ends: bool,
    /// Whether the last read gave all bytes that it asked for, and more may be there.
    much: bool,
    ahead: ReadAhead,
    idle_timeout: IdleTimeout,
    leave: CloseReason,
}

/// The error of a call that would have to wait.
fn waits() -> io::Error {
    io::Error::from(ErrorKind::WouldBlock)
}

impl Link {
    /// Creates the link of a connection that was just accepted. `device` indicates whether its peer is a device.
    ///
    /// A device is read only after the poll has reported its bytes. By then the poll has also reported the
    /// end of the device's earlier connection, and that end is read first.
    pub(crate) fn new(alloc: Global, stream: TcpStream, moment: Moment, device: bool) -> Link {
        Link {
            stream,
            readable: !device,
            writable: true,
            ends: false,
            much: false,
            ahead: ReadAhead::new(alloc),
            idle_timeout: IdleTimeout::new(moment, device),
            leave: CloseReason::Served,
        }
    }

    /// The reason for closing the connection, if it is closed now.
    pub(crate) fn leave(&self) -> CloseReason {
        self.leave
    }

    /// Sets the reason for closing the connection.
    pub(crate) fn leaves(&mut self, leave: CloseReason) {
        self.leave = leave;
    }

    /// Returns the socket. Bytes that were read ahead are dropped.
    pub(crate) fn into_stream(self) -> TcpStream {
        self.stream
    }

    /// Records an event of the poll.
    pub(crate) fn notified(&mut self, event: &Event) {
        self.ends |= event.is_read_closed() || event.is_error();
        self.readable |= event.is_readable() || self.ends;
        self.writable |= event.is_writable() || event.is_write_closed() || event.is_error();
    }

    /// Returns the ms that the peer has left, if its time is counted.
    pub(crate) fn left(&self, moment: Moment) -> Option<u64> {
        self.idle_timeout.left(moment)
    }

    /// Returns whether the peer has no time left. If so, the next call asks the system, whatever the poll
    /// reported before: a process that was stopped for a while may have missed a report of bytes that are
    /// there.
    pub(crate) fn is_over(&mut self, moment: Moment) -> bool {
        let over = self.idle_timeout.left(moment) == Some(0);
        self.readable |= over;
        self.writable |= over;
        over
    }

    /// Returns whether a read would have to wait: no bytes were read ahead, the poll has reported none since the
    /// last read that had to wait, and the peer has time left.
    pub(crate) fn is_idle(&self, moment: Moment) -> bool {
        !self.readable && self.ahead.is_empty() && self.idle_timeout.left(moment) != Some(0)
    }

    /// Returns whether a write may take bytes: the poll has reported room since the last write that had to wait, or
    /// the peer has no time left.
    pub(crate) fn may_write(&self, moment: Moment) -> bool {
        self.writable || self.idle_timeout.left(moment) == Some(0)
    }

    /// Reads bytes into `buffer`: those read ahead, or else those of the socket. Returns 0 at the end of the
    /// stream.
    pub(crate) fn read(&mut self, buffer: &mut [u8], moment: Moment) -> io::Result<usize>
        ensures { ReadsAtMost result buffer.new }
    {
        if self.ahead.is_empty() {
            if !self.much || !self.ahead.has_room() {
                let read = self.stream.read(buffer);
                self.record_read(&read, buffer.len());
                if let Ok(count) = &read {
                    self.idle_timeout.came(*count, moment);
                }
                return read;
            }
            self.read_ahead()?;
        }
        let count = self.ahead.take(buffer);
        self.idle_timeout.came(count, moment);
        Ok(count)
    }

    /// Frees the memory for reading ahead, if no bytes are left in it.
    pub(crate) fn release(&mut self) {
        if self.ahead.is_empty() {
            self.ahead.release();
        }
    }

    /// Reads from the socket into the buffer for reading ahead.
    fn read_ahead(&mut self) -> io::Result<usize> {
        let read = self.ahead.read(&mut self.stream);
        self.record_read(&read, READ_AHEAD);
        read
    }

    /// Records the result of a read that asked for `asked` bytes. If it gave fewer, no more are there.
    fn record_read(&mut self, read: &io::Result<usize>, asked: usize) {
        match read {
            Ok(count) => {
                self.much = *count == asked;
                self.readable = self.much || self.ends;
            }
            Err(error) => self.readable = error.kind() != ErrorKind::WouldBlock,
        }
    }

    /// Writes bytes to the socket. Returns how many it took.
    pub(crate) fn write(&mut self, bytes: &[IoSlice<'_>], moment: Moment) -> io::Result<usize>
        ensures { WritesAtMost result (io_slices_bytes bytes.now) }
    {
        if !self.writable {
            return Err(waits());
        }
        let written = match bytes {
            [part] => self.stream.write(part),
            parts => self.stream.write_vectored(parts),
        };
        match &written {
            Ok(_) => self.idle_timeout.went(moment),
            Err(error) => self.writable = error.kind() != ErrorKind::WouldBlock,
        }
        written
    }
}
