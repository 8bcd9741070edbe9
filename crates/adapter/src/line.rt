//! The connection to the server.

use adapter_core::{OrderError, OrderItem, OrderReader, write_report};
use adapter_printers::{Connector, Network, Reached, Readiness, Stream, has_to_wait};
use base_types::Report;
use std::alloc::{AllocError, Global};
use text::drop_prefix;

/// The number of bytes that one read asks for.
const SEGMENT: usize = 65_536;

/// The most reads of a turn whose bytes are dropped once the adapter sends nothing more.
const LAST_SEGMENTS: u32 = 64;

/// The result of a read from the server.
#[derive(Clone, Copy)]
pub(crate) enum ServerInput {
    /// Nothing has come.
    Nothing,
    /// Bytes have come; the reader has them.
    Bytes,
    /// The connection ended or broke.
    End,
}

/// The connection to the server, with the bytes that were read and those that are to be written.
#[derive(Drop)]
pub(crate) struct ServerLine<S: Stream> {
    alloc: Global,
    caller: Connector<S>,
    reader: OrderReader,
    buffer: Vec<u8>,
    output: Vec<u8>,
}

impl<S: Stream> ServerLine<S> {
    /// Creates the record of a server without a connection. The only error is out of memory.
    pub(crate) fn new(alloc: Global, caller: Connector<S>) -> Result<ServerLine<S>, AllocError> {
        Ok(ServerLine {
            alloc,
            caller,
            reader: OrderReader::new(alloc),
            buffer: vec![in alloc; 0; SEGMENT]?,
            output: Vec::new(alloc),
        })
    }

    /// Takes the result of a wait.
    pub(crate) fn notified(&mut self, readiness: Readiness) {
        self.caller.notified(readiness);
    }

    /// Connects, if there is no connection.
    pub(crate) fn turn<N: Network<Stream = S>>(&mut self, network: &N, now: u64) -> Reached {
        let reached = self.caller.turn(network, now);
        if reached == Reached::Now {
            self.reader = OrderReader::new(self.alloc);
            self.output.clear();
        }
        reached
    }

    /// Returns whether there is a connection.
    pub(crate) fn is_linked(&mut self) -> bool {
        self.caller.link().is_some()
    }

    /// Closes the connection, which is of no more use.
    pub(crate) fn lose(&mut self, now: u64) {
        self.caller.lose(now);
    }

    /// Reads bytes.
    pub(crate) fn read(&mut self) -> Result<ServerInput, AllocError> {
        let Some(link) = self.caller.link() else {
            return Ok(ServerInput::Nothing);
        };
        match link.read(&mut self.buffer) {
            Ok(0) => Ok(ServerInput::End),
            Ok(count) => {
                self.caller.received();
                self.reader.feed(&self.buffer[..count])?;
                Ok(ServerInput::Bytes)
            }
            Err(error) if has_to_wait(&error) => Ok(ServerInput::Nothing),
            Err(_) => Ok(ServerInput::End),
        }
    }

    /// Returns the next item of the server's stream.
    pub(crate) fn next_item(&mut self) -> Result<Option<OrderItem>, OrderError> {
        self.reader.next_item()
    }

    /// The octets of the last item.
    pub(crate) fn part(&self) -> &[u8] {
        self.reader.part()
    }

    /// Enqueues a report, if there is a connection. The only error is out of memory.
    pub(crate) fn say(&mut self, report: &Report) -> Result<(), AllocError> {
        if !self.is_linked() {
            return Ok(());
        }
        write_report(self.alloc, report, &mut self.output)
    }

    /// Writes the bytes that are due. Returns whether some were written. The error is that the connection is
    /// broken.
    pub(crate) fn flush(&mut self) -> Result<bool, ServerInput> {
        let Some(link) = self.caller.link() else {
            return Ok(false);
        };
        if self.output.is_empty() {
            return Ok(false);
        }
        match link.write(&self.output) {
            Ok(count) => {
                drop_prefix(&mut self.output, count);
                Ok(count > 0)
            }
            Err(error) if has_to_wait(&error) => Ok(false),
            Err(_) => Err(ServerInput::End),
        }
    }

    /// Writes the bytes that are still due, ends the writing side of the connection after them, and drops
    /// the bytes that come. Returns whether the server may still send bytes.
    pub(crate) fn take_leave(&mut self) -> bool {
        if self.flush().is_err() {
            return false;
        }
        let Some(link) = self.caller.link() else {
            return false;
        };
        if self.output.is_empty() && link.end_writing().is_err() {
            return false;
        }
        for _ in 0..LAST_SEGMENTS {
            match link.read(&mut self.buffer) {
                Ok(0) => return false,
                Ok(_) => {}
                Err(error) => return has_to_wait(&error),
            }
        }
        true
    }

    /// Returns the ms until the connection has work to do without an event.
    pub(crate) fn pause(&self, now: u64) -> Option<u64> {
        self.caller.pause(now)
    }
}
