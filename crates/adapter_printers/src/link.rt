//! A socket to a peer.
ghost use Rattle.std.specs.Io.{ReadsAtMost, WritesAtMost};

use crate::host_port::HostPort;
use crate::send_buffer::keep_small;
use crate::socket_table::unacknowledged;
use crate::stream::{Network, Peer, Readiness, Stream};
use mio::event::Event;
use mio::net::TcpStream;
use mio::{Interest, Poll, Token};
use std::alloc::Global;
use std::io;
use std::io::{ErrorKind, Read, Write};
use std::net::{Net, Shutdown, SocketAddr};
use std::rt::Files;

/// The tokens of the peers at the poll.
const SERVER: Token = Token(0);

const PRINTER: Token = Token(1);

/// The system's network, whose sockets a poll reports.
#[derive(Clone, Copy)]
pub struct Sockets<'a, N: Net> {
    pub alloc: Global,
    pub net: &'a N,
    pub poll: &'a Poll,
}

/// A socket to a peer, with the events that the poll reported. After a call that would have to wait, none is
/// made until the poll reports the socket.
#[derive(Drop)]
pub struct Link {
    stream: TcpStream,
    readable: bool,
    writable: bool,
}

/// The error of a call that would have to wait.
fn waits() -> io::Error {
    io::Error::from(ErrorKind::WouldBlock)
}

/// The token of a peer.
fn token_of(peer: Peer) -> Token {
    match peer {
        Peer::Server => SERVER,
        Peer::Printer => PRINTER,
    }
}

impl Readiness {
    /// What an event of the poll reports, if it is one of a peer's socket.
    pub fn of(event: &Event) -> Option<Readiness> {
        let peer = if event.token() == SERVER {
            Peer::Server
        } else if event.token() == PRINTER {
            Peer::Printer
        } else {
            return None;
        };
        Some(Readiness {
            peer,
            readable: event.is_readable() || event.is_read_closed() || event.is_error(),
            writable: event.is_writable() || event.is_write_closed() || event.is_error(),
        })
    }
}

impl<N: Net> Network for Sockets<'_, N> {
    type Stream = Link;

    fn connect(&self, peer: Peer, place: &HostPort, choice: usize) -> io::Result<Link> {
        let addresses = place.addresses(self.alloc, self.net)?;
        if addresses.is_empty() {
            return Err(io::Error::from(ErrorKind::NotFound));
        }
        let address = addresses[choice % addresses.len()];
        Link::begin(self.net, self.poll, address, token_of(peer))
    }
}

impl Link {
    /// Begins a connection, registered at the poll under `token`.
    fn begin(net: &impl Net, poll: &Poll, address: SocketAddr, token: Token) -> io::Result<Link> {
        let mut stream = TcpStream::connect(net, address)?;
        let _small = keep_small(&stream);
        poll.registry().register(&mut stream, token, Interest::READABLE | Interest::WRITABLE)?;
        Ok(Link {
            stream,
            readable: false,
            writable: false,
        })
    }
}

impl Stream for Link {
    fn notified(&mut self, readiness: Readiness) {
        self.readable |= readiness.readable;
        self.writable |= readiness.writable;
    }

    fn is_open(&self) -> io::Result<bool> {
        if !self.writable {
            return Ok(false);
        }
        if let Some(error) = self.stream.take_error()? {
            return Err(error);
        }
        self.stream.peer_addr()?;
        self.stream.set_nodelay(true)?;
        Ok(true)
    }

    fn read(&mut self, buffer: &mut [u8]) -> io::Result<usize>
        ensures { ReadsAtMost result buffer.new }
    {
        if !self.readable {
            return Err(waits());
        }
        let read = self.stream.read(buffer);
        if let Err(error) = &read {
            self.readable = error.kind() != ErrorKind::WouldBlock;
        }
        read
    }

    fn write(&mut self, bytes: &[u8]) -> io::Result<usize>
        ensures { WritesAtMost result bytes.now }
    {
        if !self.writable {
            return Err(waits());
        }
        let written = self.stream.write(bytes);
        if let Err(error) = &written {
            self.writable = error.kind() != ErrorKind::WouldBlock;
        }
        written
    }

    fn end_writing(&self) -> io::Result<()> {
        self.stream.shutdown(Shutdown::Write)
    }

    fn has_ended(&self) -> io::Result<bool> {
        if let Some(error) = self.stream.take_error()? {
            return Err(error);
        }
        match self.stream.peer_addr() {
            Err(error) if error.kind() == ErrorKind::NotConnected => Ok(true),
            Ok(_) | Err(_) => Ok(false),
        }
    }

    fn unacknowledged<F: Files>(&self, alloc: Global, files: &F) -> io::Result<Option<u64>> {
        unacknowledged(alloc, files, &self.stream)
    }
}

/// Returns whether a call has only to be made again.
pub fn has_to_wait(error: &io::Error) -> bool {
    matches!(error.kind(), ErrorKind::WouldBlock | ErrorKind::Interrupted)
}
