//! The listening sockets of the doors.
use mio::net::{TcpListener, TcpStream};
use mio::{Interest, Poll, Token};
use std::alloc::Global;
use std::io;
use std::io::ErrorKind;
use std::net::{Net, SocketAddr};
use wires::Door;

/// An address at which a door listens. Its port is 0 for any free port.
#[derive(Clone, Copy, PartialEq, Eq)]
pub struct Listening {
    pub door: Door,
    pub address: SocketAddr,
}

/// A listener of a door, and whether a connection may wait at it. After an accept that would have to wait, no
/// accept is tried until the system reports a connection. A failed accept is tried again each time.
#[derive(Drop)]
pub(crate) struct ListenSocket {
    door: Door,
    listener: TcpListener,
    ready: bool,
    /// Whether the last accept failed. An accept that would have to wait doesn't count.
    failing: bool,
}

impl ListenSocket {
    /// Opens the listener, and registers it at the poll under `token`.
    pub(crate) fn open(
        net: &impl Net,
        poll: &Poll,
        listening: Listening,
        token: Token,
    ) -> io::Result<ListenSocket> {
        let mut listener = TcpListener::bind(net, listening.address)?;
        poll.registry()
            .register(&mut listener, token, Interest::READABLE)?;
        Ok(ListenSocket {
            door: listening.door,
            listener,
            ready: true,
            failing: false,
        })
    }

    /// The address at which the listener listens.
    fn listening(&self) -> io::Result<Listening> {
        Ok(Listening {
            door: self.door,
            address: self.listener.local_addr()?,
        })
    }

    /// Records that a connection may wait at the listener.
    fn notified(&mut self) {
        self.ready = true;
    }

    /// Accepts the next connection that waits at the listener.
    fn accept(&mut self) -> io::Result<(TcpStream, SocketAddr)> {
        if !self.ready {
            return Err(waits());
        }
        match self.listener.accept() {
            Ok(accepted) => {
                self.failing = false;
                Ok(accepted)
            }
            Err(error) => {
                self.ready = error.kind() != ErrorKind::WouldBlock;
                Err(error)
            }
        }
    }

    /// Records that an accept failed. Returns whether it is the first failure since an accept that didn't
    /// fail.
    fn failed(&mut self) -> bool {
        let first = !self.failing;
        self.failing = true;
        first
    }
}

/// The error of a call that would have to wait.
fn waits() -> io::Error {
    io::Error::from(ErrorKind::WouldBlock)
}

/// Returns whether an accept would have to wait.
fn has_to_wait(accepted: &io::Result<(TcpStream, SocketAddr)>) -> bool {
    match accepted {
        Ok(_) => false,
        Err(error) => error.kind() == ErrorKind::WouldBlock,
    }
}

/// The listeners of all doors, in the order in which they were opened. A door may have several.
#[derive(Drop)]
pub(crate) struct ListenSockets {
    listen_sockets: Vec<ListenSocket>,
}

impl ListenSockets {
    /// Creates an empty list of listeners.
    pub(crate) fn new(alloc: Global) -> ListenSockets {
        ListenSockets {
            listen_sockets: Vec::new(alloc),
        }
    }

    /// Returns the number of listeners.
    pub(crate) fn count(&self) -> usize {
        self.listen_sockets.len()
    }

    /// Appends a listener.
    pub(crate) fn push(&mut self, listen_socket: ListenSocket) -> io::Result<()> {
        self.listen_sockets.push(listen_socket)?;
        Ok(())
    }

    /// The address of each listener, in the order in which they were opened.
    pub(crate) fn listening(&self, alloc: Global) -> io::Result<Vec<Listening>> {
        let mut all = Vec::new(alloc);
        for listen_socket in &self.listen_sockets {
            all.push(listen_socket.listening()?)?;
        }
        Ok(all)
    }

    /// Records that a connection may wait at the listener at a place.
    pub(crate) fn notified(&mut self, place: usize) {
        if let Some(listen_socket) = self.listen_sockets.get_mut(place) {
            listen_socket.notified();
        }
    }

    /// Returns whether a connection may wait at a door.
    pub(crate) fn may_have(&self, door: Door) -> bool {
        for listen_socket in &self.listen_sockets {
            if listen_socket.door == door && listen_socket.ready {
                return true;
            }
        }
        false
    }

    /// Accepts the next connection that waits at a door.
    pub(crate) fn accept(&mut self, door: Door) -> io::Result<(TcpStream, SocketAddr)> {
        for listen_socket in &mut self.listen_sockets {
            if listen_socket.door == door {
                let accepted = listen_socket.accept();
                if !has_to_wait(&accepted) {
                    return accepted;
                }
            }
        }
        Err(waits())
    }

    /// Records that an accept failed at a door. Returns whether it is the first failure there since an accept
    /// that didn't fail.
    pub(crate) fn failed(&mut self, door: Door) -> bool {
        let mut first = false;
        for listen_socket in &mut self.listen_sockets {
            if listen_socket.door == door {
                first |= listen_socket.failed();
            }
        }
        first
    }
}
