//! The caller, which connects to a peer, and connects again when the connection is lost.
use crate::host_port::HostPort;
use crate::stream::{Network, Peer, Readiness, Stream};
use adapter_core::Pauses;
use std::alloc::Global;
use std::io;
use std::rt::Files;

/// The longest time for making a connection, in ms.
const CONNECTING: u64 = 20_000;

/// The first pause after a failed try, in ms.
const FIRST_PAUSE: u64 = 1_000;

/// The longest pauses between two tries to reach the server and the printer, in ms.
const SERVER_PAUSE: u64 = 30_000;

const PRINTER_PAUSE: u64 = 60_000;

/// The result of a turn of a caller.
#[derive(Clone, Copy, PartialEq, Eq)]
pub enum Reached {
    /// There is no connection yet.
    Not,
    /// The peer can't be reached. This is reported once after it could be.
    Away,
    /// The connection was just made.
    Now,
    /// There is a connection.
    Still,
}

/// A peer, with the connection to it. A failed try is repeated.
#[derive(Drop)]
pub struct Connector<S: Stream> {
    alloc: Global,
    place: HostPort,
    peer: Peer,
    /// The time of the next try.
    tries: Pauses,
    /// The number of failed tries since there was a connection.
    failures: u32,
    /// The number of the address that is tried: the next one after each failure.
    choice: usize,
    link: Option<S>,
    open: bool,
    /// The moment at which the connection was begun.
    since: u64,
}

impl<S: Stream> Connector<S> {
    /// Creates the caller of a peer, without a connection.
    pub fn new(alloc: Global, place: HostPort, peer: Peer) -> Connector<S> {
        Connector {
            alloc,
            place,
            peer,
            tries: Pauses::new(FIRST_PAUSE, longest_pause(peer)),
            failures: 0,
            choice: 0,
            link: None,
            open: false,
            since: 0,
        }
    }

    /// Takes the result of a wait, if it is one of the peer.
    pub fn notified(&mut self, readiness: Readiness) {
        if readiness.peer != self.peer {
            return;
        }
        if let Some(link) = &mut self.link {
            link.notified(readiness);
        }
    }

    /// Connects, if there is no connection and a try is due. `now` is the moment in ms.
    pub fn turn<N: Network<Stream = S>>(&mut self, network: &N, now: u64) -> Reached {
        if self.open {
            return Reached::Still;
        }
        match &self.link {
            Some(link) => {
                let is_open = link.is_open();
                self.check_open(is_open, now)
            }
            None if !self.tries.is_due(now) => Reached::Not,
            None => match network.connect(self.peer, &self.place, self.choice) {
                Ok(link) => {
                    self.link = Some(link);
                    self.since = now;
                    Reached::Not
                }
                Err(_) => self.miss(now),
            },
        }
    }

    /// Acts on the state of a connection that is being made.
    fn check_open(&mut self, is_open: io::Result<bool>, now: u64) -> Reached {
        match is_open {
            Ok(true) => {
                self.open = true;
                self.failures = 0;
                Reached::Now
            }
            Ok(false) if now.saturating_sub(self.since) < CONNECTING => Reached::Not,
            Ok(false) | Err(_) => self.miss(now),
        }
    }

    /// Records that a try failed.
    fn miss(&mut self, now: u64) -> Reached {
        self.link = None;
        self.tries.tried(now);
        self.failures = self.failures.saturating_add(1);
        self.choice = self.choice.wrapping_add(1);
        if self.failures == 1 {
            Reached::Away
        } else {
            Reached::Not
        }
    }

    /// The connection, if there is one.
    pub fn link(&mut self) -> Option<&mut S> {
        if self.open { self.link.as_mut() } else { None }
    }

    /// Returns whether both sides of the connection have ended, and the peer has acknowledged all bytes. The
    /// error is why the connection broke.
    pub(crate) fn has_ended(&self) -> io::Result<bool> {
        match &self.link {
            Some(link) => link.has_ended(),
            None => Ok(true),
        }
    }

    /// Returns how many written bytes the peer hasn't acknowledged, if the system reports it.
    pub(crate) fn unacknowledged(&self, files: &impl Files) -> Option<u64> {
        let link = self.link.as_ref()?;
        link.unacknowledged(self.alloc, files).ok()?
    }

    /// Closes the connection, if there is one. The next try is due at once.
    pub fn close(&mut self) {
        self.link = None;
        self.open = false;
        self.tries = self.first_tries(FIRST_PAUSE);
    }

    /// Closes the connection, if there is one. The next try is due after `pause` ms.
    pub fn rest(&mut self, pause: u64, now: u64) {
        self.link = None;
        self.open = false;
        self.tries = self.first_tries(pause);
        self.tries.tried(now);
    }

    /// The times of tries whose first pause has so many ms.
    fn first_tries(&self, pause: u64) -> Pauses {
        Pauses::new(pause, longest_pause(self.peer))
    }

    /// Closes the connection, which has broken. The next try is due after a pause.
    pub fn lose(&mut self, now: u64) {
        self.link = None;
        self.open = false;
        self.tries.tried(now);
    }

    /// Records that the peer has sent bytes: it is there, and the pauses begin anew.
    pub fn received(&mut self) {
        self.tries = self.first_tries(FIRST_PAUSE);
    }

    /// Returns the ms until the next try, if there is no connection.
    pub fn pause(&self, now: u64) -> Option<u64> {
        match &self.link {
            None => Some(self.tries.left(now)),
            Some(_) if !self.open => Some(CONNECTING.saturating_sub(now.saturating_sub(
                self.since,
            ))),
            Some(_) => None,
        }
    }
}

/// The longest pause between two tries to reach a peer, in ms.
fn longest_pause(peer: Peer) -> u64 {
    match peer {
        Peer::Server => SERVER_PAUSE,
        Peer::Printer => PRINTER_PAUSE,
    }
}
