//! The connections that were given up, and are read until their peers end them.
//!
//! A socket that is closed while bytes of its peer are unread resets the connection, and the bytes that were
//! written last may never arrive (RFC 9112, section 9.6). Therefore its writing side is shut first, and the
//! bytes that come are dropped until the peer has ended too, or the linger limit is used up.
use crate::linger_limit::LingerLimit;
use base_types::Moment;
use mio::event::Event;
use mio::net::TcpStream;
use mio::{Interest, Poll, Token};
use slab::Slab;
use std::alloc::{AllocError, Global};
use std::io;
use std::io::{ErrorKind, Read};
use std::net::Shutdown;

/// The most connections that linger. A further one is closed at once.
const MOST: usize = 64;

/// The most bytes that one read drops.
const SEGMENT: usize = 16_384;

/// The most segments that are dropped of a connection in a turn.
const SEGMENTS: usize = 128;

/// The first token of a lingering connection at the poll. No connection's own token is in this range.
const FIRST: usize = 0x1_0000_0000;

/// A lingering connection.
#[derive(Drop)]
struct Lingering {
    stream: TcpStream,
    linger_limit: LingerLimit,
    readable: bool,
}

impl Lingering {
    /// Drops the bytes that have come. Returns whether the connection is to be closed now.
    fn ends(&mut self, moment: Moment) -> bool {
        for _ in 0..SEGMENTS {
            if self.linger_limit.is_used_up(moment) {
                return true;
            }
            if !self.readable {
                return false;
            }
            if self.drop_segment() {
                return true;
            }
        }
        false
    }

    /// Drops a segment. Returns whether the peer has ended.
    fn drop_segment(&mut self) -> bool {
        let mut segment = [0u8; SEGMENT];
        match self.stream.read(&mut segment) {
            Ok(count) => {
                self.linger_limit.dropped(count);
                count == 0
            }
            Err(error) => {
                self.readable = false;
                error.kind() != ErrorKind::WouldBlock
            }
        }
    }
}

/// All lingering connections.
#[derive(Drop)]
pub(crate) struct Lingerings {
    all: Slab<Lingering>,
}

impl Lingerings {
    /// Creates an empty set, with memory for all. The only error is out of memory.
    pub(crate) fn new(alloc: Global) -> Result<Lingerings, AllocError> {
        Ok(Lingerings {
            all: Slab::with_capacity(alloc, MOST)?,
        })
    }

    /// Adds a connection that is given up, under a new token. The error is the system's, or that there are
    /// too many; the connection is closed then.
    pub(crate) fn add(
        &mut self,
        poll: &Poll,
        mut stream: TcpStream,
        moment: Moment,
    ) -> io::Result<()> {
        if self.all.len() >= MOST {
            return Ok(());
        }
        stream.shutdown(Shutdown::Write)?;
        let token = Token(FIRST.saturating_add(self.all.vacant_key()));
        poll.registry()
            .reregister(&mut stream, token, Interest::READABLE)?;
        self.all.insert(Lingering {
            stream,
            linger_limit: LingerLimit::new(moment),
            readable: true,
        })?;
        Ok(())
    }

    /// Takes an event of the poll. Returns whether it is of a lingering connection.
    pub(crate) fn notified(&mut self, event: &Event) -> bool {
        let Token(key) = event.token();
        let Some(key) = key.checked_sub(FIRST) else {
            return false;
        };
        match self.all.get_mut(key) {
            Some(one) => {
                one.readable = true;
                true
            }
            None => false,
        }
    }

    /// Drops the bytes that have come, and closes the connections that have ended or used up their linger limit.
    pub(crate) fn drain(&mut self, moment: Moment) {
        if self.all.is_empty() {
            return;
        }
        for key in 0..self.all.capacity() {
            let ended = match self.all.get_mut(key) {
                Some(one) => one.ends(moment),
                None => false,
            };
            if ended {
                self.all.try_remove(key);
            }
        }
    }

    /// Returns the ms until the first linger limit is used up, at most `most`.
    pub(crate) fn left(&self, moment: Moment, most: u64) -> u64 {
        if self.all.is_empty() {
            return most;
        }
        let mut least = most;
        for key in 0..self.all.capacity() {
            if let Some(one) = self.all.get(key) {
                least = one.linger_limit.left(moment).min(least);
            }
        }
        least
    }
}
