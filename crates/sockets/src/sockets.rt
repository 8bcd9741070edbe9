//! The system's sockets as a wire.
ghost use Rattle.std.specs.Prelude.{◌≡◌, ◌+◌, ℕ, false, if◌then◌else◌, [], ◌∷◌, ◌++◌, length, IfOk};
ghost use Rattle.std.specs.Io.Slices.{io_slices_bytes};
ghost use Rattle.wires.specs.Poll.{HasCause, IsCount};

use crate::call_history::{Call, CallHistory};
use crate::connection_log::{CloseReason, ConnectionEvent, ConnectionLog};
use crate::keepalive::probe;
use crate::lingering::Lingerings;
use crate::link::Link;
use crate::listen_socket::{ListenSocket, ListenSockets, Listening};
use base_types::Moment;
use mio::{Events, Interest, Poll, Token};
use slab::Slab;
use std::alloc::Global;
use std::io::{ErrorKind, IoSlice};
use std::net::{Net, SocketAddr};
use std::time::Duration;
use std::{io, mem};
use wires::{Door, Progress, Wire, WireId};

/// The most sockets that a wait reports: all sockets that there are.
const EVENTS: usize = 128;

/// The most times that one [`Sockets::look`] asks the system for events: for some 30 us.
const LOOKS: usize = 120;

/// The token of the first listener at the poll. Each further listener has the token below the token of the
/// listener before. A connection has its own number as its token; the tokens of lingering connections are
/// between both.
const FIRST_LISTENER: usize = usize::MAX;

/// Listeners at the three doors, and the connections that they accepted.
///
/// A client counts as ended if it is silent for a minute, or takes longer than a minute for 4,096 bytes while
/// nothing is sent to it. A device counts as ended only if it is silent for a minute before its first byte.
/// The time is checked only where a call would have to wait: bytes that are there are read, however late.
#[derive(Drop)]
pub struct Sockets {
    alloc: Global,
    listen_sockets: ListenSockets,
    links: Slab<Link>,
    /// The connections that were given up, and are read for a while.
    lingerings: Lingerings,
    poll: Poll,
    events: Events,
    failures: u64,
    /// Whether a call did more than find that it would have to wait.
    worked: bool,
    /// Whether a read filled its buffer, so that more bytes may be there.
    more: bool,
    /// The moment by which silence is measured.
    moment: Moment,
    /// The moment of the last wait.
    waited: Moment,
    /// The log of connections, if it is kept.
    visits: Option<ConnectionLog>,
    /// The calls of the wire so far.
    pub history: CallHistory,
}

/// Hands each socket the events that a wait reported for it.
fn notify_all(
    events: &Events,
    listen_sockets: &mut ListenSockets,
    links: &mut Slab<Link>,
    lingerings: &mut Lingerings,
) {
    for event in events.iter() {
        let Token(key) = event.token();
        match links.get_mut(key) {
            Some(link) => link.notified(event),
            None if lingerings.notified(event) => {}
            None => listen_sockets.notified(FIRST_LISTENER - key),
        }
    }
}

/// Frees the memory of each socket that only a rush needs.
fn release_buffers(links: &mut Slab<Link>) {
    for key in 0..links.capacity() {
        if let Some(link) = links.get_mut(key) {
            link.release();
        }
    }
}

impl Sockets {
    /// Creates sockets without a listener. The error is the system's, or out of memory.
    pub fn new(alloc: Global, net: &impl Net) -> io::Result<Sockets>
        ensures { IfOk result (λ sockets. sockets.history.calls ≡ []) }
    {
        Ok(Sockets {
            alloc,
            listen_sockets: ListenSockets::new(alloc),
            links: Slab::new(alloc),
            lingerings: Lingerings::new(alloc)?,
            events: Events::with_capacity(alloc, EVENTS)?,
            poll: Poll::new(net)?,
            failures: 0,
            worked: false,
            more: false,
            moment: Moment::start(),
            waited: Moment::start(),
            visits: None,
            history: CallHistory::new(),
        })
    }

    /// Listens at one more address. The error is the system's (a port in use, an address that isn't the
    /// machine's, a port that needs a right), or out of memory.
    pub fn listen(&mut self, net: &impl Net, listening: Listening) -> io::Result<()>
        ensures { self.new.history ≡ self.old.history }
    {
        let token = Token(FIRST_LISTENER - self.listen_sockets.count());
        let listen_socket = ListenSocket::open(net, &self.poll, listening, token)?;
        self.listen_sockets.push(listen_socket)
    }

    /// The addresses at which it listens, in the order in which they were opened.
    pub fn listening(&self) -> io::Result<Vec<Listening>> {
        self.listen_sockets.listening(self.alloc)
    }

    /// Sets the moment by which silence is measured.
    pub fn set_moment(&mut self, moment: Moment)
        ensures { self.new.history ≡ self.old.history }
    {
        self.moment = moment;
    }

    /// Starts a log of connections, which is kept until it is taken.
    pub fn keep_visits(&mut self, alloc: Global)
        ensures { self.new.history ≡ self.old.history }
    {
        self.visits = Some(ConnectionLog::new(alloc));
    }

    /// Takes the log of connections, if there is one. No log is kept from then on.
    pub fn take_visits(&mut self) -> Option<ConnectionLog>
        ensures { self.new.history ≡ self.old.history }
    {
        mem::replace(&mut self.visits, None)
    }

    /// Appends an event to the log of connections, if one is kept.
    fn note(&mut self, visit: ConnectionEvent)
        ensures failures { self.new.failures ≡ self.old.failures }
        ensures calls { self.new.history ≡ self.old.history }
    {
        if let Some(visits) = &mut self.visits {
            visits.keep(visit);
        }
    }

    /// Waits until the poll reports an event or a peer has no time left, but no longer than `most`. If
    /// nothing happened, the sockets free the memory that only a rush needs.
    ///
    /// Each change is reported once, and remembered until a call finds that it would have to wait.
    pub fn wait(&mut self, most: Duration) -> io::Result<()>
        ensures { self.new.history ≡ self.old.history }
    {
        self.waited = self.moment;
        self.poll.poll(&mut self.events, Some(most))?;
        if self.events.is_empty() && !most.is_zero() {
            release_buffers(&mut self.links);
        }
        notify_all(
            &self.events,
            &mut self.listen_sockets,
            &mut self.links,
            &mut self.lingerings,
        );
        self.lingerings.drain(self.moment);
        Ok(())
    }

    /// Asks the system for events without a wait, up to [`LOOKS`] times, until it reports one. Returns whether
    /// there was an event.
    ///
    /// A peer that answers at once needs less time than the system needs to wake a server that waits.
    pub fn look(&mut self) -> io::Result<bool>
        ensures { self.new.history ≡ self.old.history }
    {
        for _ in 0..LOOKS {
            self.wait(Duration::ZERO)?;
            if !self.events.is_empty() {
                return Ok(true);
            }
        }
        Ok(false)
    }

    /// Returns whether the last wait was at the current moment: what it reported is at most 1 ms old.
    pub fn has_just_waited(&self) -> bool {
        self.waited == self.moment
    }

    /// Returns whether a write of a connection may do more than find that it would have to wait.
    pub fn may_write(&self, id: WireId) -> bool {
        match self.links.get(id as usize) {
            Some(link) => link.may_write(self.moment),
            None => true,
        }
    }

    /// Returns the ms until the first peer has no time left or the first linger limit is used up, at most
    /// `most`.
    pub fn time_left(&self, most: u64) -> u64 {
        let mut least = self.lingerings.left(self.moment, most);
        for key in 0..self.links.capacity() {
            if let Some(link) = self.links.get(key) {
                least = link.left(self.moment).unwrap_or(most).min(least);
            }
        }
        least
    }

    /// Returns whether a call since the last call of `take_worked` did more than find that it would have to
    /// wait.
    pub fn take_worked(&mut self) -> bool
        ensures was { result ≡ self.old.worked }
        ensures left { self.new.worked ≡ false }
        ensures calls { self.new.history ≡ self.old.history }
    {
        let worked = self.worked;
        self.worked = false;
        worked
    }

    /// Returns whether a read since the last call of `take_more` filled its buffer, so that more bytes may be
    /// there.
    pub fn take_more(&mut self) -> bool
        ensures { self.new.history ≡ self.old.history }
    {
        mem::replace(&mut self.more, false)
    }

    /// Accepts the next connection of a door, and registers it at the poll under the next free number. Bytes
    /// that are written to it go out at once, and a silent device is probed.
    fn accept(&mut self, door: Door) -> io::Result<(Link, SocketAddr)>
        ensures failures { self.new.failures ≡ self.old.failures }
        ensures calls { self.new.history ≡ self.old.history }
    {
        let (mut stream, peer) = self.listen_sockets.accept(door)?;
        stream.set_nodelay(true)?;
        self.poll.registry().register(
            &mut stream,
            Token(self.links.vacant_key()),
            Interest::READABLE | Interest::WRITABLE,
        )?;
        let device = door == Door::Devices;
        let _probed = device && probe(&stream);
        let link = Link::new(self.alloc, stream, self.moment, device);
        Ok((link, peer))
    }

    /// Logs that no connection could be accepted at a door. Of consecutive failures the first is logged.
    fn miss(&mut self, door: Door)
        ensures failures { self.new.failures ≡ self.old.failures }
        ensures calls { self.new.history ≡ self.old.history }
    {
        if self.listen_sockets.failed(door) {
            self.note(ConnectionEvent::Missed(door));
        }
    }

    /// Records that the peer of a number has no time left.
    fn falls_silent(&mut self, id: WireId)
        ensures failures { self.new.failures ≡ self.old.failures }
        ensures calls { self.new.history ≡ self.old.history }
    {
        if let Some(link) = self.links.get_mut(id as usize) {
            link.leaves(CloseReason::Silent);
        }
        self.worked = true;
    }

    /// Records that the connection of a number is broken.
    fn breaks(&mut self, id: WireId)
        ensures failures { self.new.failures ≡ self.old.failures }
        ensures calls { self.new.history ≡ self.old.history }
    {
        if let Some(link) = self.links.get_mut(id as usize) {
            link.leaves(CloseReason::Broken);
        }
        self.worked = true;
    }

    /// Gives a connection up. A connection whose peer may still send is read for a while.
    fn lets_go(&mut self, link: Link)
        ensures failures { self.new.failures ≡ self.old.failures }
        ensures calls { self.new.history ≡ self.old.history }
    {
        if link.leave() == CloseReason::Served {
            let stream = link.into_stream();
            let _kept = self.lingerings.add(&self.poll, stream, self.moment);
        }
    }

    /// Returns the answer of a read or a write of a connection that failed. `over` indicates whether the peer has no
    /// time left.
    fn failed(&mut self, id: WireId, error: io::Error, over: bool) -> Progress<usize>
        ensures count { (room : ℕ) → IsCount result room }
        ensures cause { HasCause self.old.failures self.new.failures result }
        ensures calls { self.new.history ≡ self.old.history }
    {
        if self.counts_fault(error) {
            self.breaks(id);
            return Progress::Fault;
        }
        if over {
            self.falls_silent(id);
            return Progress::End;
        }
        Progress::Waiting
    }

    /// Counts a failed call, unless it only would have had to wait or the count is full. Returns whether it
    /// was counted.
    fn counts_fault(&mut self, error: io::Error) -> bool
        ensures failures { self.new.failures ≡ (if result then self.old.failures + 1 else self.old.failures) }
        ensures calls { self.new.history ≡ self.old.history }
    {
        match error.kind() {
            ErrorKind::WouldBlock | ErrorKind::Interrupted => false,
            _ if self.failures == u64::MAX => false,
            _ => {
                self.failures += 1;
                true
            }
        }
    }

    /// Accepts a connection. A failed accept doesn't count as work: if the system has no descriptor left, the
    /// next accept is tried after a wait.
    fn try_accept(&mut self, door: Door) -> Progress<WireId>
        ensures cause { HasCause self.old.failures self.new.failures result }
        ensures calls { self.new.history ≡ self.old.history }
    {
        if !self.listen_sockets.may_have(door) {
            return Progress::Waiting;
        }
        self.accept_next(door)
    }

    /// Accepts a connection at a door that may have one. It isn't inlined into [`Sockets::try_accept`], since most
    /// accepts of a turn have to wait.
    #[inline(never)]
    fn accept_next(&mut self, door: Door) -> Progress<WireId>
        ensures cause { HasCause self.old.failures self.new.failures result }
        ensures calls { self.new.history ≡ self.old.history }
    {
        let (link, peer) = match self.accept(door) {
            Ok(accepted) => accepted,
            Err(error) => {
                return if self.counts_fault(error) {
                    self.miss(door);
                    Progress::Fault
                } else {
                    Progress::Waiting
                };
            }
        };
        self.worked = true;
        let Ok(place) = self.links.insert(link) else {
            return Progress::End;
        };
        let Ok(id) = u32::try_from(place) else {
            return Progress::End;
        };
        self.note(ConnectionEvent::Came { id, door, peer });
        Progress::Done(id)
    }

    /// Reads bytes of a connection into the beginning of the buffer.
    fn try_read(&mut self, id: WireId, buffer: &mut [u8]) -> Progress<usize>
        ensures count { IsCount result (length buffer.old) }
        ensures cause { HasCause self.old.failures self.new.failures result }
        ensures calls { self.new.history ≡ self.old.history }
    {
        if buffer.is_empty() {
            return Progress::Waiting;
        }
        let Some(link) = self.links.get(id as usize) else {
            return Progress::End;
        };
        if link.is_idle(self.moment) {
            return Progress::Waiting;
        }
        self.read_link(id, buffer)
    }

    /// Reads bytes of a connection that may have some. It isn't inlined into [`Sockets::try_read`], since most reads of
    /// a turn are of idle connections.
    #[inline(never)]
    fn read_link(&mut self, id: WireId, buffer: &mut [u8]) -> Progress<usize>
        ensures count { IsCount result (length buffer.old) }
        ensures cause { HasCause self.old.failures self.new.failures result }
        ensures calls { self.new.history ≡ self.old.history }
    {
        let moment = self.moment;
        let Some(link) = self.links.get_mut(id as usize) else {
            return Progress::End;
        };
        let over = link.is_over(moment);
        match link.read(buffer, moment) {
            Ok(0) => {
                link.leaves(CloseReason::Left);
                self.worked = true;
                Progress::End
            }
            Ok(count) => {
                self.worked = true;
                self.more |= count == buffer.len();
                Progress::Done(count)
            }
            Err(error) => self.failed(id, error, over),
        }
    }

    /// Writes a prefix of the bytes, which lie in parts.
    fn try_write(&mut self, id: WireId, bytes: &[IoSlice<'_>]) -> Progress<usize>
        ensures count { IsCount result (length (io_slices_bytes bytes.now)) }
        ensures cause { HasCause self.old.failures self.new.failures result }
        ensures calls { self.new.history ≡ self.old.history }
    {
        let moment = self.moment;
        let Some(link) = self.links.get_mut(id as usize) else {
            return Progress::End;
        };
        let over = link.is_over(moment);
        match link.write(bytes, moment) {
            Ok(0) => Progress::Waiting,
            Ok(count) => {
                self.worked = true;
                Progress::Done(count)
            }
            Err(error) => self.failed(id, error, over),
        }
    }

    /// Closes all connections. These closes are no calls of the wire.
    pub fn close_all(&mut self)
        ensures { self.new.history ≡ self.old.history }
    {
        for key in 0..self.links.capacity() {
            if let Ok(id) = u32::try_from(key) {
                self.remove(id);
            }
        }
    }

    /// Removes the connection of a number, if there is one.
    fn remove(&mut self, id: WireId)
        ensures { self.new.history ≡ self.old.history }
    {
        if let Some(link) = self.links.try_remove(id as usize) {
            self.note(ConnectionEvent::Went {
                id,
                leave: link.leave(),
            });
            self.lets_go(link);
        }
        self.worked = true;
    }
}

impl Wire for Sockets {
    ghost polled = { λ old poll new. new.history.calls ≡ old.history.calls ++ poll ∷ [] };

    ghost faults = { λ sockets. sockets.failures };

    fn poll_accept(&mut self, door: Door) -> Progress<WireId> {
        let answer = self.try_accept(door);
        self.history.push(&Call::Accept(door, answer));
        answer
    }

    fn poll_read(&mut self, id: WireId, buffer: &mut [u8]) -> Progress<usize> {
        let answer = self.try_read(id, buffer);
        self.history.push(&Call::Read(id, answer, buffer));
        answer
    }

    fn poll_write(&mut self, id: WireId, bytes: &[IoSlice<'_>]) -> Progress<usize> {
        let answer = self.try_write(id, bytes);
        self.history.push(&Call::Write(id, bytes, answer));
        answer
    }

    fn close(&mut self, id: WireId) {
        self.remove(id);
        self.history.push(&Call::Close(id));
    }

    fn failures(&self) -> u64 {
        self.failures
    }
}
