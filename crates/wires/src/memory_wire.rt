//! A wire in memory: all bytes that its peers send are there from the start, and the bytes that they get are
//! kept. It replaces sockets in runs that have to be reproducible.
ghost use Rattle.std.specs.Prelude.{◌≡◌, ◌<◌, ◌≤◌, ℕ, List, ◌++◌, length, take, IsTrue, IsFalse, IfSome, IfNone, IfOk, OnErr, Some, true, false, []};
ghost use Rattle.std.specs.Io.Slices.{io_slices_bytes};
ghost use Rattle.wires.specs.MemoryWire.{Sends, Gets, comes, next_at, is_open, ends_reading, ends_writing};

use crate::wire::{Door, Progress, Wire, WireId};
use std::alloc::{AllocError, Global};
use std::cmp::min;
use std::io::IoSlice;
use std::marker::Model;
use text::drop_prefix;

/// A peer: the bytes that it sends, and those that it has got.
#[derive(Drop)]
pub struct MemoryPeer {
    /// The door at which the peer comes in.
    pub door: Door,
    /// Whether the peer was accepted.
    pub accepted: bool,
    /// Whether the peer was closed: it sends no more bytes, and takes none.
    pub closed: bool,
    /// The bytes that are still to be read.
    pub input: Vec<u8>,
    /// The most bytes of one read.
    pub segment: usize,
    /// Whether the stream ends after the input.
    pub ended: bool,
    /// The bytes that the peer took.
    pub taken: Vec<u8>,
    /// The most bytes that one write takes.
    pub most: usize,
}

impl Model for MemoryPeer {
    ghost use Rattle.wires.specs.MemoryPeer.{PeerState};

    ghost Value = { PeerState };

    ghost view = { λ p. record {
      door = p.door;
      accepted = p.accepted;
      closed = p.closed;
      input = p.input.items;
      segment = p.segment;
      ended = p.ended;
      taken = p.taken.items;
      most = p.most;
    } };
}

/// A wire of peers. The number of a peer is its place. One poll, by its number, faults.
#[derive(Drop)]
pub struct MemoryWire {
    pub peers: Vec<MemoryPeer>,
    /// The number of polls so far.
    pub polls: u64,
    /// The number of the poll that faults.
    pub fault_at: u64,
    /// The number of faults so far.
    pub faults: u64,
}

impl MemoryWire {
    /// Creates a wire of peers. No poll faults, except for refused memory.
    pub fn new(peers: Vec<MemoryPeer>) -> MemoryWire
        ensures { result.peers.items ≡ peers.items }
    {
        MemoryWire {
            peers,
            polls: 0,
            fault_at: u64::MAX,
            faults: 0,
        }
    }

    /// Counts a poll. Returns whether it is the poll that faults, and was counted as a fault.
    fn fails(&mut self) -> bool
        ensures same { self.new.peers ≡ self.old.peers }
        ensures yes { IsTrue result → self.old.faults < self.new.faults }
        ensures never { IsFalse result → self.new.faults ≡ self.old.faults }
    {
        let polls = self.polls;
        self.polls = polls.saturating_add(1);
        polls == self.fault_at && self.counts_fault()
    }

    /// Counts a fault, unless the count is full. Returns whether it was counted.
    fn counts_fault(&mut self) -> bool
        ensures same { self.new.peers ≡ self.old.peers }
        ensures yes { IsTrue result → self.old.faults < self.new.faults }
        ensures never { IsFalse result → self.new.faults ≡ self.old.faults }
    {
        if self.faults == u64::MAX {
            return false;
        }
        self.faults += 1;
        true
    }

    /// The place of the first peer that comes in at a door and isn't accepted yet.
    fn next_peer(&self, door: Door) -> Option<usize>
        ensures { result ≡ next_at door self.now.peers.items }
    {
        self.peers.iter().position(|peer| peer.comes(door))
    }

    /// Returns whether a peer sends nothing more after its input.
    fn ends_reading(&self, id: WireId) -> bool
        ensures { result ≡ ends_reading id self.now.peers.items }
    {
        match self.peers.get(id as usize) {
            Some(peer) => peer.ended || peer.closed,
            None => true,
        }
    }

    /// Returns whether a peer takes no more bytes.
    fn ends_writing(&self, id: WireId) -> bool
        ensures { result ≡ ends_writing id self.now.peers.items }
    {
        match self.peers.get(id as usize) {
            Some(peer) => peer.closed,
            None => true,
        }
    }
}

impl MemoryPeer {
    /// Creates a peer that isn't accepted yet. A read brings at most `segment` bytes of its input, and a write
    /// takes at most `most` bytes.
    pub fn new(alloc: Global, door: Door, input: Vec<u8>, segment: usize, most: usize) -> MemoryPeer
        ensures { result ≡ record {
          door = door;
          accepted = false;
          closed = false;
          input = input.items;
          segment = segment;
          ended = false;
          taken = [];
          most = most;
        } }
    {
        MemoryPeer {
            door,
            accepted: false,
            closed: false,
            input,
            segment,
            ended: false,
            taken: Vec::new(alloc),
            most,
        }
    }

    /// Returns whether the peer comes in at a door, and isn't accepted yet.
    fn comes(&self, door: Door) -> bool
        ensures { result ≡ comes door self.now }
    {
        if self.accepted {
            return false;
        }
        match (self.door, door) {
            (Door::Ipp, Door::Ipp) | (Door::Lpd, Door::Lpd) | (Door::Devices, Door::Devices) =>
                true,
            _ => false,
        }
    }

    /// Returns whether the peer was accepted and not closed.
    fn is_open(&self) -> bool
        ensures { result ≡ is_open self.now }
    {
        self.accepted && !self.closed
    }

    /// Moves a segment of the input to the beginning of the buffer. Returns its length, or `None` if there is
    /// nothing to send.
    fn send(&mut self, buffer: &mut [u8]) -> Option<usize>
        ensures sent { IfSome result (λ n. Sends (take n buffer.new) self.old self.new) }
        ensures count { IfSome result (λ n. (0 < n) × (n ≤ length buffer.old)) }
        ensures none { IfNone result (self.new ≡ self.old) }
    {
        let n = min(min(self.input.len(), self.segment), buffer.len());
        if n == 0 || !self.is_open() {
            return None;
        }
        buffer[..n].copy_from_slice(&self.input[..n]);
        drop_prefix(&mut self.input, n);
        Some(n)
    }

    /// Takes a prefix of the bytes. Returns its length, or `None` if nothing is taken. The only error is out
    /// of memory.
    fn get(&mut self, bytes: &[u8]) -> Result<Option<usize>, AllocError>
        ensures got { IfOk result (λ taken. IfSome taken (λ n. Gets (take n bytes.now) self.old self.new)) }
        ensures count { IfOk result (λ taken. IfSome taken (λ n. (0 < n) × (n ≤ length bytes.now))) }
        ensures none { IfOk result (λ taken. IfNone taken (self.new ≡ self.old)) }
        ensures err { OnErr result (self.new ≡ self.old) }
    {
        let n = min(bytes.len(), self.most);
        if n == 0 || !self.is_open() {
            return Ok(None);
        }
        self.taken.extend_from_slice(&bytes[..n])?;
        Ok(Some(n))
    }

    /// Closes the peer.
    fn leave(&mut self)
        ensures { self.new ≡ record self.old { closed = true } }
    {
        self.closed = true;
    }
}

/// The first part of the bytes.
fn first_of<'a>(bytes: &[IoSlice<'a>]) -> &'a [u8]
    ensures { (rest : List ℕ) × (io_slices_bytes bytes.now ≡ result.now ++ rest) }
{
    match bytes {
        [first, ..] => first.as_slice(),
        [] => &[],
    }
}

impl Wire for MemoryWire {
    ghost use Rattle.wires.specs.MemoryWire.{MemoryPolls};

    ghost polled = { MemoryPolls };

    ghost faults = { λ w. w.faults };

    fn poll_accept(&mut self, door: Door) -> Progress<WireId> {
        if self.fails() {
            return Progress::Fault;
        }
        match self.next_peer(door) {
            Some(place) => match u32::try_from(place) {
                Ok(id) => {
                    self.peers[place].accepted = true;
                    Progress::Done(id)
                }
                Err(_) => Progress::Waiting,
            },
            None => Progress::Waiting,
        }
    }

    fn poll_read(&mut self, id: WireId, buffer: &mut [u8]) -> Progress<usize> {
        if self.fails() {
            return Progress::Fault;
        }
        let place = id as usize;
        if place >= self.peers.len() {
            return Progress::End;
        }
        let ends = self.ends_reading(id);
        match self.peers[place].send(buffer) {
            Some(n) => Progress::Done(n),
            None if ends => Progress::End,
            None => Progress::Waiting,
        }
    }

    fn poll_write(&mut self, id: WireId, bytes: &[IoSlice<'_>]) -> Progress<usize> {
        if self.fails() {
            return Progress::Fault;
        }
        if self.ends_writing(id) {
            return Progress::End;
        }
        let place = id as usize;
        match self.peers[place].get(first_of(bytes)) {
            Ok(Some(n)) => Progress::Done(n),
            Ok(None) => Progress::Waiting,
            Err(_) => {
                if self.counts_fault() {
                    Progress::Fault
                } else {
                    Progress::Waiting
                }
            }
        }
    }

    fn close(&mut self, id: WireId) {
        let place = id as usize;
        if place < self.peers.len() {
            self.peers[place].leave();
        }
    }

    fn failures(&self) -> u64 {
        self.faults
    }
}
