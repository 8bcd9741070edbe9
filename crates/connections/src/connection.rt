//! A connection with its peer and its waiting bytes.
ghost use Rattle.std.specs.Prelude.{◌≡◌, ◌<◌, ◌++◌, false, IfOk, IfSome, IsTrue, OnOk, OnErr, length};
ghost use Rattle.connections.specs.Outgoing.{bytes_of, is_job};
ghost use Rattle.connections.specs.declared.queue.TheConstants.{RESERVED_BYTES};
ghost use Rattle.connections.specs.SendQueue.{OffersPrefix};
ghost use Rattle.connections.specs.Entry.{opening_entry, ending, broken, superseded_entry};
ghost use Rattle.connections.specs.Steps.{due_bytes};
ghost use Rattle.connections.specs.Asking.{Asking, Feeds};
ghost use Rattle.connections.specs.Peers.{device_of, closes_of};
ghost use Rattle.connections.specs.Connections.{load, is_read, is_done, is_ended, is_broken, superseded, Takes, OutgrowsReserve, EnqueuesAs};
ghost use Rattle.connections.specs.Representation.{RepresentsConnection, Becomes};

use crate::ask::{AllocFailure, Ask};
use crate::outgoing::Outgoing;
use crate::peer::Peer;
use crate::queue::{Offered, SendQueue};
use crate::step::{Due, Step};
use base_types::{DeviceId, Limits};
use ipp_operations::ipp_refusal;
use settings_file::Settings;
use std::alloc::{AllocError, Global};
use std::marker::Model;
use wires::{Door, Wire, WireId};

/// The result of feeding a segment that was read.
#[derive(Clone, Copy, PartialEq, Eq)]
pub enum Fed {
    /// The connection is draining, and the segment was discarded.
    Discarded,
    Fed,
    /// Memory was refused, and the connection of this number broke.
    Refused(WireId),
}

/// A connection: its peer, and the bytes that wait to be taken by the wire. Each turn of a server looks at
/// all fields but the peer, which is large: so it is the last.
#[derive(Drop)]
pub struct Connection {
    id: WireId,
    /// Whether the input of the connection has ended.
    ended: bool,
    /// Whether bytes that are read from now on are discarded.
    draining: bool,
    /// Whether the connection is to be closed as by a fault.
    broken: bool,
    output: SendQueue,
    peer: Peer,
}

impl Model for Connection {
    ghost use Rattle.connections.specs.Connections.{ConnectionState};

    ghost Value = { ConnectionState };

    ghost view = { λ c. record {
      id = c.id;
      peer = c.peer;
      ended = c.ended;
      draining = c.draining;
      broken = c.broken;
      output = c.output;
    } };
}

impl Connection {
    /// Creates the connection of a number on the wire, accepted at a door. The only error is out of memory.
    pub fn new(alloc: Global, id: WireId, door: Door) -> Result<Connection, AllocError>
        ensures { IfOk result (RepresentsConnection (opening_entry door id)) }
    {
        Ok(Connection {
            id,
            peer: Peer::new(alloc, door),
            ended: false,
            draining: false,
            broken: false,
            output: SendQueue::new(alloc)?,
        })
    }

    /// The number of the connection on the wire.
    pub fn id(&self) -> WireId
        ensures { result ≡ self.now.id }
    {
        self.id
    }

    /// The device that gave its name on the connection.
    pub fn device(&self) -> Option<DeviceId>
        ensures { result ≡ device_of self.now.peer }
    {
        self.peer.device()
    }

    /// Returns whether the connection closes after the reply to the last request.
    pub fn closes(&self) -> bool
        ensures { result ≡ closes_of self.now.peer }
    {
        self.peer.closes()
    }

    /// Returns whether the input of the connection has ended.
    pub fn has_ended(&self) -> bool
        ensures { result ≡ self.now.ended }
    {
        self.ended
    }

    /// Returns whether the connection is to be closed as by a fault.
    pub fn is_broken(&self) -> bool
        ensures { result ≡ self.now.broken }
    {
        self.broken
    }

    /// Returns whether the connection is to be read: its input hasn't ended, and at most
    /// [`Limits::WAITING_OUTPUT_BYTES`] wait.
    pub fn is_read(&self) -> bool
        ensures { result ≡ is_read self.now }
    {
        !self.ended && !self.output.is_above(Limits::WAITING_OUTPUT_BYTES)
    }

    /// Returns whether the connection is done: its input has ended or it is draining, and no bytes wait.
    pub fn is_done(&self) -> bool
        ensures { result ≡ is_done self.now }
    {
        (self.ended || self.draining) && self.output.is_empty()
    }

    /// Records that the input of the connection has ended.
    pub fn end(&mut self)
        ensures is { self.new ≡ is_ended self.old }
        ensures becomes { Becomes (λ e new. new ≡ ending e) self.old self.new }
    {
        self.ended = true;
    }

    /// Marks the connection as broken: it is to be closed as by a fault.
    pub fn break_off(&mut self)
        ensures is { self.new ≡ is_broken self.old }
        ensures becomes { Becomes (λ e new. new ≡ broken e) self.old self.new }
    {
        self.broken = true;
    }

    /// Marks the connection as broken, since its device has another connection. The connection has no device
    /// then.
    pub fn supersede(&mut self)
        ensures is { self.new ≡ superseded self.old }
        ensures becomes { Becomes (λ e new. new ≡ superseded_entry e) self.old self.new }
    {
        self.peer.supersede();
        self.broken = true;
    }

    /// Feeds a segment that was read. A draining connection discards it; if memory is refused, the connection
    /// breaks.
    #[tactic(auto, using(crate::proofs::Entries::fed))]
    pub fn feed(&mut self, segment: &[u8]) -> Fed
        ensures { Becomes (Feeds segment.now result) self.old self.new }
    {
        if self.draining {
            return Fed::Discarded;
        }
        match self.peer.feed(segment) {
            Ok(()) => Fed::Fed,
            Err(_) => {
                self.broken = true;
                Fed::Refused(self.id)
            }
        }
    }

    /// Acts on the next whole item that was read and returns what the connection asks. Returns `None` if no
    /// item is whole, or the connection is draining or broken.
    #[tactic(auto, using(crate::proofs::Entries::asks, crate::proofs::Entries::rests, crate::proofs::Entries::counts_no_more))]
    pub fn next(&mut self, settings: &Settings) -> Option<Ask>
        ensures asks { Becomes (Asking settings.now result) self.old self.new }
        ensures falls { IfSome result (λ ask. load self.new < load self.old) }
    {
        if self.draining || self.broken {
            return None;
        }
        match self.peer.next(settings) {
            Some(step) => Some(self.take(step)),
            None => None,
        }
    }

    /// Takes a step and returns what the connection asks.
    fn take(&mut self, step: Step) -> Ask
        ensures { Takes step self.old result self.new }
    {
        match step {
            Step::Due { due, last } => {
                self.draining = last;
                match push(&mut self.output, due) {
                    Ok(()) => Ask::Nothing,
                    Err(_) => {
                        self.broken = true;
                        Ask::Broke(AllocFailure::Output)
                    }
                }
            }
            Step::Asks { ask, last } => {
                self.draining = last;
                ask
            }
            Step::Breaks(ask) => {
                self.broken = true;
                ask
            }
        }
    }

    /// Enqueues a message, unless the connection is broken. Returns whether the connection broke, since memory
    /// was refused.
    pub fn enqueue(&mut self, outgoing: &Outgoing<'_>) -> bool
        ensures enqueues { EnqueuesAs (bytes_of outgoing.now) result self.old self.new }
        ensures full { is_job outgoing.now ≡ false → IsTrue result → OutgrowsReserve (bytes_of outgoing.now) self.old }
    {
        if self.broken {
            return false;
        }
        let kept = self.output.push(outgoing);
        self.broken = kept.is_err();
        self.broken
    }

    /// Offers a prefix of the waiting bytes to the wire, which may take some of them.
    pub fn offer<W: Wire>(&mut self, wire: &mut W) -> Offered
        ensures offers { OffersPrefix W.polled self.old.id self.old.output wire.old result self.new.output wire.new }
        ensures rest { self.new ≡ record self.old { output = self.new.output } }
    {
        self.output.offer(self.id, wire)
    }
}

/// Appends the bytes that are due. The only error is out of memory, and leaves the queue as it was.
#[tactic(auto, unfolding(crate::specs::Steps::http_status))]
fn push(output: &mut SendQueue, due: Due) -> Result<(), AllocError>
    ensures ok { OnOk result (output.new ≡ output.old ++ due_bytes due) }
    ensures err { OnErr result (output.new ≡ output.old) }
    ensures full { OnErr result (RESERVED_BYTES < length (output.old ++ due_bytes due)) }
{
    match due {
        Due::Nothing => Ok(()),
        Due::Byte(byte) => output.push(&Outgoing::Bytes(&[byte])),
        Due::Continue => output.push(&Outgoing::Continue),
        Due::Refusal(refusal) => output.push(&Outgoing::Refusal(refusal)),
        Due::Status {
            closes,
            status,
            request,
        } => output.push(&Outgoing::Reply {
            closes,
            body: &ipp_refusal(status, request),
        }),
    }
}
