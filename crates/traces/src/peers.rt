//! The connections of a trace, and the peers that send its bytes.
ghost use Rattle.std.specs.Prelude.{◌≡◌, ◌≤◌, ◌==◌, ◌++◌, ◌∷◌, nat_lt, ◌||◌, not, [], length, position, map, false, OnOk};
ghost use Rattle.std.specs.Option.{is_none, is_some, option_copied};
ghost use Rattle.std.specs.List.{position_or_len};
ghost use Rattle.traces.specs.Connections.{numbered, with_connection, is_closed, seen, emptied, sending, ending, changed_at, new_peer, may_send, is_open};
ghost use Rattle.traces.specs.Peers.{Holds, Opens, ChangesPeer, Prints, may_come};

use crate::line::{Input, Line, Opening};
use crate::line_fault::LineFault;
use crate::print::put_connections;
use crate::wire::TraceWire;
use std::alloc::{AllocError, Global};
use wires::{Door, MemoryPeer};

/// A connection of a trace.
#[derive(Clone, Copy)]
pub struct Connection {
    /// The number of the connection in the trace.
    pub number: u64,
    /// The place of the connection's peer on the wire.
    pub place: usize,
    /// Whether the close of the connection is printed already.
    pub gone: bool,
}

/// The connections of a trace, in the order of their numbers, and the wire of their peers.
#[derive(Drop)]
pub struct Peers {
    alloc: Global,
    pub connections: Vec<Connection>,
    pub wire: TraceWire,
}

impl Peers {
    /// Creates a wire without connections.
    pub fn new(alloc: Global) -> Peers
        ensures { Holds [] [] false result }
    {
        Peers {
            alloc,
            connections: Vec::new(alloc),
            wire: TraceWire::new(alloc),
        }
    }

    /// The reason why a line may not come now: it opens a connection of a number that another connection has
    /// or had, or no connection of its number may get more bytes.
    pub fn objection(&self, line: &Line) -> Option<LineFault>
        ensures { is_none result ≡ may_come line.now self.now.connections.items self.now.wire.memory.peers.items }
    {
        match line {
            Line::At(_) | Line::Ipp(_) | Line::Device(_, _) | Line::Tick => None,
            Line::Open(opening) => self.unless_new(opening.number),
            Line::In(input) => self.unless_open(input.number),
            Line::End(number) => self.unless_open(*number),
        }
    }

    /// The fault of an opening, if a connection of its number was opened.
    fn unless_new(&self, number: u64) -> Option<LineFault>
        ensures { is_none result ≡ not (is_some (numbered number self.now.connections.items)) }
    {
        match numbered(&self.connections, number) {
            Some(_) => Some(LineFault::Given),
            None => None,
        }
    }

    /// The fault that no connection of a number may get more bytes, if none may.
    fn unless_open(&self, number: u64) -> Option<LineFault>
        ensures { is_none result ≡ is_open number self.now.connections.items self.now.wire.memory.peers.items }
    {
        match numbered(&self.connections, number) {
            Some(connection) => self.unless_sending(connection.place),
            None => Some(LineFault::NotOpen),
        }
    }

    /// The fault that the peer at a place may not send more, if it may not.
    fn unless_sending(&self, place: usize) -> Option<LineFault>
        ensures { is_none result ≡ may_send place self.now.wire.memory.peers.items }
    {
        match self.wire.memory.peers.get(place) {
            Some(peer) if !peer.ended => None,
            _ => Some(LineFault::NotOpen),
        }
    }

    /// Opens a connection, whose peer has sent nothing. The only error is out of memory.
    pub fn open(&mut self, opening: Opening) -> Result<(), AllocError>
        ensures { OnOk result (Opens opening self.old self.new) }
    {
        let place = self.wire.memory.peers.len();
        self.add_peer(opening.door)?;
        let connection = Connection {
            number: opening.number,
            place,
            gone: false,
        };
        put_connection(&mut self.connections, connection)
    }

    /// Adds a peer that has sent nothing. The only error is out of memory.
    fn add_peer(&mut self, door: Door) -> Result<(), AllocError>
        ensures { OnOk result (Holds self.old.connections.items (self.old.wire.memory.peers.items ++ new_peer door ∷ []) self.old.wire.failed self.new) }
    {
        let input = Vec::new(self.alloc);
        let peer = MemoryPeer::new(self.alloc, door, input, usize::MAX, usize::MAX);
        self.wire.memory.peers.push(peer)?;
        Ok(())
    }

    /// Appends bytes to those that the peer of a connection sends, if there is one of the number. The only
    /// error is out of memory.
    pub fn send(&mut self, input: &Input) -> Result<(), AllocError>
        ensures { OnOk result (ChangesPeer input.now.number (sending input.now.bytes.items) self.old self.new) }
    {
        match numbered(&self.connections, input.number) {
            Some(connection) => {
                send_at(&mut self.wire.memory.peers, connection.place, &input.bytes)
            }
            None => Ok(()),
        }
    }

    /// Ends the stream of the peer of a connection, if there is one of the number.
    pub fn end(&mut self, number: u64)
        ensures { ChangesPeer number ending self.old self.new }
    {
        if let Some(connection) = numbered(&self.connections, number) {
            end_at(&mut self.wire.memory.peers, connection.place);
        }
    }

    /// Appends the lines of the connections: the bytes that each peer got since the call before, if any, and
    /// its close. The only error is out of memory.
    pub fn print(&mut self, output: &mut Vec<u8>) -> Result<(), AllocError>
        ensures { OnOk result (Prints self.old output.old.items self.new output.new.items) }
    {
        put_connections(
            self.alloc,
            output,
            &self.connections,
            &self.wire.memory.peers,
        )?;
        mark_closed(&mut self.connections, &self.wire.memory.peers);
        empty_all(&mut self.wire.memory.peers);
        Ok(())
    }
}

/// The connection of a number.
fn numbered(connections: &[Connection], number: u64) -> Option<&Connection>
    ensures { option_copied result ≡ numbered number connections.now }
{
    connections
        .iter()
        .find(|connection| connection.number == number)
}

/// Inserts a connection before the first of a greater number. The only error is out of memory.
fn put_connection(connections: &mut Vec<Connection>, added: Connection) -> Result<(), AllocError>
    ensures { OnOk result (connections.new.items ≡ with_connection added connections.old.items) }
{
    let place = place_of(connections, added.number);
    connections.insert(place, added)?;
    Ok(())
}

/// The place of the first connection of a greater number, or the length of the list if there is none.
fn place_of(connections: &[Connection], number: u64) -> usize
    ensures place { result ≡ position_or_len (λ c. nat_lt number c.number) connections.now }
    ensures inside { result ≤ length connections.now }
{
    first_above(connections, number).unwrap_or(connections.len())
}

/// The place of the first connection of a greater number.
fn first_above(connections: &[Connection], number: u64) -> Option<usize>
    ensures { result ≡ position (λ c. nat_lt number c.number) connections.now }
{
    connections
        .iter()
        .position(|connection| number < connection.number)
}

/// Records which connections were closed.
fn mark_closed(connections: &mut [Connection], peers: &[MemoryPeer])
    ensures { connections.new ≡ map (seen peers.now) connections.old }
{
    for connection in connections.iter_mut() {
        mark(connection, peers);
    }
}

/// Records whether a connection was closed.
fn mark(connection: &mut Connection, peers: &[MemoryPeer])
    ensures { connection.new ≡ seen peers.now connection.old }
{
    connection.gone = connection.gone || is_closed(peers, connection.place);
}

/// Returns whether the peer at a place was closed.
fn is_closed(peers: &[MemoryPeer], place: usize) -> bool
    ensures { result ≡ is_closed peers.now place }
{
    match peers.get(place) {
        Some(peer) => peer.closed,
        None => false,
    }
}

/// Removes the bytes that the peers got.
fn empty_all(peers: &mut [MemoryPeer])
    ensures { peers.new ≡ map emptied peers.old }
{
    for peer in peers.iter_mut() {
        empty(peer);
    }
}

/// Removes the bytes that a peer got.
fn empty(peer: &mut MemoryPeer)
    ensures { peer.new ≡ emptied peer.old }
{
    peer.taken.clear();
}

/// The peer at a place sends these bytes too. The only error is out of memory.
fn send_at(peers: &mut [MemoryPeer], place: usize, bytes: &[u8]) -> Result<(), AllocError>
    ensures { OnOk result (peers.new ≡ changed_at place (sending bytes.now) peers.old) }
{
    if place < peers.len() {
        send(&mut peers[place], bytes)?;
    }
    Ok(())
}

fn send(peer: &mut MemoryPeer, bytes: &[u8]) -> Result<(), AllocError>
    ensures { OnOk result (peer.new ≡ sending bytes.now peer.old) }
{
    peer.input.extend_from_slice(bytes)
}

/// The peer at a place sends nothing more.
fn end_at(peers: &mut [MemoryPeer], place: usize)
    ensures { peers.new ≡ changed_at place ending peers.old }
{
    if place < peers.len() {
        end(&mut peers[place]);
    }
}

fn end(peer: &mut MemoryPeer)
    ensures { peer.new ≡ ending peer.old }
{
    peer.ended = true;
}
