//! The connections of a server under their keys. Each function acts on the connection under one key.
ghost use Rattle.std.specs.Prelude.{◌≡◌, ◌≢◌, ◌≤◌, ◌<◌, ℕ, true, false, None, Some, IsTrue, IsFalse, IfSome, IfNone};
ghost use Rattle.std.specs.Option.{option_map_or};
ghost use Rattle.slab.specs.Slab.{get};
ghost use Rattle.connections.specs.Outgoing.{bytes_of, is_job};
ghost use Rattle.connections.specs.Connections.{ConnectionState, is_broken, is_ended, superseded, is_read, is_done};
ghost use Rattle.connections.specs.Slots.{EnqueuesAt, IsGrowth, closes_at, IsReadAt, AsksAt, FeedsAt, changed_at, device_at, is_of, broken_at, ended_at, IsIn, LeavesAs, OffersAt};

use crate::ask::Ask;
use crate::connection::{Connection, Fed};
use crate::outgoing::Outgoing;
use crate::queue::Offered;
use base_types::DeviceId;
use settings_file::Settings;
use slab::Slab;
use std::alloc::Global;
use wires::{Door, Wire, WireId};

/// What a connection asks, with the number of the connection.
#[derive(Drop)]
pub struct ConnectionAsk {
    /// The number of the connection on the wire.
    pub id: WireId,
    pub ask: Ask,
}

/// Returns what the connection under a key asks next.
pub fn next(
    connections: &mut Slab<Connection>,
    key: usize,
    settings: &Settings,
) -> Option<ConnectionAsk>
    ensures { AsksAt settings.now key result connections.old.slots connections.new.slots }
{
    let connection = connections.get_mut(key)?;
    let id = connection.id();
    match connection.next(settings) {
        Some(ask) => Some(ConnectionAsk { id, ask }),
        None => None,
    }
}

/// Enqueues a message on the connection under a key. Returns its number if it broke, since memory was refused.
pub fn enqueue(
    connections: &mut Slab<Connection>,
    key: usize,
    outgoing: &Outgoing<'_>,
) -> Option<WireId>
    ensures enqueues { EnqueuesAt key (bytes_of outgoing.now) result connections.old.slots connections.new.slots }
    ensures full { is_job outgoing.now ≡ false → IsGrowth key (bytes_of outgoing.now) result connections.old.slots }
{
    let connection = connections.get_mut(key)?;
    if connection.enqueue(outgoing) {
        return Some(connection.id());
    }
    None
}

/// Feeds a segment to the connection under a key. Returns `None` if there is no connection.
pub fn feed(connections: &mut Slab<Connection>, key: usize, segment: &[u8]) -> Option<Fed>
    ensures { FeedsAt key segment.now result connections.old.slots connections.new.slots }
{
    Some(connections.get_mut(key)?.feed(segment))
}

/// Records that the input of the connection under a key has ended.
pub fn end(connections: &mut Slab<Connection>, key: usize)
    ensures { connections.new.slots ≡ changed_at key is_ended connections.old.slots }
{
    if let Some(connection) = connections.get_mut(key) {
        connection.end();
    }
}

/// Marks the connection under a key as broken.
pub fn break_off(connections: &mut Slab<Connection>, key: usize)
    ensures { connections.new.slots ≡ changed_at key is_broken connections.old.slots }
{
    if let Some(connection) = connections.get_mut(key) {
        connection.break_off();
    }
}

/// Marks the connection under a key as broken, since its device has another connection. The connection has no
/// device then.
pub fn supersede(connections: &mut Slab<Connection>, key: usize)
    ensures { connections.new.slots ≡ changed_at key superseded connections.old.slots }
{
    if let Some(connection) = connections.get_mut(key) {
        connection.supersede();
    }
}

/// Returns whether the connection under a key closes after the reply to its last request.
pub fn closes(connections: &Slab<Connection>, key: usize) -> bool
    ensures { result ≡ closes_at key connections.now.slots }
{
    match connections.get(key) {
        Some(connection) => connection.closes(),
        None => false,
    }
}

/// Returns whether the connection under a key is broken.
pub fn is_broken(connections: &Slab<Connection>, key: usize) -> bool
    ensures { result ≡ broken_at connections.now.slots key }
{
    match connections.get(key) {
        Some(connection) => connection.is_broken(),
        None => false,
    }
}

/// Returns whether the input of the connection under a key has ended.
pub fn has_ended(connections: &Slab<Connection>, key: usize) -> bool
    ensures { result ≡ ended_at connections.now.slots key }
{
    match connections.get(key) {
        Some(connection) => connection.has_ended(),
        None => false,
    }
}

/// The number of the connection under a key, if it is to be read.
pub fn to_read(connections: &Slab<Connection>, key: usize) -> Option<WireId>
    ensures some { IfSome result (IsReadAt key connections.now.slots) }
    ensures none { IfNone result ((c : ConnectionState) → get connections.now key ≡ Some c → is_read c ≡ false) }
{
    let connection = connections.get(key)?;
    if connection.is_read() {
        Some(connection.id())
    } else {
        None
    }
}

/// Returns whether the connection under a key is done.
pub fn is_done(connections: &Slab<Connection>, key: usize) -> bool
    ensures { result ≡ option_map_or is_done (get connections.now key) false }
{
    match connections.get(key) {
        Some(connection) => connection.is_done(),
        None => false,
    }
}

/// Inserts a new connection, accepted at a door. Returns whether memory sufficed; if not, nothing is changed.
pub fn insert(connections: &mut Slab<Connection>, alloc: Global, id: WireId, door: Door) -> bool
    ensures taken { IsTrue result → IsIn door id connections.old.slots connections.new.slots }
    ensures refused { IsFalse result → connections.new.slots ≡ connections.old.slots }
{
    let Ok(connection) = Connection::new(alloc, id, door) else {
        return false;
    };
    connections.insert(connection).is_ok()
}

/// Closes the connection under a key. Returns the device that gave its name on it, if one did.
pub fn close<W: Wire>(
    connections: &mut Slab<Connection>,
    key: usize,
    wire: &mut W,
) -> Option<DeviceId>
    ensures { LeavesAs W.polled key wire.old connections.old.slots result wire.new connections.new.slots }
{
    let connection = connections.try_remove(key)?;
    wire.close(connection.id());
    connection.device()
}

/// Offers a prefix of the waiting bytes of the connection under a key to the wire, which may take some of
/// them.
pub fn offer<W: Wire>(connections: &mut Slab<Connection>, key: usize, wire: &mut W) -> Offered
    ensures { OffersAt W.polled key connections.old.slots wire.old result connections.new.slots wire.new }
{
    match connections.get_mut(key) {
        Some(connection) => connection.offer(wire),
        None => Offered::Nothing,
    }
}

/// The device that gave its name on the connection under a key.
fn device_at(connections: &Slab<Connection>, key: usize) -> Option<DeviceId>
    ensures { result ≡ device_at connections.now.slots key }
{
    match connections.get(key) {
        Some(connection) => connection.device(),
        None => None,
    }
}

/// Returns whether a device gave its name on the connection under a key.
fn is_of(connections: &Slab<Connection>, device: DeviceId, key: usize) -> bool
    ensures { result ≡ is_of connections.now.slots device key }
{
    match device_at(connections, key) {
        Some(place) => place == device,
        None => false,
    }
}

/// One more than the greatest key of a connection; 0 if there is no connection.
pub fn keys(connections: &Slab<Connection>) -> usize
    ensures { (key : ℕ) → result ≤ key → get connections.now key ≡ None }
{
    let most = connections.capacity();
    match connections.iter().next_back() {
        Some((last, _)) => most.min(last.saturating_add(1)),
        None => 0,
    }
}

/// Returns the lowest key of a device's connections; no key if it has none.
pub fn key_of(connections: &Slab<Connection>, device: DeviceId) -> Option<usize>
    ensures some { IfSome result (λ key. is_of connections.now.slots device key ≡ true) }
    ensures lowest { IfSome result (λ key. (lower : ℕ) → lower < key → is_of connections.now.slots device lower ≡ false) }
    ensures none { IfNone result ((key : ℕ) → is_of connections.now.slots device key ≡ false) }
{
    for key in 0..keys(connections) {
        if is_of(connections, device, key) {
            return Some(key);
        }
    }
    None
}

/// Returns the lowest key of the device's connections other than `this`; no key if it has no other connection.
pub fn other_key_of(connections: &Slab<Connection>, device: DeviceId, this: usize) -> Option<usize>
    ensures some { IfSome result (λ key. is_of connections.now.slots device key ≡ true) }
    ensures other { IfSome result (λ key. key ≢ this) }
    ensures lowest { IfSome result (λ key. (lower : ℕ) → lower < key → lower ≢ this → is_of connections.now.slots device lower ≡ false) }
    ensures none { IfNone result ((key : ℕ) → key ≢ this → is_of connections.now.slots device key ≡ false) }
{
    for key in 0..keys(connections) {
        if key != this && is_of(connections, device, key) {
            return Some(key);
        }
    }
    None
}
