//! The log of connections that come and go.
use base_types::MemoryLog;
use std::net::SocketAddr;
use wires::{Door, WireId};

/// Why a connection is closed.
#[derive(Clone, Copy, PartialEq, Eq)]
pub enum CloseReason {
    /// The server is done with the connection.
    Served,
    /// The peer ended the connection.
    Left,
    /// The peer was silent for too long.
    Silent,
    /// The system reported it as broken.
    Broken,
}

/// An event of a connection: it comes or goes.
#[derive(Clone, Copy)]
pub enum ConnectionEvent {
    /// A connection of this number was accepted at a door.
    Came {
        id: WireId,
        door: Door,
        peer: SocketAddr,
    },
    /// A connection may wait at a door, and the system's accept failed.
    Missed(Door),
    /// The connection of this number is closed.
    Went {
        id: WireId,
        leave: CloseReason,
    },
}

/// The log of connections that come and go, as long as there is memory for it.
pub type ConnectionLog = MemoryLog<ConnectionEvent>;
