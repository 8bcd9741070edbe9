//! The system's sockets as a wire.
//!
//! [`Sockets`] is a [`wires::Wire`] of the system's sockets. Its calls never block. A client that is silent
//! for a minute counts as ended. The network after the sockets is the system's, and isn't proved. The
//! contracts are those of every wire: a call moves at most as many bytes as it may, and a fault is counted.
//! Each call of the wire is added with its answer to the [`CallHistory`] of the sockets, and nothing else
//! changes that.
//!
//! Tests: `unit_tests`.
#![tactic(auto)]

mod call_history;
mod connection_log;
mod idle_timeout;
mod keepalive;
mod linger_limit;
mod lingering;
mod link;
mod listen_socket;
mod read_ahead;
mod sockets;

pub use call_history::CallHistory;
pub use connection_log::{CloseReason, ConnectionEvent, ConnectionLog};
pub use listen_socket::Listening;
pub use sockets::Sockets;
