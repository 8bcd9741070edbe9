//! A wire between a server and its peers, and a wire in memory.
//!
//! A [`Wire`] is polled: each call is answered at once. [`MemoryWire`] has its peers in memory, with all
//! bytes that they send. The crate `sockets` has a wire of the system's sockets. The contracts of an engine
//! over any wire are in `server`.
//!
//! Tests: `unit_tests`.
#![tactic(auto)]

mod door;
mod memory_wire;
mod wire;

pub use memory_wire::{MemoryPeer, MemoryWire};
pub use wire::{Door, Progress, Wire, WireId};
