//! The connections of a server: the stream of each peer, its asks to the server, and the bytes that are due.
//!
//! A [`Connection`] has an IPP client, an LPD client or a device as its peer. It is fed the bytes of its
//! peer, and acts by itself on bodies of HTTP, files of LPD and names of devices. The rest are asks to the
//! server, one at a time ([`Connection::next`]). Bytes that are due wait in a [`SendQueue`]
//! until a wire takes them: [`SendQueue::offer`] offers a prefix of them, and removes what the wire took. Up to
//! [`RESERVED_BYTES`] waiting bytes need no memory beyond what was reserved at the start, and the octets of
//! documents are shared with the spool.
//!
//! Its contracts are relations on an entry: all bytes that were read, the part of them that was acted
//! on, all bytes that were due and all bytes that were taken (`specs/Entry.antt`). Examples: the
//! sessions of `unit_tests`, and the traces in `crates/play_examples/data`.
#![tactic(auto)]

mod ask;
mod connection;
mod device;
mod ipp_client;
mod law;
mod lpd_client;
mod outgoing;
mod peer;
mod queue;
mod step;
pub mod table;

pub use ask::{AllocFailure, Ask, Client, Part};
pub use connection::{Connection, Fed};
pub use device::Device;
pub use ipp_client::IppClient;
pub use law::one_ask;
pub use lpd_client::LpdClient;
pub use outgoing::{Outgoing, OutgoingJob};
pub use peer::Peer;
pub use queue::{Offered, RESERVED_BYTES, SendQueue};
pub use step::{Due, Step};
