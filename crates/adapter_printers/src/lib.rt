//! The printers of an adapter: printers on the network, and a folder.
//!
//! A [`Printer`] takes a job, and goes on with it in each turn: it sends the octets that an
//! [`adapter_core::AdapterState`] allows, and returns the result. There are two kinds: a [`Folder`], and a
//! [`NetworkPrinter`] with a [`Protocol`]: [`AppSocket`], [`Pjl`], [`Lpd`] or [`Ipp`]. A [`Connector`] makes a
//! connection, and tries again after a pause if it can't be made. The connections are those of a [`Network`]:
//! [`Sockets`] has `mio`'s.
//!
//! [`IppPrinter`] has the bytes that are written to a printer of IPP, and the effect of its replies on a job
//! (RFC 8010, RFC 8011), without sockets. It does one task after the other, each on a connection of its own.
//! It asks for the printer's state every ten seconds, sends a job, asks about the job until the job has
//! ended, soon at first and finally every second, and cancels a job that was given up. It keeps the printer's
//! last reply, and passes only those options of a job that the reply reports as supported. The octets of a
//! job stay in the adapter's state. The requests are framed, and the replies read, by the client of `http1`.
//!
//! The functions are proved safe and to end. For each answer of IPP about a job, the impressions that are new
//! are reported, also those of the last answer. The contracts of the octets that a printer is sent and of the
//! reports are in `adapter_core`.
//!
//! Tests: `adapter_tests`.
#![tactic(auto)]

mod address;
mod answer;
mod app_socket;
mod backlog;
mod connector;
mod exchange;
mod folder;
mod format;
mod host_port;
mod ipp;
mod ipp_printer;
mod job;
mod link;
mod lpd;
mod network_printer;
mod pjl;
mod printer;
mod printer_event;
mod printer_link;
mod protocol;
mod send_buffer;
mod socket_table;
mod stream;
mod task;
mod task_outcome;

pub use address::IppAddress;
pub use app_socket::AppSocket;
pub use connector::{Connector, Reached};
pub use folder::{Folder, try_folder};
pub use format::{Format, MediaType};
pub use host_port::HostPort;
pub use ipp::Ipp;
pub use ipp_printer::IppPrinter;
pub use link::{Link, Sockets, has_to_wait};
pub use lpd::Lpd;
pub use network_printer::NetworkPrinter;
pub use pjl::Pjl;
pub use printer::Printer;
pub use printer_event::{Breach, PrinterEvent};
pub use printer_link::PrinterLink;
pub use protocol::Protocol;
pub use stream::{Network, Peer, Readiness, Stream};
pub use task_outcome::{LeftOut, ReplyBreach, ReplyFault, TaskOutcome};
