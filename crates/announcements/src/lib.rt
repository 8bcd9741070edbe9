//! The announcement of a printer on its network, by which clients find the printer: multicast DNS (RFC 6762)
//! and DNS-based service discovery (RFC 6763), which a daemon such as Avahi speaks.
//!
//! [`write_service`] appends the text of the file that Avahi reads: a service group with the facts that a
//! client of IPP and a client of LPD need about the printer, as Apple's Bonjour Printing Specification 1.2.1
//! has them. [`printer_named`] and [`only_printer`] find a printer in settings, and [`ipp_port`] finds the
//! port that the base of URIs names. The crate connects to no daemon and opens no file. An announcement
//! states what the settings contain, not the current state of a device.
//!
//! `tools/clients/try_avahi.sh` shows that Avahi reads such a file, and that clients find the printer by
//! it. Tests: `unit_tests`.
#![tactic(auto)]

mod ability;
mod formats;
mod group;
mod port;
mod printer;
mod protocol;
mod record;
mod xml;

pub use group::{Ports, write_service};
pub use port::ipp_port;
pub use printer::{only_printer, printer_named};
