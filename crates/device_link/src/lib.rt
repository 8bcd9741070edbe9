//! The line protocol between the server and its devices: the reports of a device, read from a stream that
//! comes in chunks of any length, and the lines that the server sends to it.
//!
//! A [`LinkReader`] gives exactly the reports of the whole lines that it was fed, in order, and then the
//! first fault. [`read_report`] reads one line by itself. [`write_job`] and [`write_cancel`] append exactly
//! their lines. The crate opens no connection, and doesn't apply a report to a job or a device.
//! `docs/DEVICES.md` describes the protocol for authors of adapters.
//!
//! Examples: the traces in `crates/play_examples/data`.
#![tactic(auto)]

mod fault;
mod law;
mod line;
mod number;
mod order;
mod reader;

pub use fault::{LinkError, LinkFault};
pub use law::{given_first, one_prefix};
pub use line::read_report;
pub use number::MOST_PRINTED;
pub use order::{write_cancel, write_job};
pub use reader::LinkReader;
