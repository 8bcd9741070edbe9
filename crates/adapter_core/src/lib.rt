//! The adapter of a printer without sockets and a clock: the device's side of the protocol with the server,
//! the state of an adapter between its server and its printer, measured rates, and the statuses of PJL.
//!
//! An [`OrderReader`] gives exactly the orders of the bytes that it was fed, however segmented, with the
//! octets of each job, and then the first fault. [`write_report`] appends exactly a report's line. Each side
//! reads the orders or the report that the other side wrote ([`orders_read_back`], [`report_read_back`]). The
//! server's side is in `device_link`. `docs/DEVICES.md` describes the protocol.
//!
//! An [`AdapterState`] takes the events of the server (orders, octets, cancels) and of the printer (octets
//! taken, its state, that a job is printed or can't be), and returns the reports that are due. Its contracts
//! are about its whole life, for any events. Each job is answered once, by DONE or FAIL with its own id. The
//! octets sent for a job are its octets, in order and as often as they are to be sent, and all of them if
//! DONE was reported. After a cancel none is sent. READY and STOP are reported by the printer's state, and
//! not twice. `specs/Promises.antt` has the four promises in a line or two for each event.
//!
//! [`LoadedMedia`] has the loaded media of a printer, which are reported if the last report was another.
//! [`Pauses`] has the times at which a printer that is away is tried again: the pauses double, up to a
//! longest one.
//!
//! The rates and the setup of a printer are measured from its jobs. The time of a job on a device is its
//! setup, and its rate for each impression. [`Samples`] has sums over samples of jobs, and returns the setup
//! and the rate of least squares: the solution of the normal equations, in whole ms within the limits of the
//! settings. If the samples are on a line, the result is that line ([`setup_is_found`], [`rate_is_found`]).
//! [`Measurement`] takes the samples of jobs while they are printed, and is written as lines of the settings.
//!
//! A [`PjlReader`] takes the bytes that a printer sends by PJL one after the other, and gives exactly the
//! statuses of the stream: each message up to its form feed, whatever else is between, of any length.
//!
//! Tests: `unit_tests`.
#![tactic(auto)]

mod adapter_state;
mod least_squares_law;
mod measurement;
mod media;
mod order;
mod order_fault;
mod order_line;
mod order_reader;
mod pauses;
mod pjl_law;
mod pjl_message;
mod pjl_reader;
mod pjl_status;
mod printer_state;
mod protocol_law;
mod quotient;
mod report;
mod sample;
mod samples;
mod work;

pub use adapter_state::AdapterState;
pub use least_squares_law::{rate_is_found, setup_is_found};
pub use measurement::Measurement;
pub use media::LoadedMedia;
pub use order::{JobOrder, Order, OrderItem};
pub use order_fault::{OrderError, OrderFault};
pub use order_reader::OrderReader;
pub use pauses::Pauses;
pub use pjl_law::segmentation_keeps_statuses;
pub use pjl_message::read_pjl_message;
pub use pjl_reader::PjlReader;
pub use pjl_status::PjlStatus;
pub use printer_state::PrinterState;
pub use protocol_law::{orders_read_back, report_read_back};
pub use report::write_report;
pub use sample::Sample;
pub use samples::Samples;
