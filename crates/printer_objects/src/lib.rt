//! The objects that clients see: the state of a printer, the attributes of printers and jobs (RFC 8011,
//! sections 5.4, 5.3 and 5.2) as groups of a response, and the offer of a printer ([`Offer`]).
//!
//! The lists of supported values are also those in which a request's values are looked up. The contracts
//! determine the state and its reason. A group has exactly the requested attributes of the tables in
//! `docs/ATTRIBUTES.md`, in the table's order, with their tags and values. The crate keeps no jobs and reads
//! no clock: its arguments have the data of the values, such as whether a job keeps the printer busy
//! ([`keeps_busy`]). Only the functions that make attributes take memory.
//!
//! Examples: the traces in `crates/play_examples/data`.
#![tactic(auto)]

mod attribute;
mod created;
mod document_format;
mod finishing;
mod job_attribute;
mod job_shown;
mod law;
mod named;
mod offer;
mod offered;
mod operation;
mod printer_attribute;
mod printer_shown;
mod requested;
mod state;
mod together;

pub use created::created_job_attributes;
pub use finishing::{Finishing, NO_FINISHING};
pub use job_attribute::JobAttribute;
pub use job_shown::{JobShown, job_attributes, job_uri, printer_uri};
pub use law::groups_are_spelt;
pub use offer::{Offer, printer_formats};
pub use operation::Operation;
pub use printer_attribute::PrinterAttribute;
pub use printer_shown::{PrinterShown, printer_attributes};
pub use requested::Requested;
pub use state::{PrinterReason, PrinterState, keeps_busy, printer_reason, printer_state};
