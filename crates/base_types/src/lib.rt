//! The types that all crates of the server share: ids, moments, priorities, limits, the forms of names, the
//! needs of a job, the values of job-hold-until, the state of a device at a moment, and the reports of a
//! device.
//!
//! Each type has its range: a number out of range can't be made, as [`JobId::new`] shows. The forms
//! ([`is_name`], [`is_media`], [`is_format`], [`is_uri_base`]) are here and not in `text`, since their
//! lengths are limits of the server. The crate makes no decisions: the crates above change jobs and devices,
//! and `text` has functions on any bytes. Rows of the crates above run its calls.
//!
//! Tests: `unit_tests`.
#![tactic(auto)]

mod device;
mod finishings;
mod form;
mod hold;
mod ids;
mod limits;
mod memory_log;
mod moment;
mod needs;
mod priority;
mod report;
mod text;

pub use device::{Activity, DeviceNow, Interrupted, Medium, PrinterSet, Printing};
pub use finishings::Finishings;
pub use form::{is_format, is_media, is_name, is_uri_base};
pub use hold::Hold;
pub use ids::{DeviceId, JobId, PrinterId};
pub use limits::Limits;
pub use memory_log::MemoryLog;
pub use moment::Moment;
pub use needs::{Cause, Needs, Sides, Stranded};
pub use priority::Priority;
pub use report::Report;
pub use text::Text;
