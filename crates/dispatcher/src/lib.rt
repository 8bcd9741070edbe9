//! The core of the server: jobs, devices, and the dispatch of jobs to devices.
//!
//! [`Core::handle`] takes one event: its step ([`Core::apply`]), the cancels of its effects, and a dispatch
//! ([`Core::dispatch`]), which plans the ready jobs and starts the jobs that can start. Whenever it makes a
//! plan, its priority classes are planned from the highest down. Given when the classes above leave each
//! device free, each class has the least total of estimated completion times among all ways to assign its
//! ready jobs to capable devices and order them. The plan's prices prove that to the checker, which reads the
//! plan alone. Each ready job without a capable device is named.
//!
//! The requests of IPP clients and of LPD clients are both events.
//!
//! The core reads no clock, no socket and no byte of a protocol: an event comes with its moment, and has all
//! fields of its request. The contracts are about estimated times, not about real ones.
//!
//! Examples: the traces in `crates/play_examples/data`. Tests of `Core::run`: `unit_tests`.
#![tactic(auto)]

mod answering;
mod apply;
mod cancel_job;
mod checks;
mod create_job;
mod dispatch;
mod get_attributes;
mod get_jobs;
mod handled;
mod hold_job;
mod law;
mod list_queue;
mod observer;
mod pause_printer;
mod print_job;
mod remove_jobs;
mod run;
mod send_document;
mod server_core;
mod submission;
mod submit_files;
mod validate_job;

pub use dispatch::Dispatched;
pub use handled::{Dispatch, Handled};
pub use law::{one_step, same_needs};
pub use observer::{AllocationSite, DeviceRefusal, Observer};
pub use print_room::Started;
pub use run::Timed;
pub use server_core::Core;
