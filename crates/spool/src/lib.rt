//! The jobs of a server, by rising id, with their documents.
//!
//! The contracts determine the list of jobs after each call: the jobs that are taken, refused, changed and
//! forgotten, and the documents that are handed out. A refusal changes nothing and returns its argument. Only
//! [`Spool::submit`], [`Spool::create`] and [`Spool::add_document`] take memory; they make the room that the
//! job's later states need. Jobs are in memory alone, and no document is read or converted. The dispatch of
//! jobs to devices is not of this crate; the spool has only a flag for each job that indicates whether a
//! device has it.
//!
//! Examples: the traces in `crates/play_examples/data`.
#![tactic(auto)]

mod devices;
mod expiring;
mod forgetting;
mod new_job;
mod ready;
mod refusal;
mod requester;
mod requests;
mod sending;
mod spool;
mod spooled;
mod stranding;
mod submitting;

pub use new_job::NewJob;
pub use ready::{Ready, is_paused};
pub use refusal::{Refused, RefusedDocument, SpoolRefusal};
pub use requester::Requester;
pub use spool::Spool;
pub use spooled::SpooledJob;
