//! A job, its states, and the reasons of its state, among them that its printer is paused ([`Printer`]).
//!
//! A job changes exactly by the table of states: [`job_step`] makes a change that the job's state allows, and
//! leaves the job unchanged otherwise. The crate takes no memory, holds no documents and has no list of jobs;
//! the spool has those.
//!
//! Tests: `unit_tests`.
#![tactic(auto)]

mod impressions;
mod job;
mod job_change;
mod job_state;
mod printer;
mod reason;

pub use impressions::estimated_impressions;
pub use job::{Canceler, Job};
pub use job_change::{JobChange, StateRefusal, job_step};
pub use job_state::JobState;
pub use printer::Printer;
pub use reason::{JobReasons, Reason, reasons, waiting_reasons};
