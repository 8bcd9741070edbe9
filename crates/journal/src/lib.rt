//! The journal of a server: the turns of its engine as lines of a file, from which it starts again.
//!
//! A journal is a recording of the server's turns that is written before anything is sent. [`Gate`] parts a turn
//! in two: one in which nothing is sent, whose lines are written, and one in which nothing comes. So all bytes
//! that are sent were due by turns that the file has ([`sent_bytes_were_due`]). Turns in which nothing happens
//! are left out ([`quiet_turns_change_nothing`]).
//!
//! [`Resumption`] takes the turns of a file again, and its contract states that the engine is at the trace of
//! the file. The connections are lost then: [`Resumption::restart`] takes a turn in which each read and each write
//! fails and no plan is made, so that each job that waited waits
//! ([`lost_connections_leave_waiting_jobs`]).
//!
//! A job that another engine has to take, since its server's settings are others now or since a device may have printed
//! some of it, is a [`SavedJob`]: all that was sent with it. [`resubmit`] sends each such job to an engine by requests
//! of its owner, over a connection in memory, and appends the turns to a storage as those of any client. So the engine
//! is at the trace of the stored lines, and its files can be played. A job that got another id is the same job: it is
//! compared. [`pause_printers`] pauses printers in the same way.
#![tactic(auto)]

mod client;
mod fault;
mod filing;
mod gate;
mod law;
mod lost_wire;
mod mark;
mod pausable;
mod pausing;
mod requests;
mod restart_witness;
mod restarting;
mod resubmission_fault;
mod resubmitted;
mod resumption;
mod same;
mod saved_job;
mod saving;
mod serving;
mod storage;
mod submitting;
mod unsent;

pub use fault::PlayFault;
pub use filing::{FilingFault, file_turn};
pub use gate::{Gate, Pass};
pub use law::{
    lost_connections_leave_waiting_jobs, quiet_turns_change_nothing, sent_bytes_were_due,
    turns_append_to_files,
};
pub use mark::Mark;
pub use pausable::Pausable;
pub use pausing::{pause_printers, paused_printers};
pub use restarting::Restarted;
pub use resubmission_fault::ResubmissionFault;
pub use resubmitted::Resubmitted;
pub use resumption::{JournaledEngine, Resumption};
pub use saved_job::SavedJob;
pub use saving::{Which, saved_jobs};
pub use storage::{Storage, StoredLines};
pub use submitting::resubmit;
