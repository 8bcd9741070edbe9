//! The requests of LPD clients about a queue, and the listing of a queue.
use base_types::{JobId, Text};
use job_objects::{JobReasons, JobState};
use printer_objects::PrinterState;

/// The form in which the jobs of a queue are listed.
#[derive(Clone, Copy, PartialEq, Eq)]
pub enum QueueForm {
    /// Id, state, owner, octets and name (RFC 1179, section 5.3).
    Short,
    /// The short form, with the reasons of the state, impressions and copies (RFC 1179, section 5.4).
    Long,
}

/// A request to list a queue (RFC 1179, sections 5.3 and 5.4).
#[derive(Drop)]
pub struct ListQueue {
    /// The name of the printer.
    pub queue: Text,
    pub form: QueueForm,
    /// Ids of jobs and names of owners. If there are none, all jobs are listed.
    pub operands: Vec<Text>,
}

/// A request to remove jobs of a queue (RFC 1179, section 5.5).
#[derive(Drop)]
pub struct RemoveJobs {
    /// The name of the printer.
    pub queue: Text,
    /// The user of the request, as it claims.
    pub agent: Text,
    /// Ids of jobs and names of owners. If there are none, the job that is printed is removed.
    pub operands: Vec<Text>,
}

/// A job in the listing of a queue.
#[derive(Drop)]
pub struct QueueEntry {
    pub id: JobId,
    pub state: JobState,
    pub reasons: JobReasons,
    pub owner: Text,
    /// The octets of all documents together.
    pub octets: usize,
    /// The impressions of one copy, as the request has them, else as estimated.
    pub impressions: u32,
    pub copies: u32,
    pub name: Text,
}

/// The content of a queue's listing.
#[derive(Drop)]
pub struct QueueListing {
    pub form: QueueForm,
    /// The name of the printer.
    pub name: Text,
    pub state: PrinterState,
    /// The jobs, in the order of the listing.
    pub jobs: Vec<QueueEntry>,
}
