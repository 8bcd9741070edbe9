use base_types::{Finishings, JobId, Sides, Text};

/// A job, by the line that announces it. Its octets follow the line.
#[derive(Drop)]
pub struct JobOrder {
    pub job: JobId,
    /// The number of octets of its documents together, at most [`base_types::Limits::JOB_OCTETS`].
    pub octets: u32,
    /// The number of copies: 1 to [`base_types::Limits::COPIES`].
    pub copies: u32,
    pub sides: Sides,
    pub finishings: Finishings,
    pub media: Text,
}

/// An order of the server, by its line.
#[derive(Drop)]
pub enum Order {
    /// Print a job.
    Job(JobOrder),
    /// Cancel the job of this id.
    Cancel(JobId),
}

/// An item of the server's stream. The items come in the order of the stream.
#[derive(Drop)]
pub enum OrderItem {
    Order(Order),
    /// Some octets of the last job, which the reader lends as its part.
    Octets,
}

/// The numbers in the line that announces a job.
#[derive(Clone, Copy)]
pub(crate) struct JobNumbers {
    pub job: JobId,
    pub octets: u32,
    pub copies: u32,
}
