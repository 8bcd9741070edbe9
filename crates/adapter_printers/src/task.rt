//! The tasks on a connection, and the stages of a job.

/// A task on a connection.
#[derive(Clone, Copy, PartialEq, Eq)]
pub(crate) enum Task {
    Nothing,
    /// Ask for the printer's state.
    Ask,
    /// Send the job.
    Print,
    /// Ask about the job of this id.
    Follow(i32),
    /// Cancel the job of this id.
    Cancel(i32),
}

/// The stage of the server's job.
#[derive(Clone, Copy, PartialEq, Eq)]
pub(crate) enum TaskStage {
    /// There is no job.
    None,
    /// Nothing of the job is sent.
    Waits,
    /// A part of the job is sent.
    Sending,
    /// All of the job is sent.
    Sent,
    /// The printer has the job under this id.
    Printing(i32),
}
