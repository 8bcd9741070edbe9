//! A job that was submitted again.
use crate::saved_job::SavedJob;
use base_types::JobId;

/// A job that was submitted again.
#[derive(Drop)]
pub struct Resubmitted {
    pub job: SavedJob,
    /// The id of the job now; `None` if it was refused.
    pub new: Option<JobId>,
}
