use crate::new_job::NewJob;
use octets::Document;

/// Why a call is refused.
#[derive(Clone, Copy, PartialEq, Eq)]
pub enum SpoolRefusal {
    /// Too many jobs are unfinished, or the last id is used.
    Busy,
    /// The job has or would have too many documents, or too many octets.
    TooLarge,
    /// No job has the id.
    NotFound,
    /// The job's state doesn't allow it.
    NotPossible,
    /// Only the job's owner and operators may ask for it.
    NotAuthorized,
    OutOfMemory,
}

/// A refused submission, with the unchanged job.
#[derive(Drop)]
pub struct Refused {
    pub refusal: SpoolRefusal,
    pub job: NewJob,
}

/// A refused document, with the unchanged document.
#[derive(Drop)]
pub struct RefusedDocument {
    pub refusal: SpoolRefusal,
    pub document: Document,
}
