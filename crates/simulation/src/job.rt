//! The jobs of a day, and their prints.

use base_types::{JobId, Needs, Text};
use job_objects::{Job, JobState};
use std::alloc::{AllocError, Global};

/// A job of a day.
#[derive(Drop)]
pub struct RecordedJob {
    pub id: JobId,
    /// The moment at which the job became ready for the first time, in ms; that of its creation if it never
    /// was.
    pub came: u64,
    /// 1 to [`base_types::Limits::HIGHEST_PRIORITY`].
    pub priority: u8,
    /// The job's needs, once it was ready.
    pub needs: Option<Needs>,
    /// Whether a device began the job.
    pub begun: bool,
    /// The state in which the job was last seen.
    pub state: JobState,
}

/// The print of a job on a device; times are in ms.
#[derive(Clone, Copy)]
pub struct RecordedPrint {
    /// The place of the job among those of the day.
    pub job: usize,
    /// The place of the device in the settings.
    pub device: usize,
    pub start: u64,
    /// The end of the print on the device. `None` if the device still has the job when the day ends.
    pub end: Option<u64>,
}

/// A copy of each text.
pub(crate) fn copies_of(alloc: Global, texts: &[Text]) -> Result<Vec<Text>, AllocError> {
    let mut copies = Vec::with_capacity(alloc, texts.len())?;
    for text in texts {
        copies.push(text.copied(alloc)?)?;
    }
    Ok(copies)
}

/// A copy of a job's needs. The only error is out of memory.
pub(crate) fn copy_of(alloc: Global, needs: &Needs) -> Result<Needs, AllocError> {
    Ok(Needs {
        printer: needs.printer,
        formats: copies_of(alloc, &needs.formats)?,
        sides: needs.sides,
        finishings: needs.finishings,
        media: needs.media.copied(alloc)?,
        impressions: needs.impressions,
        copies: needs.copies,
    })
}

/// Returns whether a device may begin a job, or has begun it.
fn is_ready(job: &Job) -> bool {
    match job.state {
        JobState::PendingHeld => false,
        JobState::Pending | JobState::Processing | JobState::Stopped => true,
        JobState::Canceled | JobState::Aborted | JobState::Completed => job.started.is_some(),
    }
}

impl RecordedJob {
    /// Creates the record of a job that was just made.
    pub(crate) fn new(job: &Job) -> RecordedJob {
        RecordedJob {
            id: job.id,
            came: job.created.millis(),
            priority: job.priority.level(),
            needs: None,
            begun: false,
            state: JobState::PendingHeld,
        }
    }

    /// Records the state of the job at a moment. Returns whether it is ready now, and wasn't before. The only
    /// error is out of memory.
    pub(crate) fn note(&mut self, alloc: Global, job: &Job, now: u64) -> Result<bool, AllocError> {
        self.state = job.state;
        if self.needs.is_some() || !is_ready(job) {
            return Ok(false);
        }
        self.needs = Some(copy_of(alloc, &job.needs)?);
        self.came = now;
        Ok(true)
    }
}
