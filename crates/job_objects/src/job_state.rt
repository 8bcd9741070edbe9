//! The states of a job (RFC 8011, section 5.3.7).
ghost use Rattle.std.specs.Prelude.{◌≡◌};
ghost use Rattle.job_objects.specs.JobState.{state_code, is_finished, is_pending, waiting_state};

/// The state of a job (RFC 8011, section 5.3.7).
#[derive(Clone, Copy, PartialEq, Eq)]
pub enum JobState {
    /// The job is complete, and isn't held.
    Pending,
    /// Documents are still to come, or the job is held.
    PendingHeld,
    /// A device prints the job.
    Processing,
    /// The device that has the job is stopped.
    Stopped,
    Canceled,
    Aborted,
    Completed,
}

impl JobState {
    /// The state of a job that no device has had: pending-held while documents are still to come or the job
    /// is held, else pending.
    pub fn waiting(incoming: bool, held: bool) -> JobState
        ensures { result ≡ waiting_state incoming held }
    {
        if incoming || held {
            JobState::PendingHeld
        } else {
            JobState::Pending
        }
    }

    /// The value of job-state.
    pub fn code(self) -> u32
        ensures { result ≡ state_code self }
    {
        match self {
            JobState::Pending => 3,
            JobState::PendingHeld => 4,
            JobState::Processing => 5,
            JobState::Stopped => 6,
            JobState::Canceled => 7,
            JobState::Aborted => 8,
            JobState::Completed => 9,
        }
    }

    /// Returns whether the job may be planned: it is complete, and it isn't held.
    pub fn is_pending(self) -> bool
        ensures { result ≡ is_pending self }
    {
        match self {
            JobState::Pending => true,
            JobState::PendingHeld | JobState::Processing | JobState::Stopped => false,
            JobState::Canceled | JobState::Aborted | JobState::Completed => false,
        }
    }

    /// Returns whether the job is canceled, aborted or completed.
    pub fn is_finished(self) -> bool
        ensures { result ≡ is_finished self }
    {
        match self {
            JobState::Pending | JobState::PendingHeld | JobState::Processing | JobState::Stopped =>
                false,
            JobState::Canceled | JobState::Aborted | JobState::Completed => true,
        }
    }
}
