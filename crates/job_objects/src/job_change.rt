//! The table of job states: the changes of a job, and its state after each (RFC 8011, section 5.3.7).
ghost use Rattle.std.specs.Prelude.{◌≡◌, is_ok, is_some, false};
ghost use Rattle.job_objects.specs.JobStep.{job_after, stepped, waiting, moved, ended, ends_print};

use crate::job::{Canceler, Job};
use crate::job_state::JobState;
use base_types::Moment;

/// A change of a job (RFC 8011, section 5.3.7).
#[derive(Clone, Copy, PartialEq, Eq)]
pub enum JobChange {
    /// The last document is taken.
    Close,
    /// The job is held.
    Hold,
    /// The job isn't held any more.
    Release,
    /// A device begins the job.
    Begin,
    /// The job's device stops.
    Stop,
    /// The job's device runs again.
    Continue,
    /// The job is canceled.
    Cancel(Canceler),
    /// The job is printed.
    Done,
    /// The job can't be printed, or its documents stopped coming.
    Fail,
}

impl JobChange {
    /// Returns whether the job's print ends, if its device reports this change.
    pub fn ends_print(self) -> bool
        ensures { result ≡ ends_print self }
    {
        match self {
            JobChange::Done | JobChange::Fail => true,
            JobChange::Close | JobChange::Hold | JobChange::Release | JobChange::Begin => false,
            JobChange::Stop | JobChange::Continue | JobChange::Cancel(_) => false,
        }
    }
}

/// Why a job isn't changed.
#[derive(Clone, Copy, PartialEq, Eq)]
pub enum StateRefusal {
    /// The job's state doesn't allow the change.
    NotPossible,
}

/// Changes a job by the table of states. A refused change leaves the job unchanged.
pub fn job_step(job: &mut Job, change: JobChange, now: Moment) -> Result<(), StateRefusal>
    ensures possible { is_ok result ≡ is_some (job_after change now job.old) }
    ensures after { job.new ≡ stepped change now job.old }
    ensures same_job { job.new.id ≡ job.old.id }
{
    match (change, job.state) {
        (JobChange::Close, JobState::PendingHeld) if job.incoming => job.close(),
        (JobChange::Hold, JobState::Pending | JobState::PendingHeld) => job.hold(true),
        (JobChange::Release, JobState::Pending | JobState::PendingHeld) => job.hold(false),
        (JobChange::Release, JobState::Processing | JobState::Stopped) => {}
        (JobChange::Begin, JobState::Pending) => job.begin(now),
        (JobChange::Stop, JobState::Processing) => job.take_state(JobState::Stopped),
        (JobChange::Continue, JobState::Stopped) => job.take_state(JobState::Processing),
        (JobChange::Cancel(by), JobState::Pending | JobState::PendingHeld) => job.cancel(by, now),
        (JobChange::Cancel(by), JobState::Processing | JobState::Stopped) => job.cancel(by, now),
        (JobChange::Done, JobState::Processing | JobState::Stopped) => {
            job.end(JobState::Completed, now)
        }
        (JobChange::Fail, JobState::PendingHeld) if job.incoming => job.end(JobState::Aborted, now),
        (JobChange::Fail, JobState::Processing | JobState::Stopped) => {
            job.end(JobState::Aborted, now)
        }
        _ => return Err(StateRefusal::NotPossible),
    }
    Ok(())
}

impl Job {
    /// Records that the last document is taken.
    fn close(&mut self)
        ensures after { self.new ≡ waiting (record self.old { incoming = false }) }
        ensures same_job { self.new.id ≡ self.old.id }
    {
        self.incoming = false;
        self.wait();
    }

    /// Sets whether the job is held.
    fn hold(&mut self, held: bool)
        ensures after { self.new ≡ waiting (record self.old { held = held }) }
        ensures same_job { self.new.id ≡ self.old.id }
    {
        self.held = held;
        self.wait();
    }

    /// Sets the state of a job that no device has had.
    fn wait(&mut self)
        ensures after { self.new ≡ waiting self.old }
        ensures same_job { self.new.id ≡ self.old.id }
    {
        if self.incoming || self.held {
            self.take_state(JobState::PendingHeld);
        } else {
            self.state = JobState::Pending;
        }
    }

    /// Sets a state other than pending.
    fn take_state(&mut self, state: JobState)
        ensures { self.new ≡ moved state self.old }
    {
        self.state = state;
        self.stranded = false;
    }

    /// Records that a device begins the job.
    fn begin(&mut self, now: Moment)
        ensures { self.new ≡ record (moved JobState.Processing self.old) { started = Some now } }
    {
        self.take_state(JobState::Processing);
        self.started = Some(now);
    }

    /// Cancels the job.
    fn cancel(&mut self, by: Canceler, now: Moment)
        ensures { self.new ≡ record (ended JobState.Canceled now self.old) { canceled_by = Some by } }
    {
        self.end(JobState::Canceled, now);
        self.canceled_by = Some(by);
    }

    /// Finishes the job, in one of the final states.
    fn end(&mut self, state: JobState, now: Moment)
        ensures { self.new ≡ ended state now self.old }
    {
        self.take_state(state);
        self.incoming = false;
        self.finished = Some(now);
    }
}
