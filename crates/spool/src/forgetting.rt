//! The finished jobs that are kept.
ghost use Rattle.std.specs.Prelude.{◌≡◌, count_by, not, position};
ghost use Rattle.spool.specs.Calls.{is_unfinished, unfinished_jobs};
ghost use Rattle.spool.specs.Spooled.{is_retired};
ghost use Rattle.spool.specs.Kept.{end_of, is_later, later_jobs, is_kept, retained};

use crate::spool::Spool;
use crate::spooled::SpooledJob;
use base_types::Limits;

impl SpooledJob {
    /// Returns whether the job is neither canceled, aborted nor completed.
    fn is_unfinished(&self) -> bool
        ensures { result ≡ is_unfinished self.now }
    {
        !self.job().state.is_finished()
    }

    /// The moment at which the job was finished, in ms.
    fn end(&self) -> u64
        ensures { result ≡ end_of self.now }
    {
        let finished = self.job().finished;
        match finished {
            Some(moment) => moment.millis(),
            None => 0,
        }
    }

    /// Returns whether the job was finished later than another; at the same moment the job of the greater id
    /// counts as later.
    pub fn is_later(&self, other: &SpooledJob) -> bool
        ensures { result ≡ is_later self.now other.now }
    {
        let end = self.end();
        let other_end = other.end();
        let after = other.job().id.number() < self.job().id.number();
        other_end < end || (end == other_end && after)
    }
}

impl Spool {
    /// Returns the number of jobs that aren't finished.
    pub fn unfinished(&self) -> usize
        ensures { result ≡ unfinished_jobs self.now.jobs }
    {
        self.after_finished()
            .iter()
            .filter(|spooled| spooled.is_unfinished())
            .count()
    }

    /// Returns the number of finished jobs that no device has and that were finished later than this job.
    fn later_jobs(&self, spooled: &SpooledJob) -> usize
        ensures { result ≡ later_jobs self.now.jobs spooled.now }
    {
        self.jobs()
            .iter()
            .filter(|other| other.is_retired() && other.is_later(spooled))
            .count()
    }

    /// Returns whether a job is kept: it is unfinished, or a device has it, or fewer than
    /// [`Limits::FINISHED_JOBS_KEPT`] such jobs were finished later.
    fn is_kept(&self, spooled: &SpooledJob) -> bool
        ensures { result ≡ is_kept self.now.jobs spooled.now }
    {
        !spooled.is_retired() || self.later_jobs(spooled) < Limits::FINISHED_JOBS_KEPT
    }

    /// Returns the number of finished jobs that no device has.
    fn retired(&self) -> usize
        ensures { result ≡ count_by is_retired self.now.jobs }
    {
        self.jobs()
            .iter()
            .filter(|spooled| spooled.is_retired())
            .count()
    }

    /// The place of the first job that isn't kept. While at most [`Limits::FINISHED_JOBS_KEPT`] jobs are
    /// finished there is none, and the jobs aren't searched.
    fn outdated(&self) -> Option<usize>
        ensures { result ≡ position (λ s. not (is_kept self.now.jobs s)) self.now.jobs }
    {
        if self.retired() <= Limits::FINISHED_JOBS_KEPT {
            return None;
        }
        self.first_outdated()
    }

    /// The place of the first job that isn't kept, found by looking at each job.
    fn first_outdated(&self) -> Option<usize>
        ensures { result ≡ position (λ s. not (is_kept self.now.jobs s)) self.now.jobs }
    {
        self.jobs()
            .iter()
            .position(|spooled| !self.is_kept(spooled))
    }

    /// Removes the jobs that aren't kept.
    pub(crate) fn forget(&mut self)
        ensures { self.new ≡ record self.old { jobs = retained self.old.jobs } }
    {
        while let Some(place) = self.outdated() {
            self.remove(place);
        }
        self.note_finished();
    }
}
