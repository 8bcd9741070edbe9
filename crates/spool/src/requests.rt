//! The calls that show, hold, release and cancel jobs.
ghost use Rattle.std.specs.Prelude.{◌≡◌, OnOk, OnErr, IfErr, None, Some, false};
ghost use Rattle.std.specs.Option.{option_copied, option_map_or};
ghost use Rattle.job_objects.specs.JobState.{is_finished};
ghost use Rattle.job_objects.specs.declared.job_change.JobChange.{JobChange};
ghost use Rattle.job_objects.specs.declared.job_change.JobChange.TheVariants as Change;
ghost use Rattle.spool.specs.Spooled.{changed};
ghost use Rattle.spool.specs.Kept.{retained};
ghost use Rattle.spool.specs.Jobs.{spooled_at, job_at, with_job};
ghost use Rattle.spool.specs.Calls.{access_refusal, change_refusal, cancel_refusal, cancel_of};
ghost use Rattle.spool.specs.OnDevice.{AllStay};

use crate::refusal::SpoolRefusal;
use crate::requester::Requester;
use crate::spool::Spool;
use base_types::{JobId, Moment};
use job_objects::{Canceler, Job, JobChange, StateRefusal};

/// The calls for requesters. A refusal changes nothing. Its causes, in this order: not found, not authorized, not
/// possible.
impl Spool {
    /// The job of an id.
    pub fn get(&self, id: JobId) -> Option<&Job>
        ensures { option_copied result ≡ job_at id self.now.jobs }
    {
        let spooled = self.spooled(id)?;
        Some(spooled.job())
    }

    /// Checks that the requester may change the job of an id, without regard to its state.
    pub(crate) fn may_change(
        &self,
        id: JobId,
        requester: &Requester<'_>,
    ) -> Result<(), SpoolRefusal>
        ensures ok { OnOk result (access_refusal requester.now (spooled_at id self.now.jobs) ≡ None) }
        ensures refused { IfErr result (λ refusal. access_refusal requester.now (spooled_at id self.now.jobs) ≡ Some refusal) }
    {
        let Some(spooled) = self.spooled(id) else {
            return Err(SpoolRefusal::NotFound);
        };
        if requester.may_change(spooled.job()) {
            Ok(())
        } else {
            Err(SpoolRefusal::NotAuthorized)
        }
    }

    /// Holds a job that no device has yet.
    pub fn hold(
        &mut self,
        id: JobId,
        requester: &Requester<'_>,
        now: Moment,
    ) -> Result<(), SpoolRefusal>
        ensures ok { OnOk result ((change_refusal requester.now Change.Hold now (spooled_at id self.old.jobs) ≡ None) × (self.new ≡ record self.old { jobs = with_job id (changed Change.Hold now) self.old.jobs })) }
        ensures kept { OnErr result (self.new ≡ self.old) }
        ensures stay { OnOk result (AllStay self.old.jobs self.new.jobs) }
        ensures refused { IfErr result (λ refusal. change_refusal requester.now Change.Hold now (spooled_at id self.old.jobs) ≡ Some refusal) }
    {
        self.ask(id, requester, JobChange::Hold, now)
    }

    /// Releases a held job. A job that a device has is unchanged.
    pub fn release(
        &mut self,
        id: JobId,
        requester: &Requester<'_>,
        now: Moment,
    ) -> Result<(), SpoolRefusal>
        ensures ok { OnOk result ((change_refusal requester.now Change.Release now (spooled_at id self.old.jobs) ≡ None) × (self.new ≡ record self.old { jobs = with_job id (changed Change.Release now) self.old.jobs })) }
        ensures kept { OnErr result (self.new ≡ self.old) }
        ensures stay { OnOk result (AllStay self.old.jobs self.new.jobs) }
        ensures refused { IfErr result (λ refusal. change_refusal requester.now Change.Release now (spooled_at id self.old.jobs) ≡ Some refusal) }
    {
        self.ask(id, requester, JobChange::Release, now)
    }

    /// Cancels a job that isn't finished. A device that has the job keeps it, with its documents, until it
    /// reports that it is done.
    pub fn cancel(
        &mut self,
        id: JobId,
        requester: &Requester<'_>,
        now: Moment,
    ) -> Result<(), SpoolRefusal>
        ensures ok { OnOk result (let found = spooled_at id self.old.jobs in let change = cancel_of requester.now.name found in (cancel_refusal requester.now found ≡ None) × (self.new ≡ record self.old { jobs = retained (with_job id (changed change now) self.old.jobs) })) }
        ensures kept { OnErr result (self.new ≡ self.old) }
        ensures stay { OnOk result (AllStay self.old.jobs self.new.jobs) }
        ensures refused { IfErr result (λ refusal. cancel_refusal requester.now (spooled_at id self.old.jobs) ≡ Some refusal) }
    {
        let spool = &*self;
        spool.admits_cancel(id, requester)?;
        let change = spool.cancel_by(id, requester);
        let _changed = self.change(id, change, now);
        self.forget();
        Ok(())
    }

    /// Returns why a cancel would be refused, if there is a cause.
    pub fn admits_cancel(&self, id: JobId, requester: &Requester<'_>) -> Result<(), SpoolRefusal>
        ensures ok { OnOk result (cancel_refusal requester.now (spooled_at id self.now.jobs) ≡ None) }
        ensures refused { IfErr result (λ refusal. cancel_refusal requester.now (spooled_at id self.now.jobs) ≡ Some refusal) }
    {
        self.may_change(id, requester)?;
        if self.is_finished(id) {
            Err(SpoolRefusal::NotPossible)
        } else {
            Ok(())
        }
    }

    /// Returns whether there is a job of an id, and it is finished.
    fn is_finished(&self, id: JobId) -> bool
        ensures { result ≡ option_map_or (λ s. is_finished s.job.state) (spooled_at id self.now.jobs) false }
    {
        match self.spooled(id) {
            Some(spooled) => spooled.job().state.is_finished(),
            None => false,
        }
    }

    /// The cancel of the job of an id by a requester.
    fn cancel_by(&self, id: JobId, requester: &Requester<'_>) -> JobChange
        ensures { result ≡ cancel_of requester.now.name (spooled_at id self.now.jobs) }
    {
        match self.spooled(id) {
            Some(spooled) => JobChange::Cancel(requester.canceler(spooled.job())),
            None => JobChange::Cancel(Canceler::Operator),
        }
    }

    /// Makes a change for a requester.
    fn ask(
        &mut self,
        id: JobId,
        requester: &Requester<'_>,
        change: JobChange,
        now: Moment,
    ) -> Result<(), SpoolRefusal>
        ensures ok { OnOk result ((change_refusal requester.now change now (spooled_at id self.old.jobs) ≡ None) × (self.new ≡ record self.old { jobs = with_job id (changed change now) self.old.jobs })) }
        ensures kept { OnErr result (self.new ≡ self.old) }
        ensures stay { OnOk result (AllStay self.old.jobs self.new.jobs) }
        ensures refused { IfErr result (λ refusal. change_refusal requester.now change now (spooled_at id self.old.jobs) ≡ Some refusal) }
    {
        self.may_change(id, requester)?;
        match self.change(id, change, now) {
            Ok(()) => Ok(()),
            Err(StateRefusal::NotPossible) => Err(SpoolRefusal::NotPossible),
        }
    }
}
