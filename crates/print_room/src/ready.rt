//! The ready jobs, read once for a plan, and those that no device can print.
ghost use Rattle.std.specs.Prelude.{◌≡◌, ◌≤◌, IfOk, filter, map, unwrap_or};
ghost use Rattle.std.specs.List.{filter_map};
ghost use Rattle.base_types.specs.declared.limits.TheConstants.Limits.{HIGHEST_PRIORITY};
ghost use Rattle.spool.specs.Spool.{IsSpool};
ghost use Rattle.print_room.specs.Ready.{ready_of, cause_in};
ghost use Rattle.print_room.specs.GoodPlan.{is_some_job};
ghost use Rattle.print_room.specs.Gathered.{gathered, gathered_of, entry_of, is_of_class, class_job_of, level_within, highest_within};

use crate::room::PrintRoom;
use base_types::{Cause, JobId, Needs, Priority, Stranded};
use job_objects::Job;
use plan_problem::{ClassJob, stranded_cause};
use std::alloc::{AllocError, Global};
use std::marker::Model;

/// A ready job, with the cause if no device of its printer can print it. In clauses it is a record of the
/// same fields.
#[derive(Drop)]
pub(crate) struct ReadyJob<'a> {
    id: JobId,
    needs: &'a Needs,
    priority: Priority,
    cause: Option<Cause>,
}

impl<'a> Model for ReadyJob<'a> {
    ghost use Rattle.print_room.specs.Gathered.{Gathered};

    ghost Value = { Gathered };

    ghost view = { λ j. record { id = j.id; needs = j.needs.now; priority = j.priority; cause = j.cause } };
}

impl<'a> ReadyJob<'a> {
    /// The entry of the job, if no device can print it.
    fn entry(&self) -> Option<Stranded>
        ensures { result ≡ entry_of self.now }
    {
        let job = self.id;
        self.cause.map(|cause| Stranded { job, cause })
    }

    /// Returns whether the job has this priority and some device can print it.
    fn is_of_class(&self, priority: Priority) -> bool
        ensures { result ≡ is_of_class priority self.now }
    {
        self.priority == priority && self.cause.is_none()
    }

    /// The fields of the job that a class needs.
    fn class_job(&self) -> ClassJob<'a>
        ensures { result ≡ class_job_of self.now }
    {
        ClassJob {
            id: self.id,
            needs: self.needs,
        }
    }

    /// The job's priority, if that is at most `most` and some device can print the job; else 0.
    fn level_within(&self, most: u8) -> u8
        ensures level { result ≡ level_within most self.now }
        ensures in_range { result ≤ HIGHEST_PRIORITY }
    {
        let level = self.priority.level();
        if level <= most && self.cause.is_none() {
            level
        } else {
            0
        }
    }
}

/// The highest priority up to `most` of a job that some device can print, if there is one.
pub(crate) fn highest_within(ready: &[ReadyJob<'_>], most: u8) -> Option<Priority>
    ensures { unwrap_or result 0 ≡ highest_within most ready.now }
{
    let mut highest = 0;
    for job in ready {
        highest = job.level_within(most).max(highest);
    }
    Priority::new(highest)
}

/// The class of a priority: its jobs that some device can print, by rising id.
pub(crate) fn class_jobs<'a>(
    alloc: Global,
    ready: &[ReadyJob<'a>],
    priority: Priority,
) -> Result<Vec<ClassJob<'a>>, AllocError>
    ensures { IfOk result (λ jobs. jobs.items ≡ map class_job_of (filter (is_of_class priority) ready.now)) }
{
    let mut jobs = Vec::new(alloc);
    for job in ready {
        if job.is_of_class(priority) {
            jobs.push(job.class_job())?;
        }
    }
    Ok(jobs)
}

/// The jobs that no device can print, by rising id, each with its cause.
pub(crate) fn stranded(alloc: Global, ready: &[ReadyJob<'_>]) -> Result<Vec<Stranded>, AllocError>
    ensures { IfOk result (λ stranded. stranded.items ≡ filter_map entry_of ready.now) }
{
    let mut stranded = Vec::new(alloc);
    for job in ready {
        if let Some(entry) = job.entry() {
            stranded.push(entry)?;
        }
    }
    Ok(stranded)
}

impl PrintRoom {
    /// Returns whether a job is ready: pending, with a printer that isn't paused.
    pub(crate) fn has_ready_job(&self) -> bool
        ensures { result ≡ is_some_job (ready_of self.now) }
    {
        let mut ready = self.spool.ready(&self.printers);
        ready.next().is_some()
    }

    /// The cause, if no device of a job's printer can print the job.
    fn cause(&self, job: &Job) -> Option<Cause>
        ensures { result ≡ cause_in self.now job.now }
    {
        let needs = &job.needs;
        match self.sets.get(needs.printer.place()) {
            Some(printer) => stranded_cause(needs, printer, &self.devices),
            None => Some(Cause::NoDevice),
        }
    }

    /// A ready job, with its cause.
    fn gathered<'a>(&self, job: &'a Job) -> ReadyJob<'a>
        ensures { result ≡ gathered self.now job.now }
    {
        ReadyJob {
            id: job.id,
            needs: &job.needs,
            priority: job.priority,
            cause: self.cause(job),
        }
    }

    /// The ready jobs, by rising id. The only error is out of memory.
    pub(crate) fn gather_ready(&self) -> Result<Vec<ReadyJob<'_>>, AllocError>
        ensures ready { IfOk result (λ ready. ready.items ≡ gathered_of self.now) }
        ensures spool { IsSpool self.now.spool }
    {
        let mut ready = Vec::new(self.alloc);
        for spooled in self.spool.after_finished() {
            if spooled.is_ready(&self.printers) {
                ready.push(self.gathered(spooled.job()))?;
            }
        }
        Ok(ready)
    }
}
