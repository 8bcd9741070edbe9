//! The last plan.
use base_types::{Cause, DeviceId, JobId, Moment, Stranded};
use plan_prices::{Plan, PlannedClass, Queue};
use plan_problem::ClassProblem;
use std::alloc::{AllocError, Global};

/// A job that a plan has on a device, with its start and its end in ms.
#[derive(Clone, Copy)]
pub(crate) struct PlannedJob {
    pub(crate) job: JobId,
    pub(crate) device: DeviceId,
    pub(crate) start: u64,
    pub(crate) end: u64,
}

/// The jobs of the last plan. Some of them may have begun or ended since.
#[derive(Drop)]
pub(crate) struct LastPlan {
    planned: Vec<PlannedJob>,
    stranded: Vec<Stranded>,
}

impl LastPlan {
    /// Creates the plan of no job.
    pub(crate) fn new(alloc: Global) -> LastPlan {
        LastPlan {
            planned: Vec::new(alloc),
            stranded: Vec::new(alloc),
        }
    }

    /// Drops all jobs.
    pub(crate) fn clear(&mut self) {
        self.planned.clear();
        self.stranded.clear();
    }

    /// Replaces the jobs by those of a plan that was made at a moment. The only error is out of memory.
    pub(crate) fn replace(&mut self, plan: &Plan, now: Moment) -> Result<(), AllocError> {
        self.clear();
        for class in plan.classes() {
            self.add_class(class, now)?;
        }
        for stranded in plan.stranded() {
            self.stranded.push(*stranded)?;
        }
        Ok(())
    }

    /// Adds the jobs of a class.
    fn add_class(&mut self, class: &PlannedClass, now: Moment) -> Result<(), AllocError> {
        for (place, queue) in class.priced.way.queues().iter().enumerate() {
            self.add_queue(&class.problem, DeviceId::new(place), queue, now)?;
        }
        Ok(())
    }

    /// Adds the jobs of a class that one device prints.
    fn add_queue(
        &mut self,
        class: &ClassProblem,
        device: DeviceId,
        queue: &Queue,
        now: Moment,
    ) -> Result<(), AllocError> {
        let wait = class.waits().get(device.place()).copied().unwrap_or(0);
        let mut start = now.millis().saturating_add(wait);
        for job in queue.jobs() {
            let time = class.time(*job, device).unwrap_or(0);
            let end = start.saturating_add(time);
            self.planned.push(PlannedJob {
                job: *job,
                device,
                start,
                end,
            })?;
            start = end;
        }
        Ok(())
    }

    /// The place of a job in the plan.
    pub(crate) fn planned(&self, job: JobId) -> Option<PlannedJob> {
        self.planned
            .iter()
            .find(|planned| planned.job == job)
            .copied()
    }

    /// The cause that the plan gives for a job that no device can print.
    pub(crate) fn cause(&self, job: JobId) -> Option<Cause> {
        let found = self.stranded.iter().find(|stranded| stranded.job == job)?;
        Some(found.cause)
    }
}
