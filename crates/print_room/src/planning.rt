//! The plan of the ready jobs, class by class.
ghost use Rattle.std.specs.Prelude.{◌≡◌, ◌+◌, ◌*◌, ◌≤◌, length, map, All, IfOk, OnOk};
ghost use Rattle.base_types.specs.declared.limits.TheConstants.Limits.{JOB_TIME, NOT_BEFORE, UNFINISHED_JOBS};
ghost use Rattle.plan_prices.specs.Waits.{GrowsByTimes, waits_after as waits_left};
ghost use Rattle.spool.specs.Spool.{IsSpool};
ghost use Rattle.print_room.specs.Ready.{class_of};
ghost use Rattle.print_room.specs.GoodPlan.{AllPlannedBest, IsGoodPlan, IsPlannedBest, job_of_class, priorities_of, waits_of};
ghost use Rattle.print_room.specs.Gathered.{gathered_of};

use crate::activity::wait_of;
use crate::ready::{ReadyJob, class_jobs, highest_within, stranded};
use crate::room::PrintRoom;
use base_types::{Limits, Moment, Priority};
use plan_checker::proved_plan_is_yes;
use plan_prices::{Plan, PlannedClass, Planner, best_at_most_timetables, waits_after};
use plan_problem::{ClassJob, build};
use std::alloc::AllocError;

/// A planned class, and the ms after which each device is free once the class is printed.
#[derive(Drop)]
struct Planned {
    class: PlannedClass,
    left: Vec<u64>,
}

impl PrintRoom {
    /// Makes a good plan of the ready jobs for a moment that isn't before the last one. The only error is out
    /// of memory.
    pub(crate) fn good_plan<P: Planner>(
        &self,
        planner: &mut P,
        now: Moment,
    ) -> Result<Plan, AllocError>
        requires { self.now.last ≤ now }
        ensures plan { IfOk result (λ plan. IsGoodPlan now self.now plan) }
        ensures spool { OnOk result (IsSpool self.now.spool) }
    {
        let ready = self.gather_ready()?;
        let classes = self.planned_classes(planner, now, &ready)?;
        let stranded = stranded(self.alloc, &ready)?;
        let plan = Plan { classes, stranded };
        proved_plan_is_yes(&plan);
        Ok(plan)
    }

    /// Plans the class of each priority that has one, from the highest down, each with a best way. The only
    /// error is out of memory.
    fn planned_classes<P: Planner>(
        &self,
        planner: &mut P,
        now: Moment,
        ready: &[ReadyJob<'_>],
    ) -> Result<Vec<PlannedClass>, AllocError>
        requires later { self.now.last ≤ now }
        requires ready { ready.now ≡ gathered_of self.now }
        requires spool { IsSpool self.now.spool }
        ensures priorities { IfOk result (λ classes. map (λ class. class.priority) classes.items ≡ priorities_of self.now) }
        ensures best { IfOk result (λ classes. AllPlannedBest self.now (waits_of now self.now) classes.items) }
    {
        let mut classes = Vec::new(self.alloc);
        let mut waits = self.waits(now)?;
        let mut next = highest_within(ready, Limits::HIGHEST_PRIORITY);
        while let Some(priority) = next {
            let below = priority.level() - 1;
            let Planned { class, left } = self.plan_class(planner, priority, ready, waits)?;
            classes.push(class)?;
            waits = left;
            next = highest_within(ready, below);
        }
        Ok(classes)
    }

    /// The ms from a moment until each device is free. The only error is out of memory.
    fn waits(&self, now: Moment) -> Result<Vec<u64>, AllocError>
        requires { self.now.last ≤ now }
        ensures waits { IfOk result (λ waits. waits.items ≡ waits_of now self.now) }
        ensures short { IfOk result (λ waits. All (λ wait. wait ≤ NOT_BEFORE) waits.items) }
    {
        let mut waits = Vec::with_capacity(self.alloc, self.devices.len())?;
        for device in &self.devices {
            waits.push(wait_of(device, now))?;
        }
        Ok(waits)
    }

    /// Plans the class of a priority under the waits that the classes above leave. The only error is out of
    /// memory.
    fn plan_class<P: Planner>(
        &self,
        planner: &mut P,
        priority: Priority,
        ready: &[ReadyJob<'_>],
        waits: Vec<u64>,
    ) -> Result<Planned, AllocError>
        requires ready { ready.now ≡ gathered_of self.now }
        requires spool { IsSpool self.now.spool }
        requires one_each { length waits.items ≡ length self.now.devices }
        requires short { All (λ wait. wait ≤ NOT_BEFORE + UNFINISHED_JOBS * JOB_TIME) waits.items }
        ensures priority { IfOk result (λ planned. planned.class.priority ≡ priority) }
        ensures best { IfOk result (λ planned. IsPlannedBest self.now waits.items planned.class) }
        ensures left { IfOk result (λ planned. planned.left.items ≡ waits_left planned.class.problem planned.class.priced.way) }
        ensures one_each { IfOk result (λ planned. length planned.left.items ≡ length waits.items) }
        ensures grows { IfOk result (λ planned. GrowsByTimes planned.class.problem planned.left.items) }
    {
        let jobs = class_jobs(self.alloc, ready, priority)?;
        self.plan_jobs(planner, priority, &jobs, waits)
    }

    /// Plans the jobs of the class of a priority. The only error is out of memory.
    fn plan_jobs<P: Planner>(
        &self,
        planner: &mut P,
        priority: Priority,
        jobs: &[ClassJob<'_>],
        waits: Vec<u64>,
    ) -> Result<Planned, AllocError>
        requires jobs { jobs.now ≡ map job_of_class (class_of self.now priority) }
        requires spool { IsSpool self.now.spool }
        requires one_each { length waits.items ≡ length self.now.devices }
        requires short { All (λ wait. wait ≤ NOT_BEFORE + UNFINISHED_JOBS * JOB_TIME) waits.items }
        ensures priority { IfOk result (λ planned. planned.class.priority ≡ priority) }
        ensures best { IfOk result (λ planned. IsPlannedBest self.now waits.items planned.class) }
        ensures left { IfOk result (λ planned. planned.left.items ≡ waits_left planned.class.problem planned.class.priced.way) }
        ensures one_each { IfOk result (λ planned. length planned.left.items ≡ length waits.items) }
        ensures grows { IfOk result (λ planned. GrowsByTimes planned.class.problem planned.left.items) }
    {
        let problem = build(self.alloc, jobs, &self.devices, &self.sets, waits)?;
        // Reading the problem gives its invariant.
        let _problem = problem.ids();
        let priced = planner.plan_class(&problem)?;
        best_at_most_timetables(&problem, &priced.way);
        let left = waits_after(self.alloc, &problem, &priced.way)?;
        let class = PlannedClass {
            priority,
            problem,
            priced,
        };
        Ok(Planned { class, left })
    }
}
