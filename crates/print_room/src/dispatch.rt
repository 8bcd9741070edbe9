//! The dispatch: a plan, and the jobs that it starts.
ghost use Rattle.std.specs.Prelude.{◌≡◌, ◌≤◌, ◌<◌, All, IfOk, OnOk, OnErr, true, false, IsOk, [], Some, length};
ghost use Rattle.plan_prices.specs.Plan.{PlanRecord};
ghost use Rattle.print_room.specs.Beginning.{AllCanBegin};
ghost use Rattle.print_room.specs.GoodPlan.{is_some_job};
ghost use Rattle.print_room.specs.Ready.{ready_of};
ghost use Rattle.print_room.specs.Dispatch.{DispatchedAs, beginning_all, marked_state};
ghost use Rattle.print_room.specs.StillGood.{IsStillGood, waits_stay};
ghost use Rattle.print_room.specs.DeviceJobs.{AllKeep};

use crate::activity::wait_of;
use crate::room::PrintRoom;
use crate::started::Started;
use crate::starting::starts_of;
use base_types::{Limits, Moment};
use plan_prices::{Plan, Planner};
use std::alloc::AllocError;

impl PrintRoom {
    /// Plans the ready jobs and starts the jobs that can start, at a moment that isn't before the last one.
    /// Returns whether a job was ready.
    ///
    /// If no job is ready, no plan is made, nothing changes and no memory is taken. Otherwise the priority
    /// classes are planned from the highest down. Given when the classes above leave each device free, each
    /// class has the least total of estimated completion times among all ways to assign its ready jobs to
    /// capable devices and order them. The plan's prices prove that to the checker, which reads the plan
    /// alone. Each ready job without a capable device is named with its cause. The plan is kept, and each
    /// running device that is idle and may begin a job starts the first of its list.
    ///
    /// The only error is out of memory, and nothing is changed then.
    pub fn dispatch<P: Planner>(&mut self, planner: &mut P, now: Moment) -> Result<bool, AllocError>
        requires { self.old.last ≤ now }
        ensures idle { is_some_job (ready_of self.old) ≡ false → IsOk result }
        ensures ok { IfOk result (λ planned. DispatchedAs now self.old planned self.new) }
        ensures keep { OnOk result (AllKeep self.old self.new) }
        ensures err { OnErr result (self.new ≡ self.old) }
    {
        if !self.has_ready_job() {
            return Ok(false);
        }
        if self.is_still_good(now) {
            self.start_again(now)?;
            return Ok(true);
        }
        self.plan_anew(planner, now)?;
        Ok(true)
    }

    /// Makes a plan of the ready jobs, of which there are some, and starts the jobs that can start.
    fn plan_anew<P: Planner>(&mut self, planner: &mut P, now: Moment) -> Result<(), AllocError>
        requires later { self.old.last ≤ now }
        requires ready { is_some_job (ready_of self.old) ≡ true }
        ensures ok { OnOk result (DispatchedAs now self.old true self.new) }
        ensures keep { OnOk result (AllKeep self.old self.new) }
        ensures err { OnErr result (self.new ≡ self.old) }
    {
        let plan = self.good_plan(planner, now)?;
        let starts = starts_of(self.alloc, plan.classes(), &self.devices, now)?;
        self.keep(now, plan);
        self.start_all(starts);
        Ok(())
    }

    /// Starts the jobs that can start under the last plan, which is still good.
    fn start_again(&mut self, now: Moment) -> Result<(), AllocError>
        requires later { self.old.last ≤ now }
        requires ready { is_some_job (ready_of self.old) ≡ true }
        requires good { IsStillGood now self.old }
        ensures ok { OnOk result (DispatchedAs now self.old true self.new) }
        ensures keep { OnOk result (AllKeep self.old self.new) }
        ensures err { OnErr result (self.new ≡ self.old) }
    {
        // Reading the jobs gives their invariant.
        let _jobs = self.spool.jobs();
        let Some(plan) = &self.plan else {
            return Ok(());
        };
        let starts = starts_of(self.alloc, plan.classes(), &self.devices, now)?;
        self.mark_again(now);
        self.start_all(starts);
        Ok(())
    }

    /// Returns whether the last plan is good for a moment: nothing that it depends on has changed since it
    /// was made, except the moment, and the wait of each device is the same.
    fn is_still_good(&self, now: Moment) -> bool
        ensures { result ≡ true → IsStillGood now self.now }
    {
        match self.good_for {
            Some(then) => self.waits_stay(then, now),
            None => false,
        }
    }

    /// Returns whether each device's wait is the same at both moments.
    fn waits_stay(&self, one: Moment, other: Moment) -> bool
        ensures { result ≡ waits_stay one other self.now.devices }
    {
        self.devices
            .iter()
            .all(|device| wait_of(device, one) == wait_of(device, other))
    }

    /// Keeps the plan, and marks each ready job as stranded or not, by the plan.
    fn keep(&mut self, now: Moment, plan: Plan)
        requires { self.old.last ≤ now }
        ensures { self.new ≡ marked_state now plan self.old }
    {
        self.advance(now);
        self.good_for = None;
        self.spool.mark(&self.printers, plan.stranded());
        self.plan = Some(plan);
    }

    /// Marks each ready job as stranded or not, by the last plan.
    fn mark_again(&mut self, now: Moment)
        requires { self.old.last ≤ now }
        ensures { (plan : PlanRecord) → self.old.plan ≡ Some plan → self.new ≡ marked_state now plan self.old }
    {
        self.advance(now);
        self.good_for = None;
        if let Some(plan) = &self.plan {
            self.spool.mark(&self.printers, plan.stranded());
        }
    }

    /// Starts jobs under the last plan. If there are none, the plan is still good afterwards.
    fn start_all(&mut self, starts: Vec<Started>)
        requires inside { All (λ start. start.device < length self.old.devices) starts.items }
        requires short { All (λ start. start.time ≤ Limits.JOB_TIME) starts.items }
        requires can { AllCanBegin self.old.last starts.items self.old }
        requires good { IsStillGood self.old.last (record self.old { begun = [] }) }
        ensures { self.new ≡ record (beginning_all self.old.last starts.items self.old) { begun = starts.items } }
    {
        let begins_none = starts.is_empty();
        for start in &starts {
            self.begin(*start);
        }
        self.begun = starts;
        self.good_for = if begins_none { Some(self.last) } else { None };
    }
}
