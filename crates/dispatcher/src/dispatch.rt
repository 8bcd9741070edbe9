//! The dispatch: a plan, and the jobs that it starts.
ghost use Rattle.std.specs.Prelude.{◌≡◌, max, IfOk, IfSome, OnErr, false, IsOk};
ghost use Rattle.std.specs.Option.{option_copied};
ghost use Rattle.print_room.specs.GoodPlan.{IsGoodPlan, is_some_job};
ghost use Rattle.print_room.specs.Ready.{ready_of};
ghost use Rattle.print_room.specs.Dispatch.{Dispatches};
ghost use Rattle.dispatcher.specs.Dispatched.{plan_of, started_of, plan_if, begun_if};

use crate::server_core::Core;
use base_types::Moment;
use plan_prices::{Plan, Planner};
use print_room::{PrintRoom, Started};
use std::alloc::AllocError;

/// A view of the last dispatch.
#[derive(Clone, Copy)]
pub struct Dispatched<'a> {
    room: &'a PrintRoom,
    planned: bool,
}

impl Dispatched<'_> {
    /// The plan, if the dispatch made one.
    pub fn plan(&self) -> Option<&Plan>
        ensures { option_copied result ≡ plan_of self.now }
    {
        if self.planned { self.room.plan() } else { None }
    }

    /// The jobs that the dispatch began, by device.
    pub fn started(&self) -> &[Started]
        ensures { result.now ≡ started_of self.now }
    {
        if self.planned { self.room.begun() } else { &[] }
    }
}

impl<P: Planner + Drop> Core<P> {
    /// Plans the ready jobs and starts the jobs that can start, at a moment; if that is before the last
    /// moment, at the last moment. Returns whether a plan was made; [`Core::dispatched`] shows it.
    ///
    /// If no job is ready, no plan is made, nothing changes and no memory is taken. Otherwise the priority
    /// classes are planned from the highest down. Given when the classes above leave each device free, each
    /// class has the least total of estimated completion times among all ways to assign its ready jobs to
    /// capable devices and order them. The plan's prices prove that to the checker, which reads the plan
    /// alone. Each ready job without a capable device is named with its cause. The plan is kept, and each
    /// running device that is idle and may begin a job starts the first of its list.
    ///
    /// The only error is out of memory, and nothing is changed then.
    pub fn dispatch(&mut self, moment: Moment) -> Result<bool, AllocError>
        ensures idle { is_some_job (ready_of self.old) ≡ false → IsOk result }
        ensures planned { IfOk result (λ planned. planned ≡ is_some_job (ready_of self.old)) }
        ensures good { IfOk result (λ planned. IfSome (plan_if planned self.new) (λ plan. IsGoodPlan (max moment self.old.last) self.old plan)) }
        ensures ends { IfOk result (λ planned. Dispatches (max moment self.old.last) self.old (plan_if planned self.new) (begun_if planned self.new) self.new) }
        ensures err { OnErr result (self.new ≡ self.old) }
    {
        let now = moment.later(self.room.last());
        self.room.dispatch(&mut self.planner, now)
    }

    /// A view of the last dispatch. `planned` indicates whether it made a plan.
    pub fn dispatched(&self, planned: bool) -> Dispatched<'_>
        ensures plan { plan_of result ≡ plan_if planned self.now }
        ensures started { started_of result ≡ begun_if planned self.now }
    {
        Dispatched {
            room: &self.room,
            planned,
        }
    }
}
