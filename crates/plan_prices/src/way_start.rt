//! The start of a job by a way.
ghost use Rattle.std.specs.Prelude.{◌≡◌, ◌+◌, Contains, IfSome, MatchOption};
ghost use Rattle.std.specs.List.{concat};
ghost use Rattle.plan_prices.specs.Way.{IsWay};
ghost use Rattle.plan_prices.specs.Total.{completion_of, time_on, total_of};
ghost use Rattle.plan_prices.specs.Timetable.{IsTimetable, own_slots, slots_total};

use crate::way::Way;
use crate::way_waits::free_after;
use base_types::{DeviceId, JobId};
use plan_problem::{ClassProblem, place_in};

/// The device of a job and its start there, in ms from the moment from which the waits are counted: once the
/// device is free and the jobs before it are done. `None` if the job isn't in the way.
///
/// The job is complete when its time there has passed since its start. These starts are a timetable with the
/// way's total.
pub fn start_of(class: &ClassProblem, way: &Way, job: JobId) -> Option<(DeviceId, u64)>
    requires { IsWay class.now way.now }
    ensures start { MatchOption result (¬ Contains (concat way.now) job)
        (λ found. Contains (own_slots class.now way.now) (record { job = job; device = found.0; start = found.1 })) }
    ensures completion { IfSome result (λ found. found.1 + time_on class.now job found.0 ≡ completion_of class.now way.now job) }
    ensures timetable { IsTimetable class.now (own_slots class.now way.now) }
    ensures total { slots_total class.now (own_slots class.now way.now) ≡ total_of class.now way.now }
{
    // Reading the class gives its invariant.
    let _class = class.ids();
    for (place, queue) in way.queues().iter().enumerate() {
        let jobs = queue.jobs();
        if let Some(before) = place_in(jobs, job) {
            let device = DeviceId::new(place);
            return Some((device, free_after(class, device, &jobs[..before])));
        }
    }
    None
}
