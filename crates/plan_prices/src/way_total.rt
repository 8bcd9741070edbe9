//! The total of a way.
ghost use Rattle.std.specs.Prelude.{◌≡◌, ◌^◌, ◌<◌, length};
ghost use Rattle.plan_problem.specs.Class.{wait_in};
ghost use Rattle.plan_prices.specs.Way.{IsWay};
ghost use Rattle.plan_prices.specs.Total.{time_on, list_cost, total_of, total_by_places};

use crate::way::Way;
use base_types::{DeviceId, JobId};
use plan_problem::ClassProblem;

/// The sum of the completion times of all jobs of a way, in ms. The completion time of a job is its device's
/// wait, the times of the jobs before it, and its own time.
///
/// By places, the sum is the same: each job adds the wait of its device, and its time as often as its place
/// from the end of the list.
pub fn total(class: &ClassProblem, way: &Way) -> u64
    requires { IsWay class.now way.now }
    ensures completions { result ≡ total_of class.now way.now }
    ensures places { result ≡ total_by_places class.now way.now }
{
    // Reading the class gives its invariant.
    let _class = class.ids();
    let mut sum = 0;
    for (place, queue) in way.queues().iter().enumerate() {
        sum += queue_total(class, DeviceId::new(place), queue.jobs());
    }
    sum
}

/// The sum of the completion times of the jobs of one device, computed by places.
#[tactic(auto, using(crate::proofs::Steps::list_total_step))]
fn queue_total(class: &ClassProblem, device: DeviceId, jobs: &[JobId]) -> u64
    requires device { device < length class.now.waits }
    requires fits { list_cost class.now device (wait_in class.now device) jobs.now < 2 ^ 64 }
    ensures { result ≡ list_cost class.now device (wait_in class.now device) jobs.now }
{
    let mut free = class.wait(device);
    let mut sum = 0;
    for job in jobs {
        free += time_or_zero(class, *job, device);
        sum += free;
    }
    sum
}

/// The time of a job on a device that is able, in ms; 0 on any other.
pub(crate) fn time_or_zero(class: &ClassProblem, job: JobId, device: DeviceId) -> u64
    ensures { result ≡ time_on class.now job device }
{
    class.time(job, device).unwrap_or(0)
}
