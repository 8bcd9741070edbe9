//! The waits of the devices after a way.
ghost use Rattle.std.specs.Prelude.{◌≡◌, ◌↔◌, ◌+◌, ◌^◌, ◌<◌, length, IfOk, IsTrue};
ghost use Rattle.plan_problem.specs.Class.{wait_in};
ghost use Rattle.plan_prices.specs.Way.{IsWay};
ghost use Rattle.plan_prices.specs.Total.{busy_time};
ghost use Rattle.plan_prices.specs.Waits.{GrowsByTimes, waits_after as waits_left};

use crate::way::Way;
use crate::way_total::time_or_zero;
use base_types::{DeviceId, JobId};
use plan_problem::ClassProblem;
use std::alloc::{AllocError, Global};

/// The wait of each device after the way, in ms: its wait before, and the times of all its jobs. No wait
/// exceeds the longest wait before by more than the jobs of the class can take at most. The only error is out
/// of memory.
pub fn waits_after(alloc: Global, class: &ClassProblem, way: &Way) -> Result<Vec<u64>, AllocError>
    requires { IsWay class.now way.now }
    ensures left { IfOk result (λ waits. waits.items ≡ waits_left class.now way.now) }
    ensures one_each { IfOk result (λ waits. length waits.items ≡ length class.now.waits) }
    ensures bounded { IfOk result (λ waits. GrowsByTimes class.now waits.items) }
{
    // Reading the class gives its invariant.
    let _class = class.ids();
    let mut after = Vec::new(alloc);
    for (place, queue) in way.queues().iter().enumerate() {
        after.push(free_after(class, DeviceId::new(place), queue.jobs()))?;
    }
    Ok(after)
}

/// Returns whether `next` are the waits after the way, as [`waits_after`] returns them. The call takes no
/// memory.
pub fn leaves_waits(class: &ClassProblem, way: &Way, next: &[u64]) -> bool
    requires way { IsWay class.now way.now }
    requires next { length next.now ≡ length class.now.waits }
    ensures { IsTrue result ↔ (next.now ≡ waits_left class.now way.now) }
{
    // Reading the class gives its invariant.
    let _class = class.ids();
    for (place, queue) in way.queues().iter().enumerate() {
        if free_after(class, DeviceId::new(place), queue.jobs()) != next[place] {
            return false;
        }
    }
    true
}

/// The wait of a device after a list of jobs: its wait before, and their times.
#[tactic(auto, using(crate::proofs::Steps::busy_time_step))]
pub(crate) fn free_after(class: &ClassProblem, device: DeviceId, jobs: &[JobId]) -> u64
    requires device { device < length class.now.waits }
    requires fits { wait_in class.now device + busy_time class.now device jobs.now < 2 ^ 64 }
    ensures { result ≡ wait_in class.now device + busy_time class.now device jobs.now }
{
    let mut free = class.wait(device);
    for job in jobs {
        free += time_or_zero(class, *job, device);
    }
    free
}
