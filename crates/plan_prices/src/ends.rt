//! The completion times of the jobs of a way.
ghost use Rattle.std.specs.Prelude.{◌≡◌, ℕ, ◌<◌, All, IfOk, length};
ghost use Rattle.std.specs.List.{slice_set};
ghost use Rattle.plan_problem.specs.Class.{place_of};
ghost use Rattle.plan_prices.specs.Way.{IsWay, queue_of};
ghost use Rattle.plan_prices.specs.OrderedSoFar.{AreEnds, IsEnd};

use crate::way::Way;
use crate::way_total::time_or_zero;
use base_types::{DeviceId, JobId};
use plan_problem::ClassProblem;
use std::alloc::{AllocError, Global};

/// The completion time of each job of the class, in ms. The only error is out of memory.
pub(crate) fn ends(alloc: Global, class: &ClassProblem, way: &Way) -> Result<Vec<u64>, AllocError>
    requires { IsWay class.now way.now }
    ensures { IfOk result (λ ends. AreEnds class.now way.now ends.items) }
{
    let mut ends = vec![in alloc; 0; class.ids().len()]?;
    for place in 0..way.queues().len() {
        write_ends(class, way, DeviceId::new(place), &mut ends);
    }
    Ok(ends)
}

/// Writes the completion times of the jobs of a device.
fn write_ends(class: &ClassProblem, way: &Way, device: DeviceId, ends: &mut [u64])
    requires way { IsWay class.now way.now }
    requires device { device < length way.now }
    requires one_each { length ends.old ≡ length class.now.ids }
    ensures one_each { length ends.new ≡ length class.now.ids }
    ensures stay { (job : ℕ) → IsEnd class.now way.now ends.old job → IsEnd class.now way.now ends.new job }
    ensures here { All (IsEnd class.now way.now ends.new) (queue_of way.now device) }
{
    let mut free = class.wait(device);
    for job in way.queues()[device.place()].jobs() {
        free += time_or_zero(class, *job, device);
        write_end(class, ends, *job, free);
    }
}

/// Writes the completion time of a job.
fn write_end(class: &ClassProblem, ends: &mut [u64], job: JobId, end: u64)
    requires { length ends.old ≡ length class.now.ids }
    ensures { ends.new ≡ slice_set ends.old (place_of class.now.ids job) end }
{
    if let Some(place) = class.place(job) {
        ends[place] = end;
    }
}
