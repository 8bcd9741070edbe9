//! Marks of jobs, hashes of their times: equal jobs, whose times are the same on each device, have equal marks.
ghost use Rattle.std.specs.Prelude.{◌≡◌, ℕ, ◌<◌, IfOk, slice_index, vec_len};
ghost use Rattle.plan_solver.specs.Costs.{row_of};
ghost use Rattle.plan_solver.specs.Marks.{mark_of, mixed as mixed_in};

use crate::costs::Costs;
use std::alloc::{AllocError, Global};

/// The mark of each job. The only error is out of memory.
pub(crate) fn marks(alloc: Global, costs: &Costs) -> Result<Vec<u64>, AllocError>
    ensures one_each { IfOk result (λ marks. vec_len marks ≡ vec_len costs.now.rows) }
    ensures at { IfOk result (λ marks. (job : ℕ) → job < vec_len costs.now.rows → slice_index marks.items job ≡ mark_of (row_of costs.now job)) }
{
    let mut marks = Vec::with_capacity(alloc, costs.rows.len())?;
    for job in 0..costs.rows.len() {
        marks.push(mark(costs.row(job)))?;
    }
    Ok(marks)
}

/// A hash of a job's times.
fn mark(times: &[u64]) -> u64
    ensures { result ≡ mark_of times.now }
{
    let mut mark = 0;
    for time in times {
        mark = mixed(mark, *time);
    }
    mark
}

/// The hash of some times, with one more time.
fn mixed(mark: u64, time: u64) -> u64
    ensures { result ≡ mixed_in mark time }
{
    mark.wrapping_mul(31).wrapping_add(time)
}
