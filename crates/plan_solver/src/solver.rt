//! The planner that searches the places up to the next free place of each device.
ghost use Rattle.std.specs.Prelude.{◌≡◌, ◌<◌, [], ◌∷◌, ◌++◌, IfOk, OnOk, length, vec_len};
ghost use Rattle.std.specs.List.{range_with_len};
ghost use Rattle.std.specs.List.Sorted.{IsPermutation};
ghost use Rattle.plan_solver.specs.Costs.{cost_of};
ghost use Rattle.plan_solver.specs.Matching.{HasRoom, IsFairlyMatched};
ghost use Rattle.plan_solver.specs.DeviceColumns.{AreByDevice};
ghost use Rattle.plan_solver.specs.Layout.{IsFilled, IsLaid, ShowsNext};

use crate::begun::{Begun, begin_by};
use crate::costs::{Costs, Place};
use crate::device_columns::{DeviceColumns, add_to_device};
use crate::free_places::advance;
use crate::hint::Hint;
use crate::matching::{Matching, augment, lift, slack};
use std::alloc::{AllocError, Global};

/// Matches all jobs, one by one, with only the next free place of each device. The jobs that can stay at
/// their hinted places are matched there first.
pub(crate) fn solve(alloc: Global, costs: &Costs, hint: &Hint) -> Result<Matching, AllocError>
    requires { 0 < vec_len costs.now.rows → 0 < vec_len costs.now.waits }
    ensures filled { IfOk result (λ s. IsFilled costs.now s) }
    ensures all { IfOk result (λ s. IsPermutation (range_with_len 0 (vec_len costs.now.rows)) s.jobs.items) }
{
    let Begun {
        mut matching,
        mut by_device,
        mut free,
        mut slacks,
        left,
    } = begin_by(alloc, costs, hint)?;
    for place in 0..left.len() {
        add_job(
            alloc,
            costs,
            &mut by_device,
            &mut matching,
            &mut free,
            &mut slacks,
            left[place],
        )?;
    }
    Ok(matching)
}

/// Matches one more job, and replaces the free place that it took by the place before it.
fn add_job(
    alloc: Global,
    costs: &Costs,
    by_device: &mut [DeviceColumns],
    matching: &mut Matching,
    free: &mut [Place],
    slacks: &mut [u64],
    job: usize,
) -> Result<(), AllocError>
    requires some { 0 < vec_len costs.now.waits }
    requires matched { IsFairlyMatched (cost_of costs.now) matching.old free.old }
    requires laid { IsLaid (vec_len costs.now.waits) matching.old.columns.items }
    requires by_device { AreByDevice (vec_len costs.now.waits) matching.old.columns.items by_device.old }
    requires shows { ShowsNext (vec_len costs.now.waits) matching.old.columns.items free.old }
    requires one_each { length slacks.old ≡ vec_len costs.now.waits }
    requires room { HasRoom (cost_of costs.now) matching.old.jobs.items matching.old.prices.items free.old slacks.old }
    ensures matched { OnOk result (IsFairlyMatched (cost_of costs.now) matching.new free.new) }
    ensures laid { OnOk result (IsLaid (vec_len costs.now.waits) matching.new.columns.items) }
    ensures by_device { OnOk result (AreByDevice (vec_len costs.now.waits) matching.new.columns.items by_device.new) }
    ensures shows { OnOk result (ShowsNext (vec_len costs.now.waits) matching.new.columns.items free.new) }
    ensures one_each { OnOk result (length slacks.new ≡ vec_len costs.now.waits) }
    ensures room { OnOk result (HasRoom (cost_of costs.now) matching.new.jobs.items matching.new.prices.items free.new slacks.new) }
    ensures jobs { OnOk result (IsPermutation (matching.old.jobs.items ++ job ∷ []) matching.new.jobs.items) }
{
    let column = matching.columns.len();
    let device = augment(alloc, costs, by_device, matching, free, slacks, job)?;
    add_to_device(by_device, device, column)?;
    advance(free, device);
    slacks[device] = slack(costs, matching, free[device]);
    lift(costs, matching, free, slacks);
    Ok(())
}
