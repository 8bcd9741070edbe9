//! The test whether jobs in columns have fair prices.
ghost use Rattle.std.specs.Prelude.{◌≡◌, ℕ, ◌+◌, ◌<◌, ◌≤◌, [], IsTrue, length, slice_index, slice_index_or, vec_len};
ghost use Rattle.plan_solver.specs.Costs.{cost_at, cost_of, nowhere};
ghost use Rattle.plan_solver.specs.DeviceColumns.{AreColumnsOf, AreByDevice};
ghost use Rattle.plan_solver.specs.Matching.{HasRoom, IsFair};
ghost use Rattle.plan_solver.specs.AllPlaces.{place_on};
ghost use Rattle.plan_solver.specs.Begun.{IsFairAt, IsFairBeside, IsLaidOut};

use crate::begun::Begun;
use crate::costs::{Costs, Place, UNABLE, on_device};
use crate::device_columns::DeviceColumns;
use crate::matching::{Matching, slack};

/// Returns whether the prices are fair, for the free places too; if they are, sets the slacks. If not, lowers
/// `most` for each job that has a better place, to the number of places after its own.
pub(crate) fn fits(costs: &Costs, begun: &mut Begun, most: &mut [u64]) -> bool
    requires { IsLaidOut costs.now begun.old }
    ensures same { begun.new ≡ record begun.old { slacks = begun.new.slacks } }
    ensures one_each { vec_len begun.new.slacks ≡ vec_len begun.old.slacks }
    ensures fair { IsTrue result → IsFair (cost_of costs.now) begun.old.matching.jobs.items begun.old.matching.prices.items begun.old.matching.columns.items begun.old.matching.duals.items }
    ensures room { IsTrue result → HasRoom (cost_of costs.now) begun.old.matching.jobs.items begun.old.matching.prices.items begun.old.free.items begun.new.slacks.items }
{
    if !all_fair(costs, &begun.by_device, &begun.matching) {
        cut_unfair(costs, &begun.by_device, &begun.matching, most);
        return false;
    }
    renew_slacks(costs, begun);
    true
}

/// Sets the slacks to the amount by which all prices may rise before one exceeds the cost of a free place. If
/// no job is left, the slacks aren't needed, and are set to 0.
fn renew_slacks(costs: &Costs, begun: &mut Begun)
    requires laid_out { IsLaidOut costs.now begun.old }
    requires fair { IsFair (cost_of costs.now) begun.old.matching.jobs.items begun.old.matching.prices.items begun.old.free.items [] }
    ensures same { begun.new ≡ record begun.old { slacks = begun.new.slacks } }
    ensures one_each { vec_len begun.new.slacks ≡ vec_len begun.old.slacks }
    ensures room { HasRoom (cost_of costs.now) begun.old.matching.jobs.items begun.old.matching.prices.items begun.old.free.items begun.new.slacks.items }
{
    if begun.left.is_empty() {
        clear_slacks(&mut begun.slacks);
        return;
    }
    set_slacks(costs, &begun.matching, &begun.free, &mut begun.slacks);
}

/// Sets all slacks to 0.
fn clear_slacks(slacks: &mut [u64])
    ensures len { length slacks.new ≡ length slacks.old }
    ensures none { (f : ℕ) → f < length slacks.old → slice_index slacks.new f ≡ 0 }
{
    for slack in slacks.iter_mut() {
        *slack = 0;
    }
}

/// Sets the slack of each free place.
fn set_slacks(costs: &Costs, matching: &Matching, free: &[Place], slacks: &mut [u64])
    requires jobs { vec_len matching.now.jobs ≡ vec_len matching.now.columns }
    requires prices { vec_len matching.now.prices ≡ vec_len matching.now.columns }
    requires fair { IsFair (cost_of costs.now) matching.now.jobs.items matching.now.prices.items free.now [] }
    requires one_each { length slacks.old ≡ length free.now }
    ensures one_each { length slacks.new ≡ length slacks.old }
    ensures room { HasRoom (cost_of costs.now) matching.now.jobs.items matching.now.prices.items free.now slacks.new }
{
    for f in 0..free.len() {
        slacks[f] = slack(costs, matching, free[f]);
    }
}

/// Returns whether no job has a better place among the columns or the next places.
fn all_fair(costs: &Costs, by_device: &[DeviceColumns], matching: &Matching) -> bool
    requires jobs { vec_len matching.now.jobs ≡ vec_len matching.now.columns }
    requires prices { vec_len matching.now.prices ≡ vec_len matching.now.columns }
    requires duals { vec_len matching.now.duals ≡ vec_len matching.now.columns }
    requires by_device { AreByDevice (vec_len costs.now.waits) matching.now.columns.items by_device.now }
    ensures columns { IsTrue result → IsFair (cost_of costs.now) matching.now.jobs.items matching.now.prices.items matching.now.columns.items matching.now.duals.items }
    ensures next { IsTrue result → (q : ℕ) → q < vec_len matching.now.columns → IsFairBeside costs.now by_device.now matching.now q }
{
    for q in 0..matching.columns.len() {
        if !is_fair(costs, by_device, matching, q) {
            return false;
        }
    }
    true
}

/// Lowers `most` for each job that has a better place: its device keeps only the places after it.
fn cut_unfair(costs: &Costs, by_device: &[DeviceColumns], matching: &Matching, most: &mut [u64])
    requires jobs { vec_len matching.now.jobs ≡ vec_len matching.now.columns }
    requires prices { vec_len matching.now.prices ≡ vec_len matching.now.columns }
    requires duals { vec_len matching.now.duals ≡ vec_len matching.now.columns }
    requires by_device { AreByDevice (vec_len costs.now.waits) matching.now.columns.items by_device.now }
{
    for q in 0..matching.columns.len() {
        if !is_fair(costs, by_device, matching, q) {
            cut(most, matching.columns[q]);
        }
    }
}

/// Lowers the number of kept places of a place's device to those after the place.
fn cut(most: &mut [u64], place: Place) {
    if let Some(most) = most.get_mut(place.device) {
        *most = (*most).min(place.after);
    }
}

/// Returns whether the job at `q` has no better place among the columns or the next places.
fn is_fair(costs: &Costs, by_device: &[DeviceColumns], matching: &Matching, q: usize) -> bool
    requires here { q < vec_len matching.now.columns }
    requires jobs { vec_len matching.now.jobs ≡ vec_len matching.now.columns }
    requires prices { vec_len matching.now.prices ≡ vec_len matching.now.columns }
    requires duals { vec_len matching.now.duals ≡ vec_len matching.now.columns }
    requires by_device { AreByDevice (vec_len costs.now.waits) matching.now.columns.items by_device.now }
    ensures columns { IsTrue result → IsFairAt costs.now matching.now q }
    ensures next { IsTrue result → IsFairBeside costs.now by_device.now matching.now q }
{
    let row = costs.row(matching.jobs[q]);
    let price = matching.prices[q];
    if price > UNABLE {
        return false;
    }
    for device in 0..by_device.len() {
        let device_columns = by_device[device].columns();
        if !is_fair_on(&costs.waits, row, device, device_columns, matching, price) {
            return false;
        }
    }
    true
}

/// Returns whether no column of the device, nor its next place, is better for a job with these times and this
/// charge. Once the cost of a place by itself is at least the charge, so is the cost of each place before it.
fn is_fair_on(
    waits: &[u64],
    row: &[u64],
    device: usize,
    device_columns: &[usize],
    matching: &Matching,
    price: u64,
) -> bool
    requires duals { vec_len matching.now.duals ≡ vec_len matching.now.columns }
    requires device_columns { AreColumnsOf device matching.now.columns.items device_columns.now }
    requires low { price ≤ UNABLE }
    ensures columns { IsTrue result → (c : ℕ) → c < vec_len matching.now.columns → (slice_index_or matching.now.columns.items c nowhere).device ≡ device
        → price ≤ cost_at waits.now row.now (slice_index_or matching.now.columns.items c nowhere) + slice_index matching.now.duals.items c }
    ensures next { IsTrue result → price ≤ cost_at waits.now row.now (place_on device (length device_columns.now)) }
{
    let time = on_device(row, device);
    let mut left = price.saturating_sub(on_device(waits, device));
    for after in 0..device_columns.len() {
        if time >= left {
            return true;
        }
        left -= time;
        if matching.duals[device_columns[after]] < left {
            return false;
        }
    }
    if time < left {
        return false;
    }
    true
}
