//! The planner that searches all places of each device. It is slow, and is for comparison.
ghost use Rattle.std.specs.Prelude.{◌≡◌, ◌≢◌, ℕ, ◌+◌, ◌<◌, ◌≤◌, ◌⊎◌, ◌∷◌, [], ◌++◌, ◌^◌, All, Contains, IfOk, OnOk, vec_len};
ghost use Rattle.std.specs.List.{range_with_len};
ghost use Rattle.std.specs.List.Sorted.{IsPermutation};
ghost use Rattle.plan_solver.specs.declared.costs.Place.{Place};
ghost use Rattle.plan_solver.specs.Costs.{cost_of};
ghost use Rattle.plan_solver.specs.Matching.{IsFairlyMatched};
ghost use Rattle.plan_solver.specs.DeviceColumns.{AreByDevice};
ghost use Rattle.plan_solver.specs.Layout.{IsFilled, IsLaid};
ghost use Rattle.plan_solver.specs.AllPlaces.{CanFill, ShowsAll, place_on};

use crate::costs::{Costs, Place};
use crate::device_columns::{DeviceColumns, add_to_device, no_columns};
use crate::hint::Hint;
use crate::matching::{Matching, augment};
use crate::order::longest_first;
use crate::solver::solve;
use std::alloc::{AllocError, Global};

/// The free places that each device shows.
#[derive(Clone, Copy)]
pub(crate) enum Shown {
    Next,
    All,
}

/// Matches all jobs, one by one, with these free places of each device. The hint is used only with `Next`.
pub(crate) fn match_all(
    alloc: Global,
    costs: &Costs,
    shown: Shown,
    hint: &Hint,
) -> Result<Matching, AllocError>
    requires { CanFill costs.now }
    ensures filled { IfOk result (λ s. IsFilled costs.now s) }
    ensures all { IfOk result (λ s. IsPermutation (range_with_len 0 (vec_len costs.now.rows)) s.jobs.items) }
{
    match shown {
        Shown::Next => solve(alloc, costs, hint),
        Shown::All => solve_densely(alloc, costs),
    }
}

/// Matches all jobs, one by one, with all free places of each device.
fn solve_densely(alloc: Global, costs: &Costs) -> Result<Matching, AllocError>
    requires { CanFill costs.now }
    ensures filled { IfOk result (λ s. IsFilled costs.now s) }
    ensures all { IfOk result (λ s. IsPermutation (range_with_len 0 (vec_len costs.now.rows)) s.jobs.items) }
{
    let order = longest_first(alloc, costs)?;
    let mut free = all_places(alloc, costs.waits.len(), costs.rows.len())?;
    let mut by_device = no_columns(alloc, costs.waits.len())?;
    let mut matching = Matching {
        columns: Vec::new(alloc),
        duals: Vec::new(alloc),
        jobs: Vec::new(alloc),
        prices: Vec::new(alloc),
    };
    for place in 0..order.len() {
        free = match_among(
            alloc,
            costs,
            &mut by_device,
            &mut matching,
            &free,
            order[place],
        )?;
    }
    Ok(matching)
}

/// Matches one more job at one of the free places. Returns the places that are left.
fn match_among(
    alloc: Global,
    costs: &Costs,
    by_device: &mut [DeviceColumns],
    matching: &mut Matching,
    free: &[Place],
    job: usize,
) -> Result<Vec<Place>, AllocError>
    requires fill { CanFill costs.now }
    requires job { job < vec_len costs.now.rows }
    requires room { vec_len matching.old.columns < vec_len costs.now.rows }
    requires known { All (λ j. j < vec_len costs.now.rows) matching.old.jobs.items }
    requires matched { IsFairlyMatched (cost_of costs.now) matching.old free.now }
    requires laid { IsLaid (vec_len costs.now.waits) matching.old.columns.items }
    requires by_device { AreByDevice (vec_len costs.now.waits) matching.old.columns.items by_device.old }
    requires shows { ShowsAll costs.now matching.old.columns.items free.now }
    ensures known { IfOk result (λ _. All (λ j. j < vec_len costs.now.rows) matching.new.jobs.items) }
    ensures count { IfOk result (λ _. vec_len matching.new.columns ≡ vec_len matching.old.columns + 1) }
    ensures matched { IfOk result (λ left. IsFairlyMatched (cost_of costs.now) matching.new left.items) }
    ensures laid { IfOk result (λ _. IsLaid (vec_len costs.now.waits) matching.new.columns.items) }
    ensures by_device { IfOk result (λ _. AreByDevice (vec_len costs.now.waits) matching.new.columns.items by_device.new) }
    ensures shows { IfOk result (λ left. ShowsAll costs.now matching.new.columns.items left.items) }
    ensures jobs { IfOk result (λ _. IsPermutation (matching.old.jobs.items ++ job ∷ []) matching.new.jobs.items) }
{
    let column = matching.columns.len();
    let at = augment(alloc, costs, by_device, matching, free, &mut [], job)?;
    let taken = free[at];
    add_to_device(by_device, taken.device, column)?;
    let left = without(alloc, free, taken)?;
    Ok(left)
}

/// The places except one.
fn without(alloc: Global, places: &[Place], taken: Place) -> Result<Vec<Place>, AllocError>
    ensures kept { IfOk result (λ left. (p : Place) → Contains places.now p → p ≢ taken → Contains left.items p) }
    ensures only { IfOk result (λ left. (p : Place) → Contains left.items p → Contains places.now p × (p ≢ taken)) }
{
    let mut left = Vec::new(alloc);
    for place in places {
        push_unless(&mut left, *place, taken)?;
    }
    Ok(left)
}

/// Appends a place, unless it is `taken`.
fn push_unless(left: &mut Vec<Place>, place: Place, taken: Place) -> Result<(), AllocError>
    ensures { OnOk result (((place ≢ taken) × (left.new.items ≡ left.old.items ++ place ∷ [])) ⊎ ((place ≡ taken) × (left.new.items ≡ left.old.items))) }
{
    if place != taken {
        left.push(place)?;
    }
    Ok(())
}

/// The first `jobs` places of each device, and one more.
fn all_places(alloc: Global, devices: usize, jobs: usize) -> Result<Vec<Place>, AllocError>
    requires { jobs < 2 ^ 63 }
    ensures there { IfOk result (λ places. (device after : ℕ) → device < devices → after ≤ jobs → Contains places.items (place_on device after)) }
    ensures only { IfOk result (λ places. (p : Place) → Contains places.items p → p.device < devices) }
{
    let mut places = Vec::new(alloc);
    for device in 0..devices {
        push_places(&mut places, device, jobs as u64)?;
    }
    Ok(places)
}

/// Appends the places of a device, up to the place with `most` places after it.
fn push_places(places: &mut Vec<Place>, device: usize, most: u64) -> Result<(), AllocError>
    requires { most + 1 < u64.MAX }
    ensures there { OnOk result ((after : ℕ) → after ≤ most → Contains places.new.items (place_on device after)) }
    ensures kept { OnOk result ((p : Place) → Contains places.old.items p → Contains places.new.items p) }
    ensures only { OnOk result ((p : Place) → Contains places.new.items p → Contains places.old.items p ⊎ (p.device ≡ device)) }
{
    for after in 0..most + 1 {
        places.push(Place { device, after })?;
    }
    Ok(())
}
