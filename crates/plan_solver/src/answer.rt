//! The priced way of a matching.
ghost use Rattle.std.specs.Prelude.{◌≡◌, ℕ, ◌^◌, ◌<◌, ◌≤◌, IfOk, List, length, map, pos, slice_index, sum, vec_len};
ghost use Rattle.std.specs.List.{range_with_len};
ghost use Rattle.std.specs.List.Sorted.{IsPermutation};
ghost use Rattle.plan_solver.specs.Answer.{cost_of_columns, place_prices_of, price_of_dual, queue_of_columns, duals_of_columns, way_of};

use crate::costs::{Costs, UNABLE, cost};
use crate::matching::Matching;
use crate::times::Entries;
use base_types::JobId;
use plan_prices::{PlacePrices, Prices, Queue, Way};
use std::alloc::{AllocError, Global};

/// The way of a matching: each device prints the jobs of its columns, the latest column first.
pub(crate) fn way(alloc: Global, entries: &Entries, matching: &Matching) -> Result<Way, AllocError>
    requires jobs_len { vec_len matching.now.jobs ≡ vec_len matching.now.columns }
    requires known { (c : ℕ) → c < vec_len matching.now.jobs → slice_index matching.now.jobs.items c < vec_len entries.now.ids }
    ensures { IfOk result (λ way. way ≡ way_of entries.now matching.now) }
{
    let mut queues = Vec::new(alloc);
    for device in 0..entries.costs.waits.len() {
        queues.push(queue(alloc, &entries.ids, matching, device)?)?;
    }
    Ok(Way::new(queues))
}

/// The list of jobs of a device, the first to be printed first.
fn queue(
    alloc: Global,
    ids: &[JobId],
    matching: &Matching,
    device: usize,
) -> Result<Queue, AllocError>
    requires jobs_len { vec_len matching.now.jobs ≡ vec_len matching.now.columns }
    requires known { (c : ℕ) → c < vec_len matching.now.jobs → slice_index matching.now.jobs.items c < length ids.now }
    ensures { IfOk result (λ queue. queue ≡ queue_of_columns device ids.now matching.now.columns.items matching.now.jobs.items (vec_len matching.now.columns)) }
{
    let mut jobs = Vec::new(alloc);
    for column in (0..matching.columns.len()).rev() {
        if matching.columns[column].device == device {
            jobs.push(ids[matching.jobs[column]])?;
        }
    }
    Ok(Queue::new(jobs))
}

/// The prices of the jobs and of the used places.
pub(crate) fn prices(
    alloc: Global,
    entries: &Entries,
    matching: &Matching,
) -> Result<Prices, AllocError>
    requires sizes { (vec_len matching.now.prices ≡ vec_len matching.now.jobs) × (vec_len matching.now.duals ≡ vec_len matching.now.columns) }
    requires all { IsPermutation (range_with_len 0 (vec_len matching.now.jobs)) matching.now.jobs.items }
    requires prices_low { (q : ℕ) → q < vec_len matching.now.prices → slice_index matching.now.prices.items q ≤ UNABLE }
    requires duals_low { (c : ℕ) → c < vec_len matching.now.duals → slice_index matching.now.duals.items c ≤ UNABLE }
    ensures jobs { IfOk result (λ p. (u : List ℕ) × (length u ≡ vec_len matching.now.jobs) × (p.jobs ≡ map pos u) × (sum u ≡ sum matching.now.prices.items)
        × ((c : ℕ) → c < vec_len matching.now.jobs → slice_index u (slice_index matching.now.jobs.items c) ≡ slice_index matching.now.prices.items c)) }
    ensures places { IfOk result (λ p. p.places ≡ place_prices_of entries.now matching.now) }
{
    let charged = by_job(alloc, &matching.jobs, &matching.prices)?;
    let jobs = signed(alloc, &charged)?;
    let mut places = Vec::new(alloc);
    for device in 0..entries.costs.waits.len() {
        places.push(place_prices(alloc, matching, device)?)?;
    }
    Ok(Prices::new(jobs, places))
}

/// The price of each job, in the order of jobs.
fn by_job(alloc: Global, jobs: &[usize], prices: &[u64]) -> Result<Vec<u64>, AllocError>
    requires len { length prices.now ≡ length jobs.now }
    requires all { IsPermutation (range_with_len 0 (length jobs.now)) jobs.now }
    requires low { (q : ℕ) → q < length prices.now → slice_index prices.now q ≤ UNABLE }
    ensures len { IfOk result (λ u. vec_len u ≡ length jobs.now) }
    ensures low { IfOk result (λ u. (j : ℕ) → slice_index u.items j ≤ UNABLE) }
    ensures at { IfOk result (λ u. (c : ℕ) → c < length jobs.now
        → slice_index u.items (slice_index jobs.now c) ≡ slice_index prices.now c) }
    ensures total { IfOk result (λ u. sum u.items ≡ sum prices.now) }
{
    let mut charged = vec![in alloc; 0; jobs.len()]?;
    for (c, job) in jobs.iter().enumerate() {
        charged[*job] = prices[c];
    }
    Ok(charged)
}

/// The values as signed numbers.
fn signed(alloc: Global, values: &[u64]) -> Result<Vec<i64>, AllocError>
    requires { (j : ℕ) → j < length values.now → slice_index values.now j ≤ UNABLE }
    ensures { IfOk result (λ signed. signed.items ≡ map pos values.now) }
{
    let mut signed = Vec::new(alloc);
    for value in values {
        signed.push(*value as i64)?;
    }
    Ok(signed)
}

/// The prices of a device's used places, the last place first: the negatives of its columns' duals.
fn place_prices(
    alloc: Global,
    matching: &Matching,
    device: usize,
) -> Result<PlacePrices, AllocError>
    requires len { vec_len matching.now.duals ≡ vec_len matching.now.columns }
    requires low { (c : ℕ) → c < vec_len matching.now.duals → slice_index matching.now.duals.items c ≤ UNABLE }
    ensures { IfOk result (λ prices. prices ≡ map price_of_dual (duals_of_columns device matching.now.columns.items matching.now.duals.items (vec_len matching.now.columns))) }
{
    let mut prices = Vec::new(alloc);
    for column in 0..matching.columns.len() {
        if matching.columns[column].device == device {
            prices.push(-(matching.duals[column] as i64))?;
        }
    }
    Ok(PlacePrices::new(prices))
}

/// The cost of the matched jobs at their places.
pub(crate) fn total(costs: &Costs, matching: &Matching) -> u64
    requires len { vec_len matching.now.jobs ≡ vec_len matching.now.columns }
    requires fits { cost_of_columns costs.now matching.now.columns.items matching.now.jobs.items (vec_len matching.now.columns) < 2 ^ 64 }
    ensures { result ≡ cost_of_columns costs.now matching.now.columns.items matching.now.jobs.items (vec_len matching.now.columns) }
{
    let mut sum = 0;
    for column in 0..matching.columns.len() {
        sum += cost(
            &costs.waits,
            costs.row(matching.jobs[column]),
            matching.columns[column],
        );
    }
    sum
}
