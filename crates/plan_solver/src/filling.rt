//! Fills vacant columns, and next places that are better for a job than its own: jobs move there, and columns
//! from which a job moved away are removed. The functions have no contracts: they only make a hint better.
//!
//! A job without a column takes part from a place of no device, which costs the job its highest fair price. If
//! a search ends there, the job is matched, and the planner needn't search for its place.

use crate::costs::{Costs, Place, UNABLE, cost};
use crate::matching::Matching;
use crate::recall::drop_column;
use crate::vacancy::{DeviceTimes, VACANT, set, vacate};
use crate::worth::most_changes;
use std::alloc::{AllocError, Global};

/// The place of a job without a column.
const NOWHERE: Place = Place {
    device: usize::MAX,
    after: 0,
};

/// Fills or removes the vacant columns. Then fills the next places of better devices, as long as one is better
/// for a job than its own.
pub(crate) fn fill(
    alloc: Global,
    costs: &Costs,
    matching: &mut Matching,
    better: &[bool],
) -> Result<(), AllocError> {
    if !better.contains(&true) && !matching.jobs.contains(&VACANT) {
        return Ok(());
    }
    add_left(alloc, costs, matching, better)?;
    fill_all(alloc, costs, matching, better)?;
    drop_left(matching);
    Ok(())
}

/// Fills or removes vacant columns one by one. If the searches settle too many columns, the others stay vacant,
/// and the jobs before them are matched anew.
fn fill_all(
    alloc: Global,
    costs: &Costs,
    matching: &mut Matching,
    better: &[bool],
) -> Result<(), AllocError> {
    let most = matching.columns.len().saturating_mul(most_changes(costs));
    let mut times = DeviceTimes::new(alloc, costs.waits.len())?;
    let mut settled: usize = 0;
    for _ in 0..most {
        let Some(column) = vacant_column(costs, matching, better)? else {
            return Ok(());
        };
        settled = settled.saturating_add(vacate(alloc, costs, &mut times, matching, column)?);
        if settled >= most {
            return Ok(());
        }
    }
    Ok(())
}

/// Adds the jobs that have no column, each at [`NOWHERE`].
fn add_left(
    alloc: Global,
    costs: &Costs,
    matching: &mut Matching,
    better: &[bool],
) -> Result<(), AllocError> {
    let left = left_jobs(alloc, costs, matching)?;
    let next = next_columns(alloc, costs, matching, better)?;
    for job in left {
        let row = costs.row(job);
        let price = fair_price(costs, matching, row).min(fair_price(costs, &next, row));
        matching.push(NOWHERE, 0, job, price)?;
    }
    Ok(())
}

/// The jobs that have no column.
fn left_jobs(alloc: Global, costs: &Costs, matching: &Matching) -> Result<Vec<usize>, AllocError> {
    let mut left = vec![in alloc; true; costs.rows.len()]?;
    for job in &matching.jobs {
        set(&mut left, *job, false);
    }
    let mut jobs = Vec::new(alloc);
    for (job, is_left) in left.iter().enumerate() {
        if *is_left {
            jobs.push(job)?;
        }
    }
    Ok(jobs)
}

/// The next places as vacant columns, each with the least dual at which it is better for no job than its own.
fn next_columns(
    alloc: Global,
    costs: &Costs,
    matching: &Matching,
    better: &[bool],
) -> Result<Matching, AllocError> {
    let mut next = Matching::with_capacity(alloc, better.len())?;
    for (device, is_better) in better.iter().enumerate() {
        let place = next_place(matching, device);
        let dual = if *is_better {
            dual_wanted(costs, matching, place)
        } else {
            0
        };
        next.push(place, dual, VACANT, 0)?;
    }
    Ok(next)
}

/// The highest price of a job with these times that is fair for the columns.
fn fair_price(costs: &Costs, matching: &Matching, row: &[u64]) -> u64 {
    let mut least = UNABLE;
    for (place, dual) in matching.columns.iter().zip(matching.duals.iter()) {
        least = least.min(cost(&costs.waits, row, *place).saturating_add(*dual));
    }
    least
}

/// A vacant column, if there is one. If not, a next place that is better for a job than its own becomes one.
fn vacant_column(
    costs: &Costs,
    matching: &mut Matching,
    better: &[bool],
) -> Result<Option<usize>, AllocError> {
    match matching.jobs.iter().position(|job| *job == VACANT) {
        Some(column) => Ok(Some(column)),
        None => open_next(costs, matching, better),
    }
}

/// Adds the next place of a better device as a vacant column, if it is better for a job than its own.
fn open_next(
    costs: &Costs,
    matching: &mut Matching,
    better: &[bool],
) -> Result<Option<usize>, AllocError> {
    for (device, is_better) in better.iter().enumerate() {
        if *is_better && open(costs, matching, next_place(matching, device))? {
            return Ok(matching.columns.len().checked_sub(1));
        }
    }
    Ok(None)
}

/// Adds a place as a vacant column, if it is better for a job than its own. Returns whether it is.
fn open(costs: &Costs, matching: &mut Matching, place: Place) -> Result<bool, AllocError> {
    let dual = dual_wanted(costs, matching, place);
    if dual == 0 {
        return Ok(false);
    }
    matching.push(place, dual, VACANT, 0)?;
    Ok(true)
}

/// The next place of a device.
pub(crate) fn next_place(matching: &Matching, device: usize) -> Place {
    let columns = matching.columns.iter();
    let after = columns.filter(|place| place.device == device).count() as u64;
    Place { device, after }
}

/// The least dual of a place at which it is better for no job than its own.
pub(crate) fn dual_wanted(costs: &Costs, matching: &Matching, place: Place) -> u64 {
    let mut dual: u64 = 0;
    for (job, price) in matching.jobs.iter().zip(matching.prices.iter()) {
        dual = dual.max((*price).saturating_sub(cost(&costs.waits, costs.row(*job), place)));
    }
    dual
}

/// Removes the jobs without a column.
fn drop_left(matching: &mut Matching) {
    for column in (0..matching.columns.len()).rev() {
        if matching.columns.get(column) == Some(&NOWHERE) {
            drop_column(matching, column);
        }
    }
}
