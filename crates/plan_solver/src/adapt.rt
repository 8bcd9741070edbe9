//! The columns of the last plan under the next costs. The functions have no contracts: they only make a hint
//! better.
//!
//! The prices fall by the time that has passed, or by as much more or less as makes them fair. A device that
//! is late gives up its first jobs, whose duals would be negative. A column becomes vacant if its device can't
//! print its job any more, or if it is better for another job than that job's own place.

use crate::costs::{Costs, Place, UNABLE, cost, on_device};
use crate::filling::{dual_wanted, next_place};
use crate::matching::Matching;
use crate::recall::drop_column;
use crate::vacancy::{VACANT, lower_by, set};
use std::alloc::{AllocError, Global};

/// Lowers the prices by about the time that has passed, to make them fair under the costs, and gives up jobs
/// where that isn't enough. The next places of better devices may stay unfair, and are to be filled.
pub(crate) fn adapt(
    alloc: Global,
    costs: &Costs,
    matching: &mut Matching,
    gone: u64,
    better: &[bool],
) -> Result<(), AllocError> {
    vacate_unable(costs, matching);
    let next = better_places(alloc, matching, better)?;
    lower_prices(costs, matching, &next, gone);
    let most = kept_places(alloc, costs, matching)?;
    drop_before(matching, &most);
    Ok(())
}

/// The next places of better devices.
fn better_places(
    alloc: Global,
    matching: &Matching,
    better: &[bool],
) -> Result<Vec<Place>, AllocError> {
    let mut places = Vec::new(alloc);
    for (device, is_better) in better.iter().enumerate() {
        if *is_better {
            places.push(next_place(matching, device))?;
        }
    }
    Ok(places)
}

/// Makes each column vacant whose device can't print its job.
fn vacate_unable(costs: &Costs, matching: &mut Matching) {
    for column in 0..matching.columns.len() {
        if cost_of_column(costs, matching, column) >= UNABLE {
            let dual = matching.duals.get(column).copied().unwrap_or(0);
            make_vacant(matching, column, dual);
        }
    }
}

/// Makes a column vacant, with a dual.
fn make_vacant(matching: &mut Matching, column: usize, dual: u64) {
    set(&mut matching.duals, column, dual);
    set(&mut matching.jobs, column, VACANT);
    set(&mut matching.prices, column, 0);
}

/// Lowers the prices and duals by about the time that has passed.
fn lower_prices(costs: &Costs, matching: &mut Matching, next: &[Place], gone: u64) {
    let less = fall(costs, matching, next, gone);
    lower_by(&mut matching.duals, less);
    lower_by(&mut matching.prices, less);
}

/// The amount by which the prices fall: the time that has passed, unless the next places of better devices
/// need more, or the duals allow less.
fn fall(costs: &Costs, matching: &Matching, next: &[Place], gone: u64) -> u64 {
    let mut least = 0;
    let mut most = u64::MAX;
    for (column, job) in matching.jobs.iter().enumerate() {
        let price = matching.prices.get(column).copied().unwrap_or(0);
        if *job != VACANT {
            most = most.min(price.saturating_sub(cost_of_column(costs, matching, column)));
        }
        least = least.max(excess(costs, costs.row(*job), price, next));
    }
    if least <= most {
        gone.max(least).min(most)
    } else {
        gone
    }
}

/// The amount by which a price exceeds the cost of the cheapest of the places.
fn excess(costs: &Costs, row: &[u64], price: u64, places: &[Place]) -> u64 {
    let mut most = 0;
    for place in places {
        most = most.max(price.saturating_sub(cost(&costs.waits, row, *place)));
    }
    most
}

/// The cost of a column's job there; [`UNABLE`] if the column is vacant.
fn cost_of_column(costs: &Costs, matching: &Matching, column: usize) -> u64 {
    match (matching.jobs.get(column), matching.columns.get(column)) {
        (Some(job), Some(place)) => cost(&costs.waits, costs.row(*job), *place),
        _ => UNABLE,
    }
}

/// The number of places that each device keeps, if each job whose place costs more than its charge is given
/// up, and the jobs before it too.
fn kept_places(alloc: Global, costs: &Costs, matching: &Matching) -> Result<Vec<u64>, AllocError> {
    let mut most = vec![in alloc; u64::MAX; costs.waits.len()]?;
    for (column, place) in matching.columns.iter().enumerate() {
        let price = matching.prices.get(column).copied().unwrap_or(0);
        let cost = cost_of_column(costs, matching, column);
        if cost < UNABLE && price < cost {
            lower_to(&mut most, *place);
        }
    }
    Ok(most)
}

/// Lowers the number of kept places of a place's device to those after the place.
fn lower_to(most: &mut [u64], place: Place) {
    if let Some(most) = most.get_mut(place.device) {
        *most = (*most).min(place.after);
    }
}

/// Removes the columns with at least as many places after them as their device keeps.
fn drop_before(matching: &mut Matching, most: &[u64]) {
    for column in (0..matching.columns.len()).rev() {
        let Some(place) = matching.columns.get(column).copied() else {
            return;
        };
        if place.after >= most.get(place.device).copied().unwrap_or(0) {
            drop_column(matching, column);
        }
    }
}

/// Makes each column of a faster device vacant that is better for a job than its own, with the least dual at
/// which it isn't.
pub(crate) fn vacate_better(costs: &Costs, matching: &mut Matching, faster: &[bool]) {
    for column in 0..matching.columns.len() {
        let Some(place) = matching.columns.get(column).copied() else {
            return;
        };
        if faster.get(place.device) == Some(&true) {
            raise_dual(costs, matching, column, place);
        }
    }
}

/// Makes a column vacant with the least dual at which it isn't better for a job than its own, if its dual is
/// less.
fn raise_dual(costs: &Costs, matching: &mut Matching, column: usize, place: Place) {
    let dual = matching.duals.get(column).copied().unwrap_or(0);
    let wanted = dual_wanted(costs, matching, place);
    if wanted > dual {
        make_vacant(matching, column, wanted);
    }
}
