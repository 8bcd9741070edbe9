//! The vacancy of a column without a job. Duals are lowered along the shortest way from the column to one whose
//! dual becomes 0; jobs move along the way towards the vacant column, and the end of the way is removed. The
//! functions have no contracts: they only make a hint better.

use crate::costs::{Costs, UNABLE, on_device};
use crate::matching::Matching;
use crate::recall::drop_column;
use std::alloc::{AllocError, Global};

/// The job of a vacant column.
pub(crate) const VACANT: usize = usize::MAX;

/// A length above that of any column.
const FAR: u64 = u64::MAX / 4;

/// The times of all jobs on each device, which are read when they are needed first. In the rows of the jobs the
/// times on a device are apart in memory.
#[derive(Drop)]
pub(crate) struct DeviceTimes {
    times: Vec<Vec<u64>>,
}

/// A column that isn't settled: its job with the job's charge, its dual, its length, and the column from which
/// it was reached.
#[derive(Clone, Copy)]
struct Open {
    column: usize,
    job: usize,
    price: u64,
    dual: u64,
    length: u64,
    from: usize,
}

/// The columns that aren't settled; of each settled column its length and the column from which it was reached;
/// and the end of the shortest way so far, with its length.
#[derive(Drop)]
struct Ways {
    open: Vec<Open>,
    lengths: Vec<u64>,
    froms: Vec<usize>,
    end: End,
}

/// The end of a way: its column, the column before it on the way, and the length of the way.
#[derive(Clone, Copy)]
struct End {
    column: usize,
    from: usize,
    length: u64,
}

/// A settled column: its length with the cost of its place for a job that takes no time, and how often the
/// place counts a job's time.
#[derive(Clone, Copy)]
struct Origin {
    column: usize,
    length: u64,
    charge: u64,
    count: u64,
}

impl DeviceTimes {
    /// No times yet, for this many devices.
    pub(crate) fn new(alloc: Global, devices: usize) -> Result<DeviceTimes, AllocError> {
        let mut times = Vec::with_capacity(alloc, devices)?;
        for _ in 0..devices {
            times.push(Vec::new(alloc))?;
        }
        Ok(DeviceTimes { times })
    }

    /// Reads the times on a device, if they aren't read yet.
    fn read(&mut self, costs: &Costs, device: usize) -> Result<(), AllocError> {
        let Some(times) = self.times.get_mut(device) else {
            return Ok(());
        };
        if times.is_empty() {
            times.reserve_exact(costs.rows.len())?;
            for job in 0..costs.rows.len() {
                times.push(on_device(costs.row(job), device))?;
            }
        }
        Ok(())
    }

    /// The times on a device; empty if they aren't read yet.
    fn on(&self, device: usize) -> &[u64] {
        match self.times.get(device) {
            Some(times) => times,
            None => &[],
        }
    }
}

/// Ends a vacancy: removes the column at the end of the shortest way, and moves the jobs on the way. Returns
/// the number of columns that were settled.
///
/// First all duals and prices are lowered by the least dual, which leaves them as fair as they were.
/// Therefore a way may end where the dual is 0, and the search needn't settle all columns that are no farther
/// than that end.
pub(crate) fn vacate(
    alloc: Global,
    costs: &Costs,
    times: &mut DeviceTimes,
    matching: &mut Matching,
    hole: usize,
) -> Result<usize, AllocError> {
    lower_all(matching);
    let mut ways = Ways::from(alloc, matching, hole)?;
    let settled = find_end(costs, times, matching, &mut ways, hole)?;
    lower(&mut matching.duals, &ways);
    lower(&mut matching.prices, &ways);
    move_jobs(matching, &ways, hole);
    drop_column(matching, ways.end.column);
    Ok(settled)
}

impl Ways {
    /// The ways from a vacant column, before any other is reached.
    fn from(alloc: Global, matching: &Matching, hole: usize) -> Result<Ways, AllocError> {
        let columns = matching.columns.len();
        let mut lengths = vec![in alloc; FAR; columns]?;
        set(&mut lengths, hole, 0);
        Ok(Ways {
            open: open_columns(alloc, matching)?,
            lengths,
            froms: vec![in alloc; hole; columns]?,
            end: End {
                column: hole,
                from: hole,
                length: matching.duals.get(hole).copied().unwrap_or(0),
            },
        })
    }

    /// Settles a column that was open.
    fn settle(&mut self, at: usize) -> Option<usize> {
        if at >= self.open.len() {
            return None;
        }
        let open = self.open.swap_remove(at);
        set(&mut self.lengths, open.column, open.length);
        set(&mut self.froms, open.column, open.from);
        Some(open.column)
    }
}

/// The columns that have a job, before any is reached.
fn open_columns(alloc: Global, matching: &Matching) -> Result<Vec<Open>, AllocError> {
    let mut open = Vec::with_capacity(alloc, matching.columns.len())?;
    for (column, job) in matching.jobs.iter().enumerate() {
        if *job != VACANT {
            open.push(Open {
                column,
                job: *job,
                price: matching.prices.get(column).copied().unwrap_or(0),
                dual: matching.duals.get(column).copied().unwrap_or(0),
                length: FAR,
                from: column,
            })?;
        }
    }
    Ok(open)
}

/// Finds the end of the shortest way: settles columns, the nearest first. Returns their number.
fn find_end(
    costs: &Costs,
    times: &mut DeviceTimes,
    matching: &Matching,
    ways: &mut Ways,
    hole: usize,
) -> Result<usize, AllocError> {
    let columns = matching.columns.len();
    let mut column = hole;
    for settled in 1..columns {
        let Some(next) = leave(costs, times, matching, ways, column)? else {
            return Ok(settled);
        };
        column = next;
    }
    Ok(columns)
}

/// Takes the ways of a settled column, to which each job may move. Settles and returns the nearest column, if it
/// is nearer than the end.
fn leave(
    costs: &Costs,
    times: &mut DeviceTimes,
    matching: &Matching,
    ways: &mut Ways,
    column: usize,
) -> Result<Option<usize>, AllocError> {
    let Some(place) = matching.columns.get(column).copied() else {
        return Ok(None);
    };
    times.read(costs, place.device)?;
    let length = ways.lengths.get(column).copied().unwrap_or(FAR);
    let dual = matching.duals.get(column).copied().unwrap_or(0);
    let wait = on_device(&costs.waits, place.device);
    let origin = Origin {
        column,
        length,
        charge: length.saturating_add(wait).saturating_add(dual),
        count: place.after.saturating_add(1),
    };
    match reach_all(times.on(place.device), ways, origin) {
        Some(at) => Ok(ways.settle(at)),
        None => Ok(None),
    }
}

/// Reaches all open columns from a settled one. Returns the place of the nearest of them, if it is nearer than
/// the end.
fn reach_all(times: &[u64], ways: &mut Ways, origin: Origin) -> Option<usize> {
    let mut end = ways.end;
    let mut nearest = None;
    let mut least = FAR;
    for (at, open) in ways.open.iter_mut().enumerate() {
        let time = times.get(open.job).copied().unwrap_or(UNABLE);
        reach(open, origin, time, &mut end);
        if open.length < least {
            nearest = Some(at);
            least = open.length;
        }
    }
    ways.end = end;
    if least < end.length { nearest } else { None }
}

/// Reaches a column whose job takes this time on the device of a settled column, if this way is the shortest so
/// far.
fn reach(open: &mut Open, origin: Origin, time: u64, end: &mut End) {
    let charge = origin
        .charge
        .saturating_add(time.saturating_mul(origin.count));
    let length = charge.saturating_sub(open.price).max(origin.length);
    if length >= open.length {
        return;
    }
    open.length = length;
    open.from = origin.column;
    let length = length.saturating_add(open.dual);
    if length < end.length {
        *end = End {
            column: open.column,
            from: origin.column,
            length,
        };
    }
}

/// The least of the values; 0 if there are none.
fn least(values: &[u64]) -> u64 {
    let mut least = values.first().copied().unwrap_or(0);
    for value in values {
        least = least.min(*value);
    }
    least
}

/// Lowers all duals and prices by the least dual.
fn lower_all(matching: &mut Matching) {
    let less = least(&matching.duals);
    lower_by(&mut matching.duals, less);
    lower_by(&mut matching.prices, less);
}

/// Lowers each value by the same amount.
pub(crate) fn lower_by(values: &mut [u64], less: u64) {
    for value in values.iter_mut() {
        *value = (*value).saturating_sub(less);
    }
}

/// Lowers the value of each column by the amount by which it is nearer than the end.
fn lower(values: &mut [u64], ways: &Ways) {
    for (value, length) in values.iter_mut().zip(ways.lengths.iter()) {
        *value = (*value).saturating_sub(ways.end.length.saturating_sub(*length));
    }
}

/// Moves each job on the way to the end to the column from which its own column was reached.
fn move_jobs(matching: &mut Matching, ways: &Ways, hole: usize) {
    let end = ways.end.column;
    let mut job = matching.jobs.get(end).copied().unwrap_or(0);
    let mut price = matching.prices.get(end).copied().unwrap_or(0);
    let mut column = end;
    let mut from = ways.end.from;
    for _ in 0..ways.froms.len() {
        if column == hole {
            return;
        }
        column = from;
        from = ways.froms.get(column).copied().unwrap_or(hole);
        exchange(&mut matching.jobs, column, &mut job);
        exchange(&mut matching.prices, column, &mut price);
    }
}

/// Exchanges an element with a value.
fn exchange<T: Copy>(items: &mut [T], at: usize, value: &mut T) {
    if let Some(item) = items.get_mut(at) {
        let before = *item;
        *item = *value;
        *value = before;
    }
}

/// Sets an element, if there is one.
pub(crate) fn set<T: Copy>(items: &mut [T], at: usize, value: T) {
    if let Some(item) = items.get_mut(at) {
        *item = value;
    }
}
