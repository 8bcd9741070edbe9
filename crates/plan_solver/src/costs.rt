//! The cost of a job at a place from the end of a device's list.
ghost use Rattle.std.specs.Prelude.{◌≡◌, ◌+◌, ◌*◌, ◌≤◌, min, slice_index_or, suc};
ghost use Rattle.plan_solver.specs.Costs.{cost_at, row_of};

use base_types::Limits;
use std::marker::Model;

/// The cost of a place for a job that its device can't print. It is more than the cost of any other place, so
/// each pair of a job and a place has a cost. It is also the job's time on such a device. No cost on an able
/// device is as high. The sum of as many such times as there may be jobs fits in 64 bits.
pub(crate) const UNABLE: u64 = Limits::WAIT / 2 * 3;

/// A place of a device, by the number of places after it. The last place of a list has none.
#[derive(Clone, Copy, PartialEq, Eq)]
pub(crate) struct Place {
    pub(crate) device: usize,
    pub(crate) after: u64,
}

/// The times of a job on each device, in ms, [`UNABLE`] where the device isn't able. In clauses it is the
/// list of them.
#[derive(Drop)]
pub(crate) struct TimeRow {
    times: Vec<u64>,
}

impl Model for TimeRow {
    ghost use Rattle.std.specs.Prelude.{ℕ, List};

    ghost Value = { List ℕ };

    ghost view = { λ row. row.times.items };
}

impl TimeRow {
    /// A row of times.
    pub(crate) fn new(times: Vec<u64>) -> TimeRow
        ensures { result ≡ times.items }
    {
        TimeRow { times }
    }

    /// The times of the row.
    fn times(&self) -> &[u64]
        ensures { result.now ≡ self.now }
    {
        &self.times
    }
}

/// The wait of each device, and the time of each job on each device, in ms.
#[derive(Drop)]
pub(crate) struct Costs {
    pub(crate) waits: Vec<u64>,
    pub(crate) rows: Vec<TimeRow>,
}

impl Costs {
    /// The times of a job; empty if there is no such job.
    pub(crate) fn row(&self, job: usize) -> &[u64]
        ensures { result.now ≡ row_of self.now job }
    {
        match self.rows.get(job) {
            Some(row) => row.times(),
            None => &[],
        }
    }
}

/// The entry of a device in a list of times or waits; [`UNABLE`] if there is none.
pub(crate) fn on_device(values: &[u64], device: usize) -> u64
    ensures { result ≡ slice_index_or values.now device UNABLE }
{
    values.get(device).copied().unwrap_or(UNABLE)
}

/// The cost of a job with these times at a place: the device's wait once, and the job's time for itself and
/// for each place after it.
pub(crate) fn cost(waits: &[u64], row: &[u64], place: Place) -> u64
    ensures value { result ≡ cost_at waits.now row.now place }
    ensures low { result ≤ UNABLE }
{
    match (row.get(place.device), waits.get(place.device)) {
        (Some(time), Some(wait)) => cost_with(*time, *wait, place.after),
        _ => UNABLE,
    }
}

/// The cost for a time and a wait. If they and the number of places after are in the range of a class, the
/// cost is computed in 64 bits, which is faster.
fn cost_with(time: u64, wait: u64, after: u64) -> u64
    ensures { result ≡ min (wait + suc after * time) UNABLE }
{
    if after < Limits::UNFINISHED_JOBS as u64 && time <= UNABLE && wait <= UNABLE {
        return (wait + time * (after + 1)).min(UNABLE);
    }
    wide_cost(time, wait, after)
}

/// The cost for a time and a wait of any size.
#[cold]
#[inline(never)]
fn wide_cost(time: u64, wait: u64, after: u64) -> u64
    ensures { result ≡ min (wait + suc after * time) UNABLE }
{
    let work = u128::from(time) * (u128::from(after) + 1);
    (u128::from(wait) + work).min(u128::from(UNABLE)) as u64
}
