//! The figures of a day.

use crate::day::Day;
use drawing::Print;
use std::alloc::{AllocError, Global};

/// The times from the jobs' moments until they were printed, in ms.
#[derive(Clone, Copy)]
pub(crate) struct Waits {
    /// The number of printed jobs.
    pub(crate) jobs: usize,
    /// The mean, rounded down.
    pub(crate) mean: u64,
    /// The least time within which half of the jobs were printed.
    pub(crate) median: u64,
    /// The least time within which 95 of 100 jobs were printed.
    pub(crate) late: u64,
    pub(crate) worst: u64,
}

/// The time of each job from its moment until it was printed, the shortest first. The only error is out of
/// memory.
fn times_to_paper(alloc: Global, day: &Day, prints: &[Print]) -> Result<Vec<u64>, AllocError> {
    let mut times = Vec::with_capacity(alloc, prints.len())?;
    for print in prints {
        times.push(print.end.saturating_sub(day.moment_of(print.job)))?;
    }
    times.sort_unstable();
    Ok(times)
}

/// The least of these rising times that `percent` of 100 times don't exceed; 0 if there are no times.
fn rank(times: &[u64], percent: usize) -> u64 {
    let count = times.len().saturating_mul(percent).div_ceil(100);
    times.get(count.saturating_sub(1)).copied().unwrap_or(0)
}

/// The sum of times, in ms.
fn sum_of(times: &[u64]) -> u128 {
    let mut sum = 0u128;
    for time in times {
        sum = sum.saturating_add(u128::from(*time));
    }
    sum
}

/// The mean of times, rounded down; 0 if there are none.
fn mean_of(times: &[u64]) -> u64 {
    let mean = sum_of(times).checked_div(times.len() as u128).unwrap_or(0);
    u64::try_from(mean).unwrap_or(u64::MAX)
}

/// The times of a day's jobs. The only error is out of memory.
pub(crate) fn waits_of(alloc: Global, day: &Day, prints: &[Print]) -> Result<Waits, AllocError> {
    let times = times_to_paper(alloc, day, prints)?;
    Ok(Waits {
        jobs: times.len(),
        mean: mean_of(&times),
        median: rank(&times, 50),
        late: rank(&times, 95),
        worst: rank(&times, 100),
    })
}

/// The time for which a device printed, in ms.
pub(crate) fn printed_on(prints: &[Print], device: usize) -> u64 {
    let mut sum = 0u64;
    for print in prints {
        if print.device == device {
            sum = sum.saturating_add(print.end.saturating_sub(print.start));
        }
    }
    sum
}

/// The end of the last job, in ms from the beginning of the day.
pub(crate) fn last_end(prints: &[Print]) -> u64 {
    let mut last = 0;
    for print in prints {
        last = print.end.max(last);
    }
    last
}
