//! The estimate up to how many changes of a class its last plan saves time. With more changes the hint is given
//! up, and all jobs are matched anew.
//!
//! For each change a search settles most columns. Matched anew, each job has a search too, which settles more
//! columns the more jobs there are for each device that is able. As measured, about `4 + A / 2` changes take as
//! long as matching all jobs anew, if A is the mean number of jobs for each device that is able.

use crate::costs::{Costs, UNABLE};

/// The most changes for which matching the others as in the last plan saves time.
pub(crate) fn most_changes(costs: &Costs) -> usize {
    let jobs = costs.rows.len();
    let pairs = able_pairs(costs).saturating_mul(5);
    let jobs_each = jobs
        .saturating_mul(jobs)
        .saturating_mul(2)
        .checked_div(pairs);
    let few = jobs / 5;
    few.min(jobs_each.unwrap_or(0).saturating_add(3))
}

/// The number of pairs of a job and a device that is able.
fn able_pairs(costs: &Costs) -> usize {
    let mut pairs: usize = 0;
    for job in 0..costs.rows.len() {
        let able = costs.row(job).iter().filter(|time| **time < UNABLE).count();
        pairs = pairs.saturating_add(able);
    }
    pairs
}
