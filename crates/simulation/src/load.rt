//! The load of a day.

use crate::draft::ListedJob;
use base_types::Limits;

/// Lets the jobs come `thousandths` / 1000 times as fast: divides their moments by that.
pub fn hasten(jobs: &mut [ListedJob], thousandths: u32) {
    for job in jobs.iter_mut() {
        let moment = job.moment.saturating_mul(1000);
        job.moment = moment
            .checked_div(u64::from(thousandths))
            .unwrap_or(0)
            .min(Limits::LAST_MOMENT);
    }
}
