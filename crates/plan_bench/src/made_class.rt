use crate::random::Random;
use anyhow::{Context, Error, bail};
use base_types::JobId;
use plan_problem::{ClassProblem, Row, is_class};
use std::alloc::{AllocError, Global};

/// The longest time that is uniform at random, in ms.
const LONGEST: u64 = 1_000_000;

/// The origin of the times of a class.
#[derive(Clone, Copy)]
pub(crate) enum Kind {
    /// A time comes from the impressions of a job and the speed of a device, as in the server.
    Speeds,
    /// Each time is uniform at random.
    Uniform,
}

/// The speed of a device, in ms.
#[derive(Drop)]
pub(crate) struct Speed {
    setup: u64,
    impression: u64,
}

impl Speed {
    /// The time of a job with this number of impressions, in ms.
    pub(crate) fn time(&self, impressions: u64) -> u64 {
        impressions
            .saturating_mul(self.impression)
            .saturating_add(self.setup)
    }
}

/// Makes a class of jobs 1, 2, .. on devices: about one pair of eight is not able, but each job has an able
/// device.
pub(crate) fn made_class(
    alloc: Global,
    random: &mut Random,
    kind: Kind,
    jobs: u32,
    devices: usize,
) -> Result<ClassProblem, Error> {
    let mut speeds = Vec::new(alloc);
    let mut waits = Vec::new(alloc);
    for _ in 0..devices {
        speeds.push(made_speed(random))?;
        waits.push(random.below(600_000))?;
    }
    let mut ids = Vec::new(alloc);
    let mut rows = Vec::new(alloc);
    for job in 0..jobs {
        ids.push(JobId::new(job.wrapping_add(1)).context("too many jobs")?)?;
        rows.push(made_row(alloc, random, kind, job as usize, &speeds)?)?;
    }
    if !is_class(&ids, &rows, &waits) {
        bail!("beyond the limits of a class");
    }
    Ok(ClassProblem::from_rows(ids, rows, waits))
}

/// A device's speed.
pub(crate) fn made_speed(random: &mut Random) -> Speed {
    let setup = random.below(60_000);
    let impression = random.below(5_000).saturating_add(500);
    Speed { setup, impression }
}

/// Makes the times of a job with random impressions. The job's own device, in turn, is able.
fn made_row(
    alloc: Global,
    random: &mut Random,
    kind: Kind,
    job: usize,
    speeds: &[Speed],
) -> Result<Row, AllocError> {
    let impressions = random.below(200).saturating_add(1);
    let own = job.checked_rem(speeds.len()).unwrap_or(0);
    let mut times = Vec::new(alloc);
    for (place, speed) in speeds.iter().enumerate() {
        let able = random.below(8) != 0 || place == own;
        let time = match kind {
            Kind::Speeds => speed.time(impressions),
            Kind::Uniform => random.below(LONGEST).saturating_add(1),
        };
        times.push(if able { Some(time) } else { None })?;
    }
    Ok(Row::new(times))
}
