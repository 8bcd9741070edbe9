//! The measurements of a device, job by job.
use crate::sample::Sample;
use crate::samples::Samples;
use base_types::Sides;
use std::fmt;

/// The reasons why a number isn't known yet.
const NO_JOB: &str = "no such job yet";

const ONE_LENGTH: &str = "jobs of different lengths are needed";

/// The job that is measured.
#[derive(Clone, Copy)]
struct Running {
    sides: Sides,
    /// The moment at which the job began, in ms.
    start: u64,
    /// The impressions of all its copies: as last reported, or as estimated before the first report.
    impressions: u32,
}

/// The printed one-sided jobs, or the printed two-sided jobs.
#[derive(Drop)]
struct Tally {
    jobs: u64,
    impressions: u64,
    samples: Samples,
}

impl Tally {
    fn new() -> Tally {
        Tally {
            jobs: 0,
            impressions: 0,
            samples: Samples::new(),
        }
    }

    /// Adds the time of a job so far as a sample.
    fn keep(&mut self, job: Running, now: u64) {
        let sample = Sample {
            impressions: job.impressions,
            ms: now.saturating_sub(job.start),
        };
        let _kept = self.samples.add(sample);
    }

    /// Adds a job that is done.
    fn finish(&mut self, job: Running, now: u64) {
        self.keep(job, now);
        self.jobs = self.jobs.saturating_add(1);
        self.impressions = self.impressions.saturating_add(u64::from(job.impressions));
    }

    /// The rate, if the setup is known and there is a job; else the reason why it isn't known.
    fn rate(&self, setup: Option<u32>) -> Result<u32, &'static str> {
        if self.jobs == 0 {
            return Err(NO_JOB);
        }
        match setup {
            Some(setup) => self.samples.rate(setup).ok_or(NO_JOB),
            None => Err(ONE_LENGTH),
        }
    }
}

/// The measurements of a device. They are written as lines of the settings: a remark with the number of jobs,
/// and each of `rate_one`, `rate_two` and `setup`, or a remark if it isn't known yet.
#[derive(Drop)]
pub struct Measurement {
    job: Option<Running>,
    one_side: Tally,
    two_sides: Tally,
}

impl Measurement {
    /// Creates an empty record.
    pub fn new() -> Measurement {
        Measurement {
            job: None,
            one_side: Tally::new(),
            two_sides: Tally::new(),
        }
    }

    /// Begins a job at a moment in ms. `impressions` is an estimate for all copies together.
    pub fn begin(&mut self, sides: Sides, impressions: u32, now: u64) {
        self.job = Some(Running {
            sides,
            start: now,
            impressions,
        });
    }

    /// Records that this many impressions of the job are printed, all copies together.
    pub fn pages(&mut self, printed: u32, now: u64) {
        let Some(job) = self.job else {
            return;
        };
        let running = Running {
            impressions: printed,
            ..job
        };
        self.job = Some(running);
        match running.sides {
            Sides::One => self.one_side.keep(running, now),
            Sides::LongEdge | Sides::ShortEdge => self.two_sides.keep(running, now),
        }
    }

    /// Ends the job. Returns whether it was measured.
    pub fn finish(&mut self, now: u64) -> bool {
        let Some(job) = self.job else {
            return false;
        };
        self.job = None;
        match job.sides {
            Sides::One => self.one_side.finish(job, now),
            Sides::LongEdge | Sides::ShortEdge => self.two_sides.finish(job, now),
        }
        true
    }

    /// Stops measuring the job: it has failed, or the device didn't print all the time.
    pub fn leave(&mut self) {
        self.job = None;
    }

    /// The ms that the job should take by the jobs before it, if their times determine that.
    pub fn expected(&self) -> Option<u64> {
        let job = self.job?;
        let setup = self.setup()?;
        let tally = match job.sides {
            Sides::One => &self.one_side,
            Sides::LongEdge | Sides::ShortEdge => &self.two_sides,
        };
        let rate = tally.samples.rate(setup)?;
        let printing = u64::from(rate).saturating_mul(u64::from(job.impressions));
        Some(u64::from(setup).saturating_add(printing))
    }

    /// The setup, from the one-sided jobs if they determine it, else from the two-sided jobs.
    fn setup(&self) -> Option<u32> {
        self.one_side
            .samples
            .setup()
            .or(self.two_sides.samples.setup())
    }
}

impl fmt::Display for Measurement {
    fn fmt<W: fmt::Write>(&self, f: &mut fmt::Formatter<W>) -> fmt::Result {
        let setup = self.setup();
        let (one, two) = (&self.one_side, &self.two_sides);
        write!(
            f,
            "# one side: jobs {}, pages {}; ",
            one.jobs, one.impressions
        )?;
        writeln!(f, "two sides: jobs {}, pages {}", two.jobs, two.impressions)?;
        write_entry(f, "rate_one", one.rate(setup))?;
        write_entry(f, "rate_two", two.rate(setup))?;
        write_entry(f, "setup", setup.ok_or(ONE_LENGTH))
    }
}

/// Writes a key of the settings with its value, or a remark why the value isn't known.
fn write_entry<W: fmt::Write>(
    f: &mut fmt::Formatter<W>,
    key: &str,
    value: Result<u32, &'static str>,
) -> fmt::Result {
    match value {
        Ok(value) => writeln!(f, "{key} = {value}"),
        Err(missing) => writeln!(f, "# {key}: {missing}"),
    }
}
