//! The sample of a job.
ghost use Rattle.std.specs.Prelude.{◌↔◌, IsTrue};

use base_types::Limits;

/// A number of impressions of a job, all copies together, and the ms from the job's beginning until they were
/// printed.
#[derive(Clone, Copy, PartialEq, Eq)]
pub struct Sample {
    pub impressions: u32,
    pub ms: u64,
}

impl Sample {
    ghost use Rattle.adapter_core.specs.Sums.{IsSample};

    /// The most impressions of a job: `IMPRESSIONS * COPIES` of [`Limits`].
    pub const IMPRESSIONS: u32 = 9_990_000;

    /// Returns whether a job can have this sample: it has some impressions and at most as many as a job can
    /// have, and takes at most [`Limits::JOB_TIME`].
    pub fn is_in_range(self) -> bool
        ensures { IsTrue result ↔ IsSample self }
    {
        self.impressions > 0
            && self.impressions <= Sample::IMPRESSIONS
            && self.ms <= Limits::JOB_TIME
    }
}
