//! The impressions of a job.
ghost use Rattle.std.specs.Prelude.{◌≡◌, ◌≤◌};
ghost use Rattle.base_types.specs.Ranges.{IsImpressions};
ghost use Rattle.job_objects.specs.Impressions.{impressions_of};

use base_types::Limits;

/// The impressions of one copy: job-impressions if it is given, else estimated from the job's octets; 1 to
/// [`Limits::IMPRESSIONS`].
pub fn estimated_impressions(given: Option<u32>, octets: usize) -> u32
    requires { octets ≤ Limits.JOB_OCTETS }
    ensures value { result ≡ impressions_of given octets }
    ensures in_range { IsImpressions result }
{
    let wanted = match given {
        Some(impressions) => impressions,
        None => octets.div_ceil(Limits::OCTETS_PER_IMPRESSION) as u32,
    };
    wanted.max(1).min(Limits::IMPRESSIONS)
}
