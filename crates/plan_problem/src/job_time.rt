//! The time of a job on a device.
ghost use Rattle.std.specs.Prelude.{◌≡◌, ◌≤◌};
ghost use Rattle.base_types.specs.Ranges.{IsRate};
ghost use Rattle.plan_problem.specs.Able.{PrintsSides};
ghost use Rattle.plan_problem.specs.Time.{time_of, rate_of, IsTime};

use base_types::{DeviceNow, Limits, Needs, Sides};

/// The time of the job on the device, in ms: the setup once, and each impression of each copy at the rate of
/// the job's sides. It is 1 to [`base_types::Limits::JOB_TIME`].
///
/// The device has to print two-sided if the job is two-sided, as each able device does.
pub fn time(needs: &Needs, device: &DeviceNow) -> u64
    requires { PrintsSides needs.now device.now }
    ensures value { result ≡ time_of needs.now device.now }
    ensures in_range { IsTime result }
{
    let impressions = u64::from(needs.impressions) * u64::from(needs.copies);
    u64::from(device.setup) + impressions * u64::from(rate(needs, device))
}

/// The time of an impression for the job's sides, in ms; 0 if the device doesn't print them.
pub fn rate(needs: &Needs, device: &DeviceNow) -> u32
    ensures value { result ≡ rate_of needs.now device.now }
    ensures bound { result ≤ Limits.RATE }
    ensures in_range { PrintsSides needs.now device.now → IsRate result }
{
    match (needs.sides, device.rate_two) {
        (Sides::One, _) => device.rate_one,
        (Sides::LongEdge | Sides::ShortEdge, Some(rate)) => rate,
        (Sides::LongEdge | Sides::ShortEdge, None) => 0,
    }
}
