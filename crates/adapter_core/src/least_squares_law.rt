//! Laws of least squares, as contracts of functions that do nothing.
ghost use Rattle.std.specs.Prelude.{◌≡◌, ◌≢◌, ◌<◌, Contains, Some};
ghost use Rattle.base_types.specs.Ranges.{IsRate, IsSetup};
ghost use Rattle.adapter_core.specs.Sums.{sums_of};
ghost use Rattle.adapter_core.specs.LeastSquares.{AreOn, setup_of, rate_of};

use crate::sample::Sample;

/// The setup of samples on a line is that of the line, if two of them have different numbers of impressions.
pub fn setup_is_found(samples: &[Sample], one: Sample, other: Sample, setup: u32, rate: u32)
    requires on { AreOn setup rate samples.now }
    requires one { Contains samples.now one }
    requires other { Contains samples.now other }
    requires different { one.impressions ≢ other.impressions }
    requires setup { IsSetup setup }
    ensures { setup_of (sums_of samples.now) ≡ Some setup }
{}

/// The rate of samples on a line with this setup is the rate of the line, if one of the samples has
/// impressions.
pub fn rate_is_found(samples: &[Sample], one: Sample, setup: u32, rate: u32)
    requires on { AreOn setup rate samples.now }
    requires one { Contains samples.now one }
    requires some { 0 < one.impressions }
    requires rate { IsRate rate }
    ensures { rate_of setup (sums_of samples.now) ≡ Some rate }
{}
