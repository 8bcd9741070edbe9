//! Quotients in whole numbers.
ghost use Rattle.std.specs.Prelude.{◌≡◌, ◌<◌, ◌^◌};
ghost use Rattle.adapter_core.specs.LeastSquares.{nearest};

/// The whole number nearest to a quotient; of two, the greater one.
pub(crate) fn nearest(dividend: u128, divisor: u128) -> u128
    requires some { 0 < divisor }
    requires dividend { dividend < 2 ^ 126 }
    requires divisor { divisor < 2 ^ 126 }
    ensures { result ≡ nearest dividend divisor }
{
    (2 * dividend + divisor) / (2 * divisor)
}
