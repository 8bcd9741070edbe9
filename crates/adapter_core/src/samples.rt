//! Samples of jobs, and the setup and the rate of least squares over them.
ghost use Rattle.std.specs.Prelude.{◌≡◌, ◌↔◌, ◌++◌, ◌∷◌, ◌<◌, ◌≤◌, ◌^◌, [], List, IsTrue};
ghost use Rattle.adapter_core.specs.declared.sample.Sample.{Sample};
ghost use Rattle.adapter_core.specs.Sums.{sums_of, most_samples, IsSample, with_sample, square_of, product_of};
ghost use Rattle.adapter_core.specs.LeastSquares.{setup_of, rate_of, determinant, setup_numerator};

use crate::quotient::nearest;
use crate::sample::Sample;
use base_types::Limits;
use std::marker::Model;

/// Samples of jobs with the same rate, stored as sums. In clauses it is a record of the sums.
#[derive(Drop)]
pub struct Samples {
    count: u32,
    impressions: u64,
    ms: u64,
    squares: u128,
    products: u128,
}

impl Model for Samples {
    ghost use Rattle.adapter_core.specs.Sums.{Sums, InRange};

    ghost Value = { Sums };

    ghost view = { λ s. record { count = s.count; impressions = s.impressions; ms = s.ms; squares = s.squares; products = s.products } };

    ghost invariant = { λ s. InRange (record { count = s.count; impressions = s.impressions; ms = s.ms; squares = s.squares; products = s.products }) };
}

impl Samples {
    /// The most samples.
    pub const MOST: u32 = 1_048_576;

    /// Creates the sums of no samples.
    pub fn new() -> Samples
        ensures { result ≡ sums_of [] }
    {
        Samples {
            count: 0,
            impressions: 0,
            ms: 0,
            squares: 0,
            products: 0,
        }
    }

    /// Adds a sample, if it is in range and there are fewer than [`Samples::MOST`]. Returns whether it was
    /// added.
    pub fn add(&mut self, sample: Sample) -> bool
        ensures kept { IsTrue result ↔ (IsSample sample × (self.old.count < most_samples)) }
        ensures sums { IsTrue result → (samples : List Sample) → self.old ≡ sums_of samples → self.new ≡ sums_of (samples ++ sample ∷ []) }
        ensures else_same { ¬ IsTrue result → self.new ≡ self.old }
    {
        if sample.is_in_range() && self.count < Samples::MOST {
            self.keep(sample);
            return true;
        }
        false
    }

    /// Adds a sample to the sums.
    fn keep(&mut self, sample: Sample)
        requires sample { IsSample sample }
        requires room { self.old.count < most_samples }
        ensures { self.new ≡ with_sample sample self.old }
    {
        let square = square(sample);
        let product = product(sample);
        self.count += 1;
        self.impressions += u64::from(sample.impressions);
        self.ms += sample.ms;
        self.squares += u128::from(square);
        self.products += u128::from(product);
    }

    /// The setup of least squares, in ms up to [`Limits::SETUP`], if two samples have different numbers of
    /// impressions.
    pub fn setup(&self) -> Option<u32>
        ensures { result ≡ setup_of self.now }
    {
        let determinant = self.determinant();
        if determinant == 0 {
            return None;
        }
        let setup = nearest(self.setup_numerator(), determinant);
        Some(setup.min(u128::from(Limits::SETUP)) as u32)
    }

    /// The rate of least squares for this setup, in ms from 1 to [`Limits::RATE`], if there is a sample.
    pub fn rate(&self, setup: u32) -> Option<u32>
        ensures { result ≡ rate_of setup self.now }
    {
        if self.squares == 0 {
            return None;
        }
        let waiting = u128::from(setup) * u128::from(self.impressions);
        let rate = nearest(self.products.saturating_sub(waiting), self.squares);
        Some(rate.max(1).min(u128::from(Limits::RATE)) as u32)
    }

    /// The determinant of the normal equations.
    fn determinant(&self) -> u128
        ensures value { result ≡ determinant self.now }
        ensures small { result < 2 ^ 126 }
    {
        let squares = u128::from(self.count) * self.squares;
        let impressions = u128::from(self.impressions);
        squares.saturating_sub(impressions * impressions)
    }

    /// The setup times the determinant.
    fn setup_numerator(&self) -> u128
        ensures value { result ≡ setup_numerator self.now }
        ensures small { result < 2 ^ 126 }
    {
        let first = u128::from(self.ms) * self.squares;
        first.saturating_sub(u128::from(self.impressions) * self.products)
    }
}

/// The square of a sample's impressions.
fn square(sample: Sample) -> u64
    requires { IsSample sample }
    ensures value { result ≡ square_of sample }
    ensures range { result ≤ 99800100000000 }
{
    u64::from(sample.impressions) * u64::from(sample.impressions)
}

/// The product of a sample's impressions and ms.
fn product(sample: Sample) -> u64
    requires { IsSample sample }
    ensures value { result ≡ product_of sample }
    ensures range { result ≤ 5988041964000000000 }
{
    u64::from(sample.impressions) * sample.ms
}
