//! The prices of jobs and of places.
ghost use Rattle.std.specs.Prelude.{◌≡◌};

use crate::way::Way;
use std::marker::Model;

/// The prices of the used places of one device, the last place first, in ms. In clauses it is the
/// list of them.
#[derive(Drop)]
pub struct PlacePrices {
    prices: Vec<i64>,
}

impl Model for PlacePrices {
    ghost use Rattle.std.specs.Prelude.{ℤ, List};

    ghost Value = { List ℤ };

    ghost view = { λ places. places.prices.items };
}

impl PlacePrices {
    /// The prices of a device's places, the last place first.
    pub fn new(prices: Vec<i64>) -> PlacePrices
        ensures { result ≡ prices.items }
    {
        PlacePrices { prices }
    }

    /// The prices, the last place first.
    pub fn prices(&self) -> &[i64]
        ensures { result.now ≡ self.now }
    {
        &self.prices
    }
}

/// A price for each job of a class, by rising id, and a price for each used place of each device. In clauses
/// it is a record of these lists.
#[derive(Drop)]
pub struct Prices {
    jobs: Vec<i64>,
    places: Vec<PlacePrices>,
}

impl Model for Prices {
    ghost use Rattle.plan_prices.specs.Prices.{PriceLists};

    ghost Value = { PriceLists };

    ghost view = { λ prices. record { jobs = prices.jobs.items; places = prices.places.items } };
}

impl Prices {
    /// The prices of jobs, by rising id, and of places, by device.
    pub fn new(jobs: Vec<i64>, places: Vec<PlacePrices>) -> Prices
        ensures { result ≡ record { jobs = jobs.items; places = places.items } }
    {
        Prices { jobs, places }
    }

    /// The prices of the jobs, by rising id.
    pub fn jobs(&self) -> &[i64]
        ensures { result.now ≡ self.now.jobs }
    {
        &self.jobs
    }

    /// The prices of the places, by device.
    pub fn places(&self) -> &[PlacePrices]
        ensures { result.now ≡ self.now.places }
    {
        &self.places
    }
}

/// A way with prices and a total in ms. The prices may or may not prove it best.
#[derive(Drop)]
pub struct PricedWay {
    pub way: Way,
    pub prices: Prices,
    pub total: u64,
}
