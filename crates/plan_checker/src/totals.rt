//! The check of a stated total against the way and the prices.
ghost use Rattle.std.specs.Prelude.{◌≡◌, ◌↔◌, ◌^◌, ◌≤◌, All, IsTrue, length, pos, neg_ℤ, ◌≤ℤ◌};
ghost use Rattle.plan_problem.specs.Class.{IsClass};
ghost use Rattle.plan_prices.specs.Way.{IsWay};
ghost use Rattle.plan_prices.specs.Prices.{sum_signed, sum_lists};
ghost use Rattle.plan_checker.specs.Fair.{NoneMissing, TotalsAgree};

use base_types::Limits;
use plan_prices::{PlacePrices, PricedWay, total};
use plan_problem::ClassProblem;

/// Returns whether the stated total is that of the way, and the sum of all prices.
pub(crate) fn totals_agree(class: &ClassProblem, priced: &PricedWay) -> bool
    requires class { IsClass class.now }
    requires way { IsWay class.now priced.now.way }
    requires lists { length priced.now.prices.places ≡ length class.now.waits }
    requires priced { NoneMissing class.now priced.now.way priced.now.prices }
    ensures { IsTrue result ↔ TotalsAgree class.now priced.now.way priced.now.prices priced.now.total }
{
    if priced.total != total(class, &priced.way) {
        return false;
    }
    let sum = sum_of(priced.prices.jobs()) + sum_of_lists(priced.prices.places());
    sum == i128::from(priced.total)
}

/// The sum of prices.
fn sum_of(prices: &[i64]) -> i128
    requires { length prices.now ≤ Limits.UNFINISHED_JOBS }
    ensures sum { result ≡ sum_signed prices.now }
    ensures low { neg_ℤ (pos (2 ^ 80)) ≤ℤ result }
    ensures high { result ≤ℤ pos (2 ^ 80) }
{
    let mut sum = 0;
    for price in prices {
        sum += i128::from(*price);
    }
    sum
}

/// The sum of the prices of all places.
fn sum_of_lists(places: &[PlacePrices]) -> i128
    requires few { length places.now ≤ Limits.DEVICES }
    requires short { All (λ prices. length prices ≤ Limits.UNFINISHED_JOBS) places.now }
    ensures sum { result ≡ sum_lists places.now }
    ensures low { neg_ℤ (pos (2 ^ 100)) ≤ℤ result }
    ensures high { result ≤ℤ pos (2 ^ 100) }
{
    let mut sum = 0;
    for prices in places {
        sum += sum_of(prices.prices());
    }
    sum
}
