//! The checks that each job and place has a price, and that no price is too high.
ghost use Rattle.std.specs.Prelude.{◌≡◌, ◌↔◌, ◌<◌, ◌≤◌, All, IsTrue, length, pos, ◌≤ℤ◌};
ghost use Rattle.plan_checker.specs.Fair.{AllFairOn, AllPlacesPriced, IsFairOn, NoneMissing, NonePositive, NoneTooHigh};

use base_types::{DeviceId, Limits};
use plan_prices::{PlacePrices, Prices, Way, all_named};
use plan_problem::ClassProblem;

/// Returns whether each job is in a list of the way, and each job and each used place has a price.
pub(crate) fn none_missing(class: &ClassProblem, way: &Way, prices: &Prices) -> bool
    requires { length prices.now.places ≡ length way.now }
    ensures { IsTrue result ↔ NoneMissing class.now way.now prices.now }
{
    if !all_named(class, way) {
        return false;
    }
    if prices.jobs().len() != class.ids().len() {
        return false;
    }
    places_priced(way, prices.places())
}

/// Returns whether each used place has exactly one price.
fn places_priced(way: &Way, places: &[PlacePrices]) -> bool
    requires { length places.now ≡ length way.now }
    ensures { IsTrue result ↔ AllPlacesPriced way.now places.now }
{
    for (device, queue) in way.queues().iter().enumerate() {
        if places[device].prices().len() != queue.jobs().len() {
            return false;
        }
    }
    true
}

/// Returns whether no place has a positive price.
pub(crate) fn no_place_positive(places: &[PlacePrices]) -> bool
    ensures { IsTrue result ↔ NonePositive places.now }
{
    places.iter().all(|prices| none_positive(prices.prices()))
}

fn none_positive(prices: &[i64]) -> bool
    ensures { IsTrue result ↔ All (λ price. price ≤ℤ pos 0) prices.now }
{
    prices.iter().all(|price| *price <= 0)
}

/// Returns whether no job's price is too high on a device that is able to print it.
pub(crate) fn all_fair(class: &ClassProblem, prices: &Prices) -> bool
    requires jobs { length prices.now.jobs ≡ length class.now.ids }
    requires places { length prices.now.places ≡ length class.now.waits }
    ensures { IsTrue result ↔ NoneTooHigh class.now prices.now }
{
    for (place, places) in prices.places().iter().enumerate() {
        if !all_fair_on(class, DeviceId::new(place), prices.jobs(), places.prices()) {
            return false;
        }
    }
    true
}

/// Returns whether the price of each job is fair on the device, if the device is able to print the job.
fn all_fair_on(class: &ClassProblem, device: DeviceId, prices: &[i64], places: &[i64]) -> bool
    requires prices { length prices.now ≡ length class.now.ids }
    requires device { device < length class.now.waits }
    ensures { IsTrue result ↔ AllFairOn class.now device prices.now places.now }
{
    let wait = class.wait(device);
    for (place, job) in class.ids().iter().enumerate() {
        if let Some(time) = class.time(*job, device) {
            if !is_fair_on(wait, time, prices[place], places) {
                return false;
            }
        }
    }
    true
}

/// Returns whether a job's price, together with that of each used place of a device, is at most what the job
/// costs there, and by itself at most what the job costs at the next place.
fn is_fair_on(wait: u64, time: u64, price: i64, places: &[i64]) -> bool
    requires wait { wait ≤ Limits.WAIT }
    requires time { time ≤ Limits.JOB_TIME }
    ensures { IsTrue result ↔ IsFairOn wait time price places.now }
{
    let mut cost = i128::from(wait);
    for place in places {
        cost += i128::from(time);
        if i128::from(price) + i128::from(*place) > cost {
            return false;
        }
    }
    i128::from(price) <= cost + i128::from(time)
}
