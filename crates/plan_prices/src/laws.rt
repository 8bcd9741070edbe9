//! Laws of ways and prices, as contracts of functions that do nothing.
ghost use Rattle.std.specs.Prelude.{◌≡◌, ◌*◌, ◌≤◌, ℕ, List, All, pos, neg_ℤ, ◌≤ℤ◌};
ghost use Rattle.plan_prices.specs.Way.{IsWay};
ghost use Rattle.plan_prices.specs.Total.{IsBest, completion_of, total_of};
ghost use Rattle.plan_prices.specs.Timetable.{Slot, IsTimetable, end_of, own_slots, slots_total};
ghost use Rattle.plan_prices.specs.Prices.{AreFair};

use crate::price_lists::PricedWay;
use crate::way::Way;
use base_types::Limits;
use plan_problem::ClassProblem;

/// A way with fair prices is best.
pub fn fair_is_best(class: &ClassProblem, priced: &PricedWay)
    requires way { IsWay class.now priced.now.way }
    requires fair { AreFair class.now priced.now.way priced.now.prices }
    ensures { IsBest class.now priced.now.way }
{
    // Reading the class gives its invariant.
    let _class = class.ids();
}

/// Fair prices are small: the price of a job is between 1 and twice the longest wait, that of a place between
/// the negative of that and 0.
pub fn fair_prices_bounded(class: &ClassProblem, priced: &PricedWay)
    requires way { IsWay class.now priced.now.way }
    requires fair { AreFair class.now priced.now.way priced.now.prices }
    ensures jobs { All (λ price. (pos 1 ≤ℤ price) × (price ≤ℤ pos (2 * Limits.WAIT))) priced.now.prices.jobs }
    ensures places { All (λ prices. All (λ price. (neg_ℤ (pos (2 * Limits.WAIT)) ≤ℤ price) × (price ≤ℤ pos 0)) prices) priced.now.prices.places }
{
    // Reading the class gives its invariant.
    let _class = class.ids();
}

/// Gaps never help: each timetable has a way whose total isn't greater.
pub fn timetable_no_better(class: &ClassProblem)
    ensures { (slots : List Slot) → IsTimetable class.now slots → (way : List (List ℕ)) × IsWay class.now way × (total_of class.now way ≤ slots_total class.now slots) }
{
    // Reading the class gives its invariant.
    let _class = class.ids();
}

/// The starts of a way are a timetable with the way's total, in which each job ends at its completion time.
pub fn way_is_timetable(class: &ClassProblem, way: &Way)
    requires { IsWay class.now way.now }
    ensures timetable { IsTimetable class.now (own_slots class.now way.now) }
    ensures total { slots_total class.now (own_slots class.now way.now) ≡ total_of class.now way.now }
    ensures ends { All (λ slot. end_of class.now slot ≡ completion_of class.now way.now slot.job) (own_slots class.now way.now) }
{
    // Reading the class gives its invariant.
    let _class = class.ids();
}

/// The total of a best way is at most that of each timetable.
pub fn best_at_most_timetables(class: &ClassProblem, way: &Way)
    requires { IsBest class.now way.now }
    ensures { (slots : List Slot) → IsTimetable class.now slots → total_of class.now way.now ≤ slots_total class.now slots }
{
    // Reading the class gives its invariant.
    let _class = class.ids();
}
