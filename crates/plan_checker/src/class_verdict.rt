//! The verdict on a priced way.
ghost use Rattle.std.specs.Prelude.{◌≡◌, ◌↔◌, ◌≤◌, List, length};
ghost use Rattle.plan_problem.specs.Class.{IsClass};
ghost use Rattle.plan_prices.specs.Total.{IsBest, total_of};
ghost use Rattle.plan_prices.specs.Timetable.{Slot, IsTimetable, slots_total};
ghost use Rattle.plan_prices.specs.Prices.{IsProved};
ghost use Rattle.plan_checker.specs.Beside.{AboveHaveWays, alone};
ghost use Rattle.plan_checker.specs.Verdict.{IsVerdict};

use crate::beside::{none_elsewhere, waits_follow};
use crate::fairness::{all_fair, no_place_positive, none_missing};
use crate::totals::totals_agree;
use crate::verdict::{Fault, Verdict};
use plan_prices::{PlannedClass, PricedWay, Stranded, all_able, names_known, none_twice};
use plan_problem::ClassProblem;

/// Checks a priced way of a class by itself. The call takes no memory.
///
/// The verdict is yes exactly if the way is one of the class, its prices are fair and its total is stated.
/// The way is then best, and no timetable of the class is better. The waits are taken as given.
pub fn check_class(class: &ClassProblem, priced: &PricedWay) -> Verdict
    requires queues { length priced.now.way ≡ length class.now.waits }
    requires places { length priced.now.prices.places ≡ length class.now.waits }
    ensures verdict { IsVerdict alone class.now priced.now.way priced.now.prices priced.now.total result }
    ensures yes { (result ≡ Verdict.Yes) ↔ IsProved class.now priced.now.way priced.now.prices priced.now.total }
    ensures best { result ≡ Verdict.Yes → IsBest class.now priced.now.way }
    ensures timetables { result ≡ Verdict.Yes → (slots : List Slot) → IsTimetable class.now slots → total_of class.now priced.now.way ≤ slots_total class.now slots }
{
    // Reading the class gives its invariant.
    let _class = class.ids();
    judge(class, priced, &[], &[])
}

/// Checks a priced way, in the context of the classes above it in its plan and the stranded jobs.
pub(crate) fn judge(
    class: &ClassProblem,
    priced: &PricedWay,
    above: &[PlannedClass],
    stranded: &[Stranded],
) -> Verdict
    requires class { IsClass class.now }
    requires queues { length priced.now.way ≡ length class.now.waits }
    requires places { length priced.now.prices.places ≡ length class.now.waits }
    requires above { AboveHaveWays above.now }
    ensures { IsVerdict (record { above = above.now; stranded = stranded.now }) class.now priced.now.way priced.now.prices priced.now.total result }
{
    if !names_known(class, &priced.way) {
        return Verdict::No(Fault::UnknownName);
    }
    if !none_twice(class, &priced.way) {
        return Verdict::No(Fault::Twice);
    }
    if !none_elsewhere(class, above, stranded) {
        return Verdict::No(Fault::Twice);
    }
    if !none_missing(class, &priced.way, &priced.prices) {
        return Verdict::No(Fault::Missing);
    }
    if !all_able(class, &priced.way) {
        return Verdict::No(Fault::NotAble);
    }
    if !waits_follow(class, above) {
        return Verdict::No(Fault::WrongWait);
    }
    if !no_place_positive(priced.prices.places()) {
        return Verdict::No(Fault::PositivePlacePrice);
    }
    if !all_fair(class, &priced.prices) {
        return Verdict::No(Fault::PriceTooHigh);
    }
    if !totals_agree(class, priced) {
        return Verdict::No(Fault::TotalsDiffer);
    }
    Verdict::Yes
}
