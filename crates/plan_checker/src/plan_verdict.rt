//! The verdict on a plan.
ghost use Rattle.std.specs.Prelude.{◌≡◌, ◌↔◌, ◌≤◌, All, IsTrue, List};
ghost use Rattle.plan_prices.specs.Total.{IsBest, total_of};
ghost use Rattle.plan_prices.specs.Timetable.{Slot, IsTimetable, slots_total};
ghost use Rattle.plan_prices.specs.Plan.{HasOneListEach};
ghost use Rattle.plan_checker.specs.Plan.{IsPlanVerdict, IsProvedPlan};

use crate::class_verdict::judge;
use crate::verdict::{PlanVerdict, Verdict};
use plan_prices::{Plan, PlannedClass};

/// Checks a plan, class by class from the top. The call takes no memory.
///
/// The verdict is yes exactly if each class is proved, its waits are those after the class above it, and no
/// job is in two classes, or in a class and among the stranded. Each class is then best under its waits, and
/// no timetable is better. The first waits are taken as given.
///
/// The priorities of the classes and their order aren't checked, nor whether a job is named twice among the
/// stranded: they make no difference to what is best, and the text of a plan can have neither.
///
/// The names of the devices aren't read, so a plan without names can be checked too.
pub fn check_plan(plan: &Plan) -> PlanVerdict
    requires { All HasOneListEach plan.now.classes }
    ensures verdict { IsPlanVerdict plan.now result }
    ensures yes { (result ≡ PlanVerdict.Yes) ↔ IsProvedPlan plan.now }
    ensures best { result ≡ PlanVerdict.Yes → All (λ class. IsBest class.problem class.priced.way) plan.now.classes }
    ensures timetables { result ≡ PlanVerdict.Yes → All (λ class. (slots : List Slot) → IsTimetable class.problem slots → total_of class.problem class.priced.way ≤ slots_total class.problem slots) plan.now.classes }
{
    let classes = plan.classes();
    for (place, class) in classes.iter().enumerate() {
        let above = &classes[..place];
        // Reading the class gives its invariant.
        let _class = class.problem.ids();
        match judge(&class.problem, &class.priced, above, plan.stranded()) {
            Verdict::Yes => {}
            Verdict::No(fault) => return PlanVerdict::No { place, fault },
        }
    }
    PlanVerdict::Yes
}

/// Returns whether each class has a list of jobs and a list of place prices for each device.
pub fn has_one_list_each(classes: &[PlannedClass]) -> bool
    ensures { IsTrue result ↔ All HasOneListEach classes.now }
{
    for class in classes {
        if class.priced.way.queues().len() != class.problem.waits().len() {
            return false;
        }
        if class.priced.prices.places().len() != class.problem.waits().len() {
            return false;
        }
    }
    true
}
