//! The checks of a class against the other classes of its plan.
ghost use Rattle.std.specs.Prelude.{◌≡◌, ◌↔◌, IsTrue};
ghost use Rattle.plan_prices.specs.Way.{IsWay};
ghost use Rattle.plan_prices.specs.Waits.{waits_after};
ghost use Rattle.plan_checker.specs.Beside.{AboveHaveWays, NoneElsewhere, NotAbove, NotStranded, WaitsFollow};

use base_types::JobId;
use plan_prices::{PlannedClass, Stranded, leaves_waits};
use plan_problem::ClassProblem;

/// Returns whether no job of the class is of a class above, or stranded.
pub(crate) fn none_elsewhere(
    class: &ClassProblem,
    above: &[PlannedClass],
    stranded: &[Stranded],
) -> bool
    ensures { IsTrue result ↔ NoneElsewhere (record { above = above.now; stranded = stranded.now }) class.now }
{
    for job in class.ids() {
        if !not_above(*job, above) {
            return false;
        }
        if !not_stranded(*job, stranded) {
            return false;
        }
    }
    true
}

/// Returns whether a job is in none of the classes.
fn not_above(job: JobId, above: &[PlannedClass]) -> bool
    ensures { IsTrue result ↔ NotAbove above.now job }
{
    for class in above {
        if class.problem.place(job).is_some() {
            return false;
        }
    }
    true
}

/// Returns whether a job isn't among the stranded jobs.
fn not_stranded(job: JobId, stranded: &[Stranded]) -> bool
    ensures { IsTrue result ↔ NotStranded stranded.now job }
{
    stranded.iter().all(|other| other.job != job)
}

/// Returns whether the waits of the class are the waits after the class just above, if there is a class
/// above.
pub(crate) fn waits_follow(class: &ClassProblem, above: &[PlannedClass]) -> bool
    requires { AboveHaveWays above.now }
    ensures { IsTrue result ↔ WaitsFollow above.now class.now }
{
    if above.is_empty() {
        return true;
    }
    leaves(&above[above.len() - 1], class)
}

/// Returns whether the waits after a class are those of the next one.
#[tactic(auto, using(crate::proofs::Above::left_length))]
fn leaves(class: &PlannedClass, next: &ClassProblem) -> bool
    requires { IsWay class.now.problem class.now.priced.way }
    ensures { IsTrue result ↔ (next.now.waits ≡ waits_after class.now.problem class.now.priced.way) }
{
    if next.waits().len() != class.problem.waits().len() {
        return false;
    }
    leaves_waits(&class.problem, &class.priced.way, next.waits())
}
