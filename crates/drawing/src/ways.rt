//! The conditions under which the lists of a plan are a timetable.
ghost use Rattle.std.specs.Prelude.{All, IsTrue, ◌↔◌};
ghost use Rattle.plan_prices.specs.Way.{IsWay};

use plan_prices::{PlannedClass, is_way, leaves_waits};

/// Returns whether the lists of each class are a way of the class.
pub(crate) fn have_ways(classes: &[PlannedClass]) -> bool
    ensures { IsTrue result ↔ All (λ class. IsWay class.problem class.priced.way) classes.now }
{
    classes
        .iter()
        .all(|class| is_way(&class.problem, &class.priced.way))
}

/// Returns whether a class has exactly the waits that the class above it leaves.
fn follows(above: &PlannedClass, class: &PlannedClass) -> bool
    requires { IsWay above.now.problem above.now.priced.way }
{
    let waits = class.problem.waits();
    waits.len() == above.problem.waits().len()
        && leaves_waits(&above.problem, &above.priced.way, waits)
}

/// Returns whether each class but the first has exactly the waits that the class above it leaves: no two jobs
/// are on a device at the same time then.
pub(crate) fn follow_one_another(classes: &[PlannedClass]) -> bool
    requires { All (λ class. IsWay class.problem class.priced.way) classes.now }
{
    for place in 1..classes.len() {
        if !follows(&classes[place - 1], &classes[place]) {
            return false;
        }
    }
    true
}
