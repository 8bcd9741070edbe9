//! A law of the text of each plan, as the contract of a function that does nothing.
ghost use Rattle.std.specs.Prelude.{ℕ};
ghost use Rattle.plan_prices.specs.Plan.{PlanRecord};
ghost use Rattle.print_room.specs.GoodPlan.{IsGoodPlan};
ghost use Rattle.promises.specs.Passes.{PassesAsText};

use dispatcher::Core;
use plan_prices::Planner;

/// Each good plan of a core, at any moment, may be written as a text, with the names of the devices in the
/// settings. The text is read back as the plan, and the checker accepts it.
pub fn plan_is_its_text<P: Planner + Drop>(core: &Core<P>)
    ensures { (now : ℕ) (plan : PlanRecord) → IsGoodPlan now core.now plan → PassesAsText core.now.settings plan }
{
    core.is_kept();
}
