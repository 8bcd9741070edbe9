//! Laws of the text of a plan, in both directions, as contracts of functions that do nothing.
ghost use Rattle.std.specs.Prelude.{◌≡◌, ◌↔◌, ℕ, List};
ghost use Rattle.plan_text.specs.NamedPlan.{NamedPlan};
ghost use Rattle.plan_text.specs.Whole.{plan_at};
ghost use Rattle.plan_text.specs.Writing.{plan_text};
ghost use Rattle.plan_text.specs.Ranges.{IsPlanInRange};
ghost use Rattle.plan_text.specs.TextOf.{IsTextOf};

use crate::named_plan::PlanText;

/// The text of a plan is read back as the plan, if the plan's numbers, names and orders are those of a text.
pub fn text_read_back(plan: &PlanText)
    requires { IsPlanInRange plan.now }
    ensures { plan_at (plan_text plan.now) ≡ Ok plan.now }
{
    // Reading the plan gives its view.
    let _devices = plan.devices();
}

/// A text is read as a plan if and only if it is the text of that plan, whose numbers, names and orders are
/// then those of a text. Hence no plan has two texts. Only the fault of a text depends on the reader's steps.
pub fn one_text()
    ensures { (text : List ℕ) (named : NamedPlan) → (plan_at text ≡ Ok named) ↔ IsTextOf text named }
{}
