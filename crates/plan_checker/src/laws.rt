//! A law of verdicts, as the contract of a function that does nothing.
ghost use Rattle.plan_checker.specs.Plan.{IsPlanVerdict, IsProvedPlan};

use crate::verdict::PlanVerdict;
use plan_prices::Plan;

/// [`crate::check_plan`] accepts each proved plan.
pub fn proved_plan_is_yes(plan: &Plan)
    requires { IsProvedPlan plan.now }
    ensures { IsPlanVerdict plan.now PlanVerdict.Yes }
{}
