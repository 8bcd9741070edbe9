//! Plans: classes with priced ways, and the jobs that no device can print.
ghost use Rattle.std.specs.Prelude.{◌≡◌};

use crate::price_lists::PricedWay;
use base_types::{Priority, Stranded};
use plan_problem::ClassProblem;
use std::marker::Model;

/// The class of one priority: its problem, and a way with prices and total.
#[derive(Drop)]
pub struct PlannedClass {
    pub priority: Priority,
    pub problem: ClassProblem,
    pub priced: PricedWay,
}

/// A plan. In clauses it is a record of the same lists.
#[derive(Drop)]
pub struct Plan {
    /// The classes, from the highest priority down.
    pub classes: Vec<PlannedClass>,
    /// The stranded jobs, by rising id.
    pub stranded: Vec<Stranded>,
}

impl Model for Plan {
    ghost use Rattle.plan_prices.specs.Plan.{PlanRecord};

    ghost Value = { PlanRecord };

    ghost view = { λ plan. record { classes = plan.classes.items; stranded = plan.stranded.items } };
}

impl Plan {
    /// The classes, from the highest priority down.
    pub fn classes(&self) -> &[PlannedClass]
        ensures { result.now ≡ self.now.classes }
    {
        &self.classes
    }

    /// The stranded jobs, by rising id.
    pub fn stranded(&self) -> &[Stranded]
        ensures { result.now ≡ self.now.stranded }
    {
        &self.stranded
    }
}
