//! A planner that can be paused.
use plan_prices::{Planner, PricedWay};
use plan_problem::ClassProblem;
use std::alloc::AllocError;

/// A planner that makes the plans of another, or none at all: while it is paused, each dispatch is one that was
/// refused memory, so that no job begins.
#[derive(Drop)]
pub struct Pausable<P: Planner + Drop> {
    planner: P,
    paused: bool,
}

impl<P: Planner + Drop> Pausable<P> {
    /// Creates a planner that makes the plans of another.
    pub fn new(planner: P) -> Pausable<P> {
        Pausable {
            planner,
            paused: false,
        }
    }

    /// Creates a planner that makes no plans.
    pub fn paused(planner: P) -> Pausable<P> {
        Pausable {
            planner,
            paused: true,
        }
    }
}

impl<P: Planner + Drop> Planner for Pausable<P> {
    fn plan_class(&mut self, class: &ClassProblem) -> Result<PricedWay, AllocError> {
        if self.paused {
            return Err(AllocError);
        }
        self.planner.plan_class(class)
    }
}
