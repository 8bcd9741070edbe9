//! The contract of each planner.
ghost use Rattle.std.specs.Prelude.{IfOk};
ghost use Rattle.plan_prices.specs.Total.{IsBest};
ghost use Rattle.plan_prices.specs.Prices.{IsProved};
ghost use Rattle.plan_prices.specs.Able.{EachAble};
ghost use Rattle.plan_prices.specs.Order.{KeepsOrder};

use crate::price_lists::PricedWay;
use plan_problem::ClassProblem;
use std::alloc::AllocError;

/// A planner, which finds a best way to print the jobs of a class.
pub trait Planner {
    /// Returns a best way of the class, with fair prices that prove it best, and its total. Of two jobs that
    /// take the same time on each device, the older one completes no later. Each job of the class has a device
    /// that is able. The only error is out of memory.
    fn plan_class(&mut self, class: &ClassProblem) -> Result<PricedWay, AllocError>
        requires { EachAble class.now }
        ensures proved { IfOk result (λ p. IsProved class.now p.way p.prices p.total) }
        ensures best { IfOk result (λ p. IsBest class.now p.way) }
        ensures order { IfOk result (λ p. KeepsOrder class.now p.way) };
}
