//! A class whose lines are being read.
ghost use Rattle.std.specs.Prelude.{◌≡◌};
ghost use Rattle.plan_text.specs.Steps.{opened_of, opened_at, planned, problem_of};
ghost use Rattle.plan_problem.specs.Class.{IsClass};

use base_types::{JobId, Priority};
use plan_prices::{PlacePrices, PlannedClass, PricedWay, Prices, Queue, Way};
use plan_problem::{ClassProblem, Row};
use std::alloc::Global;

/// A class whose lines are being read.
#[derive(Drop)]
pub(crate) struct OpenClass {
    pub(crate) priority: Priority,
    pub(crate) ids: Vec<JobId>,
    pub(crate) rows: Vec<Row>,
    pub(crate) waits: Vec<u64>,
    pub(crate) queues: Vec<Queue>,
    pub(crate) total: u64,
    pub(crate) job_prices: Vec<i64>,
    pub(crate) place_prices: Vec<PlacePrices>,
}

impl OpenClass {
    /// Creates a class of which no line was read.
    pub(crate) fn new(alloc: Global, priority: Priority) -> OpenClass
        ensures { opened_of result ≡ opened_at priority }
    {
        OpenClass {
            priority,
            ids: Vec::new(alloc),
            rows: Vec::new(alloc),
            waits: Vec::new(alloc),
            queues: Vec::new(alloc),
            total: 0,
            job_prices: Vec::new(alloc),
            place_prices: Vec::new(alloc),
        }
    }

    /// The class of the lines.
    pub(crate) fn planned(self) -> PlannedClass
        requires { IsClass (problem_of (opened_of self)) }
        ensures { result ≡ planned (opened_of self) }
    {
        PlannedClass {
            priority: self.priority,
            problem: ClassProblem::from_rows(self.ids, self.rows, self.waits),
            priced: PricedWay {
                way: Way::new(self.queues),
                prices: Prices::new(self.job_prices, self.place_prices),
                total: self.total,
            },
        }
    }
}
