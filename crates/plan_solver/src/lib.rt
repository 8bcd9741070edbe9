//! The planner: finds a best way to print the jobs of a class, with fair prices that prove it best.
//!
//! The contract: if each job has a device that is able, the planner returns a way of the class, fair prices
//! and the total, and of jobs with equal times the older one completes no later; the only error is out of
//! memory. The contract states neither a bound on time nor which of several such ways is found.
//!
//! `AugmentingPaths` keeps its last classes, and begins with the part of one that is left. That part is a
//! hint: it is tested before it is used, and no contract depends on it.
//!
//! Tests: `unit_tests`.
#![tactic(auto)]

mod adapt;
mod all_places;
mod answer;
mod begun;
mod costs;
mod device_columns;
mod equals;
mod filling;
mod fit;
mod free_places;
mod hint;
mod kept;
mod marks;
mod matching;
mod order;
mod planner;
mod recall;
mod search;
mod solver;
mod times;
mod vacancy;
mod worth;

pub use planner::{AugmentingPaths, DenseAugmentingPaths, MarkedWay};
pub use times::{Counted, Times};
