//! Ways to print the jobs of a class, their totals, and prices that prove a way best.
//!
//! Totals, waits and starts are exact. The laws make prices a proof: a way with fair prices is best, and no
//! timetable, with any gaps, is better than a best way. [`Planner`] is the contract of each planner: a print
//! room is generic in its planner, so its plans are best by the contract and not by one algorithm. A planner
//! may leave equal jobs to [`in_order`]. The crate neither finds a way nor checks one: `plan_solver` finds
//! ways, and `plan_checker` checks them.
//!
//! Examples: the plans in `crates/play_examples/data`; tests: `unit_tests`.
#![tactic(auto)]

mod able;
mod ends;
mod exchange;
mod laws;
mod order;
mod plan;
mod planner;
mod price_lists;
mod rising;
mod way;
mod way_facts;
mod way_start;
mod way_total;
mod way_waits;

pub use able::each_able;
pub use base_types::Stranded;
pub use laws::{
    best_at_most_timetables, fair_is_best, fair_prices_bounded, timetable_no_better,
    way_is_timetable,
};
pub use order::in_order;
pub use plan::{Plan, PlannedClass};
pub use planner::Planner;
pub use price_lists::{PlacePrices, PricedWay, Prices};
pub use way::{Queue, Way};
pub use way_facts::{all_able, all_named, is_way, names_known, none_twice};
pub use way_start::start_of;
pub use way_total::total;
pub use way_waits::{leaves_waits, waits_after};
