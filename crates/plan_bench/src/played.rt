//! Days that are planned at each event.

use crate::day::Day;
use crate::given_day::GivenDay;
use anyhow::{Error, bail};
use plan_checker::{Verdict, check_class};
use plan_prices::{Planner, PricedWay, each_able, is_way, waits_after};
use plan_problem::ClassProblem;
use plan_solver::AugmentingPaths;
use std::alloc::Global;

/// The planners of a day.
#[derive(Clone, Copy)]
pub(crate) enum By {
    /// A planner that keeps its last plan.
    Kept,
    /// A new planner at each event.
    New,
    /// Both planners, which have to find equal totals; each plan is checked.
    Both,
}

/// Plays this number of events of a day with a plan at each event, and returns the sum of the totals in ms.
pub(crate) fn play(alloc: Global, mut day: Day, by: By, events: u32) -> Result<u64, Error> {
    let mut planner = AugmentingPaths::new(alloc);
    let mut sum: u64 = 0;
    for _ in 0..events {
        let class = day.class(alloc)?;
        let priced = planned_by(alloc, by, &mut planner, &class)?;
        sum = sum.saturating_add(priced.total);
        day.step(&priced.way)?;
    }
    Ok(sum)
}

/// The events of a given day, the most jobs that waited, and the sum of the totals of all classes, in ms.
#[derive(Drop)]
pub(crate) struct Sums {
    pub(crate) events: u32,
    pub(crate) most: usize,
    pub(crate) total: u64,
}

/// Plays a given day with a plan at each event, at most this number of events.
pub(crate) fn play_given(
    alloc: Global,
    day: &mut GivenDay,
    by: By,
    events: u32,
) -> Result<Sums, Error> {
    let mut planner = AugmentingPaths::new(alloc);
    let mut sums = Sums {
        events: 0,
        most: 0,
        total: 0,
    };
    for _ in 0..events {
        sums.events = sums.events.saturating_add(1);
        sums.most = sums.most.max(day.waiting());
        let total = plan_event(alloc, day, by, &mut planner)?;
        sums.total = sums.total.saturating_add(total);
        if !day.go_on()? {
            return Ok(sums);
        }
    }
    Ok(sums)
}

/// Plans the classes of an event, the highest priority first, and makes idle devices begin their first jobs.
/// Returns the sum of the totals.
fn plan_event(
    alloc: Global,
    day: &mut GivenDay,
    by: By,
    planner: &mut AugmentingPaths,
) -> Result<u64, Error> {
    let mut sum: u64 = 0;
    let mut bound = u64::MAX;
    let mut waits = day.waits(alloc)?;
    let mut ways = Vec::new(alloc);
    for _ in 0..u64::MAX {
        let Some(priority) = day.priority_below(bound) else {
            break;
        };
        let class = day.class(alloc, priority, waits)?;
        let priced = planned_by(alloc, by, planner, &class)?;
        if !is_way(&class, &priced.way) {
            bail!("not a way");
        }
        waits = waits_after(alloc, &class, &priced.way)?;
        sum = sum.saturating_add(priced.total);
        bound = priority;
        ways.push(priced.way)?;
    }
    for way in &ways {
        day.begin_all(way);
    }
    Ok(sum)
}

/// The way of the planner that is asked for, with its price. With both, the totals are compared.
fn planned_by(
    alloc: Global,
    by: By,
    planner: &mut AugmentingPaths,
    class: &ClassProblem,
) -> Result<PricedWay, Error> {
    let priced = match by {
        By::New => planned(&mut AugmentingPaths::new(alloc), class)?,
        By::Kept | By::Both => planned(planner, class)?,
    };
    if by == By::Both {
        compare(alloc, class, &priced)?;
    }
    Ok(priced)
}

/// The way of a planner, with its price.
fn planned<P: Planner>(planner: &mut P, class: &ClassProblem) -> Result<PricedWay, Error> {
    if !each_able(class) {
        bail!("a job has no device");
    }
    Ok(planner.plan_class(class)?)
}

/// Compares a plan with the plan of a new planner, and checks it.
fn compare(alloc: Global, class: &ClassProblem, priced: &PricedWay) -> Result<(), Error> {
    if planned(&mut AugmentingPaths::new(alloc), class)?.total != priced.total {
        bail!("the totals differ");
    }
    let lists = priced.prices.places().len();
    if priced.way.queues().len() != class.waits().len() || lists != class.waits().len() {
        bail!("a device has no list");
    }
    match check_class(class, priced) {
        Verdict::Yes => Ok(()),
        _ => bail!("the checker says no"),
    }
}
