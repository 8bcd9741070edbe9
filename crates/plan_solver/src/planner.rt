//! The planners.
ghost use Rattle.std.specs.Prelude.{◌≡◌, ◌+◌, ◌*◌, ◌^◌, ◌<◌, ◌≤◌, IfOk, length};
ghost use Rattle.plan_problem.specs.Class.{IsClass};
ghost use Rattle.plan_prices.specs.Total.{IsBest};
ghost use Rattle.plan_prices.specs.Prices.{IsProved};
ghost use Rattle.plan_prices.specs.Able.{EachAble};
ghost use Rattle.plan_prices.specs.Order.{AreMarks, KeepsOrder};

use crate::all_places::{Shown, match_all};
use crate::answer::{prices, total, way};
use crate::kept::{Kept, Memory};
use crate::recall::recall;
use crate::times::{Counted, Entries, Times, read};
use plan_prices::{Planner, PricedWay, fair_is_best, in_order};
use plan_problem::ClassProblem;
use std::alloc::{AllocError, Global};

/// A priced way, in which equal jobs may be in any order, and a mark for each job of its class.
#[derive(Drop)]
pub struct MarkedWay {
    pub priced: PricedWay,
    pub marks: Vec<u64>,
}

/// The planner that shows the used places and the next free place of each device. It keeps the last plans of
/// some classes, and begins the next plan with the part of one that is left.
#[derive(Drop)]
pub struct AugmentingPaths {
    alloc: Global,
    memory: Memory,
}

impl AugmentingPaths {
    /// Creates a planner that takes its memory from `alloc`.
    pub fn new(alloc: Global) -> AugmentingPaths {
        AugmentingPaths {
            alloc,
            memory: Memory::new(alloc),
        }
    }

    /// Finds the way that [`Planner::plan_class`] returns once equal jobs are in order, with each read of a time
    /// counted as a look. For J jobs on D devices there are at most `J * D` looks: each time is read once.
    pub fn plan_counted<T: Times>(&mut self, times: &mut T) -> Result<MarkedWay, AllocError>
        requires able { EachAble (T.class times.old) }
        requires room { T.looked times.old < 2 ^ 62 }
        ensures proved { IfOk result (λ p. IsProved (T.class times.old) p.priced.way p.priced.prices p.priced.total) }
        ensures best { IfOk result (λ p. IsBest (T.class times.old) p.priced.way) }
        ensures marks { IfOk result (λ p. AreMarks (T.class times.old) p.marks.items) }
        ensures same { T.class times.new ≡ T.class times.old }
        ensures looked { let jobs = length (T.class times.old).ids in let devices = length (T.class times.old).waits in
            T.looked times.new ≤ T.looked times.old + jobs * devices }
    {
        plan(self.alloc, times, Shown::Next, &mut self.memory)
    }
}

impl Planner for AugmentingPaths {
    fn plan_class(&mut self, class: &ClassProblem) -> Result<PricedWay, AllocError> {
        let mut counted = Counted::new(class);
        let marked = self.plan_counted(&mut counted)?;
        ordered(self.alloc, class, marked)
    }
}

/// The planner that shows all free places of each device. It has the same contract as [`AugmentingPaths`],
/// and takes more time.
#[derive(Clone, Copy)]
pub struct DenseAugmentingPaths {
    alloc: Global,
}

impl DenseAugmentingPaths {
    /// Creates a planner that takes its memory from `alloc`.
    pub fn new(alloc: Global) -> DenseAugmentingPaths {
        DenseAugmentingPaths { alloc }
    }
}

impl Planner for DenseAugmentingPaths {
    fn plan_class(&mut self, class: &ClassProblem) -> Result<PricedWay, AllocError> {
        let mut counted = Counted::new(class);
        let mut memory = Memory::new(self.alloc);
        let marked = plan(self.alloc, &mut counted, Shown::All, &mut memory)?;
        ordered(self.alloc, class, marked)
    }
}

/// The way, with equal jobs in order.
fn ordered(alloc: Global, class: &ClassProblem, marked: MarkedWay) -> Result<PricedWay, AllocError>
    requires proved { IsProved class.now marked.priced.way marked.priced.prices marked.priced.total }
    requires marks { AreMarks class.now marked.marks.items }
    ensures proved { IfOk result (λ p. IsProved class.now p.way p.prices p.total) }
    ensures best { IfOk result (λ p. IsBest class.now p.way) }
    ensures order { IfOk result (λ p. KeepsOrder class.now p.way) }
{
    let MarkedWay { priced, marks } = marked;
    let priced = in_order(alloc, class, &marks, priced)?;
    fair_is_best(class, &priced);
    Ok(priced)
}

/// Plans a class, with these free places of each device. It begins with the kept part of the class, and keeps
/// the class afterwards.
fn plan<T: Times>(
    alloc: Global,
    times: &mut T,
    shown: Shown,
    memory: &mut Memory,
) -> Result<MarkedWay, AllocError>
    requires able { EachAble (T.class times.old) }
    requires room { T.looked times.old < 2 ^ 62 }
    ensures proved { IfOk result (λ p. IsProved (T.class times.old) p.priced.way p.priced.prices p.priced.total) }
    ensures marks { IfOk result (λ p. AreMarks (T.class times.old) p.marks.items) }
    ensures class { IsClass (T.class times.old) }
    ensures same { T.class times.new ≡ T.class times.old }
    ensures looked { let jobs = length (T.class times.old).ids in let devices = length (T.class times.old).waits in
        T.looked times.new ≤ T.looked times.old + jobs * devices }
{
    let entries = read(alloc, times)?;
    let hint = recall(alloc, memory.take(&entries.ids), &entries);
    let matching = match_all(alloc, &entries.costs, shown, &hint)?;
    let way = way(alloc, &entries, &matching)?;
    let prices = prices(alloc, &entries, &matching)?;
    let total = total(&entries.costs, &matching);
    let Entries { ids, costs, marks } = entries;
    memory.keep(Kept {
        ids,
        costs,
        matching,
    });
    let priced = PricedWay { way, prices, total };
    Ok(MarkedWay { priced, marks })
}
