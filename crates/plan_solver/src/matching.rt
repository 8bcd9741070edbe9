//! A fair matching of jobs to places, which is the planner's state between two jobs.
//!
//! In the words of the assignment problem a job is a row, and a used place is a column. The charge of a job
//! is the dual of its row. The dual of a column is at most 0, and is stored here without its sign. A matching
//! is fair if no cost is below the sum of both duals, and the cost of each matched pair is that sum (Kuhn
//! 1955; Jonker and Volgenant 1987).
ghost use Rattle.std.specs.Prelude.{◌≡◌, ◌≢◌, ℕ, ◌+◌, ◌-◌, ◌<◌, ◌≤◌, length, slice_index, slice_index_or, slice_set, vec_len, [], ◌∷◌, ◌++◌, IfOk, OnOk};
ghost use Rattle.std.specs.List.Sorted.{IsPermutation};
ghost use Rattle.plan_solver.specs.Costs.{cost_of, nowhere};
ghost use Rattle.plan_solver.specs.DeviceColumns.{AreByDevice};
ghost use Rattle.plan_solver.specs.Matching.{AreMoved, HasRoom, IsFairlyMatched};
ghost use Rattle.plan_solver.specs.Search.{IsSized};

use crate::costs::{Costs, Place, UNABLE, cost};
use crate::device_columns::DeviceColumns;
use crate::search::{Search, search_exit};
use std::alloc::{AllocError, Global};

/// The matched jobs. Column c is the place `columns[c]`, has the dual `duals[c]` without its sign, and is
/// matched to the job `jobs[c]`, whose charge is `prices[c]`.
#[derive(Drop)]
pub(crate) struct Matching {
    pub(crate) columns: Vec<Place>,
    pub(crate) duals: Vec<u64>,
    pub(crate) jobs: Vec<usize>,
    pub(crate) prices: Vec<u64>,
}

impl Matching {
    /// An empty matching with memory for this many columns. The only error is out of memory.
    pub(crate) fn with_capacity(alloc: Global, columns: usize) -> Result<Matching, AllocError> {
        Ok(Matching {
            columns: Vec::with_capacity(alloc, columns)?,
            duals: Vec::with_capacity(alloc, columns)?,
            jobs: Vec::with_capacity(alloc, columns)?,
            prices: Vec::with_capacity(alloc, columns)?,
        })
    }

    /// Adds a column. After an error, which is out of memory, the matching is of no use.
    pub(crate) fn push(
        &mut self,
        place: Place,
        dual: u64,
        job: usize,
        price: u64,
    ) -> Result<(), AllocError> {
        self.columns.push(place)?;
        self.duals.push(dual)?;
        self.jobs.push(job)?;
        self.prices.push(price)?;
        Ok(())
    }
}

/// Matches one more job, over a shortest augmenting path to one of the free places, and keeps prices and
/// duals fair. A slack is the amount by which all prices may rise before one exceeds the cost of a free
/// place. The slacks of the first free places are kept up to date, as many as are given.
pub(crate) fn augment(
    alloc: Global,
    costs: &Costs,
    by_device: &[DeviceColumns],
    matching: &mut Matching,
    free: &[Place],
    slacks: &mut [u64],
    job: usize,
) -> Result<usize, AllocError>
    requires by_device { AreByDevice (vec_len costs.now.waits) matching.old.columns.items by_device.now }
    requires matched { IsFairlyMatched (cost_of costs.now) matching.old free.now }
    requires some { 0 < length free.now }
    requires few { length slacks.old ≤ length free.now }
    requires room { HasRoom (cost_of costs.now) matching.old.jobs.items matching.old.prices.items free.now slacks.old }
    ensures matched { OnOk result (IsFairlyMatched (cost_of costs.now) matching.new free.now) }
    ensures slacks { length slacks.new ≡ length slacks.old }
    ensures room { OnOk result (HasRoom (cost_of costs.now) matching.new.jobs.items matching.new.prices.items free.now slacks.new) }
    ensures place { IfOk result (λ f. f < length free.now) }
    ensures columns { IfOk result (λ f. matching.new.columns.items ≡ matching.old.columns.items ++ slice_index_or free.now f nowhere ∷ []) }
    ensures jobs { OnOk result (IsPermutation (matching.old.jobs.items ++ job ∷ []) matching.new.jobs.items) }
{
    let last = matching.columns.len();
    matching.jobs.push(job)?;
    matching.prices.push(0)?;
    let mut search = search_exit(alloc, costs, by_device, matching, free)?;
    raise_all(matching, &search);
    tighten(&search, slacks);
    let place = free[search.exit.place];
    add_column(matching, &mut search, place)?;
    move_jobs(matching, &search, last);
    Ok(search.exit.place)
}

/// Raises each dual and each price by the amount by which it is nearer than the exit.
fn raise_all(matching: &mut Matching, search: &Search)
    requires sizes { IsSized matching.old search.now }
    requires prices_low { (q : ℕ) → q < vec_len matching.old.prices → slice_index matching.old.prices.items q ≤ UNABLE }
    requires duals_low { (c : ℕ) → c < vec_len matching.old.duals → slice_index matching.old.duals.items c ≤ UNABLE }
    requires near { search.now.exit.length ≤ UNABLE }
    ensures same { (matching.new.jobs ≡ matching.old.jobs) × (matching.new.columns ≡ matching.old.columns) }
    ensures sizes { IsSized matching.new search.now }
    ensures prices { (q : ℕ) → q < vec_len matching.old.prices
        → slice_index matching.new.prices.items q ≡ slice_index matching.old.prices.items q + (search.now.exit.length - slice_index search.now.lengths.items q) }
    ensures duals { (c : ℕ) → c < vec_len matching.old.duals
        → slice_index matching.new.duals.items c ≡ slice_index matching.old.duals.items c + (search.now.exit.length - slice_index search.now.lengths.items c) }
{
    raise(&mut matching.prices, &search.lengths, search.exit.length);
    raise(&mut matching.duals, &search.lengths, search.exit.length);
}

/// Raises each value by the amount by which its length is below `reach`.
fn raise(values: &mut [u64], lengths: &[u64], reach: u64)
    requires covered { length values.old ≤ length lengths.now }
    requires low { (c : ℕ) → c < length values.old → slice_index values.old c ≤ UNABLE }
    requires reach_low { reach ≤ UNABLE }
    ensures len { length values.new ≡ length values.old }
    ensures raised { (c : ℕ) → c < length values.old
        → slice_index values.new c ≡ slice_index values.old c + (reach - slice_index lengths.now c) }
{
    for (c, value) in values.iter_mut().enumerate() {
        *value += reach.saturating_sub(lengths[c]);
    }
}

/// Lowers each slack to the amount by which its free place is farther than the exit.
fn tighten(search: &Search, slacks: &mut [u64])
    requires few { length slacks.old ≤ vec_len search.now.nears }
    ensures len { length slacks.new ≡ length slacks.old }
    ensures less { (f : ℕ) → f < length slacks.old → slice_index slacks.new f ≤ slice_index slacks.old f }
    ensures near { (f : ℕ) → f < length slacks.old → slice_index slacks.new f ≤ slice_index search.now.nears.items f - search.now.exit.length }
{
    for (f, slack) in slacks.iter_mut().enumerate() {
        *slack = (*slack).min(search.nears[f].saturating_sub(search.exit.length));
    }
}

/// Appends the exit as the last column.
fn add_column(matching: &mut Matching, search: &mut Search, place: Place) -> Result<(), AllocError>
    requires sizes { IsSized matching.old search.old }
    ensures same { OnOk result ((matching.new.jobs ≡ matching.old.jobs) × (matching.new.prices ≡ matching.old.prices)) }
    ensures columns { OnOk result (matching.new.columns.items ≡ matching.old.columns.items ++ place ∷ []) }
    ensures columns_len { OnOk result (vec_len matching.new.columns ≡ vec_len matching.old.columns + 1) }
    ensures duals { OnOk result (matching.new.duals.items ≡ matching.old.duals.items ++ 0 ∷ []) }
    ensures duals_len { OnOk result (vec_len matching.new.duals ≡ vec_len matching.old.duals + 1) }
    ensures froms { OnOk result (search.new.froms.items ≡ slice_set search.old.froms.items (vec_len matching.old.columns) search.old.exit.from) }
    ensures froms_len { OnOk result (vec_len search.new.froms ≡ vec_len search.old.froms) }
    ensures ranks { OnOk result (search.new.ranks.items ≡ slice_set search.old.ranks.items (vec_len matching.old.columns) search.old.settled) }
    ensures ranks_len { OnOk result (vec_len search.new.ranks ≡ vec_len search.old.ranks) }
    ensures exit { search.new.exit ≡ search.old.exit }
{
    let last = matching.columns.len();
    matching.columns.push(place)?;
    matching.duals.push(0)?;
    search.froms[last] = search.exit.from;
    search.ranks[last] = search.settled;
    Ok(())
}

/// Moves the jobs along the path that ends at the last column.
fn move_jobs(matching: &mut Matching, search: &Search, last: usize)
    requires jobs_len { vec_len matching.old.jobs ≡ last + 1 }
    requires prices_len { vec_len matching.old.prices ≡ last + 1 }
    requires froms_len { vec_len search.now.froms ≡ last + 1 }
    requires ranks_len { vec_len search.now.ranks ≡ last + 1 }
    requires inside { (c : ℕ) → c ≤ last → slice_index search.now.froms.items c ≤ last }
    requires falling { (c : ℕ) → c ≤ last → slice_index search.now.froms.items c ≢ last
        → slice_index search.now.ranks.items (slice_index search.now.froms.items c) < slice_index search.now.ranks.items c }
    ensures same { (matching.new.columns ≡ matching.old.columns) × (matching.new.duals ≡ matching.old.duals) }
    ensures jobs_len { vec_len matching.new.jobs ≡ last + 1 }
    ensures prices_len { vec_len matching.new.prices ≡ last + 1 }
    ensures permutation { IsPermutation matching.old.jobs.items matching.new.jobs.items }
    ensures moved { (c : ℕ) → c ≤ last
        → AreMoved matching.old.jobs.items matching.new.jobs.items matching.old.prices.items matching.new.prices.items search.now.froms.items search.now.ranks.items last c }
{
    shift(
        &mut matching.jobs,
        &mut matching.prices,
        &search.froms,
        &search.ranks,
        last,
    );
}

/// Moves the jobs along the path that ends at the last column. Each column of the path takes the job of the
/// column from which it was reached, and the first one takes the last column's job. In `froms`, the first
/// column of a path has the last column.
fn shift(jobs: &mut [usize], prices: &mut [u64], froms: &[usize], ranks: &[usize], last: usize)
    requires last_is { length jobs.old ≡ last + 1 }
    requires prices_len { length prices.old ≡ last + 1 }
    requires froms_len { length froms.now ≡ last + 1 }
    requires ranks_len { length ranks.now ≡ last + 1 }
    requires inside { (c : ℕ) → c ≤ last → slice_index froms.now c ≤ last }
    requires falling { (c : ℕ) → c ≤ last → slice_index froms.now c ≢ last
        → slice_index ranks.now (slice_index froms.now c) < slice_index ranks.now c }
    ensures jobs_len { length jobs.new ≡ last + 1 }
    ensures prices_len { length prices.new ≡ last + 1 }
    ensures permutation { IsPermutation jobs.old jobs.new }
    ensures moved { (c : ℕ) → c ≤ last
        → AreMoved jobs.old jobs.new prices.old prices.new froms.now ranks.now last c }
{
    let mut empty = last;
    let mut from = froms[empty];
    while from != last {
        jobs.swap(empty, from);
        prices.swap(empty, from);
        empty = from;
        from = froms[empty];
    }
}

/// Raises all prices and duals by the same amount, as far as the slacks of the free places allow. The next
/// job then finds its place after fewer steps.
pub(crate) fn lift(costs: &Costs, matching: &mut Matching, free: &[Place], slacks: &mut [u64])
    requires matched { IsFairlyMatched (cost_of costs.now) matching.old free.now }
    requires some { 0 < length free.now }
    requires one_each { length slacks.old ≡ length free.now }
    requires room { HasRoom (cost_of costs.now) matching.old.jobs.items matching.old.prices.items free.now slacks.old }
    ensures matched { IsFairlyMatched (cost_of costs.now) matching.new free.now }
    ensures same { (matching.new.jobs ≡ matching.old.jobs) × (matching.new.columns ≡ matching.old.columns) }
    ensures slacks { length slacks.new ≡ length slacks.old }
    ensures room { HasRoom (cost_of costs.now) matching.new.jobs.items matching.new.prices.items free.now slacks.new }
{
    let more = least(slacks);
    lift_by(matching, more);
    take_from_each(slacks, more);
}

/// The least of the slacks, at most [`UNABLE`].
fn least(slacks: &[u64]) -> u64
    ensures low { result ≤ UNABLE }
    ensures least { (f : ℕ) → f < length slacks.now → result ≤ slice_index slacks.now f }
{
    let mut least = UNABLE;
    for slack in slacks {
        least = least.min(*slack);
    }
    least
}

/// Subtracts the same amount from each value.
fn take_from_each(values: &mut [u64], less: u64)
    requires high { (f : ℕ) → f < length values.old → less ≤ slice_index values.old f }
    ensures len { length values.new ≡ length values.old }
    ensures taken { (f : ℕ) → f < length values.old → slice_index values.new f + less ≡ slice_index values.old f }
{
    for value in values.iter_mut() {
        *value -= less;
    }
}

/// Adds the same amount to all prices and duals.
fn lift_by(matching: &mut Matching, more: u64)
    requires prices_low { (q : ℕ) → q < vec_len matching.old.prices → slice_index matching.old.prices.items q ≤ UNABLE }
    requires duals_low { (c : ℕ) → c < vec_len matching.old.duals → slice_index matching.old.duals.items c ≤ UNABLE }
    requires more_low { more ≤ UNABLE }
    ensures same { (matching.new.jobs ≡ matching.old.jobs) × (matching.new.columns ≡ matching.old.columns) }
    ensures prices_len { vec_len matching.new.prices ≡ vec_len matching.old.prices }
    ensures duals_len { vec_len matching.new.duals ≡ vec_len matching.old.duals }
    ensures prices { (q : ℕ) → q < vec_len matching.old.prices
        → slice_index matching.new.prices.items q ≡ slice_index matching.old.prices.items q + more }
    ensures duals { (c : ℕ) → c < vec_len matching.old.duals
        → slice_index matching.new.duals.items c ≡ slice_index matching.old.duals.items c + more }
{
    add_to_each(&mut matching.prices, more);
    add_to_each(&mut matching.duals, more);
}

/// Adds the same amount to each value.
fn add_to_each(values: &mut [u64], more: u64)
    requires low { (c : ℕ) → c < length values.old → slice_index values.old c ≤ UNABLE }
    requires more_low { more ≤ UNABLE }
    ensures len { length values.new ≡ length values.old }
    ensures added { (c : ℕ) → c < length values.old → slice_index values.new c ≡ slice_index values.old c + more }
{
    for value in values.iter_mut() {
        *value += more;
    }
}

/// The amount by which all prices may rise before one exceeds the cost of a place.
pub(crate) fn slack(costs: &Costs, matching: &Matching, place: Place) -> u64
    requires jobs { vec_len matching.now.jobs ≡ vec_len matching.now.columns }
    requires prices { vec_len matching.now.prices ≡ vec_len matching.now.columns }
    requires fair { (q : ℕ) → q < vec_len matching.now.columns
        → slice_index matching.now.prices.items q ≤ cost_of costs.now (slice_index matching.now.jobs.items q) place }
    ensures every { (q : ℕ) → q < vec_len matching.now.columns
        → slice_index matching.now.prices.items q + result ≤ cost_of costs.now (slice_index matching.now.jobs.items q) place }
{
    let mut least = UNABLE;
    for q in 0..matching.columns.len() {
        let cost = cost(&costs.waits, costs.row(matching.jobs[q]), place);
        least = least.min(cost - matching.prices[q]);
    }
    least
}
