//! The search for the nearest free place: shortest ways from the new job, over columns whose jobs would move.
ghost use Rattle.std.specs.Prelude.{◌≡◌, ◌≢◌, ℕ, ◌+◌, ◌-◌, ◌<◌, ◌≤◌, ◌⊎◌, length, slice_index, slice_index_or, slice_set, vec_len, [], IfOk};
ghost use Rattle.plan_solver.specs.Costs.{cost_at, cost_of, nowhere};
ghost use Rattle.plan_solver.specs.DeviceColumns.{AreColumnsOf, AreByDevice};
ghost use Rattle.plan_solver.specs.Matching.{IsFair, HasNewJob};
ghost use Rattle.plan_solver.specs.Search.{IsNearestOf, IsReached, IsRelaxed, IsExitOf, IsSized, SearchedFrom, IsBlank, IsFinished, IsListed, IsNoted, KeepsNears, open_count};

use crate::costs::{Costs, Place, UNABLE, cost, on_device};
use crate::device_columns::DeviceColumns;
use crate::matching::Matching;
use std::alloc::{AllocError, Global};

pub(crate) const UNSETTLED: usize = usize::MAX;

/// A length above that of any column.
const FAR: u64 = 4 * UNABLE;

/// The nearest free place: its length, its number, and the column from which it is reached.
#[derive(Clone, Copy)]
pub(crate) struct Exit {
    pub(crate) length: u64,
    pub(crate) place: usize,
    pub(crate) from: usize,
}

/// A settled column: its number, its length, and its job's charge.
#[derive(Clone, Copy)]
struct Origin {
    column: usize,
    base: u64,
    price: u64,
}

/// The ways from a settled column: its length, its job's charge, and the charge from which on a place isn't
/// nearer than the exit.
#[derive(Clone, Copy)]
struct Ways {
    origin: usize,
    base: u64,
    price: u64,
    most: u64,
}

/// The state of the search: for each column its length, the column from which it was reached and the rank in
/// which it was settled; for each free place its length. The first `count` entries of `reached` are the
/// columns that were reached.
#[derive(Drop)]
pub(crate) struct Search {
    pub(crate) lengths: Vec<u64>,
    pub(crate) froms: Vec<usize>,
    pub(crate) ranks: Vec<usize>,
    pub(crate) nears: Vec<u64>,
    pub(crate) reached: Vec<usize>,
    pub(crate) count: usize,
    pub(crate) exit: Exit,
    pub(crate) settled: usize,
}

/// Creates a search from the new job for one of `places` places, before any way is taken.
fn blank(alloc: Global, new: usize, len: usize, places: usize) -> Result<Search, AllocError>
    requires { len ≡ new + 1 }
    ensures { IfOk result (λ x. IsBlank new places x) }
{
    let mut lengths = vec![in alloc; FAR; len]?;
    lengths[new] = 0;
    let froms = vec![in alloc; new; len]?;
    let mut ranks = vec![in alloc; UNSETTLED; len]?;
    ranks[new] = 0;
    let nears = vec![in alloc; FAR; places]?;
    let reached = vec![in alloc; new; len]?;
    let exit = Exit {
        length: FAR,
        place: 0,
        from: new,
    };
    Ok(Search {
        lengths,
        froms,
        ranks,
        nears,
        reached,
        count: 0,
        exit,
        settled: 1,
    })
}

/// Creates a search, and takes the ways of the new job.
fn begin(
    alloc: Global,
    costs: &Costs,
    by_device: &[DeviceColumns],
    matching: &Matching,
    free: &[Place],
) -> Result<Search, AllocError>
    requires new_job { HasNewJob matching.now }
    requires by_device { AreByDevice (vec_len costs.now.waits) matching.now.columns.items by_device.now }
    requires duals_low { (k : ℕ) → k < vec_len matching.now.columns → slice_index matching.now.duals.items k ≤ UNABLE }
    requires some { 0 < length free.now }
    ensures sizes { IfOk result (λ x. IsSized matching.now x) }
    ensures searched { IfOk result (λ x. SearchedFrom costs.now matching.now free.now x) }
    ensures counted { IfOk result (λ x. x.settled + open_count x.ranks.items ≤ vec_len x.ranks) }
    ensures nears { IfOk result (λ x. KeepsNears costs.now matching.now free.now x) }
    ensures listed { IfOk result (λ x. IsListed x) }
{
    let new = matching.columns.len();
    let mut search = blank(alloc, new, matching.jobs.len(), free.len())?;
    leave(costs, matching, free, &mut search, new);
    relax(costs, by_device, matching, &mut search, new);
    Ok(search)
}

/// Finds the shortest ways from the new job, as far as the nearest free place.
pub(crate) fn search_exit(
    alloc: Global,
    costs: &Costs,
    by_device: &[DeviceColumns],
    matching: &Matching,
    free: &[Place],
) -> Result<Search, AllocError>
    requires new_job { HasNewJob matching.now }
    requires by_device { AreByDevice (vec_len costs.now.waits) matching.now.columns.items by_device.now }
    requires fair { IsFair (cost_of costs.now) matching.now.jobs.items matching.now.prices.items matching.now.columns.items matching.now.duals.items }
    requires fair_free { IsFair (cost_of costs.now) matching.now.jobs.items matching.now.prices.items free.now [] }
    requires duals_low { (k : ℕ) → k < vec_len matching.now.columns → slice_index matching.now.duals.items k ≤ UNABLE }
    requires some { 0 < length free.now }
    ensures sizes { IfOk result (λ x. IsSized matching.now x) }
    ensures searched { IfOk result (λ x. SearchedFrom costs.now matching.now free.now x) }
    ensures finished { IfOk result (λ x. IsFinished matching.now x) }
    ensures nears { IfOk result (λ x. KeepsNears costs.now matching.now free.now x) }
{
    let mut search = begin(alloc, costs, by_device, matching, free)?;
    'settling: loop {
        match nearest(&search, matching.columns.len()) {
            Some(c) => settle(costs, by_device, matching, free, &mut search, c),
            None => return Ok(search),
        }
    }
}

/// The nearest unsettled column that is nearer than the exit, if there is one. It is among the columns that
/// were reached.
fn nearest(search: &Search, columns: usize) -> Option<usize>
    requires listed { IsListed search.now }
    requires lengths_in { vec_len search.now.lengths ≡ columns + 1 }
    requires ranks_in { vec_len search.now.ranks ≡ columns + 1 }
    requires near { search.now.exit.length ≤ FAR }
    ensures { IsNearestOf search.now.lengths.items search.now.ranks.items columns search.now.exit.length result }
{
    let mut nearest = None;
    let mut least = search.exit.length;
    for at in 0..search.count {
        let c = search.reached[at];
        let length = search.lengths[c];
        if length < least && search.ranks[c] == UNSETTLED {
            nearest = Some(c);
            least = length;
        }
    }
    nearest
}

/// Settles the nearest column `c`, and takes the ways of its job.
fn settle(
    costs: &Costs,
    by_device: &[DeviceColumns],
    matching: &Matching,
    free: &[Place],
    search: &mut Search,
    c: usize,
)
    requires sizes { IsSized matching.now search.old }
    requires by_device { AreByDevice (vec_len costs.now.waits) matching.now.columns.items by_device.now }
    requires fair { IsFair (cost_of costs.now) matching.now.jobs.items matching.now.prices.items matching.now.columns.items matching.now.duals.items }
    requires fair_free { IsFair (cost_of costs.now) matching.now.jobs.items matching.now.prices.items free.now [] }
    requires duals_low { (k : ℕ) → k < vec_len matching.now.columns → slice_index matching.now.duals.items k ≤ UNABLE }
    requires searched { SearchedFrom costs.now matching.now free.now search.old }
    requires nears { KeepsNears costs.now matching.now free.now search.old }
    requires listed { IsListed search.old }
    requires here { c < vec_len matching.now.columns }
    requires unsettled { slice_index search.old.ranks.items c ≡ UNSETTLED }
    requires least { (k : ℕ) → k < vec_len matching.now.columns → slice_index search.old.ranks.items k ≡ UNSETTLED
        → slice_index search.old.lengths.items c ≤ slice_index search.old.lengths.items k }
    requires nearer { slice_index search.old.lengths.items c < search.old.exit.length }
    requires room { search.old.settled < UNSETTLED }
    ensures sizes { IsSized matching.now search.new }
    ensures searched { SearchedFrom costs.now matching.now free.now search.new }
    ensures nears { KeepsNears costs.now matching.now free.now search.new }
    ensures listed { IsListed search.new }
    ensures ranks { search.new.ranks.items ≡ slice_set search.old.ranks.items c search.old.settled }
    ensures settled { search.new.settled ≡ search.old.settled + 1 }
{
    search.ranks[c] = search.settled;
    search.settled += 1;
    leave(costs, matching, free, search, c);
    relax(costs, by_device, matching, search, c);
}

/// Shortens the lengths of the unsettled columns that are nearer than the exit, by ways over the job at `q`.
fn relax(
    costs: &Costs,
    by_device: &[DeviceColumns],
    matching: &Matching,
    search: &mut Search,
    q: usize,
)
    requires sizes { IsSized matching.now search.old }
    requires listed { IsListed search.old }
    requires by_device { AreByDevice (vec_len costs.now.waits) matching.now.columns.items by_device.now }
    requires here { q ≤ vec_len matching.now.columns }
    requires near { slice_index search.old.lengths.items q ≤ UNABLE }
    requires reach { search.old.exit.length + slice_index matching.now.prices.items q ≤ slice_index search.old.lengths.items q + UNABLE }
    requires settled { slice_index search.old.ranks.items q ≢ UNSETTLED }
    requires duals_low { (c : ℕ) → c < vec_len matching.now.columns → slice_index matching.now.duals.items c ≤ UNABLE }
    requires fair { (c : ℕ) → c < vec_len matching.now.columns
        → slice_index matching.now.prices.items q ≤ cost_of costs.now (slice_index matching.now.jobs.items q) (slice_index_or matching.now.columns.items c nowhere) + slice_index matching.now.duals.items c }
    ensures sizes { IsSized matching.now search.new }
    ensures listed { IsListed search.new }
    ensures same { (search.new.ranks ≡ search.old.ranks) × (search.new.exit ≡ search.old.exit) × (search.new.settled ≡ search.old.settled) × (search.new.nears ≡ search.old.nears) }
    ensures relaxed { (c : ℕ) → c < vec_len matching.now.columns
        → IsRelaxed search.old.exit.length (slice_index search.old.ranks.items c) q
        (slice_index search.old.lengths.items q + (cost_of costs.now (slice_index matching.now.jobs.items q) (slice_index_or matching.now.columns.items c nowhere) + slice_index matching.now.duals.items c - slice_index matching.now.prices.items q))
        (slice_index search.old.lengths.items c) (slice_index search.new.lengths.items c) (slice_index search.old.froms.items c) (slice_index search.new.froms.items c) }
    ensures rest { slice_index search.new.lengths.items (vec_len matching.now.columns) ≡ slice_index search.old.lengths.items (vec_len matching.now.columns) }
{
    let row = costs.row(matching.jobs[q]);
    let price = matching.prices[q];
    let base = search.lengths[q];
    let most = (search.exit.length + price).saturating_sub(base);
    let ways = Ways {
        origin: q,
        base,
        price,
        most,
    };
    for device in 0..by_device.len() {
        let device_columns = by_device[device].columns();
        relax_device(
            &costs.waits,
            row,
            device,
            device_columns,
            matching,
            search,
            ways,
        );
    }
}

/// Shortens the lengths of one device's columns, as [`relax`] does, for a job with these times. Once the cost
/// of a place reaches the most that a place may be charged, so does the cost of each place before it.
fn relax_device(
    waits: &[u64],
    row: &[u64],
    device: usize,
    device_columns: &[usize],
    matching: &Matching,
    search: &mut Search,
    ways: Ways,
)
    requires sizes { IsSized matching.now search.old }
    requires listed { IsListed search.old }
    requires device_columns { AreColumnsOf device matching.now.columns.items device_columns.now }
    requires near { ways.base ≤ UNABLE }
    requires reach { search.old.exit.length + ways.price ≤ ways.base + UNABLE }
    requires most { ways.most ≡ search.old.exit.length + ways.price - ways.base }
    requires duals_low { (c : ℕ) → c < vec_len matching.now.columns → slice_index matching.now.duals.items c ≤ UNABLE }
    requires fair { (c : ℕ) → c < vec_len matching.now.columns
        → ways.price ≤ cost_at waits.now row.now (slice_index_or matching.now.columns.items c nowhere) + slice_index matching.now.duals.items c }
    ensures sizes { IsSized matching.now search.new }
    ensures listed { IsListed search.new }
    ensures same { (search.new.ranks ≡ search.old.ranks) × (search.new.exit ≡ search.old.exit) × (search.new.settled ≡ search.old.settled) × (search.new.nears ≡ search.old.nears) }
    ensures relaxed { (c : ℕ) → c < vec_len matching.now.columns → (slice_index_or matching.now.columns.items c nowhere).device ≡ device
        → IsRelaxed search.old.exit.length (slice_index search.old.ranks.items c) ways.origin
        (ways.base + (cost_at waits.now row.now (slice_index_or matching.now.columns.items c nowhere) + slice_index matching.now.duals.items c - ways.price))
        (slice_index search.old.lengths.items c) (slice_index search.new.lengths.items c) (slice_index search.old.froms.items c) (slice_index search.new.froms.items c) }
    ensures rest { slice_index search.new.lengths.items (vec_len matching.now.columns) ≡ slice_index search.old.lengths.items (vec_len matching.now.columns) }
    ensures others { (c : ℕ) → c < vec_len matching.now.columns → (slice_index_or matching.now.columns.items c nowhere).device ≢ device
        → (slice_index search.new.lengths.items c ≡ slice_index search.old.lengths.items c) × (slice_index search.new.froms.items c ≡ slice_index search.old.froms.items c) }
{
    let time = on_device(row, device);
    let mut left = ways.most.saturating_sub(on_device(waits, device));
    for after in 0..device_columns.len() {
        if time >= left {
            return;
        }
        left -= time;
        let c = device_columns[after];
        take_way(search, c, matching.duals[c], left, ways);
    }
}

/// Reaches the column `c`, with this dual, over a settled column, if that is nearer than the exit. `left` is
/// what is left of the most that a place may be charged.
#[inline]
fn take_way(search: &mut Search, c: usize, dual: u64, left: u64, ways: Ways)
    requires lengths_in { c + 1 < vec_len search.old.lengths }
    requires froms_in { c < vec_len search.old.froms }
    requires ranks_in { c < vec_len search.old.ranks }
    requires listed { IsListed search.old }
    requires left { left ≤ ways.most }
    requires most { ways.most ≡ search.old.exit.length + ways.price - ways.base }
    requires near { ways.base ≤ UNABLE }
    requires reach { search.old.exit.length + ways.price ≤ ways.base + UNABLE }
    requires dual_low { dual ≤ UNABLE }
    requires fair { ways.price ≤ ways.most - left + dual }
    ensures sizes { (vec_len search.new.lengths ≡ vec_len search.old.lengths) × (vec_len search.new.froms ≡ vec_len search.old.froms) }
    ensures same { (search.new.ranks ≡ search.old.ranks) × (search.new.exit ≡ search.old.exit) × (search.new.settled ≡ search.old.settled) × (search.new.nears ≡ search.old.nears) }
    ensures relaxed { IsRelaxed search.old.exit.length (slice_index search.old.ranks.items c) ways.origin (ways.base + (ways.most - left + dual - ways.price))
        (slice_index search.old.lengths.items c) (slice_index search.new.lengths.items c) (slice_index search.old.froms.items c) (slice_index search.new.froms.items c) }
    ensures others { (k : ℕ) → k ≢ c
        → (slice_index search.new.lengths.items k ≡ slice_index search.old.lengths.items k) × (slice_index search.new.froms.items k ≡ slice_index search.old.froms.items k) }
    ensures listed { IsListed search.new }
{
    if dual < left {
        let charge = ways.most - left;
        let length = ways.base + (charge + dual - ways.price);
        reach_column(search, c, length, ways.origin);
    }
}

/// Reaches the column `c` from `q` with a length, if `c` is unsettled and the length is shorter.
fn reach_column(search: &mut Search, c: usize, length: u64, q: usize)
    requires lengths_in { c + 1 < vec_len search.old.lengths }
    requires froms_in { c < vec_len search.old.froms }
    requires ranks_in { c < vec_len search.old.ranks }
    requires listed { IsListed search.old }
    requires near { length < FAR }
    ensures sizes { (vec_len search.new.lengths ≡ vec_len search.old.lengths) × (vec_len search.new.froms ≡ vec_len search.old.froms) }
    ensures same { (search.new.ranks ≡ search.old.ranks) × (search.new.exit ≡ search.old.exit) × (search.new.settled ≡ search.old.settled) × (search.new.nears ≡ search.old.nears) }
    ensures reached { IsReached (slice_index search.old.ranks.items c) q length
        (slice_index search.old.lengths.items c) (slice_index search.new.lengths.items c) (slice_index search.old.froms.items c) (slice_index search.new.froms.items c) }
    ensures others { (k : ℕ) → k ≢ c
        → (slice_index search.new.lengths.items k ≡ slice_index search.old.lengths.items k) × (slice_index search.new.froms.items k ≡ slice_index search.old.froms.items k) }
    ensures listed { IsListed search.new }
{
    if search.ranks[c] == UNSETTLED && length < search.lengths[c] {
        note_column(search, c);
        search.lengths[c] = length;
        search.froms[c] = q;
    }
}

/// Appends the column `c` to those that were reached, unless an earlier way reached it.
fn note_column(search: &mut Search, c: usize)
    requires lengths_in { c < vec_len search.old.lengths }
    requires listed { IsListed search.old }
    ensures same { search.new ≡ record search.old { reached = search.new.reached; count = search.new.count } }
    ensures len { vec_len search.new.reached ≡ vec_len search.old.reached }
    ensures noted { IsNoted (slice_index search.old.lengths.items c) c search.old.reached.items search.new.reached.items search.old.count search.new.count }
{
    if search.lengths[c] >= FAR {
        search.reached[search.count] = c;
        search.count += 1;
    }
}

/// Takes the ways of the job at `q` to the free places, and updates the exit if one of these ways is shorter.
fn leave(costs: &Costs, matching: &Matching, free: &[Place], search: &mut Search, q: usize)
    requires sizes { IsSized matching.now search.old }
    requires one_each { vec_len search.old.nears ≡ length free.now }
    requires here { q ≤ vec_len matching.now.columns }
    requires near { slice_index search.old.lengths.items q ≤ UNABLE }
    requires fair { (f : ℕ) → f < length free.now
        → slice_index matching.now.prices.items q ≤ cost_of costs.now (slice_index matching.now.jobs.items q) (slice_index_or free.now f nowhere) }
    ensures same { search.new ≡ record search.old { nears = search.new.nears; exit = search.new.exit } }
    ensures nearer { search.new.exit.length ≤ search.old.exit.length }
    ensures every { (f : ℕ) → f < length free.now
        → search.new.exit.length ≤ slice_index search.old.lengths.items q + (cost_of costs.now (slice_index matching.now.jobs.items q) (slice_index_or free.now f nowhere) - slice_index matching.now.prices.items q) }
    ensures edge { (search.new.exit ≡ search.old.exit)
        ⊎ IsExitOf (cost_of costs.now) (slice_index matching.now.jobs.items q) (slice_index matching.now.prices.items q) (slice_index search.old.lengths.items q) q free.now search.new.exit }
    ensures one_each { vec_len search.new.nears ≡ length free.now }
    ensures kept { (f : ℕ) → f < length free.now → slice_index search.new.nears.items f ≤ slice_index search.old.nears.items f }
    ensures taken { (f : ℕ) → f < length free.now
        → slice_index search.new.nears.items f ≤ slice_index search.old.lengths.items q + (cost_of costs.now (slice_index matching.now.jobs.items q) (slice_index_or free.now f nowhere) - slice_index matching.now.prices.items q) }
{
    let job = matching.jobs[q];
    let origin = Origin {
        column: q,
        base: search.lengths[q],
        price: matching.prices[q],
    };
    search.exit = nearest_free(costs, job, origin, free, &mut search.nears, search.exit);
}

/// The nearest free place so far, after the ways of a job are taken.
fn nearest_free(
    costs: &Costs,
    job: usize,
    origin: Origin,
    free: &[Place],
    nears: &mut [u64],
    exit: Exit,
) -> Exit
    requires one_each { length nears.old ≡ length free.now }
    requires near { origin.base ≤ UNABLE }
    requires fair { (f : ℕ) → f < length free.now → origin.price ≤ cost_of costs.now job (slice_index_or free.now f nowhere) }
    ensures nearer { result.length ≤ exit.length }
    ensures every { (f : ℕ) → f < length free.now
        → result.length ≤ origin.base + (cost_of costs.now job (slice_index_or free.now f nowhere) - origin.price) }
    ensures edge { (result ≡ exit) ⊎ IsExitOf (cost_of costs.now) job origin.price origin.base origin.column free.now result }
    ensures one_each { length nears.new ≡ length free.now }
    ensures kept { (f : ℕ) → f < length free.now → slice_index nears.new f ≤ slice_index nears.old f }
    ensures taken { (f : ℕ) → f < length free.now
        → slice_index nears.new f ≤ origin.base + (cost_of costs.now job (slice_index_or free.now f nowhere) - origin.price) }
{
    let row = costs.row(job);
    let mut best = exit;
    for (place, near) in nears.iter_mut().enumerate() {
        let length = origin.base + (cost(&costs.waits, row, free[place]) - origin.price);
        *near = (*near).min(length);
        if length < best.length {
            best = Exit {
                length,
                place,
                from: origin.column,
            };
        }
    }
    best
}
