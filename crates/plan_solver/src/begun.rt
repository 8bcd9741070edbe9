//! The matching with which the search begins: jobs that stay at their hinted places, and jobs that are left.
ghost use Rattle.std.specs.Prelude.{◌≡◌, ◌<◌, ◌≤◌, [], ◌∷◌, ◌++◌, IfOk, IfSome, OnOk, length, vec_len};
ghost use Rattle.std.specs.List.{range_with_len};
ghost use Rattle.std.specs.List.Sorted.{IsPermutation};
ghost use Rattle.plan_solver.specs.Begun.{IsBegun, IsLaidOut};

use crate::costs::{Costs, Place, UNABLE, cost};
use crate::device_columns::{DeviceColumns, add_to_device, no_columns};
use crate::fit::fits;
use crate::free_places::{advance, last_places};
use crate::hint::Hint;
use crate::matching::Matching;
use crate::order::{hinted_first, longest_first};
use std::alloc::{AllocError, Global};

/// The number of rounds in which unfit jobs are given up before all are.
const ROUNDS: u64 = 4;

/// The matching between two jobs, and the jobs that have no column yet.
#[derive(Drop)]
pub(crate) struct Begun {
    pub(crate) matching: Matching,
    pub(crate) by_device: Vec<DeviceColumns>,
    pub(crate) free: Vec<Place>,
    pub(crate) slacks: Vec<u64>,
    pub(crate) left: Vec<usize>,
}

/// The place that a job can keep: the next place of a device, with a dual.
#[derive(Clone, Copy)]
struct Stay {
    device: usize,
    dual: u64,
}

/// The matching of the jobs that stay at their hinted places, with all others left. The prices are fair for
/// each hint: a job that doesn't fit is given up, and in the worst case all are.
pub(crate) fn begin_by(alloc: Global, costs: &Costs, hint: &Hint) -> Result<Begun, AllocError>
    ensures { IfOk result (λ b. IsBegun costs.now b) }
{
    let order = hinted_first(alloc, costs, hint)?;
    let mut most = vec![in alloc; u64::MAX; costs.waits.len()]?;
    for _ in 0..ROUNDS {
        let mut begun = laid_out(alloc, costs, hint, &most, &order)?;
        if !is_worth(&begun) {
            break;
        }
        if fits(costs, &mut begun, &mut most) {
            return Ok(begun);
        }
    }
    nothing_matched(alloc, costs, longest_first(alloc, costs)?)
}

/// Returns whether the jobs that are left are few enough that matching them among the others takes less time
/// than matching all jobs anew.
fn is_worth(begun: &Begun) -> bool {
    let columns = begun.matching.columns.len();
    let left = begun.left.len();
    left <= columns / 4 && left <= columns / 32 + 6
}

/// The empty matching, with these jobs left.
fn nothing_matched(alloc: Global, costs: &Costs, left: Vec<usize>) -> Result<Begun, AllocError>
    ensures laid_out { IfOk result (λ b. IsLaidOut costs.now b) }
    ensures begun { IfOk result (λ b. IsPermutation (range_with_len 0 (vec_len costs.now.rows)) left.items → IsBegun costs.now b) }
    ensures jobs { IfOk result (λ b. b.matching.jobs.items ≡ []) }
    ensures left { IfOk result (λ b. b.left ≡ left) }
{
    let free = last_places(alloc, costs.waits.len())?;
    let slacks = vec![in alloc; UNABLE; costs.waits.len()]?;
    let by_device = no_columns(alloc, costs.waits.len())?;
    let matching = Matching {
        columns: Vec::new(alloc),
        duals: Vec::new(alloc),
        jobs: Vec::new(alloc),
        prices: Vec::new(alloc),
    };
    Ok(Begun {
        matching,
        by_device,
        free,
        slacks,
        left,
    })
}

/// The jobs in this order, each at its hinted place if it can stay there, else left. Each device keeps at
/// most `most` places.
fn laid_out(
    alloc: Global,
    costs: &Costs,
    hint: &Hint,
    most: &[u64],
    order: &[usize],
) -> Result<Begun, AllocError>
    ensures laid_out { IfOk result (λ b. IsLaidOut costs.now b) }
    ensures jobs { IfOk result (λ b. IsPermutation order.now (b.matching.jobs.items ++ b.left.items)) }
{
    let mut begun = nothing_matched(alloc, costs, Vec::new(alloc))?;
    for place in 0..order.len() {
        match_or_leave(costs, hint, most, &mut begun, order[place])?;
    }
    Ok(begun)
}

/// Matches a job at its hinted place, if it can stay there, else leaves it.
fn match_or_leave(
    costs: &Costs,
    hint: &Hint,
    most: &[u64],
    begun: &mut Begun,
    job: usize,
) -> Result<(), AllocError>
    requires { IsLaidOut costs.now begun.old }
    ensures laid_out { OnOk result (IsLaidOut costs.now begun.new) }
    ensures jobs { OnOk result (IsPermutation ((begun.old.matching.jobs.items ++ begun.old.left.items) ++ job ∷ []) (begun.new.matching.jobs.items ++ begun.new.left.items)) }
{
    match stay_of(costs, hint, most, &begun.free, job) {
        Some(stay) => match_at(costs, begun, job, stay),
        None => leave(begun, job),
    }
}

/// The place that a job can keep: its hinted place, if that is the next one of its device and costs no more
/// than the hinted price.
fn stay_of(costs: &Costs, hint: &Hint, most: &[u64], free: &[Place], job: usize) -> Option<Stay>
    ensures { IfSome result (λ s. (s.device < length free.now) × (s.dual ≤ UNABLE)) }
{
    let guess = hint.guess(job)?;
    let device = guess.place.device;
    if device >= free.len() || device >= most.len() {
        return None;
    }
    let place = free[device];
    if place.after != guess.place.after || place.after >= most[device] {
        return None;
    }
    let cost = cost(&costs.waits, costs.row(job), place);
    if guess.price < cost || guess.price > UNABLE {
        return None;
    }
    let dual = guess.price - cost;
    Some(Stay { device, dual })
}

/// Leaves a job without a column.
fn leave(begun: &mut Begun, job: usize) -> Result<(), AllocError>
    ensures same { OnOk result (begun.new ≡ record begun.old { left = begun.new.left }) }
    ensures left { OnOk result (begun.new.left.items ≡ begun.old.left.items ++ job ∷ []) }
{
    begun.left.push(job)?;
    Ok(())
}

/// Matches a job to the next place of a device with a dual. The job's charge is the cost and the dual
/// together.
fn match_at(costs: &Costs, begun: &mut Begun, job: usize, stay: Stay) -> Result<(), AllocError>
    requires laid_out { IsLaidOut costs.now begun.old }
    requires device { stay.device < vec_len begun.old.free }
    requires dual { stay.dual ≤ UNABLE }
    ensures laid_out { OnOk result (IsLaidOut costs.now begun.new) }
    ensures jobs { OnOk result ((begun.new.matching.jobs.items ≡ begun.old.matching.jobs.items ++ job ∷ []) × (begun.new.left ≡ begun.old.left)) }
{
    let place = begun.free[stay.device];
    let price = cost(&costs.waits, costs.row(job), place) + stay.dual;
    let column = begun.matching.columns.len();
    add_to_device(&mut begun.by_device, stay.device, column)?;
    advance(&mut begun.free, stay.device);
    begun.matching.columns.push(place)?;
    begun.matching.duals.push(stay.dual)?;
    begun.matching.jobs.push(job)?;
    begun.matching.prices.push(price)?;
    Ok(())
}
