//! The outcomes of a day.

use crate::day::Day;
use crate::draft::ListedJob;
use crate::floor::{Watch, play};
use crate::planned::Planned;
use crate::policy::Policy;
use crate::queue::Queue;
use dispatcher::Core;
use drawing::Print;
use plan_solver::AugmentingPaths;
use std::alloc::{AllocError, Global};

/// The name of the day that the server plans.
const PLANNED: &str = "planned";

/// The outcome of a day: the name of its play, and the jobs that were printed.
#[derive(Drop)]
pub(crate) struct Outcome {
    pub(crate) name: &'static str,
    /// The prints, in the order in which the jobs began.
    pub(crate) prints: Vec<Print>,
}

/// Plays a day with the real core. The only error is out of memory.
fn play_planned<W: Watch>(
    alloc: Global,
    core: &mut Core<AugmentingPaths>,
    listed: &[ListedJob],
    day: &Day,
    watch: &mut W,
) -> Result<Outcome, AllocError> {
    let devices = core.settings().devices.len();
    let mut room = Planned::new(alloc, core, listed);
    Ok(Outcome {
        name: PLANNED,
        prints: play(alloc, day, devices, &mut room, PLANNED, watch)?,
    })
}

/// Plays a day by a policy, with this many printers and devices. The only error is out of memory.
fn play_policy<W: Watch>(
    alloc: Global,
    policy: Policy,
    day: &Day,
    printers: usize,
    devices: usize,
    watch: &mut W,
) -> Result<Outcome, AllocError> {
    let mut queue = Queue::new(alloc, policy, &day.jobs, printers, devices)?;
    let name = policy.name();
    Ok(Outcome {
        name,
        prints: play(alloc, day, devices, &mut queue, name, watch)?,
    })
}

/// Plays a day with the real core, and then once for each of some policies. The only error is out of memory.
pub(crate) fn play_all<W: Watch>(
    alloc: Global,
    core: &mut Core<AugmentingPaths>,
    listed: &[ListedJob],
    day: &Day,
    policies: &[Policy],
    watch: &mut W,
) -> Result<Vec<Outcome>, AllocError> {
    let printers = core.settings().printers.len();
    let devices = core.settings().devices.len();
    let mut outcomes = Vec::new(alloc);
    outcomes.push(play_planned(alloc, core, listed, day, watch)?)?;
    for policy in policies {
        outcomes.push(play_policy(alloc, *policy, day, printers, devices, watch)?)?;
    }
    Ok(outcomes)
}
