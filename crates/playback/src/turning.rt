//! The turns of a server that plays recorded lines.
use base_types::Moment;
use dispatcher::Observer;
use journal::{JournaledEngine, Pausable};
use plan_solver::AugmentingPaths;
use recordings::ReplayWire;
use std::alloc::Global;

/// Has a server take the turn of a script at a moment. In a turn in which a restarted server lost its connections no
/// plan is made.
pub(crate) fn take_turn<N: Observer>(
    alloc: Global,
    engine: &mut JournaledEngine,
    script: &mut ReplayWire,
    observer: &mut N,
    moment: Moment,
    restarted: bool,
) {
    let mut paused = Pausable::paused(AugmentingPaths::new(alloc));
    if restarted {
        engine.swap_planner(&mut paused);
    }
    engine.turn(script, observer, moment);
    if restarted {
        engine.swap_planner(&mut paused);
    }
}
