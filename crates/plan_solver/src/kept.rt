//! The classes that a planner keeps from its last plans.

use crate::costs::Costs;
use crate::matching::Matching;
use base_types::JobId;
use std::alloc::Global;

/// The most classes that are kept.
const MOST: usize = 8;

/// A planned class: its jobs by rising id, their costs, and their matching.
#[derive(Drop)]
pub(crate) struct Kept {
    pub(crate) ids: Vec<JobId>,
    pub(crate) costs: Costs,
    pub(crate) matching: Matching,
}

/// The classes that were planned last.
#[derive(Drop)]
pub(crate) struct Memory {
    classes: Vec<Kept>,
}

impl Memory {
    /// Creates an empty memory.
    pub(crate) fn new(alloc: Global) -> Memory {
        Memory {
            classes: Vec::new(alloc),
        }
    }

    /// Removes and returns the class that has the most of these jobs, if one has any.
    pub(crate) fn take(&mut self, ids: &[JobId]) -> Option<Kept> {
        let mut best = None;
        let mut most = 0;
        for (at, kept) in self.classes.iter().enumerate() {
            let shared = shared(&kept.ids, ids);
            if shared > most {
                most = shared;
                best = Some(at);
            }
        }
        let at = best?;
        if at < self.classes.len() {
            Some(self.classes.remove(at))
        } else {
            None
        }
    }

    /// Keeps a class, in place of the oldest one if [`MOST`] are kept. If memory is refused, the class is
    /// dropped.
    pub(crate) fn keep(&mut self, kept: Kept) {
        if self.classes.len() >= MOST {
            self.classes.remove(0);
        }
        let _kept = self.classes.push(kept);
    }
}

/// The number of ids in both lists. The ids of each list rise.
fn shared(these: &[JobId], those: &[JobId]) -> usize {
    these
        .iter()
        .filter(|id| those.binary_search(*id).is_ok())
        .count()
}
