//! The hint: guesses of the places of a class's jobs. It has no contract: each guess is tested before it is
//! used.

use crate::costs::Place;
use std::alloc::Global;

/// A guess of a job's place and charge.
#[derive(Clone, Copy)]
pub(crate) struct Guess {
    pub(crate) place: Place,
    pub(crate) price: u64,
}

/// The guesses for the jobs of a class: entry `n` is that of the job with the number `n`.
#[derive(Drop)]
pub(crate) struct Hint {
    guesses: Vec<Option<Guess>>,
}

impl Hint {
    /// A hint of guesses.
    pub(crate) fn new(guesses: Vec<Option<Guess>>) -> Hint {
        Hint { guesses }
    }

    /// The empty hint.
    pub(crate) fn none(alloc: Global) -> Hint {
        Hint {
            guesses: Vec::new(alloc),
        }
    }

    /// The guess for a job, if there is one.
    pub(crate) fn guess(&self, job: usize) -> Option<Guess> {
        self.guesses.get(job).copied().flatten()
    }
}
