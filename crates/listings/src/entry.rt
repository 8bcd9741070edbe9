//! The jobs of a listing, with their turns.
ghost use Rattle.std.specs.Prelude.{◌≡◌};

use crate::turn::Turn;
use job_objects::Job;
use std::marker::Model;

/// A job of a listing. In clauses it is a record of its turn and the job.
#[derive(Drop)]
pub struct Entry<'a> {
    turn: Turn,
    job: &'a Job,
}

impl<'a> Model for Entry<'a> {
    ghost use Rattle.listings.specs.Entry.{EntryRecord};

    ghost Value = { EntryRecord };

    ghost view = { λ e. record { turn = e.turn; job = e.job.now } };
}

impl<'a> Entry<'a> {
    /// An entry of a job and its turn.
    pub(crate) fn new(turn: Turn, job: &'a Job) -> Entry<'a>
        ensures { result ≡ record { turn = turn; job = job.now } }
    {
        Entry { turn, job }
    }

    /// The turn of the job.
    pub(crate) fn turn(&self) -> Turn
        ensures { result ≡ self.now.turn }
    {
        self.turn
    }

    /// The job.
    pub fn job(&self) -> &'a Job
        ensures { result.now ≡ self.now.job }
    {
        self.job
    }
}
