//! The jobs that a request asks for.
ghost use Rattle.std.specs.Prelude.{◌≡◌};
ghost use Rattle.std.specs.Option.{option_copied};
ghost use Rattle.listings.specs.Listing.{is_finished_as, is_listed, is_owned};

use base_types::{PrinterId, Text};
use job_objects::Job;
use std::marker::Model;

/// The jobs that a request asks for. In clauses it is a record of the same fields.
#[derive(Drop)]
pub struct Wanted<'a> {
    /// The printer that the jobs were sent to.
    pub printer: PrinterId,
    /// True for the finished jobs, false for the others.
    pub finished: bool,
    /// The owner, if only jobs of an owner are requested.
    pub owner: Option<&'a Text>,
    /// The most jobs of the listing, if that is limited.
    pub limit: Option<u32>,
}

impl<'a> Model for Wanted<'a> {
    ghost use Rattle.std.specs.Option.{option_copied};
    ghost use Rattle.listings.specs.Listing.{WantedJobs};

    ghost Value = { WantedJobs };

    ghost view = { λ w. record {
      printer = w.printer;
      finished = w.finished;
      owner = option_copied w.owner;
      limit = w.limit;
    } };
}

impl<'a> Wanted<'a> {
    /// Returns whether the request asks for a job.
    pub(crate) fn lists(&self, job: &Job) -> bool
        ensures { result ≡ is_listed self.now job.now }
    {
        job.needs.printer == self.printer
            && is_finished_as(self.finished, job)
            && is_owned(self.owner, job)
    }
}

/// Returns whether a job is finished, or unfinished, as requested.
fn is_finished_as(finished: bool, job: &Job) -> bool
    ensures { result ≡ is_finished_as finished job.now }
{
    if finished {
        job.state.is_finished()
    } else {
        !job.state.is_finished()
    }
}

/// Returns whether a job has the requested owner, if one is requested.
fn is_owned(owner: Option<&Text>, job: &Job) -> bool
    ensures { result ≡ is_owned (option_copied owner.entry) job.now }
{
    match owner {
        Some(owner) => job.owner.as_bytes() == owner.as_bytes(),
        None => true,
    }
}
