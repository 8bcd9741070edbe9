//! The requester of a change of a job.
ghost use Rattle.std.specs.Prelude.{◌≡◌};
ghost use Rattle.std.specs.Str.{bytes_eq};
ghost use Rattle.spool.specs.Requester.{may_change, canceler_of};

use base_types::Text;
use job_objects::{Canceler, Job};
use std::marker::Model;

/// A requester: the name that the request claims, and whether it is an operator's. In clauses it is a record of
/// the same fields.
#[derive(Drop)]
pub struct Requester<'a> {
    pub name: &'a Text,
    pub is_operator: bool,
}

impl<'a> Model for Requester<'a> {
    ghost use Rattle.spool.specs.Requester.{RequesterRecord};

    ghost Value = { RequesterRecord };

    ghost view = { λ a. record { name = a.name.now; is_operator = a.is_operator } };
}

impl Requester<'_> {
    /// Returns whether the name is that of the job's owner.
    fn owns(&self, job: &Job) -> bool
        ensures { result ≡ bytes_eq self.now.name job.now.owner }
    {
        self.name.as_bytes() == job.owner.as_bytes()
    }

    /// Returns whether the requester may change the job: they own it, or are an operator.
    pub(crate) fn may_change(&self, job: &Job) -> bool
        ensures { result ≡ may_change self.now job.now }
    {
        self.is_operator || self.owns(job)
    }

    /// The role in which the requester cancels a job.
    pub(crate) fn canceler(&self, job: &Job) -> Canceler
        ensures { result ≡ canceler_of self.now.name job.now }
    {
        if self.owns(job) {
            Canceler::Owner
        } else {
            Canceler::Operator
        }
    }
}
