use crate::job_state::JobState;
use base_types::{JobId, Moment, Needs, Priority, Text};
use std::marker::Model;

/// The role of the user who canceled a job.
#[derive(Clone, Copy, PartialEq, Eq)]
pub enum Canceler {
    /// The job's owner.
    Owner,
    /// An operator who isn't the job's owner.
    Operator,
}

/// A job that the server took, without its documents. In clauses it is a record of the same fields.
#[derive(Drop)]
pub struct Job {
    pub id: JobId,
    pub owner: Text,
    pub name: Text,
    pub priority: Priority,
    pub needs: Needs,
    /// job-impressions (RFC 8011, section 5.3.17.2), if the request had it and it wasn't negative.
    pub impressions: Option<u32>,
    pub state: JobState,
    /// Whether documents are still to come.
    pub incoming: bool,
    /// Whether the job is held, by job-hold-until or Hold-Job.
    pub held: bool,
    /// Whether the last plan found no device for the job.
    pub stranded: bool,
    /// The number of documents taken, at most [`base_types::Limits::JOB_DOCUMENTS`]. The number stays when
    /// the documents are dropped.
    pub documents: usize,
    /// The number of octets of all documents, at most [`base_types::Limits::JOB_OCTETS`]. The number stays
    /// too.
    pub octets: usize,
    /// The role of the user who canceled the job, if it is canceled.
    pub canceled_by: Option<Canceler>,
    /// The moment at which the job was made.
    pub created: Moment,
    /// The moment at which a device began the job.
    pub started: Option<Moment>,
    /// The moment at which the job was finished.
    pub finished: Option<Moment>,
}

impl Model for Job {
    ghost use Rattle.job_objects.specs.Job.{JobRecord, KeepsLimits};

    ghost Value = { JobRecord };

    ghost view = { λ j. record {
      id = j.id;
      owner = j.owner;
      name = j.name;
      priority = j.priority;
      needs = j.needs;
      impressions = j.impressions;
      state = j.state;
      incoming = j.incoming;
      held = j.held;
      stranded = j.stranded;
      documents = j.documents;
      octets = j.octets;
      canceled_by = j.canceled_by;
      created = j.created;
      started = j.started;
      finished = j.finished;
    } };

    ghost invariant = { λ j. KeepsLimits j.documents j.octets };
}
