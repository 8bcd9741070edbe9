//! A submitted job, before it has an id.
ghost use Rattle.std.specs.Prelude.{◌≡◌, ◌≤◌, ◌<◌, IfOk, IfSome, IfNone, length, map};
ghost use Rattle.octets.specs.Document.{octets_of};
ghost use Rattle.spool.specs.Submission.{spooled_of};

use crate::spooled::SpooledJob;
use base_types::{Finishings, JobId, Limits, Moment, Needs, PrinterId, Priority, Sides, Text};
use job_objects::{Job, JobState, estimated_impressions};
use octets::Document;
use std::alloc::{AllocError, Global};
use std::marker::Model;

/// A job as it is submitted. In clauses it is a record of the same fields.
#[derive(Drop)]
pub struct NewJob {
    pub created: Moment,
    pub printer: PrinterId,
    pub owner: Text,
    pub name: Text,
    pub priority: Priority,
    pub sides: Sides,
    pub finishings: Finishings,
    pub media: Text,
    /// 1 to [`base_types::Limits::COPIES`].
    pub copies: u32,
    /// Whether the job's job-hold-until is indefinite.
    pub held: bool,
    /// job-impressions, if the request has it and it isn't negative.
    pub impressions: Option<u32>,
    pub documents: Vec<Document>,
}

impl Model for NewJob {
    ghost use Rattle.spool.specs.Submission.{Submission};
    ghost use Rattle.base_types.specs.Ranges.{IsCopies};

    ghost Value = { Submission };

    ghost view = { λ n. record {
      created = n.created;
      printer = n.printer;
      owner = n.owner;
      name = n.name;
      priority = n.priority;
      sides = n.sides;
      finishings = n.finishings;
      media = n.media;
      copies = n.copies;
      held = n.held;
      impressions = n.impressions;
      documents = n.documents.items;
    } };

    ghost invariant = { λ n. IsCopies n.copies };
}

/// The number of octets of all documents together, if it is at most [`Limits::JOB_OCTETS`].
pub(crate) fn octets_within(documents: &[Document]) -> Option<usize>
    ensures within { IfSome result (λ octets. (octets ≡ octets_of documents.now) × (octets ≤ Limits.JOB_OCTETS)) }
    ensures beyond { IfNone result (Limits.JOB_OCTETS < octets_of documents.now) }
{
    let mut octets = 0;
    for document in documents {
        let more = document.contents.len();
        if more > Limits::JOB_OCTETS - octets {
            return None;
        }
        octets += more;
    }
    Some(octets)
}

/// The format of each document. The only error is out of memory.
pub(crate) fn formats_of(alloc: Global, documents: &[Document]) -> Result<Vec<Text>, AllocError>
    ensures { IfOk result (λ formats. formats.items ≡ map (λ d. d.format) documents.now) }
{
    let mut formats = Vec::with_capacity(alloc, documents.len())?;
    for document in documents {
        formats.push(document.format.copied(alloc)?)?;
    }
    Ok(formats)
}

/// The job of a submission. `incoming` indicates whether its documents are still to come.
pub(crate) fn taken(new: NewJob, id: JobId, formats: Vec<Text>, incoming: bool) -> SpooledJob
    requires formats { formats.items ≡ map (λ d. d.format) new.documents }
    requires documents { length new.documents ≤ Limits.JOB_DOCUMENTS }
    requires octets { octets_of new.documents ≤ Limits.JOB_OCTETS }
    ensures { result ≡ spooled_of new id incoming }
{
    let octets = octets_within(&new.documents).unwrap_or(0);
    let needs = Needs {
        printer: new.printer,
        formats,
        sides: new.sides,
        finishings: new.finishings,
        media: new.media,
        impressions: estimated_impressions(new.impressions, octets),
        copies: new.copies,
    };
    let job = Job {
        id,
        owner: new.owner,
        name: new.name,
        priority: new.priority,
        needs,
        impressions: new.impressions,
        state: JobState::waiting(incoming, new.held),
        incoming,
        held: new.held,
        stranded: false,
        documents: new.documents.len(),
        octets,
        canceled_by: None,
        created: new.created,
        started: None,
        finished: None,
    };
    SpooledJob {
        job,
        documents: new.documents,
        arrived: new.created,
        on_device: false,
    }
}
