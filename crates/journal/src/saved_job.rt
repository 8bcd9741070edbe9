//! A job of a server that ended.
use base_types::{Finishings, JobId, Priority, Sides, Text};
use octets::Document;
use std::marker::Model;

/// A job of a server that ended: all that was sent with it. In clauses it is a record of the same fields.
#[derive(Drop)]
pub struct SavedJob {
    pub id: JobId,
    pub owner: Text,
    pub name: Text,
    /// The name of the job's printer.
    pub printer: Text,
    pub priority: Priority,
    pub copies: u32,
    pub sides: Sides,
    pub finishings: Finishings,
    pub media: Text,
    /// job-impressions (RFC 8011, section 5.3.17.2), if the request had it.
    pub impressions: Option<u32>,
    /// Whether the job is held.
    pub held: bool,
    /// Whether documents are still to come.
    pub incoming: bool,
    pub documents: Vec<Document>,
}

impl Model for SavedJob {
    ghost use Rattle.journal.specs.Saved.{SavedRecord};

    ghost Value = { SavedRecord };

    ghost view = { λ s. record {
      id = s.id;
      owner = s.owner;
      name = s.name;
      printer = s.printer;
      priority = s.priority;
      copies = s.copies;
      sides = s.sides;
      finishings = s.finishings;
      media = s.media;
      impressions = s.impressions;
      held = s.held;
      incoming = s.incoming;
      documents = s.documents.items;
    } };
}
