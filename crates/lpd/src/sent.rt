use base_types::Text;
use octets::Document;
use std::marker::Model;

/// A job of files that an LPD client has sent whole. In clauses it is a record of the same fields.
#[derive(Drop)]
pub struct SentJob {
    /// The name of the printer.
    pub queue: Text,
    pub owner: Text,
    pub name: Text,
    /// The documents, one for each print line of the control file, in order.
    pub documents: Vec<Document>,
}

impl Model for SentJob {
    ghost use Rattle.lpd.specs.Session.{SentRecord};

    ghost Value = { SentRecord };

    ghost view = { λ j. record { queue = j.queue; owner = j.owner; name = j.name; documents = j.documents.items } };
}
