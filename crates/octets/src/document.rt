use crate::octets::Octets;
use base_types::Text;
use std::marker::Model;

/// A document of a job. In clauses it is a record of the same fields.
#[derive(Drop)]
pub struct Document {
    /// The format, as the settings spell it.
    pub format: Text,
    pub contents: Octets,
}

impl Model for Document {
    ghost use Rattle.octets.specs.Document.{DocumentRecord};

    ghost Value = { DocumentRecord };

    ghost view = { λ d. record { format = d.format; contents = d.contents } };
}
