//! The needs of a job, and the causes that no device has them.
ghost use Rattle.std.specs.Prelude.{◌≡◌};
ghost use Rattle.base_types.specs.Sides.{sides_keyword, sides_of_keyword};

use crate::finishings::Finishings;
use crate::ids::{JobId, PrinterId};
use crate::text::Text;
use std::marker::Model;

/// The sides of the sheets that are printed (RFC 8011, section 5.2.8).
#[derive(Clone, Copy, PartialEq, Eq)]
pub enum Sides {
    /// One side of each sheet.
    One,
    /// Both sides, turned over the long edge.
    LongEdge,
    /// Both sides, turned over the short edge.
    ShortEdge,
}

impl Sides {
    /// The keyword of the sides.
    pub fn keyword(self) -> &'static str
        ensures { result.now ≡ sides_keyword self }
    {
        match self {
            Sides::One => "one-sided",
            Sides::LongEdge => "two-sided-long-edge",
            Sides::ShortEdge => "two-sided-short-edge",
        }
    }

    /// The sides of a keyword.
    pub fn of_keyword(word: &[u8]) -> Option<Sides>
        ensures { result ≡ sides_of_keyword word.now }
    {
        if word == Sides::One.keyword().as_bytes() {
            Some(Sides::One)
        } else if word == Sides::LongEdge.keyword().as_bytes() {
            Some(Sides::LongEdge)
        } else if word == Sides::ShortEdge.keyword().as_bytes() {
            Some(Sides::ShortEdge)
        } else {
            None
        }
    }
}

/// The cause that no device can print a job: the first of these tests that none of its printer's devices
/// passes.
#[derive(Clone, Copy, PartialEq, Eq)]
pub enum Cause {
    /// The printer has no device.
    NoDevice,
    /// No device has every document format of the job.
    Format,
    /// None of the remaining devices prints two-sided, and the job is two-sided.
    Sides,
    /// None of the remaining devices has every finishing of the job.
    Finishings,
    /// None of the remaining devices has the job's media loaded.
    Media,
    /// None of the remaining devices runs.
    Running,
}

/// A ready job that no device can print, with the cause.
#[derive(Clone, Copy, PartialEq, Eq)]
pub struct Stranded {
    pub job: JobId,
    pub cause: Cause,
}

/// The needs of a job, and its length. In clauses it is a record of the same fields.
#[derive(Drop)]
pub struct Needs {
    /// The printer that the job was sent to.
    pub printer: PrinterId,
    /// The format of each document.
    pub formats: Vec<Text>,
    pub sides: Sides,
    pub finishings: Finishings,
    pub media: Text,
    /// The estimated impressions of one copy: 1 to [`Limits::IMPRESSIONS`].
    pub impressions: u32,
    /// The number of copies: 1 to [`Limits::COPIES`].
    pub copies: u32,
}

impl Model for Needs {
    ghost use Rattle.base_types.specs.Needs.{JobNeeds};
    ghost use Rattle.base_types.specs.Ranges.{IsImpressions, IsCopies};

    ghost Value = { JobNeeds };

    ghost view = { λ n. record {
      printer = n.printer;
      formats = n.formats.items;
      sides = n.sides;
      finishings = n.finishings;
      media = n.media;
      impressions = n.impressions;
      copies = n.copies;
    } };

    ghost invariant = { λ n. IsImpressions n.impressions × IsCopies n.copies };
}
