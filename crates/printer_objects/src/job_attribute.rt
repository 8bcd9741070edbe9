//! The attributes of a job, as a table (RFC 8011, section 5.3).
ghost use Rattle.std.specs.Prelude.{◌≡◌, IfOk};
ghost use Rattle.printer_objects.specs.JobAttribute.{job_attribute_name, job_attribute_group, job_table, is_wanted, wanted_of};

use crate::requested::is_requested;
use base_types::Text;
use std::alloc::{AllocError, Global};

/// An attribute of a job (RFC 8011, sections 5.3 and 5.2).
#[derive(Clone, Copy, PartialEq, Eq)]
pub enum JobAttribute {
    Uri,
    Id,
    PrinterUri,
    Name,
    OriginatingUserName,
    State,
    StateReasons,
    NumberOfDocuments,
    KOctets,
    Impressions,
    TimeAtCreation,
    TimeAtProcessing,
    TimeAtCompleted,
    PrinterUpTime,
    Copies,
    HoldUntil,
    Priority,
    Media,
    Sides,
    Finishings,
}

impl JobAttribute {
    /// The number of attributes.
    pub const COUNT: usize = 20;

    /// All attributes, in the table's order.
    pub fn all() -> [JobAttribute; JobAttribute::COUNT]
        ensures { result ≡ job_table }
    {
        [
            JobAttribute::Uri,
            JobAttribute::Id,
            JobAttribute::PrinterUri,
            JobAttribute::Name,
            JobAttribute::OriginatingUserName,
            JobAttribute::State,
            JobAttribute::StateReasons,
            JobAttribute::NumberOfDocuments,
            JobAttribute::KOctets,
            JobAttribute::Impressions,
            JobAttribute::TimeAtCreation,
            JobAttribute::TimeAtProcessing,
            JobAttribute::TimeAtCompleted,
            JobAttribute::PrinterUpTime,
            JobAttribute::Copies,
            JobAttribute::HoldUntil,
            JobAttribute::Priority,
            JobAttribute::Media,
            JobAttribute::Sides,
            JobAttribute::Finishings,
        ]
    }

    /// The name of the attribute.
    pub fn name(self) -> &'static str
        ensures { result.now ≡ job_attribute_name self }
    {
        match self {
            JobAttribute::Uri => "job-uri",
            JobAttribute::Id => "job-id",
            JobAttribute::PrinterUri => "job-printer-uri",
            JobAttribute::Name => "job-name",
            JobAttribute::OriginatingUserName => "job-originating-user-name",
            JobAttribute::State => "job-state",
            JobAttribute::StateReasons => "job-state-reasons",
            JobAttribute::NumberOfDocuments => "number-of-documents",
            JobAttribute::KOctets => "job-k-octets",
            JobAttribute::Impressions => "job-impressions",
            JobAttribute::TimeAtCreation => "time-at-creation",
            JobAttribute::TimeAtProcessing => "time-at-processing",
            JobAttribute::TimeAtCompleted => "time-at-completed",
            JobAttribute::PrinterUpTime => "job-printer-up-time",
            JobAttribute::Copies => "copies",
            JobAttribute::HoldUntil => "job-hold-until",
            JobAttribute::Priority => "job-priority",
            JobAttribute::Media => "media",
            JobAttribute::Sides => "sides",
            JobAttribute::Finishings => "finishings",
        }
    }

    /// The name of the attribute's group in requested-attributes.
    pub fn group(self) -> &'static str
        ensures { result.now ≡ job_attribute_group self }
    {
        match self {
            JobAttribute::Copies | JobAttribute::HoldUntil | JobAttribute::Priority =>
                "job-template",
            JobAttribute::Media | JobAttribute::Sides | JobAttribute::Finishings => "job-template",
            _ => "job-description",
        }
    }

    /// The requested attributes, in the table's order. The only error is out of memory.
    pub fn wanted(alloc: Global, requested: &[Text]) -> Result<Vec<JobAttribute>, AllocError>
        ensures { IfOk result (λ wanted. wanted.items ≡ wanted_of requested.now) }
    {
        let mut wanted = Vec::new(alloc);
        for which in JobAttribute::all() {
            if which.is_wanted(requested) {
                wanted.push(which)?;
            }
        }
        Ok(wanted)
    }

    /// Returns whether requested-attributes asks for the attribute.
    fn is_wanted(self, requested: &[Text]) -> bool
        ensures { result ≡ is_wanted requested.now self }
    {
        is_requested(self.name(), self.group(), requested)
    }
}
