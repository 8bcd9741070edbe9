//! The attributes of a job, with their values.
ghost use Rattle.std.specs.Prelude.{◌≡◌, IfOk, None, Some};
ghost use Rattle.ipp_codec.specs.Tag as tags;
ghost use Rattle.printer_objects.specs.Attribute.{alone, text};
ghost use Rattle.printer_objects.specs.JobShown.{job_uri, printer_uri, k_octets, impressions_shown, job_shown, job_attributes};

use crate::attribute::{enumerated, keyword, number, reasons, text, time};
use crate::finishing::job_finishings;
use crate::job_attribute::JobAttribute;
use base_types::{Hold, JobId, Moment, Text};
use ipp_codec::{Attribute, Group, GroupTag, ValueTag};
use job_objects::Job;
use std::alloc::{AllocError, Global};
use std::marker::Model;

/// The number of octets in a k-octet.
pub(crate) const OCTETS_PER_K: usize = 1_024;

/// The data of a job's attributes. In clauses it is a record of the referents of these fields.
#[derive(Drop)]
pub struct JobShown<'a> {
    pub job: &'a Job,
    /// The beginning of the URIs of printers and jobs.
    pub uri_base: &'a Text,
    /// The name of the printer that the job was sent to.
    pub printer_name: &'a Text,
    /// Whether that printer is paused.
    pub printer_paused: bool,
    /// The moment of the request.
    pub moment: Moment,
}

impl<'a> Model for JobShown<'a> {
    ghost use Rattle.printer_objects.specs.JobShown.{ShownJob};

    ghost Value = { ShownJob };

    ghost view = { λ s. record {
      job = s.job.now;
      uri_base = s.uri_base.now;
      printer_name = s.printer_name.now;
      printer_paused = s.printer_paused;
      moment = s.moment;
    } };
}

/// The job group of a response, with these attributes of a job. The only error is out of memory.
pub fn job_attributes(
    alloc: Global,
    shown: &JobShown<'_>,
    attributes: &[JobAttribute],
) -> Result<Group, AllocError>
    ensures { IfOk result (λ group. group ≡ job_attributes shown.now attributes.now) }
{
    let mut group = Group::with_capacity(alloc, GroupTag::JOB, attributes.len())?;
    for which in attributes {
        group.push(which.shown(alloc, shown)?)?;
    }
    Ok(group)
}

impl JobAttribute {
    /// The attribute of a job, with its values.
    fn shown(self, alloc: Global, shown: &JobShown<'_>) -> Result<Attribute, AllocError>
        ensures { IfOk result (λ attribute. attribute ≡ job_shown shown.now self) }
    {
        let name = self.name();
        let job = shown.job;
        match self {
            JobAttribute::Uri => uri_of_job(alloc, name, shown.uri_base, job.id),
            JobAttribute::Id => Ok(number(alloc, name, u64::from(job.id.number()))),
            JobAttribute::PrinterUri => {
                uri_of_printer(alloc, name, shown.uri_base, shown.printer_name)
            }
            JobAttribute::Name => text(alloc, name, ValueTag::NAME, job.name.as_bytes()),
            JobAttribute::OriginatingUserName => {
                text(alloc, name, ValueTag::NAME, job.owner.as_bytes())
            }
            JobAttribute::State => Ok(enumerated(alloc, name, job.state.code())),
            JobAttribute::StateReasons => {
                reasons(alloc, name, job_objects::reasons(job, shown.printer_paused))
            }
            JobAttribute::NumberOfDocuments => Ok(number(alloc, name, job.documents as u64)),
            JobAttribute::KOctets => Ok(number(alloc, name, k_octets(job.octets))),
            JobAttribute::Impressions => Ok(number(alloc, name, impressions(job))),
            JobAttribute::TimeAtCreation => Ok(time(alloc, name, Some(job.created))),
            JobAttribute::TimeAtProcessing => Ok(time(alloc, name, job.started)),
            JobAttribute::TimeAtCompleted => Ok(time(alloc, name, job.finished)),
            JobAttribute::PrinterUpTime => Ok(time(alloc, name, Some(shown.moment))),
            JobAttribute::Copies => Ok(number(alloc, name, u64::from(job.needs.copies))),
            JobAttribute::HoldUntil => {
                let hold = Hold::held_where(job.held);
                Ok(keyword(alloc, name, hold.keyword()))
            }
            JobAttribute::Priority => Ok(number(alloc, name, u64::from(job.priority.level()))),
            JobAttribute::Media => {
                text(alloc, name, ValueTag::KEYWORD, job.needs.media.as_bytes())
            }
            JobAttribute::Sides => {
                let sides = job.needs.sides;
                Ok(keyword(alloc, name, sides.keyword()))
            }
            JobAttribute::Finishings => job_finishings(alloc, name, job.needs.finishings),
        }
    }
}

/// An attribute of the URI of a job.
pub(crate) fn uri_of_job(
    alloc: Global,
    name: &'static str,
    uri_base: &Text,
    id: JobId,
) -> Result<Attribute, AllocError>
    ensures { IfOk result (λ a. a ≡ alone name.now (text tags.uri (job_uri uri_base.now id))) }
{
    let uri = job_uri(alloc, uri_base, id)?;
    text(alloc, name, ValueTag::URI, &uri)
}

/// An attribute of the URI of a printer.
pub(crate) fn uri_of_printer(
    alloc: Global,
    name: &'static str,
    uri_base: &Text,
    printer_name: &Text,
) -> Result<Attribute, AllocError>
    ensures { IfOk result (λ a. a ≡ alone name.now (text tags.uri (printer_uri uri_base.now printer_name.now))) }
{
    let uri = printer_uri(alloc, uri_base, printer_name)?;
    text(alloc, name, ValueTag::URI, &uri)
}

/// The URI of a job: the base, `/jobs/` and the id.
pub fn job_uri(alloc: Global, uri_base: &Text, id: JobId) -> Result<Vec<u8>, AllocError>
    ensures { IfOk result (λ uri. uri.items ≡ job_uri uri_base.now id) }
{
    let number = id.number();
    let path = format!(in alloc; "/jobs/{number}")?;
    let mut uri = Vec::from_slice(alloc, uri_base.as_bytes())?;
    uri.extend_from_slice(path.as_bytes())?;
    Ok(uri)
}

/// The URI of a printer: the base, `/printers/` and the name.
pub fn printer_uri(alloc: Global, uri_base: &Text, name: &Text) -> Result<Vec<u8>, AllocError>
    ensures { IfOk result (λ uri. uri.items ≡ printer_uri uri_base.now name.now) }
{
    let mut uri = Vec::from_slice(alloc, uri_base.as_bytes())?;
    uri.extend_from_slice(b"/printers/")?;
    uri.extend_from_slice(name.as_bytes())?;
    Ok(uri)
}

/// The octets of a job in k-octets, rounded up.
fn k_octets(octets: usize) -> u64
    ensures { result ≡ k_octets octets }
{
    octets.div_ceil(OCTETS_PER_K) as u64
}

/// The impressions of a job, as given, else as estimated.
fn impressions(job: &Job) -> u64
    ensures { result ≡ impressions_shown job.now }
{
    match job.impressions {
        Some(given) => u64::from(given),
        None => u64::from(job.needs.impressions),
    }
}
