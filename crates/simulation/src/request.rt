//! A job of a list as a Print-Job request (RFC 8011, section 4.2.1).

use crate::draft::ListedJob;
use crate::job::copy_of;
use base_types::{JobId, Moment, Priority, Text};
use events::{DocumentForm, JobCreation, PrintJob, Target};
use job_objects::{Job, JobState};
use job_template::RequestAttributes;
use octets::Octets;
use printer_objects::{JobAttribute, JobShown, groups_are_spelt, job_attributes};
use settings_file::PrinterSettings;
use std::alloc::{AllocError, Global};

/// The attributes of the job group.
const TEMPLATE: [JobAttribute; 5] = [
    JobAttribute::Copies,
    JobAttribute::Media,
    JobAttribute::Sides,
    JobAttribute::Priority,
    JobAttribute::Finishings,
];

/// A text without bytes.
fn no_text(alloc: Global) -> Text {
    Text::new(Vec::new(alloc))
}

/// A job with the priority and the needs of one of a list.
fn job_of(alloc: Global, listed: &ListedJob) -> Result<Job, AllocError> {
    Ok(Job {
        id: JobId::new(JobId::FIRST).unwrap(),
        owner: no_text(alloc),
        name: no_text(alloc),
        priority: Priority::new(listed.priority).unwrap_or(Priority::normal()),
        needs: copy_of(alloc, &listed.needs)?,
        impressions: Some(listed.needs.impressions),
        state: JobState::Pending,
        incoming: false,
        held: false,
        stranded: false,
        documents: 0,
        octets: 0,
        canceled_by: None,
        created: Moment::start(),
        started: None,
        finished: None,
    })
}

/// The job group of a request for a job: its attributes, as the server shows them. None of them has a URI.
fn template_of(
    alloc: Global,
    printer: &PrinterSettings,
    job: &Job,
) -> Result<RequestAttributes, AllocError> {
    let shown = JobShown {
        job,
        uri_base: &printer.name,
        printer_name: &printer.name,
        printer_paused: false,
        moment: Moment::start(),
    };
    groups_are_spelt();
    let group = job_attributes(alloc, &shown, &TEMPLATE)?;
    Ok(RequestAttributes::from_vec(group.attributes))
}

/// The job group of a request for a job of a list.
fn listed_template(
    alloc: Global,
    printer: &PrinterSettings,
    listed: &ListedJob,
) -> Result<RequestAttributes, AllocError> {
    let job = job_of(alloc, listed)?;
    template_of(alloc, printer, &job)
}

/// The format of a job's document, if it has one.
fn format_of(alloc: Global, listed: &ListedJob) -> Result<Option<Text>, AllocError> {
    match listed.needs.formats.first() {
        Some(format) => Ok(Some(format.copied(alloc)?)),
        None => Ok(None),
    }
}

/// The request for a job of a list at its printer, without octets of its document. An attribute that the
/// printer doesn't support refuses it. The only error is out of memory.
pub(crate) fn print_job(
    alloc: Global,
    printer: &PrinterSettings,
    listed: &ListedJob,
) -> Result<PrintJob, AllocError> {
    let template = listed_template(alloc, printer, listed)?;
    let name = printer.name.copied(alloc)?;
    let format = format_of(alloc, listed)?;
    let octets = Octets::copy_of(alloc, &[])?;
    Ok(PrintJob {
        job: JobCreation {
            target: Target::Named(name),
            user: no_text(alloc),
            name: no_text(alloc),
            impressions: Some(listed.needs.impressions),
            fidelity: true,
            template,
        },
        form: DocumentForm {
            compression: None,
            format,
        },
        octets,
    })
}
