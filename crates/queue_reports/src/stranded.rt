//! The jobs that no device can print, by what they lack.
use crate::html::Html;
use crate::media::MediumName;
use crate::sheet::PageContext;
use base_types::{Cause, DeviceId, Finishings, JobId, PrinterId, Sides, Text};
use queue_views::{JobView, NeedsView, Prospect};
use std::alloc::AllocError;

/// The most jobs that a sentence names.
const NAMED: usize = 8;

/// Jobs of a printer that no device can print and that lack the same.
#[derive(Drop)]
pub(crate) struct StrandedGroup<'a> {
    printer: PrinterId,
    cause: Cause,
    needs: &'a NeedsView,
    helpers: &'a [DeviceId],
    jobs: Vec<JobId>,
}

/// Returns whether texts are the same.
fn are_same(one: &[Text], other: &[Text]) -> bool {
    one.len() == other.len()
        && one
            .iter()
            .zip(other.iter())
            .all(|(one, other)| one.is(other.as_bytes()))
}

/// Returns whether jobs that lack what a cause names lack the same.
fn lack_same(cause: Cause, one: &NeedsView, other: &NeedsView) -> bool {
    match cause {
        Cause::NoDevice | Cause::Sides => true,
        Cause::Format => are_same(&one.formats, &other.formats),
        Cause::Finishings => one.finishings == other.finishings,
        Cause::Media | Cause::Running => one.media.is(other.media.as_bytes()),
    }
}

impl<'a> StrandedGroup<'a> {
    /// Returns whether a job that no device can print is one of the group.
    fn takes(&self, job: &JobView, cause: Cause, helpers: &[DeviceId]) -> bool {
        self.printer == job.printer
            && self.cause == cause
            && self.helpers == helpers
            && lack_same(cause, self.needs, &job.needs)
    }
}

/// Adds a job that no device can print to its group.
fn add<'a>(
    sheet: &PageContext<'a>,
    groups: &mut Vec<StrandedGroup<'a>>,
    job: &'a JobView,
    cause: Cause,
    helpers: &'a [DeviceId],
) -> Result<(), AllocError> {
    for group in groups.iter_mut() {
        if group.takes(job, cause, helpers) {
            return Ok(group.jobs.push(job.id)?);
        }
    }
    let mut jobs = Vec::new(sheet.alloc);
    jobs.push(job.id)?;
    groups.push(StrandedGroup {
        printer: job.printer,
        cause,
        needs: &job.needs,
        helpers,
        jobs,
    })?;
    Ok(())
}

/// The groups of the jobs that no device can print. The only error is out of memory.
pub(crate) fn groups_of<'a>(sheet: &PageContext<'a>) -> Result<Vec<StrandedGroup<'a>>, AllocError> {
    let mut groups = Vec::new(sheet.alloc);
    let view = sheet.view;
    for job in &view.jobs {
        if let Prospect::Stranded { cause, helpers } = &job.prospect {
            add(sheet, &mut groups, job, *cause, helpers)?;
        }
    }
    Ok(groups)
}

/// Appends the problem of a group of jobs.
pub(crate) fn put_group(html: Html, sheet: &PageContext<'_>, group: &StrandedGroup<'_>) -> Html {
    let html = html.markup("<p class=\"problem\"><b>");
    let html = put_jobs(html, &group.jobs).markup("</b>");
    let html = put_printer(html, sheet, group.printer).markup(" can't be printed now: ");
    put_reason(html, sheet, group).markup("</p>\n")
}

/// Appends the numbers of jobs.
fn put_jobs(html: Html, jobs: &[JobId]) -> Html {
    let mut html = html.markup(if jobs.len() == 1 { "Job " } else { "Jobs " });
    for (place, job) in jobs.iter().take(NAMED).enumerate() {
        html = html
            .markup(if place > 0 { ", " } else { "" })
            .text(job.number());
    }
    let more = jobs.len().saturating_sub(NAMED);
    if more > 0 {
        return html.markup(" and ").text(more).markup(" more");
    }
    html
}

/// Appends the name of a job's printer, if there are several.
fn put_printer(html: Html, sheet: &PageContext<'_>, id: PrinterId) -> Html {
    match sheet.printer(id) {
        Some(printer) if sheet.has_several() => {
            html.markup(" of ").bytes(printer.name.as_bytes())
        }
        _ => html,
    }
}

/// Appends why no device can print the jobs, and what would help.
fn put_reason(html: Html, sheet: &PageContext<'_>, group: &StrandedGroup<'_>) -> Html {
    let needs = group.needs;
    match group.cause {
        Cause::NoDevice => {
            html.markup("the printer has no device. Give it one in the settings.")
        }
        Cause::Format => put_formats(html.markup("no device prints "), &needs.formats).markup(
            ". Send the document in another format.",
        ),
        Cause::Sides => html.markup(
            "no device that prints the document's format prints on both sides. Send it one-sided.",
        ),
        Cause::Finishings => put_finishings(html, needs),
        Cause::Media => put_medium(html, sheet, group),
        Cause::Running => put_stopped(html, sheet, group),
    }
}

/// Appends the formats of a job.
fn put_formats(html: Html, formats: &[Text]) -> Html {
    let mut html = html;
    for (place, format) in formats.iter().enumerate() {
        html = html
            .markup(if place > 0 { " and " } else { "" })
            .bytes(format.as_bytes());
    }
    html
}

/// The words for finishings.
fn words_of(finishings: Finishings) -> &'static str {
    match (finishings.staple, finishings.punch, finishings.bind) {
        (true, true, true) => "stapled, punched and bound",
        (true, true, false) => "stapled and punched",
        (true, false, true) => "stapled and bound",
        (false, true, true) => "punched and bound",
        (true, false, false) => "stapled",
        (false, true, false) => "punched",
        (false, false, true) => "bound",
        (false, false, false) => "finished",
    }
}

/// The words for sides, before finishings.
fn sides_of(sides: Sides) -> &'static str {
    match sides {
        Sides::One => "",
        Sides::LongEdge | Sides::ShortEdge => ", printed on both sides,",
    }
}

/// Appends that no device has the finishings of a job.
fn put_finishings(html: Html, needs: &NeedsView) -> Html {
    html.markup("it")
        .markup(sides_of(needs.sides))
        .markup(" is to be ")
        .markup(words_of(needs.finishings))
        .markup(", and no device that could print it does that. Send it without.")
}

/// Appends that no device has the media of a job loaded.
fn put_medium(html: Html, sheet: &PageContext<'_>, group: &StrandedGroup<'_>) -> Html {
    let name = group.needs.media.as_bytes();
    let html = html
        .markup("it needs <b")
        .attribute("title", quotes::Escaped(name))
        .markup(">")
        .text(MediumName(name))
        .markup("</b>, and no device that could print it has that loaded. ");
    if group.helpers.is_empty() {
        return html.markup(
            "No device of the printer can take it: send the job for another medium.",
        );
    }
    put_helpers(html.markup("Load it: "), sheet, group.helpers).markup(" can take it.")
}

/// Appends that the devices that could print a job don't run.
fn put_stopped(html: Html, sheet: &PageContext<'_>, group: &StrandedGroup<'_>) -> Html {
    let html = html.markup("no device that could print it runs. Start ");
    put_helpers(html, sheet, group.helpers).markup(".")
}

/// Appends the names of devices one of which helps.
fn put_helpers(html: Html, sheet: &PageContext<'_>, helpers: &[DeviceId]) -> Html {
    let mut html = html;
    for (place, device) in helpers.iter().enumerate() {
        html = html
            .markup(if place > 0 { " or " } else { "" })
            .markup("<b>")
            .bytes(sheet.device_name(*device))
            .markup("</b>");
    }
    html
}
