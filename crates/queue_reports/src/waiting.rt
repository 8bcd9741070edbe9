//! The jobs that wait.
use crate::html::Html;
use crate::length::Length;
use crate::media::MediumName;
use crate::sheet::PageContext;
use crate::times::TimeDetail;
use base_types::{Cause, DeviceId, PrinterId};
use queue_views::{JobView, NeedsView, Prospect};
use std::alloc::AllocError;

/// The places of jobs whose time isn't known: those that are planned on late devices, and after them the others.
const LATE: u64 = u64::MAX - 1;

const UNPLANNED: u64 = u64::MAX;

/// The ms at which a job is ready, or its place after all such times.
fn ready_at(sheet: &PageContext<'_>, job: &JobView) -> u64 {
    match &job.prospect {
        Prospect::Planned { device, .. } if sheet.is_late(*device) => LATE,
        Prospect::Planned { end, .. } => *end,
        _ => UNPLANNED,
    }
}

/// Returns whether a job of a printer waits.
fn is_waiting(job: &JobView, printer: PrinterId) -> bool {
    let taken = matches!(&job.prospect, Prospect::Taken { .. });
    job.printer == printer && !taken
}

/// The jobs of a printer that wait, by the times at which they are ready.
fn waiting<'a>(
    sheet: &PageContext<'a>,
    printer: PrinterId,
) -> Result<Vec<&'a JobView>, AllocError> {
    let mut jobs = Vec::new(sheet.alloc);
    let view = sheet.view;
    for job in &view.jobs {
        if is_waiting(job, printer) {
            jobs.push(job)?;
        }
    }
    jobs.sort_by_key(|job| ready_at(sheet, job))?;
    Ok(jobs)
}

/// Appends the jobs of a printer that wait, if there are any.
pub(crate) fn put_waiting(html: Html, sheet: &PageContext<'_>, printer: PrinterId) -> Html {
    match waiting(sheet, printer) {
        Ok(jobs) if jobs.is_empty() => html,
        Ok(jobs) => put_table(html, sheet, &jobs),
        Err(_) => html.refused(),
    }
}

/// Appends the table of jobs.
fn put_table(html: Html, sheet: &PageContext<'_>, jobs: &[&JobView]) -> Html {
    let html = sheet
        .heading(html, "Waiting")
        .markup("<table>\n<thead><tr><th>Job</th>");
    let mut html = sheet.name_heads(html).markup(
        "<th class=\"n\">Pages</th><th>Device</th><th class=\"n\">Ready about</th></tr></thead>\n<tbody>\n",
    );
    for job in jobs {
        html = put_job(html, sheet, job);
    }
    html.markup("</tbody></table>\n")
}

/// Appends the row of a job.
fn put_job(html: Html, sheet: &PageContext<'_>, job: &JobView) -> Html {
    let stranded = matches!(&job.prospect, Prospect::Stranded { .. });
    let html = html
        .markup(if stranded {
            "<tr class=\"no\"><td>"
        } else {
            "<tr><td>"
        })
        .text(job.id.number())
        .markup("</td>");
    let html = sheet
        .name_cells(html, job.owner.as_bytes(), job.name.as_bytes())
        .markup("<td class=\"n\">")
        .text(job.impressions)
        .markup("</td><td>");
    put_prospect(html, sheet, job).markup("</td></tr>\n")
}

/// Appends what is to become of a job.
fn put_prospect(html: Html, sheet: &PageContext<'_>, job: &JobView) -> Html {
    match &job.prospect {
        Prospect::Planned { device, end, .. } => put_planned(html, sheet, *device, *end),
        Prospect::Stranded { cause, .. } => put_lack(html.markup("none"), *cause, &job.needs),
        Prospect::Held => put_words(html, "held"),
        Prospect::Incoming => put_words(html, "documents to come"),
        Prospect::Paused => put_words(html, "printer paused"),
        Prospect::Unplanned | Prospect::Taken { .. } => put_words(html, "not planned yet"),
    }
}

/// Appends the device of a job and the time at which it is ready. A plan counts a late device as free, so that nobody
/// knows when the job is ready there.
fn put_planned(html: Html, sheet: &PageContext<'_>, device: DeviceId, end: u64) -> Html {
    let left = end.saturating_sub(sheet.times.now());
    let name = sheet.device_name(device);
    let html = html.bytes(name).markup("</td><td class=\"n\">");
    if sheet.is_late(device) {
        return html
            .markup("not known <small>")
            .bytes(name)
            .markup(" is late</small>");
    }
    html.text(sheet.times.at(end, TimeDetail::Minutes))
        .markup(" <small>in ")
        .text(Length(left))
        .markup("</small>")
}

/// Appends words in place of a time.
fn put_words(html: Html, words: &'static str) -> Html {
    html.markup("</td><td class=\"n\">").markup(words)
}

/// Appends what no device has for a job.
fn put_lack(html: Html, cause: Cause, needs: &NeedsView) -> Html {
    let html = html.markup("</td><td class=\"n\">");
    match cause {
        Cause::NoDevice => html.markup("needs a device"),
        Cause::Format => html.markup("needs another format"),
        Cause::Sides => html.markup("needs both sides"),
        Cause::Finishings => html.markup("needs a finisher"),
        Cause::Media => html
            .markup("needs ")
            .text(MediumName(needs.media.as_bytes())),
        Cause::Running => html.markup("no device runs"),
    }
}
