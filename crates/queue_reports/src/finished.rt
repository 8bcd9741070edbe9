//! The jobs that finished.
use crate::html::Html;
use crate::length::Length;
use crate::sheet::PageContext;
use crate::times::TimeDetail;
use base_types::PrinterId;
use job_objects::JobState;
use queue_views::FinishedJob;

/// Appends the jobs of a printer that finished last, if there are any.
pub(crate) fn put_finished(html: Html, sheet: &PageContext<'_>, printer: PrinterId) -> Html {
    let jobs = &sheet.view.finished;
    if !jobs.iter().any(|job| job.printer == printer) {
        return html;
    }
    let html = sheet
        .heading(html, "Finished")
        .markup("<table>\n<thead><tr><th>Job</th>");
    let mut html = sheet.name_heads(html).markup(
        "<th class=\"n\">Pages</th><th>Device</th><th class=\"n\">Ended</th></tr></thead>\n<tbody>\n",
    );
    for job in jobs {
        if job.printer == printer {
            html = put_job(html, sheet, job);
        }
    }
    html.markup("</tbody></table>\n")
}

/// Appends the row of a job.
fn put_job(html: Html, sheet: &PageContext<'_>, job: &FinishedJob) -> Html {
    let html = html
        .markup("<tr><td>")
        .text(job.id.number())
        .markup("</td>");
    let html = sheet
        .name_cells(html, job.owner.as_bytes(), job.name.as_bytes())
        .markup("<td class=\"n\">")
        .text(job.impressions)
        .markup("</td><td>");
    let html = match job.device {
        Some(device) => html.bytes(sheet.device_name(device)),
        None => html.markup("none"),
    };
    let html = html
        .markup("</td><td class=\"n\">")
        .text(sheet.times.at(job.ended.millis(), TimeDetail::Minutes))
        .markup(" <small>");
    put_ending(html, sheet, job).markup("</small></td></tr>\n")
}

/// Appends how a job ended: how long it took, or that it wasn't printed.
fn put_ending(html: Html, sheet: &PageContext<'_>, job: &FinishedJob) -> Html {
    match job.state {
        JobState::Canceled => html.markup("canceled"),
        JobState::Aborted => html.markup("aborted"),
        JobState::Completed
        | JobState::Pending
        | JobState::PendingHeld
        | JobState::Processing
        | JobState::Stopped => {
            let clock = &sheet.view.clock;
            let time = clock.between(job.came.millis(), job.ended.millis());
            html.markup("after ").text(Length(time))
        }
    }
}
