//! What is wrong, and what to do about it.
use crate::html::Html;
use crate::length::Length;
use crate::sheet::PageContext;
use crate::stranded::{groups_of, put_group};
use crate::times::TimeDetail;
use base_types::{DeviceId, Moment};
use queue_views::{DeviceState, DeviceView, PrinterView};

/// The ms of a second.
const SECOND: u64 = 1_000;

/// Appends the problems of the devices, of the printers and of the jobs.
pub(crate) fn put_problems(html: Html, sheet: &PageContext<'_>) -> Html {
    let mut html = html;
    for (place, device) in sheet.view.devices.iter().enumerate() {
        if sheet.is_used(DeviceId::new(place)) {
            html = put_device(html, sheet, device);
        }
    }
    for printer in &sheet.view.printers {
        html = put_pause(html, printer);
    }
    put_stranded(html, sheet)
}

/// Appends the problems of the jobs that no device can print.
fn put_stranded(html: Html, sheet: &PageContext<'_>) -> Html {
    let Ok(groups) = groups_of(sheet) else {
        return html.refused();
    };
    let mut html = html;
    for group in &groups {
        html = put_group(html, sheet, group);
    }
    html
}

/// Appends that a printer is paused.
fn put_pause(html: Html, printer: &PrinterView) -> Html {
    if !printer.paused {
        return html;
    }
    html.markup("<p class=\"problem\"><b>")
        .bytes(printer.name.as_bytes())
        .markup(
            "</b> is paused: it takes jobs and begins none. Resume it (<code>cupsenable</code>, or Resume-Printer) to go on.</p>\n",
        )
}

/// Appends the problem of a device, if it has one.
fn put_device(html: Html, sheet: &PageContext<'_>, device: &DeviceView) -> Html {
    if matches!(device.state, DeviceState::Ready | DeviceState::Printing) {
        return html;
    }
    let html = html
        .markup("<p class=\"problem\"><b>")
        .bytes(device.name.as_bytes())
        .markup("</b> ");
    let html = match device.state {
        DeviceState::Away => put_away(html, sheet, device.since),
        DeviceState::Stopped => put_stopped(html, sheet, device),
        DeviceState::Late { seconds } => put_late(html, device, seconds),
        DeviceState::Ready | DeviceState::Printing => html,
    };
    html.markup("</p>\n")
}

/// Appends that a device is away.
fn put_away(html: Html, sheet: &PageContext<'_>, since: Option<Moment>) -> Html {
    let html = match since {
        Some(since) => html
            .markup("has not been connected since ")
            .text(sheet.times.at(since.millis(), TimeDetail::Minutes)),
        None => html.markup("has not connected yet"),
    };
    html.markup(". Switch it on, or start its adapter.")
}

/// Appends that a device is stopped.
fn put_stopped(html: Html, sheet: &PageContext<'_>, device: &DeviceView) -> Html {
    let html = match device.since {
        Some(since) => html
            .markup("has been stopped for ")
            .text(Length(sheet.times.now().saturating_sub(since.millis()))),
        None => html.markup("is stopped"),
    };
    match device.taken {
        Some(taken) => html.markup(" in job ").text(taken.job.number()).markup(
            ". Look at it: it may be out of paper or jammed. The job goes on when it does.",
        ),
        None => html.markup(". Look at it: it may be out of paper or jammed."),
    }
}

/// Appends that a device is late.
fn put_late(html: Html, device: &DeviceView, seconds: u64) -> Html {
    let html = match device.taken {
        Some(taken) => html.markup("is late with job ").text(taken.job.number()),
        None => html.markup("is late with its job"),
    };
    html.markup(", which should have ended ")
        .text(Length(seconds.saturating_mul(SECOND)))
        .markup(
            " ago. Look at it: it may be out of paper or jammed. Jobs that are planned on it wait meanwhile.",
        )
}
