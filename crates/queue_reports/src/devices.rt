//! The devices of a printer.
use crate::html::Html;
use crate::length::PageCount;
use crate::media::MediumName;
use crate::sheet::PageContext;
use crate::times::TimeDetail;
use queue_views::{DeviceState, DeviceView, PrinterView, TakenJob};

/// The word for a state.
fn word_of(state: DeviceState) -> &'static str {
    match state {
        DeviceState::Away => "away",
        DeviceState::Stopped => "stopped",
        DeviceState::Ready => "ready",
        DeviceState::Printing => "printing",
        DeviceState::Late { .. } => "late",
    }
}

/// Appends the devices of a printer.
pub(crate) fn put_devices(html: Html, sheet: &PageContext<'_>, printer: &PrinterView) -> Html {
    let mut html = sheet
        .heading(html, "Devices")
        .markup("<div class=\"devices\">\n");
    for id in &printer.devices {
        if let Some(device) = sheet.device(*id) {
            html = put_device(html, sheet, device);
        }
    }
    html.markup("</div>\n")
}

/// Appends a device.
fn put_device(html: Html, sheet: &PageContext<'_>, device: &DeviceView) -> Html {
    let class = match device.state {
        DeviceState::Ready | DeviceState::Printing => "state",
        DeviceState::Away | DeviceState::Stopped | DeviceState::Late { .. } => "state bad",
    };
    let html = html
        .markup("<div class=\"device\"><span")
        .attribute("class", class)
        .markup(">")
        .markup(word_of(device.state))
        .markup("</span><b>")
        .bytes(device.name.as_bytes())
        .markup("</b>");
    let html = match &device.taken {
        Some(taken) => put_taken(html, sheet, device, taken),
        None => put_since(html, sheet, device),
    };
    let html = put_busy(html, sheet, device);
    put_media(html, device).markup("</div>\n")
}

/// Appends since when a device without a job is in its state.
fn put_since(html: Html, sheet: &PageContext<'_>, device: &DeviceView) -> Html {
    match (device.since, device.state) {
        (Some(since), _) => html
            .markup("<p>since ")
            .text(sheet.times.at(since.millis(), TimeDetail::Minutes))
            .markup("</p>"),
        (None, DeviceState::Away) => html.markup("<p>not connected yet</p>"),
        (None, _) => html,
    }
}

/// Appends the job that a device has.
fn put_taken(html: Html, sheet: &PageContext<'_>, device: &DeviceView, taken: &TakenJob) -> Html {
    let html = html.markup("<p>job ").text(taken.job.number());
    let html = if taken.canceled {
        html.markup(", canceled")
    } else {
        html
    };
    let html = put_pages(html, taken);
    let html = put_end(html, sheet, device, taken).markup("</p>");
    put_progress(html, taken)
}

/// Appends the bar of a job's progress, where it is known.
fn put_progress(html: Html, taken: &TakenJob) -> Html {
    match taken.done {
        Some(done) => html
            .markup("<progress")
            .attribute("max", taken.impressions)
            .attribute("value", done)
            .markup("></progress>"),
        None => html,
    }
}

/// Appends how many pages of a job are printed.
fn put_pages(html: Html, taken: &TakenJob) -> Html {
    match taken.done {
        Some(done) => html
            .markup(", about ")
            .text(done)
            .markup(" of ")
            .text(PageCount(taken.impressions)),
        None => html.markup(", ").text(PageCount(taken.impressions)),
    }
}

/// Appends when a device is to end its job, or since when it is stopped.
fn put_end(html: Html, sheet: &PageContext<'_>, device: &DeviceView, taken: &TakenJob) -> Html {
    match (taken.end, device.since) {
        (Some(end), _) if end > sheet.times.now() => html
            .markup(", done about ")
            .text(sheet.times.at(end, TimeDetail::Minutes)),
        (Some(end), _) => html
            .markup(", was to be done about ")
            .text(sheet.times.at(end, TimeDetail::Minutes)),
        (None, Some(since)) => html
            .markup(", stopped since ")
            .text(sheet.times.at(since.millis(), TimeDetail::Minutes)),
        (None, None) => html,
    }
}

/// Appends until when a device begins no job.
fn put_busy(html: Html, sheet: &PageContext<'_>, device: &DeviceView) -> Html {
    match device.busy_until {
        Some(until) => html
            .markup("<p>begins no job before ")
            .text(sheet.times.at(until, TimeDetail::Minutes))
            .markup("</p>"),
        None => html,
    }
}

/// Appends the media that a connected device has loaded.
fn put_media(html: Html, device: &DeviceView) -> Html {
    if device.state == DeviceState::Away {
        return html;
    }
    let mut html = html.markup("<p>loaded: ");
    let mut found = false;
    for medium in &device.media {
        if medium.loaded {
            html = html
                .markup(if found { ", " } else { "" })
                .text(MediumName(medium.name.as_bytes()));
            found = true;
        }
    }
    html.markup(if found { "</p>" } else { "nothing</p>" })
}
