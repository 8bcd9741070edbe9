//! The plan of a printer's devices, as lanes.
use crate::html::Html;
use crate::length::PageCount;
use crate::sheet::PageContext;
use crate::ticks::{Span, WHOLE};
use crate::times::TimeDetail;
use base_types::{DeviceId, JobId};
use queue_views::{DeviceView, JobView, PrinterView, Prospect};
use std::alloc::AllocError;
use std::fmt;

/// The height of a lane, of its bar, and of the scale, in px.
const LANE: u64 = 56;

const BAR: u64 = 30;

const SCALE: u64 = 22;

/// The places of the name of a lane and of its bar, from its top.
const NAME: u64 = 15;

const TOP: u64 = 21;

/// The widths of a plan in px on a phone, and where more is shown than there.
const NARROW: u64 = 340;

const BROAD: u64 = 600;

/// The ten thousandths up to which a tick's text begins at the tick, and from which on it ends there.
const NEAR_START: u64 = 900;

const NEAR_END: u64 = 9_200;

/// A job in a lane, with its start and its end in ms.
#[derive(Clone, Copy)]
struct PlanBar {
    job: JobId,
    impressions: u64,
    runs: bool,
    start: u64,
    end: u64,
}

/// The jobs of a device.
#[derive(Drop)]
struct PlanLane {
    device: DeviceId,
    bars: Vec<PlanBar>,
}

/// Ten thousandths as a percentage.
#[derive(Clone, Copy)]
struct Percent(u64);

impl fmt::Display for Percent {
    fn fmt<W: fmt::Write>(&self, f: &mut fmt::Formatter<W>) -> fmt::Result {
        let (whole, rest) = (self.0 / 100, self.0 % 100);
        write!(f, "{whole}.{rest:02}%")
    }
}

/// The bar of the job that a device prints, if it is estimated to end later than the page's moment.
fn running(device: &DeviceView, now: u64) -> Option<PlanBar> {
    let taken = device.taken?;
    let end = taken.end?;
    if end <= now {
        return None;
    }
    Some(PlanBar {
        job: taken.job,
        impressions: taken.impressions,
        runs: true,
        start: now,
        end,
    })
}

/// The bar of a job that the plan has on a device.
fn planned(job: &JobView, wanted: DeviceId) -> Option<PlanBar> {
    match &job.prospect {
        Prospect::Planned { device, start, end } if *device == wanted => Some(PlanBar {
            job: job.id,
            impressions: job.impressions,
            runs: false,
            start: *start,
            end: *end,
        }),
        _ => None,
    }
}

/// The lane of a device.
fn lane_of(sheet: &PageContext<'_>, device: DeviceId) -> Result<PlanLane, AllocError> {
    let mut bars = Vec::new(sheet.alloc);
    if let Some(view) = sheet.device(device) {
        if let Some(bar) = running(view, sheet.times.now()) {
            bars.push(bar)?;
        }
    }
    for job in &sheet.view.jobs {
        if let Some(bar) = planned(job, device) {
            bars.push(bar)?;
        }
    }
    Ok(PlanLane { device, bars })
}

/// The lanes of the devices of a printer that have jobs and aren't late: when a late device is free nobody knows.
fn lanes_of(sheet: &PageContext<'_>, printer: &PrinterView) -> Result<Vec<PlanLane>, AllocError> {
    let mut lanes = Vec::new(sheet.alloc);
    for device in &printer.devices {
        let lane = lane_of(sheet, *device)?;
        if !lane.bars.is_empty() && !sheet.is_late(*device) {
            lanes.push(lane)?;
        }
    }
    Ok(lanes)
}

/// The end of the last bar of a lane, in ms.
fn end_of_lane(lane: &PlanLane) -> u64 {
    let mut end = 0;
    for bar in &lane.bars {
        end = bar.end.max(end);
    }
    end
}

/// The end of the last bar, in ms.
fn end_of(lanes: &[PlanLane]) -> u64 {
    let mut end = 0;
    for lane in lanes {
        end = end_of_lane(lane).max(end);
    }
    end
}

/// Appends the plan of a printer's devices, if they have jobs.
pub(crate) fn put_plan(html: Html, sheet: &PageContext<'_>, printer: &PrinterView) -> Html {
    match lanes_of(sheet, printer) {
        Ok(lanes) if lanes.is_empty() => html,
        Ok(lanes) => put_lanes(html, sheet, &lanes),
        Err(_) => html.refused(),
    }
}

/// Appends lanes over one scale.
fn put_lanes(html: Html, sheet: &PageContext<'_>, lanes: &[PlanLane]) -> Html {
    let span = Span::new(&sheet.times, end_of(lanes));
    let bottom = LANE.saturating_mul(lanes.len() as u64);
    let mut html = sheet
        .heading(html, "Plan")
        .markup("<svg role=\"img\" aria-label=\"Which device prints which job, and when\"")
        .attribute("height", bottom.saturating_add(SCALE))
        .markup(">\n");
    html = put_ticks(html, sheet, &span, bottom);
    for (place, lane) in lanes.iter().enumerate() {
        html = put_lane(html, sheet, &span, lane, LANE.saturating_mul(place as u64));
    }
    html.markup("</svg>\n")
}

/// Appends the ticks of the scale.
fn put_ticks(html: Html, sheet: &PageContext<'_>, span: &Span, bottom: u64) -> Html {
    let mut html = html;
    for number in 0..span.numbers() {
        if let Some(millis) = span.tick(number) {
            let place = span.place(millis);
            html = put_tick(html, place, bottom, number % 2 == 1)
                .text(sheet.times.at(millis, span.shows()))
                .markup("</text>\n");
        }
    }
    html
}

/// Appends the line of a tick, and the begin of its text. Where `wide`, it isn't shown on a phone.
fn put_tick(html: Html, place: u64, bottom: u64, wide: bool) -> Html {
    let anchor = if place < NEAR_START {
        "start"
    } else if place > NEAR_END {
        "end"
    } else {
        "middle"
    };
    let class = if wide { "dim wide" } else { "dim" };
    html.markup("<line y1=\"0\"")
        .attribute("x1", Percent(place))
        .attribute("x2", Percent(place))
        .attribute("y2", bottom)
        .markup("/><text")
        .attribute("class", class)
        .attribute("x", Percent(place))
        .attribute("y", bottom.saturating_add(15))
        .attribute("text-anchor", anchor)
        .markup(">")
}

/// Appends a lane whose top is there, in px.
fn put_lane(html: Html, sheet: &PageContext<'_>, span: &Span, lane: &PlanLane, top: u64) -> Html {
    let mut html = html
        .markup("<text x=\"0\"")
        .attribute("y", top.saturating_add(NAME))
        .markup(">")
        .bytes(sheet.device_name(lane.device))
        .markup("</text>\n");
    for bar in &lane.bars {
        html = put_bar(html, sheet, span, bar, top.saturating_add(TOP));
    }
    html
}

/// Appends a bar whose top is there, in px.
fn put_bar(html: Html, sheet: &PageContext<'_>, span: &Span, bar: &PlanBar, top: u64) -> Html {
    let place = span.place(bar.start);
    let width = span.place(bar.end).saturating_sub(place);
    let html = html
        .markup("<rect")
        .attribute("class", if bar.runs { "run" } else { "wait" })
        .attribute("x", Percent(place))
        .attribute("y", top)
        .attribute("width", Percent(width))
        .attribute("height", BAR)
        .markup(" rx=\"3\"><title>");
    let html = put_title(html, sheet, bar).markup("</title></rect>");
    put_label(html, bar, place, width, top).markup("\n")
}

/// Appends what a pointer shows of a bar.
fn put_title(html: Html, sheet: &PageContext<'_>, bar: &PlanBar) -> Html {
    let html = html
        .markup("job ")
        .text(bar.job.number())
        .markup(", ")
        .text(PageCount(bar.impressions));
    let ends = sheet.times.at(bar.end, TimeDetail::Seconds);
    if bar.runs {
        return html.markup(", done about ").text(ends);
    }
    html.markup(", about ")
        .text(sheet.times.at(bar.start, TimeDetail::Seconds))
        .markup(" to ")
        .text(ends)
}

/// Appends the number of the job in its bar, where there is space for it.
fn put_label(html: Html, bar: &PlanBar, place: u64, width: u64, top: u64) -> Html {
    let digits = u64::from(bar.job.number().checked_ilog10().unwrap_or(0)).saturating_add(1);
    let needed = digits.saturating_mul(8).saturating_add(10);
    if in_px(width, BROAD) < needed {
        return html;
    }
    let class = match (bar.runs, in_px(width, NARROW) < needed) {
        (true, true) => "on-run wide",
        (true, false) => "on-run",
        (false, true) => "on-wait wide",
        (false, false) => "on-wait",
    };
    html.markup("<text")
        .attribute("class", class)
        .attribute("x", Percent(place))
        .markup(" dx=\"6\"")
        .attribute("y", top.saturating_add(20))
        .markup(">")
        .text(bar.job.number())
        .markup("</text>")
}

/// Ten thousandths of a width, in px.
fn in_px(part: u64, width: u64) -> u64 {
    part.saturating_mul(width) / WHOLE
}
