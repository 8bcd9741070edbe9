//! A lane of a chart in a picture: the device's name, its bars, and the labels of its jobs.

use crate::chart::{Bar, Chart, ChartJob, Ending, Lane, Mark};
use crate::colour::{Fill, class_colour};
use crate::ending::{strip_of, words_of};
use crate::frame::{Frame, MARGIN};
use crate::label::{BarLabel, Tag, tags_height, tags_of};
use crate::legend::WAIT;
use crate::length::ShortTime;
use crate::page::Page;
use crate::scale::MOST_MARKS;
use crate::svg::SvgDrawing;
use std::alloc::Global;

/// The height of a bar.
const BAR_HEIGHT: u8 = 32;

/// The room above a bar.
const ABOVE: f64 = 8.0;

/// The distance from a bar to its label below.
const LEADER: f64 = 12.0;

/// The height of the strip that shows the ending of a job.
const STRIP_HEIGHT: u8 = 4;

/// The least width of a bar, at which it is visible.
const THINNEST: f64 = 0.6;

/// The place of a bar in a picture: its left end, its top and its width.
#[derive(Clone, Copy)]
struct Extent {
    x: f64,
    y: f64,
    width: f64,
}

/// The place of a bar whose top is `y`.
fn extent_of(frame: Frame, bar: &Bar, y: f64) -> Extent {
    let x = frame.x(bar.start);
    Extent {
        x,
        y,
        width: (frame.x(bar.end) - x).max(THINNEST),
    }
}

/// Appends the lines of the scale after a lane.
fn put_grid(page: Page, frame: Frame, top: f64, bottom: f64) -> Page {
    let mut page = page;
    for place in 0..=MOST_MARKS {
        let Some(mark) = frame.scale.mark(place) else {
            return page;
        };
        page = page
            .begin_path(frame.x(mark.moment), top)
            .put_length("V", bottom)
            .put("\" stroke=\"#ddd\"/>\n");
    }
    page
}

/// Appends the name of a lane, which ends before the bars start.
fn put_name(page: Page, frame: Frame, lane: &Lane, y: f64) -> Page {
    page.put_text(
        frame.left - MARGIN / 2.0,
        y + 20.0,
        " text-anchor=\"end\" font-weight=\"bold\"",
        lane.name.as_bytes(),
    )
}

/// Appends the two lines of a label in its bar: the number of the job, and the length of its print.
fn put_label(page: Page, extent: Extent, ink: &str, number: u32, length: u64) -> Page {
    let middle = extent.x + extent.width / 2.0;
    page.place_text(middle, extent.y + 14.0)
        .put(" text-anchor=\"middle\" font-weight=\"bold\" fill=\"")
        .put(ink)
        .put_number("\">", u64::from(number))
        .end_text()
        .place_text(middle, extent.y + 27.0)
        .put(" text-anchor=\"middle\" font-size=\"11\" fill=\"")
        .put(ink)
        .put("\">")
        .put_shown(ShortTime(length))
        .end_text()
}

/// Appends a rectangle of this height, up to the end of its filling.
fn begin_rectangle(page: Page, extent: Extent, height: u8, fill: Fill) -> Page {
    page.put_length("<rect x=\"", extent.x)
        .put_length("\" y=\"", extent.y)
        .put_length("\" width=\"", extent.width)
        .put_number("\" height=\"", u64::from(height))
        .put("\" fill=\"")
        .put_fill(fill)
}

/// Appends the rectangle of a bar, up to the text that a pointer shows.
fn begin_bar(page: Page, extent: Extent, fill: Fill) -> Page {
    begin_rectangle(page, extent, BAR_HEIGHT, fill).put(
        "\" stroke=\"#fff\" stroke-width=\"0.5\"><title>",
    )
}

/// Appends the start and the end of a bar, and the end of its rectangle.
fn end_bar(page: Page, bar: &Bar) -> Page {
    page.put_number(": ", bar.start)
        .put_number(" to ", bar.end)
        .put(" ms</title></rect>\n")
}

/// Appends the bar of a wait.
fn put_wait(page: Page, extent: Extent, bar: &Bar) -> Page {
    end_bar(begin_bar(page, extent, WAIT).put("not free"), bar)
}

/// Appends the priority of a class.
fn put_priority(page: Page, classes: &[u8], class: usize) -> Page {
    match classes.get(class) {
        Some(priority) => page.put_number(", priority ", u64::from(*priority)),
        None => page,
    }
}

/// Appends the text about a job that a pointer shows.
fn put_telling(page: Page, job: ChartJob, classes: &[u8]) -> Page {
    let words = words_of(job.ending);
    let page = page.put_number("job ", u64::from(job.number));
    let page = put_priority(page, classes, job.class);
    if words.is_empty() {
        return page;
    }
    page.put(", ").put(words)
}

/// Appends the strip below a bar that shows the ending of a job that was not printed.
fn put_strip(page: Page, extent: Extent, ending: Ending) -> Page {
    let Some(fill) = strip_of(ending) else {
        return page;
    };
    let below = Extent {
        y: extent.y + f64::from(BAR_HEIGHT),
        ..extent
    };
    begin_rectangle(page, below, STRIP_HEIGHT, fill).put("\"/>\n")
}

/// Appends the pin of a job that came.
fn put_pin(page: Page, extent: Extent, number: u32, moment: u64) -> Page {
    page.begin_path(extent.x, extent.y + f64::from(BAR_HEIGHT))
        .put_length("V", extent.y + 12.0)
        .put("h6v6h-6\" stroke=\"#444\" fill=\"#444\"><title>")
        .put_number("job ", u64::from(number))
        .put_number(" came at ", moment)
        .put(" ms</title></path>\n")
}

/// Appends the bar of a job, with its label where it fits.
fn put_job(page: Page, extent: Extent, bar: &Bar, job: ChartJob, classes: &[u8]) -> Page {
    let colour = class_colour(job.class, classes.len());
    let begun = begin_bar(page, extent, Fill::Plain(colour));
    let page = end_bar(put_telling(begun, job, classes), bar);
    let page = put_strip(page, extent, job.ending);
    if BarLabel::of(job.number, bar.length()).fits(extent.width) {
        return put_label(page, extent, colour.ink(), job.number, bar.length());
    }
    page
}

/// Appends a bar.
fn put_bar(page: Page, extent: Extent, bar: &Bar, classes: &[u8]) -> Page {
    match bar.mark {
        Mark::Wait => put_wait(page, extent, bar),
        Mark::Job(job) => put_job(page, extent, bar, job, classes),
        Mark::Came(number) => put_pin(page, extent, number, bar.start),
    }
}

/// Appends the line from a bar to its label below.
fn put_leader(page: Page, tag: &Tag, top: f64) -> Page {
    page.begin_path(tag.middle, top)
        .put_length("L", tag.x)
        .put_length(" ", top + LEADER - 3.0)
        .put("\" stroke=\"#888\" stroke-width=\"0.5\"/>\n")
}

/// Appends a bar's label below the bar, and a line to it.
fn put_tag(page: Page, tag: &Tag, top: f64) -> Page {
    let page = put_leader(page, tag, top)
        .put_length("<text transform=\"translate(", tag.x - 3.5)
        .put_length(" ", top + LEADER)
        .put(") rotate(90)\" font-size=\"10\"><tspan font-weight=\"bold\">")
        .put_shown(tag.label.number)
        .put("</tspan> ");
    let page = match tag.label.length {
        Some(length) => page.put_shown(length),
        None => page,
    };
    page.end_text()
}

/// Appends the bars of a lane, whose tops are at `y`.
fn put_bars(page: Page, frame: Frame, chart: &Chart, lane: &Lane, y: f64) -> Page {
    let mut page = page;
    for bar in &lane.bars {
        page = put_bar(page, extent_of(frame, bar, y), bar, &chart.classes);
    }
    page
}

/// Appends the labels below a lane.
fn put_tags(page: Page, tags: &[Tag], top: f64) -> Page {
    let mut page = page;
    for tag in tags {
        page = put_tag(page, tag, top);
    }
    page
}

/// The lower end of a lane whose bars end at `below`.
fn bottom_of(tags: &[Tag], below: f64) -> f64 {
    if tags.is_empty() {
        below
    } else {
        below + LEADER + tags_height(tags)
    }
}

/// Appends a lane whose top is `top`, with these labels below its bars.
fn put_tagged(
    page: Page,
    frame: Frame,
    chart: &Chart,
    lane: &Lane,
    tags: &[Tag],
    top: f64,
) -> Page {
    let bars = top + ABOVE;
    let below = bars + f64::from(BAR_HEIGHT);
    let page = put_grid(page, frame, top, bottom_of(tags, below));
    let page = put_name(page, frame, lane, bars);
    let page = put_bars(page, frame, chart, lane, bars);
    put_tags(page, tags, below)
}

/// Draws a lane below the drawing.
pub(crate) fn put_lane(
    alloc: Global,
    drawing: SvgDrawing,
    frame: Frame,
    chart: &Chart,
    lane: &Lane,
) -> SvgDrawing {
    let SvgDrawing { page, bottom: top } = drawing;
    match tags_of(alloc, frame, chart, lane) {
        Ok(tags) => SvgDrawing {
            page: put_tagged(page, frame, chart, lane, &tags, top),
            bottom: bottom_of(&tags, top + ABOVE + f64::from(BAR_HEIGHT)),
        },
        Err(_) => SvgDrawing {
            page: page.refused(),
            bottom: top,
        },
    }
}
