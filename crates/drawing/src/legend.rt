//! The heading of a chart in a picture: its title, its times, and the meanings of its colours.

use crate::chart::{Chart, Ending};
use crate::colour::{Colour, Fill, class_colour};
use crate::ending::{SHOWN, strip_of, words_of};
use crate::frame::{Frame, MARGIN};
use crate::page::Page;
use crate::svg::SvgDrawing;

/// The hatching of waits.
pub(crate) const WAIT: Fill = Fill::Named("url(#wait)");

/// The height of a line.
const LINE: f64 = 20.0;

/// The distance from one entry to the next.
const ENTRY_WIDTH: f64 = 120.0;

/// The place of the next entry. Entries go from left to right, then to the next line.
#[derive(Clone, Copy)]
struct Pen {
    x: f64,
    y: f64,
    right: f64,
}

impl Pen {
    /// The place for the entry after this entry.
    fn next(self) -> Pen {
        if self.x + 2.0 * ENTRY_WIDTH > self.right {
            Pen {
                x: MARGIN,
                y: self.y + LINE,
                right: self.right,
            }
        } else {
            Pen {
                x: self.x + ENTRY_WIDTH,
                ..self
            }
        }
    }
}

/// The page with the entries up to now, and the place of the next entry.
#[derive(Drop)]
struct Legend {
    page: Page,
    pen: Pen,
}

/// Appends a filling, and the begin of its meaning.
fn begin_entry(page: Page, pen: Pen, fill: Fill) -> Page {
    page.put_length("<rect x=\"", pen.x)
        .put_length("\" y=\"", pen.y - 11.0)
        .put("\" width=\"14\" height=\"14\" fill=\"")
        .put_fill(fill)
        .put("\" stroke=\"#888\" stroke-width=\"0.5\"/>\n")
        .begin_text(pen.x + 20.0, pen.y, "")
}

/// Appends a filling and its meaning.
fn put_entry(page: Page, pen: Pen, fill: Fill, meaning: &str) -> Page {
    begin_entry(page, pen, fill).put(meaning).end_text()
}

/// Appends the colour of a class and its meaning.
fn put_class(legend: Legend, colour: Colour, priority: u8) -> Legend {
    let Legend { page, pen } = legend;
    let page = begin_entry(page, pen, Fill::Plain(colour))
        .put_number("priority ", u64::from(priority))
        .end_text();
    Legend {
        page,
        pen: pen.next(),
    }
}

/// Appends the colours of the classes and their meanings.
fn put_classes(legend: Legend, classes: &[u8]) -> Legend {
    let mut legend = legend;
    for (place, priority) in classes.iter().enumerate() {
        legend = put_class(legend, class_colour(place, classes.len()), *priority);
    }
    legend
}

/// Appends the strip that shows an ending, and its meaning; nothing where the ending has no strip.
fn put_ending(legend: Legend, ending: Ending) -> Legend {
    let Some(fill) = strip_of(ending) else {
        return legend;
    };
    let Legend { page, pen } = legend;
    Legend {
        page: put_entry(page, pen, fill, words_of(ending)),
        pen: pen.next(),
    }
}

/// Appends the strips below bars that the chart has, and their meanings.
fn put_endings(legend: Legend, chart: &Chart) -> Legend {
    let mut legend = legend;
    for &ending in &SHOWN {
        if chart.has_ending(ending) {
            legend = put_ending(legend, ending);
        }
    }
    legend
}

/// Appends the times of a chart, in one sentence.
pub(crate) fn put_times(page: Page, chart: &Chart) -> Page {
    page.put("time to paper: ")
        .put_long_time(chart.total)
        .put(" in all, ")
        .put_long_time(chart.mean())
        .put(" in the mean")
}

/// Appends the title of a chart, and its times.
fn put_title(page: Page, chart: &Chart, top: f64) -> Page {
    let page = page
        .put_text(
            MARGIN,
            top + 16.0,
            " font-size=\"16\" font-weight=\"bold\"",
            chart.title.as_bytes(),
        )
        .begin_text(MARGIN, top + 36.0, "");
    put_times(page, chart).end_text()
}

/// Draws the heading of a chart, above its lanes.
pub(crate) fn put_heading(drawing: SvgDrawing, frame: Frame, chart: &Chart) -> SvgDrawing {
    let SvgDrawing { page, bottom: top } = drawing;
    let begun = Legend {
        page: put_title(page, chart, top),
        pen: Pen {
            x: MARGIN,
            y: top + 58.0,
            right: frame.right(),
        },
    };
    let Legend { page, pen } = put_endings(put_classes(begun, &chart.classes), chart);
    let page = if chart.waits() {
        put_entry(page, pen, WAIT, "not free")
    } else {
        page
    };
    SvgDrawing {
        page,
        bottom: pen.y + MARGIN,
    }
}
