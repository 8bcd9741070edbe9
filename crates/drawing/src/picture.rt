//! Charts as a picture in SVG (SVG 1.1, W3C Recommendation of 2011).

use crate::chart::Chart;
use crate::curve::put_waiting;
use crate::ending::SHOWN;
use crate::frame::{Frame, MARGIN};
use crate::lane::put_lane;
use crate::legend::put_heading;
use crate::page::Page;
use crate::scale::MOST_MARKS;
use crate::stranded::put_sentence;
use crate::svg::SvgDrawing;
use base_types::Stranded;
use std::alloc::{AllocError, Global};

/// The height of a line of text.
const LINE: f64 = 18.0;

/// Draws the lanes of a chart.
fn put_lanes(alloc: Global, drawing: SvgDrawing, frame: Frame, chart: &Chart) -> SvgDrawing {
    let mut drawing = drawing;
    for lane in &chart.lanes {
        drawing = put_lane(alloc, drawing, frame, chart, lane);
    }
    drawing
}

/// Appends a number of the scale.
fn put_mark(page: Page, x: f64, y: f64, number: u64) -> Page {
    page.place_text(x, y)
        .put_number(" text-anchor=\"middle\">", number)
        .end_text()
}

/// Appends the numbers of the scale.
fn put_numbers(page: Page, frame: Frame, y: f64) -> Page {
    let mut page = page;
    for place in 0..=MOST_MARKS {
        let Some(mark) = frame.scale.mark(place) else {
            return page;
        };
        page = put_mark(page, frame.x(mark.moment), y, mark.number);
    }
    page
}

/// Draws the scale.
fn put_scale(drawing: SvgDrawing, frame: Frame) -> SvgDrawing {
    let (right, line) = (frame.right(), drawing.bottom + 6.0);
    let bottom = line + 2.0 * LINE;
    let page = drawing
        .page
        .begin_path(frame.left, line)
        .put_length("H", right)
        .put("\" stroke=\"#444\"/>\n");
    let unit = frame.scale.unit().name();
    let page = put_numbers(page, frame, line + LINE).put_text(
        right,
        bottom,
        " text-anchor=\"end\"",
        unit.as_bytes(),
    );
    SvgDrawing { page, bottom }
}

/// Draws a sentence about a job that no device can print.
fn put_stranded_job(drawing: SvgDrawing, stranded: &Stranded) -> SvgDrawing {
    let bottom = drawing.bottom + LINE;
    let page = drawing.page.begin_text(MARGIN, bottom, "");
    SvgDrawing {
        page: put_sentence(page, stranded).end_text(),
        bottom,
    }
}

/// Draws the jobs that no device can print, a line each.
fn put_stranded(drawing: SvgDrawing, stranded: &[Stranded]) -> SvgDrawing {
    let mut drawing = drawing;
    for one in stranded {
        drawing = put_stranded_job(drawing, one);
    }
    drawing
}

/// Draws a further sentence about a job.
fn put_note(drawing: SvgDrawing, note: &str) -> SvgDrawing {
    let bottom = drawing.bottom + LINE;
    SvgDrawing {
        page: drawing.page.put_text(MARGIN, bottom, "", note.as_bytes()),
        bottom,
    }
}

/// Draws the further sentences about jobs, a line each.
fn put_notes(drawing: SvgDrawing, notes: &[String]) -> SvgDrawing {
    let mut drawing = drawing;
    for note in notes {
        drawing = put_note(drawing, note);
    }
    drawing
}

/// Draws a chart.
fn put_chart(alloc: Global, drawing: SvgDrawing, frame: Frame, chart: &Chart) -> SvgDrawing {
    let drawing = put_heading(drawing, frame, chart);
    let drawing = put_waiting(alloc, drawing, frame, chart);
    let drawing = put_lanes(alloc, drawing, frame, chart);
    let drawing = put_scale(drawing, frame);
    let drawing = put_stranded(drawing, &chart.stranded);
    let SvgDrawing { page, bottom } = put_notes(drawing, &chart.notes);
    SvgDrawing {
        page,
        bottom: bottom + MARGIN,
    }
}

/// Draws charts below one another.
fn put_charts(alloc: Global, drawing: SvgDrawing, frame: Frame, charts: &[Chart]) -> SvgDrawing {
    let mut drawing = drawing;
    for chart in charts {
        drawing = put_chart(alloc, drawing, frame, chart);
    }
    drawing
}

/// The font of a picture, which ends its first tag.
const FONT: &str =
    "\" font-family=\"Liberation Sans, Arial, Helvetica, sans-serif\" font-size=\"12\">\n";

/// The pattern for waits, and the white ground.
const GROUND: &str =
    "<defs><pattern id=\"wait\" width=\"6\" height=\"6\" patternUnits=\"userSpaceOnUse\" patternTransform=\"rotate(45)\"><rect width=\"6\" height=\"6\" fill=\"#f4f4f4\"/><path d=\"M0 0V6\" stroke=\"#777\" stroke-width=\"3\"/></pattern></defs>\n<rect width=\"100%\" height=\"100%\" fill=\"#fff\"/>\n";

/// The strips of canceled jobs and of jobs that have not ended.
const STRIPS: &str =
    "<defs><pattern id=\"canceled\" width=\"8\" height=\"4\" patternUnits=\"userSpaceOnUse\"><rect width=\"8\" height=\"4\" fill=\"#fff\"/><rect width=\"5\" height=\"4\" fill=\"#d00000\"/></pattern><pattern id=\"open\" width=\"4\" height=\"4\" patternUnits=\"userSpaceOnUse\"><rect width=\"4\" height=\"4\" fill=\"#fff\"/><rect width=\"2\" height=\"4\" fill=\"#444\"/></pattern></defs>\n";

/// Returns whether a chart has a job that a strip marks.
fn has_strips(chart: &Chart) -> bool {
    for &ending in &SHOWN {
        if chart.has_ending(ending) {
            return true;
        }
    }
    false
}

/// Returns whether one of the charts has a job that a strip marks.
fn have_strips(charts: &[Chart]) -> bool {
    for chart in charts {
        if has_strips(chart) {
            return true;
        }
    }
    false
}

/// Appends the begin of a picture of this size: the white ground, and the pattern for waits.
fn put_head(page: Page, width: f64, height: f64) -> Page {
    page.put_whole_length("<svg xmlns=\"http://www.w3.org/2000/svg\" width=\"", width)
        .put_whole_length("\" height=\"", height)
        .put_whole_length("\" viewBox=\"0 0 ", width)
        .put_whole_length(" ", height)
        .put(FONT)
        .put(GROUND)
}

/// Appends the patterns of the strips where a chart needs one.
fn put_strips(page: Page, charts: &[Chart]) -> Page {
    if have_strips(charts) {
        return page.put(STRIPS);
    }
    page
}

/// Returns a picture of charts, below one another and over one scale, as whole lines.
///
/// A pointer on a bar shows the exact start and end of the bar. The only error is out of memory.
pub(crate) fn write_svg(alloc: Global, charts: &[Chart]) -> Result<String, AllocError> {
    let frame = Frame::of(charts);
    let begun = SvgDrawing {
        page: Page::new(alloc),
        bottom: MARGIN,
    };
    let SvgDrawing { page, bottom } = put_charts(alloc, begun, frame, charts);
    let body = page.finish()?;
    let page = put_head(Page::new(alloc), frame.right() + 2.0 * MARGIN, bottom);
    put_strips(page, charts).put(&body).put("</svg>\n").finish()
}
