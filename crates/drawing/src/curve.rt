//! The number of jobs that wait, as a curve above the lanes of a picture.

use crate::chart::Chart;
use crate::frame::{Frame, MARGIN};
use crate::page::Page;
use crate::svg::SvgDrawing;
use crate::waiting::{WaitingStep, most_waiting, waiting_in};
use std::alloc::Global;
use std::num::nearest_u64_to_f64;

/// The height of the curve.
const HEIGHT: f64 = 48.0;

/// The room above the curve.
const ABOVE: f64 = 8.0;

/// Appends the words beside the curve, whose lower end is `base`.
fn put_words(page: Page, frame: Frame, base: f64, most: u64) -> Page {
    let x = frame.left - MARGIN / 2.0;
    page.put_text(
        x,
        base - 20.0,
        " text-anchor=\"end\" font-weight=\"bold\"",
        b"waiting",
    )
    .place_text(x, base - 6.0)
    .put_number(" text-anchor=\"end\" font-size=\"10\">at most ", most)
    .end_text()
}

/// Appends the steps of a curve.
fn put_steps(page: Page, frame: Frame, base: f64, steps: &[WaitingStep], most: u64) -> Page {
    let unit = HEIGHT / nearest_u64_to_f64(most.max(1));
    let mut page = page;
    for step in steps {
        page = page
            .put_length("H", frame.x(step.moment))
            .put_length("V", base - unit * nearest_u64_to_f64(step.waiting));
    }
    page
}

/// Appends a curve, whose lower end is `base`.
fn put_curve(page: Page, frame: Frame, base: f64, steps: &[WaitingStep]) -> Page {
    let most = most_waiting(steps);
    let page = put_words(page, frame, base, most).begin_path(frame.left, base);
    put_steps(page, frame, base, steps, most)
        .put_length("H", frame.right())
        .put_length("V", base)
        .put("Z\" fill=\"#cdd6e4\" stroke=\"#557\" stroke-width=\"0.5\"><title>")
        .put_number("at most ", most)
        .put(" jobs wait</title></path>\n")
}

/// Draws the number of jobs that wait, if the chart has too many jobs to label each.
pub(crate) fn put_waiting(
    alloc: Global,
    drawing: SvgDrawing,
    frame: Frame,
    chart: &Chart,
) -> SvgDrawing {
    if !chart.is_crowded() {
        return drawing;
    }
    let SvgDrawing { page, bottom: top } = drawing;
    let bottom = top + ABOVE + HEIGHT;
    let page = match waiting_in(alloc, chart) {
        Ok(steps) => put_curve(page, frame, bottom, &steps),
        Err(_) => page.refused(),
    };
    SvgDrawing { page, bottom }
}
