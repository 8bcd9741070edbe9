//! A chart for a terminal of 80 columns.

use crate::chart::{Chart, longest_span};
use crate::legend::put_times;
use crate::listing::{put_count, put_fillings, put_jobs};
use crate::page::Page;
use crate::row::{lane_row, scale_row, waiting_row};
use crate::scale::Scale;
use crate::stranded::put_sentence;
use crate::waiting::{WaitingStep, most_waiting, waiting_in};
use base_types::Stranded;
use std::alloc::{AllocError, Global};

/// The columns of a line.
pub(crate) const WIDTH: usize = 80;

/// The most columns of a name, and the fewest, in which a unit fits too.
const LONGEST_NAME: usize = 16;

const SHORTEST_NAME: usize = 8;

/// The number of columns of the longest name of a chart.
fn longest_name(chart: &Chart) -> usize {
    let mut longest = SHORTEST_NAME;
    for lane in &chart.lanes {
        longest = lane.name.as_bytes().len().max(longest);
    }
    longest
}

/// The number of columns of the names of all charts.
fn name_columns(charts: &[Chart]) -> usize {
    let mut longest = SHORTEST_NAME;
    for chart in charts {
        longest = longest_name(chart).max(longest);
    }
    longest.min(LONGEST_NAME)
}

/// Appends a name, cut off or filled up with spaces to this number of columns.
pub(crate) fn put_name(page: Page, name: &[u8], columns: usize) -> Page {
    let mut page = page;
    for place in 0..columns {
        let byte = name.get(place).copied().unwrap_or(b' ');
        page = page.put_letter(char::from(byte));
    }
    page
}

/// Appends a name and its row, without the spaces at the end of the row.
fn put_row(page: Page, name: &[u8], columns: usize, cells: &[u8]) -> Page {
    let mut page = put_name(page, name, columns);
    for byte in cells.trim_ascii_end() {
        page = page.put_letter(char::from(*byte));
    }
    page.put_letter('\n')
}

/// The columns of a row after its name.
fn columns_of(names: usize) -> u16 {
    u16::try_from(WIDTH.saturating_sub(names.saturating_add(1))).unwrap_or(0)
}

/// Appends the row of the jobs that wait, if there is one.
fn put_waiting(page: Page, steps: &[WaitingStep], scale: Scale, names: usize) -> Page {
    if steps.is_empty() {
        return page;
    }
    let cells = waiting_row(scale, columns_of(names), steps);
    put_row(page, b"waiting", names, &cells)
}

/// Appends the rows of the lanes, and the row of the scale.
fn put_rows(page: Page, chart: &Chart, scale: Scale, names: usize) -> Page {
    let columns = columns_of(names);
    let mut page = page;
    for lane in &chart.lanes {
        let cells = lane_row(scale, columns, lane);
        page = put_row(page, lane.name.as_bytes(), names, &cells);
    }
    let cells = scale_row(scale, columns);
    put_row(page, scale.unit().name().as_bytes(), names, &cells)
}

/// Appends the jobs of all lanes, or their number where they are too many.
fn put_lists(page: Page, chart: &Chart, names: usize) -> Page {
    let is_crowded = chart.is_crowded();
    let mut page = page;
    for lane in &chart.lanes {
        page = if is_crowded {
            put_count(page, lane, names)
        } else {
            put_jobs(page, lane, names)
        };
    }
    page
}

/// Appends the jobs that no device can print, a line each.
fn put_stranded(page: Page, stranded: &[Stranded]) -> Page {
    let mut page = page;
    for one in stranded {
        page = put_sentence(page, one).put_letter('\n');
    }
    page
}

/// Appends the further sentences about jobs, a line each.
fn put_notes(page: Page, notes: &[String]) -> Page {
    let mut page = page;
    for note in notes {
        page = page.put(note).put_letter('\n');
    }
    page
}

/// Appends a chart with the number of jobs that wait above its lanes, and below it its jobs.
fn put_chart(page: Page, chart: &Chart, steps: &[WaitingStep], scale: Scale, names: usize) -> Page {
    let page = page.put(&chart.title).put_letter('\n');
    let page = put_times(page, chart).put("\n\n");
    let page = put_waiting(page, steps, scale, names);
    let page = put_rows(page, chart, scale, names);
    let page = put_fillings(page, chart, most_waiting(steps), names).put_letter('\n');
    let page = put_lists(page, chart, names);
    let page = put_stranded(page, &chart.stranded);
    put_notes(page, &chart.notes)
}

/// The number of jobs that wait, if the chart has too many jobs to name each; no steps otherwise. The only
/// error is out of memory.
fn steps_of(alloc: Global, chart: &Chart) -> Result<Vec<WaitingStep>, AllocError> {
    if chart.is_crowded() {
        waiting_in(alloc, chart)
    } else {
        Ok(Vec::new(alloc))
    }
}

/// Charts, with an empty line between two of them.
fn put_charts(alloc: Global, charts: &[Chart]) -> Page {
    let names = name_columns(charts);
    let scale = Scale::new(longest_span(charts));
    let mut page = Page::new(alloc);
    for (place, chart) in charts.iter().enumerate() {
        let Ok(steps) = steps_of(alloc, chart) else {
            return page.refused();
        };
        if place > 0 {
            page = page.put_letter('\n');
        }
        page = put_chart(page, chart, &steps, scale, names);
    }
    page
}

/// Returns a picture of charts in 80 columns, below one another and over one scale, as whole lines. The only
/// error is out of memory.
pub(crate) fn write_text(alloc: Global, charts: &[Chart]) -> Result<String, AllocError> {
    put_charts(alloc, charts).finish()
}
