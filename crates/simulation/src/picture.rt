//! Pictures of days.

use crate::day::Day;
use crate::outcome::Outcome;
use base_types::Text;
use drawing::{Arrival, Chart, Form, Page, Print, chart_of_day, draw_charts};
use std::alloc::{AllocError, Global};

/// The most jobs without a device that are listed below a chart.
const STRANDED: usize = 10;

/// The jobs of a day, each with its place in the list, counted from 1, as its number. The only error is out
/// of memory.
fn arrivals_of(alloc: Global, day: &Day) -> Result<Vec<Arrival>, AllocError> {
    let mut arrivals = Vec::with_capacity(alloc, day.jobs.len())?;
    for (place, job) in day.jobs.iter().enumerate() {
        arrivals.push(Arrival {
            number: u32::try_from(place.saturating_add(1)).unwrap_or(u32::MAX),
            priority: job.priority,
            moment: job.moment,
        })?;
    }
    Ok(arrivals)
}

/// The line with the number of the jobs without a device that aren't listed. The only error is out of memory.
fn note_of(alloc: Global, more: usize) -> Result<String, AllocError> {
    Page::new(alloc)
        .put("Nor does any print ")
        .put_shown(more)
        .put(" others.")
        .finish()
}

/// The line about the jobs without a device, if more of them exist than are listed below a chart. The only
/// error is out of memory.
fn notes_of(alloc: Global, day: &Day) -> Result<Vec<String>, AllocError> {
    let mut notes = Vec::new(alloc);
    let more = day.stranded.len().saturating_sub(STRANDED);
    if more > 0 {
        notes.push(note_of(alloc, more)?)?;
    }
    Ok(notes)
}

/// The chart of a day with these jobs and prints, under a title. The only error is out of memory.
fn chart_with(
    alloc: Global,
    names: &[Text],
    day: &Day,
    title: &str,
    arrivals: &[Arrival],
    prints: &[Print],
) -> Result<Chart, AllocError> {
    let shown = day.stranded.len().min(STRANDED);
    chart_of_day(
        alloc,
        drawing::Day {
            title: String::from_str(alloc, title)?,
            devices: names,
            arrivals,
            prints,
            stranded: Vec::from_slice(alloc, &day.stranded[..shown])?,
            notes: notes_of(alloc, day)?,
        },
    )
}

/// The chart of a day as it was played. The only error is out of memory.
fn chart_of(
    alloc: Global,
    names: &[Text],
    day: &Day,
    outcome: &Outcome,
) -> Result<Chart, AllocError> {
    let arrivals = arrivals_of(alloc, day)?;
    chart_with(alloc, names, day, outcome.name, &arrivals, &outcome.prints)
}

/// A picture of a day as it was played in several ways, one below the other. The only error is out of memory.
pub(crate) fn picture_of(
    alloc: Global,
    names: &[Text],
    day: &Day,
    outcomes: &[Outcome],
    form: Form,
) -> Result<String, AllocError> {
    let mut charts = Vec::with_capacity(alloc, outcomes.len())?;
    for outcome in outcomes {
        charts.push(chart_of(alloc, names, day, outcome)?)?;
    }
    draw_charts(alloc, &charts, form)
}
