//! The chart of a trace's day.

use crate::fault::DayFault;
use crate::job::{RecordedJob, RecordedPrint};
use crate::read::{RecordedDay, read_day};
use base_types::{JobId, Stranded};
use drawing::{Arrival, Chart, Day, Ending, Form, Page, Print, chart_of_day, draw_charts};
use job_objects::JobState;
use std::alloc::{AllocError, Global};
use std::slice;

/// The arrivals of the jobs. The only error is out of memory.
fn arrivals_of(alloc: Global, jobs: &[RecordedJob]) -> Result<Vec<Arrival>, AllocError> {
    let mut arrivals = Vec::with_capacity(alloc, jobs.len())?;
    for job in jobs {
        arrivals.push(Arrival {
            number: job.id.number(),
            priority: job.priority,
            moment: job.came,
        })?;
    }
    Ok(arrivals)
}

/// The ending of a job on its device.
fn ending_of(job: Option<&RecordedJob>) -> Ending {
    let Some(job) = job else {
        return Ending::Open;
    };
    match job.state {
        JobState::Completed => Ending::Printed,
        JobState::Canceled => Ending::Canceled,
        JobState::Aborted => Ending::Failed,
        JobState::Pending | JobState::PendingHeld | JobState::Processing | JobState::Stopped =>
            Ending::Open,
    }
}

/// A print of a device, as it is drawn.
fn print_of(day: &RecordedDay, print: &RecordedPrint) -> Print {
    Print {
        job: print.job,
        device: print.device,
        start: print.start,
        end: print.end.unwrap_or(day.end),
        ending: ending_of(day.jobs.get(print.job)),
    }
}

/// The prints of the devices, as they are drawn. The only error is out of memory.
fn prints_of(alloc: Global, day: &RecordedDay) -> Result<Vec<Print>, AllocError> {
    let mut prints = Vec::with_capacity(alloc, day.prints.len())?;
    for print in &day.prints {
        prints.push(print_of(day, print))?;
    }
    Ok(prints)
}

/// Returns whether a job waits and the last plan found no device for it.
fn is_stranded(stranded: &[Stranded], job: &RecordedJob) -> bool {
    if job.state.is_pending() {
        for one in stranded {
            if one.job == job.id {
                return true;
            }
        }
    }
    false
}

/// The words for the state of a job that no device had.
fn fate_of(state: JobState) -> &'static str {
    match state {
        JobState::Canceled => "was canceled before a device had it",
        JobState::Aborted => "was given up before a device had it",
        JobState::PendingHeld => "is held, or hasn't come in as a whole",
        JobState::Pending | JobState::Processing | JobState::Stopped | JobState::Completed =>
            "still waits",
    }
}

/// A sentence about a job that no device had. The only error is out of memory.
fn note_of(alloc: Global, job: &RecordedJob) -> Result<String, AllocError> {
    Page::new(alloc)
        .put("Job ")
        .put_shown(job.id.number())
        .put(" ")
        .put(fate_of(job.state))
        .put(".")
        .finish()
}

/// A sentence about each job that no device had, except those that are below the chart anyway. The only error
/// is out of memory.
fn notes_of(alloc: Global, day: &RecordedDay) -> Result<Vec<String>, AllocError> {
    let mut notes = Vec::new(alloc);
    for job in &day.jobs {
        if !job.begun && !is_stranded(&day.stranded, job) {
            notes.push(note_of(alloc, job)?)?;
        }
    }
    Ok(notes)
}

/// Returns whether a job still waits.
fn waits(jobs: &[RecordedJob], id: JobId) -> bool {
    for job in jobs {
        if job.id == id && job.state.is_pending() {
            return true;
        }
    }
    false
}

/// The stranded jobs that still wait. The only error is out of memory.
fn stranded_of(alloc: Global, day: &RecordedDay) -> Result<Vec<Stranded>, AllocError> {
    let mut stranded = Vec::new(alloc);
    for one in &day.stranded {
        if waits(&day.jobs, one.job) {
            stranded.push(*one)?;
        }
    }
    Ok(stranded)
}

/// The number of printed jobs.
fn printed_in(prints: &[Print]) -> usize {
    let mut printed = 0usize;
    for print in prints {
        if print.ending == Ending::Printed {
            printed = printed.saturating_add(1);
        }
    }
    printed
}

/// Appends a count with its noun.
fn put_counted(page: Page, count: usize, one: &str) -> Page {
    let plural = if count == 1 { "" } else { "s" };
    page.put_shown(count).put(" ").put(one).put(plural)
}

/// The title of a chart, in one line. The only error is out of memory.
fn title_of(alloc: Global, day: &RecordedDay, prints: &[Print]) -> Result<String, AllocError> {
    let title = put_counted(
        Page::new(alloc).put("a day of "),
        day.devices.len(),
        "device",
    );
    put_counted(title.put(": "), day.jobs.len(), "job")
        .put(" came, ")
        .put_shown(printed_in(prints))
        .put(" printed")
        .finish()
}

/// The chart of a day with these jobs and prints. The only error is out of memory.
fn chart_with(
    alloc: Global,
    day: &RecordedDay,
    arrivals: &[Arrival],
    prints: &[Print],
) -> Result<Chart, AllocError> {
    chart_of_day(
        alloc,
        Day {
            title: title_of(alloc, day, prints)?,
            devices: &day.devices,
            arrivals,
            prints,
            stranded: stranded_of(alloc, day)?,
            notes: notes_of(alloc, day)?,
        },
    )
}

/// The chart of a day. The only error is out of memory.
fn chart_of(alloc: Global, day: &RecordedDay) -> Result<Chart, AllocError> {
    let arrivals = arrivals_of(alloc, &day.jobs)?;
    let prints = prints_of(alloc, day)?;
    chart_with(alloc, day, &arrivals, &prints)
}

/// A picture of a day.
fn draw(alloc: Global, day: &RecordedDay, form: Form) -> Result<String, AllocError> {
    let chart = chart_of(alloc, day)?;
    draw_charts(alloc, slice::from_ref(&chart), form)
}

/// Draws the day of a trace, whose text is that of a file of this name.
///
/// # Errors
///
/// The errors of [`read_day`].
pub fn draw_day(
    alloc: Global,
    file: &str,
    text: &[u8],
    first: JobId,
    form: Form,
) -> Result<String, DayFault> {
    let day = read_day(alloc, file, text, first)?;
    Ok(draw(alloc, &day, form)?)
}
