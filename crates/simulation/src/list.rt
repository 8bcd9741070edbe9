//! The jobs of a day as a list that can be played in other ways.

use crate::draft::ListedJob;
use crate::fault::{DayFault, refused};
use crate::job::{RecordedJob, copy_of};
use crate::read::RecordedDay;
use base_types::{Needs, PrinterId};
use drawing::Page;
use settings_file::Settings;
use std::alloc::{AllocError, Global};

/// The printer of some settings with the name of a day's printer.
fn printer_in(day: &RecordedDay, printer: PrinterId, settings: &Settings) -> Option<PrinterId> {
    let name = day.printers.get(printer.place())?;
    settings.printer_named(name.as_bytes())
}

/// The fault that the settings lack the printer of a job.
fn no_printer(alloc: Global, day: &RecordedDay, job: &RecordedJob, printer: PrinterId) -> DayFault {
    let number = job.id.number();
    let name = match day.printers.get(printer.place()) {
        Some(name) => str::from_utf8(name.as_bytes()).unwrap_or("?"),
        None => "?",
    };
    let sentence = Page::new(alloc).put("the settings have no printer \"");
    let sentence = sentence.put(name).put("\", to which job ");
    refused(sentence.put_shown(number).put(" goes"))
}

/// The needs of a job, for the printer of other settings. Of several documents the format of the first
/// counts.
fn needs_at(alloc: Global, needs: &Needs, printer: PrinterId) -> Result<Needs, AllocError> {
    let mut moved = copy_of(alloc, needs)?;
    moved.printer = printer;
    moved.formats.truncate(1);
    Ok(moved)
}

/// The job at a place as one of a list. `None` if it was canceled or aborted before a device had it.
fn listed_job(
    alloc: Global,
    day: &RecordedDay,
    place: usize,
    settings: &Settings,
) -> Result<Option<ListedJob>, DayFault> {
    let Some(job) = day.jobs.get(place) else {
        return Ok(None);
    };
    let Some(needs) = &job.needs else {
        return Ok(None);
    };
    if job.state.is_finished() && !job.begun {
        return Ok(None);
    }
    let Some(printer) = printer_in(day, needs.printer, settings) else {
        return Err(no_printer(alloc, day, job, needs.printer));
    };
    Ok(Some(ListedJob {
        moment: job.came,
        priority: job.priority,
        needs: needs_at(alloc, needs, printer)?,
    }))
}

/// The jobs of a day for some settings, in the order in which they became ready, each with that moment. A job
/// that was canceled or aborted before a device had it is left out; the end of any other job makes no
/// difference. Of several documents the format of the first counts.
///
/// # Errors
///
/// The settings lack a printer with the name of one of the day's, or memory was refused.
pub fn listed_jobs(
    alloc: Global,
    day: &RecordedDay,
    settings: &Settings,
) -> Result<Vec<ListedJob>, DayFault> {
    let mut jobs = Vec::new(alloc);
    for place in &day.ready {
        if let Some(job) = listed_job(alloc, day, *place, settings)? {
            jobs.push(job)?;
        }
    }
    Ok(jobs)
}
