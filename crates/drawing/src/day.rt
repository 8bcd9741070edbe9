//! The chart of a day: the moments at which jobs came, and the prints of each device.

use crate::chart::{Bar, Chart, ChartJob, Ending, Lane, Mark};
use base_types::{Limits, Stranded, Text};
use std::alloc::{AllocError, Global};

/// A job that came.
#[derive(Clone, Copy)]
pub struct Arrival {
    pub number: u32,
    pub priority: u8,
    /// The moment at which the job came, in ms since the begin of the day.
    pub moment: u64,
}

/// The print of a job on a device, from its start to its end, in ms since the begin of the day.
#[derive(Clone, Copy)]
pub struct Print {
    /// The place of the job among those that came.
    pub job: usize,
    /// The place of the device.
    pub device: usize,
    pub start: u64,
    pub end: u64,
    pub ending: Ending,
}

/// A day of some devices.
#[derive(Drop)]
pub struct Day<'a> {
    /// The subject of the day, in one line.
    pub title: String,
    /// The names of the devices.
    pub devices: &'a [Text],
    pub arrivals: &'a [Arrival],
    /// The prints, by rising start.
    pub prints: &'a [Print],
    /// The jobs that no device can print.
    pub stranded: Vec<Stranded>,
    /// Further sentences about jobs.
    pub notes: Vec<String>,
}

/// The name of the lane of the jobs that came.
const CAME: &[u8] = b"came";

/// Returns whether a job that came has this priority.
fn has_priority(arrivals: &[Arrival], priority: u8) -> bool {
    for job in arrivals {
        if job.priority == priority {
            return true;
        }
    }
    false
}

/// The priorities of the jobs, the highest first. The only error is out of memory.
fn classes_of(alloc: Global, arrivals: &[Arrival]) -> Result<Vec<u8>, AllocError> {
    let mut classes = Vec::new(alloc);
    for step in 0..=Limits::HIGHEST_PRIORITY {
        let priority = Limits::HIGHEST_PRIORITY - step;
        if has_priority(arrivals, priority) {
            classes.push(priority)?;
        }
    }
    Ok(classes)
}

/// The bars of the jobs that came. The only error is out of memory.
fn came_bars(alloc: Global, arrivals: &[Arrival]) -> Result<Vec<Bar>, AllocError> {
    let mut bars = Vec::new(alloc);
    for job in arrivals {
        bars.push(Bar {
            mark: Mark::Came(job.number),
            start: job.moment,
            end: job.moment,
        })?;
    }
    Ok(bars)
}

/// The place of a priority among the classes; 0 where the priority is not there.
fn class_of(classes: &[u8], priority: u8) -> usize {
    for (place, class) in classes.iter().enumerate() {
        if *class == priority {
            return place;
        }
    }
    0
}

/// The bar of a print on the device at a place; `None` where another device printed the job.
fn bar_of(day: &Day<'_>, classes: &[u8], place: usize, print: Print) -> Option<Bar> {
    if print.device != place {
        return None;
    }
    let job = day.arrivals.get(print.job)?;
    Some(Bar {
        mark: Mark::Job(ChartJob {
            number: job.number,
            class: class_of(classes, job.priority),
            ending: print.ending,
        }),
        start: print.start,
        end: print.end,
    })
}

/// The bars of the device at a place. The only error is out of memory.
fn bars_of(
    alloc: Global,
    day: &Day<'_>,
    classes: &[u8],
    place: usize,
) -> Result<Vec<Bar>, AllocError> {
    let mut bars = Vec::new(alloc);
    for print in day.prints {
        if let Some(bar) = bar_of(day, classes, place, *print) {
            bars.push(bar)?;
        }
    }
    Ok(bars)
}

/// The name of the device at a place; an empty name where there is no such device.
fn name_of(devices: &[Text], place: usize) -> &[u8] {
    match devices.get(place) {
        Some(name) => name.as_bytes(),
        None => b"",
    }
}

/// A lane of this name and these bars. The only error is out of memory.
fn lane_of(alloc: Global, name: &[u8], bars: Vec<Bar>) -> Result<Lane, AllocError> {
    let name = Text::copy_of(alloc, name)?;
    Ok(Lane { name, bars })
}

/// The lane of the jobs that came. The only error is out of memory.
fn came_lane(alloc: Global, arrivals: &[Arrival]) -> Result<Lane, AllocError> {
    let bars = came_bars(alloc, arrivals)?;
    lane_of(alloc, CAME, bars)
}

/// The lane of the device at a place. The only error is out of memory.
fn device_lane(
    alloc: Global,
    day: &Day<'_>,
    classes: &[u8],
    place: usize,
) -> Result<Lane, AllocError> {
    let bars = bars_of(alloc, day, classes, place)?;
    lane_of(alloc, name_of(day.devices, place), bars)
}

/// The lane of the jobs that came, and below it the lanes of the devices. The only error is out of memory.
fn lanes_of(alloc: Global, day: &Day<'_>, classes: &[u8]) -> Result<Vec<Lane>, AllocError> {
    let mut lanes = Vec::new(alloc);
    lanes.push(came_lane(alloc, day.arrivals)?)?;
    for place in 0..day.devices.len() {
        lanes.push(device_lane(alloc, day, classes, place)?)?;
    }
    Ok(lanes)
}

/// The time from the arrival of a job to the end of its print, in ms.
fn time_to_paper(arrivals: &[Arrival], print: &Print) -> u64 {
    match arrivals.get(print.job) {
        Some(job) if print.ending == Ending::Printed => print.end.saturating_sub(job.moment),
        _ => 0,
    }
}

/// The sum of the times to paper of the prints, in ms.
fn total_of(arrivals: &[Arrival], prints: &[Print]) -> u128 {
    let mut total = 0u128;
    for print in prints {
        total = total.saturating_add(u128::from(time_to_paper(arrivals, print)));
    }
    total
}

/// The chart of a day with these classes and lanes.
fn chart_with(day: Day<'_>, classes: Vec<u8>, lanes: Vec<Lane>) -> Chart {
    let total = total_of(day.arrivals, day.prints);
    Chart {
        title: day.title,
        lanes,
        classes,
        stranded: day.stranded,
        notes: day.notes,
        total,
    }
}

/// The chart of a day: a lane of the jobs that came, and a lane for each device. The only error is out of
/// memory.
pub fn chart_of_day(alloc: Global, day: Day<'_>) -> Result<Chart, AllocError> {
    let classes = classes_of(alloc, day.arrivals)?;
    let lanes = lanes_of(alloc, &day, &classes)?;
    Ok(chart_with(day, classes, lanes))
}
