//! The number of jobs that wait, over time.

use crate::chart::{Bar, Chart, Lane, Mark};
use std::alloc::{AllocError, Global};

/// The number of jobs that wait from a moment on, in ms since the begin of the chart.
#[derive(Clone, Copy)]
pub(crate) struct WaitingStep {
    pub(crate) moment: u64,
    pub(crate) waiting: u64,
}

/// A job that begins to wait, or begins to be printed. At one moment the first come first.
#[derive(Clone, Copy, PartialEq, Eq, PartialOrd, Ord)]
struct Change {
    moment: u64,
    begins: bool,
}

/// The number of a job, and the moment at which a device begins it.
#[derive(Clone, Copy, PartialEq, Eq, PartialOrd, Ord)]
struct JobBegin {
    number: u32,
    start: u64,
}

/// Adds the jobs of a lane. The only error is out of memory.
fn add_begun(begun: &mut Vec<JobBegin>, lane: &Lane) -> Result<(), AllocError> {
    for bar in &lane.bars {
        if let Some(job) = bar.job() {
            begun.push(JobBegin {
                number: job.number,
                start: bar.start,
            })?;
        }
    }
    Ok(())
}

/// The jobs of a chart, by rising number, each with its first start. The only error is out of memory.
fn begun_in(alloc: Global, chart: &Chart) -> Result<Vec<JobBegin>, AllocError> {
    let mut begun = Vec::new(alloc);
    for lane in &chart.lanes {
        add_begun(&mut begun, lane)?;
    }
    begun.sort_unstable();
    begun.dedup_by_key(|job| job.number);
    Ok(begun)
}

/// Returns whether a device begins the job of a number.
fn is_begun(begun: &[JobBegin], number: u32) -> bool {
    begun
        .binary_search_by_key(&number, |job| job.number)
        .is_ok()
}

/// The moment at which the job of a bar comes, if a device begins it.
fn moment_in(begun: &[JobBegin], bar: &Bar) -> Option<u64> {
    match bar.mark {
        Mark::Came(number) if is_begun(begun, number) => Some(bar.start),
        _ => None,
    }
}

/// Adds the jobs of a lane that come. The only error is out of memory.
fn add_coming(
    changes: &mut Vec<Change>,
    begun: &[JobBegin],
    lane: &Lane,
) -> Result<(), AllocError> {
    for bar in &lane.bars {
        if let Some(moment) = moment_in(begun, bar) {
            changes.push(Change {
                moment,
                begins: false,
            })?;
        }
    }
    Ok(())
}

/// Adds jobs that all wait from the begin of the chart on. The only error is out of memory.
fn add_at_start(changes: &mut Vec<Change>, begun: &[JobBegin]) -> Result<(), AllocError> {
    for _ in begun {
        changes.push(Change {
            moment: 0,
            begins: false,
        })?;
    }
    Ok(())
}

/// The changes of a chart, in order. The only error is out of memory.
fn changes_of(alloc: Global, chart: &Chart, begun: &[JobBegin]) -> Result<Vec<Change>, AllocError> {
    let mut changes = Vec::new(alloc);
    if !chart.has_arrivals() {
        add_at_start(&mut changes, begun)?;
    }
    for lane in &chart.lanes {
        add_coming(&mut changes, begun, lane)?;
    }
    for job in begun {
        changes.push(Change {
            moment: job.start,
            begins: true,
        })?;
    }
    changes.sort_unstable();
    Ok(changes)
}

/// Adds a step, or changes the last one where it has the same moment. The only error is out of memory.
fn add_step(steps: &mut Vec<WaitingStep>, step: WaitingStep) -> Result<(), AllocError> {
    if let Some(last) = steps.last_mut()
        && last.moment == step.moment
    {
        *last = step;
        return Ok(());
    }
    steps.push(step)?;
    Ok(())
}

/// The number of jobs that wait in a chart, at each moment at which it changes: of the jobs that a device
/// begins, those that have come. Without arrivals all have come from the begin on. The only error is out of
/// memory.
pub(crate) fn waiting_in(alloc: Global, chart: &Chart) -> Result<Vec<WaitingStep>, AllocError> {
    let begun = begun_in(alloc, chart)?;
    let mut steps = Vec::new(alloc);
    let mut waiting = 0u64;
    for change in &changes_of(alloc, chart, &begun)? {
        waiting = if change.begins {
            waiting.saturating_sub(1)
        } else {
            waiting.saturating_add(1)
        };
        let moment = change.moment;
        add_step(&mut steps, WaitingStep { moment, waiting })?;
    }
    Ok(steps)
}

/// The most jobs that wait at one moment.
pub(crate) fn most_waiting(steps: &[WaitingStep]) -> u64 {
    let mut most = 0;
    for step in steps {
        most = step.waiting.max(most);
    }
    most
}
