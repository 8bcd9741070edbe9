//! The jobs that devices have for much longer than estimated.
use base_types::{Activity, JobId, Moment};
use dispatcher::Started;
use plan_prices::Planner;
use server::Engine;
use std::alloc::{AllocError, Global};

/// The ms of a second.
const SECOND: u64 = 1000;

/// The least lateness that counts, in ms.
const LEAST: u64 = 60_000;

/// A job that is overdue: its device has it still.
#[derive(Clone, Copy)]
pub(crate) struct Late {
    pub(crate) started: Started,
    /// The seconds by which it is late.
    pub(crate) seconds: u64,
}

/// A job that was reported as overdue.
#[derive(Clone, Copy)]
struct Reported {
    job: JobId,
    /// The lateness in ms at which the job is reported next.
    next: u64,
}

/// The ms by which a job of a running device is late: those since its estimated end. 0 if the device doesn't run
/// or hasn't the job.
pub fn lateness<P: Planner + Drop>(engine: &Engine<P>, started: Started, now: Moment) -> u64 {
    let Some(device) = engine.device(started.device) else {
        return 0;
    };
    match device.activity {
        Activity::Running(Some(printing)) if printing.job == started.job => {
            now.millis().saturating_sub(printing.end)
        }
        _ => 0,
    }
}

/// Returns whether a job that is late by this many ms is overdue: it is late by its whole estimated time, and by a
/// minute at least.
pub fn is_overdue(lateness: u64, estimated: u64) -> bool {
    lateness >= estimated.max(LEAST)
}

/// The jobs that devices have for much longer than estimated. A job is reported once it is late by its whole
/// estimated time, and by a minute at least; and again each time that its lateness has doubled. A plan counts
/// the device of such a job as free.
#[derive(Drop)]
pub(crate) struct Overdue {
    alloc: Global,
    reported: Vec<Reported>,
}

impl Overdue {
    /// Creates the list, without a job.
    pub(crate) fn new(alloc: Global) -> Overdue {
        Overdue {
            alloc,
            reported: Vec::new(alloc),
        }
    }

    /// Takes the jobs that are to be reported at a moment, of those that devices have. The only error is out
    /// of memory.
    pub(crate) fn take<P: Planner + Drop>(
        &mut self,
        engine: &Engine<P>,
        begun: &[Started],
        now: Moment,
    ) -> Result<Vec<Late>, AllocError> {
        let mut late = Vec::new(self.alloc);
        for started in begun {
            let lateness = lateness(engine, *started, now);
            if lateness > 0 && self.is_due(*started, lateness)? {
                late.push(Late {
                    started: *started,
                    seconds: lateness / SECOND,
                })?;
            }
        }
        self.reported.retain(|reported| begun.iter().any(|started| started.job == reported.job));
        Ok(late)
    }

    /// Returns whether a job that is late by this many ms is to be reported.
    fn is_due(&mut self, started: Started, lateness: u64) -> Result<bool, AllocError> {
        let next = lateness.saturating_mul(2);
        for reported in &mut self.reported {
            if reported.job == started.job {
                let due = lateness >= reported.next;
                if due {
                    reported.next = next;
                }
                return Ok(due);
            }
        }
        if !is_overdue(lateness, started.time) {
            return Ok(false);
        }
        self.reported.push(Reported {
            job: started.job,
            next,
        })?;
        Ok(true)
    }
}
