//! The totals of a printer's jobs.
use crate::clock::Clock;
use base_types::PrinterId;
use job_objects::{Job, JobState};
use std::alloc::{AllocError, Global};

/// The totals of a printer's jobs since the ledger began, with those that ended.
#[derive(Clone, Copy, PartialEq, Eq)]
pub struct PrinterTotals {
    pub completed: u64,
    pub canceled: u64,
    pub aborted: u64,
    /// The ended jobs that a device had begun.
    pub begun: u64,
    /// The ms on the wall for which these jobs waited until then, together.
    pub waited: u64,
}

impl PrinterTotals {
    /// The totals of no jobs.
    pub fn none() -> PrinterTotals {
        PrinterTotals {
            completed: 0,
            canceled: 0,
            aborted: 0,
            begun: 0,
            waited: 0,
        }
    }

    /// Adds a job that has ended, by a clock.
    fn add(&mut self, clock: &Clock, job: &Job) {
        let count = match job.state {
            JobState::Completed => &mut self.completed,
            JobState::Canceled => &mut self.canceled,
            JobState::Aborted => &mut self.aborted,
            _ => return,
        };
        *count = count.saturating_add(1);
        if let Some(began) = job.started {
            let waited = clock.between(job.created.millis(), began.millis());
            self.begun = self.begun.saturating_add(1);
            self.waited = self.waited.saturating_add(waited);
        }
    }
}

/// The totals of each printer, in the order of the settings.
#[derive(Drop)]
pub(crate) struct Totals {
    printers: Vec<PrinterTotals>,
}

impl Totals {
    /// Creates the totals of this many printers, without jobs. The only error is out of memory.
    pub(crate) fn new(alloc: Global, printers: usize) -> Result<Totals, AllocError> {
        let mut totals = Vec::with_capacity(alloc, printers)?;
        for _ in 0..printers {
            totals.push(PrinterTotals::none())?;
        }
        Ok(Totals { printers: totals })
    }

    /// Adds a job that has ended, by a clock.
    pub(crate) fn add(&mut self, clock: &Clock, job: &Job) {
        if let Some(totals) = self.printers.get_mut(job.needs.printer.place()) {
            totals.add(clock, job);
        }
    }

    /// The totals of a printer.
    pub(crate) fn of(&self, printer: PrinterId) -> PrinterTotals {
        let totals = self.printers.get(printer.place()).copied();
        totals.unwrap_or(PrinterTotals::none())
    }
}
