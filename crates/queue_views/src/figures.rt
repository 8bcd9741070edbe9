//! The figures of a printer.
use crate::view::{Prospect, QueueView};
use base_types::{Moment, PrinterId};

/// A job that was printed.
#[derive(Clone, Copy)]
pub struct PrintedJob {
    pub printer: PrinterId,
    pub ended: Moment,
    /// The ms on the wall from the moment at which the job came until it was printed.
    pub time: u64,
}

/// The figures of a printer.
#[derive(Clone, Copy, PartialEq, Eq)]
pub struct Figures {
    /// The unfinished jobs that no device has.
    pub waiting: u64,
    /// The jobs that were printed.
    pub printed: u64,
    /// The mean time in ms from the moment at which such a job came until it was printed; `None` if there is none.
    pub mean: Option<u64>,
}

impl QueueView {
    /// The figures of a printer, of the jobs that were printed from a moment in ms on. That may be two days before
    /// the view at most.
    pub fn figures(&self, printer: PrinterId, since: u64) -> Figures {
        let mut printed = 0_u64;
        let mut total = 0_u64;
        for job in &self.printed {
            if job.printer == printer && job.ended.millis() >= since {
                printed = printed.saturating_add(1);
                total = total.saturating_add(job.time);
            }
        }
        Figures {
            waiting: self.waiting(printer),
            printed,
            mean: total.checked_div(printed),
        }
    }

    /// The number of unfinished jobs of a printer that no device has.
    fn waiting(&self, printer: PrinterId) -> u64 {
        let mut waiting = 0_u64;
        for job in &self.jobs {
            let taken = matches!(&job.prospect, Prospect::Taken { .. });
            if job.printer == printer && !taken {
                waiting = waiting.saturating_add(1);
            }
        }
        waiting
    }
}
