//! Jobs that take longer than the printer's jobs before them.

/// By how many ms a job is overdue before the server is notified.
const FIRST: u64 = 10_000;

/// The most ms that a report has.
const MOST: u64 = 2_147_483_647;

/// When the job in hand should have ended, and what of that was reported to the server. An overdue device counts as
/// busy for as long again as it is late.
#[derive(Clone, Copy)]
pub(crate) struct OverdueJob {
    /// The moment at which the job should have ended, if that is known.
    due: Option<u64>,
    /// By how many ms the job is late at the next report.
    late: u64,
    reported: bool,
}

impl OverdueJob {
    /// Creates the record of no job.
    pub(crate) fn none() -> OverdueJob {
        OverdueJob {
            due: None,
            late: FIRST,
            reported: false,
        }
    }

    /// Creates the record of a job that begins, and should take this many ms.
    pub(crate) fn begun(expected: Option<u64>, now: u64) -> OverdueJob {
        OverdueJob {
            due: expected.map(|ms| now.saturating_add(ms)),
            late: FIRST,
            reported: false,
        }
    }

    /// Returns for how many ms the server is to take the device as busy, if a report is due.
    pub(crate) fn take_late(&mut self, now: u64) -> Option<u32> {
        if self.left(now)? > 0 {
            return None;
        }
        let late = self.late.min(MOST);
        self.late = self.late.saturating_mul(2);
        self.reported = true;
        Some(late as u32)
    }

    /// Returns the ms until the next report, if there may be one.
    pub(crate) fn left(self, now: u64) -> Option<u64> {
        let due = self.due?;
        Some(due.saturating_add(self.late).saturating_sub(now))
    }

    /// Ends the job. Returns whether the server takes the device as busy.
    pub(crate) fn end(&mut self) -> bool {
        std::mem::replace(self, OverdueJob::none()).reported
    }
}
