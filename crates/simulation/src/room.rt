//! The room, which assigns jobs to devices: a core, or a policy.

use crate::queue::{Queue, Start};
use std::alloc::AllocError;

/// A room decides which job a device begins. It is notified of the jobs that come and end.
pub(crate) trait Room {
    /// Takes the job at a place of the day, which comes now.
    fn take(&mut self, job: usize, now: u64) -> Result<(), AllocError>;

    /// Records that a job ends on its device.
    fn end(&mut self, ended: Start, now: u64) -> Result<(), AllocError>;

    /// Returns the next job that begins now, if there is one.
    fn start(&mut self, now: u64) -> Option<Start>;
}

impl Room for Queue<'_> {
    fn take(&mut self, job: usize, _now: u64) -> Result<(), AllocError> {
        Queue::take(self, job)
    }

    fn end(&mut self, ended: Start, _now: u64) -> Result<(), AllocError> {
        self.free(ended.device);
        Ok(())
    }

    fn start(&mut self, now: u64) -> Option<Start> {
        Queue::start(self, now)
    }
}
