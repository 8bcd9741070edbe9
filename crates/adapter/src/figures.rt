//! The measurements of the printer, which are written after each job.
use adapter_core::{JobOrder, Measurement};
use base_types::Limits;
use job_objects::estimated_impressions;
use std::alloc::{AllocError, Global};

/// The printer's rates and its setup, if they are measured.
#[derive(Drop)]
pub(crate) struct AdapterFigures {
    alloc: Global,
    wanted: bool,
    now: u64,
    measurement: Measurement,
    text: Vec<u8>,
}

impl AdapterFigures {
    /// Creates the record of a printer without measurements.
    pub(crate) fn new(alloc: Global, wanted: bool) -> AdapterFigures {
        AdapterFigures {
            alloc,
            wanted,
            now: 0,
            measurement: Measurement::new(),
            text: Vec::new(alloc),
        }
    }

    /// Sets the time.
    pub(crate) fn set_now(&mut self, now: u64) {
        self.now = now;
    }

    /// Records that a job begins.
    pub(crate) fn begin(&mut self, order: &JobOrder) {
        let octets = (order.octets as usize).min(Limits::JOB_OCTETS);
        let impressions = estimated_impressions(None, octets).saturating_mul(order.copies);
        self.measurement.begin(order.sides, impressions, self.now);
    }

    /// The ms that the job should take, if the jobs before it determine that.
    pub(crate) fn expected(&self) -> Option<u64> {
        self.measurement.expected()
    }

    /// Records that this many impressions of the job are printed.
    pub(crate) fn pages(&mut self, printed: u32) {
        self.measurement.pages(printed, self.now);
    }

    /// Records that the job is done.
    pub(crate) fn finish(&mut self) {
        if self.measurement.finish(self.now) && self.wanted {
            let _added = self.add();
        }
    }

    /// Stops measuring the job: it has failed, or the printer doesn't print for a while.
    pub(crate) fn leave(&mut self) {
        self.measurement.leave();
    }

    /// Appends the measurements. If memory is refused, they are left out.
    fn add(&mut self) -> Result<(), AllocError> {
        let text = format!(in self.alloc; "{}", self.measurement)?;
        self.text.extend_from_slice(text.as_bytes())
    }

    /// Removes and returns the text since the last call.
    pub(crate) fn take(&mut self) -> Vec<u8> {
        std::mem::replace(&mut self.text, Vec::new(self.alloc))
    }
}
