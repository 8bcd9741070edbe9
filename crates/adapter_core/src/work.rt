//! A job in hand.
ghost use Rattle.std.specs.Prelude.{◌≡◌, ◌≤◌, ◌+◌, ◌==◌, [], true, false, OnOk, OnErr, length};
ghost use Rattle.base_types.specs.Report.{report_of};
ghost use Rattle.adapter_core.specs.AdapterState.{begun, with_came, with_sent, with_copy, with_restart, with_cancel, due_of, copy_sent_of, end_report, fail_report, pages_report};

use base_types::{JobId, Report};
use std::alloc::{AllocError, Global};
use std::marker::Model;

/// A job in hand, with those of its octets that have come. In clauses it is a record of them.
#[derive(Drop)]
pub(crate) struct Work {
    job: JobId,
    octets: u32,
    times: u32,
    came: Vec<u8>,
    /// The number of octets of this copy that are sent.
    sent: usize,
    /// The number of copies that were sent before.
    copies: u32,
    canceled: bool,
}

impl Model for Work {
    ghost use Rattle.std.specs.Prelude.{◌≤◌, length};
    ghost use Rattle.adapter_core.specs.AdapterState.{WorkRecord};

    ghost Value = { WorkRecord };

    ghost view = { λ w. record {
      job = w.job;
      octets = w.octets;
      times = w.times;
      came = w.came.items;
      sent = w.sent;
      copies = w.copies;
      canceled = w.canceled;
    } };

    ghost invariant = { λ w. (w.sent ≤ length w.came.items) × (length w.came.items ≤ w.octets) × (w.copies ≤ w.times) };
}

impl Work {
    /// Creates a job of which no octets have come.
    pub(crate) fn new(alloc: Global, job: JobId, octets: u32, times: u32) -> Work
        ensures { result ≡ begun job octets times }
    {
        Work {
            job,
            octets,
            times,
            came: Vec::new(alloc),
            sent: 0,
            copies: 0,
            canceled: false,
        }
    }

    /// The id of the job.
    pub(crate) fn job(&self) -> JobId
        ensures { result ≡ self.now.job }
    {
        self.job
    }

    /// Returns how many octets are still to come.
    pub(crate) fn room(&self) -> usize
        ensures { length self.now.came + result ≡ self.now.octets }
    {
        self.octets as usize - self.came.len()
    }

    /// Takes octets of the job. The only error is out of memory.
    pub(crate) fn take(&mut self, octets: &[u8]) -> Result<(), AllocError>
        requires { length self.old.came + length octets.now ≤ self.old.octets }
        ensures ok { OnOk result (self.new ≡ with_came octets.now self.old) }
        ensures err { OnErr result (self.new ≡ self.old) }
    {
        self.came.extend_from_slice(octets)
    }

    /// The octets that may be sent now.
    pub(crate) fn due(&self) -> &[u8]
        ensures { result.now ≡ due_of self.now }
    {
        if self.canceled || self.copies >= self.times {
            return &[];
        }
        &self.came[self.sent..]
    }

    /// Records that `count` of the octets that are due are sent.
    pub(crate) fn send(&mut self, count: usize)
        requires { count ≤ length (due_of self.old) }
        ensures { self.new ≡ with_sent count self.old }
    {
        self.sent += count;
    }

    /// Returns whether a copy is sent to its end.
    pub(crate) fn is_copy_sent(&self) -> bool
        ensures { result ≡ copy_sent_of self.now }
    {
        self.copies < self.times && self.sent == self.octets as usize
    }

    /// Goes on with the next copy.
    pub(crate) fn end_copy(&mut self)
        requires { copy_sent_of self.old ≡ true }
        ensures { self.new ≡ with_copy self.old }
    {
        self.sent = 0;
        self.copies += 1;
    }

    /// Goes on with the first copy, of which nothing is sent.
    pub(crate) fn restart(&mut self)
        ensures { self.new ≡ with_restart self.old }
    {
        self.sent = 0;
        self.copies = 0;
    }

    /// Returns whether the job was sent as often as it is to be.
    pub(crate) fn is_sent(&self) -> bool
        ensures { result ≡ (self.now.copies == self.now.times) }
    {
        self.copies == self.times
    }

    /// Cancels the job, if it has this id: no more octets of it are sent.
    pub(crate) fn cancel(&mut self, job: JobId)
        ensures { self.new ≡ with_cancel job self.old }
    {
        if self.job == job {
            self.canceled = true;
        }
    }

    /// The report that the printer has printed the job.
    pub(crate) fn end_report(&self) -> Report
        ensures { report_of result ≡ end_report self.now }
    {
        let job = self.job.number();
        if self.is_sent() {
            Report::Done { job }
        } else {
            Report::Fail { job }
        }
    }

    /// The report that the job can't be printed.
    pub(crate) fn fail_report(&self) -> Report
        ensures { report_of result ≡ fail_report self.now }
    {
        Report::Fail {
            job: self.job.number(),
        }
    }

    /// The report that this many impressions are printed.
    pub(crate) fn pages_report(&self, printed: u32) -> Report
        ensures { report_of result ≡ pages_report printed self.now }
    {
        Report::Pages {
            job: self.job.number(),
            printed,
        }
    }
}
