//! The jobs that may be planned.
ghost use Rattle.std.specs.Prelude.{◌≡◌, map};
ghost use Rattle.std.specs.List.Sorted.{IsStrictlyIncreasing};
ghost use Rattle.spool.specs.Calls.{is_ready, paused_at};
ghost use Rattle.spool.specs.Ready.{ready_rest, ready_jobs};

use crate::spool::Spool;
use crate::spooled::SpooledJob;
use base_types::PrinterId;
use job_objects::{Job, Printer};

/// Returns whether a printer is paused.
pub fn is_paused(printers: &[Printer], printer: PrinterId) -> bool
    ensures { result ≡ paused_at printers.now printer }
{
    match printers.get(printer.place()) {
        Some(printer) => printer.is_paused(),
        None => false,
    }
}

impl SpooledJob {
    /// Returns whether the job is ready: it is pending, and its printer isn't paused.
    pub fn is_ready(&self, printers: &[Printer]) -> bool
        ensures { result ≡ is_ready printers.now self.now.job }
    {
        let job = self.job();
        job.state.is_pending() && !is_paused(printers, job.needs.printer)
    }
}

/// The ready jobs of a spool, by rising id.
#[derive(Drop)]
pub struct Ready<'a> {
    jobs: &'a [SpooledJob],
    printers: &'a [Printer],
}

impl<'a> Iterator for Ready<'a> {
    ghost use Rattle.std.specs.Iterator.{YieldsFirstRef, item_count};
    ghost use Rattle.spool.specs.Ready.{ready_rest};

    type Item = &'a Job;

    ghost next_gives = { YieldsFirstRef ready_rest };

    ghost remaining = { item_count ready_rest };

    fn next(&mut self) -> Option<&'a Job> {
        while let Some((spooled, others)) = self.jobs.split_first() {
            self.jobs = others;
            if spooled.is_ready(self.printers) {
                return Some(spooled.job());
            }
        }
        None
    }
}

impl Spool {
    /// The ready jobs: those that are pending and whose printer isn't paused, by rising id.
    pub fn ready<'a>(&'a self, printers: &'a [Printer]) -> Ready<'a>
        ensures jobs { ready_rest result ≡ ready_jobs printers.now self.now.jobs }
        ensures rising { IsStrictlyIncreasing (map (λ job. job.id) (ready_rest result)) }
    {
        Ready {
            jobs: self.after_finished(),
            printers,
        }
    }
}
