//! The ready jobs that are stranded.
ghost use Rattle.std.specs.Prelude.{◌≡◌, ◌==◌, map};
ghost use Rattle.std.specs.List.{list_any};
ghost use Rattle.spool.specs.Calls.{marked_by};
ghost use Rattle.spool.specs.OnDevice.{AllStay};

use crate::spool::Spool;
use crate::spooled::SpooledJob;
use base_types::{JobId, Stranded};
use job_objects::Printer;

/// Returns whether the job of an id has an entry.
fn has_entry(id: JobId, stranded: &[Stranded]) -> bool
    ensures { result ≡ list_any (λ e. e.job == id) stranded.now }
{
    stranded.iter().any(|entry| entry.job == id)
}

impl SpooledJob {
    /// Marks the job as stranded or not, by the entries, if it is ready.
    pub(crate) fn mark_by(&mut self, printers: &[Printer], stranded: &[Stranded])
        ensures after { self.new ≡ marked_by printers.now stranded.now self.old }
        ensures same_job { self.new.job.id ≡ self.old.job.id }
    {
        let spooled = &*self;
        if spooled.is_ready(printers) {
            let id = spooled.job().id;
            self.mark(has_entry(id, stranded));
        }
    }
}

impl Spool {
    /// Marks each ready job as stranded or not, by the entries.
    pub fn mark(&mut self, printers: &[Printer], stranded: &[Stranded])
        ensures jobs { self.new ≡ record self.old { jobs = map (marked_by printers.now stranded.now) self.old.jobs } }
        ensures stay { AllStay self.old.jobs self.new.jobs }
    {
        for place in self.leading()..self.len() {
            self.mark_by(place, printers, stranded);
        }
    }
}
