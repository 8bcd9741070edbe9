//! The changes that devices make of jobs.
ghost use Rattle.std.specs.Prelude.{◌≡◌, false};
ghost use Rattle.job_objects.specs.JobStep.{ends_print};
ghost use Rattle.job_objects.specs.declared.job_change.JobChange.TheVariants as Change;
ghost use Rattle.spool.specs.Spooled.{changed};
ghost use Rattle.spool.specs.Kept.{jobs_reported};
ghost use Rattle.spool.specs.Jobs.{with_job, documents_released};
ghost use Rattle.spool.specs.OnDevice.{AllStay, OthersStay};

use crate::spool::Spool;
use base_types::{JobId, Moment};
use job_objects::JobChange;
use octets::Document;

/// The changes that devices make of jobs. An id that no job has, and a change that a job's state doesn't
/// allow, change nothing.
impl Spool {
    /// Begins a pending job on a device.
    pub fn begin(&mut self, id: JobId, now: Moment)
        ensures jobs { self.new ≡ record self.old { jobs = with_job id (changed Change.Begin now) self.old.jobs } }
        ensures stay { AllStay self.old.jobs self.new.jobs }
    {
        let _refused = self.change(id, JobChange::Begin, now);
    }

    /// Makes a change of a job that its device reports. If the change ends the print, the device has the job no
    /// more, and the job's documents are returned.
    pub fn report(&mut self, id: JobId, change: JobChange, now: Moment) -> Vec<Document>
        ensures documents { result.items ≡ documents_released id change self.old.jobs }
        ensures jobs { self.new ≡ record self.old { jobs = jobs_reported id change now self.old.jobs } }
        ensures others { OthersStay id self.old.jobs self.new.jobs }
        ensures stay { ends_print change ≡ false → AllStay self.old.jobs self.new.jobs }
    {
        let documents = self.report_job(id, change, now);
        if change.ends_print() {
            self.forget();
        }
        documents
    }
}
