//! New jobs.
ghost use Rattle.std.specs.Prelude.{◌≡◌, IfOk, OnOk, OnErr, IfErr, None, Some};
ghost use Rattle.spool.specs.Calls.{is_full, new_refusal, IsRefusal, Takes};
ghost use Rattle.spool.specs.OnDevice.{AllStay};

use crate::new_job::{NewJob, formats_of, octets_within};
use crate::refusal::{Refused, SpoolRefusal};
use crate::spool::Spool;
use base_types::{JobId, Limits};
use octets::Document;

impl Spool {
    /// Returns whether the spool takes no further job: too many are unfinished, or the last id is used.
    pub fn is_full(&self) -> bool
        ensures { result ≡ is_full self.now }
    {
        self.unfinished() >= Limits::UNFINISHED_JOBS || self.next_id().is_none()
    }

    /// Returns the id that a job of these documents would get, or why it isn't taken.
    pub fn admits(&self, documents: &[Document]) -> Result<JobId, SpoolRefusal>
        ensures ok { IfOk result (λ id. (id ≡ self.now.next) × (new_refusal self.now documents.now ≡ None)) }
        ensures refused { IfErr result (λ refusal. new_refusal self.now documents.now ≡ Some refusal) }
    {
        if documents.len() > Limits::JOB_DOCUMENTS || octets_within(documents).is_none() {
            return Err(SpoolRefusal::TooLarge);
        }
        if self.unfinished() >= Limits::UNFINISHED_JOBS {
            return Err(SpoolRefusal::Busy);
        }
        self.next_id().ok_or(SpoolRefusal::Busy)
    }

    /// Takes a job under the next id. A complete job is pending, or held; `incoming` indicates that its documents
    /// are still to come.
    ///
    /// A refusal returns the job. Its causes, in this order: too large, busy, out of memory.
    pub fn submit(&mut self, new: NewJob, incoming: bool) -> Result<JobId, Refused>
        ensures ok { IfOk result (λ id. Takes self.old new incoming id self.new) }
        ensures kept { OnErr result (self.new ≡ self.old) }
        ensures stay { OnOk result (AllStay self.old.jobs self.new.jobs) }
        ensures returned { IfErr result (λ refused. refused.job ≡ new) }
        ensures refused { IfErr result (λ refused. IsRefusal (new_refusal self.old new.documents) refused.refusal) }
    {
        let id = match self.admits(&new.documents) {
            Ok(id) => id,
            Err(refusal) => return Err(Refused { refusal, job: new }),
        };
        let Ok(formats) = formats_of(self.allocator(), &new.documents) else {
            let refusal = SpoolRefusal::OutOfMemory;
            return Err(Refused { refusal, job: new });
        };
        match self.append(id, new, formats, incoming) {
            Ok(()) => Ok(id),
            Err(job) => {
                let refusal = SpoolRefusal::OutOfMemory;
                Err(Refused { refusal, job })
            }
        }
    }
}
