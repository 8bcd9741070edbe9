//! A job with its documents.
ghost use Rattle.std.specs.Prelude.{◌≡◌, ◌≤◌, ◌<◌, ◌+◌, [], OnOk, OnErr, IfErr, length, is_ok, is_some, if◌then◌else◌};
ghost use Rattle.job_objects.specs.JobStep.{job_after};
ghost use Rattle.spool.specs.Spooled.{changed, on_device_after, let_go, reported, handed_out, retired, is_retired, counted, attached, expired, is_overdue, marked};

use base_types::{Limits, Moment, Text};
use job_objects::{Job, JobChange, StateRefusal, estimated_impressions, job_step};
use octets::Document;
use std::alloc::{AllocError, Global};
use std::marker::Model;
use std::mem;

/// A job with its documents. In clauses it is a record of the same fields.
#[derive(Drop)]
pub struct SpooledJob {
    pub(crate) job: Job,
    /// The documents, until they are handed out or dropped.
    pub(crate) documents: Vec<Document>,
    /// The moment of the last document, or of the job's creation.
    pub(crate) arrived: Moment,
    /// Whether a device has the job. A device keeps a canceled job until it reports that it is done.
    pub(crate) on_device: bool,
}

impl Model for SpooledJob {
    ghost use Rattle.spool.specs.Spooled.{SpooledRecord};

    ghost Value = { SpooledRecord };

    ghost view = { λ s. record {
      job = s.job;
      documents = s.documents.items;
      arrived = s.arrived;
      on_device = s.on_device;
    } };
}

impl SpooledJob {
    /// The job.
    pub fn job(&self) -> &Job
        ensures { result.now ≡ self.now.job }
    {
        &self.job
    }

    /// The documents, until they are handed out or dropped.
    pub fn documents(&self) -> &[Document]
        ensures { result.now ≡ self.now.documents }
    {
        &self.documents
    }

    /// Returns whether a device has the job.
    pub fn is_on_device(&self) -> bool
        ensures { result ≡ self.now.on_device }
    {
        self.on_device
    }

    /// Returns whether the job is finished and no device has it.
    pub(crate) fn is_retired(&self) -> bool
        ensures { result ≡ is_retired self.now }
    {
        self.job.state.is_finished() && !self.on_device
    }

    /// Drops the documents, if the job is finished and no device has it.
    fn retire(&mut self)
        ensures after { self.new ≡ retired self.old }
        ensures same_job { self.new.job.id ≡ self.old.job.id }
    {
        let spooled = &*self;
        if spooled.is_retired() {
            self.documents.clear();
        }
    }

    /// Makes a change that isn't a device's end of the job. A refusal leaves the job unchanged.
    pub(crate) fn change(&mut self, change: JobChange, now: Moment) -> Result<(), StateRefusal>
        ensures possible { is_ok result ≡ is_some (job_after change now self.old.job) }
        ensures after { self.new ≡ changed change now self.old }
        ensures kept { OnErr result (self.new ≡ self.old) }
        ensures same_job { self.new.job.id ≡ self.old.job.id }
    {
        job_step(&mut self.job, change, now)?;
        self.on_device = on_device_after(change, self.on_device);
        self.retire();
        Ok(())
    }

    /// Makes a change that a device reports. If the change ends the print, the device has the job no more, and
    /// the job's documents are returned.
    pub(crate) fn report(&mut self, alloc: Global, change: JobChange, now: Moment) -> Vec<Document>
        ensures documents { result.items ≡ handed_out change self.old }
        ensures after { self.new ≡ reported change now self.old }
        ensures same_job { self.new.job.id ≡ self.old.job.id }
    {
        if change.ends_print() {
            return self.let_go(alloc, change, now);
        }
        let _refused = self.change(change, now);
        Vec::new(alloc)
    }

    /// Ends the job on its device, with a change of the job unless it is finished. Returns its documents.
    fn let_go(&mut self, alloc: Global, change: JobChange, now: Moment) -> Vec<Document>
        ensures documents { result.items ≡ (if self.old.on_device then self.old.documents else []) }
        ensures after { self.new ≡ let_go change now self.old }
        ensures same_job { self.new.job.id ≡ self.old.job.id }
    {
        let none = Vec::new(alloc);
        if !self.on_device {
            return none;
        }
        self.on_device = false;
        let _refused = job_step(&mut self.job, change, now);
        mem::replace(&mut self.documents, none)
    }

    /// Marks the job as stranded or not.
    pub(crate) fn mark(&mut self, stranded: bool)
        ensures after { self.new ≡ marked stranded self.old }
        ensures same_job { self.new.job.id ≡ self.old.job.id }
    {
        self.job.stranded = stranded;
    }

    /// Aborts the job, if documents are still to come and none came for [`Limits::INCOMING_JOB_TIME`].
    pub(crate) fn expire(&mut self, now: Moment)
        ensures after { self.new ≡ expired now self.old }
        ensures same_job { self.new.job.id ≡ self.old.job.id }
    {
        let spooled = &*self;
        if spooled.is_overdue(now) {
            let _refused = self.change(JobChange::Fail, now);
        }
    }

    /// Returns whether documents are still to come and none came for [`Limits::INCOMING_JOB_TIME`].
    fn is_overdue(&self, now: Moment) -> bool
        ensures { result ≡ is_overdue now self.now }
    {
        let waited = now.millis().saturating_sub(self.arrived.millis());
        self.job.incoming && waited >= Limits::INCOMING_JOB_TIME
    }

    /// Adds a document. If memory is refused, returns the document, and the job is unchanged.
    pub(crate) fn attach(
        &mut self,
        alloc: Global,
        document: Document,
        now: Moment,
    ) -> Result<(), Document>
        requires documents { self.old.job.documents < Limits.JOB_DOCUMENTS }
        requires octets { self.old.job.octets + length document.contents ≤ Limits.JOB_OCTETS }
        ensures ok { OnOk result (self.new ≡ attached document now self.old) }
        ensures kept { OnErr result (self.new ≡ self.old) }
        ensures back { IfErr result (λ back. back ≡ document) }
        ensures same_job { self.new.job.id ≡ self.old.job.id }
    {
        let Ok(format) = document.format.copied(alloc) else {
            return Err(document);
        };
        if self.documents.reserve(1).is_err() {
            return Err(document);
        }
        if count_document(&mut self.job, format, document.contents.len()).is_err() {
            return Err(document);
        }
        self.documents.push(document).unwrap();
        self.arrived = now;
        Ok(())
    }
}

/// Returns whether a device has the job after a change. `on_device` indicates whether one had it before.
fn on_device_after(change: JobChange, on_device: bool) -> bool
    ensures { result ≡ on_device_after change on_device }
{
    match change {
        JobChange::Begin => true,
        JobChange::Close | JobChange::Hold | JobChange::Release | JobChange::Cancel(_) => on_device,
        JobChange::Stop | JobChange::Continue | JobChange::Done | JobChange::Fail => on_device,
    }
}

/// Counts one more document of the job, and estimates its impressions anew. The only error is out of memory.
fn count_document(job: &mut Job, format: Text, octets: usize) -> Result<(), AllocError>
    requires documents { job.old.documents < Limits.JOB_DOCUMENTS }
    requires octets { job.old.octets + octets ≤ Limits.JOB_OCTETS }
    ensures ok { OnOk result (job.new ≡ counted format octets job.old) }
    ensures kept { OnErr result (job.new ≡ job.old) }
    ensures same_job { job.new.id ≡ job.old.id }
{
    job.needs.formats.push(format)?;
    job.documents += 1;
    job.octets += octets;
    job.needs.impressions = estimated_impressions(job.impressions, job.octets);
    Ok(())
}
