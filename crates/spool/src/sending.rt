//! The documents that are added after their job was made.
ghost use Rattle.std.specs.Prelude.{◌≡◌, ◌<◌, OnOk, OnErr, IfErr, None, Some, false, length};
ghost use Rattle.job_objects.specs.declared.job_change.JobChange.TheVariants as Change;
ghost use Rattle.spool.specs.Jobs.{spooled_at};
ghost use Rattle.spool.specs.Calls.{IsRefusal, adds, is_too_large, taking_refusal, document_refusal, with_document, closed_if};
ghost use Rattle.spool.specs.OnDevice.{is_on_device, AllStay};

use crate::refusal::{RefusedDocument, SpoolRefusal};
use crate::requester::Requester;
use crate::spool::Spool;
use base_types::{JobId, Limits, Moment};
use job_objects::{Job, JobChange};
use octets::Document;

/// Returns whether a document of this number of octets is added to its job: an empty last document isn't.
fn adds(octets: usize, last: bool) -> bool
    ensures { result ≡ adds octets last }
{
    !last || octets > 0
}

/// Returns whether one more document with this many octets exceeds a limit of the job.
fn is_too_large(job: &Job, octets: usize) -> bool
    ensures { result ≡ is_too_large octets job.now }
{
    job.documents >= Limits::JOB_DOCUMENTS || octets > Limits::JOB_OCTETS - job.octets
}

impl Spool {
    /// Adds a document to a job whose documents are still to come (RFC 8011, section 4.3.1). With the last
    /// document the job is complete. A last document without octets isn't added.
    ///
    /// A refusal returns the document and changes nothing. Its causes, in this order: not found, not
    /// authorized, not possible, too large, out of memory.
    pub fn add_document(
        &mut self,
        id: JobId,
        requester: &Requester<'_>,
        document: Document,
        last: bool,
        now: Moment,
    ) -> Result<(), RefusedDocument>
        ensures ok { OnOk result ((document_refusal requester.now (length document.contents) last (spooled_at id self.old.jobs) ≡ None) × (self.new ≡ record self.old { jobs = closed_if last id now (with_document (adds (length document.contents) last) id document now self.old.jobs) })) }
        ensures kept { OnErr result (self.new ≡ self.old) }
        ensures stay { OnOk result (AllStay self.old.jobs self.new.jobs) }
        ensures returned { IfErr result (λ refused. refused.document ≡ document) }
        ensures refused { IfErr result (λ refused. IsRefusal (document_refusal requester.now (length document.contents) last (spooled_at id self.old.jobs)) refused.refusal) }
    {
        let octets = document.contents.len();
        let added = adds(octets, last);
        let spool = &*self;
        if let Err(refusal) = spool.admits_document(id, requester, octets, last) {
            return Err(RefusedDocument { refusal, document });
        }
        if let Err(document) = self.attach_if(added, id, document, now) {
            let refusal = SpoolRefusal::OutOfMemory;
            return Err(RefusedDocument { refusal, document });
        }
        self.close_if(last, id, now);
        Ok(())
    }

    /// Returns why a document of this many octets isn't taken, if there is a cause other than out of memory.
    pub fn admits_document(
        &self,
        id: JobId,
        requester: &Requester<'_>,
        octets: usize,
        last: bool,
    ) -> Result<(), SpoolRefusal>
        ensures ok { OnOk result (document_refusal requester.now octets last (spooled_at id self.now.jobs) ≡ None) }
        ensures off { OnOk result (is_on_device id self.now.jobs ≡ false) }
        ensures refused { IfErr result (λ refusal. document_refusal requester.now octets last (spooled_at id self.now.jobs) ≡ Some refusal) }
    {
        self.may_change(id, requester)?;
        self.may_take(id, octets, adds(octets, last))
    }

    /// Checks that a job takes a document of this many octets. `added` indicates whether the document is added.
    fn may_take(&self, id: JobId, octets: usize, added: bool) -> Result<(), SpoolRefusal>
        ensures ok { OnOk result (taking_refusal octets added (spooled_at id self.now.jobs) ≡ None) }
        ensures off { OnOk result (is_on_device id self.now.jobs ≡ false) }
        ensures refused { IfErr result (λ refusal. taking_refusal octets added (spooled_at id self.now.jobs) ≡ Some refusal) }
    {
        let Some(spooled) = self.spooled(id) else {
            return Ok(());
        };
        let job = spooled.job();
        if !job.incoming {
            return Err(SpoolRefusal::NotPossible);
        }
        if added && is_too_large(job, octets) {
            return Err(SpoolRefusal::TooLarge);
        }
        Ok(())
    }

    /// Adds a document, if `added` is true.
    fn attach_if(
        &mut self,
        added: bool,
        id: JobId,
        document: Document,
        now: Moment,
    ) -> Result<(), Document>
        requires taking { taking_refusal (length document.contents) added (spooled_at id self.old.jobs) ≡ None }
        requires off { is_on_device id self.old.jobs ≡ false }
        ensures ok { OnOk result (self.new ≡ record self.old { jobs = with_document added id document now self.old.jobs }) }
        ensures stay { OnOk result (AllStay self.old.jobs self.new.jobs) }
        ensures kept { OnErr result (self.new ≡ self.old) }
        ensures back { IfErr result (λ back. back ≡ document) }
    {
        if !added {
            return Ok(());
        }
        self.attach(id, document, now)
    }

    /// Marks the job as complete, if the document was the last.
    fn close_if(&mut self, last: bool, id: JobId, now: Moment)
        ensures jobs { self.new ≡ record self.old { jobs = closed_if last id now self.old.jobs } }
        ensures stay { AllStay self.old.jobs self.new.jobs }
    {
        if last {
            let _refused = self.change(id, JobChange::Close, now);
        }
    }
}
