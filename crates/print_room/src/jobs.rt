//! The calls for new jobs, for changes of jobs, and for jobs whose documents stopped coming.
ghost use Rattle.std.specs.Prelude.{◌≡◌, ◌≤◌, [], true, false, None, Some, IfOk, IfErr, OnOk, OnErr, length};
ghost use Rattle.job_objects.specs.declared.job_change.JobChange.TheVariants as Change;
ghost use Rattle.spool.specs.Calls.{new_refusal, cancel_refusal, IsRefusal};
ghost use Rattle.spool.specs.Jobs.{spooled_at};
ghost use Rattle.print_room.specs.Jobs.{Submits, is_operator, requester_of, sending_refusal, sending, asked_refusal, changing, canceling_refusal, canceling, expiring};
ghost use Rattle.print_room.specs.DeviceJobs.{AllKeep};

use crate::room::{PrintRoom, is_named};
use base_types::{JobId, Moment, Text};
use octets::Document;
use spool::{NewJob, Refused, RefusedDocument, Requester, SpoolRefusal};

/// The changes of jobs, at a moment that isn't before the last one. A refusal changes nothing.
impl PrintRoom {
    /// Takes a complete job under the next id: it is pending, or held.
    ///
    /// A refusal returns the job. Its causes, in this order: too large, busy, out of memory.
    pub fn submit(&mut self, job: NewJob, now: Moment) -> Result<JobId, Refused>
        requires { self.old.last ≤ now }
        ensures ok { IfOk result (λ id. Submits now self.old job false id self.new) }
        ensures kept { OnErr result (self.new ≡ self.old) }
        ensures keep { OnOk result (AllKeep self.old self.new) }
        ensures returned { IfErr result (λ refused. refused.job ≡ job) }
        ensures refused { IfErr result (λ refused. IsRefusal (new_refusal self.old.spool job.documents) refused.refusal) }
    {
        let id = self.spool.submit(job, false)?;
        self.good_for = None;
        self.advance(now);
        Ok(id)
    }

    /// Takes a job whose documents are still to come, under the next id.
    ///
    /// The causes of a refusal, in this order: busy, out of memory.
    pub fn create(&mut self, job: NewJob, now: Moment) -> Result<JobId, SpoolRefusal>
        requires later { self.old.last ≤ now }
        requires empty { job.documents ≡ [] }
        ensures ok { IfOk result (λ id. Submits now self.old job true id self.new) }
        ensures kept { OnErr result (self.new ≡ self.old) }
        ensures keep { OnOk result (AllKeep self.old self.new) }
        ensures refused { IfErr result (λ refusal. IsRefusal (new_refusal self.old.spool []) refusal) }
    {
        let id = match self.spool.submit(job, true) {
            Ok(id) => id,
            Err(refused) => return Err(refused.refusal),
        };
        self.good_for = None;
        self.advance(now);
        Ok(id)
    }

    /// Adds a document to a job whose documents are still to come (RFC 8011, section 4.3.1). With the last
    /// document the job is complete. A last document without octets isn't added.
    ///
    /// A refusal returns the document. Its causes, in this order: not found, not authorized, not possible,
    /// too large, out of memory.
    pub fn add_document(
        &mut self,
        id: JobId,
        name: &Text,
        document: Document,
        last: bool,
        now: Moment,
    ) -> Result<(), RefusedDocument>
        requires { self.old.last ≤ now }
        ensures ok { OnOk result ((sending_refusal id name.now (length document.contents) last self.old ≡ None) × (self.new ≡ sending now id document last self.old)) }
        ensures kept { OnErr result (self.new ≡ self.old) }
        ensures keep { OnOk result (AllKeep self.old self.new) }
        ensures returned { IfErr result (λ refused. refused.document ≡ document) }
        ensures refused { IfErr result (λ refused. IsRefusal (sending_refusal id name.now (length document.contents) last self.old) refused.refusal) }
    {
        let requester = self.requester(name);
        self.spool
            .add_document(id, &requester, document, last, now)?;
        self.good_for = None;
        self.advance(now);
        Ok(())
    }

    /// Returns why a document of this many octets isn't taken, if there is a cause other than out of memory.
    /// The call takes no memory.
    pub fn admits_document(
        &self,
        id: JobId,
        name: &Text,
        octets: usize,
        last: bool,
    ) -> Result<(), SpoolRefusal>
        ensures ok { OnOk result (sending_refusal id name.now octets last self.now ≡ None) }
        ensures refused { IfErr result (λ refusal. sending_refusal id name.now octets last self.now ≡ Some refusal) }
    {
        let requester = self.requester(name);
        self.spool.admits_document(id, &requester, octets, last)
    }

    /// Holds a job that waits (RFC 8011, section 4.3.5). The call takes no memory.
    ///
    /// The causes of a refusal, in this order: not found, not authorized, not possible.
    pub fn hold(&mut self, id: JobId, name: &Text, now: Moment) -> Result<(), SpoolRefusal>
        requires { self.old.last ≤ now }
        ensures ok { OnOk result ((asked_refusal id name.now Change.Hold now self.old ≡ None) × (self.new ≡ changing now id Change.Hold self.old)) }
        ensures kept { OnErr result (self.new ≡ self.old) }
        ensures keep { OnOk result (AllKeep self.old self.new) }
        ensures refused { IfErr result (λ refusal. asked_refusal id name.now Change.Hold now self.old ≡ Some refusal) }
    {
        let requester = self.requester(name);
        self.spool.hold(id, &requester, now)?;
        self.good_for = None;
        self.advance(now);
        Ok(())
    }

    /// Releases a job (RFC 8011, section 4.3.6): a held job isn't held any more, and a job that a device
    /// prints goes on. The call takes no memory.
    ///
    /// The causes of a refusal, in this order: not found, not authorized, not possible.
    pub fn release(&mut self, id: JobId, name: &Text, now: Moment) -> Result<(), SpoolRefusal>
        requires { self.old.last ≤ now }
        ensures ok { OnOk result ((asked_refusal id name.now Change.Release now self.old ≡ None) × (self.new ≡ changing now id Change.Release self.old)) }
        ensures kept { OnErr result (self.new ≡ self.old) }
        ensures keep { OnOk result (AllKeep self.old self.new) }
        ensures refused { IfErr result (λ refusal. asked_refusal id name.now Change.Release now self.old ≡ Some refusal) }
    {
        let requester = self.requester(name);
        self.spool.release(id, &requester, now)?;
        self.good_for = None;
        self.advance(now);
        Ok(())
    }

    /// Cancels a job that isn't finished (RFC 8011, section 4.3.3). A device that has the job keeps it until
    /// it reports that it is done. The call takes no memory.
    ///
    /// The causes of a refusal, in this order: not found, not authorized, not possible.
    pub fn cancel(&mut self, id: JobId, name: &Text, now: Moment) -> Result<(), SpoolRefusal>
        requires { self.old.last ≤ now }
        ensures ok { OnOk result ((canceling_refusal id name.now self.old ≡ None) × (self.new ≡ canceling now id name.now self.old)) }
        ensures kept { OnErr result (self.new ≡ self.old) }
        ensures keep { OnOk result (AllKeep self.old self.new) }
        ensures refused { IfErr result (λ refusal. canceling_refusal id name.now self.old ≡ Some refusal) }
    {
        let requester = self.requester(name);
        self.cancel_for(id, &requester, now)
    }

    /// Cancels a job that isn't finished; the requester states whether they are an operator. A device that has the
    /// job keeps it until it reports that it is done. The call takes no memory.
    ///
    /// The causes of a refusal, in this order: not found, not authorized, not possible.
    pub fn cancel_for(
        &mut self,
        id: JobId,
        requester: &Requester<'_>,
        now: Moment,
    ) -> Result<(), SpoolRefusal>
        requires { self.old.last ≤ now }
        ensures ok { OnOk result ((cancel_refusal requester.now (spooled_at id self.old.spool.jobs) ≡ None) × (self.new ≡ canceling now id requester.now.name self.old)) }
        ensures kept { OnErr result (self.new ≡ self.old) }
        ensures keep { OnOk result (AllKeep self.old self.new) }
        ensures refused { IfErr result (λ refusal. cancel_refusal requester.now (spooled_at id self.old.spool.jobs) ≡ Some refusal) }
    {
        self.spool.cancel(id, requester, now)?;
        self.good_for = None;
        self.advance(now);
        Ok(())
    }

    /// Returns why a cancel isn't made, if there is a cause. The call takes no memory.
    pub fn admits_cancel(&self, id: JobId, name: &Text) -> Result<(), SpoolRefusal>
        ensures ok { OnOk result (canceling_refusal id name.now self.now ≡ None) }
        ensures refused { IfErr result (λ refusal. canceling_refusal id name.now self.now ≡ Some refusal) }
    {
        let requester = self.requester(name);
        self.spool.admits_cancel(id, &requester)
    }

    /// The requester with a name.
    fn requester<'a>(&self, name: &'a Text) -> Requester<'a>
        ensures { result ≡ requester_of name.entry.now self.now }
    {
        Requester {
            name,
            is_operator: self.is_operator(name),
        }
    }

    /// Returns whether a name is an operator's.
    pub fn is_operator(&self, name: &Text) -> bool
        ensures { result ≡ is_operator name.now self.now }
    {
        is_named(&self.settings.operators, name.as_bytes())
    }

    /// Aborts the jobs whose documents stopped coming, and may forget the oldest of the finished jobs. The
    /// call takes no memory.
    pub fn expire(&mut self, now: Moment)
        requires { self.old.last ≤ now }
        ensures state { self.new ≡ expiring now self.old }
        ensures keep { AllKeep self.old self.new }
    {
        self.advance(now);
        self.spool.expire(now);
        self.good_for = None;
    }
}
