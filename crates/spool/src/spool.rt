//! The spool and the changes of one job.
ghost use Rattle.std.specs.Prelude.{◌≡◌, ◌≤◌, ◌<◌, ◌+◌, ◌∷◌, ◌++◌, [], Bool, List, suc, false, OnOk, OnErr, IfErr, IfSome, IfNone, length, map, remove, is_ok};
ghost use Rattle.std.specs.Option.{option_copied};
ghost use Rattle.spool.specs.Spooled.{changed, reported, attached, expired};
ghost use Rattle.base_types.specs.declared.limits.TheConstants.Limits.{LAST_JOB_ID, UNFINISHED_JOBS, JOB_DOCUMENTS, JOB_OCTETS};
ghost use Rattle.octets.specs.Document.{octets_of};
ghost use Rattle.spool.specs.Submission.{spooled_of};
ghost use Rattle.spool.specs.Calls.{allows, marked_by, unfinished_jobs};
ghost use Rattle.spool.specs.Jobs.{spooled_at, with_job, map_at, documents_released};
ghost use Rattle.spool.specs.Spool.{IsSpool};
ghost use Rattle.spool.specs.Ready.{ready_jobs};
ghost use Rattle.spool.specs.Leading.{AllFinished};
ghost use Rattle.spool.specs.Sound.{IsSound};
ghost use Rattle.spool.specs.OnDevice.{AllStay, OthersStay};
ghost use Rattle.job_objects.specs.JobStep.{ends_print};

use crate::new_job::{NewJob, taken};
use crate::spooled::SpooledJob;
use base_types::{JobId, Moment, Stranded, Text};
use indexmap::IndexMap;
use job_objects::{JobChange, Printer, StateRefusal};
use octets::Document;
use std::alloc::Global;
use std::marker::Model;

/// The jobs, by rising id. In clauses it is a record of their list and the next id.
#[derive(Drop)]
pub struct Spool {
    entries: IndexMap<u32, SpooledJob>,
    /// The number of leading jobs that are known to be finished; a plan skips them.
    leading: usize,
    next: u32,
    alloc: Global,
}

impl Model for Spool {
    ghost use Rattle.std.specs.Prelude.{◌+◌, ◌≤◌};
    ghost use Rattle.base_types.specs.declared.limits.TheConstants.Limits.{LAST_JOB_ID, UNFINISHED_JOBS};
    ghost use Rattle.std.specs.Prelude.{All};
    ghost use Rattle.spool.specs.Jobs.{SpoolRecord, jobs_of, Keyed};
    ghost use Rattle.spool.specs.Calls.{unfinished_jobs};
    ghost use Rattle.spool.specs.Sound.{IsSound};
    ghost use Rattle.spool.specs.Leading.{AllFinished};

    ghost Value = { SpoolRecord };

    ghost view = { λ s. record { jobs = jobs_of s.entries.entries; next = s.next } };

    ghost invariant = { λ s. Keyed s.entries.entries 0 s.next × (1 ≤ s.next) × (s.next ≤ LAST_JOB_ID + 1) × (unfinished_jobs (jobs_of s.entries.entries) ≤ UNFINISHED_JOBS) × All IsSound (jobs_of s.entries.entries) × AllFinished s.leading (jobs_of s.entries.entries) };
}

/// The number of leading jobs known to be finished, after the job at a place is removed.
fn leading_without(leading: usize, place: usize) -> usize
    ensures among { place < leading → suc result ≡ leading }
    ensures tail { leading ≤ place → result ≡ leading }
{
    if place < leading {
        leading - 1
    } else {
        leading
    }
}

impl Spool {
    /// Creates a spool without jobs. The first job gets the id `first`.
    pub fn new(alloc: Global, first: JobId) -> Spool
        ensures { result ≡ record { jobs = []; next = first } }
    {
        Spool {
            entries: IndexMap::new(alloc),
            leading: 0,
            next: first.number(),
            alloc,
        }
    }

    /// The allocator of the spool.
    pub(crate) fn allocator(&self) -> Global {
        self.alloc
    }

    /// Returns the number of jobs, with the finished jobs.
    pub fn len(&self) -> usize
        ensures { result ≡ length self.now.jobs }
    {
        self.entries.len()
    }

    /// All jobs, by rising id, each with its documents. Each id is within its range, and at most
    /// [`base_types::Limits::UNFINISHED_JOBS`] jobs are unfinished.
    pub fn jobs(&self) -> &[SpooledJob]
        ensures value { result.now ≡ self.now.jobs }
        ensures kept { IsSpool self.now }
    {
        self.entries.values().as_slice()
    }

    /// The number of leading jobs that are known to be finished.
    pub(crate) fn leading(&self) -> usize
        ensures finished { AllFinished result self.now.jobs }
        ensures inside { result ≤ length self.now.jobs }
    {
        self.leading
    }

    /// The jobs after the leading ones that are known to be finished. All ready jobs and all unfinished
    /// jobs are among them.
    pub fn after_finished(&self) -> &[SpooledJob]
        ensures ready { (paused : List Bool) → ready_jobs paused result.now ≡ ready_jobs paused self.now.jobs }
        ensures unfinished { unfinished_jobs result.now ≡ unfinished_jobs self.now.jobs }
        ensures kept { IsSpool self.now }
    {
        let leading = self.leading();
        &self.jobs()[leading..]
    }

    /// Returns the number of leading jobs that are finished, whether known to be finished or not.
    fn count_finished(&self) -> usize
        ensures { AllFinished result self.now.jobs }
    {
        let leading = self.leading();
        let jobs = self.jobs();
        for place in leading..jobs.len() {
            let job = jobs[place].job();
            if !job.state.is_finished() {
                return place;
            }
        }
        jobs.len()
    }

    /// Records the number of leading jobs that are finished.
    pub(crate) fn note_finished(&mut self)
        ensures { self.new ≡ self.old }
    {
        let spool = &*self;
        self.leading = spool.count_finished();
    }

    /// The job of an id, with its documents.
    pub fn spooled(&self, id: JobId) -> Option<&SpooledJob>
        ensures value { option_copied result ≡ spooled_at id self.now.jobs }
        ensures sound { IfSome (spooled_at id self.now.jobs) IsSound }
    {
        self.entries.get(&id.number())
    }

    /// The id of the next job. `None` once all ids are used.
    pub fn next_id(&self) -> Option<JobId>
        ensures value { IfSome result (λ id. id ≡ self.now.next) }
        ensures used { IfNone result (LAST_JOB_ID < self.now.next) }
    {
        JobId::new(self.next)
    }

    /// Changes the job of an id, if there is one and its state allows the change. A refusal changes nothing.
    pub(crate) fn change(
        &mut self,
        id: JobId,
        change: JobChange,
        now: Moment,
    ) -> Result<(), StateRefusal>
        ensures possible { is_ok result ≡ allows change now (spooled_at id self.old.jobs) }
        ensures after { self.new ≡ record self.old { jobs = with_job id (changed change now) self.old.jobs } }
        ensures kept { OnErr result (self.new ≡ self.old) }
        ensures stay { AllStay self.old.jobs self.new.jobs }
    {
        let Some(spooled) = self.entries.get_mut(&id.number()) else {
            return Err(StateRefusal::NotPossible);
        };
        spooled.change(change, now)
    }

    /// Makes a change that a device reports of the job of an id, if there is one. Returns the documents that are
    /// handed out.
    pub(crate) fn report_job(&mut self, id: JobId, change: JobChange, now: Moment) -> Vec<Document>
        ensures documents { result.items ≡ documents_released id change self.old.jobs }
        ensures jobs { self.new ≡ record self.old { jobs = with_job id (reported change now) self.old.jobs } }
        ensures others { OthersStay id self.old.jobs self.new.jobs }
        ensures stay { ends_print change ≡ false → AllStay self.old.jobs self.new.jobs }
    {
        let alloc = self.alloc;
        let Some(spooled) = self.entries.get_mut(&id.number()) else {
            return Vec::new(alloc);
        };
        spooled.report(alloc, change, now)
    }

    /// Adds a document to the job of an id. If memory is refused, returns the document.
    pub(crate) fn attach(
        &mut self,
        id: JobId,
        document: Document,
        now: Moment,
    ) -> Result<(), Document>
        requires { IfSome (spooled_at id self.old.jobs) (λ s. (s.job.documents < JOB_DOCUMENTS) × (s.job.octets + length document.contents ≤ JOB_OCTETS)) }
        ensures ok { OnOk result (self.new ≡ record self.old { jobs = with_job id (attached document now) self.old.jobs }) }
        ensures others { OnOk result (OthersStay id self.old.jobs self.new.jobs) }
        ensures kept { OnErr result (self.new ≡ self.old) }
        ensures back { IfErr result (λ back. back ≡ document) }
    {
        let alloc = self.alloc;
        let Some(spooled) = self.entries.get_mut(&id.number()) else {
            return Err(document);
        };
        spooled.attach(alloc, document, now)
    }

    /// Aborts the job at a place, if its documents stopped coming.
    pub(crate) fn expire_at(&mut self, place: usize, now: Moment)
        requires { place < length self.old.jobs }
        ensures { self.new ≡ record self.old { jobs = map_at place (expired now) self.old.jobs } }
    {
        let Some(spooled) = self.entries.get_index_mut(place) else {
            return;
        };
        spooled.expire(now);
    }

    /// Marks the job at a place as stranded or not, by the entries, if it is ready.
    pub(crate) fn mark_by(&mut self, place: usize, printers: &[Printer], stranded: &[Stranded])
        requires { place < length self.old.jobs }
        ensures { self.new ≡ record self.old { jobs = map_at place (marked_by printers.now stranded.now) self.old.jobs } }
    {
        let Some(spooled) = self.entries.get_index_mut(place) else {
            return;
        };
        spooled.mark_by(printers, stranded);
    }

    /// Removes the job at a place.
    pub(crate) fn remove(&mut self, place: usize)
        ensures { self.new ≡ record self.old { jobs = remove self.old.jobs place } }
    {
        self.leading = leading_without(self.leading, place);
        let _removed = self.entries.shift_remove_index(place);
    }

    /// Appends a job under the next id, while one more unfinished job is within the limit. If memory is
    /// refused, returns the job.
    pub(crate) fn append(
        &mut self,
        id: JobId,
        new: NewJob,
        formats: Vec<Text>,
        incoming: bool,
    ) -> Result<(), NewJob>
        requires next { id ≡ self.old.next }
        requires room { unfinished_jobs self.old.jobs < UNFINISHED_JOBS }
        requires formats { formats.items ≡ map (λ d. d.format) new.documents }
        requires documents { length new.documents ≤ JOB_DOCUMENTS }
        requires octets { octets_of new.documents ≤ JOB_OCTETS }
        ensures ok { OnOk result (self.new ≡ record { jobs = self.old.jobs ++ spooled_of new id incoming ∷ []; next = id + 1 }) }
        ensures stay { OnOk result (AllStay self.old.jobs self.new.jobs) }
        ensures kept { OnErr result (self.new ≡ self.old) }
        ensures back { IfErr result (λ back. back ≡ new) }
    {
        if self.entries.reserve(1).is_err() {
            return Err(new);
        }
        let number = id.number();
        let spooled = taken(new, id, formats, incoming);
        let _none = self.entries.insert(number, spooled).unwrap();
        self.next = number + 1;
        Ok(())
    }
}
