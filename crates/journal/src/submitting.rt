//! The submission of jobs.
ghost use Rattle.std.specs.Prelude.{◌≡◌, IfOk, IfSome, OnOk, IsTrue, All, map, option_map};
ghost use Rattle.spool.specs.Jobs.{spooled_at};
ghost use Rattle.journal.specs.File.{KeepsPlayed};
ghost use Rattle.journal.specs.Resubmitting.{IsKept};

use crate::client::Client;
use crate::requests::{cancellation, submission};
use crate::resubmission_fault::ResubmissionFault;
use crate::resubmitted::Resubmitted;
use crate::resumption::JournaledEngine;
use crate::same::is_same;
use crate::saved_job::SavedJob;
use crate::saving::shared_documents;
use crate::serving::serve;
use crate::storage::Storage;
use crate::unsent::Unsent;
use base_types::{JobId, Moment};
use octets::Document;
use spool::SpooledJob;
use std::alloc::{AllocError, Global};

/// Submits jobs to an engine, in their order, each by requests of its owner over a connection in memory, and appends
/// the turns to a storage. Returns each job with the id that it got; a job that the engine doesn't take as it was is
/// refused.
pub fn resubmit<T: Storage>(
    alloc: Global,
    jobs: Vec<SavedJob>,
    engine: &mut JournaledEngine,
    moment: Moment,
    storage: &mut T,
) -> Result<Vec<Resubmitted>, ResubmissionFault>
    ensures played { OnOk result (KeepsPlayed (T.stored storage.old) engine.old (T.stored storage.new) engine.new) }
    ensures all { IfOk result (λ resubmitted. map (λ r. r.job) resubmitted.items ≡ jobs.items) }
    ensures kept { IfOk result (λ resubmitted. All (IsKept engine.new.core) resubmitted.items) }
{
    let resubmitted = submit_all(alloc, jobs, engine, moment, storage)?;
    match changed(engine, &resubmitted) {
        Some(id) => Err(ResubmissionFault::Changed(id)),
        None => Ok(resubmitted),
    }
}

/// Submits jobs, in their order.
fn submit_all<T: Storage>(
    alloc: Global,
    jobs: Vec<SavedJob>,
    engine: &mut JournaledEngine,
    moment: Moment,
    storage: &mut T,
) -> Result<Vec<Resubmitted>, ResubmissionFault>
    ensures played { OnOk result (KeepsPlayed (T.stored storage.old) engine.old (T.stored storage.new) engine.new) }
    ensures all { IfOk result (λ resubmitted. map (λ r. r.job) resubmitted.items ≡ jobs.items) }
{
    let mut resubmitted = Vec::with_capacity(alloc, jobs.len())?;
    for job in jobs {
        let one = submit(alloc, job, engine, moment, storage)?;
        resubmitted.push(one)?;
    }
    Ok(resubmitted)
}

/// Submits a job.
fn submit<T: Storage>(
    alloc: Global,
    job: SavedJob,
    engine: &mut JournaledEngine,
    moment: Moment,
    storage: &mut T,
) -> Result<Resubmitted, ResubmissionFault>
    ensures played { OnOk result (KeepsPlayed (T.stored storage.old) engine.old (T.stored storage.new) engine.new) }
    ensures job { IfOk result (λ resubmitted. resubmitted.job ≡ job) }
{
    let Some(id) = engine.next_job_id() else {
        return Ok(Resubmitted { job, new: None });
    };
    match submit_as(alloc, &job, id, engine, moment, storage) {
        Ok(Some(documents)) => {
            let job = with_documents(job, documents);
            Ok(Resubmitted { job, new: Some(id) })
        }
        Ok(None) => Ok(Resubmitted { job, new: None }),
        Err(fault) => Err(fault),
    }
}

/// Submits a job, which gets an id. Returns its documents, without a copy, if the engine took it as it was. Else the job
/// is canceled.
fn submit_as<T: Storage>(
    alloc: Global,
    job: &SavedJob,
    id: JobId,
    engine: &mut JournaledEngine,
    moment: Moment,
    storage: &mut T,
) -> Result<Option<Vec<Document>>, ResubmissionFault>
    ensures played { OnOk result (KeepsPlayed (T.stored storage.old) engine.old (T.stored storage.new) engine.new) }
    ensures documents { IfOk result (λ documents. IfSome documents (λ same. same.items ≡ job.now.documents)) }
{
    send(alloc, submission(alloc, job, id), engine, moment, storage)?;
    let documents = documents_if_same(alloc, engine, id, job)?;
    if documents.is_none() {
        cancel(alloc, job, id, engine, moment, storage)?;
    }
    Ok(documents)
}

/// The documents of the job with an id, without a copy, if it is the job that was saved.
fn documents_if_same(
    alloc: Global,
    engine: &JournaledEngine,
    id: JobId,
    job: &SavedJob,
) -> Result<Option<Vec<Document>>, AllocError>
    ensures { IfOk result (λ documents. IfSome documents (λ same. same.items ≡ job.now.documents)) }
{
    match spooled_at(engine, id) {
        Some(spooled) if is_same(engine.settings(), spooled, job) => {
            let documents = shared_documents(alloc, spooled.documents())?;
            Ok(Some(documents))
        }
        _ => Ok(None),
    }
}

/// A job with these documents in place of its own.
fn with_documents(job: SavedJob, documents: Vec<Document>) -> SavedJob
    ensures { documents.items ≡ job.documents → result ≡ job }
{
    SavedJob { documents, ..job }
}

/// Cancels the job with an id, if there is one, in the name of a job's owner.
fn cancel<T: Storage>(
    alloc: Global,
    job: &SavedJob,
    id: JobId,
    engine: &mut JournaledEngine,
    moment: Moment,
    storage: &mut T,
) -> Result<(), ResubmissionFault>
    ensures { OnOk result (KeepsPlayed (T.stored storage.old) engine.old (T.stored storage.new) engine.new) }
{
    if spooled_at(engine, id).is_none() {
        return Ok(());
    }
    send(alloc, cancellation(alloc, job, id), engine, moment, storage)
}

/// Has an engine serve a client, unless its requests have no spelling.
fn send<T: Storage>(
    alloc: Global,
    made: Result<Client, Unsent>,
    engine: &mut JournaledEngine,
    moment: Moment,
    storage: &mut T,
) -> Result<(), ResubmissionFault>
    ensures { OnOk result (KeepsPlayed (T.stored storage.old) engine.old (T.stored storage.new) engine.new) }
{
    match made {
        Ok(client) => serve(alloc, client, engine, moment, storage),
        Err(Unsent::OutOfMemory) => Err(ResubmissionFault::OutOfMemory),
        Err(Unsent::Unspellable) => Ok(()),
    }
}

/// The job with an id, with its documents.
fn spooled_at(engine: &JournaledEngine, id: JobId) -> Option<&SpooledJob>
    ensures { option_map (λ s. s.now) result ≡ spooled_at id engine.now.core.spool.jobs }
{
    engine.jobs().iter().find(|spooled| id == spooled.job().id)
}

/// Returns whether a job that got another id is the same job under it.
fn is_kept(engine: &JournaledEngine, resubmitted: &Resubmitted) -> bool
    ensures { IsTrue result → IsKept engine.now.core resubmitted.now }
{
    let Some(id) = resubmitted.new else {
        return true;
    };
    match spooled_at(engine, id) {
        Some(spooled) => is_same(engine.settings(), spooled, &resubmitted.job),
        None => false,
    }
}

/// The id of the first job that isn't the same job under the id that it got; `None` if there is no such job.
fn changed(engine: &JournaledEngine, resubmitted: &[Resubmitted]) -> Option<JobId>
    ensures { result ≡ None → All (IsKept engine.now.core) resubmitted.now }
{
    for one in resubmitted {
        if !is_kept(engine, one) {
            return Some(one.job.id);
        }
    }
    None
}
