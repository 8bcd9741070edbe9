//! The jobs of a server that are to be submitted again.
ghost use Rattle.std.specs.Prelude.{◌≡◌, IfOk};
ghost use Rattle.journal.specs.Saved.{printer_name, saved_of, is_among, saved_jobs};

use crate::resumption::JournaledEngine;
use crate::saved_job::SavedJob;
use base_types::{PrinterId, Text};
use job_objects::JobState;
use octets::Document;
use settings_file::Settings;
use spool::SpooledJob;
use std::alloc::{AllocError, Global};

/// Which jobs of a server are saved.
#[derive(Clone, Copy)]
pub enum Which {
    /// Those that wait: unfinished, and no device has begun them.
    Waiting,
    /// Those that devices have begun and not ended.
    InHand,
    /// Both.
    Unfinished,
}

impl Which {
    /// Returns whether the job of a state is among these.
    fn has(self, state: JobState) -> bool
        ensures { result ≡ is_among self state }
    {
        match state {
            JobState::Pending | JobState::PendingHeld => !matches!(self, Which::InHand),
            JobState::Processing | JobState::Stopped => !matches!(self, Which::Waiting),
            JobState::Canceled | JobState::Aborted | JobState::Completed => false,
        }
    }

    /// Returns whether a job is among these.
    fn has_job(self, spooled: &SpooledJob) -> bool
        ensures { result ≡ is_among self spooled.now.job.state }
    {
        self.has(spooled.job().state)
    }
}

/// The name of the printer at a place of the settings.
pub(crate) fn printer_name(settings: &Settings, printer: PrinterId) -> &[u8]
    ensures { result.now ≡ printer_name settings.now printer }
{
    match settings.printers.get(printer.place()) {
        Some(printer) => printer.name.as_bytes(),
        None => &[],
    }
}

/// A document with the same octets, which aren't copied.
fn shared(alloc: Global, document: &Document) -> Result<Document, AllocError>
    ensures { IfOk result (λ same. same ≡ document.now) }
{
    Ok(Document {
        format: document.format.copied(alloc)?,
        contents: document.contents.share()?,
    })
}

/// Documents with the same octets, which aren't copied.
pub(crate) fn shared_documents(
    alloc: Global,
    documents: &[Document],
) -> Result<Vec<Document>, AllocError>
    ensures { IfOk result (λ same. same.items ≡ documents.now) }
{
    let mut same = Vec::with_capacity(alloc, documents.len())?;
    for document in documents {
        same.push(shared(alloc, document)?)?;
    }
    Ok(same)
}

/// A job of a server with these settings.
fn saved(alloc: Global, settings: &Settings, spooled: &SpooledJob) -> Result<SavedJob, AllocError>
    ensures { IfOk result (λ saved. saved ≡ saved_of settings.now spooled.now) }
{
    let job = spooled.job();
    let needs = &job.needs;
    Ok(SavedJob {
        id: job.id,
        owner: job.owner.copied(alloc)?,
        name: job.name.copied(alloc)?,
        printer: Text::copy_of(alloc, printer_name(settings, needs.printer))?,
        priority: job.priority,
        copies: needs.copies,
        sides: needs.sides,
        finishings: needs.finishings,
        media: needs.media.copied(alloc)?,
        impressions: job.impressions,
        held: job.held,
        incoming: job.incoming,
        documents: shared_documents(alloc, spooled.documents())?,
    })
}

/// The jobs of a server that are among these, by rising id. The only error is out of memory.
pub fn saved_jobs(
    alloc: Global,
    engine: &JournaledEngine,
    which: Which,
) -> Result<Vec<SavedJob>, AllocError>
    ensures { IfOk result (λ jobs. jobs.items ≡ saved_jobs which engine.now.core) }
{
    let settings = engine.settings();
    let mut jobs = Vec::new(alloc);
    for spooled in engine.jobs() {
        if which.has_job(spooled) {
            jobs.push(saved(alloc, settings, spooled)?)?;
        }
    }
    Ok(jobs)
}
