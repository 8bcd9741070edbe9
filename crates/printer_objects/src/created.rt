//! The response to a job creation.
ghost use Rattle.std.specs.Prelude.{◌≡◌, IfOk};
ghost use Rattle.printer_objects.specs.Created.{created_attributes, named_group};

use crate::attribute::{enumerated, number, reasons};
use crate::job_shown::uri_of_job;
use base_types::{JobId, Text};
use ipp_codec::{Group, GroupTag};
use job_objects::{JobReasons, JobState};
use std::alloc::{AllocError, Global};

/// The job group of the response to a job creation (RFC 8011, section 4.2.1.2): the URI, the id, the state
/// and the reasons that the job has or will have.
///
/// The only error is out of memory.
pub fn created_job_attributes(
    alloc: Global,
    uri_base: &Text,
    id: JobId,
    state: JobState,
    why: JobReasons,
) -> Result<Group, AllocError>
    ensures { IfOk result (λ group. group ≡ created_attributes uri_base.now id state why) }
{
    let mut group = named_group(alloc, uri_base, id)?;
    group.push(enumerated(alloc, "job-state", state.code()))?;
    group.push(reasons(alloc, "job-state-reasons", why)?)?;
    Ok(group)
}

/// The job group with the URI and the id alone.
fn named_group(alloc: Global, uri_base: &Text, id: JobId) -> Result<Group, AllocError>
    ensures { IfOk result (λ group. group ≡ named_group uri_base.now id) }
{
    let mut group = Group::new(alloc, GroupTag::JOB);
    group.push(uri_of_job(alloc, "job-uri", uri_base, id)?)?;
    group.push(number(alloc, "job-id", u64::from(id.number())))?;
    Ok(group)
}
