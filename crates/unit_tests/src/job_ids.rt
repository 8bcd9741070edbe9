//! The ids of jobs.
use base_types::{Finishings, JobId, Moment, PrinterId, Priority, Sides, Text};
use spool::{NewJob, Spool, SpoolRefusal};
use std::alloc::{AllocError, Global};
use std::test::Fail;

/// A job without documents.
fn new_job(alloc: Global) -> Result<NewJob, AllocError> {
    Ok(NewJob {
        created: Moment::start(),
        printer: PrinterId::new(0),
        owner: Text::copy_of(alloc, b"ann")?,
        name: Text::copy_of(alloc, b"letter")?,
        priority: Priority::normal(),
        sides: Sides::One,
        finishings: Finishings::none(),
        media: Text::copy_of(alloc, b"iso_a4_210x297mm")?,
        copies: 1,
        held: false,
        impressions: None,
        documents: Vec::new(alloc),
    })
}

/// The last id is given once, and no job is taken after it.
#[test]
fn last_job_id(rt: HostRuntime) -> Result<(), Fail> {
    let last = JobId::new(2_147_483_647).ok_or("it is an id")?;
    let mut spool = Spool::new(rt.alloc(), last);
    let first = spool.submit(new_job(rt.alloc())?, false).ok();
    assert!(rt; first == Some(last));
    let is_busy = match spool.submit(new_job(rt.alloc())?, false) {
        Ok(_) => false,
        Err(refused) => matches!(refused.refusal, SpoolRefusal::Busy),
    };
    assert!(rt; is_busy);
    Ok(())
}
