//! The table of a job's states.
use base_types::{Finishings, JobId, Moment, Needs, PrinterId, Priority, Sides, Text};
use job_objects::{Canceler, Job, JobChange, JobState, job_step};
use std::alloc::{AllocError, Global};
use std::test::Fail;

/// A job in a state.
fn job(alloc: Global, state: JobState, incoming: bool, held: bool) -> Result<Job, Fail> {
    Ok(Job {
        id: JobId::new(1).ok_or("id")?,
        owner: Text::copy_of(alloc, b"anna")?,
        name: Text::copy_of(alloc, b"letter")?,
        priority: Priority::normal(),
        needs: needs(alloc)?,
        impressions: None,
        state,
        incoming,
        held,
        stranded: matches!(state, JobState::Pending),
        documents: 0,
        octets: 0,
        canceled_by: None,
        created: Moment::start(),
        started: None,
        finished: None,
    })
}

fn needs(alloc: Global) -> Result<Needs, AllocError> {
    Ok(Needs {
        printer: PrinterId::new(0),
        formats: Vec::new(alloc),
        sides: Sides::One,
        finishings: Finishings::none(),
        media: Text::copy_of(alloc, b"iso_a4_210x297mm")?,
        impressions: 1,
        copies: 1,
    })
}

/// The states from which each change is tried, each with whether the job is incoming and held.
const FROM: [(JobState, bool, bool); 9] = [
    (JobState::Pending, false, false),
    (JobState::PendingHeld, true, false),
    (JobState::PendingHeld, false, true),
    (JobState::PendingHeld, true, true),
    (JobState::Processing, false, false),
    (JobState::Stopped, false, false),
    (JobState::Canceled, false, false),
    (JobState::Aborted, false, false),
    (JobState::Completed, false, false),
];

/// The codes of job-state after each change; 0 where the change is not possible.
const TABLE: [(JobChange, [u32; 9]); 10] = [
    (JobChange::Close, [0, 3, 0, 4, 0, 0, 0, 0, 0]),
    (JobChange::Hold, [4, 4, 4, 4, 0, 0, 0, 0, 0]),
    (JobChange::Release, [3, 4, 3, 4, 5, 6, 0, 0, 0]),
    (JobChange::Begin, [5, 0, 0, 0, 0, 0, 0, 0, 0]),
    (JobChange::Stop, [0, 0, 0, 0, 6, 0, 0, 0, 0]),
    (JobChange::Continue, [0, 0, 0, 0, 0, 5, 0, 0, 0]),
    (
        JobChange::Cancel(Canceler::Owner),
        [7, 7, 7, 7, 7, 7, 0, 0, 0],
    ),
    (
        JobChange::Cancel(Canceler::Operator),
        [7, 7, 7, 7, 7, 7, 0, 0, 0],
    ),
    (JobChange::Done, [0, 0, 0, 0, 9, 9, 0, 0, 0]),
    (JobChange::Fail, [0, 8, 0, 8, 8, 8, 0, 0, 0]),
];

/// The result of a change of a job in a state: the code of its job-state, whether the change is possible, and
/// whether the job is finished, and stranded.
fn stepped(
    alloc: Global,
    from: (JobState, bool, bool),
    change: JobChange,
) -> Result<(u32, bool, bool, bool), Fail> {
    let (state, incoming, held) = from;
    let now = Moment::new(7).ok_or("moment")?;
    let mut job = job(alloc, state, incoming, held)?;
    let is_possible = job_step(&mut job, change, now).is_ok();
    Ok((
        job.state.code(),
        is_possible,
        job.finished.is_some(),
        job.stranded,
    ))
}

/// The values of [`stepped`] by the table, where `code` is the entry of the table.
fn tabled(state: JobState, code: u32) -> (u32, bool, bool, bool) {
    let is_possible = code != 0;
    let after = if is_possible { code } else { state.code() };
    let stranded = after == 3 && matches!(state, JobState::Pending);
    (after, is_possible, code >= 7, stranded)
}

#[test]
fn state_table(rt: HostRuntime) -> Result<(), Fail> {
    for (change, codes) in &TABLE {
        for (from, code) in FROM.iter().zip(codes) {
            let (state, _, _) = *from;
            assert_eq!(rt; stepped(rt.alloc(), *from, *change)?, tabled(state, *code));
        }
    }
    Ok(())
}
