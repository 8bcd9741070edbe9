//! The jobs that devices began, and how they end.
ghost use Rattle.std.specs.Prelude.{◌≡◌, ◌++◌, [], IfOk, OnOk, OnErr, filter, flat_map, map, not, option_map};
ghost use Rattle.std.specs.Option.{option_copied};
ghost use Rattle.server_log.specs.RunningJobs.{begun_by, ended_in, has_job, is_at, is_on};

use base_types::{Activity, DeviceNow, JobId};
use dispatcher::Started;
use job_objects::{Job, JobState};
use plan_prices::Planner;
use server::{Engine, LoggedNote};
use std::alloc::{AllocError, Global};
use std::marker::Model;

/// A job that has left the device that began it, with its state if the server keeps it.
#[derive(Clone, Copy)]
pub(crate) struct Ended {
    pub(crate) started: Started,
    pub(crate) state: Option<JobState>,
}

/// The jobs that devices began and that hadn't ended at the last call of `take_ended`. In clauses it is their
/// list.
#[derive(Drop)]
pub(crate) struct RunningJobs {
    started: Vec<Started>,
}

impl Model for RunningJobs {
    ghost use Rattle.std.specs.Prelude.{List};
    ghost use Rattle.print_room.specs.declared.started.Started.{Started};

    ghost Value = { List Started };

    ghost view = { λ b. b.started.items };
}

/// Returns whether a device with this activity has the job of an id.
fn is_at(activity: Activity, id: JobId) -> bool
    ensures { result ≡ is_at activity id }
{
    match activity {
        Activity::Running(Some(printing)) => printing.job == id,
        Activity::Stopped(Some(interrupted)) => interrupted.job == id,
        Activity::Running(None) | Activity::Stopped(None) => false,
    }
}

/// Returns whether there is a device, and it has the job of an id.
fn has(device: Option<&DeviceNow>, id: JobId) -> bool
    ensures { result ≡ has_job (option_copied device.entry) id }
{
    match device {
        Some(device) => is_at(device.activity, id),
        None => false,
    }
}

/// The state of a job, if there is a job.
fn state_of(job: Option<&Job>) -> Option<JobState>
    ensures { result ≡ option_map (λ job. job.state) (option_copied job.entry) }
{
    job.map(|job| job.state)
}

/// Returns whether a job is still on the device that began it.
fn is_on<P: Planner + Drop>(engine: &Engine<P>, started: Started) -> bool
    ensures { result ≡ is_on engine.now started }
{
    has(engine.device(started.device), started.job)
}

/// A job that was begun, with its state now.
fn end_of<P: Planner + Drop>(engine: &Engine<P>, started: Started) -> Ended
    ensures { result ≡ ended_in engine.now started }
{
    Ended {
        started,
        state: state_of(engine.job(started.job)),
    }
}

impl RunningJobs {
    /// Creates an empty list.
    pub(crate) fn new(alloc: Global) -> RunningJobs
        ensures { result ≡ [] }
    {
        RunningJobs {
            started: Vec::new(alloc),
        }
    }

    /// Appends the jobs that began by the notes. The only error is out of memory, and some may be appended
    /// then.
    pub(crate) fn add(&mut self, notes: &[LoggedNote]) -> Result<(), AllocError>
        ensures { OnOk result (self.new ≡ self.old ++ flat_map begun_by notes.now) }
    {
        put_begun(&mut self.started, notes)
    }

    /// The jobs that devices began, and that hadn't ended at the last call of `take_ended`.
    pub(crate) fn jobs(&self) -> &[Started]
        ensures { result.now ≡ self.now }
    {
        &self.started
    }

    /// Removes and returns the jobs that have left their devices. The only error is out of memory, and none
    /// is removed then.
    pub(crate) fn take_ended<P: Planner + Drop>(
        &mut self,
        alloc: Global,
        engine: &Engine<P>,
    ) -> Result<Vec<Ended>, AllocError>
        ensures ended { IfOk result (λ ended. ended.items ≡ map (ended_in engine.now) (filter (λ started. not (is_on engine.now started)) self.old)) }
        ensures left { OnOk result (self.new ≡ filter (is_on engine.now) self.old) }
        ensures err { OnErr result (self.new ≡ self.old) }
    {
        let ended = ended_of(alloc, engine, &self.started)?;
        self.started.retain(|started| is_on(engine, *started));
        Ok(ended)
    }
}

/// Appends the jobs that began by the notes.
fn put_begun(begun: &mut Vec<Started>, notes: &[LoggedNote]) -> Result<(), AllocError>
    ensures { OnOk result (begun.new.items ≡ begun.old.items ++ flat_map begun_by notes.now) }
{
    for one in notes {
        if let LoggedNote::Began(started) = one {
            begun.push(*started)?;
        }
    }
    Ok(())
}

/// The jobs that have left their devices, each with its state now. The only error is out of memory.
fn ended_of<P: Planner + Drop>(
    alloc: Global,
    engine: &Engine<P>,
    jobs: &[Started],
) -> Result<Vec<Ended>, AllocError>
    ensures { IfOk result (λ ended. ended.items ≡ map (ended_in engine.now) (filter (λ started. not (is_on engine.now started)) jobs.now)) }
{
    let mut ended = Vec::new(alloc);
    for started in jobs {
        if !is_on(engine, *started) {
            ended.push(end_of(engine, *started))?;
        }
    }
    Ok(ended)
}
