//! The turns of jobs.
ghost use Rattle.std.specs.Prelude.{◌≡◌, IfOk, None, if◌then◌else◌, unwrap_or};
ghost use Rattle.listings.specs.declared.turn.Rank.TheVariants.{Finished};
ghost use Rattle.spool.specs.Calls.{is_ready};
ghost use Rattle.listings.specs.Expected.{moment_of, on_devices, planned};
ghost use Rattle.listings.specs.Turn.{is_before, is_sooner, rank_number, turn_by, unfinished_turn};

use crate::expected::{Expected, moment_of, on_devices, planned};
use base_types::{JobId, Moment};
use job_objects::{Job, Printer};
use print_room::PrintRoom;
use spool::SpooledJob;
use std::alloc::{AllocError, Global};

/// The rank of a job, which counts first in the order of jobs.
#[derive(Clone, Copy)]
pub(crate) enum Rank {
    Finished,
    /// A device has the job.
    OnDevice,
    /// The job is ready, and the last plan has it.
    Planned,
    Waiting,
}

impl Rank {
    /// The number of the rank. The lowest comes first.
    fn number(self) -> u8
        ensures { result ≡ rank_number self }
    {
        match self {
            Rank::Finished => 0,
            Rank::OnDevice => 1,
            Rank::Planned => 2,
            Rank::Waiting => 3,
        }
    }
}

/// The turn of a job, compared by the rank, then the moment, then the id.
#[derive(Clone, Copy)]
pub(crate) struct Turn {
    pub(crate) rank: Rank,
    /// In ms.
    pub(crate) moment: u128,
    pub(crate) id: JobId,
}

impl Turn {
    /// Returns whether this turn comes before another.
    pub(crate) fn is_before(self, other: Turn) -> bool
        ensures { result ≡ is_before self other }
    {
        let rank = self.rank.number();
        let other_rank = other.rank.number();
        rank < other_rank || (rank == other_rank && self.is_sooner(other))
    }

    /// Returns whether this turn has the earlier moment, or at the same moment the lower id.
    fn is_sooner(self, other: Turn) -> bool
        ensures { result ≡ is_sooner self other }
    {
        self.moment < other.moment
            || (self.moment == other.moment && self.id.number() < other.id.number())
    }
}

/// The moments at which jobs are expected to be complete, as of a moment.
#[derive(Drop)]
pub(crate) struct Forecast {
    /// The jobs of the devices.
    had: Vec<Expected>,
    /// The jobs of the last plan.
    planned: Vec<Expected>,
}

impl Forecast {
    /// The forecast for a room's jobs at a moment. The only error is out of memory.
    pub(crate) fn new(alloc: Global, room: &PrintRoom, now: Moment) -> Result<Forecast, AllocError>
        ensures had { IfOk result (λ forecast. forecast.had.items ≡ on_devices now room.now.devices) }
        ensures planned { IfOk result (λ forecast. forecast.planned.items ≡ planned room.now.plan) }
    {
        let had = on_devices(alloc, room.devices(), now)?;
        let planned = planned(alloc, room.plan())?;
        Ok(Forecast { had, planned })
    }

    /// The turn of a job.
    pub(crate) fn turn(&self, spooled: &SpooledJob, printers: &[Printer]) -> Turn
        ensures { result ≡ turn_by self.now.had.items self.now.planned.items printers.now spooled.now.job }
    {
        let job = spooled.job();
        if job.state.is_finished() {
            finished_turn(job)
        } else {
            let had = moment_of(&self.had, job.id);
            let completed = self.completed(spooled, printers);
            unfinished_turn(had, completed, job.id)
        }
    }

    /// The completion of a job in the plan, if the job is ready and the plan has it.
    fn completed(&self, spooled: &SpooledJob, printers: &[Printer]) -> Option<u128>
        ensures { result ≡ (if is_ready printers.now spooled.now.job then moment_of self.now.planned.items spooled.now.job.id else None) }
    {
        if spooled.is_ready(printers) {
            moment_of(&self.planned, spooled.job().id)
        } else {
            None
        }
    }
}

/// The turn of a finished job, by the moment at which it was finished.
fn finished_turn(job: &Job) -> Turn
    ensures { result ≡ record { rank = Finished; moment = unwrap_or job.now.finished 0; id = job.now.id } }
{
    let moment = match job.finished {
        Some(moment) => u128::from(moment.millis()),
        None => 0,
    };
    Turn {
        rank: Rank::Finished,
        moment,
        id: job.id,
    }
}

/// The turn of an unfinished job: by the moment at which its device is expected to end it, or else by its
/// completion in the plan, if there is one.
fn unfinished_turn(had: Option<u128>, completed: Option<u128>, id: JobId) -> Turn
    ensures { result ≡ unfinished_turn had completed id }
{
    let (rank, moment) = match (had, completed) {
        (Some(end), _) => (Rank::OnDevice, end),
        (None, Some(completion)) => (Rank::Planned, completion),
        (None, None) => (Rank::Waiting, 0),
    };
    Turn { rank, moment, id }
}
