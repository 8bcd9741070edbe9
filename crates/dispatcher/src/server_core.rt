//! The core and its calls.
ghost use Rattle.std.specs.Prelude.{◌≡◌, IfOk, IfSome, IsOk, OnErr, slice_get};
ghost use Rattle.std.specs.Option.{option_copied};
ghost use Rattle.settings_file.specs.Settings.{MeetsLimits};
ghost use Rattle.spool.specs.Jobs.{job_at, spooled_at};
ghost use Rattle.spool.specs.Calls.{paused_at, unfinished_jobs};
ghost use Rattle.print_room.specs.Opening.{opening};
ghost use Rattle.dispatcher.specs.Step.{Step, TakesNoMemory};

use crate::apply::apply;
use base_types::{DeviceId, DeviceNow, JobId, Moment, PrinterId};
use events::{Effects, Event};
use job_objects::Job;
use plan_prices::Planner;
use print_room::{PrintRoom, Started};
use settings_file::Settings;
use spool::SpooledJob;
use std::alloc::{AllocError, Global};
use std::marker::Model;
use std::mem;

/// The core: a print room and a planner. In clauses it is the record of the room.
#[derive(Drop)]
pub struct Core<P: Planner> {
    pub(crate) room: PrintRoom,
    pub(crate) planner: P,
    pub(crate) alloc: Global,
}

impl<P: Planner> Model for Core<P> {
    ghost use Rattle.print_room.specs.State.{State};

    ghost Value = { State };

    ghost view = { λ c. c.room };
}

impl<P: Planner + Drop> Core<P> {
    /// Creates the core of a server that starts, with settings within the limits: no jobs, no plan, no
    /// printer paused, and each device stopped, idle and loaded with all media of its settings.
    ///
    /// The only error is out of memory.
    pub fn new(alloc: Global, settings: Settings, planner: P) -> Result<Core<P>, AllocError>
        requires { MeetsLimits settings }
        ensures { IfOk result (λ core. core ≡ opening settings 1) }
    {
        let first = JobId::new(JobId::FIRST).unwrap();
        Core::starting_at(alloc, settings, planner, first)
    }

    /// As [`Core::new`], but the first job gets the id `first`.
    pub fn starting_at(
        alloc: Global,
        settings: Settings,
        planner: P,
        first: JobId,
    ) -> Result<Core<P>, AllocError>
        requires { MeetsLimits settings }
        ensures { IfOk result (λ core. core ≡ opening settings first) }
    {
        let room = PrintRoom::new(alloc, settings, first)?;
        Ok(Core {
            room,
            planner,
            alloc,
        })
    }

    /// Exchanges the planner for another.
    pub fn swap_planner(&mut self, planner: &mut P)
        ensures { self.new ≡ self.old }
    {
        mem::swap(&mut self.planner, planner);
    }

    /// Takes the step of an event at a moment; if that is before the last moment, at the last moment.
    ///
    /// The only error is out of memory: the event is dropped, and the state is unchanged. Memory is taken
    /// only for a response of more than a status, for a job of files that is taken, for the listing of a
    /// queue, and for a cancel of which a device is notified.
    pub fn apply(&mut self, event: Event, moment: Moment) -> Result<Effects, AllocError>
        ensures ok { IfOk result (λ effects. Step self.old event moment effects self.new) }
        ensures err { OnErr result (self.new ≡ self.old) }
        ensures light { TakesNoMemory event moment self.old → IsOk result }
    {
        apply(self.alloc, &mut self.room, event, moment)
    }

    /// The last moment.
    pub fn last(&self) -> Moment
        ensures { result ≡ self.now.last }
    {
        self.room.last()
    }

    /// The jobs that began with the last plan, by device. Until the next step [`Core::spooled`] lends each with its
    /// documents, once the borrow of the dispatch's own result has ended. The call takes no memory.
    pub fn begun(&self) -> &[Started]
        ensures { result.now ≡ self.now.begun }
    {
        self.room.begun()
    }

    /// The settings that the core was made with.
    pub fn settings(&self) -> &Settings
        ensures { result.now ≡ self.now.settings }
    {
        self.room.settings()
    }

    /// The job of an id, if it is kept. The call takes no memory.
    pub fn job(&self, id: JobId) -> Option<&Job>
        ensures { option_copied result ≡ job_at id self.now.spool.jobs }
    {
        self.room.spool().get(id)
    }

    /// The job of an id with its documents, if it is kept. The call takes no memory.
    pub fn spooled(&self, id: JobId) -> Option<&SpooledJob>
        ensures { option_copied result ≡ spooled_at id self.now.spool.jobs }
    {
        self.room.spool().spooled(id)
    }

    /// The jobs that are kept, by rising id. The call takes no memory.
    pub fn jobs(&self) -> &[SpooledJob]
        ensures { result.now ≡ self.now.spool.jobs }
    {
        self.room.spool().jobs()
    }

    /// The number of jobs that are neither canceled, aborted nor completed. The call takes no memory.
    pub fn unfinished_jobs(&self) -> usize
        ensures { result ≡ unfinished_jobs self.now.spool.jobs }
    {
        self.room.spool().unfinished()
    }

    /// The id of the next job; `None` once all ids are used. The call takes no memory.
    pub fn next_job_id(&self) -> Option<JobId>
        ensures { IfSome result (λ id. id ≡ self.now.spool.next) }
    {
        self.room.spool().next_id()
    }

    /// Returns whether a printer is paused. The call takes no memory.
    pub fn is_paused(&self, printer: PrinterId) -> bool
        ensures { result ≡ paused_at self.now.paused printer }
    {
        self.room.is_paused(printer)
    }

    /// The states of the devices, in the order of the settings. The call takes no memory.
    pub fn devices(&self) -> &[DeviceNow]
        ensures { result.now ≡ self.now.devices }
    {
        self.room.devices()
    }

    /// The state of a device, if the settings have it. The call takes no memory.
    pub fn device(&self, id: DeviceId) -> Option<&DeviceNow>
        ensures { option_copied result ≡ slice_get self.now.devices id }
    {
        self.room.devices().get(id.place())
    }
}
