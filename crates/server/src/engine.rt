//! The engine of a server.
ghost use Rattle.std.specs.Prelude.{◌≡◌, ◌==◌, ℕ, [], IfOk, IfSome, IsTrue, IsFalse, slice_get, count_by, is_some, true, false};
ghost use Rattle.std.specs.Option.{option_copied};
ghost use Rattle.settings_file.specs.Settings.{MeetsLimits};
ghost use Rattle.print_room.specs.Opening.{opening};
ghost use Rattle.spool.specs.Jobs.{job_at};
ghost use Rattle.spool.specs.Calls.{paused_at, unfinished_jobs};
ghost use Rattle.connections.specs.Slots.{is_of};
ghost use Rattle.server.specs.Polls.{both};
ghost use Rattle.server.specs.State.{EngineState};
ghost use Rattle.server.specs.Refinement.{IsAt, RefinesTurn};

use crate::polls::SEGMENT;
use crate::world::World;
use base_types::{DeviceId, DeviceNow, JobId, Moment, PrinterId};
use connections::Connection;
use connections::table::key_of;
use dispatcher::{Core, Observer};
use job_objects::Job;
use plan_prices::Planner;
use settings_file::Settings;
use slab::Slab;
use spool::SpooledJob;
use std::alloc::{AllocError, Global};
use std::marker::Model;
use wires::{Door, Wire};

/// The engine of a server: its core and its connections.
#[derive(Drop)]
pub struct Engine<P: Planner + Drop> {
    pub(crate) core: Core<P>,
    pub(crate) connections: Slab<Connection>,
    /// The moment of the last tick.
    pub(crate) ticked: Option<Moment>,
    /// Whether the last dispatch was refused memory.
    pub(crate) undispatched: bool,
    pub(crate) alloc: Global,
    /// The buffer of all reads, except while they are made.
    pub(crate) segment: Option<Box<[u8; SEGMENT]>>,
}

impl<P: Planner + Drop> Model for Engine<P> {
    ghost use Rattle.server.specs.State.{EngineState};

    ghost Value = { EngineState };

    ghost view = { λ e. record { core = e.core; slots = e.connections.slots; ticked = e.ticked; undispatched = e.undispatched } };
}

impl<P: Planner + Drop> Engine<P> {
    /// Creates the engine of a server that starts, with settings within the limits. The only error is out of
    /// memory.
    pub fn new(alloc: Global, settings: Settings, planner: P) -> Result<Engine<P>, AllocError>
        requires { MeetsLimits settings }
        ensures { IfOk result (IsAt (opening settings 1) []) }
    {
        let first = JobId::new(JobId::FIRST).unwrap();
        Engine::starting_at(alloc, settings, planner, first)
    }

    /// As [`Engine::new`], but the first job gets the id `first`.
    pub fn starting_at(
        alloc: Global,
        settings: Settings,
        planner: P,
        first: JobId,
    ) -> Result<Engine<P>, AllocError>
        requires { MeetsLimits settings }
        ensures { IfOk result (IsAt (opening settings first) []) }
    {
        let core = Core::starting_at(alloc, settings, planner, first)?;
        let connections = Slab::new(alloc);
        Ok(Engine {
            core,
            connections,
            ticked: None,
            undispatched: false,
            alloc,
            segment: Some(Box::new(alloc, [0; SEGMENT])?),
        })
    }

    /// Makes one turn: the closings left over, a tick if one is due, an accept at each door, a read of each
    /// connection with the asks that the read brings, a write of the waiting bytes, and the closings.
    ///
    /// If the engine was at a trace, it is at the trace followed by this turn, whatever the results of
    /// the polls are.
    pub fn turn<W: Wire, N: Observer>(&mut self, wire: &mut W, notes: &mut N, moment: Moment)
        ensures { RefinesTurn (both W.polled N.notified) moment (wire.old, notes.old) self.old (wire.new, notes.new) self.new }
    {
        let mut world = World { wire, notes };
        self.close_broken(moment, &mut world);
        self.tick_if_due(moment, &mut world);
        self.accept_at(Door::Ipp, &mut world);
        self.accept_at(Door::Lpd, &mut world);
        self.accept_at(Door::Devices, &mut world);
        let keys = self.keys();
        self.read_all(moment, keys, &mut world);
        self.write_all(moment, keys, &mut world);
        self.end_all(moment, keys, &mut world);
    }

    /// Exchanges the planner for another.
    pub fn swap_planner(&mut self, planner: &mut P)
        ensures { self.new ≡ self.old }
    {
        self.core.swap_planner(planner);
    }

    /// Returns whether no connection is open.
    pub fn is_unconnected(&self) -> bool
        ensures { result ≡ (count_by is_some self.now.slots == 0) }
    {
        self.connections.len() == 0
    }

    /// Returns whether a connection is open on which no device gave its name.
    pub fn has_client(&self) -> bool {
        let mut named = 0_usize;
        for place in 0..self.core.devices().len() {
            if key_of(&self.connections, DeviceId::new(place)).is_some() {
                named = named.saturating_add(1);
            }
        }
        self.connections.len() > named
    }

    /// Returns whether a device has a connection. No memory is taken.
    pub fn is_connected(&self, device: DeviceId) -> bool
        ensures yes { IsTrue result → (key : ℕ) × (is_of self.now.slots device key ≡ true) }
        ensures no { IsFalse result → (key : ℕ) → is_of self.now.slots device key ≡ false }
    {
        match key_of(&self.connections, device) {
            Some(_) => true,
            None => false,
        }
    }

    /// The settings that the engine was made with.
    pub fn settings(&self) -> &Settings
        ensures { result.now ≡ self.now.core.settings }
    {
        self.core.settings()
    }

    /// Returns whether a printer is paused. No memory is taken.
    pub fn is_paused(&self, printer: PrinterId) -> bool
        ensures { result ≡ paused_at self.now.core.paused printer }
    {
        self.core.is_paused(printer)
    }

    /// The jobs that are kept, by rising id. No memory is taken.
    pub fn jobs(&self) -> &[SpooledJob]
        ensures { result.now ≡ self.now.core.spool.jobs }
    {
        self.core.jobs()
    }

    /// The number of jobs that are neither canceled, aborted nor completed. No memory is taken.
    pub fn unfinished_jobs(&self) -> usize
        ensures { result ≡ unfinished_jobs self.now.core.spool.jobs }
    {
        self.core.unfinished_jobs()
    }

    /// The id of the next job; `None` once all ids are used. No memory is taken.
    pub fn next_job_id(&self) -> Option<JobId>
        ensures { IfSome result (λ id. id ≡ self.now.core.spool.next) }
    {
        self.core.next_job_id()
    }

    /// The job of an id, if it is kept. No memory is taken.
    pub fn job(&self, id: JobId) -> Option<&Job>
        ensures { option_copied result ≡ job_at id self.now.core.spool.jobs }
    {
        self.core.job(id)
    }

    /// The device at a place of the settings, as it is now. No memory is taken.
    pub fn device(&self, id: DeviceId) -> Option<&DeviceNow>
        ensures { option_copied result ≡ slice_get self.now.core.devices id }
    {
        self.core.device(id)
    }
}
