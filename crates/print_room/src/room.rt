//! The room and the changes of its parts.
ghost use Rattle.std.specs.Prelude.{◌≡◌, ◌≤◌, ◌<◌, length, None, [], map};
ghost use Rattle.std.specs.List.{list_all, list_any};
ghost use Rattle.std.specs.Str.{bytes_eq};
ghost use Rattle.base_types.specs.Ranges.{IsNotBefore};
ghost use Rattle.print_room.specs.Activity.{KeepsTime};
ghost use Rattle.print_room.specs.State.{with_device, doing, free_from, holding, loaded_if};
ghost use Rattle.print_room.specs.StillGood.{loads};
ghost use Rattle.print_room.specs.DeviceJobs.{Agree, AllKeep};

use crate::activity::is_same;
use crate::started::Started;
use base_types::{Activity, DeviceNow, Medium, Moment, PrinterSet, Text};
use job_objects::Printer;
use plan_prices::Plan;
use settings_file::Settings;
use spool::Spool;
use std::alloc::Global;
use std::marker::Model;

/// A print room: settings, printers, devices, jobs, the last moment and the last plan. In clauses it is a
/// record of these parts.
#[derive(Drop)]
pub struct PrintRoom {
    pub(crate) settings: Settings,
    /// The devices of each printer.
    pub(crate) sets: Vec<PrinterSet>,
    /// The document formats of each printer. They stay while the server runs.
    pub(crate) formats: Vec<Vec<Text>>,
    pub(crate) printers: Vec<Printer>,
    pub(crate) devices: Vec<DeviceNow>,
    pub(crate) spool: Spool,
    pub(crate) last: Moment,
    pub(crate) plan: Option<Plan>,
    /// The jobs that began with the last plan.
    pub(crate) begun: Vec<Started>,
    /// The moment for which the last plan is known to be good for the room as it is. `None` if no moment is
    /// known.
    pub(crate) good_for: Option<Moment>,
    pub(crate) alloc: Global,
}

impl Model for PrintRoom {
    ghost use Rattle.std.specs.Prelude.{◌≡◌, ◌≤◌, length, map};
    ghost use Rattle.base_types.specs.declared.limits.TheConstants.Limits.{DEVICES};
    ghost use Rattle.print_room.specs.State.{State, AllKeepTime, formats_by, sets_of};
    ghost use Rattle.print_room.specs.DeviceJobs.{Agree};
    ghost use Rattle.print_room.specs.StillGood.{HoldsFor};
    ghost use Rattle.settings_file.specs.Settings.{MeetsLimits};

    ghost Value = { State };

    ghost view = { λ c. record {
      settings = c.settings;
      paused = c.printers.items;
      devices = c.devices.items;
      spool = c.spool;
      last = c.last;
      plan = c.plan;
      begun = c.begun.items;
    } };

    ghost invariant = { λ c. AllKeepTime c.last c.devices.items × (length c.devices.items ≤ DEVICES) × (c.sets.items ≡ sets_of c.settings) × Agree c.devices.items c.spool.jobs × (length c.printers.items ≡ length c.settings.printers) × (length c.devices.items ≡ length c.settings.devices) × MeetsLimits c.settings × HoldsFor c.good_for (record { settings = c.settings; paused = c.printers.items; devices = c.devices.items; spool = c.spool; last = c.last; plan = c.plan; begun = c.begun.items }) × (map (λ f. f.items) c.formats.items ≡ formats_by c.devices.items c.settings.printers) };
}

impl PrintRoom {
    /// Sets the last moment, which doesn't fall.
    pub fn advance(&mut self, now: Moment)
        requires { self.old.last ≤ now }
        ensures state { self.new ≡ record self.old { last = now } }
        ensures keep { AllKeep self.old self.new }
    {
        self.last = now;
    }

    /// Sets the activity of the device at a place.
    pub(crate) fn set_activity(&mut self, place: usize, activity: Activity)
        requires inside { place < length self.old.devices }
        requires in_time { KeepsTime self.old.last activity }
        requires agree { Agree (with_device place (doing activity) self.old.devices) self.old.spool.jobs }
        ensures { self.new ≡ record self.old { devices = with_device place (doing activity) self.old.devices } }
    {
        self.good_for = None;
        let device = &mut self.devices[place];
        device.activity = activity;
    }

    /// Sets the activity of the device at a place. If the device has that activity already, nothing changes.
    pub(crate) fn update_activity(&mut self, place: usize, activity: Activity)
        requires inside { place < length self.old.devices }
        requires in_time { KeepsTime self.old.last activity }
        requires agree { Agree (with_device place (doing activity) self.old.devices) self.old.spool.jobs }
        ensures { self.new ≡ record self.old { devices = with_device place (doing activity) self.old.devices } }
    {
        if !is_same(&self.devices[place].activity, &activity) {
            self.set_activity(place, activity);
        }
    }

    /// Sets the moment before which the device at a place begins no job. If the device has that moment
    /// already, nothing changes.
    pub(crate) fn update_free_from(&mut self, place: usize, moment: u64)
        requires inside { place < length self.old.devices }
        requires bound { IsNotBefore moment }
        ensures { self.new ≡ record self.old { devices = with_device place (free_from moment) self.old.devices } }
    {
        if self.devices[place].not_before != moment {
            self.set_free_from(place, moment);
        }
    }

    /// Sets the media that are loaded in the device at a place. If exactly these are loaded already, nothing
    /// changes.
    pub(crate) fn update_media(&mut self, place: usize, names: &[Text])
        requires { place < length self.old.devices }
        ensures { self.new ≡ record self.old { devices = with_device place (holding names.now) self.old.devices } }
    {
        if !are_loaded(&self.devices[place].media, names) {
            self.load(place, names);
        }
    }

    /// Sets the moment before which the device at a place begins no job.
    fn set_free_from(&mut self, place: usize, moment: u64)
        requires inside { place < length self.old.devices }
        requires bound { IsNotBefore moment }
        ensures { self.new ≡ record self.old { devices = with_device place (free_from moment) self.old.devices } }
    {
        self.good_for = None;
        let device = &mut self.devices[place];
        device.not_before = moment;
    }

    /// Sets the media that are loaded in the device at a place.
    fn load(&mut self, place: usize, names: &[Text])
        requires { place < length self.old.devices }
        ensures { self.new ≡ record self.old { devices = with_device place (holding names.now) self.old.devices } }
    {
        self.good_for = None;
        let device = &mut self.devices[place];
        load(&mut device.media, names);
    }
}

/// Marks each medium as loaded exactly if its name is one of `names`.
fn load(media: &mut [Medium], names: &[Text])
    ensures { media.new ≡ map (loaded_if names.now) media.old }
{
    for medium in media.iter_mut() {
        medium.loaded = is_named(names, medium.name.as_bytes());
    }
}

/// Returns whether exactly the media with one of these names are loaded.
fn are_loaded(media: &[Medium], names: &[Text]) -> bool
    ensures { result ≡ list_all (loads names.now) media.now }
{
    media.iter().all(|medium| medium.loaded == is_named(names, medium.name.as_bytes()))
}

/// Returns whether a text is one of the names.
pub(crate) fn is_named(names: &[Text], wanted: &[u8]) -> bool
    ensures { result ≡ list_any (bytes_eq wanted.now) names.now }
{
    names.iter().any(|name| wanted == name.as_bytes())
}
