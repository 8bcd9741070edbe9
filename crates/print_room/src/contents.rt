//! The calls that read a room.
ghost use Rattle.std.specs.Prelude.{◌≡◌, Some, slice_get};
ghost use Rattle.std.specs.Option.{option_copied};
ghost use Rattle.settings_file.specs.Settings.{PrinterEntry};
ghost use Rattle.printer_objects.specs.Offer.{formats_of};
ghost use Rattle.spool.specs.Calls.{paused_at};
ghost use Rattle.print_room.specs.DeviceJobs.{IsRoom, device_of};

use crate::report::has_job;
use crate::room::PrintRoom;
use crate::started::Started;
use base_types::{DeviceId, DeviceNow, JobId, Moment, PrinterId, Text};
use job_objects::Printer;
use plan_prices::Plan;
use settings_file::Settings;
use spool::{Spool, is_paused};

/// The parts of a print room. Reading them takes no memory.
impl PrintRoom {
    /// The settings that the room was made with.
    pub fn settings(&self) -> &Settings
        ensures { result.now ≡ self.now.settings }
    {
        &self.settings
    }

    /// The devices now, one for each of the settings, in their order. A device's job is in the spool, marked
    /// as one that a device has, and no other device has it.
    pub fn devices(&self) -> &[DeviceNow]
        ensures value { result.now ≡ self.now.devices }
        ensures kept { IsRoom self.now }
    {
        &self.devices
    }

    /// The document formats of a printer: those of its devices in order, then its default, each once.
    pub fn formats(&self, printer: PrinterId) -> &[Text]
        ensures { (entry : PrinterEntry) → slice_get self.now.settings.printers printer ≡ Some entry → result.now ≡ formats_of (record { devices = self.now.devices; printer = entry }) }
    {
        match self.formats.get(printer.place()) {
            Some(formats) => formats,
            None => &[],
        }
    }

    /// The device that has the job of an id, if one has it.
    pub fn device_of(&self, id: JobId) -> Option<DeviceId>
        ensures { result ≡ device_of self.now.devices id }
    {
        match self.place_of(id) {
            Some(place) => Some(DeviceId::new(place)),
            None => None,
        }
    }

    /// The place of the device that has the job of an id.
    fn place_of(&self, id: JobId) -> Option<usize>
        ensures { result ≡ device_of self.now.devices id }
    {
        self.devices
            .iter()
            .position(|device| has_job(device.activity, id.number()))
    }

    /// The jobs.
    pub fn spool(&self) -> &Spool
        ensures { result.now ≡ self.now.spool }
    {
        &self.spool
    }

    /// The last moment.
    pub fn last(&self) -> Moment
        ensures { result ≡ self.now.last }
    {
        self.last
    }

    /// The last plan, if one was made.
    pub fn plan(&self) -> Option<&Plan>
        ensures { option_copied result ≡ self.now.plan }
    {
        self.plan.as_ref()
    }

    /// The jobs that began with the last plan, by device.
    pub fn begun(&self) -> &[Started]
        ensures { result.now ≡ self.now.begun }
    {
        &self.begun
    }

    /// The printers, one for each of the settings, in their order.
    pub fn printers(&self) -> &[Printer]
        ensures value { result.now ≡ self.now.paused }
        ensures kept { IsRoom self.now }
    {
        &self.printers
    }

    /// Whether a printer is paused.
    pub fn is_paused(&self, printer: PrinterId) -> bool
        ensures { result ≡ paused_at self.now.paused printer }
    {
        is_paused(&self.printers, printer)
    }
}
