//! The state of a device at a moment: its abilities, its media, and its activity.
ghost use Rattle.std.specs.Prelude.{◌≡◌};

use crate::finishings::Finishings;
use crate::ids::{DeviceId, JobId};
use crate::text::Text;
use std::marker::Model;

/// A job on a running device.
#[derive(Clone, Copy, PartialEq, Eq)]
pub struct Printing {
    pub job: JobId,
    /// The moment at which the job is expected to end, in ms. It may be after the last moment.
    pub end: u64,
}

/// A job on a stopped device.
#[derive(Clone, Copy, PartialEq, Eq)]
pub struct Interrupted {
    pub job: JobId,
    /// The time that the job still takes, in ms.
    pub left: u64,
}

/// Whether a device runs, and the job that it has.
#[derive(Clone, Copy, PartialEq, Eq)]
pub enum Activity {
    Running(Option<Printing>),
    Stopped(Option<Interrupted>),
}

/// A medium that a device can hold.
#[derive(Drop)]
pub struct Medium {
    pub name: Text,
    pub loaded: bool,
}

/// The state of a device at a moment. In clauses it is a record of the same fields.
#[derive(Drop)]
pub struct DeviceNow {
    /// The time for an impression in a one-sided job, in ms: 1 to [`Limits::RATE`].
    pub rate_one: u32,
    /// The time for an impression in a two-sided job, if the device prints two-sided.
    pub rate_two: Option<u32>,
    /// The time before a job's first impression, in ms, at most [`Limits::SETUP`].
    pub setup: u32,
    /// The document formats that the device prints.
    pub formats: Vec<Text>,
    /// The finishings that the device has.
    pub finishings: Finishings,
    /// The media of its settings, in their order, each loaded or not.
    pub media: Vec<Medium>,
    pub activity: Activity,
    /// The moment before which the device begins no job, in ms, at most [`Limits::NOT_BEFORE`]; 0 if the
    /// device named none.
    pub not_before: u64,
}

impl Model for DeviceNow {
    ghost use Rattle.base_types.specs.Device.{Device};
    ghost use Rattle.base_types.specs.Ranges.{IsNotBefore, IsRate, IsSetup};
    ghost use Rattle.std.specs.Option.{ForSome};

    ghost Value = { Device };

    ghost view = { λ d. record {
      rate_one = d.rate_one;
      rate_two = d.rate_two;
      setup = d.setup;
      formats = d.formats.items;
      finishings = d.finishings;
      media = d.media.items;
      activity = d.activity;
      not_before = d.not_before;
    } };

    ghost invariant = { λ d. IsRate d.rate_one × ForSome d.rate_two IsRate × IsSetup d.setup × IsNotBefore d.not_before };
}

/// The devices of a printer, in the order of the settings. In clauses it is the list of their places.
#[derive(Drop)]
pub struct PrinterSet {
    devices: Vec<DeviceId>,
}

impl Model for PrinterSet {
    ghost use Rattle.std.specs.Prelude.{ℕ, List};

    ghost Value = { List ℕ };

    ghost view = { λ s. s.devices.items };
}

impl PrinterSet {
    /// A set of devices.
    pub fn new(devices: Vec<DeviceId>) -> PrinterSet
        ensures { result ≡ devices.items }
    {
        PrinterSet { devices }
    }

    /// The devices of the set.
    pub fn devices(&self) -> &[DeviceId]
        ensures { result.now ≡ self.now }
    {
        &self.devices
    }
}
