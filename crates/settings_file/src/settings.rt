ghost use Rattle.std.specs.Prelude.{◌≡◌, IfOk};
ghost use Rattle.settings_file.specs.Settings.{device_names, device_named, printer_named};

use base_types::{DeviceId, Finishings, PrinterId, PrinterSet, Text};
use std::alloc::{AllocError, Global};
use std::marker::Model;

/// The settings of a server. In clauses they are a record of the same fields.
#[derive(Drop)]
pub struct Settings {
    /// The beginning of the URIs of printers and jobs: 1 to [`base_types::Limits::URI_BASE_BYTES`] bytes that
    /// print, without spaces.
    pub uri_base: Text,
    /// The names of the operators: users who may do all that an owner may do, with each job and printer.
    pub operators: Vec<Text>,
    /// The devices, 1 to [`base_types::Limits::DEVICES`].
    pub devices: Vec<DeviceSettings>,
    /// The printers, 1 to [`base_types::Limits::PRINTERS`].
    pub printers: Vec<PrinterSettings>,
}

impl Model for Settings {
    ghost use Rattle.settings_file.specs.Settings.{ServerSettings};

    ghost Value = { ServerSettings };

    ghost view = { λ s. record {
      uri_base = s.uri_base;
      operators = s.operators.items;
      devices = s.devices.items;
      printers = s.printers.items;
    } };
}

impl Settings {
    /// The names of the devices, in order. The only error is out of memory.
    pub fn device_names(&self, alloc: Global) -> Result<Vec<Text>, AllocError>
        ensures { IfOk result (λ names. names.items ≡ device_names self.now) }
    {
        let mut names = Vec::with_capacity(alloc, self.devices.len())?;
        for device in &self.devices {
            names.push(device.name.copied(alloc)?)?;
        }
        Ok(names)
    }

    /// The device with a name, if there is one.
    pub fn device_named(&self, name: &[u8]) -> Option<DeviceId>
        ensures { result ≡ device_named self.now name.now }
    {
        match self.device_place(name) {
            Some(place) => Some(DeviceId::new(place)),
            None => None,
        }
    }

    /// The printer with a name, if there is one.
    pub fn printer_named(&self, name: &[u8]) -> Option<PrinterId>
        ensures { result ≡ printer_named self.now name.now }
    {
        match self.printer_place(name) {
            Some(place) => Some(PrinterId::new(place)),
            None => None,
        }
    }

    /// The place of the device with a name.
    fn device_place(&self, name: &[u8]) -> Option<usize>
        ensures { result ≡ device_named self.now name.now }
    {
        self.devices
            .iter()
            .position(|device| name == device.name.as_bytes())
    }

    /// The place of the printer with a name.
    fn printer_place(&self, name: &[u8]) -> Option<usize>
        ensures { result ≡ printer_named self.now name.now }
    {
        self.printers
            .iter()
            .position(|printer| name == printer.name.as_bytes())
    }
}

/// The settings of a device. In clauses it is a record of the same fields.
#[derive(Drop)]
pub struct DeviceSettings {
    pub name: Text,
    /// The time for an impression in a one-sided job, in ms: 1 to [`base_types::Limits::RATE`].
    pub rate_one: u32,
    /// The time for an impression in a two-sided job, if the device prints two-sided.
    pub rate_two: Option<u32>,
    /// The time before a job's first impression, in ms, at most [`base_types::Limits::SETUP`].
    pub setup: u32,
    /// The media that can be loaded.
    pub media: Vec<Text>,
    /// The document formats that the device prints.
    pub formats: Vec<Text>,
    /// The finishings that the device has.
    pub finishings: Finishings,
}

impl Model for DeviceSettings {
    ghost use Rattle.settings_file.specs.Settings.{DeviceEntry};
    ghost use Rattle.base_types.specs.Ranges.{IsRate, IsSetup};
    ghost use Rattle.std.specs.Option.{ForSome};

    ghost Value = { DeviceEntry };

    ghost view = { λ d. record {
      name = d.name;
      rate_one = d.rate_one;
      rate_two = d.rate_two;
      setup = d.setup;
      media = d.media.items;
      formats = d.formats.items;
      finishings = d.finishings;
    } };

    ghost invariant = { λ d. IsRate d.rate_one × ForSome d.rate_two IsRate × IsSetup d.setup };
}

/// The settings of a printer. In clauses it is a record of the same fields.
#[derive(Drop)]
pub struct PrinterSettings {
    pub name: Text,
    /// The printer's devices, in the order of the settings' list: at most [`base_types::Limits::DEVICES`].
    pub devices: PrinterSet,
    /// The medium of a job without media.
    pub media_default: Text,
    /// The format of a document without document-format.
    pub format_default: Text,
}

impl Model for PrinterSettings {
    ghost use Rattle.settings_file.specs.Settings.{PrinterEntry};

    ghost Value = { PrinterEntry };

    ghost view = { λ p. record {
      name = p.name;
      devices = p.devices;
      media_default = p.media_default;
      format_default = p.format_default;
    } };
}
