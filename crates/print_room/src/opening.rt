//! The room of a server that starts.
ghost use Rattle.std.specs.Prelude.{◌≡◌, IfOk, map, replicate, false};
ghost use Rattle.settings_file.specs.Settings.{MeetsLimits};
ghost use Rattle.print_room.specs.Opening.{opening, opening_device, loaded_medium};
ghost use Rattle.print_room.specs.State.{formats_by};

use crate::room::PrintRoom;
use base_types::{Activity, DeviceNow, JobId, Medium, Moment, PrinterSet, Text};
use job_objects::Printer;
use printer_objects::printer_formats;
use settings_file::{DeviceSettings, PrinterSettings, Settings};
use spool::Spool;
use std::alloc::{AllocError, Global};

impl PrintRoom {
    /// Creates the print room of a server that starts, with settings within the limits: no jobs, no plan, no
    /// printer paused, and each device stopped, idle and loaded with all media of its settings. The first job
    /// gets the id `first`.
    ///
    /// The only error is out of memory.
    pub fn new(alloc: Global, settings: Settings, first: JobId) -> Result<PrintRoom, AllocError>
        requires { MeetsLimits settings }
        ensures { IfOk result (λ room. room ≡ opening settings first) }
    {
        let devices = opening_devices(alloc, &settings.devices)?;
        let sets = printer_sets(alloc, &settings.printers)?;
        let formats = opening_formats(alloc, &devices, &settings.printers)?;
        let printers = opening_printers(alloc, settings.printers.len())?;
        Ok(PrintRoom {
            settings,
            sets,
            formats,
            printers,
            devices,
            spool: Spool::new(alloc, first),
            last: Moment::start(),
            plan: None,
            begun: Vec::new(alloc),
            good_for: None,
            alloc,
        })
    }
}

/// A list of `count` printers, none of them paused. The only error is out of memory.
fn opening_printers(alloc: Global, count: usize) -> Result<Vec<Printer>, AllocError>
    ensures { IfOk result (λ printers. printers.items ≡ replicate count false) }
{
    let mut printers = Vec::new(alloc);
    printers.resize(count, Printer::new())?;
    Ok(printers)
}

/// The devices of each printer. The only error is out of memory.
fn printer_sets(alloc: Global, settings: &[PrinterSettings]) -> Result<Vec<PrinterSet>, AllocError>
    ensures { IfOk result (λ sets. sets.items ≡ map (λ p. p.devices) settings.now) }
{
    let mut sets = Vec::with_capacity(alloc, settings.len())?;
    for printer in settings {
        let devices = Vec::from_slice(alloc, printer.devices.devices())?;
        sets.push(PrinterSet::new(devices))?;
    }
    Ok(sets)
}

/// The document formats of each printer. The only error is out of memory.
fn opening_formats(
    alloc: Global,
    devices: &[DeviceNow],
    settings: &[PrinterSettings],
) -> Result<Vec<Vec<Text>>, AllocError>
    ensures { IfOk result (λ formats. map (λ f. f.items) formats.items ≡ formats_by devices.now settings.now) }
{
    let mut formats = Vec::with_capacity(alloc, settings.len())?;
    for printer in settings {
        formats.push(printer_formats(alloc, devices, printer)?)?;
    }
    Ok(formats)
}

/// The devices of the settings, as they start. The only error is out of memory.
fn opening_devices(alloc: Global, settings: &[DeviceSettings]) -> Result<Vec<DeviceNow>, AllocError>
    ensures { IfOk result (λ devices. devices.items ≡ map opening_device settings.now) }
{
    let mut devices = Vec::with_capacity(alloc, settings.len())?;
    for device in settings {
        devices.push(opening_device(alloc, device)?)?;
    }
    Ok(devices)
}

/// The device of an entry of the settings, as it starts. The only error is out of memory.
fn opening_device(alloc: Global, settings: &DeviceSettings) -> Result<DeviceNow, AllocError>
    ensures { IfOk result (λ device. device ≡ opening_device settings.now) }
{
    let formats = copies_of(alloc, &settings.formats)?;
    let media = loaded_media(alloc, &settings.media)?;
    Ok(DeviceNow {
        rate_one: settings.rate_one,
        rate_two: settings.rate_two,
        setup: settings.setup,
        formats,
        finishings: settings.finishings,
        media,
        activity: Activity::Stopped(None),
        not_before: 0,
    })
}

/// A copy of each text. The only error is out of memory.
fn copies_of(alloc: Global, texts: &[Text]) -> Result<Vec<Text>, AllocError>
    ensures { IfOk result (λ copies. copies.items ≡ texts.now) }
{
    let mut copies = Vec::with_capacity(alloc, texts.len())?;
    for text in texts {
        copies.push(text.copied(alloc)?)?;
    }
    Ok(copies)
}

/// A loaded medium for each name. The only error is out of memory.
fn loaded_media(alloc: Global, names: &[Text]) -> Result<Vec<Medium>, AllocError>
    ensures { IfOk result (λ media. media.items ≡ map loaded_medium names.now) }
{
    let mut media = Vec::with_capacity(alloc, names.len())?;
    for name in names {
        media.push(Medium {
            name: name.copied(alloc)?,
            loaded: true,
        })?;
    }
    Ok(media)
}
