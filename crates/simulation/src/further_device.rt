//! Settings with a further device.
ghost use Rattle.std.specs.Prelude.{◌≡◌, ◌+◌, ◌<◌, All, IfOk, IfSome, OnOk};
ghost use Rattle.std.specs.List.{list_all};
ghost use Rattle.base_types.specs.Forms.{is_media, is_format};
ghost use Rattle.settings_file.specs.Settings.{IsPrinterEntry, MeetsLimits};
ghost use Rattle.simulation.specs.Further.{is_within, names};

use base_types::{DeviceId, Limits, PrinterSet, Text, is_format, is_media, is_name};
use settings_file::{DeviceSettings, PrinterSettings, Settings};
use std::alloc::{AllocError, Global};

/// Returns whether each text is the name of a medium.
fn are_media(texts: &[Text]) -> bool
    ensures { result ≡ list_all is_media texts.now }
{
    texts.iter().all(|text| is_media(text.as_bytes()))
}

/// Returns whether each text is a document format.
fn are_formats(texts: &[Text]) -> bool
    ensures { result ≡ list_all is_format texts.now }
{
    texts.iter().all(|text| is_format(text.as_bytes()))
}

/// Returns whether the texts of a device are within the limits of settings.
fn is_within(device: &DeviceSettings) -> bool
    ensures { result ≡ is_within device.now }
{
    is_name(device.name.as_bytes())
        && device.media.len() <= Limits::LIST_ENTRIES
        && are_media(&device.media)
        && device.formats.len() <= Limits::LIST_ENTRIES
        && are_formats(&device.formats)
}

/// The devices of a printer, with the device at `place` after that at `like`, if it has this. The only error is
/// out of memory.
fn members_with(
    alloc: Global,
    members: &[DeviceId],
    like: usize,
    place: usize,
) -> Result<Vec<DeviceId>, AllocError>
    requires { All (λ member. member < place + 1) members.now }
    ensures { IfOk result (λ all. All (λ member. member < place + 1) all.items) }
{
    let mut all = Vec::new(alloc);
    for member in members {
        all.push(*member)?;
        if member.place() != like {
            continue;
        }
        all.push(DeviceId::new(place))?;
    }
    Ok(all)
}

/// Gives a printer the device at `place`, if it has that at `like`. The only error is out of memory.
fn add_member(
    alloc: Global,
    printer: &mut PrinterSettings,
    like: usize,
    place: usize,
) -> Result<(), AllocError>
    requires { IsPrinterEntry (place + 1) printer.old }
    ensures named { OnOk result (printer.new.name ≡ printer.old.name) }
    ensures within { OnOk result (IsPrinterEntry (place + 1) printer.new) }
{
    let mut devices = members_with(alloc, printer.devices.devices(), like, place)?;
    // cuts nothing, since a printer has a device once
    devices.truncate(Limits::DEVICES);
    printer.devices = PrinterSet::new(devices);
    Ok(())
}

/// Gives each printer the device at `place`, if it has that at `like`. The only error is out of memory.
fn add_to_each(
    alloc: Global,
    printers: &mut [PrinterSettings],
    like: usize,
    place: usize,
) -> Result<(), AllocError>
    requires { All (IsPrinterEntry (place + 1)) printers.old }
    ensures named { OnOk result (names printers.new ≡ names printers.old) }
    ensures within { OnOk result (All (IsPrinterEntry (place + 1)) printers.new) }
{
    for printer in printers.iter_mut() {
        add_member(alloc, printer, like, place)?;
    }
    Ok(())
}

/// The settings with a further device after all others. Each printer that has the device at `like` has it, too.
/// `None` if they aren't within their limits then. The only error is out of memory.
pub(crate) fn extended(
    alloc: Global,
    settings: Settings,
    like: usize,
    device: DeviceSettings,
) -> Result<Option<Settings>, AllocError>
    requires { MeetsLimits settings }
    ensures { IfOk result (λ more. IfSome more MeetsLimits) }
{
    let place = settings.devices.len();
    if place >= Limits::DEVICES
        || !is_within(&device)
        || settings.device_named(device.name.as_bytes()).is_some()
    {
        return Ok(None);
    }
    let mut settings = settings;
    add_to_each(alloc, &mut settings.printers, like, place)?;
    settings.devices.push(device)?;
    Ok(Some(settings))
}
