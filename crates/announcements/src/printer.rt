//! The announced printer, among the printers of the settings.
ghost use Rattle.std.specs.Prelude.{◌≡◌, find};
ghost use Rattle.std.specs.Option.{option_copied};
ghost use Rattle.std.specs.Str.{bytes_eq};
ghost use Rattle.announcements.specs.Printer.{only, device_at};

use base_types::DeviceId;
use settings_file::{DeviceSettings, PrinterSettings, Settings};

/// The printer of this name; `None` where the settings have no such printer.
pub fn printer_named<'a>(settings: &'a Settings, name: &[u8]) -> Option<&'a PrinterSettings>
    ensures { option_copied result ≡ find (λ p. bytes_eq p.name name.now) settings.now.printers }
{
    settings
        .printers
        .iter()
        .find(|printer| printer.name.as_bytes() == name)
}

/// The only printer of the settings; `None` where there are several or none.
pub fn only_printer(settings: &Settings) -> Option<&PrinterSettings>
    ensures { option_copied result ≡ only settings.now.printers }
{
    match settings.printers.as_slice() {
        [printer] => Some(printer),
        _ => None,
    }
}

/// The device at a place of the settings; `None` where there is no such device.
pub(crate) fn device_at(settings: &Settings, place: DeviceId) -> Option<&DeviceSettings>
    ensures { option_copied result ≡ device_at settings.now place }
{
    settings.devices.get(place.place())
}
