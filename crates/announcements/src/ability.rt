//! The abilities of a printer's devices: sides and finishings of a job's sheets.
ghost use Rattle.std.specs.Prelude.{◌≡◌};
ghost use Rattle.announcements.specs.Printer.{has_ability, is_able_at, is_able};

use crate::printer::device_at;
use base_types::DeviceId;
use settings_file::{DeviceSettings, PrinterSettings, Settings};

/// An ability of a device.
#[derive(Clone, Copy)]
pub(crate) enum Ability {
    /// The device prints on both sides.
    TwoSided,
    /// The device staples the sheets of a copy.
    Staple,
    /// The device punches the sheets.
    Punch,
    /// The device binds the sheets.
    Bind,
}

/// Returns whether some device of the printer has the ability.
pub(crate) fn is_able(settings: &Settings, printer: &PrinterSettings, ability: Ability) -> bool
    ensures { result ≡ is_able settings.now printer.now ability }
{
    printer
        .devices
        .devices()
        .iter()
        .any(|place| is_able_at(settings, ability, *place))
}

/// Returns whether the device at a place has the ability.
fn is_able_at(settings: &Settings, ability: Ability, place: DeviceId) -> bool
    ensures { result ≡ is_able_at settings.now ability place }
{
    match device_at(settings, place) {
        Some(device) => has_ability(device, ability),
        None => false,
    }
}

/// Returns whether a device has the ability.
fn has_ability(device: &DeviceSettings, ability: Ability) -> bool
    ensures { result ≡ has_ability ability device.now }
{
    match ability {
        Ability::TwoSided => device.rate_two.is_some(),
        Ability::Staple => device.finishings.staple,
        Ability::Punch => device.finishings.punch,
        Ability::Bind => device.finishings.bind,
    }
}
