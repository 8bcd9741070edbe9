//! Advice about devices.
use crate::advice::Advice;
use base_types::DeviceId;
use settings_file::{DeviceSettings, Settings};
use std::alloc::AllocError;

/// Adds the advice about the devices of settings.
pub(crate) fn put_device_advice<'a>(
    settings: &'a Settings,
    advice: &mut Vec<Advice<'a>>,
) -> Result<(), AllocError> {
    for (place, device) in settings.devices.iter().enumerate() {
        if !is_used(settings, DeviceId::new(place)) {
            advice.push(Advice::Unused { device })?;
        }
        if let Some(one) = namesake(&settings.devices[..place], device) {
            advice.push(Advice::Case { one, other: device })?;
        }
    }
    Ok(())
}

/// Returns whether a printer has a device.
fn is_used(settings: &Settings, device: DeviceId) -> bool {
    settings
        .printers
        .iter()
        .any(|printer| printer.devices.devices().contains(&device))
}

/// The first device whose name differs in case alone from that of another.
fn namesake<'a>(
    devices: &'a [DeviceSettings],
    other: &DeviceSettings,
) -> Option<&'a DeviceSettings> {
    let name = other.name.as_bytes();
    devices
        .iter()
        .find(|device| device.name.as_bytes().eq_ignore_ascii_case(name))
}
