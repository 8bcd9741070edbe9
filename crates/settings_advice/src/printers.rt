//! Advice about printers.
use crate::advice::Advice;
use base_types::Text;
use settings_file::{DeviceSettings, PrinterSettings, Settings};
use std::alloc::AllocError;

/// Adds the advice about the printers of settings.
pub(crate) fn put_printer_advice<'a>(
    settings: &'a Settings,
    advice: &mut Vec<Advice<'a>>,
) -> Result<(), AllocError> {
    for printer in &settings.printers {
        if !prints_defaults(settings, printer) {
            advice.push(Advice::Default { printer })?;
        }
    }
    Ok(())
}

/// Returns whether a device of a printer prints the printer's default format on its default medium.
fn prints_defaults(settings: &Settings, printer: &PrinterSettings) -> bool {
    printer.devices.devices().iter().any(|id| match settings.devices.get(id.place()) {
        Some(device) => prints(device, printer),
        None => false,
    })
}

/// Returns whether a device prints a printer's default format on its default medium.
fn prints(device: &DeviceSettings, printer: &PrinterSettings) -> bool {
    has(&device.formats, &printer.format_default) && has(&device.media, &printer.media_default)
}

/// Returns whether a text is among others.
fn has(texts: &[Text], wanted: &Text) -> bool {
    texts.iter().any(|text| text.is(wanted.as_bytes()))
}
