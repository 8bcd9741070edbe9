//! The advice about settings.
use crate::devices::put_device_advice;
use crate::printers::put_printer_advice;
use quotes::Quoted;
use settings_file::{DeviceSettings, PrinterSettings, Settings};
use std::alloc::{AllocError, Global};
use std::fmt;

/// The scheme of a printer's URI (RFC 3510, section 4.1).
const SCHEME: &[u8] = b"ipp://";

/// Something in settings that is allowed and is hardly meant.
#[derive(Clone, Copy)]
pub enum Advice<'a> {
    /// The base of URIs has another scheme than `ipp://`, or none.
    Scheme {
        uri_base: &'a [u8],
    },
    /// The base of URIs ends in a slash.
    Slash {
        uri_base: &'a [u8],
    },
    /// No device of a printer prints the printer's own default format on its default medium.
    Default {
        printer: &'a PrinterSettings,
    },
    /// No printer has the device.
    Unused {
        device: &'a DeviceSettings,
    },
    /// The names of two devices differ in case alone.
    Case {
        one: &'a DeviceSettings,
        other: &'a DeviceSettings,
    },
}

impl fmt::Display for Advice<'_> {
    fn fmt<W: fmt::Write>(&self, f: &mut fmt::Formatter<W>) -> fmt::Result {
        match self {
            Advice::Scheme { uri_base } => {
                let base = Quoted(uri_base);
                write!(
                    f,
                    "uri_base {base} doesn't begin with ipp://, so clients can't print by IPP"
                )
            }
            Advice::Slash { uri_base } => {
                let base = Quoted(uri_base);
                write!(
                    f,
                    "uri_base {base} ends in a slash, so clients can't print by IPP"
                )
            }
            Advice::Default { printer } => {
                let (name, format, medium) = (
                    Quoted(printer.name.as_bytes()),
                    Quoted(printer.format_default.as_bytes()),
                    Quoted(printer.media_default.as_bytes()),
                );
                write!(
                    f,
                    "printer {name}: none of its devices prints {format} on {medium}, its defaults"
                )
            }
            Advice::Unused { device } => {
                let name = Quoted(device.name.as_bytes());
                write!(f, "device {name}: no printer has it")
            }
            Advice::Case { one, other } => {
                let (one, other) = (Quoted(one.name.as_bytes()), Quoted(other.name.as_bytes()));
                write!(
                    f,
                    "devices {one} and {other}: their names differ in case alone"
                )
            }
        }
    }
}

/// Returns the advice about settings, in the order of their keys. The only error is out of memory.
pub fn advice_on(alloc: Global, settings: &Settings) -> Result<Vec<Advice<'_>>, AllocError> {
    let mut advice = Vec::new(alloc);
    let uri_base = settings.uri_base.as_bytes();
    if !uri_base.starts_with(SCHEME) {
        advice.push(Advice::Scheme { uri_base })?;
    }
    if uri_base.ends_with(b"/") {
        advice.push(Advice::Slash { uri_base })?;
    }
    put_device_advice(settings, &mut advice)?;
    put_printer_advice(settings, &mut advice)?;
    Ok(advice)
}
