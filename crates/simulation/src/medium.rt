//! Names of media.

use base_types::Limits;
use settings_file::{DeviceSettings, Settings};

/// Names of sizes as people and drivers write them, in lower case, and the names of these media (PWG 5101.1).
const SIZES: [(&str, &str); 11] = [
    ("a2", "iso_a2_420x594mm"),
    ("a3", "iso_a3_297x420mm"),
    ("a4", "iso_a4_210x297mm"),
    ("a5", "iso_a5_148x210mm"),
    ("a6", "iso_a6_105x148mm"),
    ("letter", "na_letter_8.5x11in"),
    ("legal", "na_legal_8.5x14in"),
    ("tabloid", "na_ledger_11x17in"),
    ("ledger", "na_ledger_11x17in"),
    ("executive", "na_executive_7.25x10.5in"),
    ("statement", "na_invoice_5.5x8.5in"),
];

/// The medium of a size's name, in any case of letters.
fn medium_of_size(name: &[u8]) -> Option<&'static [u8]> {
    for &(size, medium) in &SIZES {
        if size.as_bytes().eq_ignore_ascii_case(name) {
            return Some(medium.as_bytes());
        }
    }
    None
}

/// Returns whether a device has a medium.
fn has_medium(device: &DeviceSettings, name: &[u8]) -> bool {
    for medium in &device.media {
        if medium.as_bytes() == name {
            return true;
        }
    }
    false
}

/// Returns whether a device of the settings has a medium.
fn is_loaded(settings: &Settings, name: &[u8]) -> bool {
    for device in &settings.devices {
        if has_medium(device, name) {
            return true;
        }
    }
    false
}

/// Returns whether a text is a number, with a point in it or without.
fn is_length(text: &[u8]) -> bool {
    match text::cut_at(text, b'.') {
        Some((whole, part)) => text::is_number(whole) && text::is_number(part),
        None => text::is_number(text),
    }
}

/// Returns whether a text is a width and a height in mm or inches, as `210x297mm`.
fn is_extent(text: &[u8]) -> bool {
    let Some(number) = text.strip_suffix(b"mm").or(text.strip_suffix(b"in")) else {
        return false;
    };
    match text::cut_at(number, b'x') {
        Some((width, height)) => is_length(width) && is_length(height),
        None => false,
    }
}

/// Returns whether a text names a medium and its size, as `iso_a4_210x297mm` (PWG 5101.1, section 5).
fn names_its_size(name: &[u8]) -> bool {
    let mut extent = None;
    for part in name.split(|byte| *byte == b'_').skip(2) {
        extent = Some(part);
    }
    match extent {
        Some(extent) => is_extent(extent),
        None => false,
    }
}

/// The medium of a field: one that a device of the settings has, the name of a size, or the name of another
/// medium.
pub fn medium_of<'a>(field: &'a [u8], settings: &Settings) -> Option<&'a [u8]> {
    if field.len() > Limits::MEDIA_BYTES {
        None
    } else if is_loaded(settings, field) {
        Some(field)
    } else if let Some(medium) = medium_of_size(field) {
        Some(medium)
    } else if names_its_size(field) {
        Some(field)
    } else {
        None
    }
}
