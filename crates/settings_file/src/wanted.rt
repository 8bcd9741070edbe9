//! The values that each key may have, in words.
use crate::key::Key;
use base_types::Limits;
use std::alloc::{AllocError, Global};

/// A number with a comma between thousands.
fn grouped(alloc: Global, number: u32) -> Result<String, AllocError> {
    let (millions, thousands, ones) = (number / 1_000_000, number / 1000 % 1000, number % 1000);
    if millions > 0 {
        format!(in alloc; "{millions},{thousands:03},{ones:03}")
    } else if thousands > 0 {
        format!(in alloc; "{thousands},{ones:03}")
    } else {
        format!(in alloc; "{ones}")
    }
}

/// The words for a whole number of ms from `least` to `most`.
fn millis(alloc: Global, least: u32, most: u32) -> Result<String, AllocError> {
    let most = grouped(alloc, most)?;
    format!(in alloc; "{least} to {most}, in ms")
}

/// The words for the name of a device or a printer.
fn name(alloc: Global) -> Result<String, AllocError> {
    let most = Limits::NAME_BYTES;
    format!(in alloc; "1 to {most} letters, digits, '_' and '-'")
}

/// The words for the name of a medium.
fn medium(alloc: Global) -> Result<String, AllocError> {
    let most = Limits::MEDIA_BYTES;
    format!(in alloc;
        "a medium's name, as \"iso_a4_210x297mm\": 1 to {most} of a to z, digits, '.', '_' and '-'"
    )
}

/// The words for a document format.
fn format(alloc: Global) -> Result<String, AllocError> {
    let most = Limits::FORMAT_BYTES;
    format!(in alloc;
        "a document format, as \"application/pdf\": at most {most} bytes that print, without space, ',' and capitals"
    )
}

/// The words for a list of at most `most` texts, each as `each` writes it.
fn list(alloc: Global, most: usize, each: &str) -> Result<String, AllocError> {
    format!(in alloc; "a list of at most {most} texts, each {each}")
}

/// The words for 1 to `most` tables.
fn tables(alloc: Global, most: usize, key: Key) -> Result<String, AllocError> {
    let name = key.name();
    format!(in alloc; "1 to {most} tables, each written [[{name}]]")
}

/// The words for the values that a key may have.
pub(crate) fn wanted(alloc: Global, key: Key) -> Result<String, AllocError> {
    match key {
        Key::Version => format!(in alloc; "1 or 2"),
        Key::UriBase => {
            let most = Limits::URI_BASE_BYTES;
            format!(in alloc;
                "what URIs begin with, as \"ipp://localhost:631\": 1 to {most} bytes that print, without space"
            )
        }
        Key::Operators => list(alloc, Limits::LIST_ENTRIES, "the name of a user"),
        Key::Device => tables(alloc, Limits::DEVICES, key),
        Key::Printer => tables(alloc, Limits::PRINTERS, key),
        Key::Name => name(alloc),
        Key::RateOne | Key::RateTwo => millis(alloc, 1, Limits::RATE),
        Key::Setup => millis(alloc, 0, Limits::SETUP),
        Key::Media => list(alloc, Limits::LIST_ENTRIES, &medium(alloc)?),
        Key::Formats => list(alloc, Limits::LIST_ENTRIES, &format(alloc)?),
        Key::Finishings => list(
            alloc,
            Limits::LIST_ENTRIES,
            "\"staple\", \"punch\" or \"bind\"",
        ),
        Key::Devices => list(alloc, Limits::DEVICES, "the name of a device"),
        Key::MediaDefault => medium(alloc),
        Key::FormatDefault => format(alloc),
    }
}
