//! The sentence about a fault.
use crate::fault::SettingsFault;
use crate::hint::Hint;
use crate::key::Key;
use crate::last_table::LastTable;
use crate::place::{Place, Similar, place_of, similar_key};
use crate::read::read_settings_telling;
use crate::wanted::wanted;
use std::alloc::{AllocError, Global};
use std::{fmt, str};

/// The most bytes of a value that a sentence shows.
const MOST_SHOWN: usize = 60;

/// Returns the sentence about the first fault of a settings file, if it has one, without a line feed. The
/// sentence names the file as `file`.
///
/// # Errors
///
/// The only error is out of memory.
pub fn explain(alloc: Global, file: &str, bytes: &[u8]) -> Result<Option<String>, AllocError> {
    let text = match str::from_utf8(bytes) {
        Ok(text) => text,
        Err(error) => return Ok(Some(no_text(alloc, file, bytes, error.valid_up_to())?)),
    };
    let mut table = LastTable::Root;
    match read_settings_telling(alloc, text, &mut table) {
        Ok(_) => Ok(None),
        Err(fault) => Ok(Some(sentence(alloc, file, text, table, &fault)?)),
    }
}

/// The line, counted from 1, of the byte at `count`.
fn line_after(bytes: &[u8], count: usize) -> usize {
    let prefix = bytes.get(..count).unwrap_or(bytes);
    1 + prefix.iter().filter(|byte| **byte == b'\n').count()
}

/// The sentence about bytes that aren't UTF-8 from `count` on.
fn no_text(alloc: Global, file: &str, bytes: &[u8], count: usize) -> Result<String, AllocError> {
    let line = line_after(bytes, count);
    format!(in alloc; "{file}: line {line}: this is no UTF-8")
}

/// The place of a fault: the file, and the line and the table as far as they are found.
#[derive(Clone, Copy)]
struct At<'a> {
    file: &'a str,
    table: LastTable,
    place: Place<'a>,
}

impl<'a> fmt::Display for At<'a> {
    fn fmt<W: fmt::Write>(&self, f: &mut fmt::Formatter<W>) -> fmt::Result {
        f.write_str(self.file)?;
        if let Some(line) = self.place.line {
            write!(f, ": line {line}")?;
        }
        let Some(number) = number_of(self.table) else {
            return Ok(());
        };
        let joint = if self.place.line.is_some() { "," } else { ":" };
        let kind = kind_of(self.table);
        match self.place.name {
            Some(name) => write!(f, "{joint} {kind} {name}"),
            None => write!(f, "{joint} {kind} {number}"),
        }
    }
}

/// The sentence about a fault in a table.
fn sentence(
    alloc: Global,
    file: &str,
    text: &str,
    table: LastTable,
    fault: &SettingsFault,
) -> Result<String, AllocError> {
    let place = place_of(alloc, text, table, key_of(fault));
    let at = At { file, table, place };
    match fault {
        SettingsFault::NotToml => no_toml(alloc, file, text),
        SettingsFault::Missing(key) => {
            let similar = similar_key(alloc, text, table, key.name());
            about_missing(alloc, &at, *key, similar)
        }
        SettingsFault::WrongKind(key) => about_value(alloc, &at, *key),
        SettingsFault::OutOfRange(key) => about_value(alloc, &at, *key),
        SettingsFault::Unknown(name) => about_unknown(alloc, &at, name_of(name.as_bytes())),
        SettingsFault::Twice(name) => about_twice(alloc, &at, name_of(name.as_bytes())),
        SettingsFault::OutOfMemory => Err(AllocError),
    }
}

/// The key at which a fault is; empty if it is at none.
fn key_of(fault: &SettingsFault) -> &str {
    match fault {
        SettingsFault::Missing(key) => key.name(),
        SettingsFault::WrongKind(key) | SettingsFault::OutOfRange(key) => key.name(),
        SettingsFault::Unknown(name) => name_of(name.as_bytes()),
        SettingsFault::Twice(_) => "name",
        SettingsFault::NotToml | SettingsFault::OutOfMemory => "",
    }
}

/// The sentence about a text that isn't TOML.
fn no_toml(alloc: Global, file: &str, text: &str) -> Result<String, AllocError> {
    match toml::table_from_str(alloc, text) {
        Ok(_) => format!(in alloc; "{file}: this is no TOML"),
        Err(error) if error.is_memory() => Err(AllocError),
        Err(error) => {
            let start = match error.span() {
                Some(span) => span.start,
                None => 0,
            };
            let line = line_after(text.as_bytes(), start);
            let column = column_after(text.as_bytes(), start);
            let why = error.message();
            format!(in alloc; "{file}: line {line}, column {column}: this is no TOML: {why}")
        }
    }
}

/// The column, counted from 1 and in bytes, of the byte at `count`.
fn column_after(bytes: &[u8], count: usize) -> usize {
    let prefix = bytes.get(..count).unwrap_or(bytes);
    let mut column: usize = 1;
    for byte in prefix {
        column = if *byte == b'\n' {
            1
        } else {
            column.saturating_add(1)
        };
    }
    column
}

/// The name in a fault as text; empty if it isn't UTF-8.
fn name_of(name: &[u8]) -> &str {
    str::from_utf8(name).unwrap_or("")
}

/// The word for the kind of a table.
fn kind_of(table: LastTable) -> &'static str {
    match table {
        LastTable::Root => "root",
        LastTable::Device(_) => "device",
        LastTable::Printer(_) => "printer",
    }
}

/// The number of a table among those of its kind, counted from 1.
fn number_of(table: LastTable) -> Option<usize> {
    match table {
        LastTable::Root => None,
        LastTable::Device(number) | LastTable::Printer(number) => Some(number.saturating_add(1)),
    }
}

/// A value as the text writes it, if it is short enough for a line and has no control characters.
fn shown(value: Option<&str>) -> Option<&str> {
    let value = value?;
    if value.len() <= MOST_SHOWN && !value.contains(char::is_control) {
        Some(value)
    } else {
        None
    }
}

/// The sentence about a key that is missing, with a key that may be meant for it.
fn about_missing(
    alloc: Global,
    at: &At<'_>,
    key: Key,
    similar: Option<Similar>,
) -> Result<String, AllocError> {
    let wanted = wanted(alloc, key)?;
    let key = key.name();
    match similar {
        Some(Similar { line, key: written }) => {
            let written = written.escape_debug();
            format!(in alloc; "{at}: {key} is missing; line {line} has {written}, which is no key")
        }
        None => format!(in alloc; "{at}: {key} is missing; it is {wanted}"),
    }
}

/// The sentence about a value that the key may not have.
fn about_value(alloc: Global, at: &At<'_>, key: Key) -> Result<String, AllocError> {
    let wanted = wanted(alloc, key)?;
    let key = key.name();
    match shown(at.place.value) {
        Some(value) => {
            let hint = Hint::about(value);
            format!(in alloc; "{at}: {key} is {value}, and may be {wanted}{hint}")
        }
        None => format!(in alloc; "{at}: {key} may be {wanted}"),
    }
}

/// The sentence about an unknown name: that of a key of the table, or else that of a device.
fn about_unknown(alloc: Global, at: &At<'_>, name: &str) -> Result<String, AllocError> {
    if at.place.value.is_none() {
        return format!(in alloc; "{at}: there is no device {name:?}");
    }
    let kind = kind_of(at.table);
    let (shown, later) = (name.escape_debug(), Key::Finishings.name());
    match at.table {
        LastTable::Root => format!(in alloc; "{at}: {shown} is no key of the settings"),
        LastTable::Device(_) if name == later => {
            format!(in alloc; "{at}: {shown} is a key of a device in version 2: write version = 2")
        }
        _ => format!(in alloc; "{at}: {shown} is no key of a {kind}"),
    }
}

/// The sentence about a name that an earlier table of the kind has.
fn about_twice(alloc: Global, at: &At<'_>, name: &str) -> Result<String, AllocError> {
    let kind = kind_of(at.table);
    format!(in alloc; "{at}: an earlier {kind} has the name {name:?}")
}
