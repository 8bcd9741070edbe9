//! The names of the files of a directory.
use std::alloc::{AllocError, Global};
use std::fmt;
use text::decimal;

/// The fewest digits of a number in a name.
const DIGITS: usize = 6;

/// The kind of a file, by its name.
#[derive(Clone, Copy)]
pub(crate) enum Named {
    /// A file of the journal with this number.
    Trace(u32),
    /// A file that was put aside when the journal began anew.
    Old(u32),
    /// A file whose first lines weren't all written.
    Unfinished(u32),
    Other,
}

/// The name of the file of the journal with a number, for a text.
#[derive(Clone, Copy)]
pub(crate) struct TraceName(pub(crate) u32);

impl fmt::Display for TraceName {
    fn fmt<W: fmt::Write>(&self, f: &mut fmt::Formatter<W>) -> fmt::Result {
        let number = self.0;
        write!(f, "{number:06}.trace")
    }
}

/// The name of the file of the journal with a number.
pub(crate) fn trace_name(alloc: Global, number: u32) -> Result<String, AllocError> {
    format!(in alloc; "{number:06}.trace")
}

/// The name of the file with a number that was put aside.
pub(crate) fn old_name(alloc: Global, number: u32) -> Result<String, AllocError> {
    format!(in alloc; "{number:06}.trace.old")
}

/// The name of the file with a number while its first lines are written.
pub(crate) fn unfinished_name(alloc: Global, number: u32) -> Result<String, AllocError> {
    format!(in alloc; "{number:06}.new")
}

/// The number of digits as a name has them; `None` if no name has such.
fn number_of(digits: &[u8]) -> Option<u32> {
    if digits.len() < DIGITS || (digits.len() > DIGITS && digits.first() == Some(&b'0')) {
        return None;
    }
    decimal(digits)
}

/// The kind of the file of a name.
pub(crate) fn read_name(name: &[u8]) -> Named {
    if let Some(digits) = name.strip_suffix(b".trace") {
        return number_of(digits).map_or(Named::Other, |number| Named::Trace(number));
    }
    if let Some(digits) = name.strip_suffix(b".trace.old") {
        return number_of(digits).map_or(Named::Other, |number| Named::Old(number));
    }
    match name.strip_suffix(b".new") {
        Some(digits) => number_of(digits).map_or(Named::Other, |number| Named::Unfinished(number)),
        None => Named::Other,
    }
}
