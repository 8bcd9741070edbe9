//! Text between quotation marks.
use std::{fmt, str};

/// Bytes as they are if they are UTF-8 without control characters; otherwise escaped as in a literal of Rust. If
/// they aren't UTF-8, all that isn't ASCII is escaped.
#[derive(Clone, Copy)]
pub struct Escaped<'a>(pub &'a [u8]);

/// Bytes in quotation marks, escaped as in a literal of Rust. If they aren't UTF-8, all that isn't ASCII is
/// escaped.
#[derive(Clone, Copy)]
pub struct Quoted<'a>(pub &'a [u8]);

/// Bytes as a word: as they are if they are ASCII letters, digits and `.-_@+/:` alone, and at least one;
/// otherwise [`Quoted`].
#[derive(Clone, Copy)]
pub struct Word<'a>(pub &'a [u8]);

impl fmt::Display for Escaped<'_> {
    fn fmt<W: fmt::Write>(&self, f: &mut fmt::Formatter<W>) -> fmt::Result {
        match str::from_utf8(self.0) {
            Ok(text) if !text.contains(char::is_control) => f.write_str(text),
            Ok(text) => write!(f, "{}", text.escape_debug()),
            Err(_) => write!(f, "{}", self.0.escape_ascii()),
        }
    }
}

impl fmt::Display for Quoted<'_> {
    fn fmt<W: fmt::Write>(&self, f: &mut fmt::Formatter<W>) -> fmt::Result {
        match str::from_utf8(self.0) {
            Ok(text) => write!(f, "{text:?}"),
            Err(_) => write!(f, "\"{}\"", self.0.escape_ascii()),
        }
    }
}

/// Returns whether a byte needs no quotation marks.
fn is_plain(byte: u8) -> bool {
    byte.is_ascii_alphanumeric() || b".-_@+/:".contains(&byte)
}

impl fmt::Display for Word<'_> {
    fn fmt<W: fmt::Write>(&self, f: &mut fmt::Formatter<W>) -> fmt::Result {
        let plain = !self.0.is_empty() && self.0.iter().all(|byte| is_plain(*byte));
        match str::from_utf8(self.0) {
            Ok(word) if plain => f.write_str(word),
            _ => write!(f, "{}", Quoted(self.0)),
        }
    }
}
