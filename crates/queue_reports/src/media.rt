//! The names of media, for people.
use quotes::Escaped;
use std::fmt;

/// A medium as people call it: `A4` for `iso_a4_210x297mm`, `letter` for `na_letter_8.5x11in`. A name that isn't of this
/// form (PWG 5101.1) is shown as it is.
#[derive(Clone, Copy)]
pub(crate) struct MediumName<'a>(pub(crate) &'a [u8]);

/// The part between the first and the last underscore of a name, if there is one.
fn middle_of(name: &[u8]) -> Option<&[u8]> {
    let first = name.iter().position(|byte| *byte == b'_')?;
    let last = name.iter().rposition(|byte| *byte == b'_')?;
    let middle = name.get(first.checked_add(1)?..last)?;
    if middle.is_empty() {
        None
    } else {
        Some(middle)
    }
}

/// The part as a text, if it is of ASCII letters, digits and `-`.
fn word_of(middle: &[u8]) -> Option<&str> {
    let plain = middle
        .iter()
        .all(|byte| byte.is_ascii_alphanumeric() || *byte == b'-');
    if plain {
        str::from_utf8(middle).ok()
    } else {
        None
    }
}

/// The part of a name that people use, if it has the form.
fn short(name: &[u8]) -> Option<&str> {
    word_of(middle_of(name)?)
}

impl fmt::Display for MediumName<'_> {
    fn fmt<W: fmt::Write>(&self, f: &mut fmt::Formatter<W>) -> fmt::Result {
        let Some(word) = short(self.0) else {
            return write!(f, "{}", Escaped(self.0));
        };
        if self.0.starts_with(b"na_") {
            return f.write_str(word);
        }
        for letter in word.chars() {
            write!(f, "{}", letter.to_ascii_uppercase())?;
        }
        Ok(())
    }
}
