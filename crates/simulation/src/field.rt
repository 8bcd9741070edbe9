//! The values of fields.
ghost use Rattle.std.specs.Prelude.{◌≤◌, ◌<◌, ◌^◌, ◌-◌, IfSome};

use base_types::{Finishings, Sides};
use printer_objects::Finishing;

/// The number of a field, from `least` to `most`.
pub(crate) fn number_in(field: &[u8], least: u32, most: u32) -> Option<u32>
    requires { most < 2 ^ 32 }
    ensures { IfSome result (λ n. (least ≤ n) × (n ≤ most)) }
{
    let number = text::number_up_to(field, u64::from(most))? as u32;
    if number < least { None } else { Some(number) }
}

fn finishing_named(word: &[u8]) -> Option<Finishing> {
    if word == b"staple".as_slice() {
        Some(Finishing::Staple)
    } else if word == b"punch".as_slice() {
        Some(Finishing::Punch)
    } else if word == b"bind".as_slice() {
        Some(Finishing::Bind)
    } else {
        None
    }
}

/// The finishings with that of a word, if it isn't among them.
fn with_word(found: Finishings, word: &[u8]) -> Option<Finishings> {
    let finishing = finishing_named(word)?;
    if finishing.is_in(found) {
        None
    } else {
        Some(finishing.with(found))
    }
}

/// The finishings of words with single spaces between them.
pub(crate) fn finishings_named(field: &[u8]) -> Option<Finishings> {
    let mut found = Finishings::none();
    for word in field.split(|byte| *byte == b' ') {
        found = with_word(found, word)?;
    }
    Some(found)
}

/// Words for the sides of a job, as people, drivers and logs write them.
const SIDES: [(&str, Sides); 23] = [
    ("one-sided", Sides::One),
    ("two-sided-long-edge", Sides::LongEdge),
    ("two-sided-short-edge", Sides::ShortEdge),
    ("yes", Sides::LongEdge),
    ("y", Sides::LongEdge),
    ("true", Sides::LongEdge),
    ("1", Sides::LongEdge),
    ("duplex", Sides::LongEdge),
    ("two-sided", Sides::LongEdge),
    ("double-sided", Sides::LongEdge),
    ("long-edge", Sides::LongEdge),
    ("duplexnotumble", Sides::LongEdge),
    ("short-edge", Sides::ShortEdge),
    ("duplextumble", Sides::ShortEdge),
    ("no", Sides::One),
    ("n", Sides::One),
    ("false", Sides::One),
    ("0", Sides::One),
    ("none", Sides::One),
    ("simplex", Sides::One),
    ("single-sided", Sides::One),
    ("not duplex", Sides::One),
    ("not-duplex", Sides::One),
];

/// The sides of a word, in upper or lower case.
pub(crate) fn sides_named(field: &[u8]) -> Option<Sides> {
    for &(word, sides) in &SIDES {
        if word.as_bytes().eq_ignore_ascii_case(field) {
            return Some(sides);
        }
    }
    None
}

/// A field of at most `most` bytes.
pub(crate) fn up_to(field: &[u8], most: usize) -> Option<&[u8]> {
    if field.len() <= most {
        Some(field)
    } else {
        None
    }
}
