//! Words with blanks around them, and values with parameters after them.
ghost use Rattle.std.specs.Prelude.{◌≡◌, reverse};
ghost use Rattle.text.specs.Trimmed.{from_word, trimmed, without_parameters};

use crate::bytes::find_byte;

/// The bytes without the spaces and tabs around them.
#[tactic(auto, unfolding(crate::specs::Trimmed::trimmed))]
pub fn trimmed(bytes: &[u8]) -> &[u8]
    ensures { result.now ≡ trimmed bytes.now }
{
    up_to_word(from_word(bytes))
}

/// A value without its parameters, such as a media type's (RFC 9110, section 8.3.1): up to the first `;`,
/// trimmed.
#[tactic(auto, unfolding(crate::specs::Trimmed::without_parameters))]
pub fn without_parameters(value: &[u8]) -> &[u8]
    ensures { result.now ≡ without_parameters value.now }
{
    match find_byte(value, b';') {
        Some(end) => trimmed(&value[..end]),
        None => trimmed(value),
    }
}

/// The bytes from the first that isn't a space or a tab.
fn from_word(bytes: &[u8]) -> &[u8]
    ensures { result.now ≡ from_word bytes.now }
{
    match bytes {
        [b' ' | b'\t', rest @ ..] => from_word(rest),
        _ => bytes,
    }
}

/// The bytes up to the last that isn't a space or a tab.
fn up_to_word(bytes: &[u8]) -> &[u8]
    ensures { result.now ≡ reverse (from_word (reverse bytes.now)) }
{
    match bytes {
        [rest @ .., b' ' | b'\t'] => up_to_word(rest),
        _ => bytes,
    }
}
