//! The shapes of values.
ghost use Rattle.std.specs.Prelude.{◌↔◌, IsTrue};
ghost use Rattle.ipp_codec.specs.Grammar.{IsWithLanguage, HasShape};

use crate::element::counted_of;

/// Returns whether the bytes are a language and a text.
fn is_with_language(bytes: &[u8]) -> bool
    ensures { IsTrue result ↔ IsWithLanguage bytes.now }
{
    let Ok((_language, rest)) = counted_of(bytes) else {
        return false;
    };
    let Ok((_text, rest)) = counted_of(rest) else {
        return false;
    };
    rest.is_empty()
}

/// Returns whether the bytes have the shape of the tag.
pub(crate) fn has_shape(tag: u8, bytes: &[u8]) -> bool
    ensures { IsTrue result ↔ HasShape tag bytes.now }
{
    match tag {
        0x21 | 0x23 => bytes.len() == 4,
        0x22 => matches!(bytes, [0] | [1]),
        0x31 => bytes.len() == 11,
        0x32 => bytes.len() == 9,
        0x33 => bytes.len() == 8,
        0x35 | 0x36 => is_with_language(bytes),
        _ => true,
    }
}
