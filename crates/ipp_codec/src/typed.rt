//! Values read by their tags (RFC 8010, section 3.9).
ghost use Rattle.std.specs.Prelude.{◌≡◌, ℕ, List, IfSome, IsNone};
ghost use Rattle.ipp_codec.specs.Typed.{integer_in, integer_of, boolean_in, boolean_of, HasText, HoldsText};
ghost use Rattle.ipp_codec.specs.Views.{value_shown};

use crate::element::counted_of;
use crate::view::ValueView;

/// The number of four bytes, in two's complement.
pub(crate) fn integer_of(bytes: &[u8]) -> Option<i32>
    ensures { result ≡ integer_of bytes.now }
{
    let [first, second, third, fourth] = bytes else {
        return None;
    };
    Some(u32::from_be_bytes([*first, *second, *third, *fourth]).cast_signed())
}

/// The truth value of one byte.
fn boolean_of(bytes: &[u8]) -> Option<bool>
    ensures { result ≡ boolean_of bytes.now }
{
    match bytes {
        [0] => Some(false),
        [1] => Some(true),
        _ => None,
    }
}

/// The text after a language.
fn text_of(bytes: &[u8]) -> Option<&[u8]>
    ensures some { IfSome result (λ text. HasText bytes.now text.now) }
    ensures none { IsNone result → (text : List ℕ) → ¬ (HasText bytes.now text) }
{
    let Ok((_language, rest)) = counted_of(bytes) else {
        return None;
    };
    let Ok((text, rest)) = counted_of(rest) else {
        return None;
    };
    if rest.is_empty() { Some(text) } else { None }
}

impl<'a> ValueView<'a> {
    /// The number of an integer or an enum, if its bytes are four.
    pub fn as_integer(&self) -> Option<i32>
        ensures { result ≡ integer_in (value_shown self.now) }
    {
        match self.tag {
            0x21 | 0x23 => integer_of(self.content),
            _ => None,
        }
    }

    /// The truth value of a boolean, if its byte is 0 or 1.
    pub fn as_boolean(&self) -> Option<bool>
        ensures { result ≡ boolean_in (value_shown self.now) }
    {
        match self.tag {
            0x22 => boolean_of(self.content),
            _ => None,
        }
    }

    /// The text of a text or a name, with or without a language.
    pub fn as_text(&self) -> Option<&'a [u8]>
        ensures some { IfSome result (λ text. HoldsText (value_shown self.now) text.now) }
        ensures none { IsNone result → (text : List ℕ) → ¬ (HoldsText (value_shown self.now) text) }
    {
        match self.tag {
            0x41 | 0x42 => Some(self.content),
            0x35 | 0x36 => text_of(self.content),
            _ => None,
        }
    }
}
