//! The words of a field's value.
ghost use Rattle.std.specs.Prelude.{◌≡◌};
ghost use Rattle.http_front.specs.Words.{is_word, lists_word, length_in};

use text::{decimal, trimmed};

/// Returns whether the bytes are the word, without regard to the case of ASCII letters.
pub(crate) fn is_word(bytes: &[u8], word: &[u8]) -> bool
    ensures { result ≡ is_word bytes.now word.now }
{
    bytes.eq_ignore_ascii_case(word)
}

/// Returns whether a word is an element of a list with commas.
#[tactic(auto, unfolding(crate::specs::Words::lists_word))]
pub(crate) fn lists_word(word: &[u8], value: &[u8]) -> bool
    ensures { result ≡ lists_word word.now value.now }
{
    value
        .split(|byte| *byte == b',')
        .any(|part| is_word(trimmed(part), word))
}

/// The number that 1 to 19 digits are; `u32::MAX` if it is above that. Other texts have none.
#[tactic(auto, unfolding(crate::specs::Words::length_in, text::specs::Digits::decimal_in))]
pub(crate) fn length_in(value: &[u8]) -> Option<u32>
    ensures { result ≡ length_in value.now }
{
    if value.len() > 19 {
        return None;
    }
    decimal(value)
}
