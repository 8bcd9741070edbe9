//! The forms of names, formats, media and URI bases.
ghost use Rattle.std.specs.Prelude.{◌≡◌};
ghost use Rattle.std.specs.Char.{is_ascii_graphic};
ghost use Rattle.std.specs.List.{list_all};
ghost use Rattle.base_types.specs.Forms.{has_length, is_name_byte, is_media_byte, is_format_byte, is_name, is_media, is_format, is_uri_base};

use crate::limits::Limits;

// Returns whether a text has 1 to `most` bytes.
fn has_length(text: &[u8], most: usize) -> bool
    ensures { result ≡ has_length most text.now }
{
    1 <= text.len() && text.len() <= most
}

// Returns whether a byte is a letter, a digit, `_` or `-`.
fn is_name_byte(byte: u8) -> bool
    ensures { result ≡ is_name_byte byte }
{
    byte.is_ascii_alphanumeric() || byte == b'_' || byte == b'-'
}

// Returns whether a byte is a small letter, a digit, `.`, `_` or `-`.
fn is_media_byte(byte: u8) -> bool
    ensures { result ≡ is_media_byte byte }
{
    byte.is_ascii_lowercase()
        || byte.is_ascii_digit()
        || byte == b'.'
        || byte == b'_'
        || byte == b'-'
}

// Returns whether a byte prints and isn't a space, a comma or a capital letter.
fn is_format_byte(byte: u8) -> bool
    ensures { result ≡ is_format_byte byte }
{
    byte.is_ascii_graphic() && byte != b',' && !byte.is_ascii_uppercase()
}

/// Returns whether a text is the name of a device or a printer: 1 to [`Limits::NAME_BYTES`] letters, digits,
/// `_` and `-`.
#[tactic(auto, unfolding(crate::specs::Forms::is_name))]
pub fn is_name(text: &[u8]) -> bool
    ensures { result ≡ is_name text.now }
{
    if !has_length(text, Limits::NAME_BYTES) {
        return false;
    }
    has_name_bytes(text)
}

/// Returns whether a text is the name of a medium: 1 to [`Limits::MEDIA_BYTES`] small letters, digits, `.`,
/// `_` and `-`.
#[tactic(auto, unfolding(crate::specs::Forms::is_media))]
pub fn is_media(text: &[u8]) -> bool
    ensures { result ≡ is_media text.now }
{
    if !has_length(text, Limits::MEDIA_BYTES) {
        return false;
    }
    has_media_bytes(text)
}

/// Returns whether a text is a document format: 1 to [`Limits::FORMAT_BYTES`] bytes that print, without
/// spaces, commas and capital letters.
#[tactic(auto, unfolding(crate::specs::Forms::is_format))]
pub fn is_format(text: &[u8]) -> bool
    ensures { result ≡ is_format text.now }
{
    if !has_length(text, Limits::FORMAT_BYTES) {
        return false;
    }
    has_format_bytes(text)
}

/// Returns whether a text is the base of the server's URIs: 1 to [`Limits::URI_BASE_BYTES`] bytes that print,
/// without spaces.
#[tactic(auto, unfolding(crate::specs::Forms::is_uri_base))]
pub fn is_uri_base(text: &[u8]) -> bool
    ensures { result ≡ is_uri_base text.now }
{
    if !has_length(text, Limits::URI_BASE_BYTES) {
        return false;
    }
    has_uri_base_bytes(text)
}

fn has_name_bytes(text: &[u8]) -> bool
    ensures { result ≡ list_all is_name_byte text.now }
{
    text.iter().all(|byte| is_name_byte(*byte))
}

fn has_media_bytes(text: &[u8]) -> bool
    ensures { result ≡ list_all is_media_byte text.now }
{
    text.iter().all(|byte| is_media_byte(*byte))
}

fn has_format_bytes(text: &[u8]) -> bool
    ensures { result ≡ list_all is_format_byte text.now }
{
    text.iter().all(|byte| is_format_byte(*byte))
}

fn has_uri_base_bytes(text: &[u8]) -> bool
    ensures { result ≡ list_all is_ascii_graphic text.now }
{
    text.iter().all(|byte| byte.is_ascii_graphic())
}
