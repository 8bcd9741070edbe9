//! The fields of a head, found by their names.
ghost use Rattle.std.specs.Prelude.{◌≡◌, map};
ghost use Rattle.std.specs.Option.{option_copied};
ghost use Rattle.httparse.specs.Borrowed.{header_parts};
ghost use Rattle.http_front.specs.Fields.{count_of, first_of, all_have, any_lists};

use crate::words::{is_word, lists_word};
use httparse::Header;

/// Returns the number of fields of a name.
pub(crate) fn count_of(name: &[u8], fields: &[Header]) -> usize
    ensures { result ≡ count_of name.now (map header_parts fields.now) }
{
    let mut count = 0;
    for field in fields {
        if is_word(field.name.as_bytes(), name) {
            count += 1;
        }
    }
    count
}

/// The value of the first field of a name.
pub(crate) fn first_of<'a>(name: &[u8], fields: &[Header<'a>]) -> Option<&'a [u8]>
    ensures { option_copied result ≡ first_of name.now (map header_parts fields.now) }
{
    for field in fields {
        if is_word(field.name.as_bytes(), name) {
            return Some(field.value);
        }
    }
    None
}

/// Returns whether all fields of a name have the value.
pub(crate) fn all_have(name: &[u8], value: &[u8], fields: &[Header]) -> bool
    ensures { result ≡ all_have name.now value.now (map header_parts fields.now) }
{
    for field in fields {
        if is_word(field.name.as_bytes(), name) && field.value != value {
            return false;
        }
    }
    true
}

/// Returns whether a field of a name lists a word.
pub(crate) fn any_lists(name: &[u8], word: &[u8], fields: &[Header]) -> bool
    ensures { result ≡ any_lists name.now word.now (map header_parts fields.now) }
{
    for field in fields {
        if is_word(field.name.as_bytes(), name) && lists_word(word, field.value) {
            return true;
        }
    }
    false
}
