//! The names of files (RFC 1179, sections 6.2 and 6.3).
ghost use Rattle.std.specs.Prelude.{◌≡◌, ◌==◌, not};
ghost use Rattle.std.specs.List.{list_all};
ghost use Rattle.lpd.specs.FileName.{is_file_name, is_numbered, is_host};

use crate::item::FileKind;
use base_types::Limits;

/// Returns whether a text is the name of a file of a kind: `cf` or `df`, a letter, three digits, and the name
/// of a host (RFC 1179, sections 6.2 and 6.3).
#[tactic(auto, unfolding(crate::specs::FileName::is_file_name))]
pub(crate) fn is_file_name(kind: FileKind, name: &[u8]) -> bool
    ensures { result ≡ is_file_name kind name.now }
{
    let first = match kind {
        FileKind::Control => b'c',
        FileKind::Data => b'd',
    };
    match name {
        [f, s, letter, hundreds, tens, ones, host @ ..] => {
            *f == first
                && *s == b'f'
                && is_numbered(*letter, *hundreds, *tens, *ones)
                && is_host(host)
        }
        _ => false,
    }
}

/// Returns whether the bytes are a letter and three digits.
fn is_numbered(letter: u8, hundreds: u8, tens: u8, ones: u8) -> bool
    ensures { result ≡ is_numbered letter hundreds tens ones }
{
    letter.is_ascii_alphabetic()
        && hundreds.is_ascii_digit()
        && tens.is_ascii_digit()
        && ones.is_ascii_digit()
}

/// Returns whether a text is the name of a host: 1 to [`Limits::LPD_HOST_BYTES`] bytes without a space.
fn is_host(host: &[u8]) -> bool
    ensures { result ≡ is_host host.now }
{
    1 <= host.len() && host.len() <= Limits::LPD_HOST_BYTES && has_no_space(host)
}

fn has_no_space(host: &[u8]) -> bool
    ensures { result ≡ list_all (λ byte. not (byte == 32)) host.now }
{
    host.iter().all(|byte| *byte != b' ')
}
