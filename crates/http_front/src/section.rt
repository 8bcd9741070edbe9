//! The end of a head or of a trailer section, which is an empty line.
ghost use Rattle.std.specs.Prelude.{◌≡◌, true};
ghost use Rattle.http_front.specs.Section.{empty_line, empty_line_end, section_in};

use text::FirstLine;

/// The lines up to and with the first empty line, where they have at most `most` bytes.
pub(crate) fn section_in(bytes: &[u8], most: usize) -> FirstLine
    ensures { result ≡ section_in most bytes.now }
{
    let prefix = &bytes[..most.min(bytes.len())];
    match empty_line_end(prefix) {
        Some(end) => FirstLine::Whole(end),
        None if bytes.len() < most => FirstLine::Unfinished,
        None => FirstLine::TooLong,
    }
}

/// The end of the first empty line.
fn empty_line_end(bytes: &[u8]) -> Option<usize>
    ensures { result ≡ empty_line_end true 0 bytes.now }
{
    let mut begins = true;
    for i in 0..bytes.len() {
        if begins {
            let length = empty_line(&bytes[i..]);
            if length > 0 {
                return Some(i + length);
            }
        }
        begins = bytes[i] == b'\n';
    }
    None
}

/// The length of an empty line at the beginning, 0 where no empty line is there.
fn empty_line(bytes: &[u8]) -> usize
    ensures { result ≡ empty_line bytes.now }
{
    match bytes {
        [b'\n', ..] => 1,
        [b'\r', b'\n', ..] => 2,
        _ => 0,
    }
}
