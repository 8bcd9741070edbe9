//! The first line of bytes that come in chunks.
ghost use Rattle.std.specs.Prelude.{◌≡◌};
ghost use Rattle.text.specs.FirstLine.{first_line_of};

use crate::bytes::find_byte;

/// The beginning of bytes that are read line by line.
#[derive(Clone, Copy, PartialEq, Eq)]
pub enum FirstLine {
    /// A line of this many bytes, and its line feed.
    Whole(usize),
    /// More bytes than a line may have, and no line feed among them.
    TooLong,
    /// A prefix of a line: its line feed hasn't come.
    Unfinished,
}

/// The first line of the bytes, which has at most `most` bytes with its line feed.
pub fn first_line(bytes: &[u8], most: usize) -> FirstLine
    ensures { result ≡ first_line_of most bytes.now }
{
    match find_byte(bytes, b'\n') {
        Some(place) if place < most => FirstLine::Whole(place),
        None if bytes.len() < most => FirstLine::Unfinished,
        _ => FirstLine::TooLong,
    }
}
