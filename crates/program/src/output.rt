//! The output of a program.
ghost use Rattle.std.specs.Prelude.{◌≤◌, length, take};
ghost use Rattle.std.specs.Io.KnownBytes.{Appends};

use std::io::Write;

/// Writes the bytes until the writer fails. Returns how many bytes it took.
pub fn write_prefix<W: Write>(writer: &mut W, bytes: &[u8]) -> usize
    ensures prefix { Appends (W.contents writer.old) (W.contents writer.new) (take result bytes.now) }
    ensures bound { result ≤ length bytes.now }
{
    let mut at = 0;
    for _ in 0..bytes.len() {
        let (_, rest) = bytes.split_at(at);
        match writer.write(rest) {
            Ok(count) if count > 0 => at += count,
            _ => return at,
        }
    }
    at
}
