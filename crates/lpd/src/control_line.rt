//! A line of a control file.
ghost use Rattle.std.specs.Prelude.{◌≡◌, IfOk};
ghost use Rattle.lpd.specs.Control.{print_of, other_line, lettered, line_in};
ghost use Rattle.lpd.specs.ControlLine.{parsed_line};

use crate::control::{ControlFault, Print, PrintFormat};
use crate::file_name::is_file_name;
use crate::item::FileKind;
use base_types::{Limits, Text};
use std::alloc::{AllocError, Global};

/// A line of a control file.
#[derive(Drop)]
pub(crate) enum ControlLine {
    Host(Text),
    User(Text),
    JobName(Text),
    SourceName(Text),
    Prints(Print),
    /// A line that has no effect on the job.
    Ignored,
}

/// The content of a line, or its fault.
type Parsed = Result<ControlLine, ControlFault>;

/// Reads a line, without its line feed.
pub(crate) fn read_line(alloc: Global, line: &[u8]) -> Result<Parsed, AllocError>
    ensures { IfOk result (λ parsed. parsed_line parsed ≡ line_in line.now) }
{
    let Some((letter, operand)) = line.split_first() else {
        return Ok(Err(ControlFault::BadLine));
    };
    if line.len() >= Limits::LPD_LINE_BYTES {
        return Ok(Err(ControlFault::BadLine));
    }
    read_lettered(alloc, *letter, operand)
}

/// Reads a line by its letter and operand (RFC 1179, section 7).
fn read_lettered(alloc: Global, letter: u8, operand: &[u8]) -> Result<Parsed, AllocError>
    ensures { IfOk result (λ parsed. parsed_line parsed ≡ lettered letter operand.now) }
{
    match letter {
        b'H' => Ok(Ok(ControlLine::Host(Text::copy_of(alloc, operand)?))),
        b'P' => Ok(Ok(ControlLine::User(Text::copy_of(alloc, operand)?))),
        b'J' => Ok(Ok(ControlLine::JobName(Text::copy_of(alloc, operand)?))),
        b'N' => Ok(Ok(ControlLine::SourceName(Text::copy_of(alloc, operand)?))),
        b'f' | b'p' => print(alloc, PrintFormat::PlainText, operand),
        b'l' => print(alloc, PrintFormat::OctetStream, operand),
        b'o' => print(alloc, PrintFormat::PostScript, operand),
        _ => Ok(other(letter)),
    }
}

/// The content of a line of any other letter: a fault or [`ControlLine::Ignored`].
fn other(letter: u8) -> Parsed
    ensures { parsed_line result ≡ other_line letter }
{
    match letter {
        b'c' | b'd' | b'g' | b'n' | b'r' | b't' | b'v' => Err(ControlFault::FormatLeftOut),
        _ if letter.is_ascii_uppercase() || letter.is_ascii_digit() => Ok(ControlLine::Ignored),
        _ => Err(ControlFault::BadLine),
    }
}

/// Reads a print line, of a format and the name of a data file.
fn print(alloc: Global, format: PrintFormat, name: &[u8]) -> Result<Parsed, AllocError>
    ensures { IfOk result (λ parsed. parsed_line parsed ≡ print_of format name.now) }
{
    if !is_file_name(FileKind::Data, name) {
        return Ok(Err(ControlFault::BadLine));
    }
    let name = Text::copy_of(alloc, name)?;
    Ok(Ok(ControlLine::Prints(Print { format, name })))
}
