//! The faults of lines, in sentences for the writer of a trace.

use std::fmt;

/// The fault of a line after the settings.
#[derive(Clone, Copy, PartialEq, Eq)]
pub enum LineFault {
    /// The line doesn't begin with a word of a trace.
    Word,
    /// No moment follows `at`.
    Moment,
    /// No bytes follow `ipp`.
    Body,
    /// No device of the settings follows `dev`, or no line that the device may send.
    Device,
    /// No number follows `open`, or no door.
    Opening,
    /// No number follows `in`, or no bytes.
    Input,
    /// No number follows `end`.
    End,
    /// The line opens a connection with a number that another connection has or had.
    Given,
    /// No connection of the line's number is open.
    NotOpen,
}

impl fmt::Display for LineFault {
    fn fmt<W: fmt::Write>(&self, f: &mut fmt::Formatter<W>) -> fmt::Result {
        f.write_str(match self {
            LineFault::Word =>
                "a line is tick, or begins with at, ipp, dev, open, in or end and a space",
            LineFault::Moment => "at is followed by a moment, 0 to 281,474,976,710,656",
            LineFault::Body => "ipp is followed by bytes, each in two digits 0 to 9 and a to f",
            LineFault::Device => {
                "dev is followed by a device of the settings and a line that it may write, but not HELLO"
            }
            LineFault::Opening => {
                "open is followed by a number, 0 to 2,147,483,647, and ipp, lpd or device"
            }
            LineFault::Input => {
                "in is followed by a number and bytes, each in two digits 0 to 9 and a to f"
            }
            LineFault::End => "end is followed by a number, 0 to 2,147,483,647",
            LineFault::Given => "an earlier line opened a connection of this number",
            LineFault::NotOpen => "no connection of this number is open, or its end has come",
        })
    }
}

/// The fault in the form of bytes that aren't a line of a trace.
pub fn form_fault(line: &[u8]) -> LineFault {
    if line.starts_with(b"at ") {
        LineFault::Moment
    } else if line.starts_with(b"ipp ") {
        LineFault::Body
    } else if line.starts_with(b"dev ") {
        LineFault::Device
    } else if line.starts_with(b"open ") {
        LineFault::Opening
    } else if line.starts_with(b"in ") {
        LineFault::Input
    } else if line.starts_with(b"end ") {
        LineFault::End
    } else {
        LineFault::Word
    }
}
