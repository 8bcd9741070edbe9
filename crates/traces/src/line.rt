//! The content of a trace's line.
ghost use Rattle.std.specs.Prelude.{◌≡◌, ◌++◌, ◌-◌, IfOk, codes, position};
ghost use Rattle.std.specs.Char.{is_ascii_uppercase};
ghost use Rattle.std.specs.List.{list_any};
ghost use Rattle.std.specs.Str.{bytes_eq};
ghost use Rattle.traces.specs.TraceLine.{Finds, IsMomentIn, IsBodyIn, IsNumberIn, IsOpeningIn, IsInputIn, IsLine};

use base_types::{DeviceId, Limits, Moment, Report, Text};
use device_link::read_report;
use hex::FromHexError;
use std::alloc::{AllocError, Global};
use text::{cut_at, number_up_to};
use wires::Door;

/// The content of a trace's line after the settings.
#[derive(Drop)]
pub enum Line {
    /// Sets the moment of the following lines.
    At(Moment),
    /// An IPP body comes.
    Ipp(Vec<u8>),
    /// A report of a device.
    Device(DeviceId, Report),
    /// The time went on.
    Tick,
    /// A connection is opened.
    Open(Opening),
    /// Bytes come on a connection.
    In(Input),
    /// The input of the connection of a number ends.
    End(u64),
}

/// A connection that is opened.
#[derive(Clone, Copy)]
pub struct Opening {
    /// The number of the connection from now on.
    pub number: u64,
    pub door: Door,
}

/// Bytes that come on a connection.
#[derive(Drop)]
pub struct Input {
    /// The number of the connection.
    pub number: u64,
    pub bytes: Vec<u8>,
}

/// The greatest number of a connection.
const LAST_NUMBER: u64 = Limits::LAST_INTEGER as u64;

/// Reads a line of a trace, where the devices have these names. Returns `None` if it isn't such a line.
///
/// The only error is out of memory.
pub fn read_line(alloc: Global, text: &[u8], devices: &[Text]) -> Result<Option<Line>, AllocError>
    ensures { IfOk result (λ line. Finds (IsLine devices.now text.now) line) }
{
    if text == b"tick".as_slice() {
        return Ok(Some(Line::Tick));
    }
    if let Some(digits) = text.strip_prefix(b"at ") {
        return Ok(read_moment(digits).map(|moment| Line::At(moment)));
    }
    if let Some(digits) = text.strip_prefix(b"ipp ") {
        return Ok(read_body(alloc, digits)?.map(|body| Line::Ipp(body)));
    }
    if let Some(operands) = text.strip_prefix(b"dev ") {
        return read_device_line(alloc, operands, devices);
    }
    if let Some(operands) = text.strip_prefix(b"open ") {
        return Ok(read_opening(operands).map(|opening| Line::Open(opening)));
    }
    if let Some(operands) = text.strip_prefix(b"in ") {
        return Ok(read_input(alloc, operands)?.map(|input| Line::In(input)));
    }
    match text.strip_prefix(b"end ") {
        Some(digits) => Ok(read_number(digits).map(|number| Line::End(number))),
        None => Ok(None),
    }
}

/// Reads the number of a connection, in decimal digits.
fn read_number(digits: &[u8]) -> Option<u64>
    ensures { Finds (IsNumberIn digits.now) result }
{
    number_up_to(digits, LAST_NUMBER)
}

/// Reads a number, a space and the word of a door.
fn read_opening(operands: &[u8]) -> Option<Opening>
    ensures { Finds (λ opening. IsOpeningIn operands.now opening.number opening.door) result }
{
    let Some(cut) = cut_at(operands, b' ') else {
        return None;
    };
    let Some(number) = read_number(cut.0) else {
        return None;
    };
    let Some(door) = Door::of_word(cut.1) else {
        return None;
    };
    Some(Opening { number, door })
}

/// Reads a number, a space and bytes in hexadecimal digits.
fn read_input(alloc: Global, operands: &[u8]) -> Result<Option<Input>, AllocError>
    ensures { IfOk result (Finds (λ input. IsInputIn operands.now input.number input.bytes.items)) }
{
    let Some(cut) = cut_at(operands, b' ') else {
        return Ok(None);
    };
    let Some(number) = read_number(cut.0) else {
        return Ok(None);
    };
    let bytes = read_body(alloc, cut.1)?;
    Ok(bytes.map(|bytes| Input { number, bytes }))
}

/// Reads a moment in decimal digits.
fn read_moment(digits: &[u8]) -> Option<Moment>
    ensures { Finds (IsMomentIn digits.now) result }
{
    let number = number_up_to(digits, Limits::LAST_MOMENT)?;
    Moment::new(number)
}

/// Reads bytes in lower-case hexadecimal digits, at least one byte.
fn read_body(alloc: Global, digits: &[u8]) -> Result<Option<Vec<u8>>, AllocError>
    ensures { IfOk result (λ body. Finds (λ body. IsBodyIn digits.now body.items) body) }
{
    if digits.is_empty() || has_capital(digits) {
        return Ok(None);
    }
    match hex::decode(alloc, digits) {
        Ok(bytes) => Ok(Some(bytes)),
        Err(error) => match error {
            FromHexError::OutOfMemory => Err(AllocError),
            _ => Ok(None),
        },
    }
}

/// Returns whether an upper-case letter is among the digits.
fn has_capital(digits: &[u8]) -> bool
    ensures { result ≡ list_any is_ascii_uppercase digits.now }
{
    digits.iter().any(|byte| byte.is_ascii_uppercase())
}

/// Reads a device's name, a space and a line that the device sends.
fn read_device_line(
    alloc: Global,
    operands: &[u8],
    devices: &[Text],
) -> Result<Option<Line>, AllocError>
    ensures { IfOk result (λ line. Finds (IsLine devices.now (codes "dev " ++ operands.now)) line) }
{
    let Some(cut) = cut_at(operands, b' ') else {
        return Ok(None);
    };
    let Some(place) = place_of(devices, cut.0) else {
        return Ok(None);
    };
    let device = DeviceId::new(place);
    let report = read_report(alloc, cut.1)?;
    Ok(report.map(|report| Line::Device(device, report)))
}

/// The place of the first device with a name.
fn place_of(devices: &[Text], name: &[u8]) -> Option<usize>
    ensures { result ≡ position (λ device. bytes_eq device name.now) devices.now }
{
    devices.iter().position(|device| device.as_bytes() == name)
}
