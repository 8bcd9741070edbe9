//! The content of a line of a recording.
ghost use Rattle.std.specs.Prelude.{IfOk, IfSome, IsTrue};
ghost use Rattle.recordings.specs.Lines.{IsLineOf};

use crate::data::read_data;
use crate::write::put_entry;
use base_types::{Limits, Moment};
use std::alloc::{AllocError, Global};
use text::{cut_at, number_up_to};
use wires::{Door, WireId};

/// A line of a recording.
#[derive(Drop)]
pub enum Entry {
    /// A connection was accepted.
    Accepted(Accepted),
    /// Bytes were read, and are in the line.
    Came(Came),
    /// Bytes were read, and are after the line as they are.
    Octets(Came),
    /// Bytes were read, with octets after them that are left out.
    Zeros(CameZeros),
    /// The input of the connection of a number ended.
    Ended(WireId),
    /// A read of the connection failed.
    Failed(WireId),
    /// Bytes of a write were taken.
    Sent(Sent),
    /// The connection of a number takes no more bytes.
    Shut(WireId),
    /// A write on the connection failed.
    Broken(WireId),
    /// The connection of a number was closed.
    Closed(WireId),
    /// Memory was refused to the server.
    Refused,
    /// The server had been restarted: it lost its connections in this turn, and made no plan.
    Restarted,
    /// A turn at this moment ended.
    Turn(Moment),
}

/// A connection that was accepted at a door.
#[derive(Clone, Copy)]
pub struct Accepted {
    pub door: Door,
    pub id: WireId,
}

/// Bytes that came on a connection.
#[derive(Drop)]
pub struct Came {
    pub id: WireId,
    pub bytes: Vec<u8>,
}

/// Bytes that came on a connection, and the number of zeros after them, for octets that are left out.
#[derive(Drop)]
pub struct CameZeros {
    pub id: WireId,
    pub bytes: Vec<u8>,
    pub zeros: usize,
}

impl CameZeros {
    /// The bytes, and the zeros after them. The only error is out of memory.
    pub fn octets(&self, alloc: Global) -> Result<Vec<u8>, AllocError> {
        let mut octets = Vec::from_slice(alloc, &self.bytes)?;
        octets.resize(self.bytes.len().saturating_add(self.zeros), 0)?;
        Ok(octets)
    }
}

/// The number of bytes that were taken on a connection, with their sum if that was noted.
#[derive(Clone, Copy, PartialEq, Eq)]
pub struct Sent {
    pub id: WireId,
    pub count: usize,
    pub sum: Option<u32>,
}

/// The greatest number of a connection, and the greatest number of bytes.
const LAST_NUMBER: u64 = 4_294_967_295;

/// The most zeros of a line; the server reads fewer bytes at once.
const MOST_ZEROS: u64 = 1_048_576;

/// Reads the number of zeros, at least one, in decimal digits.
fn read_count(digits: &[u8]) -> Option<usize> {
    match number_up_to(digits, MOST_ZEROS) {
        Some(count) if count > 0 => usize::try_from(count).ok(),
        _ => None,
    }
}

/// Reads the number of a connection in decimal digits.
fn read_id(digits: &[u8]) -> Option<WireId> {
    match number_up_to(digits, LAST_NUMBER) {
        Some(number) => u32::try_from(number).ok(),
        None => None,
    }
}

/// Reads the word for a door and a number.
fn read_accepted(operands: &[u8]) -> Option<Entry> {
    let (word, digits) = cut_at(operands, b' ')?;
    let door = Door::of_word(word)?;
    let id = read_id(digits)?;
    Some(Entry::Accepted(Accepted { door, id }))
}

/// Reads a number and bytes, at least one.
fn read_came(alloc: Global, operands: &[u8]) -> Result<Option<Entry>, AllocError> {
    let Some((digits, written)) = cut_at(operands, b' ') else {
        return Ok(None);
    };
    let Some(id) = read_id(digits) else {
        return Ok(None);
    };
    match read_data(alloc, written)? {
        Some(bytes) if !bytes.is_empty() => Ok(Some(Entry::Came(Came { id, bytes }))),
        _ => Ok(None),
    }
}

/// Reads a number, the number of octets that follow, and the octets, at least one.
fn read_octets(alloc: Global, operands: &[u8]) -> Result<Option<Entry>, AllocError> {
    let Some((digits, counted)) = cut_at(operands, b' ') else {
        return Ok(None);
    };
    let Some((_, octets)) = cut_at(counted, b'\n') else {
        return Ok(None);
    };
    let Some(id) = read_id(digits) else {
        return Ok(None);
    };
    let mut bytes = Vec::new(alloc);
    bytes.extend_from_slice(octets)?;
    if bytes.is_empty() {
        return Ok(None);
    }
    Ok(Some(Entry::Octets(Came { id, bytes })))
}

/// Reads a number, the number of zeros, at least one, and the bytes before them.
fn read_zeros(alloc: Global, operands: &[u8]) -> Result<Option<Entry>, AllocError> {
    let Some((digits, more)) = cut_at(operands, b' ') else {
        return Ok(None);
    };
    let Some((count, written)) = cut_at(more, b' ') else {
        return Ok(None);
    };
    let (Some(id), Some(zeros)) = (read_id(digits), read_count(count)) else {
        return Ok(None);
    };
    let bytes = read_data(alloc, written)?;
    Ok(bytes.map(|bytes| Entry::Zeros(CameZeros { id, bytes, zeros })))
}

/// The number of octets that follow this line as they are, before a line feed. `None` if none follow.
pub fn octets_after(line: &[u8]) -> Option<usize> {
    let operands = line.strip_prefix(b"octets ")?;
    let (_, count) = cut_at(operands, b' ')?;
    Some(read_id(count)? as usize)
}

/// Reads a sum, or `-` for no sum.
fn read_sum(word: &[u8]) -> Option<Option<u32>> {
    if word == b"-".as_slice() {
        return Some(None);
    }
    Some(Some(read_id(word)?))
}

/// Reads a number, the number of bytes, and their sum.
fn read_sent(operands: &[u8]) -> Option<Entry> {
    let (digits, more) = cut_at(operands, b' ')?;
    let (count, sum) = cut_at(more, b' ')?;
    let id = read_id(digits)?;
    let count = read_id(count)?;
    let sum = read_sum(sum)?;
    Some(Entry::Sent(Sent {
        id,
        count: count as usize,
        sum,
    }))
}

fn read_turn(digits: &[u8]) -> Option<Entry> {
    let number = number_up_to(digits, Limits::LAST_MOMENT)?;
    Some(Entry::Turn(Moment::new(number)?))
}

/// Reads a line of a recording, without its last line feed, and with the octets that follow it. Returns
/// `None` if it isn't such a line, or isn't written as the writer writes it. The only error is out of memory.
pub fn read_entry(alloc: Global, line: &[u8]) -> Result<Option<Entry>, AllocError>
    ensures { IfOk result (λ read. IfSome read (λ entry. IsLineOf line.now entry)) }
{
    match read_any(alloc, line)? {
        Some(entry) => kept(alloc, entry, line),
        None => Ok(None),
    }
}

/// The entry, if this line is its written form. The only error is out of memory.
fn kept(alloc: Global, entry: Entry, line: &[u8]) -> Result<Option<Entry>, AllocError>
    ensures { IfOk result (λ read. IfSome read (λ entry. IsLineOf line.now entry)) }
{
    if is_written_so(alloc, &entry, line)? {
        Ok(Some(entry))
    } else {
        Ok(None)
    }
}

/// Returns whether the line is the written form of an entry. The only error is out of memory.
fn is_written_so(alloc: Global, entry: &Entry, line: &[u8]) -> Result<bool, AllocError>
    ensures { IfOk result (λ so. IsTrue so → IsLineOf line.now entry.now) }
{
    let mut written = Vec::new(alloc);
    let mut wanted = Vec::new(alloc);
    put_entry(&mut written, entry)?;
    wanted.extend_from_slice(line)?;
    wanted.extend_from_slice(b"\n")?;
    Ok(written.as_slice() == wanted.as_slice())
}

/// Reads a line with numbers in any written form. The only error is out of memory.
fn read_any(alloc: Global, line: &[u8]) -> Result<Option<Entry>, AllocError> {
    if let Some(operands) = line.strip_prefix(b"read ") {
        return read_came(alloc, operands);
    }
    if let Some(operands) = line.strip_prefix(b"octets ") {
        return read_octets(alloc, operands);
    }
    if let Some(operands) = line.strip_prefix(b"zeros ") {
        return read_zeros(alloc, operands);
    }
    Ok(read_plain(line))
}

/// Reads a line without bytes, with numbers in any written form.
fn read_plain(line: &[u8]) -> Option<Entry> {
    if let Some(operands) = line.strip_prefix(b"sent ") {
        return read_sent(operands);
    }
    if let Some(digits) = line.strip_prefix(b"turn ") {
        return read_turn(digits);
    }
    if let Some(operands) = line.strip_prefix(b"accept ") {
        return read_accepted(operands);
    }
    if line == b"refused".as_slice() {
        return Some(Entry::Refused);
    }
    if line == b"restarted".as_slice() {
        return Some(Entry::Restarted);
    }
    read_about(line)
}

/// Reads a line of a word and a number.
fn read_about(line: &[u8]) -> Option<Entry> {
    let (word, digits) = cut_at(line, b' ')?;
    let id = read_id(digits)?;
    if word == b"close".as_slice() {
        return Some(Entry::Closed(id));
    }
    if word == b"end".as_slice() {
        return Some(Entry::Ended(id));
    }
    if word == b"fail".as_slice() {
        return Some(Entry::Failed(id));
    }
    if word == b"shut".as_slice() {
        return Some(Entry::Shut(id));
    }
    if word == b"break".as_slice() {
        return Some(Entry::Broken(id));
    }
    None
}
