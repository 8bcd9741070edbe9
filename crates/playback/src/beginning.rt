//! The beginning of a trace.

use recordings::{GOES_ON, fill};
use std::alloc::Global;
use std::cmp::min;
use std::io;
use std::io::Read;
use traces::split_settings;

/// The most bytes that are examined.
const MOST: usize = 1_048_576;

/// The number of bytes that one read asks for.
const SEGMENT: usize = 65_536;

/// The beginning of the first line after the settings, in a recorded day.
const START: &[u8] = b"recorded ";

/// The first bytes of a trace, which were read, and whether it is a recorded day.
#[derive(Drop)]
pub struct Peeked {
    pub bytes: Vec<u8>,
    pub recorded: bool,
}

/// A reader of a trace whose first bytes were already read.
#[derive(Drop)]
pub struct Whole<'a, R: Read> {
    prefix: Vec<u8>,
    /// The number of the first bytes that were given again.
    given: usize,
    rest: &'a mut R,
}

/// Returns whether a trace that begins with these bytes is a recorded day. `None` if more bytes are needed.
fn kind_of(bytes: &[u8]) -> Option<bool> {
    if bytes.starts_with(GOES_ON) {
        return Some(true);
    }
    let cut = split_settings(bytes)?;
    if cut.lines.len() < START.len() {
        return None;
    }
    Some(cut.lines.starts_with(START))
}

/// Reads the first bytes of a trace, until they show whether it is a recorded day. The error is the reader's,
/// or out of memory.
pub fn peek<R: Read>(alloc: Global, reader: &mut R) -> io::Result<Peeked> {
    let mut bytes = Vec::new(alloc);
    let mut segment = vec![in alloc; 0; SEGMENT]?;
    for _ in 0..MOST {
        let count = fill(reader, &mut segment)?;
        bytes.extend_from_slice(&segment[..count])?;
        if let Some(recorded) = kind_of(&bytes) {
            return Ok(Peeked { bytes, recorded });
        }
        if count == 0 || bytes.len() >= MOST {
            break;
        }
    }
    Ok(Peeked {
        bytes,
        recorded: false,
    })
}

impl<'a, R: Read> Whole<'a, R> {
    /// Creates the reader of these first bytes and the bytes that follow.
    pub fn new(prefix: Vec<u8>, rest: &'a mut R) -> Whole<'a, R> {
        Whole {
            prefix,
            given: 0,
            rest,
        }
    }
}

impl<R: Read> Read for Whole<'_, R> {
    fn read(&mut self, buffer: &mut [u8]) -> io::Result<usize> {
        let left = &self.prefix[min(self.given, self.prefix.len())..];
        if left.is_empty() {
            return self.rest.read(buffer);
        }
        let count = min(left.len(), buffer.len());
        buffer[..count].copy_from_slice(&left[..count]);
        self.given = self.given.saturating_add(count);
        Ok(count)
    }
}
