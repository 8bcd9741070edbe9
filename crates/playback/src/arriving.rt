//! The lines of a recording whose bytes arrive in chunks.
use recordings::octets_after;
use std::alloc::{AllocError, Global};
use text::{Unread, find_byte};

/// The bytes of a recording that have arrived, and of which no line was taken.
#[derive(Drop)]
pub(crate) struct Arriving {
    unread: Unread,
    /// The number of line feeds that were passed.
    passed: u64,
}

/// The length of the first line with the octets that follow it, without its line feed; `None` if it hasn't all
/// arrived. Another byte in the place of the line feed belongs to the line.
fn length_of(bytes: &[u8]) -> Option<usize> {
    let end = find_byte(bytes, b'\n')?;
    let Some(count) = octets_after(bytes.get(..end)?) else {
        return Some(end);
    };
    let whole = end.saturating_add(1).saturating_add(count);
    match *bytes.get(whole)? {
        b'\n' => Some(whole),
        _ => Some(whole.saturating_add(1)),
    }
}

/// The number of line feeds in bytes.
fn feeds_in(bytes: &[u8]) -> u64 {
    bytes.iter().filter(|byte| **byte == b'\n').count() as u64
}

impl Arriving {
    /// Creates the record of no bytes.
    pub(crate) fn new(alloc: Global) -> Arriving {
        Arriving {
            unread: Unread::new(alloc),
            passed: 0,
        }
    }

    /// Appends bytes. The only error is out of memory.
    pub(crate) fn add(&mut self, chunk: &[u8]) -> Result<(), AllocError> {
        self.unread.append(chunk)
    }

    /// The number of line feeds that were passed.
    pub(crate) fn passed(&self) -> u64 {
        self.passed
    }

    /// Takes the next line that has all arrived, with the octets that follow it and without its line feed. Returns
    /// whether there is one. The only error is out of memory.
    pub(crate) fn take(&mut self, line: &mut Vec<u8>) -> Result<bool, AllocError> {
        line.clear();
        let bytes = self.unread.bytes();
        let Some(length) = length_of(bytes) else {
            return Ok(false);
        };
        let end = length.saturating_add(1).min(bytes.len());
        line.extend_from_slice(&bytes[..length.min(end)])?;
        self.passed = self.passed.saturating_add(feeds_in(&bytes[..end]));
        self.unread.pass(end);
        Ok(true)
    }
}
