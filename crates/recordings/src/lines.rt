//! The lines of a recording, which may be longer than memory.
ghost use Rattle.std.specs.Io.{ReadsAtMost};

use crate::entry::octets_after;
use std::alloc::Global;
use std::cmp::min;
use std::io;
use std::io::Read;

/// The number of bytes that one read asks for.
const SEGMENT: usize = 65_536;

/// Reads bytes into the beginning of a buffer. Returns their number.
pub fn fill<R: Read>(reader: &mut R, buffer: &mut [u8]) -> io::Result<usize>
    ensures { ReadsAtMost result buffer.new }
{
    reader.read(buffer)
}

/// A reader of lines, one after the other.
#[derive(Drop)]
pub struct LineReader<'a, R: Read> {
    reader: &'a mut R,
    segment: Vec<u8>,
    /// The number of bytes of the segment that were taken.
    start: usize,
    /// The number of bytes of the segment.
    end: usize,
    /// The number of line feeds that were passed.
    passed: u64,
}

impl<'a, R: Read> LineReader<'a, R> {
    /// Creates the reader of lines. The only error is out of memory.
    pub fn new(alloc: Global, reader: &'a mut R) -> io::Result<LineReader<'a, R>> {
        let segment = vec![in alloc; 0; SEGMENT]?;
        Ok(LineReader {
            reader,
            segment,
            start: 0,
            end: 0,
            passed: 0,
        })
    }

    /// The number of lines that were read, with those within octets.
    pub fn passed(&self) -> u64 {
        self.passed
    }

    /// Reads the next line, without its line feed, into `line`. Returns whether there is one. Bytes after
    /// the last line feed aren't a line.
    pub fn read(&mut self, line: &mut Vec<u8>) -> io::Result<bool> {
        line.clear();
        for _ in 0..u64::MAX {
            if self.takes(line)? {
                return Ok(true);
            }
            if !self.fills()? {
                return Ok(false);
            }
        }
        Ok(false)
    }

    /// Reads the next line, and the octets that follow it. Returns whether there is one.
    pub fn read_whole(&mut self, line: &mut Vec<u8>) -> io::Result<bool> {
        if !self.read(line)? {
            return Ok(false);
        }
        match octets_after(line) {
            Some(count) => self.read_octets(line, count),
            None => Ok(true),
        }
    }

    /// Appends this many octets that follow a line, and passes over the line feed after them. Returns
    /// whether they are there. Another byte in the place of the line feed is appended too.
    fn read_octets(&mut self, line: &mut Vec<u8>, count: usize) -> io::Result<bool> {
        line.push(b'\n')?;
        let mut left = count.saturating_add(1);
        for _ in 0..u64::MAX {
            left = left.saturating_sub(self.takes_octets(line, left)?);
            if left == 0 {
                break;
            }
            if !self.fills()? {
                return Ok(false);
            }
        }
        if line.last() == Some(&b'\n') {
            line.pop();
        }
        Ok(true)
    }

    /// Appends at most `most` octets of the segment. Returns their number.
    fn takes_octets(&mut self, line: &mut Vec<u8>, most: usize) -> io::Result<usize> {
        if self.start > self.end || self.end > self.segment.len() {
            return Ok(0);
        }
        let rest = &self.segment[self.start..self.end];
        let taken = min(most, rest.len());
        let octets = &rest[..taken];
        line.extend_from_slice(octets)?;
        let feeds = octets.iter().filter(|byte| **byte == b'\n').count();
        self.passed = self.passed.saturating_add(feeds as u64);
        self.start = self.start.saturating_add(taken);
        Ok(taken)
    }

    /// Appends the bytes of the segment up to a line feed. Returns whether the line is complete.
    fn takes(&mut self, line: &mut Vec<u8>) -> io::Result<bool> {
        if self.start > self.end || self.end > self.segment.len() {
            return Ok(false);
        }
        let rest = &self.segment[self.start..self.end];
        match rest.iter().position(|byte| *byte == b'\n') {
            Some(place) => {
                line.extend_from_slice(&rest[..place])?;
                self.start = self.start.saturating_add(place).saturating_add(1);
                self.passed = self.passed.saturating_add(1);
                Ok(true)
            }
            None => {
                line.extend_from_slice(rest)?;
                self.start = self.end;
                Ok(false)
            }
        }
    }

    /// Reads another segment. Returns whether there are more bytes.
    fn fills(&mut self) -> io::Result<bool> {
        let count = self.reader.read(&mut self.segment)?;
        self.start = 0;
        self.end = count;
        Ok(count > 0)
    }
}
