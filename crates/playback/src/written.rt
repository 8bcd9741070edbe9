//! The conversion of a recorded day into a trace as a person writes it.
ghost use Rattle.std.specs.Prelude.{◌<◌, IfSome, length};

use base_types::{JobId, Moment};
use recordings::{Entry, GOES_ON, octets_after, read_entry, read_start};
use std::alloc::{AllocError, Global};
use traces::{CutLine, next_line, split_settings};
use wires::{Door, WireId};

/// The result of the conversion of a trace.
#[derive(Drop)]
pub enum Written {
    /// The trace is already one as a person writes it.
    Already,
    /// The trace is a recorded day. The text has the same content as a trace, whose first job has the id
    /// `first`.
    Made { text: Vec<u8>, first: JobId },
    /// The trace is a recorded day whose line of this number isn't a line of a recorded day.
    Bad(u64),
}

/// An open connection, with its number in the recorded day and its number in the written trace.
#[derive(Clone, Copy)]
struct WrittenConnection {
    id: WireId,
    number: u64,
    ended: bool,
}

/// The text that was written so far.
#[derive(Drop)]
struct TraceWriter {
    alloc: Global,
    text: Vec<u8>,
    /// The lines of the turn that hasn't ended.
    turn: Vec<u8>,
    peers: Vec<WrittenConnection>,
    /// The number of connections that came.
    came: u64,
}

impl TraceWriter {
    /// Takes the content of a line.
    fn take(&mut self, entry: &Entry) -> Result<(), AllocError> {
        match entry {
            Entry::Accepted(accepted) => self.open(accepted.id, accepted.door),
            Entry::Came(came) | Entry::Octets(came) => self.put_input(came.id, &came.bytes),
            Entry::Zeros(came) => self.put_input(came.id, &came.octets(self.alloc)?),
            Entry::Ended(id) | Entry::Failed(id) | Entry::Shut(id) | Entry::Broken(id) => {
                self.end(*id)
            }
            Entry::Closed(id) => {
                self.close(*id);
                Ok(())
            }
            Entry::Sent(_) | Entry::Refused | Entry::Restarted => Ok(()),
            Entry::Turn(moment) => self.end_turn(*moment),
        }
    }

    /// Adds a connection that was accepted.
    fn open(&mut self, id: WireId, door: Door) -> Result<(), AllocError> {
        self.came = self.came.saturating_add(1);
        let (number, word) = (self.came, door.word());
        let ended = false;
        self.close(id);
        self.peers.push(WrittenConnection { id, number, ended })?;
        self.put(format!(in self.alloc; "open {number} {word}\n")?)
    }

    /// Removes a connection that was closed.
    fn close(&mut self, id: WireId) {
        self.peers.retain(|peer| peer.id != id);
    }

    /// The number of a connection whose input hasn't ended.
    fn number_of(&self, id: WireId) -> Option<u64> {
        for peer in &self.peers {
            if peer.id == id && !peer.ended {
                return Some(peer.number);
            }
        }
        None
    }

    /// Appends the line of bytes that came on a connection.
    fn put_input(&mut self, id: WireId, bytes: &[u8]) -> Result<(), AllocError> {
        let Some(number) = self.number_of(id) else {
            return Ok(());
        };
        let digits = hex::encode(self.alloc, bytes)?;
        self.put(format!(in self.alloc; "in {number} {digits}\n")?)
    }

    /// Appends the line of the end of a connection's input.
    fn end(&mut self, id: WireId) -> Result<(), AllocError> {
        let Some(number) = self.number_of(id) else {
            return Ok(());
        };
        for peer in &mut self.peers {
            if peer.id == id {
                peer.ended = true;
            }
        }
        self.put(format!(in self.alloc; "end {number}\n")?)
    }

    /// Ends a turn. A turn without lines is written as a tick.
    fn end_turn(&mut self, moment: Moment) -> Result<(), AllocError> {
        let millis = moment.millis();
        let prefix = format!(in self.alloc; "at {millis}\n")?;
        self.text.extend_from_slice(prefix.as_bytes())?;
        if self.turn.is_empty() {
            self.text.extend_from_slice(b"tick\n")?;
        } else {
            self.text.extend_from_slice(&self.turn)?;
        }
        self.turn.clear();
        Ok(())
    }

    /// Appends a line of the turn.
    fn put(&mut self, line: String) -> Result<(), AllocError> {
        self.turn.extend_from_slice(line.as_bytes())
    }
}

/// Returns whether a trace with these lines after its settings is a recorded day.
fn is_recorded(lines: &[u8]) -> bool {
    lines.starts_with(b"recorded ")
}

/// The id of the first job of a recorded day with these lines after its settings.
fn first_job(lines: &[u8]) -> JobId {
    let line = next_line(lines).map_or(lines, |cut| cut.line);
    match read_start(line) {
        Some(start) => start.first,
        None => JobId::new(JobId::FIRST).unwrap(),
    }
}

/// Returns whether a line of a recorded day has no entry: a comment, or the start of the day.
fn is_remark(line: &[u8]) -> bool {
    line.starts_with(b"#") || line.starts_with(b"recorded ")
}

/// Cuts a text after its first line and the octets that follow it. If some of the octets aren't there, the
/// whole text is one line; if another byte is in the place of the last line feed, no octets follow.
fn next_whole(text: &[u8]) -> Option<CutLine<'_>>
    ensures { IfSome result (λ cut. length cut.later.now < length text.now) }
{
    let cut = next_line(text)?;
    let Some(count) = octets_after(cut.line) else {
        return Some(cut);
    };
    match cut.later.get(count) {
        Some(byte) if *byte == b'\n' => whole_of(
            text,
            cut.line.len().saturating_add(1).saturating_add(count),
        ),
        Some(_) => Some(cut),
        None => Some(CutLine {
            line: text,
            later: &[],
        }),
    }
}

/// A text cut at the byte at a place.
fn whole_of(text: &[u8], place: usize) -> Option<CutLine<'_>>
    ensures { IfSome result (λ cut. length cut.later.now < length text.now) }
{
    let (line, rest) = text.split_at_checked(place)?;
    let (_, later) = rest.split_first()?;
    Some(CutLine { line, later })
}

/// The number of line feeds in and after a line with the octets that follow it.
fn feeds_of(line: &[u8]) -> u64 {
    let within = line.iter().filter(|byte| **byte == b'\n').count();
    (within as u64).saturating_add(1)
}

/// Converts a recorded day into a trace as a person writes it. Another trace is left as it is. The only error
/// is out of memory.
pub fn as_written(alloc: Global, trace: &[u8]) -> Result<Written, AllocError> {
    if trace.starts_with(GOES_ON) {
        return Ok(Written::Bad(1));
    }
    match split_settings(trace) {
        Some(cut) if is_recorded(cut.lines) => {
            let prefix = trace.len().saturating_sub(cut.lines.len());
            write_lines(alloc, &trace[..prefix], cut.lines, cut.stop as u64)
        }
        _ => Ok(Written::Already),
    }
}

/// Writes the lines after `prefix`. `before` lines are before them.
fn write_lines(
    alloc: Global,
    prefix: &[u8],
    lines: &[u8],
    before: u64,
) -> Result<Written, AllocError> {
    let mut writer = TraceWriter {
        alloc,
        text: Vec::new(alloc),
        turn: Vec::new(alloc),
        peers: Vec::new(alloc),
        came: 0,
    };
    writer.text.extend_from_slice(prefix)?;
    let mut rest = lines;
    let mut passed = before;
    while let Some(cut) = next_whole(rest) {
        if !is_remark(cut.line) {
            match read_entry(alloc, cut.line)? {
                Some(entry) => writer.take(&entry)?,
                None if cut.later.is_empty() => {}
                None => return Ok(Written::Bad(passed.saturating_add(1))),
            }
        }
        passed = passed.saturating_add(feeds_of(cut.line));
        rest = cut.later;
    }
    Ok(Written::Made {
        text: writer.text,
        first: first_job(lines),
    })
}
