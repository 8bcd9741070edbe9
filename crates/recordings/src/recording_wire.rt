//! A wire that notes its calls.
ghost use Rattle.std.specs.Prelude.{◌≡◌, ◌⊎◌, ℕ, List, Some, None, [], length, option_map, is_some, false};
ghost use Rattle.std.specs.Io.Slices.{io_slices_bytes};
ghost use Rattle.wires.specs.Poll.{Accepts, Reads, Writes, Closes, bytes_read, IsCount};
ghost use Rattle.recordings.specs.Noting.{NoteState, Notes, NotesComments, EndsTurn, with_note, restarted_line};

use crate::recorded_lines::RecordedLines;
use crate::redacted_read::RedactedRead;
use crate::redactor::Redactor;
use crate::sum::sum_of_prefix;
use base_types::Moment;
use std::alloc::{AllocError, Global};
use std::io::IoSlice;
use std::marker::Model;
use wires::{Door, Progress, Wire, WireId};

/// The notes of calls: their lines since the last `clear`. `None` if no lines are kept, or memory for one was
/// refused.
#[derive(Drop)]
pub struct RecordedText {
    lines: RecordedLines,
    /// The bytes of the last read, without documents, if documents are left out.
    redacted: RedactedRead,
    /// Whether the octets of documents are left out, and the sums of the bytes that devices get too.
    heads: bool,
    /// The connections, if documents are left out.
    redactor: Redactor,
}

impl Model for RecordedText {
    ghost use Rattle.recordings.specs.Noting.{NoteState};

    ghost Value = { NoteState };

    ghost view = { λ n. record { lines = n.lines; heads = n.heads } };
}

/// A wire that passes each call to another wire, and notes it, unless the call would have to wait or is an
/// accept without a connection.
#[derive(Drop)]
pub struct RecordingWire<W: Wire> {
    pub wire: W,
    pub notes: RecordedText,
}

impl RecordedText {
    /// Creates notes that keep no lines.
    pub fn new(alloc: Global) -> RecordedText
        ensures { result ≡ record { lines = None; heads = false } }
    {
        RecordedText {
            lines: RecordedLines::new(alloc),
            redacted: RedactedRead::new(alloc),
            heads: false,
            redactor: Redactor::new(alloc),
        }
    }

    /// Starts keeping lines. No connection may be open yet. `heads` indicates whether the octets of documents are
    /// left out.
    pub fn begin(&mut self, heads: bool)
        ensures { self.new ≡ record { lines = Some []; heads = heads } }
    {
        self.lines.begin();
        self.heads = heads;
    }

    /// Returns whether lines are kept.
    pub fn keeps(&self) -> bool
        ensures { result ≡ is_some self.now.lines }
    {
        self.lines.keeps()
    }

    /// The lines, which have a meaning only while lines are kept.
    pub fn text(&self) -> &[u8]
        ensures { (text : List ℕ) → self.now.lines ≡ Some text → result.now ≡ text }
    {
        self.lines.text()
    }

    /// Appends comments: whole lines, each of which begins with `#`. If these aren't such lines or memory is
    /// refused, no lines are kept any more.
    pub fn comment(&mut self, lines: &[u8])
        ensures lines { NotesComments lines.now self.old.lines self.new.lines }
        ensures heads { self.new.heads ≡ self.old.heads }
    {
        self.lines.comment(lines);
    }

    /// Notes that the server lost its connections in this turn, since it had been restarted.
    pub fn restarted(&mut self)
        ensures lines { (self.new.lines ≡ None) ⊎ (self.new.lines ≡ with_note restarted_line self.old.lines) }
        ensures heads { self.new.heads ≡ self.old.heads }
    {
        self.lines.restarted();
    }

    /// Removes all lines.
    pub fn clear(&mut self)
        ensures { self.new ≡ record self.old { lines = option_map (λ text. []) self.old.lines } }
    {
        self.lines.clear();
    }

    /// Stops keeping lines.
    pub fn stop(&mut self)
        ensures { self.new ≡ record self.old { lines = None } }
    {
        self.lines.stop();
    }

    /// Notes the end of a turn at a moment. `refused` indicates whether memory was refused to the server in the
    /// turn.
    pub fn end_turn(&mut self, moment: Moment, refused: bool)
        ensures lines { EndsTurn moment refused self.old.lines self.new.lines }
        ensures heads { self.new.heads ≡ self.old.heads }
    {
        self.lines.end_turn(moment, refused);
    }

    /// Notes an accept with its answer. It is inlined, since most accepts of a turn have to wait and aren't noted.
    #[inline(always)]
    fn accepted(&mut self, door: Door, answer: Progress<WireId>)
        ensures { Notes (Accepts door answer) self.old self.new }
    {
        match answer {
            Progress::Waiting => {}
            _ => self.note_accept(door, answer),
        }
    }

    /// Notes an accept that didn't have to wait.
    fn note_accept(&mut self, door: Door, answer: Progress<WireId>)
        ensures { Notes (Accepts door answer) self.old self.new }
    {
        self.lines.accepted(door, answer);
        if self.heads && self.open(door, answer).is_err() {
            self.stop();
        }
    }

    /// Adds a connection whose documents are to be left out. The only error is out of memory.
    fn open(&mut self, door: Door, answer: Progress<WireId>) -> Result<(), AllocError>
        ensures { self.new ≡ self.old }
    {
        match answer {
            Progress::Done(id) => self.redactor.open(id, door),
            Progress::Waiting | Progress::End | Progress::Fault => Ok(()),
        }
    }

    /// Notes a read with its answer. It is inlined, since most reads of a turn have to wait and aren't noted.
    #[inline(always)]
    fn read(&mut self, id: WireId, answer: Progress<usize>, buffer: &[u8])
        requires { IsCount answer (length buffer.now) }
        ensures { Notes (Reads id (bytes_read answer buffer.now)) self.old self.new }
    {
        match answer {
            Progress::Waiting => {}
            Progress::Done(count) if self.heads => self.read_heads(id, &buffer[..count]),
            _ => self.lines.read(id, answer, buffer),
        }
    }

    /// Notes the bytes of a read, if documents are left out.
    fn read_heads(&mut self, id: WireId, bytes: &[u8])
        ensures { self.new.heads ≡ self.old.heads }
    {
        if self.redact(id, bytes).is_err() {
            self.stop();
            return;
        }
        self.lines.came(id, &self.redacted);
    }

    /// Stores bytes that were read, without documents. The only error is out of memory.
    fn redact(&mut self, id: WireId, bytes: &[u8]) -> Result<(), AllocError>
        ensures { self.new ≡ self.old }
    {
        self.redacted.clear();
        self.redactor.redact(id, bytes, &mut self.redacted)
    }

    /// Notes a write with its answer.
    fn written(&mut self, id: WireId, answer: Progress<usize>, parts: &[IoSlice<'_>])
        ensures { Notes (Writes id (io_slices_bytes parts.now) answer) self.old self.new }
    {
        let sum = self.sum_taken(id, parts, answer);
        self.lines.written(id, answer, sum);
    }

    /// The sum of the bytes that a write took, if it took some and the sum is noted.
    fn sum_taken(&self, id: WireId, parts: &[IoSlice<'_>], answer: Progress<usize>) -> Option<u32> {
        match answer {
            Progress::Done(count) if self.notes_sum(id) => Some(sum_of_prefix(parts, count)),
            _ => None,
        }
    }

    /// Returns whether the sums of a connection's writes are noted.
    fn notes_sum(&self, id: WireId) -> bool {
        self.lines.keeps() && !(self.heads && self.redactor.is_device(id))
    }

    /// Notes the close of a connection.
    fn closed(&mut self, id: WireId)
        ensures { Notes (Closes id) self.old self.new }
    {
        self.lines.closed(id);
        self.redactor.close(id);
    }
}

impl<W: Wire> RecordingWire<W> {
    /// Creates a wire of which nothing is noted.
    pub fn new(alloc: Global, wire: W) -> RecordingWire<W>
        ensures wire { result.wire ≡ wire }
        ensures notes { result.notes ≡ record { lines = None; heads = false } }
    {
        RecordingWire {
            wire,
            notes: RecordedText::new(alloc),
        }
    }
}

impl<W: Wire> Wire for RecordingWire<W> {
    ghost polled = { λ old poll new. W.polled old.wire poll new.wire × Notes poll old.notes new.notes };

    ghost faults = { λ n. W.faults n.wire };

    fn poll_accept(&mut self, door: Door) -> Progress<WireId> {
        let answer = self.wire.poll_accept(door);
        self.notes.accepted(door, answer);
        answer
    }

    fn poll_read(&mut self, id: WireId, buffer: &mut [u8]) -> Progress<usize> {
        let answer = self.wire.poll_read(id, buffer);
        self.notes.read(id, answer, buffer);
        answer
    }

    fn poll_write(&mut self, id: WireId, bytes: &[IoSlice<'_>]) -> Progress<usize> {
        let answer = self.wire.poll_write(id, bytes);
        self.notes.written(id, answer, bytes);
        answer
    }

    fn close(&mut self, id: WireId) {
        self.wire.close(id);
        self.notes.closed(id);
    }

    fn failures(&self) -> u64 {
        self.wire.failures()
    }
}
