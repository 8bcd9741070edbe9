//! The store of the lines of calls.
ghost use Rattle.std.specs.Prelude.{◌≡◌, ◌⊎◌, ℕ, List, Some, None, [], OnOk, length, option_map, is_some};
ghost use Rattle.wires.specs.Poll.{Accepts, Reads, Writes, Closes, bytes_read, IsCount};
ghost use Rattle.recordings.specs.Noting.{note_of, written_note, end_of, restarted_line, with_note, NotesLine, NotesComments, EndsTurn};

use crate::comments::are_comments;
use crate::note::{put_accept, put_end, put_read, put_write};
use crate::redacted_read::RedactedRead;
use crate::write::{put_line, put_redacted};
use base_types::Moment;
use std::alloc::{AllocError, Global};
use std::marker::Model;
use wires::{Door, Progress, WireId};

/// The lines of calls since the last `clear`. `None` if no lines are kept, or memory for one was refused.
#[derive(Drop)]
pub(crate) struct RecordedLines {
    text: Vec<u8>,
    keeps: bool,
}

impl Model for RecordedLines {
    ghost use Rattle.std.specs.Prelude.{ℕ, List, Option, Some, None, if◌then◌else◌};

    ghost Value = { Option (List ℕ) };

    ghost view = { λ n. if n.keeps then Some n.text.items else None };
}

impl RecordedLines {
    /// Creates a store that keeps no lines.
    pub(crate) fn new(alloc: Global) -> RecordedLines
        ensures { result ≡ None }
    {
        RecordedLines {
            text: Vec::new(alloc),
            keeps: false,
        }
    }

    /// Starts keeping lines.
    pub(crate) fn begin(&mut self)
        ensures { self.new ≡ Some [] }
    {
        self.text.clear();
        self.keeps = true;
    }

    /// Returns whether lines are kept.
    pub(crate) fn keeps(&self) -> bool
        ensures { result ≡ is_some self.now }
    {
        self.keeps
    }

    /// The lines, which have a meaning only while lines are kept.
    pub(crate) fn text(&self) -> &[u8]
        ensures { (text : List ℕ) → self.now ≡ Some text → result.now ≡ text }
    {
        &self.text
    }

    /// Appends whole lines, each of which begins with `#`. If these aren't such lines or memory is refused, no
    /// lines are kept any more.
    pub(crate) fn comment(&mut self, lines: &[u8])
        ensures { NotesComments lines.now self.old self.new }
    {
        if !are_comments(lines) || self.note_text(lines).is_err() {
            self.stop();
        }
    }

    /// Notes that the server lost its connections, since it had been restarted.
    pub(crate) fn restarted(&mut self)
        ensures { (self.new ≡ None) ⊎ (self.new ≡ with_note restarted_line self.old) }
    {
        if self.note_text(b"restarted\n").is_err() {
            self.stop();
        }
    }

    /// Removes all lines.
    pub(crate) fn clear(&mut self)
        ensures { self.new ≡ option_map (λ text. []) self.old }
    {
        self.text.clear();
    }

    /// Stops keeping lines.
    pub(crate) fn stop(&mut self)
        ensures { self.new ≡ None }
    {
        self.text.clear();
        self.keeps = false;
    }

    /// Notes the end of a turn at a moment. `refused` indicates whether memory was refused to the server in the
    /// turn.
    pub(crate) fn end_turn(&mut self, moment: Moment, refused: bool)
        ensures { EndsTurn moment refused self.old self.new }
    {
        if self.note_end(moment, refused).is_err() {
            self.stop();
        }
    }

    /// Notes an accept with its answer.
    pub(crate) fn accepted(&mut self, door: Door, answer: Progress<WireId>)
        ensures { NotesLine (Accepts door answer) self.old self.new }
    {
        if self.note_accept(door, answer).is_err() {
            self.stop();
        }
    }

    /// Notes a read with its answer.
    pub(crate) fn read(&mut self, id: WireId, answer: Progress<usize>, buffer: &[u8])
        requires { IsCount answer (length buffer.now) }
        ensures { NotesLine (Reads id (bytes_read answer buffer.now)) self.old self.new }
    {
        if self.note_read(id, answer, buffer).is_err() {
            self.stop();
        }
    }

    /// Notes the bytes of a read, without documents.
    pub(crate) fn came(&mut self, id: WireId, redacted: &RedactedRead) {
        if self.keeps && put_redacted(&mut self.text, id, redacted).is_err() {
            self.stop();
        }
    }

    /// Notes a write with its answer, and the sum of the bytes that were taken, if it is noted.
    pub(crate) fn written(&mut self, id: WireId, answer: Progress<usize>, sum: Option<u32>)
        ensures { NotesLine (Writes id [] answer) self.old self.new }
    {
        if self.note_write(id, answer, sum).is_err() {
            self.stop();
        }
    }

    /// Notes the close of a connection.
    pub(crate) fn closed(&mut self, id: WireId)
        ensures { NotesLine (Closes id) self.old self.new }
    {
        if self.note_close(id).is_err() {
            self.stop();
        }
    }

    /// Appends a text. The only error is out of memory.
    fn note_text(&mut self, text: &[u8]) -> Result<(), AllocError>
        ensures { OnOk result (self.new ≡ with_note text.now self.old) }
    {
        if !self.keeps {
            return Ok(());
        }
        self.text.extend_from_slice(text)?;
        Ok(())
    }

    /// Appends the lines of the end of a turn. The only error is out of memory.
    fn note_end(&mut self, moment: Moment, refused: bool) -> Result<(), AllocError>
        ensures { OnOk result (self.new ≡ with_note (end_of moment refused) self.old) }
    {
        if !self.keeps {
            return Ok(());
        }
        put_end(&mut self.text, moment, refused)?;
        Ok(())
    }

    /// Appends the line of an accept. The only error is out of memory.
    fn note_accept(&mut self, door: Door, answer: Progress<WireId>) -> Result<(), AllocError>
        ensures { OnOk result (self.new ≡ with_note (note_of (Accepts door answer) None) self.old) }
    {
        if !self.keeps {
            return Ok(());
        }
        put_accept(&mut self.text, door, answer)?;
        Ok(())
    }

    /// Appends the line of a read. The only error is out of memory.
    fn note_read(
        &mut self,
        id: WireId,
        answer: Progress<usize>,
        buffer: &[u8],
    ) -> Result<(), AllocError>
        requires { IsCount answer (length buffer.now) }
        ensures { OnOk result (self.new ≡ with_note (note_of (Reads id (bytes_read answer buffer.now)) None) self.old) }
    {
        if !self.keeps {
            return Ok(());
        }
        put_read(&mut self.text, id, answer, buffer)?;
        Ok(())
    }

    /// Appends the line of a write that took this many bytes with this sum. The only error is out of memory.
    fn note_write(
        &mut self,
        id: WireId,
        answer: Progress<usize>,
        sum: Option<u32>,
    ) -> Result<(), AllocError>
        ensures { OnOk result (self.new ≡ with_note (written_note id answer sum) self.old) }
    {
        if !self.keeps {
            return Ok(());
        }
        put_write(&mut self.text, id, answer, sum)?;
        Ok(())
    }

    /// Appends the line of a close. The only error is out of memory.
    fn note_close(&mut self, id: WireId) -> Result<(), AllocError>
        ensures { OnOk result (self.new ≡ with_note (note_of (Closes id) None) self.old) }
    {
        if !self.keeps {
            return Ok(());
        }
        put_line(&mut self.text, b"close ", u64::from(id))?;
        Ok(())
    }
}
