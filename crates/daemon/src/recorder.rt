//! The recorder of turns, which never makes the server wait.
use crate::pace::Pace;
use base_types::Moment;
use recordings::RecordedText;

/// The output of a recording.
pub trait Tape {
    /// Appends the lines of whole turns. Returns whether all of them were taken. If not, the recording has
    /// ended, and the tape has reported the cause.
    fn put(&mut self, lines: &[u8]) -> bool;

    /// Ends the recording, since memory for a line was refused. The tape reports that.
    fn lose(&mut self);
}

/// A recorder, which collects lines for its tape.
#[derive(Drop)]
pub(crate) struct Recorder<'a, T: Tape> {
    tape: &'a mut T,
    pace: Pace,
    ended: bool,
}

impl<'a, T: Tape> Recorder<'a, T> {
    /// Creates the recorder of a tape.
    pub(crate) fn new(tape: &'a mut T) -> Recorder<'a, T> {
        Recorder {
            tape,
            pace: Pace::from(Moment::start()),
            ended: false,
        }
    }

    /// Writes the kept lines after a turn at `moment`, if they are many or old. If memory for a line was refused,
    /// ends the recording.
    pub(crate) fn write_if_due(&mut self, notes: &mut RecordedText, moment: Moment) {
        if self.ended {
            return;
        }
        if !notes.keeps() {
            self.tape.lose();
            self.ended = true;
        } else if self.pace.is_due(notes.text().len(), moment) {
            self.pace.writes(moment);
            self.put(notes);
        }
    }

    /// Writes the kept lines after the last turn.
    pub(crate) fn finish(&mut self, notes: &mut RecordedText) {
        if !self.ended && !notes.text().is_empty() {
            self.put(notes);
        }
    }

    /// Returns the ms from `moment` until the kept lines are old, at most `most`.
    pub(crate) fn time_left(&self, notes: &RecordedText, moment: Moment, most: u64) -> u64 {
        if self.ended {
            return most;
        }
        self.pace.time_left(notes.text().len(), moment, most)
    }

    /// Writes the kept lines. If the tape fails, no lines are kept any more.
    fn put(&mut self, notes: &mut RecordedText) {
        if self.tape.put(notes.text()) {
            notes.clear();
        } else {
            notes.stop();
            self.ended = true;
        }
    }
}
