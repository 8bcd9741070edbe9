//! A server that takes recorded turns.

use crate::difference::put_difference;
use crate::observation::Observation;
use crate::playing::Shows;
use crate::turning::take_turn;
use base_types::Moment;
use journal::JournaledEngine;
use quotes::Escaped;
use recordings::{Entry, ReplayWire, ReplayedOutput, read_entry};
use server_log::LogFormatter;
use std::alloc::{AllocError, Global};
use traces::{put_gone, put_out};

/// The result of a line.
#[derive(Drop)]
pub(crate) enum LineResult {
    /// The line was played, or is part of a turn that hasn't ended.
    Played,
    /// The line isn't a line of a recording.
    Bad,
    /// Memory was refused to the server in the turn that the line ends, as the line of this number states.
    Refused(u64),
    /// In the turn that the line ends, the server made another call than the recorded call. These lines
    /// describe the call.
    Differs(Vec<u8>),
}

/// The end of a recorded day.
#[derive(Clone, Copy)]
pub(crate) enum DayEnd {
    /// Its last line ends a turn.
    Whole,
    /// Lines or bytes of a turn that hasn't ended follow the line of this number, which ended a turn; 0 if none did.
    WithinTurn { ended: u64 },
}

/// The observer of a server, and the formatter for the lines of a log.
#[derive(Drop)]
pub(crate) struct LogSinks {
    observation: Observation,
    formatter: LogFormatter,
}

/// A server that has started, and plays recorded lines.
#[derive(Drop)]
pub(crate) struct Player<'a> {
    alloc: Global,
    engine: &'a mut JournaledEngine,
    script: ReplayWire,
    shows: Shows,
    sinks: LogSinks,
    /// The comments of a turn, one line each: `comings` are the comments of connections that came, and all
    /// other comments; `goings` are the comments of connections that went.
    comings: Vec<u8>,
    goings: Vec<u8>,
    /// The moment that was printed last.
    printed: Option<Moment>,
    /// Whether the turn that hasn't ended is one in which a restarted server lost its connections.
    restarted: bool,
    /// The number of the line that ended the last turn; 0 before the first.
    ended: u64,
    /// Whether there are lines of a turn that hasn't ended.
    within: bool,
}

/// The moment of the turn that a line ends, if it ends one.
pub(crate) fn turn_of(entry: &Entry) -> Option<Moment> {
    match entry {
        Entry::Turn(moment) => Some(*moment),
        _ => None,
    }
}

/// Appends the bytes that a connection got, or its close.
fn put_moved(
    alloc: Global,
    output: &mut Vec<u8>,
    moved: &ReplayedOutput,
) -> Result<(), AllocError> {
    match moved {
        ReplayedOutput::Got { id, bytes } => put_out(alloc, output, u64::from(*id), bytes),
        ReplayedOutput::Gone(id) => put_gone(alloc, output, u64::from(*id)),
    }
}

/// Appends the bytes that connections got, and their closes.
fn put_all_moved(
    alloc: Global,
    output: &mut Vec<u8>,
    all: &[ReplayedOutput],
) -> Result<(), AllocError> {
    for moved in all {
        put_moved(alloc, output, moved)?;
    }
    Ok(())
}

/// Appends the lines of a text, each after a moment.
fn put_dated(
    alloc: Global,
    output: &mut Vec<u8>,
    moment: Moment,
    text: &[u8],
) -> Result<(), AllocError> {
    let millis = moment.millis();
    for line in text.split_inclusive(|byte| *byte == b'\n') {
        let prefix = format!(in alloc; "{millis} ")?;
        output.extend_from_slice(prefix.as_bytes())?;
        output.extend_from_slice(line)?;
    }
    Ok(())
}

impl LogSinks {
    /// Creates the sinks of a server that has only started, without notes.
    pub(crate) fn new(
        alloc: Global,
        engine: &JournaledEngine,
        shows: Shows,
    ) -> Result<LogSinks, AllocError> {
        let settings = engine.settings();
        let observation = Observation::new(alloc, shows, settings.device_names(alloc)?);
        let formatter = LogFormatter::new(alloc, settings.device_names(alloc)?, engine);
        Ok(LogSinks {
            observation,
            formatter,
        })
    }
}

impl<'a> Player<'a> {
    /// Creates the player for a server that has only started. `shows` states what is written.
    pub(crate) fn new(
        alloc: Global,
        engine: &'a mut JournaledEngine,
        shows: Shows,
        sinks: LogSinks,
    ) -> Player<'a> {
        Player {
            alloc,
            engine,
            script: ReplayWire::new(alloc),
            shows,
            sinks,
            comings: Vec::new(alloc),
            goings: Vec::new(alloc),
            printed: None,
            restarted: false,
            ended: 0,
            within: false,
        }
    }

    /// The end of a day whose lines were played, if it is here. `rest` indicates whether bytes follow that are no whole
    /// line.
    pub(crate) fn end(&self, rest: bool) -> DayEnd {
        if rest || self.within {
            DayEnd::WithinTurn { ended: self.ended }
        } else {
            DayEnd::Whole
        }
    }

    /// Plays the line of this number, and appends its text.
    pub(crate) fn play(
        &mut self,
        number: u64,
        line: &[u8],
        output: &mut Vec<u8>,
    ) -> Result<LineResult, AllocError> {
        if let Some(comment) = line.strip_prefix(b"#") {
            self.keep_comment(comment)?;
            return Ok(LineResult::Played);
        }
        match read_entry(self.alloc, line)? {
            None => Ok(LineResult::Bad),
            Some(entry) => self.take(number, entry, output),
        }
    }

    /// Takes the line of this number.
    fn take(
        &mut self,
        number: u64,
        entry: Entry,
        output: &mut Vec<u8>,
    ) -> Result<LineResult, AllocError> {
        let turn = turn_of(&entry);
        self.within = turn.is_none();
        match turn {
            Some(moment) => self.take_turn(number, moment, output),
            None if matches!(&entry, Entry::Restarted) => {
                self.restarted = true;
                Ok(LineResult::Played)
            }
            None => {
                self.script.add(number, entry)?;
                Ok(LineResult::Played)
            }
        }
    }

    /// Stores a comment, if a log is written.
    fn keep_comment(&mut self, comment: &[u8]) -> Result<(), AllocError> {
        if self.shows != Shows::Log {
            return Ok(());
        }
        let Some(words) = comment.strip_prefix(b" ") else {
            return Ok(());
        };
        let line = Escaped(words);
        let text = format!(in self.alloc; "{line}\n")?;
        let kept = if words.starts_with(b"close ") {
            &mut self.goings
        } else {
            &mut self.comings
        };
        kept.extend_from_slice(text.as_bytes())
    }

    /// Takes the turn that the line of this number ends.
    fn take_turn(
        &mut self,
        number: u64,
        moment: Moment,
        output: &mut Vec<u8>,
    ) -> Result<LineResult, AllocError> {
        if let Some(refused) = self.script.refusal() {
            return Ok(LineResult::Refused(refused));
        }
        self.ended = number;
        self.turn_engine(moment);
        self.put_turn(moment, output)?;
        match self.script.end_turn() {
            None => Ok(LineResult::Played),
            Some(stray) => {
                let mut lines = Vec::new(self.alloc);
                put_difference(self.alloc, &mut lines, &stray, number, moment)?;
                Ok(LineResult::Differs(lines))
            }
        }
    }

    /// Has the server take a turn.
    fn turn_engine(&mut self, moment: Moment) {
        self.sinks.observation.set_unplanned(self.restarted);
        take_turn(
            self.alloc,
            self.engine,
            &mut self.script,
            &mut self.sinks.observation,
            moment,
            self.restarted,
        );
        self.restarted = false;
    }

    /// Appends the text of a turn.
    fn put_turn(&mut self, moment: Moment, output: &mut Vec<u8>) -> Result<(), AllocError> {
        if self.sinks.observation.is_lost() {
            return Err(AllocError);
        }
        let moved = self.script.take_moved();
        match self.shows {
            Shows::Happenings { .. } => self.put_happenings(moment, &moved, output),
            Shows::Verdict => Ok(()),
            Shows::Log => self.put_log(moment, output),
        }
    }

    /// Appends the text of a turn: its moment, if another moment was printed last, the notes of the server,
    /// and the bytes that connections got.
    fn put_happenings(
        &mut self,
        moment: Moment,
        moved: &[ReplayedOutput],
        output: &mut Vec<u8>,
    ) -> Result<(), AllocError> {
        let text = self.sinks.observation.take();
        if text.is_empty() && moved.is_empty() {
            return Ok(());
        }
        if self.printed != Some(moment) {
            let millis = moment.millis();
            let line = format!(in self.alloc; "at {millis}\n")?;
            output.extend_from_slice(line.as_bytes())?;
            self.printed = Some(moment);
        }
        output.extend_from_slice(&text)?;
        put_all_moved(self.alloc, output, moved)
    }

    /// Appends the lines of a log: connections that came, notes that were received, jobs that ended, and
    /// connections that went.
    fn put_log(&mut self, moment: Moment, output: &mut Vec<u8>) -> Result<(), AllocError> {
        let notes = self.sinks.observation.take_notes()?;
        let lines = self
            .sinks
            .formatter
            .lines(moment, &[], &notes, self.engine)?;
        put_dated(self.alloc, output, moment, &self.comings)?;
        output.extend_from_slice(&lines)?;
        put_dated(self.alloc, output, moment, &self.goings)?;
        self.comings.clear();
        self.goings.clear();
        Ok(())
    }
}
