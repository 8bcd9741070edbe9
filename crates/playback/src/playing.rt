//! The reading and playing of a recorded day.
ghost use Rattle.settings_file.specs.Settings.{MeetsLimits};

use crate::fault::{DayFault, settings_of};
use crate::player::{DayEnd, LineResult, LogSinks, Player};
use base_types::{JobId, Limits};
use journal::{JournaledEngine, Pausable};
use plan_solver::AugmentingPaths;
use program::ExitStatus;
use recordings::{GOES_ON, LineReader, read_start};
use server::Engine;
use settings_file::Settings;
use std::alloc::{AllocError, Global};
use std::io;
use std::io::{ErrorKind, Read, Write};

/// The number of printed bytes that are written at once.
const PRINTED: usize = 65_536;

/// The output of playing a recorded day.
#[derive(Clone, Copy, PartialEq, Eq)]
pub enum Shows {
    /// The bytes that each connection gets, the plans, with or without their texts, the starts and the
    /// cancels.
    Happenings { texts: bool },
    /// Whether all is the same, or the first difference.
    Verdict,
    /// The lines of a log.
    Log,
}

/// The end of a play.
#[derive(Drop)]
pub struct Played {
    pub status: ExitStatus,
    /// Why the day wasn't played to its end, in a sentence. `None` if it was, or if memory for the sentence
    /// was refused.
    pub objection: Option<String>,
}

/// Why a play ends early.
#[derive(Drop)]
enum EarlyEnd {
    /// The exit status, and the reason as a sentence.
    Reported(ExitStatus, String),
    /// The lines differ; the difference was printed.
    Differs,
    OutOfMemory,
    Failed,
}

impl From<AllocError> for EarlyEnd {
    fn from(_error: AllocError) -> EarlyEnd {
        EarlyEnd::OutOfMemory
    }
}

impl From<io::Error> for EarlyEnd {
    fn from(error: io::Error) -> EarlyEnd {
        if error.kind() == ErrorKind::OutOfMemory {
            EarlyEnd::OutOfMemory
        } else {
            EarlyEnd::Failed
        }
    }
}

impl From<DayFault> for EarlyEnd {
    fn from(fault: DayFault) -> EarlyEnd {
        match fault {
            DayFault::Reported(status, sentence) => EarlyEnd::Reported(status, sentence),
            DayFault::OutOfMemory => EarlyEnd::OutOfMemory,
        }
    }
}

/// The lines before the turns.
#[derive(Drop)]
enum Preamble {
    /// The text of the settings.
    Settings(Vec<u8>),
    /// The file continues another file.
    GoesOn,
    /// No line is a point.
    Neither,
}

/// Reads the lines before the turns.
fn read_preamble<R: Read>(alloc: Global, lines: &mut LineReader<'_, R>) -> io::Result<Preamble> {
    let mut settings = Vec::new(alloc);
    let mut line = Vec::new(alloc);
    for number in 1..u64::MAX {
        if settings.len() > Limits::INPUT_BYTES || !lines.read(&mut line)? {
            return Ok(Preamble::Neither);
        }
        if line.as_slice() == b".".as_slice() {
            return Ok(Preamble::Settings(settings));
        }
        if number == 1 && line.starts_with(GOES_ON) {
            return Ok(Preamble::GoesOn);
        }
        settings.extend_from_slice(&line)?;
        settings.extend_from_slice(b"\n")?;
    }
    Ok(Preamble::Neither)
}

/// The id of the first job, if a line is the first of a recording.
pub(crate) fn first_in(line: &[u8]) -> Option<JobId> {
    match read_start(line) {
        Some(start) => Some(start.first),
        None => None,
    }
}

/// The id of the first job, if the next line is the first of a recording.
fn read_first<R: Read>(alloc: Global, lines: &mut LineReader<'_, R>) -> io::Result<Option<JobId>> {
    let mut line = Vec::new(alloc);
    if !lines.read(&mut line)? {
        return Ok(None);
    }
    Ok(first_in(&line))
}

/// Reads the lines before the turns: the text of the settings, and the id of the first job.
fn read_beginning<R: Read>(
    alloc: Global,
    file: &str,
    lines: &mut LineReader<'_, R>,
) -> Result<(Vec<u8>, JobId), EarlyEnd> {
    let preamble = read_preamble(alloc, lines)?;
    let first = match &preamble {
        Preamble::Settings(_) => read_first(alloc, lines)?,
        _ => None,
    };
    let fault = match (preamble, first) {
        (Preamble::Settings(text), Some(first)) => return Ok((text, first)),
        (Preamble::Settings(_), None) => DayFault::no_start(alloc, file),
        (Preamble::GoesOn, _) => DayFault::goes_on(alloc, file),
        (Preamble::Neither, _) => DayFault::no_stop(alloc, file),
    };
    Err(EarlyEnd::from(fault))
}

/// A recorded day that is played, and its printed text.
#[derive(Drop)]
struct DayPlay<'file, 'output, W: Write> {
    alloc: Global,
    /// The name of the day's file.
    file: &'file str,
    writer: &'output mut W,
    /// The text that is printed and not yet written.
    output: Vec<u8>,
    shows: Shows,
}

impl<'file, 'output, W: Write> DayPlay<'file, 'output, W> {
    /// Creates a day of which nothing was read.
    fn new(
        alloc: Global,
        file: &'file str,
        writer: &'output mut W,
        shows: Shows,
    ) -> DayPlay<'file, 'output, W> {
        DayPlay {
            alloc,
            file,
            writer,
            output: Vec::new(alloc),
            shows,
        }
    }

    /// Appends the printed text of a step, and returns the fault of a line that wasn't just played.
    fn put_step(&mut self, number: u64, step: LineResult) -> Result<(), EarlyEnd> {
        let (alloc, file) = (self.alloc, self.file);
        match step {
            LineResult::Played => Ok(()),
            LineResult::Bad => Err(EarlyEnd::from(DayFault::bad_line(alloc, file, number))),
            LineResult::Refused(line) => Err(EarlyEnd::from(DayFault::refused(alloc, file, line))),
            LineResult::Differs(lines) if self.shows == Shows::Verdict => {
                self.output.extend_from_slice(&lines)?;
                Err(EarlyEnd::Differs)
            }
            LineResult::Differs(_) => Err(EarlyEnd::from(DayFault::differs(alloc, file, number))),
        }
    }

    /// Writes the printed text, if it is longer than `most` bytes.
    fn put_out(&mut self, most: usize) -> Result<(), EarlyEnd> {
        if self.output.len() > most {
            self.writer.write_all(&self.output)?;
            self.output.clear();
        }
        Ok(())
    }

    /// Plays the line of this number.
    fn play_line(
        &mut self,
        player: &mut Player<'_>,
        number: u64,
        line: &[u8],
    ) -> Result<(), EarlyEnd> {
        let step = player.play(number, line, &mut self.output)?;
        self.put_step(number, step)?;
        self.put_out(PRINTED)
    }

    /// Plays the lines of the turns, which are after the settings.
    fn play_turns<R: Read>(
        &mut self,
        lines: &mut LineReader<'_, R>,
        player: &mut Player<'_>,
    ) -> Result<DayEnd, EarlyEnd> {
        let mut line = Vec::new(self.alloc);
        for _ in 0..u64::MAX {
            let number = lines.passed().saturating_add(1);
            if !lines.read_whole(&mut line)? {
                break;
            }
            self.play_line(player, number, &line)?;
        }
        Ok(player.end(!line.is_empty()))
    }

    /// Plays the lines of the turns on a server that has started.
    fn play_on<R: Read>(
        &mut self,
        lines: &mut LineReader<'_, R>,
        engine: &mut JournaledEngine,
    ) -> Result<DayEnd, EarlyEnd> {
        let sinks = LogSinks::new(self.alloc, engine, self.shows)?;
        let mut player = Player::new(self.alloc, engine, self.shows, sinks);
        self.play_turns(lines, &mut player)
    }

    /// Plays the lines of the turns on a server that starts with these settings, and whose first job gets the id
    /// `first`.
    fn play_with<R: Read>(
        &mut self,
        lines: &mut LineReader<'_, R>,
        settings: Settings,
        first: JobId,
    ) -> Result<DayEnd, EarlyEnd>
        requires { MeetsLimits settings }
    {
        let planner = Pausable::new(AugmentingPaths::new(self.alloc));
        match Engine::starting_at(self.alloc, settings, planner, first) {
            Ok(mut engine) => self.play_on(lines, &mut engine),
            Err(_) => Err(EarlyEnd::OutOfMemory),
        }
    }

    /// Plays the whole day.
    fn play_all<R: Read>(&mut self, lines: &mut LineReader<'_, R>) -> Result<DayEnd, EarlyEnd> {
        let (text, first) = read_beginning(self.alloc, self.file, lines)?;
        let settings = settings_of(self.alloc, self.file, &text)?;
        self.play_with(lines, settings, first)
    }

    /// Plays the whole day, and writes the printed text up to its end.
    fn play<R: Read>(&mut self, lines: &mut LineReader<'_, R>) -> Result<(), EarlyEnd> {
        let played = self.play_all(lines);
        if let (Ok(end), Shows::Verdict) = (&played, self.shows) {
            self.put_same(*end)?;
        }
        self.put_out(0)?;
        played?;
        Ok(())
    }

    /// Appends the verdict about a day that played the same.
    fn put_same(&mut self, end: DayEnd) -> Result<(), AllocError> {
        let line = match end {
            DayEnd::Whole => format!(in self.alloc; "same\n")?,
            DayEnd::WithinTurn { ended } => {
                format!(in self.alloc; "same, up to line {ended}; the file ends within a turn\n")?
            }
        };
        self.output.extend_from_slice(line.as_bytes())
    }
}

/// Plays the recorded day of a file of this name, and writes its text.
fn play_day<R: Read, W: Write>(
    alloc: Global,
    file: &str,
    reader: &mut R,
    writer: &mut W,
    shows: Shows,
) -> Result<(), EarlyEnd> {
    let mut lines = LineReader::new(alloc, reader)?;
    let mut day = DayPlay::new(alloc, file, writer, shows);
    day.play(&mut lines)
}

/// Plays the recorded day of a file of this name, and writes its text, as `docs/TRACES.md` describes it.
pub fn play<R: Read, W: Write>(
    alloc: Global,
    file: &str,
    reader: &mut R,
    writer: &mut W,
    shows: Shows,
) -> Played {
    let (status, objection) = match play_day(alloc, file, reader, writer, shows) {
        Ok(()) => (ExitStatus::Done, None),
        Err(EarlyEnd::Reported(status, sentence)) => (status, Some(sentence)),
        Err(EarlyEnd::Differs) => (ExitStatus::No, None),
        Err(EarlyEnd::OutOfMemory) => (
            ExitStatus::Failed,
            format!(in alloc; "cannot play {file}: out of memory").ok(),
        ),
        Err(EarlyEnd::Failed) => (ExitStatus::Failed, None),
    };
    Played { status, objection }
}
