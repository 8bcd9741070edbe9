//! The loop of turns of a server.
ghost use Rattle.std.specs.Prelude.{◌≡◌, ℕ, List, length, OnOk};
ghost use Rattle.settings_file.specs.Settings.{MeetsLimits};
ghost use Rattle.journal.specs.declared.gate.Pass.TheVariants.{All};
ghost use Rattle.daemon.specs.Serving.{Idles, ServesTurn, ServesTurns};

use crate::clock::moment_since;
use crate::recorder::{Recorder, Tape};
use crate::serving::Server;
use base_types::Moment;
use server_log::LogWriter;
use settings_file::Settings;
use sockets::Sockets;
use std::alloc::{AllocError, Global};
use std::io;
use std::io::Write;
use std::time::{Clock, Instant};

/// The longest time that a server waits while nothing happens, in ms. A tick, which comes each second, is at
/// most that late.
pub(crate) const PAUSE: u64 = 100;

/// A recording of the day: its tape, and whether it leaves out the octets of documents.
#[derive(Drop)]
pub struct Recording<'a, T: Tape> {
    pub tape: &'a mut T,
    pub heads: bool,
}

/// Serves with these settings over sockets that listen. It takes a given number of turns, each at the ms
/// since the first turn, and writes a log and a recording if they are given.
///
/// A failed write of the log doesn't stop the server: the output has to return an error for a write that
/// would wait, and the lines are dropped and counted. A failed tape doesn't stop the server either: it gets
/// no more lines.
///
/// The server starts at the empty trace and takes turns at some moments, so that
/// [`crate::turns_are_one_trace`] speaks of it. Without an error these are as many as `turns`.
///
/// The error is the clock's or the system's, or out of memory.
pub fn serve<W: Write, T: Tape>(
    alloc: Global,
    clock: &impl Clock,
    sockets: Sockets,
    settings: Settings,
    turns: u64,
    log: Option<&mut W>,
    recording: Option<Recording<'_, T>>,
) -> io::Result<()>
    requires { MeetsLimits settings }
{
    let mut server = match Server::new(alloc, sockets, settings) {
        Ok(server) => server,
        Err(error) => return Err(io::Error::from(error)),
    };
    match server.date(clock, Moment::start()) {
        Ok(()) => run(alloc, clock, &mut server, turns, log, recording),
        Err(error) => Err(error),
    }
}

/// Takes the turns, with a log and a recording if they are given.
fn run<W: Write, T: Tape>(
    alloc: Global,
    clock: &impl Clock,
    server: &mut Server,
    turns: u64,
    log: Option<&mut W>,
    recording: Option<Recording<'_, T>>,
) -> io::Result<()>
    ensures { (moments : List ℕ) × ServesTurns moments server.old server.new × OnOk result (length moments ≡ turns) }
{
    let mut log = writer_of(alloc, log);
    let mut recorder = recorder_of(server, recording);
    take_turns(clock, server, turns, &mut log, &mut recorder)
}

/// Creates the writer of the log, if there is a log.
pub(crate) fn writer_of<'a, W: Write>(
    alloc: Global,
    log: Option<&'a mut W>,
) -> Option<LogWriter<'a, W>> {
    let Some(output) = log else {
        return None;
    };
    Some(LogWriter::new(alloc, output))
}

/// Starts recording the turns of a server that has taken none yet, if there is a recording.
fn recorder_of<'a, T: Tape>(
    server: &mut Server,
    recording: Option<Recording<'a, T>>,
) -> Option<Recorder<'a, T>>
    ensures { Idles server.old server.new }
{
    let Some(recording) = recording else {
        return None;
    };
    server.record(recording.heads);
    Some(Recorder::new(recording.tape))
}

/// Takes `turns` turns, with a pause after each, and then finishes the recording. Stops at the first error.
fn take_turns<W: Write, T: Tape>(
    clock: &impl Clock,
    server: &mut Server,
    turns: u64,
    log: &mut Option<LogWriter<'_, W>>,
    recorder: &mut Option<Recorder<'_, T>>,
) -> io::Result<()>
    ensures { (moments : List ℕ) × ServesTurns moments server.old server.new × OnOk result (length moments ≡ turns) }
{
    let start = Instant::now(clock)?;
    for _ in 0..turns {
        let moment = moment_since(clock, &start)?;
        take_turn(server, moment, log);
        let pause = write_recording(server, recorder, moment);
        server.wait_for_work(pause)?;
    }
    finish(server, recorder);
    Ok(())
}

/// Takes a turn at a moment, and writes its lines of the log.
fn take_turn<W: Write>(server: &mut Server, moment: Moment, log: &mut Option<LogWriter<'_, W>>)
    ensures { ServesTurn All moment server.old server.new }
{
    match log {
        Some(log) => put_lines(server.turn_logged(moment), log),
        None => server.turn(moment),
    }
}

/// Writes the notes of a turn at a moment to the recording, if they are due. Returns the ms for which the
/// server may wait then at most.
fn write_recording<T: Tape>(
    server: &mut Server,
    recorder: &mut Option<Recorder<'_, T>>,
    moment: Moment,
) -> u64
    ensures { Idles server.old server.new }
{
    match recorder {
        Some(recorder) => server.pass_notes(recorder, moment, PAUSE),
        None => PAUSE,
    }
}

/// Writes the notes of the last turn to the recording, if there is one.
fn finish<T: Tape>(server: &mut Server, recorder: &mut Option<Recorder<'_, T>>)
    ensures { Idles server.old server.new }
{
    if let Some(recorder) = recorder {
        server.pass_last_notes(recorder);
    }
}

/// Writes the lines of a turn, or a line that states that memory for them was refused.
pub(crate) fn put_lines<W: Write>(lines: Result<Vec<u8>, AllocError>, log: &mut LogWriter<'_, W>) {
    match lines {
        Ok(lines) => log.put(&lines),
        Err(AllocError) => log.put(b"no memory for the log\n"),
    }
}
