//! A server that acts on the lines of a trace.
ghost use Rattle.std.specs.Prelude.{◌≡◌, Ok, Some, IfOk, OnOk, OnErr};
ghost use Rattle.base_types.specs.Report.{report_of};
ghost use Rattle.settings_file.specs.Settings.{MeetsLimits};
ghost use Rattle.server.specs.Refinement.{outcome_of};
ghost use Rattle.server.specs.Turn.{Reported, Ticked};
ghost use Rattle.replay.specs.Playing.{Calls, Serves, Turns, Plays, IsReplyLine, opened, on_peer};
ghost use Rattle.traces.specs.Connections.{sending, ending};
ghost use Rattle.replay.specs.Acting.{standing, IsReady, IsStart, TakesActions, TakesTurn, TakesTillQuiet, Acts};
ghost use Rattle.traces.specs.Printed.{reply_line};

use crate::log::Log;
use base_types::{DeviceId, Moment, Report};
use plan_solver::AugmentingPaths;
use server::{Engine, Served};
use settings_file::Settings;
use std::alloc::{AllocError, Global};
use traces::{Input, Line, LineFault, Opening, Peers, form_fault, put_reply, read_line};

/// The most turns that are taken for one line.
const MOST_TURNS: usize = 16_777_216;

/// A server, its connections with their peers, and the printed text of its notes.
#[derive(Drop)]
pub(crate) struct Play {
    alloc: Global,
    engine: Engine<AugmentingPaths>,
    peers: Peers,
    log: Log,
    moment: Moment,
}

/// The line of a reply. The only error is out of memory.
fn reply_line(alloc: Global, served: &Served) -> Result<Vec<u8>, AllocError>
    ensures { IfOk result (λ line. IsReplyLine (outcome_of (Ok served.now)) line.items) }
{
    match served {
        Served::Reply(bytes) => line_of(alloc, bytes),
        Served::BadRequest => Vec::from_slice(alloc, b"http 400\n"),
    }
}

/// The line of a reply of these bytes. The only error is out of memory.
fn line_of(alloc: Global, bytes: &[u8]) -> Result<Vec<u8>, AllocError>
    ensures { IfOk result (λ line. line.items ≡ reply_line bytes.now) }
{
    let mut line = Vec::new(alloc);
    put_reply(alloc, &mut line, bytes)?;
    Ok(line)
}

impl Play {
    /// Creates a server that starts with these settings. The only error is out of memory.
    pub(crate) fn new(alloc: Global, settings: Settings, texts: bool) -> Result<Play, AllocError>
        requires { MeetsLimits settings }
        ensures { IfOk result (IsStart texts settings) }
    {
        let names = settings.device_names(alloc)?;
        let engine = Engine::new(alloc, settings, AugmentingPaths::new(alloc))?;
        Ok(Play {
            alloc,
            engine,
            peers: Peers::new(alloc),
            log: Log::new(alloc, texts, names),
            moment: Moment::start(),
        })
    }

    /// Acts on a line, and appends its text. Bytes that aren't a line of a trace that may come now change
    /// nothing, and their fault is returned. The only error is out of memory.
    pub(crate) fn act(
        &mut self,
        bytes: &[u8],
        output: &mut Vec<u8>,
    ) -> Result<Option<LineFault>, AllocError>
        requires { IsReady self.old }
        ensures ok { IfOk result (λ fault. Acts self.old bytes.now output.old.items fault self.new output.new.items) }
        ensures err { OnErr result (output.new.items ≡ output.old.items) }
    {
        let Some(line) = read_line(self.alloc, bytes, self.log.names())? else {
            return Ok(Some(form_fault(bytes)));
        };
        if let Some(fault) = self.peers.objection(&line) {
            return Ok(Some(fault));
        }
        let text = self.give(line)?;
        output.extend_from_slice(&text)?;
        Ok(None)
    }

    /// Acts on a line, and returns its text. The only error is out of memory.
    fn give(&mut self, line: Line) -> Result<Vec<u8>, AllocError>
        requires { IsReady self.old }
        ensures { IfOk result (λ text. TakesActions self.old self.new (λ actions. Plays self.old.log.texts self.old.log.names line (standing self.old) actions text.items (standing self.new))) }
    {
        match line {
            Line::At(moment) => {
                self.moment = moment;
                Ok(Vec::new(self.alloc))
            }
            Line::Ipp(body) => self.serve(&body),
            Line::Device(device, report) => self.report(device, report),
            Line::Tick => self.tick(),
            Line::Open(opening) => self.open(opening),
            Line::In(input) => self.bring(&input),
            Line::End(number) => self.end(number),
        }
    }

    /// Serves a body, and returns its text. The only error is out of memory.
    fn serve(&mut self, body: &[u8]) -> Result<Vec<u8>, AllocError>
        requires { IsReady self.old }
        ensures { IfOk result (λ text. TakesActions self.old self.new (λ actions. Serves self.old.log.texts self.old.log.names self.old.moment body.now actions text.items × (standing self.new ≡ standing self.old))) }
    {
        let served = self.engine.serve_body(body, &mut self.log, self.moment)?;
        let mut text = reply_line(self.alloc, &served)?;
        let observed = self.log.take()?;
        text.extend_from_slice(&observed)?;
        Ok(text)
    }

    /// Acts on a device's report, and returns its text. The only error is out of memory.
    fn report(&mut self, device: DeviceId, report: Report) -> Result<Vec<u8>, AllocError>
        requires { IsReady self.old }
        ensures { IfOk result (λ text. TakesActions self.old self.new (λ actions. Calls self.old.log.texts self.old.log.names (Reported self.old.moment device (report_of report)) actions text.items × (standing self.new ≡ standing self.old))) }
    {
        self.engine
            .report(device, report, &mut self.log, self.moment)?;
        let observed = self.log.take()?;
        Ok(observed)
    }

    /// Acts on a tick, and returns its text. The only error is out of memory.
    fn tick(&mut self) -> Result<Vec<u8>, AllocError>
        requires { IsReady self.old }
        ensures { IfOk result (λ text. TakesActions self.old self.new (λ actions. Calls self.old.log.texts self.old.log.names (Ticked self.old.moment) actions text.items × (standing self.new ≡ standing self.old))) }
    {
        self.engine.tick(&mut self.log, self.moment)?;
        let observed = self.log.take()?;
        Ok(observed)
    }

    /// Opens a connection, takes turns, and returns their text. The only error is out of memory.
    fn open(&mut self, opening: Opening) -> Result<Vec<u8>, AllocError>
        requires { IsReady self.old }
        ensures { IfOk result (λ text. TakesActions self.old self.new (λ actions. Turns self.old.log.texts self.old.log.names (opened opening.number opening.door (standing self.old)) actions text.items (standing self.new))) }
    {
        self.peers.open(opening)?;
        self.run()
    }

    /// Brings bytes to a connection, takes turns, and returns their text. The only error is out of memory.
    fn bring(&mut self, input: &Input) -> Result<Vec<u8>, AllocError>
        requires { IsReady self.old }
        ensures { IfOk result (λ text. TakesActions self.old self.new (λ actions. Turns self.old.log.texts self.old.log.names (on_peer input.now.number (sending input.now.bytes.items) (standing self.old)) actions text.items (standing self.new))) }
    {
        self.peers.send(input)?;
        self.run()
    }

    /// Ends the input of a connection, takes turns, and returns their text. The only error is out of memory.
    fn end(&mut self, number: u64) -> Result<Vec<u8>, AllocError>
        requires { IsReady self.old }
        ensures { IfOk result (λ text. TakesActions self.old self.new (λ actions. Turns self.old.log.texts self.old.log.names (on_peer number ending (standing self.old)) actions text.items (standing self.new))) }
    {
        self.peers.end(number);
        self.run()
    }

    /// Takes turns up to a quiet one, and returns their text. The only error is out of memory.
    fn run(&mut self) -> Result<Vec<u8>, AllocError>
        requires { IsReady self.old }
        ensures { IfOk result (λ text. TakesActions self.old self.new (λ actions. Turns self.old.log.texts self.old.log.names (standing self.old) actions text.items (standing self.new))) }
    {
        self.take_turns();
        if self.peers.wire.failed {
            return Err(AllocError);
        }
        let mut text = self.log.take()?;
        self.peers.print(&mut text)?;
        Ok(text)
    }

    /// Takes turns up to one in which each poll has the answer `Waiting`.
    fn take_turns(&mut self)
        ensures { TakesTillQuiet self.old self.new }
    {
        for _turn in 0..MOST_TURNS {
            if !self.take_turn() {
                return;
            }
        }
    }

    /// Takes a turn. Returns whether a poll had an answer other than `Waiting`.
    fn take_turn(&mut self) -> bool
        ensures { TakesTurn self.old self.new result }
    {
        self.peers.wire.stirred = false;
        self.engine
            .turn(&mut self.peers.wire, &mut self.log, self.moment);
        self.peers.wire.stirred
    }
}
