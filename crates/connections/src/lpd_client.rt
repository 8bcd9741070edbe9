//! An LPD client: commands, and the files of jobs (RFC 1179).
ghost use Rattle.std.specs.Prelude.{◌≡◌, OnOk, OnErr, Some, None, true, false};
ghost use Rattle.lpd.specs.Items.{item_record, command_record, HasCommand, Aborts, Announces, HasFile, ReceivesJob};
ghost use Rattle.lpd.specs.Pending.{first_complete};
ghost use Rattle.lpd.specs.Session.{sent_at};
ghost use Rattle.connections.specs.Session.{on_command, on_file, on_complete, on_job, is_queue};
ghost use Rattle.connections.specs.Commands.{SubmitsJob};
ghost use Rattle.connections.specs.Steps.{AsksAs, AsksForFile, byte_due, step_of};
ghost use Rattle.connections.specs.Peers.{IsNewLpd, IsFedLpd, ComesTo, NextLpd, HandlesLpdIfAny};

use crate::ask::{AllocFailure, Ask, Client, Part};
use crate::step::{Due, Step};
use base_types::Text;
use events::{Event, ListQueue, QueueForm, RemoveJobs, SubmitFiles};
use ipp_operations::{ACCEPTED, REFUSED};
use lpd::{FileHead, LpdCommand, LpdError, LpdItem, LpdReader, SentJob, Session};
use settings_file::Settings;
use std::alloc::{AllocError, Global};
use std::marker::Model;

/// An LPD client, with the state of its stream.
#[derive(Drop)]
pub struct LpdClient {
    alloc: Global,
    reader: LpdReader,
    /// The files of a queue, while jobs are received.
    session: Option<Session>,
}

impl Model for LpdClient {
    ghost use Rattle.connections.specs.States.{LpdClientState};

    ghost Value = { LpdClientState };

    ghost view = { λ t. record { reader = t.reader; session = t.session } };
}

impl LpdClient {
    /// Creates a client of which nothing was read.
    pub fn new(alloc: Global) -> LpdClient
        ensures { IsNewLpd result }
    {
        LpdClient {
            alloc,
            reader: LpdReader::new(alloc),
            session: None,
        }
    }

    /// Feeds the next bytes of the wire to the reader. The only error is out of memory, and none of the bytes
    /// is taken.
    pub fn feed(&mut self, segment: &[u8]) -> Result<(), AllocError>
        ensures ok { OnOk result (IsFedLpd segment.now self.old self.new) }
        ensures err { OnErr result (self.new ≡ self.old) }
    {
        self.reader.feed(segment)
    }

    /// Returns the step for the next item of the stream if it is whole, or for the first fault.
    #[inline(never)]
    pub fn next(&mut self, settings: &Settings) -> Option<Step>
        ensures { NextLpd (is_queue settings.now) result self.old self.new }
    {
        match self.reader.next_item() {
            Ok(item) => self.handle_whole(item, settings),
            Err(error) => Some(step_of(error)),
        }
    }

    /// Returns the step for an item that was just taken off the stream, if it is whole.
    fn handle_whole(&mut self, item: Option<LpdItem>, settings: &Settings) -> Option<Step>
        ensures { HandlesLpdIfAny (is_queue settings.now) item result self.old self.new }
    {
        match item {
            Some(item) => Some(self.handle(item, settings)),
            None => None,
        }
    }

    /// Returns the step for an item.
    fn handle(&mut self, item: LpdItem, settings: &Settings) -> Step
        ensures reader { self.new.reader ≡ self.old.reader }
        ensures comes { ComesTo (is_queue settings.now) (item_record item self.old.reader.file) result self.old self.new }
    {
        match item {
            LpdItem::Command(command) => self.handle_command(command, settings),
            LpdItem::Abort => self.abort(),
            LpdItem::Announced(head) => self.announce(head),
            LpdItem::File => self.take_file(),
        }
    }

    /// Acts on a command. In a session, a command is ignored.
    fn handle_command(&mut self, command: LpdCommand, settings: &Settings) -> Step
        ensures asks { ComesTo (is_queue settings.now) (HasCommand (command_record command)) result self.old self.new }
        ensures reader { self.new.reader ≡ self.old.reader }
    {
        if self.session.is_some() {
            return goes(None);
        }
        self.obey(command, settings)
    }

    /// Acts on the first command.
    fn obey(&mut self, command: LpdCommand, settings: &Settings) -> Step
        requires { self.old.session ≡ None }
        ensures asks { AsksAs (on_command (is_queue settings.now) (command_record command)) result self.new.session }
        ensures reader { self.new.reader ≡ self.old.reader }
    {
        match command {
            LpdCommand::PrintWaiting { .. } => stops(None),
            LpdCommand::ReceiveJob { queue } => self.receive(queue, settings),
            LpdCommand::ListShort { queue, operands } => {
                commands(listing(queue, QueueForm::Short, operands))
            }
            LpdCommand::ListLong { queue, operands } => {
                commands(listing(queue, QueueForm::Long, operands))
            }
            LpdCommand::RemoveJobs {
                queue,
                agent,
                operands,
            } => commands(Event::RemoveJobs(RemoveJobs {
                queue,
                agent,
                operands,
            })),
        }
    }

    /// Opens a session that receives the jobs of a queue. An unknown queue is refused.
    fn receive(&mut self, queue: Text, settings: &Settings) -> Step
        requires { self.old.session ≡ None }
        ensures asks { AsksAs (on_command (is_queue settings.now) (ReceivesJob queue)) result self.new.session }
        ensures reader { self.new.reader ≡ self.old.reader }
    {
        if is_queue(settings, &queue) {
            self.session = Some(Session::new(self.alloc, queue));
            goes(Some(ACCEPTED))
        } else {
            stops(Some(REFUSED))
        }
    }

    /// Aborts the session's jobs, as the client asks.
    fn abort(&mut self) -> Step
        ensures asks { ComesTo (λ name. false) Aborts result self.old self.new }
        ensures reader { self.new.reader ≡ self.old.reader }
    {
        if let Some(session) = &mut self.session {
            session.abort();
        }
        goes(None)
    }

    /// Acts on the announcement of a file. A file that exceeds a limit is refused.
    fn announce(&mut self, head: FileHead) -> Step
        ensures asks { ComesTo (λ name. false) (Announces head) result self.old self.new }
        ensures reader { self.new.reader ≡ self.old.reader }
    {
        let Some(session) = &mut self.session else {
            return goes(None);
        };
        if session.admits(&head) {
            session.announce(head);
            goes(Some(ACCEPTED))
        } else {
            self.session = None;
            stops(Some(REFUSED))
        }
    }

    /// Acts on a file that was received.
    fn take_file(&mut self) -> Step
        ensures asks { ComesTo (λ name. false) (HasFile self.old.reader.file) result self.old self.new }
        ensures reader { self.new.reader ≡ self.old.reader }
    {
        match &mut self.session {
            Some(session) => take(session, self.reader.file()),
            None => goes(None),
        }
    }
}

/// The step for the first fault of the stream, or for refused memory for a line.
fn step_of(error: LpdError) -> Step
    ensures { result ≡ step_of error }
{
    match error {
        LpdError::Fault(_) => Step::Due {
            due: Due::Byte(REFUSED),
            last: true,
        },
        LpdError::OutOfMemory => Step::Breaks(Ask::Broke(AllocFailure::Input)),
    }
}

/// The step that makes a byte due, if there is one; the session goes on.
fn goes(byte: Option<u8>) -> Step
    ensures { result ≡ Step.Due (byte_due byte) false }
{
    Step::Due {
        due: byte_due(byte),
        last: false,
    }
}

/// The step that makes a byte due, if there is one; the connection drains.
fn stops(byte: Option<u8>) -> Step
    ensures { result ≡ Step.Due (byte_due byte) true }
{
    Step::Due {
        due: byte_due(byte),
        last: true,
    }
}

fn byte_due(byte: Option<u8>) -> Due
    ensures { result ≡ byte_due byte }
{
    match byte {
        Some(byte) => Due::Byte(byte),
        None => Due::Nothing,
    }
}

/// The step with an ask to the server; the session goes on.
fn asks(ask: Ask) -> Step
    ensures { result ≡ Step.Asks ask false }
{
    Step::Asks { ask, last: false }
}

/// The step that lists a queue or removes jobs; the connection drains.
fn commands(event: Event) -> Step
    ensures { result ≡ Step.Asks (Ask.Event Client.LpdCommand event) true }
{
    Step::Asks {
        ask: Ask::Event(Client::LpdCommand, event),
        last: true,
    }
}

/// The event that lists a queue.
fn listing(queue: Text, form: QueueForm, operands: Vec<Text>) -> Event
    ensures { result ≡ Event.ListQueue (record { queue = queue; form = form; operands = operands }) }
{
    Event::ListQueue(ListQueue {
        queue,
        form,
        operands,
    })
}

/// Returns whether a printer has the name.
fn is_queue(settings: &Settings, name: &Text) -> bool
    ensures { result ≡ is_queue settings.now name.now }
{
    settings.printer_named(name.as_bytes()).is_some()
}

/// Keeps a file that was received, and submits the first job that is complete. A file that isn't kept is
/// refused.
fn take(session: &mut Session, contents: &[u8]) -> Step
    ensures { AsksForFile (on_file contents.now session.old) (Some session.old) result (Some session.new) }
{
    match session.take_file(contents) {
        Ok(true) => submit_complete(session),
        Ok(false) => goes(Some(REFUSED)),
        Err(_) => asks(Ask::Lost(Part::File)),
    }
}

/// Submits the first job that is complete, or acknowledges the file.
fn submit_complete(session: &mut Session) -> Step
    ensures { AsksAs (on_complete session.old (first_complete session.old.pending)) result (Some session.new) }
{
    match session.complete() {
        Some(place) => submit(session, place),
        None => goes(Some(ACCEPTED)),
    }
}

/// Submits the job at a place, and drops its files.
fn submit(session: &mut Session, place: usize) -> Step
    ensures { AsksAs (on_job place session.old (sent_at place session.old)) result (Some session.new) }
{
    match session.job_at(place) {
        Ok(Some(job)) => {
            session.drop_job(place);
            asks(Ask::Event(Client::LpdJob, submission(job)))
        }
        Ok(None) => goes(Some(ACCEPTED)),
        Err(_) => {
            session.drop_job(place);
            asks(Ask::Lost(Part::Job))
        }
    }
}

/// The event that submits a job of files.
fn submission(job: SentJob) -> Event
    ensures { SubmitsJob job result }
{
    let SentJob {
        queue,
        owner,
        name,
        documents,
    } = job;
    Event::SubmitFiles(SubmitFiles {
        queue,
        owner,
        name,
        documents,
    })
}
