//! A server and a printer in memory.
ghost use Rattle.std.specs.Prelude.{◌≤◌, length};
ghost use Rattle.std.specs.Io.{ReadsAtMost, WritesAtMost};

use crate::step::{Act, Step};
use adapter_printers::{HostPort, Network, Peer, Stream};
use std::alloc::Global;
use std::cell::RefCell;
use std::io;
use std::io::ErrorKind;
use std::rc::Rc;
use std::rt::Files;

/// A script, and how far it is played.
#[derive(Drop)]
pub(crate) struct Script {
    steps: Vec<Step>,
    /// The number of the next step, and of its bytes that have gone.
    place: usize,
    offset: usize,
    /// The bytes of the request of IPP that the adapter writes.
    message: Vec<u8>,
    /// The ms of the step that have passed.
    passed: u64,
    held: u64,
    /// The step at which the adapter did what no step allows.
    wrong: Option<usize>,
}

impl Script {
    pub(crate) fn new(alloc: Global, steps: Vec<Step>) -> Script {
        Script {
            steps,
            place: 0,
            offset: 0,
            message: Vec::new(alloc),
            passed: 0,
            held: 0,
            wrong: None,
        }
    }

    /// What happens at the next step.
    fn act(&self) -> Option<Act> {
        self.steps.get(self.place).map(|step| step.act)
    }

    /// The bytes of the next step.
    fn bytes(&self) -> &[u8] {
        match self.steps.get(self.place) {
            Some(step) => step.bytes.as_slice(),
            None => &[],
        }
    }

    /// The bytes of the next step that haven't gone.
    fn rest(&self) -> &[u8] {
        self.bytes().get(self.offset..).unwrap_or(&[])
    }

    /// Records that the adapter did what no step allows.
    fn fault(&mut self) {
        self.wrong = self.wrong.or(Some(self.place));
    }

    /// Goes on to the next step.
    fn advance(&mut self) {
        self.place = self.place.saturating_add(1);
        self.offset = 0;
        self.passed = 0;
        self.message.clear();
        if let Some(Act::Holds(count)) = self.act() {
            self.held = count;
            self.place = self.place.saturating_add(1);
        }
    }

    /// Lets at most `most` ms pass, if the next step is that time passes. Returns how many passed.
    fn pass(&mut self, most: u64) -> u64 {
        let Some(Act::Passes(ms)) = self.act() else {
            return 0;
        };
        let count = ms.saturating_sub(self.passed).min(most);
        self.passed = self.passed.saturating_add(count);
        if self.passed >= ms {
            self.advance();
        }
        count
    }

    /// Goes on if the next step is that standard input is closed. Returns whether it was.
    fn close(&mut self) -> bool {
        let closes = matches!(self.act(), Some(Act::Closes));
        if closes {
            self.advance();
        }
        closes
    }

    /// Connects to a peer.
    fn connect(&mut self, peer: Peer) -> io::Result<()> {
        match self.act() {
            Some(Act::Connects(one)) if one == peer => {
                self.advance();
                Ok(())
            }
            Some(Act::Misses(one)) if one == peer => {
                self.advance();
                Err(io::Error::from(ErrorKind::ConnectionRefused))
            }
            _ => {
                self.fault();
                Err(io::Error::from(ErrorKind::ConnectionRefused))
            }
        }
    }

    /// Reads bytes of a peer.
    fn read(&mut self, peer: Peer, buffer: &mut [u8]) -> io::Result<usize>
        ensures { ReadsAtMost result buffer.new }
    {
        self.end_request();
        match self.act() {
            Some(Act::Sends(one)) if one == peer => Ok(self.send(buffer)),
            Some(Act::Ends(one)) if one == peer => {
                self.advance();
                Ok(0)
            }
            Some(Act::Breaks(one)) if one == peer => {
                self.advance();
                Err(io::Error::from(ErrorKind::ConnectionReset))
            }
            _ => Err(io::Error::from(ErrorKind::WouldBlock)),
        }
    }

    /// Sends the next bytes of the step.
    fn send(&mut self, buffer: &mut [u8]) -> usize
        ensures { result ≤ length buffer.new }
    {
        let rest = self.rest();
        let count = rest.len().min(buffer.len());
        buffer[..count].copy_from_slice(&rest[..count]);
        self.pass_bytes(count);
        count
    }

    /// Notes that so many bytes of the step have gone, and goes on after the last.
    fn pass_bytes(&mut self, count: usize) {
        self.offset = self.offset.saturating_add(count);
        if self.offset >= self.bytes().len() {
            self.advance();
        }
    }

    /// Takes bytes that the adapter writes to a peer.
    fn write(&mut self, peer: Peer, bytes: &[u8]) -> io::Result<usize>
        ensures { WritesAtMost result bytes.now }
    {
        match self.act() {
            Some(Act::Writes(one)) if one == peer => Ok(self.take(bytes)),
            Some(Act::Asks(_)) if peer == Peer::Printer => {
                self.message.extend_from_slice(bytes)?;
                Ok(bytes.len())
            }
            Some(Act::Begins) if peer == Peer::Printer => {
                self.message.extend_from_slice(bytes)?;
                Ok(self.take_up_to_part(bytes.len()))
            }
            Some(Act::Breaks(one)) if one == peer => {
                self.advance();
                Err(io::Error::from(ErrorKind::BrokenPipe))
            }
            None | Some(Act::Passes(_)) if peer == Peer::Server => {
                self.fault();
                Err(io::Error::from(ErrorKind::WouldBlock))
            }
            _ => Err(io::Error::from(ErrorKind::WouldBlock)),
        }
    }

    /// Takes the next bytes of the step.
    fn take(&mut self, bytes: &[u8]) -> usize
        ensures { result ≤ length bytes.now }
    {
        let rest = self.rest();
        let count = rest.len().min(bytes.len());
        let differs = rest[..count] != bytes[..count];
        if differs {
            self.fault();
        }
        self.pass_bytes(count);
        count
    }

    /// The length of the request up to the end of the step's bytes, if it contains them.
    fn length_up_to_part(&self) -> Option<usize> {
        let part = self.bytes();
        find(&self.message, part).map(|place| place.saturating_add(part.len()))
    }

    /// Goes on if the request contains the step's bytes. Returns how many of its last `count` bytes are taken: those
    /// up to the end of the step's.
    fn take_up_to_part(&mut self, count: usize) -> usize
        ensures { result ≤ count }
    {
        let Some(end) = self.length_up_to_part() else {
            return count;
        };
        let rest = self.message.len().saturating_sub(end);
        self.advance();
        count.saturating_sub(rest)
    }

    /// Whether the request of IPP is as a step with this operation has it; nothing, if it isn't whole.
    fn is_asked(&self, operation: u16) -> Option<bool> {
        let body = whole_body(&self.message)?;
        let code = operation.to_be_bytes();
        Some(body.get(2..4) == Some(code.as_slice()) && find(&self.message, self.bytes()).is_some())
    }

    /// Goes on if the next step is a request of IPP that is whole. The adapter reads once it has written.
    fn end_request(&mut self) {
        let Some(Act::Asks(operation)) = self.act() else {
            return;
        };
        let Some(is_asked) = self.is_asked(operation) else {
            return;
        };
        if !is_asked {
            self.fault();
        }
        self.advance();
    }

    /// Ends the adapter's side of a connection.
    fn finish(&mut self, peer: Peer) {
        match self.act() {
            Some(Act::Finishes(one)) if one == peer => self.advance(),
            _ => self.fault(),
        }
    }
}

/// The body of a request of HTTP, once all of the request is there (RFC 9112, section 6).
fn whole_body(message: &[u8]) -> Option<&[u8]> {
    let end = find(message, b"\r\n\r\n")?;
    let head = message.get(..end)?;
    let body = message.get(end.checked_add(4)?..)?;
    match find(head, b"Content-Length: ") {
        Some(place) => {
            let count = number(head.get(place.checked_add(16)?..)?);
            (body.len() as u64 >= count).then_some(body)
        }
        None if body.ends_with(b"\r\n0\r\n\r\n") => {
            body.get(find(body, b"\r\n")?.checked_add(2)?..)
        }
        None => None,
    }
}

/// The number at the beginning of a text.
fn number(text: &[u8]) -> u64 {
    let mut number = 0u64;
    for byte in text {
        if !byte.is_ascii_digit() {
            return number;
        }
        number = number
            .saturating_mul(10)
            .saturating_add(u64::from(*byte - b'0'));
    }
    number
}

/// The place of a part in a text.
fn find(text: &[u8], part: &[u8]) -> Option<usize> {
    for place in 0..=text.len() {
        if text[place..].starts_with(part) {
            return Some(place);
        }
    }
    None
}

/// The network of a script.
#[derive(Drop)]
pub(crate) struct Scripted {
    pub(crate) script: Rc<RefCell<Script>>,
}

impl Scripted {
    /// Returns whether the script is played to its end, without a call that no step allows.
    pub(crate) fn is_played(&self) -> bool {
        match self.script.try_borrow() {
            Ok(script) => script.act().is_none() && script.wrong.is_none(),
            Err(_) => false,
        }
    }

    /// The number of the step that went wrong, or of the next step.
    pub(crate) fn place(&self) -> usize {
        match self.script.try_borrow() {
            Ok(script) => script.wrong.unwrap_or(script.place),
            Err(_) => 0,
        }
    }

    /// Lets at most `most` ms pass, if the next step is that time passes. Returns how many passed.
    pub(crate) fn pass(&self, most: u64) -> u64 {
        match self.script.try_borrow_mut() {
            Ok(mut script) => script.pass(most),
            Err(_) => 0,
        }
    }

    /// Goes on if the next step is that standard input is closed. Returns whether it was.
    pub(crate) fn close(&self) -> bool {
        match self.script.try_borrow_mut() {
            Ok(mut script) => script.close(),
            Err(_) => false,
        }
    }
}

/// A connection of a script.
#[derive(Drop)]
pub(crate) struct ScriptedStream {
    peer: Peer,
    script: Rc<RefCell<Script>>,
}

/// The error of a call during another call.
fn in_use() -> io::Error {
    io::Error::from(ErrorKind::Other)
}

impl Network for Scripted {
    type Stream = ScriptedStream;

    fn connect(&self, peer: Peer, _place: &HostPort, _choice: usize) -> io::Result<ScriptedStream> {
        let Ok(mut script) = self.script.try_borrow_mut() else {
            return Err(in_use());
        };
        script.connect(peer)?;
        Ok(ScriptedStream {
            peer,
            script: self.script.clone()?,
        })
    }
}

impl Stream for ScriptedStream {
    fn is_open(&self) -> io::Result<bool> {
        Ok(true)
    }

    fn read(&mut self, buffer: &mut [u8]) -> io::Result<usize>
        ensures { ReadsAtMost result buffer.new }
    {
        match self.script.try_borrow_mut() {
            Ok(mut script) => script.read(self.peer, buffer),
            Err(_) => Err(in_use()),
        }
    }

    fn write(&mut self, bytes: &[u8]) -> io::Result<usize>
        ensures { WritesAtMost result bytes.now }
    {
        match self.script.try_borrow_mut() {
            Ok(mut script) => script.write(self.peer, bytes),
            Err(_) => Err(in_use()),
        }
    }

    fn end_writing(&self) -> io::Result<()> {
        match self.script.try_borrow_mut() {
            Ok(mut script) => Ok(script.finish(self.peer)),
            Err(_) => Err(in_use()),
        }
    }

    fn has_ended(&self) -> io::Result<bool> {
        match self.script.try_borrow() {
            Ok(script) => Ok(script.held == 0),
            Err(_) => Err(in_use()),
        }
    }

    fn unacknowledged<F: Files>(&self, _alloc: Global, _files: &F) -> io::Result<Option<u64>> {
        match self.script.try_borrow() {
            Ok(script) => Ok(Some(script.held)),
            Err(_) => Err(in_use()),
        }
    }
}
