//! AppSocket and PJL: a job is wrapped in PJL, and the printer reports on it.
ghost use Rattle.std.specs.Prelude.{◌≤◌, IfOk, length};

use crate::printer_event::{Breach, PrinterEvent};
use crate::printer_link::{CALLS, IoOutcome, PrinterLink, SEGMENT};
use crate::protocol::Protocol;
use crate::stream::Stream;
use adapter_core::{AdapterState, JobOrder, PjlReader, PjlStatus};
use base_types::Sides;
use std::alloc::{AllocError, Global};
use text::{cut_at, drop_prefix};

/// The least code of a printer that needs a person: a cover is open, or paper is out or jammed.
const NEEDS_SOMEONE: u32 = 40_000;

/// The byte that ends a message.
const FORM_FEED: u8 = 12;

/// The most lines of a message that are searched for the name of a job.
const LINES: u32 = 64;

/// The part that is sent now, or that all parts are sent.
#[derive(Clone, Copy)]
enum PjlStage {
    Head,
    Data,
    Foot,
    Nothing,
}

/// The client's side of AppSocket and PJL.
#[derive(Drop)]
pub struct Pjl {
    alloc: Global,
    reader: PjlReader,
    job: u32,
    copies: u32,
    sides: Sides,
    part: PjlStage,
    /// The bytes of the part that are still to be written; the data isn't among them.
    output: Vec<u8>,
    /// The bytes of the printer that aren't read yet.
    input: Vec<u8>,
    /// Whether the printer reported that it needs a person.
    stopped: bool,
}

impl Pjl {
    /// Creates the protocol, without a job.
    pub fn new(alloc: Global) -> Pjl {
        Pjl {
            alloc,
            reader: PjlReader::new(alloc),
            job: 0,
            copies: 1,
            sides: Sides::One,
            part: PjlStage::Nothing,
            output: Vec::new(alloc),
            input: Vec::new(alloc),
            stopped: false,
        }
    }

    /// Returns the next report of the printer about a job, a page or itself. `Nothing` if there is none for
    /// now, or if bytes were moved.
    fn read_report<S: Stream>(
        &mut self,
        session: &mut PrinterLink<S>,
        now: u64,
    ) -> Result<PrinterEvent, AllocError> {
        for _ in 0..CALLS {
            if self.input.is_empty() {
                match self.read_segment(session)? {
                    IoOutcome::Bytes(_) => {}
                    IoOutcome::Nothing => return Ok(PrinterEvent::Nothing),
                    IoOutcome::End | IoOutcome::Broken => return Ok(PrinterEvent::Failed(
                        Breach::Broken,
                    )),
                }
            }
            match self.read_input(session, now)? {
                PrinterEvent::Nothing => {}
                event => return Ok(event),
            }
        }
        Ok(PrinterEvent::Nothing)
    }

    /// Reads a segment of the printer's bytes.
    fn read_segment<S: Stream>(
        &mut self,
        session: &mut PrinterLink<S>,
    ) -> Result<IoOutcome, AllocError> {
        let mut buffer = [0u8; SEGMENT];
        let moved = session.read(&mut buffer);
        if let IoOutcome::Bytes(count) = moved {
            self.input.extend_from_slice(&buffer[..count])?;
        }
        Ok(moved)
    }

    /// Reads the printer's bytes up to the first status, and returns what it reports. Each status that is
    /// known restarts the printer's time.
    fn read_input<S: Stream>(
        &mut self,
        session: &mut PrinterLink<S>,
        now: u64,
    ) -> Result<PrinterEvent, AllocError> {
        let name = self.name()?;
        let read = read_prefix(&mut self.reader, &self.input, name.as_bytes())?;
        drop_prefix(&mut self.input, read.0);
        if read.1 == PjlStatus::Other {
            return Ok(PrinterEvent::Nothing);
        }
        session.rest(now);
        let event = event_of(read.1, self.part, self.stopped);
        match event {
            PrinterEvent::Stops => self.stopped = true,
            PrinterEvent::Runs => self.stopped = false,
            _ => {}
        }
        Ok(event)
    }

    /// The name of the job at the printer. The only error is out of memory.
    fn name(&self) -> Result<String, AllocError> {
        let job = self.job;
        format!(in self.alloc; "printd-{job}")
    }

    /// Sends some bytes of the part.
    fn send<S: Stream>(
        &mut self,
        session: &mut PrinterLink<S>,
        adapter: &mut AdapterState,
        now: u64,
    ) -> Result<IoOutcome, AllocError> {
        if self.output.is_empty() {
            match self.part {
                PjlStage::Head => self.part = PjlStage::Data,
                PjlStage::Foot => self.part = PjlStage::Nothing,
                PjlStage::Data | PjlStage::Nothing => {}
            }
        }
        if self.part == PjlStage::Data {
            if !adapter.is_copy_sent() {
                return Ok(session.send_due(adapter, now));
            }
            adapter.end_copy();
            self.output = self.foot()?;
            self.part = PjlStage::Foot;
        }
        Ok(session.write_prefix(&mut self.output, now))
    }

    /// The bytes before a job: the request for reports, and the options of the job. The only error is out of
    /// memory.
    fn head(&self) -> Result<Vec<u8>, AllocError> {
        let job = self.job;
        let copies = self.copies;
        let sides = match self.sides {
            Sides::One => "DUPLEX=OFF",
            Sides::LongEdge => "DUPLEX=ON\r\n@PJL SET BINDING=LONGEDGE",
            Sides::ShortEdge => "DUPLEX=ON\r\n@PJL SET BINDING=SHORTEDGE",
        };
        let text = format!(in self.alloc;
            "\x1b%-12345X@PJL JOB NAME=\"printd-{job}\"\r\n@PJL USTATUSOFF\r\n@PJL USTATUS JOB=ON\r\n@PJL USTATUS PAGE=ON\r\n@PJL USTATUS DEVICE=ON\r\n@PJL INFO STATUS\r\n@PJL SET COPIES={copies}\r\n@PJL SET {sides}\r\n"
        )?;
        Vec::from_slice(self.alloc, text.as_bytes())
    }

    /// The bytes after a job. The only error is out of memory.
    fn foot(&self) -> Result<Vec<u8>, AllocError> {
        let job = self.job;
        let text = format!(in self.alloc;
            "\x1b%-12345X@PJL EOJ NAME=\"printd-{job}\"\r\n\x1b%-12345X"
        )?;
        Vec::from_slice(self.alloc, text.as_bytes())
    }
}

impl Protocol for Pjl {
    fn begin(&mut self, order: &JobOrder) {
        self.job = order.job.number();
        self.copies = order.copies;
        self.sides = order.sides;
    }

    /// Takes a printer without a connection as running, unless it is in doubt.
    fn wait<S: Stream>(
        &mut self,
        session: &PrinterLink<S>,
        event: PrinterEvent,
        _now: u64,
    ) -> PrinterEvent {
        let stopped = std::mem::replace(&mut self.stopped, false);
        match event {
            PrinterEvent::Nothing if stopped && !session.is_doubted() => PrinterEvent::Runs,
            event => event,
        }
    }

    /// Begins to write the head.
    fn open(
        &mut self,
        _adapter: &AdapterState,
        event: PrinterEvent,
    ) -> Result<PrinterEvent, AllocError> {
        self.reader = PjlReader::new(self.alloc);
        self.input.clear();
        self.output = self.head()?;
        self.part = PjlStage::Head;
        Ok(event)
    }

    fn exchange<S: Stream>(
        &mut self,
        session: &mut PrinterLink<S>,
        adapter: &mut AdapterState,
        now: u64,
    ) -> Result<PrinterEvent, AllocError> {
        match self.read_report(session, now)? {
            PrinterEvent::Nothing => {}
            event => return Ok(event),
        }
        for _ in 0..CALLS {
            match self.send(session, adapter, now)? {
                IoOutcome::Bytes(_) => {}
                IoOutcome::Nothing => break,
                IoOutcome::End | IoOutcome::Broken => return Ok(PrinterEvent::Failed(
                    Breach::Broken,
                )),
            }
        }
        if self.stopped {
            session.rest(now);
        }
        Ok(session.wait(now))
    }

    fn drop_job(&mut self) {
        self.part = PjlStage::Nothing;
        self.output.clear();
        self.input.clear();
    }

    /// Returns whether there are bytes that were read and aren't used yet.
    fn goes_on(&self) -> bool {
        !self.input.is_empty()
    }
}

/// Reads bytes up to the first status of the printer or of the job of a name. Returns how many were read, and
/// the status; `Other` if there is none.
fn read_prefix(
    reader: &mut PjlReader,
    input: &[u8],
    name: &[u8],
) -> Result<(usize, PjlStatus), AllocError>
    ensures { IfOk result (λ read. read.0 ≤ length input.now) }
{
    for (place, byte) in input.iter().enumerate() {
        let is_of_another = *byte == FORM_FEED && names_another(reader.message(), name);
        if let Some(status) = reader.take(*byte)? {
            if status != PjlStatus::Other && !(status == PjlStatus::JobEnded && is_of_another) {
                return Ok((place + 1, status));
            }
        }
    }
    Ok((input.len(), PjlStatus::Other))
}

/// Returns whether a message has the name of another job, in a line such as `NAME="printd-7"`.
fn names_another(message: &[u8], name: &[u8]) -> bool {
    let mut rest = message;
    for _ in 0..LINES {
        let Some((line, more)) = cut_at(rest, b'\n') else {
            return is_another(rest, name);
        };
        if is_another(line, name) {
            return true;
        }
        rest = more;
    }
    false
}

/// Returns whether a line has a name, and another one.
fn is_another(line: &[u8], name: &[u8]) -> bool {
    let line = line.strip_suffix(b"\r").unwrap_or(line);
    match line.strip_prefix(b"NAME=") {
        Some(value) => unquoted(value) != name,
        None => false,
    }
}

/// A value without its quotes.
fn unquoted(value: &[u8]) -> &[u8] {
    let value = value.strip_prefix(b"\"").unwrap_or(value);
    value.strip_suffix(b"\"").unwrap_or(value)
}

/// The report of a status, where this part of the job is sent, and the printer was stopped or not.
fn event_of(status: PjlStatus, part: PjlStage, stopped: bool) -> PrinterEvent {
    match status {
        PjlStatus::Page(page) => PrinterEvent::Pages(page),
        PjlStatus::JobEnded if part == PjlStage::Nothing => PrinterEvent::Printed(None),
        PjlStatus::JobEnded => PrinterEvent::Failed(Breach::Broken),
        PjlStatus::Device(code) => match (code >= NEEDS_SOMEONE, stopped) {
            (true, false) => PrinterEvent::Stops,
            (false, true) => PrinterEvent::Runs,
            _ => PrinterEvent::Nothing,
        },
        PjlStatus::Other => PrinterEvent::Nothing,
    }
}
