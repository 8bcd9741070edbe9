//! LPD (RFC 1179): a job is a control file and a data file, and the printer acknowledges each part.
use crate::printer_event::{Breach, PrinterEvent};
use crate::printer_link::{CALLS, IoOutcome, PrinterLink};
use crate::protocol::Protocol;
use crate::stream::Stream;
use adapter_core::{AdapterState, JobOrder};
use std::alloc::{AllocError, Global};

/// The host in the names of files.
const HOST: &str = "printd";

/// The part that is sent now. Each part is sent once the part before it is acknowledged.
#[derive(Clone, Copy)]
enum LpdStage {
    /// The command to receive a job for the queue.
    Queue,
    /// The subcommand for a control file, and the file.
    ControlHead,
    Control,
    /// The subcommand for a data file, and the file.
    DataHead,
    Data,
    /// The end of the data file.
    End,
}

/// The client's side of LPD.
#[derive(Drop)]
pub struct Lpd {
    alloc: Global,
    queue: String,
    /// The device that the jobs come from.
    name: String,
    job: u32,
    octets: u32,
    copies: u32,
    part: LpdStage,
    /// The bytes of the part that are still to be written; the data isn't among them.
    output: Vec<u8>,
}

impl Lpd {
    /// Creates the protocol for a queue of the printer. `name` is that of the device.
    pub fn new(alloc: Global, queue: String, name: String) -> Lpd {
        Lpd {
            alloc,
            queue,
            name,
            job: 0,
            octets: 0,
            copies: 1,
            part: LpdStage::Queue,
            output: Vec::new(alloc),
        }
    }

    /// Takes the next octet of the printer, which acknowledges a written part, or refuses it.
    fn read_acknowledgement<S: Stream>(
        &mut self,
        session: &mut PrinterLink<S>,
        now: u64,
    ) -> Result<PrinterEvent, AllocError> {
        let mut buffer = [0u8; 1];
        match session.read(&mut buffer) {
            IoOutcome::Nothing => Ok(PrinterEvent::Nothing),
            IoOutcome::End | IoOutcome::Broken => Ok(PrinterEvent::Failed(Breach::Broken)),
            IoOutcome::Bytes(_) if buffer[0] != 0 => Ok(PrinterEvent::Failed(Breach::Refused)),
            IoOutcome::Bytes(_) => {
                session.rest(now);
                self.acknowledged()
            }
        }
    }

    /// Goes on after a part is acknowledged.
    fn acknowledged(&mut self) -> Result<PrinterEvent, AllocError> {
        if !self.output.is_empty() {
            return Ok(PrinterEvent::Failed(Breach::Refused));
        }
        let next = match self.part {
            LpdStage::Queue => LpdStage::ControlHead,
            LpdStage::ControlHead => LpdStage::Control,
            LpdStage::Control => LpdStage::DataHead,
            LpdStage::DataHead => LpdStage::Data,
            LpdStage::Data => return Ok(PrinterEvent::Failed(Breach::Refused)),
            LpdStage::End => return Ok(PrinterEvent::Printed(None)),
        };
        self.go_on(next)?;
        Ok(PrinterEvent::Nothing)
    }

    /// Begins to write the next part. The only error is out of memory.
    fn go_on(&mut self, part: LpdStage) -> Result<(), AllocError> {
        self.output = self.bytes_of(part)?;
        self.part = part;
        Ok(())
    }

    /// The bytes of a part, if it isn't the data. The only error is out of memory.
    fn bytes_of(&self, part: LpdStage) -> Result<Vec<u8>, AllocError> {
        let text = self.text_of(part)?;
        Vec::from_slice(self.alloc, text.as_bytes())
    }

    /// The text of a part, if it isn't the data.
    fn text_of(&self, part: LpdStage) -> Result<String, AllocError> {
        let queue = self.queue.as_str();
        match part {
            LpdStage::Queue => format!(in self.alloc; "\x02{queue}\n"),
            LpdStage::ControlHead => self.control_head(),
            LpdStage::Control => self.ended_control(),
            LpdStage::DataHead => self.data_head(),
            LpdStage::Data => Ok(String::new(self.alloc)),
            LpdStage::End => format!(in self.alloc; "\0"),
        }
    }

    /// The subcommand for the control file.
    fn control_head(&self) -> Result<String, AllocError> {
        let length = self.control()?.len();
        let number = self.job % 1000;
        format!(in self.alloc; "\x02{length} cfA{number:03}{HOST}\n")
    }

    /// The subcommand for the data file.
    fn data_head(&self) -> Result<String, AllocError> {
        let octets = self.octets;
        let number = self.job % 1000;
        format!(in self.alloc; "\x03{octets} dfA{number:03}{HOST}\n")
    }

    /// The control file, and its end.
    fn ended_control(&self) -> Result<String, AllocError> {
        let control = self.control()?;
        format!(in self.alloc; "{control}\0")
    }

    /// The control file: the name of the job's owner, in at most 31 octets (RFC 1179, section 7.8), and a
    /// line for each copy of the data file, which is printed without a change.
    fn control(&self) -> Result<String, AllocError> {
        let name = self.name.as_str();
        let job = self.job;
        let number = job % 1000;
        let lines = self.copy_lines()?;
        format!(in self.alloc;
            "H{HOST}\nP{HOST}\nJ{name}-{job}\n{lines}UdfA{number:03}{HOST}\nN{name}-{job}\n"
        )
    }

    /// A line for each copy of the data file.
    fn copy_lines(&self) -> Result<String, AllocError> {
        let number = self.job % 1000;
        let line = format!(in self.alloc; "ldfA{number:03}{HOST}\n")?;
        line.repeat(self.alloc, self.copies as usize)
    }

    /// Sends some bytes of the part; after the data their end.
    fn send<S: Stream>(
        &mut self,
        session: &mut PrinterLink<S>,
        adapter: &mut AdapterState,
        now: u64,
    ) -> Result<IoOutcome, AllocError> {
        if self.part == LpdStage::Data {
            if !adapter.is_copy_sent() {
                return Ok(session.send_due(adapter, now));
            }
            adapter.end_copy();
            self.go_on(LpdStage::End)?;
        }
        Ok(session.write_prefix(&mut self.output, now))
    }
}

impl Protocol for Lpd {
    fn begin(&mut self, order: &JobOrder) {
        self.job = order.job.number();
        self.octets = order.octets;
        self.copies = order.copies;
    }

    /// Begins to write the first part.
    fn open(
        &mut self,
        _adapter: &AdapterState,
        event: PrinterEvent,
    ) -> Result<PrinterEvent, AllocError> {
        self.go_on(LpdStage::Queue)?;
        Ok(event)
    }

    /// Takes the printer's acknowledgements, and sends the bytes that are due.
    fn exchange<S: Stream>(
        &mut self,
        session: &mut PrinterLink<S>,
        adapter: &mut AdapterState,
        now: u64,
    ) -> Result<PrinterEvent, AllocError> {
        for _ in 0..CALLS {
            match self.read_acknowledgement(session, now)? {
                PrinterEvent::Nothing => {}
                event => return Ok(event),
            }
            match self.send(session, adapter, now)? {
                IoOutcome::Bytes(_) => {}
                IoOutcome::Broken | IoOutcome::End => return Ok(PrinterEvent::Failed(
                    Breach::Broken,
                )),
                IoOutcome::Nothing => return Ok(session.wait(now)),
            }
        }
        Ok(PrinterEvent::Nothing)
    }

    fn drop_job(&mut self) {
        self.output.clear();
    }
}
