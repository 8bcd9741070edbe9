//! The stream of an LPD client.
ghost use Rattle.std.specs.Prelude.{◌≡◌, ◌+◌, ◌≤◌, OnOk, IfOk, length};

use crate::redacted_read::RedactedRead;
use lpd::{FileKind, LpdError, LpdItem, LpdReader};
use std::alloc::{AllocError, Global};
use std::cmp::min;

/// A command that opens a session, in which subcommands follow.
const RECEIVE_JOB: &[u8] = b"\x02-\n";

/// The next part of the stream.
#[derive(Clone, Copy)]
enum Next {
    /// A command, a subcommand or a control file, which the reader reads.
    Read,
    /// This many bytes of a data file, and the zero byte after them.
    Data(usize),
    /// The zero byte after a data file.
    Zero,
    /// Nothing: a fault was found, and the server reads no more bytes.
    Over,
}

/// The stream of an LPD client, read as the server reads it. A data file is passed over, and a new reader
/// reads the bytes after it.
#[derive(Drop)]
pub(crate) struct LpdStream {
    alloc: Global,
    reader: LpdReader,
    next: Next,
}

/// Creates a reader of subcommands. The only error is out of memory.
fn subcommands(alloc: Global) -> Result<LpdReader, AllocError> {
    let mut reader = LpdReader::new(alloc);
    reader.feed(RECEIVE_JOB)?;
    match reader.next_item() {
        Err(LpdError::OutOfMemory) => Err(AllocError),
        Ok(_) | Err(LpdError::Fault(_)) => Ok(reader),
    }
}

impl LpdStream {
    /// Creates a stream of which nothing was read.
    pub(crate) fn new(alloc: Global) -> LpdStream {
        LpdStream {
            alloc,
            reader: LpdReader::new(alloc),
            next: Next::Read,
        }
    }

    /// The number of leading bytes that are octets of a data file; other bytes are read by lines.
    pub(crate) fn body_prefix(&self, bytes: &[u8]) -> usize
        ensures { result ≤ length bytes.now }
    {
        match self.next {
            Next::Data(left) => min(left, bytes.len()),
            Next::Read | Next::Zero | Next::Over => 0,
        }
    }

    /// Reads bytes up to a line feed, or of a data file, and leaves out the octets of data files. The only
    /// error is out of memory.
    pub(crate) fn redact(
        &mut self,
        bytes: &[u8],
        output: &mut RedactedRead,
    ) -> Result<(), AllocError>
        ensures { OnOk result (output.new ≡ output.old + length bytes.now) }
    {
        let count = self.pass_data(bytes, output)?;
        self.redact_line(&bytes[count..], output)
    }

    /// Leaves out the leading octets of a data file. Returns their number.
    fn pass_data(&mut self, bytes: &[u8], output: &mut RedactedRead) -> Result<usize, AllocError>
        ensures { IfOk result (λ count. count ≤ length bytes.now × (output.new ≡ output.old + count)) }
    {
        let count = self.body_prefix(bytes);
        if let Next::Data(left) = self.next {
            self.next = if count < left {
                Next::Data(left.saturating_sub(count))
            } else {
                Next::Zero
            };
        }
        output.leave_out(count)?;
        Ok(count)
    }

    /// Reads bytes that aren't of a data file.
    fn redact_line(&mut self, bytes: &[u8], output: &mut RedactedRead) -> Result<(), AllocError>
        ensures { OnOk result (output.new ≡ output.old + length bytes.now) }
    {
        if bytes.is_empty() {
            return Ok(());
        }
        match self.next {
            Next::Zero => self.end_data(bytes, output),
            Next::Over => output.leave_out(bytes.len()),
            Next::Read | Next::Data(_) => {
                output.keep(bytes)?;
                self.read(bytes)
            }
        }
    }

    /// Reads the zero byte after a data file, which is left out with the file, and the bytes after it.
    fn end_data(&mut self, bytes: &[u8], output: &mut RedactedRead) -> Result<(), AllocError>
        ensures { OnOk result (output.new ≡ output.old + length bytes.now) }
    {
        match bytes.split_first() {
            Some((first, later)) if *first == 0 => {
                self.next = Next::Read;
                output.leave_out(1)?;
                output.keep(later)?;
                self.read_some(later)
            }
            _ => {
                self.next = Next::Over;
                output.leave_out(bytes.len())
            }
        }
    }

    /// Reads bytes of commands, subcommands and control files, if there are any.
    fn read_some(&mut self, bytes: &[u8]) -> Result<(), AllocError> {
        if bytes.is_empty() {
            return Ok(());
        }
        self.read(bytes)
    }

    /// Reads bytes of commands, subcommands and control files.
    fn read(&mut self, bytes: &[u8]) -> Result<(), AllocError> {
        self.reader.feed(bytes)?;
        for _ in 0..u64::MAX {
            match self.reader.next_item() {
                Ok(None) => return Ok(()),
                Ok(Some(item)) => self.take(&item)?,
                Err(LpdError::OutOfMemory) => return Err(AllocError),
                Err(LpdError::Fault(_)) => {
                    self.next = Next::Over;
                    return Ok(());
                }
            }
        }
        Ok(())
    }

    /// Takes an item that was read.
    fn take(&mut self, item: &LpdItem) -> Result<(), AllocError> {
        if let LpdItem::Announced(head) = item {
            if head.kind == FileKind::Data {
                self.next = Next::Data(head.length as usize);
                self.reader = subcommands(self.alloc)?;
            }
        }
        Ok(())
    }
}
