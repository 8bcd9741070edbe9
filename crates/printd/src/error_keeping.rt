//! Standard input and standard output that keep the errors at which they fail.
use base_types::Limits;
use std::io;
use std::io::{ErrorKind, Read, Write};

/// An input, with the error at which it failed.
#[derive(Drop)]
pub(crate) struct ErrorKeepingInput<R> {
    reader: R,
    /// The number of reads that the input may still take.
    left: u32,
    ended: bool,
    error: Option<io::Error>,
}

/// An output, with the error at which it failed.
#[derive(Drop)]
pub(crate) struct ErrorKeepingOutput<W> {
    writer: W,
    error: Option<io::Error>,
}

impl<R: Read + Drop> ErrorKeepingInput<R> {
    pub(crate) fn new(reader: R) -> ErrorKeepingInput<R> {
        ErrorKeepingInput {
            reader,
            left: Limits::INPUT_READS,
            ended: false,
            error: None,
        }
    }

    /// Returns whether the input took as many reads as an input may take, and had not ended by then.
    pub(crate) fn takes_too_many_reads(&self) -> bool {
        self.left == 0 && !self.ended
    }

    /// The error at which the input failed, if it failed.
    pub(crate) fn into_error(self) -> Option<io::Error> {
        self.error
    }
}

impl<W: Write + Drop> ErrorKeepingOutput<W> {
    pub(crate) fn new(writer: W) -> ErrorKeepingOutput<W> {
        ErrorKeepingOutput {
            writer,
            error: None,
        }
    }

    /// The error at which the output failed, if it failed.
    pub(crate) fn into_error(self) -> Option<io::Error> {
        self.error
    }
}

/// Keeps an error, and returns an error of the same kind.
fn keep(kept: &mut Option<io::Error>, error: io::Error) -> io::Error {
    let kind = error.kind();
    *kept = Some(error);
    io::Error::from(kind)
}

impl<R: Read> Read for ErrorKeepingInput<R> {
    fn read(&mut self, buffer: &mut [u8]) -> io::Result<usize> {
        self.left = self.left.saturating_sub(1);
        match self.reader.read(buffer) {
            Ok(count) => {
                self.ended = count == 0;
                Ok(count)
            }
            Err(error) => Err(keep(&mut self.error, error)),
        }
    }
}

impl<W: Write> Write for ErrorKeepingOutput<W> {
    fn write(&mut self, bytes: &[u8]) -> io::Result<usize> {
        match self.writer.write(bytes) {
            Ok(0) => Err(keep(&mut self.error, io::Error::from(ErrorKind::WriteZero))),
            Ok(count) => Ok(count),
            Err(error) => Err(keep(&mut self.error, error)),
        }
    }

    fn flush(&mut self) -> io::Result<()> {
        self.writer.flush()
    }
}
