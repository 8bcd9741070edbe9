//! The reader of a printer's PJL stream.
ghost use Rattle.std.specs.Prelude.{◌≡◌, OnOk, OnErr, IfOk};
ghost use Rattle.adapter_core.specs.PjlStream.{place_after, status_at, start};

use crate::pjl_message::read_pjl_message;
use crate::pjl_status::PjlStatus;
use std::alloc::{AllocError, Global};
use std::marker::Model;

/// The most bytes of a message that are kept. A longer message is skipped.
const MOST: usize = 4096;

/// The byte that ends a message.
const FORM_FEED: u8 = 12;

/// A reader of a printer's PJL stream, byte by byte. In clauses it is the place in the stream: the message so
/// far, or that the message is too long.
#[derive(Drop)]
pub struct PjlReader {
    message: Vec<u8>,
    skips: bool,
}

impl Model for PjlReader {
    ghost use Rattle.adapter_core.specs.PjlStream.{PjlPlace};

    ghost Value = { PjlPlace };

    ghost view = { λ r. record { message = r.message.items; skips = r.skips } };
}

impl PjlReader {
    /// Creates the reader of a new connection.
    pub fn new(alloc: Global) -> PjlReader
        ensures { result ≡ start }
    {
        PjlReader {
            message: Vec::new(alloc),
            skips: false,
        }
    }

    /// Takes the next byte, and returns the status that ends with it. The only error is out of memory, and
    /// the byte isn't taken then.
    pub fn take(&mut self, byte: u8) -> Result<Option<PjlStatus>, AllocError>
        ensures status { IfOk result (λ status. status ≡ status_at self.old byte) }
        ensures place { OnOk result (self.new ≡ place_after self.old byte) }
        ensures err { OnErr result (self.new ≡ self.old) }
    {
        if byte == FORM_FEED {
            return Ok(self.end_message());
        }
        if self.skips || self.message.len() >= MOST {
            self.skips = true;
            self.message.clear();
            return Ok(None);
        }
        self.message.push(byte)?;
        Ok(None)
    }

    /// The bytes of the message so far; none if it is too long.
    pub fn message(&self) -> &[u8]
        ensures { result.now ≡ self.now.message }
    {
        &self.message
    }

    /// Ends a message, and returns its status.
    fn end_message(&mut self) -> Option<PjlStatus>
        ensures status { result ≡ status_at self.old 12 }
        ensures place { self.new ≡ start }
    {
        let status = if self.skips {
            None
        } else {
            Some(read_pjl_message(&self.message))
        };
        self.skips = false;
        self.message.clear();
        status
    }
}
