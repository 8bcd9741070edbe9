//! The bytes of a read, without the octets of documents.
ghost use Rattle.std.specs.Prelude.{◌≡◌, ◌+◌, OnOk, length};

use std::alloc::{AllocError, Global};
use std::marker::Model;

/// Bytes that were read, and octets of documents after them that are left out; zeros take their place. In
/// clauses it is the number of bytes that were read.
#[derive(Drop)]
pub(crate) struct RedactedRead {
    /// The bytes, with zeros for the octets that are left out between them.
    bytes: Vec<u8>,
    /// The number of octets after the bytes that are left out.
    zeros: usize,
}

impl Model for RedactedRead {
    ghost use Rattle.std.specs.Prelude.{ℕ, ◌+◌, length};

    ghost Value = { ℕ };

    ghost view = { λ b. length b.bytes.items + b.zeros };
}

impl RedactedRead {
    /// Creates the record of a read of no bytes.
    pub(crate) fn new(alloc: Global) -> RedactedRead
        ensures { result ≡ 0 }
    {
        RedactedRead {
            bytes: Vec::new(alloc),
            zeros: 0,
        }
    }

    /// The bytes before the last octets that are left out.
    pub(crate) fn bytes(&self) -> &[u8] {
        &self.bytes
    }

    /// The number of octets after the bytes that are left out.
    pub(crate) fn zeros(&self) -> usize {
        self.zeros
    }

    /// Removes all bytes.
    pub(crate) fn clear(&mut self)
        ensures { self.new ≡ 0 }
    {
        self.bytes.clear();
        self.zeros = 0;
    }

    /// Appends zeros for the last octets that are left out.
    fn fill(&mut self) -> Result<(), AllocError>
        ensures { OnOk result (self.new ≡ self.old) }
    {
        let length = self.bytes.len();
        let all = length.checked_add(self.zeros).ok_or(AllocError)?;
        self.bytes.resize(all, 0)?;
        self.zeros = 0;
        Ok(())
    }

    /// Appends bytes that were read and are kept. The only error is out of memory.
    pub(crate) fn keep(&mut self, bytes: &[u8]) -> Result<(), AllocError>
        ensures { OnOk result (self.new ≡ self.old + length bytes.now) }
    {
        if bytes.is_empty() {
            return Ok(());
        }
        self.fill()?;
        self.bytes.extend_from_slice(bytes)?;
        Ok(())
    }

    /// Appends `count` octets of documents that were read and are left out. The only error is out of memory.
    pub(crate) fn leave_out(&mut self, count: usize) -> Result<(), AllocError>
        ensures { OnOk result (self.new ≡ self.old + count) }
    {
        self.zeros = self.zeros.checked_add(count).ok_or(AllocError)?;
        Ok(())
    }
}
