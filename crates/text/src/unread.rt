//! The bytes that a reader was given and hasn't read.
ghost use Rattle.std.specs.Prelude.{◌≡◌, ◌<◌, ◌≤◌, ◌+◌, ◌++◌, [], IfOk, OnOk, OnErr, take, drop, length};

use crate::bytes::drop_prefix;
use std::alloc::{AllocError, Global};
use std::marker::Model;
use std::mem;

/// The bytes that a reader was given, in segments of any length, and hasn't read yet. In clauses they are their
/// list.
#[derive(Drop)]
pub struct Unread {
    buffer: Vec<u8>,
    /// The number of bytes at the beginning of the buffer that are read.
    start: usize,
}

impl Model for Unread {
    ghost use Rattle.std.specs.Prelude.{ℕ, List, ◌≤◌, drop, length};

    ghost Value = { List ℕ };

    ghost view = { λ u. drop u.start u.buffer.items };

    ghost invariant = { λ u. u.start ≤ length u.buffer.items };
}

impl Unread {
    /// Creates an empty list.
    pub fn new(alloc: Global) -> Unread
        ensures { result ≡ [] }
    {
        Unread {
            buffer: Vec::new(alloc),
            start: 0,
        }
    }

    /// The bytes, in order.
    pub fn bytes(&self) -> &[u8]
        ensures { result.now ≡ self.now }
    {
        &self.buffer[self.start..]
    }

    /// Appends bytes. The only error is out of memory, and nothing is appended then.
    #[tactic(auto, using(crate::proofs::Rests::rest_with))]
    pub fn append(&mut self, segment: &[u8]) -> Result<(), AllocError>
        ensures ok { OnOk result (self.new ≡ self.old ++ segment.now) }
        ensures err { OnErr result (self.new ≡ self.old) }
    {
        self.forget_read();
        self.buffer.extend_from_slice(segment)
    }

    /// Passes over `count` bytes.
    pub fn pass(&mut self, count: usize)
        requires { count ≤ length self.old }
        ensures { self.new ≡ drop count self.old }
    {
        self.start = self.start + count;
    }

    /// Passes over a line of `count` bytes and its line feed.
    pub fn pass_line(&mut self, count: usize)
        requires { count < length self.old }
        ensures { self.new ≡ drop (count + 1) self.old }
    {
        self.start = self.start + count + 1;
    }

    /// Removes and returns the first `count` bytes, without a copy of them. The only error is out of memory,
    /// for the rest of the bytes; nothing is removed then.
    pub fn take_prefix(&mut self, count: usize) -> Result<Vec<u8>, AllocError>
        requires { count ≤ length self.old }
        ensures taken { IfOk result (λ prefix. prefix.items ≡ take count self.old) }
        ensures ok { OnOk result (self.new ≡ drop count self.old) }
        ensures err { OnErr result (self.new ≡ self.old) }
    {
        drop_prefix(&mut self.buffer, self.start);
        self.start = 0;
        split_prefix(&mut self.buffer, count)
    }

    /// Removes the bytes that are read from the buffer.
    fn forget_read(&mut self)
        ensures { self.new ≡ self.old }
    {
        drop_prefix(&mut self.buffer, self.start);
        self.start = 0;
    }
}

/// Splits the first `count` bytes off.
fn split_prefix(buffer: &mut Vec<u8>, count: usize) -> Result<Vec<u8>, AllocError>
    requires { count ≤ length buffer.old.items }
    ensures prefix { IfOk result (λ prefix. prefix.items ≡ take count buffer.old.items) }
    ensures ok { OnOk result (buffer.new.items ≡ drop count buffer.old.items) }
    ensures err { OnErr result (buffer.new.items ≡ buffer.old.items) }
{
    let rest = buffer.split_off(count)?;
    Ok(mem::replace(buffer, rest))
}
