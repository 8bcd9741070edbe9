//! The reader of an LPD client's stream.
ghost use Rattle.std.specs.Prelude.{◌≡◌, ◌<◌, ◌+◌, ◌++◌, [], List, ℕ, None, Some, Err, IsOk, IsSome, IfOk, IfSome, OnOk, OnErr, take, drop, length as length_of, true};
ghost use Rattle.text.specs.FirstLine.{first_line_of};
ghost use Rattle.text.specs.declared.line.FirstLine.TheVariants.{Whole};
ghost use Rattle.lpd.specs.Items.{ItemRecord, item_record, awaited_after, line_record};
ghost use Rattle.lpd.specs.Command.{meaning_of, awaits_line};
ghost use Rattle.lpd.specs.Stream.{HasRead, Answers, is_over, work};

use crate::command::{read_command, read_subcommand};
use crate::fault::{LpdError, LpdFault};
use crate::item::{LpdCommand, LpdItem};
use base_types::Limits;
use std::alloc::{AllocError, Global};
use std::marker::Model;
use text::{FirstLine, Unread, first_line};

/// What a reader reads next.
#[derive(Clone, Copy)]
enum Awaited {
    Command,
    Subcommand,
    /// A file of this many bytes, and the zero byte after it.
    File(u32),
    /// No more input: the bytes that are fed are dropped.
    Nothing,
}

/// A reader of an LPD client's stream, which is fed in segments of any length. In clauses it is a record of the
/// file that it lends, the bytes that aren't read, the part that it awaits, and its fault.
///
/// After a fault, and after a command other than that to receive a job, the reader gives no more items, and
/// drops the bytes that it is fed.
#[derive(Drop)]
pub struct LpdReader {
    alloc: Global,
    unread: Unread,
    /// The number of bytes at the beginning of `unread` that are read: those of the file that is lent, and the
    /// zero byte after it.
    read: usize,
    /// The number of those bytes that are lent as a file.
    lent: usize,
    awaited: Awaited,
    fault: Option<LpdFault>,
}

impl Model for LpdReader {
    ghost use Rattle.std.specs.Prelude.{◌≤◌, take, drop, length};
    ghost use Rattle.lpd.specs.Stream.{LpdState};

    ghost Value = { LpdState };

    ghost view = { λ r. record { file = take r.lent r.unread; rest = drop r.read r.unread; awaited = r.awaited; fault = r.fault } };

    ghost invariant = { λ r. (r.lent ≤ r.read) × (r.read ≤ length r.unread) };
}

impl LpdReader {
    /// Creates the reader of a new connection.
    pub fn new(alloc: Global) -> LpdReader
        ensures { HasRead [] [] result }
    {
        LpdReader {
            alloc,
            unread: Unread::new(alloc),
            read: 0,
            lent: 0,
            awaited: Awaited::Command,
            fault: None,
        }
    }

    /// Feeds the next bytes of the connection. The file that was lent is given back.
    ///
    /// The only error is out of memory: then none of the bytes is taken, and the file stays lent.
    pub fn feed(&mut self, segment: &[u8]) -> Result<(), AllocError>
        ensures fed { OnOk result ((stream : List ℕ) (given : List ItemRecord) → HasRead stream given self.old → HasRead (stream ++ segment.now) given self.new) }
        ensures err { OnErr result (self.new ≡ self.old) }
        ensures over { is_over self.old ≡ true → IsOk result × (self.new ≡ self.old) }
    {
        if self.is_over() {
            return Ok(());
        }
        self.append(segment)
    }

    /// Returns the next item, if it is whole. For a file, [`LpdReader::file`] has the bytes.
    ///
    /// After a fault it returns that fault at each call. If memory for the content of a line is refused, the
    /// line stays to be read.
    #[tactic(auto, using(crate::proofs::ReaderPlace::answers_again))]
    pub fn next_item(&mut self) -> Result<Option<LpdItem>, LpdError>
        ensures answer { Answers self.old result self.new }
        ensures falls { IfOk result (λ parsed. IsSome parsed → work self.new < work self.old) }
        ensures kept { IfSome self.old.fault (λ fault. result ≡ Err (LpdError.Fault fault)) }
    {
        if let Some(fault) = self.fault() {
            return Err(LpdError::Fault(fault));
        }
        match self.awaited() {
            Awaited::File(length) => self.next_file(length),
            Awaited::Command | Awaited::Subcommand => self.next_line(),
            Awaited::Nothing => Ok(None),
        }
    }

    /// The bytes of the file that the last item was.
    pub fn file(&self) -> &[u8]
        ensures { result.now ≡ self.now.file }
    {
        &self.unread.bytes()[..self.lent]
    }

    /// Returns the next command or subcommand, if its line is whole.
    fn next_line(&mut self) -> Result<Option<LpdItem>, LpdError>
        requires line { awaits_line self.old.awaited ≡ true }
        requires faultless { self.old.fault ≡ None }
        ensures answer { Answers self.old result self.new }
        ensures falls { IfOk result (λ parsed. IsSome parsed → work self.new < work self.old) }
    {
        match first_line(self.rest(), Limits::LPD_LINE_BYTES) {
            FirstLine::Unfinished => Ok(None),
            FirstLine::TooLong => Err(self.fail(LpdFault::LineTooLong)),
            FirstLine::Whole(length) => self.take_line(length),
        }
    }

    /// Reads the line of `length` bytes at the beginning.
    fn take_line(&mut self, length: usize) -> Result<Option<LpdItem>, LpdError>
        requires whole { first_line_of Limits.LPD_LINE_BYTES self.old.rest ≡ Whole length }
        requires line { awaits_line self.old.awaited ≡ true }
        requires faultless { self.old.fault ≡ None }
        ensures answer { Answers self.old result self.new }
        ensures falls { IfOk result (λ parsed. IsSome parsed → work self.new < work self.old) }
    {
        match self.read_prefix(length)? {
            Err(fault) => Err(self.fail(fault)),
            Ok(item) => {
                self.pass_line(length, after(&item));
                Ok(Some(item))
            }
        }
    }

    /// Returns the file of `length` bytes at the beginning, once the file and its zero byte are whole.
    fn next_file(&mut self, length: u32) -> Result<Option<LpdItem>, LpdError>
        requires file { self.old.awaited ≡ Awaited.File length }
        requires faultless { self.old.fault ≡ None }
        ensures answer { Answers self.old result self.new }
        ensures falls { IfOk result (λ parsed. IsSome parsed → work self.new < work self.old) }
    {
        let length = length as usize;
        let rest = self.rest();
        if rest.len() <= length {
            return Ok(None);
        }
        if rest[length] != 0 {
            return Err(self.fail(LpdFault::MissingZero));
        }
        self.lend(length);
        Ok(Some(LpdItem::File))
    }

    /// The bytes that aren't read.
    fn rest(&self) -> &[u8]
        ensures { result.now ≡ self.now.rest }
    {
        &self.unread.bytes()[self.read..]
    }

    /// The fault, if there was one.
    fn fault(&self) -> Option<LpdFault>
        ensures { result ≡ self.now.fault }
    {
        self.fault
    }

    /// What the reader awaits.
    fn awaited(&self) -> Awaited
        ensures { result ≡ self.now.awaited }
    {
        self.awaited
    }

    /// Returns whether the reader gives no more items.
    fn is_over(&self) -> bool
        ensures { result ≡ is_over self.now }
    {
        self.fault.is_some() || matches!(self.awaited, Awaited::Nothing)
    }

    /// The content of the line of `length` bytes at the beginning.
    fn read_prefix(&self, length: usize) -> Result<Result<LpdItem, LpdFault>, AllocError>
        requires { length < length_of self.now.rest }
        ensures { IfOk result (λ parsed. line_record parsed ≡ meaning_of self.now.awaited (take length self.now.rest)) }
    {
        let line = &self.rest()[..length];
        match self.awaited() {
            Awaited::Command => read_command(self.alloc, line),
            Awaited::Subcommand | Awaited::File(_) | Awaited::Nothing => {
                read_subcommand(self.alloc, line)
            }
        }
    }

    /// Passes over the line of `length` bytes at the beginning.
    fn pass_line(&mut self, length: usize, awaited: Awaited)
        requires { length < length_of self.old.rest }
        ensures { self.new ≡ record { file = []; rest = drop (length + 1) self.old.rest; awaited = awaited; fault = self.old.fault } }
    {
        self.unread.pass(self.read);
        self.unread.pass_line(length);
        self.read = 0;
        self.lent = 0;
        self.awaited = awaited;
    }

    /// Passes over the file of `length` bytes at the beginning and its zero byte, and lends the file.
    fn lend(&mut self, length: usize)
        requires { length < length_of self.old.rest }
        ensures { self.new ≡ record { file = take length self.old.rest; rest = drop (length + 1) self.old.rest; awaited = Awaited.Subcommand; fault = self.old.fault } }
    {
        self.unread.pass(self.read);
        let file_and_zero = &self.unread.bytes()[..length + 1];
        self.read = file_and_zero.len();
        self.lent = length;
        self.awaited = Awaited::Subcommand;
    }

    /// Records a fault.
    fn fail(&mut self, fault: LpdFault) -> LpdError
        ensures kept { self.new ≡ record self.old { fault = Some fault } }
        ensures answer { result ≡ LpdError.Fault fault }
    {
        self.fault = Some(fault);
        LpdError::Fault(fault)
    }

    /// Appends bytes to those that aren't read. The only error is out of memory, and leaves the reader as it
    /// was.
    fn append(&mut self, segment: &[u8]) -> Result<(), AllocError>
        ensures ok { OnOk result (self.new ≡ record self.old { file = []; rest = self.old.rest ++ segment.now }) }
        ensures err { OnErr result (self.new ≡ self.old) }
    {
        self.unread.append(segment)?;
        self.unread.pass(self.read);
        self.read = 0;
        self.lent = 0;
        Ok(())
    }
}

/// What the reader awaits after an item.
fn after(item: &LpdItem) -> Awaited
    ensures { result ≡ awaited_after (item_record item.now []) }
{
    match item {
        LpdItem::Command(LpdCommand::ReceiveJob { .. }) => Awaited::Subcommand,
        LpdItem::Command(_) => Awaited::Nothing,
        LpdItem::Abort | LpdItem::File => Awaited::Subcommand,
        LpdItem::Announced(head) => Awaited::File(head.length),
    }
}
