//! The reader of a device's stream.
ghost use Rattle.std.specs.Prelude.{◌≡◌, ◌<◌, ◌+◌, ◌++◌, [], List, ℕ, None, Some, Err, true, IsOk, IsSome, IfOk, IfSome, OnOk, OnErr, option_map, take, drop, length as length_of};
ghost use Rattle.base_types.specs.Report.{ReportRecord, report_of};
ghost use Rattle.device_link.specs.Line.{report_in};
ghost use Rattle.device_link.specs.Stream.{HasRead, Answers, work};
ghost use Rattle.text.specs.FirstLine.{first_line_of};
ghost use Rattle.text.specs.declared.line.FirstLine.TheVariants.{Whole};

use crate::fault::{LinkError, LinkFault};
use crate::line::read_line;
use base_types::{Limits, Report};
use std::alloc::{AllocError, Global};
use std::marker::Model;
use text::{FirstLine, Unread, first_line};

/// A reader of a device's stream, which is fed in segments of any length. In clauses it is a record of the
/// bytes that aren't read, whether the device has given its name, and its fault.
#[derive(Drop)]
pub struct LinkReader {
    alloc: Global,
    unread: Unread,
    greeted: bool,
    fault: Option<LinkFault>,
}

impl Model for LinkReader {
    ghost use Rattle.device_link.specs.Stream.{LinkState};

    ghost Value = { LinkState };

    ghost view = { λ r. record { rest = r.unread; greeted = r.greeted; fault = r.fault } };
}

impl LinkReader {
    /// Creates the reader of a new connection.
    pub fn new(alloc: Global) -> LinkReader
        ensures { HasRead [] [] result }
    {
        LinkReader {
            alloc,
            unread: Unread::new(alloc),
            greeted: false,
            fault: None,
        }
    }

    /// Feeds the next bytes of the connection. After a fault they are dropped.
    ///
    /// The only error is out of memory, and none of the bytes is taken then.
    pub fn feed(&mut self, segment: &[u8]) -> Result<(), AllocError>
        ensures fed { OnOk result ((stream : List ℕ) (given : List ReportRecord) → HasRead stream given self.old → HasRead (stream ++ segment.now) given self.new) }
        ensures err { OnErr result (self.new ≡ self.old) }
        ensures over { IsSome self.old.fault → IsOk result × (self.new ≡ self.old) }
    {
        if self.fault().is_some() {
            return Ok(());
        }
        self.append(segment)
    }

    /// Returns the next report, if its line is whole.
    ///
    /// After a fault it returns that fault at each call. If memory for the names of a report is refused, the
    /// report stays to be read.
    #[tactic(auto, using(crate::proofs::Streams::answers_again, crate::proofs::Streams::answers_nothing, crate::proofs::Streams::answers_too_long))]
    pub fn next_report(&mut self) -> Result<Option<Report>, LinkError>
        ensures answer { Answers self.old result self.new }
        ensures falls { IfOk result (λ report. IsSome report → work self.new < work self.old) }
        ensures kept { IfSome self.old.fault (λ fault. result ≡ Err (LinkError.Fault fault)) }
    {
        if let Some(fault) = self.fault() {
            return Err(LinkError::Fault(fault));
        }
        match first_line(self.rest(), Limits::DEVICE_LINE_BYTES) {
            FirstLine::Unfinished => Ok(None),
            FirstLine::TooLong => Err(self.fail(LinkFault::LineTooLong)),
            FirstLine::Whole(length) => self.take_line(length),
        }
    }

    /// Reads the line of `length` bytes at the beginning.
    #[tactic(auto, using(crate::proofs::Streams::answers_bad_line, crate::proofs::Streams::answers_report))]
    fn take_line(&mut self, length: usize) -> Result<Option<Report>, LinkError>
        requires line { first_line_of Limits.DEVICE_LINE_BYTES self.old.rest ≡ Whole length }
        requires faultless { self.old.fault ≡ None }
        ensures answer { Answers self.old result self.new }
        ensures falls { IfOk result (λ report. IsSome report → work self.new < work self.old) }
    {
        match self.read_prefix(length)? {
            None => Err(self.fail(LinkFault::BadLine)),
            Some(report) => {
                self.pass_line(length);
                Ok(Some(report))
            }
        }
    }

    /// The bytes that aren't read.
    fn rest(&self) -> &[u8]
        ensures { result.now ≡ self.now.rest }
    {
        self.unread.bytes()
    }

    /// The fault, if there was one.
    fn fault(&self) -> Option<LinkFault>
        ensures { result ≡ self.now.fault }
    {
        self.fault
    }

    /// The report of the line of `length` bytes at the beginning.
    fn read_prefix(&self, length: usize) -> Result<Option<Report>, AllocError>
        requires { length < length_of self.now.rest }
        ensures { IfOk result (λ report. option_map report_of report ≡ report_in self.now.greeted (take length self.now.rest)) }
    {
        read_line(self.alloc, self.greeted, &self.rest()[..length])
    }

    /// Passes over the line of `length` bytes at the beginning.
    fn pass_line(&mut self, length: usize)
        requires { length < length_of self.old.rest }
        ensures { self.new ≡ record { rest = drop (length + 1) self.old.rest; greeted = true; fault = self.old.fault } }
    {
        self.unread.pass_line(length);
        self.greeted = true;
    }

    /// Records a fault.
    fn fail(&mut self, fault: LinkFault) -> LinkError
        ensures kept { self.new ≡ record self.old { fault = Some fault } }
        ensures answer { result ≡ LinkError.Fault fault }
    {
        self.fault = Some(fault);
        LinkError::Fault(fault)
    }

    /// Appends bytes to those that aren't read. The only error is out of memory, and leaves the reader as it
    /// was.
    fn append(&mut self, segment: &[u8]) -> Result<(), AllocError>
        ensures ok { OnOk result (self.new ≡ record self.old { rest = self.old.rest ++ segment.now }) }
        ensures err { OnErr result (self.new ≡ self.old) }
    {
        self.unread.append(segment)
    }
}
