//! The reader of the server's stream.
ghost use Rattle.std.specs.Prelude.{◌≡◌, ◌≤◌, ◌<◌, ◌+◌, ◌-◌, ◌++◌, [], List, ℕ, None, Some, Err, OnOk, OnErr, IsOk, IsSome, IfOk, IfSome, take, drop, length as length_of};
ghost use Rattle.text.specs.FirstLine.{first_line_of};
ghost use Rattle.text.specs.declared.line.FirstLine.TheVariants.{Whole};
ghost use Rattle.adapter_core.specs.OrderLine.{order_in};
ghost use Rattle.adapter_core.specs.OrderStream.{OrderElement, HasRead, Answers, work, octets_after};

use crate::order::{Order, OrderItem};
use crate::order_fault::{OrderError, OrderFault};
use crate::order_line::read_line;
use base_types::Limits;
use std::alloc::{AllocError, Global};
use std::marker::Model;
use text::{FirstLine, Unread, first_line};

/// A reader of the server's stream, which is fed in segments of any length. In clauses it is a record of the
/// octets of a job that it lends, the bytes that aren't read, how many octets of a job are among these and
/// those to come, and its fault.
#[derive(Drop)]
pub struct OrderReader {
    alloc: Global,
    unread: Unread,
    /// The number of unread bytes that are read already, and lent as a part.
    lent: usize,
    octets: u32,
    fault: Option<OrderFault>,
}

impl Model for OrderReader {
    ghost use Rattle.std.specs.Prelude.{◌≤◌, take, drop, length};
    ghost use Rattle.adapter_core.specs.OrderStream.{OrderReaderState};

    ghost Value = { OrderReaderState };

    ghost view = { λ r. record { part = take r.lent r.unread; rest = drop r.lent r.unread; octets = r.octets; fault = r.fault } };

    ghost invariant = { λ r. r.lent ≤ length r.unread };
}

/// Returns the number of octets that follow the line of an order.
fn octets_after(order: &Order) -> u32
    ensures { result ≡ octets_after order.now }
{
    match order {
        Order::Job(job) => job.octets,
        Order::Cancel(_) => 0,
    }
}

impl OrderReader {
    /// Creates the reader of a new connection.
    pub fn new(alloc: Global) -> OrderReader
        ensures { HasRead [] [] result }
    {
        OrderReader {
            alloc,
            unread: Unread::new(alloc),
            lent: 0,
            octets: 0,
            fault: None,
        }
    }

    /// Feeds the next bytes of the connection. The part that was lent is given back. After a fault they are
    /// dropped.
    ///
    /// The only error is out of memory: then none of the bytes is taken, and the part stays lent.
    pub fn feed(&mut self, segment: &[u8]) -> Result<(), AllocError>
        ensures fed { OnOk result ((stream : List ℕ) (given : List OrderElement) → HasRead stream given self.old → HasRead (stream ++ segment.now) given self.new) }
        ensures err { OnErr result (self.new ≡ self.old) }
        ensures over { IsSome self.old.fault → IsOk result × (self.new ≡ self.old) }
    {
        if self.fault().is_some() {
            return Ok(());
        }
        self.append(segment)
    }

    /// Returns the next order, if its line is whole, or the next octets of a job, which [`OrderReader::part`]
    /// has.
    ///
    /// After a fault it returns that fault at each call. If memory for the name of a medium is refused, the
    /// order stays to be read.
    pub fn next_item(&mut self) -> Result<Option<OrderItem>, OrderError>
        ensures answer { Answers self.old result self.new }
        ensures falls { IfOk result (λ item. IsSome item → work self.new < work self.old) }
        ensures kept { IfSome self.old.fault (λ fault. result ≡ Err (OrderError.Fault fault)) }
    {
        if let Some(fault) = self.fault() {
            return Err(OrderError::Fault(fault));
        }
        if self.octets() > 0 {
            return Ok(self.next_octets());
        }
        match first_line(self.rest(), Limits::DEVICE_LINE_BYTES) {
            FirstLine::Unfinished => Ok(None),
            FirstLine::TooLong => Err(self.fail(OrderFault::LineTooLong)),
            FirstLine::Whole(length) => self.take_line(length),
        }
    }

    /// The octets of a job that the last item was.
    pub fn part(&self) -> &[u8]
        ensures { result.now ≡ self.now.part }
    {
        &self.unread.bytes()[..self.lent]
    }

    /// Lends those octets of a job that are there.
    fn next_octets(&mut self) -> Option<OrderItem>
        requires faultless { self.old.fault ≡ None }
        requires within { 0 < self.old.octets }
        ensures answer { Answers self.old (Ok result) self.new }
        ensures falls { IsSome result → work self.new < work self.old }
    {
        let length = self.rest().len().min(self.octets() as usize);
        if length == 0 {
            return None;
        }
        self.lend(length);
        Some(OrderItem::Octets)
    }

    /// Reads the line of `length` bytes at the beginning.
    fn take_line(&mut self, length: usize) -> Result<Option<OrderItem>, OrderError>
        requires line { first_line_of Limits.DEVICE_LINE_BYTES self.old.rest ≡ Whole length }
        requires faultless { self.old.fault ≡ None }
        requires outside { self.old.octets ≡ 0 }
        ensures answer { Answers self.old result self.new }
        ensures falls { IfOk result (λ item. IsSome item → work self.new < work self.old) }
    {
        match self.read_prefix(length)? {
            None => Err(self.fail(OrderFault::BadLine)),
            Some(order) => {
                self.pass_line(length, octets_after(&order));
                Ok(Some(OrderItem::Order(order)))
            }
        }
    }

    /// The bytes that aren't read.
    fn rest(&self) -> &[u8]
        ensures { result.now ≡ self.now.rest }
    {
        &self.unread.bytes()[self.lent..]
    }

    /// The fault, if there was one.
    fn fault(&self) -> Option<OrderFault>
        ensures { result ≡ self.now.fault }
    {
        self.fault
    }

    /// The number of octets of a job that are still to be read.
    fn octets(&self) -> u32
        ensures { result ≡ self.now.octets }
    {
        self.octets
    }

    /// The order of the line of `length` bytes at the beginning.
    fn read_prefix(&self, length: usize) -> Result<Option<Order>, AllocError>
        requires { length < length_of self.now.rest }
        ensures { IfOk result (λ order. order ≡ order_in (take length self.now.rest)) }
    {
        read_line(self.alloc, &self.rest()[..length])
    }

    /// Passes over the line of `length` bytes at the beginning, which `octets` octets follow.
    fn pass_line(&mut self, length: usize, octets: u32)
        requires { length < length_of self.old.rest }
        ensures { self.new ≡ record { part = []; rest = drop (length + 1) self.old.rest; octets = octets; fault = self.old.fault } }
    {
        self.unread.pass(self.lent);
        self.unread.pass_line(length);
        self.lent = 0;
        self.octets = octets;
    }

    /// Passes over `length` octets of a job, and lends them.
    fn lend(&mut self, length: usize)
        requires there { length ≤ length_of self.old.rest }
        requires few { length ≤ self.old.octets }
        ensures { self.new ≡ record { part = take length self.old.rest; rest = drop length self.old.rest; octets = self.old.octets - length; fault = self.old.fault } }
    {
        self.unread.pass(self.lent);
        self.lent = length;
        self.octets -= length as u32;
    }

    /// Records a fault.
    fn fail(&mut self, fault: OrderFault) -> OrderError
        ensures kept { self.new ≡ record self.old { fault = Some fault } }
        ensures answer { result ≡ OrderError.Fault fault }
    {
        self.fault = Some(fault);
        OrderError::Fault(fault)
    }

    /// Appends bytes to those that aren't read. The only error is out of memory, and leaves the reader as it
    /// was.
    fn append(&mut self, segment: &[u8]) -> Result<(), AllocError>
        ensures ok { OnOk result (self.new ≡ record self.old { part = []; rest = self.old.rest ++ segment.now }) }
        ensures err { OnErr result (self.new ≡ self.old) }
    {
        self.unread.append(segment)?;
        self.unread.pass(self.lent);
        self.lent = 0;
        Ok(())
    }
}
