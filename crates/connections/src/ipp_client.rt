//! An IPP client: requests over HTTP, whose bodies are parsed as their parts are read.
ghost use Rattle.std.specs.Prelude.{◌≡◌, OnOk, OnErr, length};
ghost use Rattle.http_front.specs.Stream.{AwaitsBody};
ghost use Rattle.connections.specs.Peers.{IsNewIpp, IsFedIpp, FeedsBody, NextIpp, HandlesIpp, EndsIpp};

use crate::ask::{AllocFailure, Ask, Client};
use crate::step::{Due, Step};
use http_front::{HttpItem, HttpReader, HttpRejection};
use ipp_operations::{ParsedRequest, RequestParser};
use std::alloc::{AllocError, Global};
use std::marker::Model;
use std::mem;

/// An IPP client, with the state of its stream.
#[derive(Drop)]
pub struct IppClient {
    alloc: Global,
    reader: HttpReader,
    /// Whether the connection closes after the reply to the current request.
    closes: bool,
    /// The parser of that request's body.
    body: RequestParser,
    /// Whether the body was fed bytes that no step has reported yet.
    unreported: bool,
}

impl Model for IppClient {
    ghost use Rattle.connections.specs.States.{IppClientState};

    ghost Value = { IppClientState };

    ghost view = { λ t. record { reader = t.reader; closes = t.closes; body = t.body; unreported = t.unreported } };
}

impl IppClient {
    /// Creates a client of which nothing was read.
    pub fn new(alloc: Global) -> IppClient
        ensures { IsNewIpp result }
    {
        IppClient {
            alloc,
            reader: HttpReader::new(alloc),
            closes: false,
            body: RequestParser::new(alloc),
            unreported: false,
        }
    }

    /// Feeds the next bytes of the wire to the reader, or to the body if all of them are bytes of it: so a long
    /// body is copied once. The only error is out of memory, and none of the bytes is taken.
    pub fn feed(&mut self, segment: &[u8]) -> Result<(), AllocError>
        ensures ok { OnOk result (IsFedIpp segment.now self.old self.new) }
        ensures err { OnErr result (self.new ≡ self.old) }
    {
        match u32::try_from(segment.len()) {
            Ok(count) if self.reader.awaits_body(count) => self.feed_body(segment, count),
            Ok(_) | Err(_) => self.reader.feed(segment),
        }
    }

    /// Feeds so many bytes, which are bytes of a body, to that body.
    fn feed_body(&mut self, segment: &[u8], count: u32) -> Result<(), AllocError>
        requires counted { length segment.now ≡ count }
        requires awaited { AwaitsBody count self.old.reader }
        ensures ok { OnOk result (FeedsBody segment.now self.old self.new) }
        ensures err { OnErr result (self.new ≡ self.old) }
    {
        self.body.feed(segment)?;
        self.reader.hear_body(count);
        self.unreported = true;
        Ok(())
    }

    /// Returns whether the connection closes after the reply to the last request.
    pub fn closes(&self) -> bool
        ensures { result ≡ self.now.closes }
    {
        self.closes
    }

    /// Returns the step for the next item of the stream, if one is whole. Before it comes the step for the bytes
    /// that the body was fed.
    #[tactic(auto, using(crate::proofs::Readers::item_is_next))]
    pub fn next(&mut self) -> Option<Step>
        ensures { NextIpp result self.old self.new }
    {
        if self.unreported {
            self.unreported = false;
            return Some(due(Due::Nothing, false));
        }
        match self.reader.next_item() {
            Some(item) => Some(self.handle(item)),
            None => None,
        }
    }

    /// Returns the step for an item that was just taken off the stream. It isn't inlined, since most steps of a long
    /// body only report its bytes.
    #[inline(never)]
    fn handle(&mut self, item: HttpItem) -> Step
        ensures { HandlesIpp item result self.old self.new }
    {
        match item {
            HttpItem::Head { closes } => {
                self.closes = closes;
                self.body = RequestParser::new(self.alloc);
                due(Due::Nothing, false)
            }
            HttpItem::Continue => due(Due::Continue, false),
            HttpItem::BodyPart => match self.body.feed(self.reader.part()) {
                Ok(()) => due(Due::Nothing, false),
                Err(_) => Step::Breaks(Ask::Broke(AllocFailure::Input)),
            },
            HttpItem::BodyEnd => self.end_body(),
            HttpItem::Refuse(refusal) => due(Due::Refusal(refusal), true),
        }
    }

    /// Returns the step for the body, which is whole now. A body under 8 bytes is answered 400, and the connection
    /// drains (RFC 8010, section 3.1.1).
    fn end_body(&mut self) -> Step
        ensures { EndsIpp result self.old self.new }
    {
        let closes = self.closes;
        let next = RequestParser::new(self.alloc);
        let mut body = mem::replace(&mut self.body, next);
        let Some(request) = body.request_id() else {
            return due(Due::Refusal(HttpRejection::BadRequest), true);
        };
        let Ok(asked) = body.finish() else {
            return Step::Asks {
                ask: Ask::Unread(request),
                last: closes,
            };
        };
        match asked {
            ParsedRequest::TooShort => due(Due::Refusal(HttpRejection::BadRequest), true),
            ParsedRequest::Refused(status, request) => Step::Due {
                due: Due::Status {
                    closes,
                    status,
                    request,
                },
                last: closes,
            },
            ParsedRequest::Event(request, event) => Step::Asks {
                ask: Ask::Event(Client::Ipp(request), event),
                last: closes,
            },
        }
    }
}

/// The step that makes bytes due.
fn due(due: Due, last: bool) -> Step
    ensures { result ≡ Step.Due due last }
{
    Step::Due { due, last }
}
