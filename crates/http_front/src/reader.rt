//! The reader of a client's stream.
ghost use Rattle.std.specs.Prelude.{◌≡◌, ◌≤◌, ◌<◌, ◌+◌, ◌++◌, [], List, ℕ, OnOk, OnErr, IsOk, IsSome, IsTrue, IsFalse, None, true, map, take, drop, length as length_of};
ghost use Rattle.http_front.specs.Stream.{HttpElement, HasByte, HasRead, Answers, AwaitsBody, Steps, IsOver, work, after_body, body_by, body_left, past_body, after_head, begins_head};
ghost use Rattle.text.specs.FirstLine.{first_line_of};
ghost use Rattle.text.specs.declared.line.FirstLine.TheVariants.{Whole};
ghost use Rattle.http_front.specs.Section.{section_in};

use crate::after::{after_body, after_head, begins_head, body_by, is_last, past_body};
use crate::awaited::{Awaited, Following};
use crate::chunk::{ChunkEnd, chunk_end, size_in};
use crate::head::read_head;
use crate::item::HttpItem;
use crate::refusal::HttpRejection;
use crate::section::section_in;
use base_types::Limits;
use std::alloc::{AllocError, Global};
use std::marker::Model;
use std::mem;
use text::{FirstLine, Unread, first_line};

/// A reader of an HTTP client's stream, which is fed in segments of any length. In clauses it is a record of
/// the part of a body that it lends, the bytes that aren't read, and the part that it awaits.
///
/// After a request that is refused, one whose connection closes, and one whose body is too short for an IPP
/// message, the reader gives no more items, and drops the bytes that it is fed.
#[derive(Drop)]
pub struct HttpReader {
    unread: Unread,
    /// Spare room for a segment that is fed when all bytes are read. Its content is not part of the model.
    spare: Unread,
    /// The number of bytes at the beginning of `unread` that are read and lent as a part.
    lent: usize,
    awaited: Awaited,
}

impl Model for HttpReader {
    ghost use Rattle.std.specs.Prelude.{◌≤◌, take, drop, length};
    ghost use Rattle.http_front.specs.Stream.{HttpState};

    ghost Value = { HttpState };

    ghost view = { λ r. record { part = take r.lent r.unread; rest = drop r.lent r.unread; awaited = r.awaited } };

    ghost invariant = { λ r. r.lent ≤ length r.unread };
}

/// The result of one step of a reader.
#[derive(Clone, Copy)]
pub(crate) enum Step {
    Gives(HttpItem),
    /// Bytes were read that give no item.
    Passes,
    /// The bytes that were fed are too few for a step.
    Waits,
}

impl HttpReader {
    /// Creates the reader of a new connection.
    pub fn new(alloc: Global) -> HttpReader
        ensures { HasRead [] [] result }
    {
        HttpReader {
            unread: Unread::new(alloc),
            spare: Unread::new(alloc),
            lent: 0,
            awaited: Awaited::Head,
        }
    }

    /// Feeds the next bytes of the connection. The part that was lent is given back.
    ///
    /// The only error is out of memory: then none of the bytes is taken, and the part stays lent.
    pub fn feed(&mut self, segment: &[u8]) -> Result<(), AllocError>
        ensures fed { OnOk result ((stream : List ℕ) (given : List HttpElement) → HasRead stream given self.old → HasRead (stream ++ segment.now) given self.new) }
        ensures err { OnErr result (self.new ≡ self.old) }
        ensures over { IsOver self.old → IsOk result × (self.new ≡ self.old) }
    {
        if let Awaited::Nothing = self.awaited() {
            return Ok(());
        }
        if self.rest().is_empty() {
            // The part that was lent isn't moved.
            self.spare.pass(self.spare.bytes().len());
            self.spare.append(segment)?;
            mem::swap(&mut self.unread, &mut self.spare);
            self.lent = 0;
            return Ok(());
        }
        self.unread.append(segment)?;
        self.unread.pass(self.lent);
        self.lent = 0;
        Ok(())
    }

    /// Returns the next item, if it is whole. For a part of a body, [`HttpReader::part`] has the bytes.
    pub fn next_item(&mut self) -> Option<HttpItem>
        ensures answer { Answers self.old result self.new }
        ensures falls { IsSome result → work self.new < work self.old }
        ensures over { IsOver self.old → (result ≡ None) × (self.new ≡ self.old) }
    {
        if let Awaited::Nothing = self.awaited() {
            return None;
        }
        loop {
            match self.step() {
                Step::Gives(item) => return Some(item),
                Step::Passes => {}
                Step::Waits => return None,
            }
        }
    }

    /// The bytes of the part of a body that the last item was.
    pub fn part(&self) -> &[u8]
        ensures { result.now ≡ self.now.part }
    {
        &self.unread.bytes()[..self.lent]
    }

    /// The number of bytes of a body that come next: the rest of a body with a length, or the rest of a
    /// chunk. It is 0 if another part comes next.
    pub fn body_left(&self) -> u32
        ensures { result ≡ body_left self.now.awaited }
    {
        match self.awaited {
            Awaited::Body(count, _) => count,
            Awaited::Head
            | Awaited::Invitation(_, _)
            | Awaited::Size(_, _)
            | Awaited::Trailer(_)
            | Awaited::Nothing => 0,
        }
    }

    /// Passes over `count` bytes of a body that come next and aren't fed. Returns false and changes nothing
    /// if fewer are left of the body or of the chunk, or if bytes that were fed aren't read yet.
    pub fn pass_body(&mut self, count: u32) -> bool
        ensures within { IsTrue result → count ≤ body_left self.old.awaited }
        ensures passed { IsTrue result → self.new ≡ record { part = []; rest = []; awaited = past_body count self.old.awaited } }
        ensures kept { IsFalse result → self.new ≡ self.old }
    {
        if !self.rest().is_empty() {
            return false;
        }
        match self.awaited() {
            Awaited::Body(left, next) if count <= left => {
                self.pass(0, Awaited::Body(left - count, next));
                true
            }
            _ => false,
        }
    }

    /// Returns whether the next `count` bytes are bytes of a body: so many are left of the body or of the
    /// chunk, and all bytes that were fed are read.
    pub fn awaits_body(&self, count: u32) -> bool
        ensures { IsTrue result → AwaitsBody count self.now }
    {
        if !self.rest().is_empty() {
            return false;
        }
        match self.awaited() {
            Awaited::Body(left, _) => count <= left,
            Awaited::Head
            | Awaited::Invitation(_, _)
            | Awaited::Size(_, _)
            | Awaited::Trailer(_)
            | Awaited::Nothing => false,
        }
    }

    /// Counts the next `count` bytes, which are bytes of a body, as fed and as given. The caller has them.
    pub fn hear_body(&mut self, count: u32)
        requires { AwaitsBody count self.old }
        ensures { (stream : List ℕ) (given : List HttpElement) (segment : List ℕ) → length_of segment ≡ count → HasRead stream given self.old → HasRead (stream ++ segment) (given ++ map HasByte segment) self.new }
    {
        self.pass(0, past_body(count, self.awaited()));
    }

    /// Takes one step, which gives at most one item.
    fn step(&mut self) -> Step
        ensures { Steps self.old result self.new }
    {
        match self.awaited() {
            Awaited::Head => self.step_head(),
            Awaited::Invitation(framing, closes) => {
                self.pass(0, body_by(framing, closes));
                Step::Gives(HttpItem::Continue)
            }
            Awaited::Body(count, next) => self.step_body(count, next),
            Awaited::Size(room, closes) => self.step_size(room, closes),
            Awaited::Trailer(last) => self.step_trailer(last),
            Awaited::Nothing => Step::Waits,
        }
    }

    /// Drops a byte of a line end before a head, or reads the head.
    fn step_head(&mut self) -> Step
        requires { self.old.awaited ≡ Awaited.Head }
        ensures { Steps self.old result self.new }
    {
        if self.rest().is_empty() {
            return Step::Waits;
        }
        if !begins_head(self.rest()) {
            self.pass(1, Awaited::Head);
            return Step::Passes;
        }
        self.step_lines()
    }

    /// Reads a head, if all its lines are there.
    fn step_lines(&mut self) -> Step
        requires head { self.old.awaited ≡ Awaited.Head }
        requires begins { begins_head self.old.rest ≡ true }
        ensures { Steps self.old result self.new }
    {
        match section_in(self.rest(), Limits::HTTP_HEAD_BYTES) {
            FirstLine::Unfinished => Step::Waits,
            FirstLine::TooLong => self.refuse(0, HttpRejection::HeadTooLarge),
            FirstLine::Whole(count) => self.take_head(count),
        }
    }

    /// Reads the head in the first `count` bytes.
    fn take_head(&mut self, count: usize) -> Step
        requires head { self.old.awaited ≡ Awaited.Head }
        requires begins { begins_head self.old.rest ≡ true }
        requires whole { section_in Limits.HTTP_HEAD_BYTES self.old.rest ≡ Whole count }
        requires within { count ≤ length_of self.old.rest }
        ensures { Steps self.old result self.new }
    {
        match read_head(&self.rest()[..count]) {
            Err(refusal) => self.refuse(count, refusal),
            Ok(request) => {
                self.pass(count, after_head(request));
                Step::Gives(HttpItem::Head {
                    closes: request.closes,
                })
            }
        }
    }

    /// Lends those of the next `count` bytes of a body that are there. Where `count` is 0, reads what follows
    /// the body.
    fn step_body(&mut self, count: u32, next: Following) -> Step
        requires { self.old.awaited ≡ Awaited.Body count next }
        ensures { Steps self.old result self.new }
    {
        if count == 0 {
            return self.step_following(next);
        }
        let length = self.rest().len().min(count as usize);
        if length == 0 {
            return Step::Waits;
        }
        self.lend(length, Awaited::Body(count - length as u32, next));
        Step::Gives(HttpItem::BodyPart)
    }

    /// Reads what follows the bytes of a body or of a chunk.
    fn step_following(&mut self, next: Following) -> Step
        requires { self.old.awaited ≡ Awaited.Body 0 next }
        ensures { Steps self.old result self.new }
    {
        match next {
            Following::Close(last) => {
                self.pass(0, after_body(last));
                Step::Gives(HttpItem::BodyEnd)
            }
            Following::Chunk(room, closes) => self.end_chunk(room, closes),
        }
    }

    /// Reads the end of a chunk.
    fn end_chunk(&mut self, room: u32, closes: bool) -> Step
        requires { self.old.awaited ≡ Awaited.Body 0 (Following.Chunk room closes) }
        ensures { Steps self.old result self.new }
    {
        match chunk_end(self.rest()) {
            ChunkEnd::Unfinished => Step::Waits,
            ChunkEnd::Broken => self.refuse(0, HttpRejection::BadRequest),
            ChunkEnd::Whole => {
                self.pass(2, Awaited::Size(room, closes));
                Step::Passes
            }
        }
    }

    /// Reads the line before a chunk.
    fn step_size(&mut self, room: u32, closes: bool) -> Step
        requires { self.old.awaited ≡ Awaited.Size room closes }
        ensures { Steps self.old result self.new }
    {
        match first_line(self.rest(), Limits::HTTP_CHUNK_LINE_BYTES) {
            FirstLine::Unfinished => Step::Waits,
            FirstLine::TooLong => self.refuse(0, HttpRejection::BadRequest),
            FirstLine::Whole(count) => self.take_size(count, room, closes),
        }
    }

    /// Reads the line before a chunk, of `count` bytes and a line feed.
    fn take_size(&mut self, count: usize, room: u32, closes: bool) -> Step
        requires size { self.old.awaited ≡ Awaited.Size room closes }
        requires whole { first_line_of Limits.HTTP_CHUNK_LINE_BYTES self.old.rest ≡ Whole count }
        requires within { count < length_of self.old.rest }
        ensures { Steps self.old result self.new }
    {
        let Some(size) = size_in(&self.rest()[..count + 1]) else {
            return self.refuse(count + 1, HttpRejection::BadRequest);
        };
        if size == 0 {
            let length = (Limits::HTTP_BODY_BYTES as u32).saturating_sub(room);
            self.pass(count + 1, Awaited::Trailer(is_last(closes, length)));
            return Step::Passes;
        }
        if size > u64::from(room) {
            return self.refuse(count + 1, HttpRejection::ContentTooLarge);
        }
        let size = size as u32;
        self.pass(
            count + 1,
            Awaited::Body(size, Following::Chunk(room - size, closes)),
        );
        Step::Passes
    }

    /// Drops the fields after the last chunk.
    fn step_trailer(&mut self, last: bool) -> Step
        requires { self.old.awaited ≡ Awaited.Trailer last }
        ensures { Steps self.old result self.new }
    {
        match section_in(self.rest(), Limits::HTTP_TRAILER_BYTES) {
            FirstLine::Unfinished => Step::Waits,
            FirstLine::TooLong => self.refuse(0, HttpRejection::BadRequest),
            FirstLine::Whole(count) => {
                self.pass(count, after_body(last));
                Step::Gives(HttpItem::BodyEnd)
            }
        }
    }

    /// The bytes that aren't read.
    fn rest(&self) -> &[u8]
        ensures { result.now ≡ self.now.rest }
    {
        &self.unread.bytes()[self.lent..]
    }

    /// What the reader awaits.
    fn awaited(&self) -> Awaited
        ensures { result ≡ self.now.awaited }
    {
        self.awaited
    }

    /// Passes over `count` bytes, and lends none.
    fn pass(&mut self, count: usize, awaited: Awaited)
        requires { count ≤ length_of self.old.rest }
        ensures { self.new ≡ record { part = []; rest = drop count self.old.rest; awaited = awaited } }
    {
        self.unread.pass(self.lent);
        self.unread.pass(count);
        self.lent = 0;
        self.awaited = awaited;
    }

    /// Passes over `count` bytes, and lends them.
    fn lend(&mut self, count: usize, awaited: Awaited)
        requires { count ≤ length_of self.old.rest }
        ensures { self.new ≡ record { part = take count self.old.rest; rest = drop count self.old.rest; awaited = awaited } }
    {
        self.unread.pass(self.lent);
        self.lent = count;
        self.awaited = awaited;
    }

    /// Passes over `count` bytes and refuses the request. The reader awaits nothing after it.
    fn refuse(&mut self, count: usize, refusal: HttpRejection) -> Step
        requires { count ≤ length_of self.old.rest }
        ensures state { self.new ≡ record { part = []; rest = drop count self.old.rest; awaited = Awaited.Nothing } }
        ensures answer { result ≡ Step.Gives (HttpItem.Refuse refusal) }
    {
        self.pass(count, Awaited::Nothing);
        Step::Gives(HttpItem::Refuse(refusal))
    }
}
