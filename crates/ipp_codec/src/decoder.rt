//! The decoder of heads whose bytes come in segments.
ghost use Rattle.std.specs.Prelude.{◌≡◌, ◌<◌, ◌≤◌, ◌+◌, ◌++◌, ◌↔◌, ℕ, [], List, IfOk, IfSome, IsSome, IsTrue, None, OnOk, OnErr, ◌-◌, ◌^◌, length, take, drop};
ghost use Rattle.ipp_codec.specs.Message.{IppMessage};
ghost use Rattle.ipp_codec.specs.Grammar.{Spells};
ghost use Rattle.ipp_codec.specs.Decoding.{Decodes};
ghost use Rattle.ipp_codec.specs.Decoder.{DecoderState, HasDecoded, TakesIn, Feeds, CanReach, MayCome, reached_of, returned, answer_at, with_header, advanced, stage_at, kept_of};
ghost use Rattle.ipp_codec.specs.Views.{message_shown};

use crate::fault::{CodecFault, DecodeError};
use crate::head::{limited_fault, view_of};
use crate::place::{Place, Walk, walk_from};
use crate::stage::{Fed, Reached, Stage};
use crate::view::MessageView;
use base_types::Limits;
use std::alloc::{AllocError, Global};
use std::marker::Model;

/// The bytes of a header (RFC 8010, section 3.1.1).
const HEADER_BYTES: usize = Limits::IPP_HEADER_BYTES;

/// A decoder of a head whose bytes come in segments of any length. In clauses it is a record of the bytes of
/// the head that it keeps, the number of those that are read, the place after them, and its stage.
///
/// Its result is that of [`crate::decode`] on the joined bytes, for each segmentation. It keeps only
/// the bytes of the head, and reads each of them once.
#[derive(Drop)]
pub struct Decoder {
    head: Vec<u8>,
    /// The number of bytes of the head that are read: its header, and whole elements.
    walked: usize,
    /// The place before the bytes that aren't read.
    place: Place,
    stage: Stage,
}

impl Model for Decoder {
    ghost use Rattle.std.specs.Prelude.{length};
    ghost use Rattle.ipp_codec.specs.Decoder.{DecoderState, CanReach};

    ghost Value = { DecoderState };

    ghost view = { λ d. record { head = d.head.items; walked = d.walked; place = d.place; stage = d.stage } };

    ghost invariant = { λ d. CanReach (record { length = length d.head.items; walked = d.walked; place = d.place; stage = d.stage }) };
}

impl Decoder {
    /// Creates the decoder of a new body.
    pub fn new(alloc: Global) -> Decoder
        ensures { HasDecoded [] result }
    {
        Decoder {
            head: Vec::new(alloc),
            walked: 0,
            place: Place::Outside,
            stage: Stage::Awaiting,
        }
    }

    /// Feeds the next bytes of the body. After the head, and after a fault, they are dropped.
    ///
    /// If memory for bytes of the head is refused, none of the segment is taken.
    pub fn feed(&mut self, segment: &[u8]) -> Result<Fed, DecodeError>
        ensures fed { Feeds self.old segment.now result self.new }
        ensures grows { take (length self.old.head) self.new.head ≡ self.old.head }
        ensures over { ¬ (self.old.stage ≡ Stage.Awaiting) → self.new ≡ self.old }
    {
        let reached = self.reached();
        if self.stage() != Stage::Awaiting {
            return self.answer(reached.length);
        }
        if self.take(segment).is_err() {
            self.back_to(reached);
            return Err(DecodeError::OutOfMemory);
        }
        self.answer(reached.length)
    }

    /// The progress of the decoder.
    pub fn reached(&self) -> Reached
        ensures reached { result ≡ reached_of self.now }
        ensures sound { CanReach result }
    {
        Reached {
            length: self.head.len(),
            walked: self.walked,
            place: self.place,
            stage: self.stage,
        }
    }

    /// Returns to an earlier progress, and drops the bytes that were fed since. The state is the state of
    /// that time.
    pub fn back_to(&mut self, reached: Reached)
        requires sound { CanReach reached }
        requires grown { reached.length ≤ length self.old.head }
        ensures back { self.new ≡ returned self.old reached }
        ensures reaches { (fed : List ℕ) (before : DecoderState) → HasDecoded fed before → reached ≡ reached_of before → take (length before.head) self.old.head ≡ before.head → HasDecoded fed self.new }
    {
        self.head.truncate(reached.length);
        self.walked = reached.walked;
        self.place = reached.place;
        self.stage = reached.stage;
    }

    /// The stage of the decoder: whether the head is whole, or its fault.
    pub fn stage(&self) -> Stage
        ensures { result ≡ self.now.stage }
    {
        self.stage
    }

    /// The bytes of the head that came so far. After a fault they are its first bytes, with the header.
    pub fn head(&self) -> &[u8]
        ensures { result.now ≡ self.now.head }
    {
        &self.head
    }

    /// The message, if its head is whole.
    pub fn view(&self) -> Option<MessageView<'_>>
        ensures whole { IsSome result ↔ (self.now.stage ≡ Stage.Whole) }
        ensures shown { IfSome result (λ view. (m : IppMessage) → Spells self.now.head m → message_shown view ≡ m) }
    {
        if self.stage == Stage::Whole {
            Some(view_of(&self.head))
        } else {
            None
        }
    }

    /// Returns the result of `decode` on all bytes that it was fed: the message and the length of its
    /// spelling, or the first fault.
    pub fn finish(&self) -> Result<(MessageView<'_>, usize), CodecFault>
        ensures decoded { (fed : List ℕ) → HasDecoded fed self.now → Decodes fed result }
        ensures length { IfOk result (λ x. x.1 ≡ length self.now.head) }
        ensures whole { IfOk result (λ _. self.now.stage ≡ Stage.Whole) }
    {
        match self.stage {
            Stage::Whole => Ok((view_of(&self.head), self.head.len())),
            Stage::Awaiting => Err(CodecFault::Short),
            Stage::Faulty(fault) => Err(fault),
        }
    }

    /// The result of a segment, where `kept` bytes were kept before it.
    fn answer(&self, kept: usize) -> Result<Fed, DecodeError>
        requires { kept ≤ length self.now.head }
        ensures { result ≡ answer_at self.now.stage (length self.now.head - kept) }
    {
        match self.stage {
            Stage::Awaiting => Ok(Fed::More),
            Stage::Whole => Ok(Fed::Head(self.head.len() - kept)),
            Stage::Faulty(fault) => Err(DecodeError::Fault(fault)),
        }
    }

    /// Takes the bytes of a segment, until no more are awaited.
    fn take(&mut self, segment: &[u8]) -> Result<(), AllocError>
        ensures taken { OnOk result (TakesIn self.old segment.now self.new) }
        ensures grows { take (length self.old.head) self.new.head ≡ self.old.head }
        ensures bounded { length self.new.head ≤ length self.old.head + length segment.now }
    {
        let mut rest = segment;
        while !rest.is_empty() && self.awaits() {
            let count = self.take_some(rest)?;
            rest = &rest[count..];
        }
        Ok(())
    }

    /// Returns whether more bytes of the head are awaited, and the limit isn't reached.
    fn awaits(&self) -> bool
        ensures { IsTrue result ↔ MayCome self.now }
    {
        self.stage == Stage::Awaiting && self.head.len() < Limits::IPP_HEAD_BYTES
    }

    /// Takes some bytes of a segment. They are bytes of the header, or bytes that the current element lacks, or
    /// the elements of the segment, which are read in place. Returns their number.
    fn take_some(&mut self, segment: &[u8]) -> Result<usize, AllocError>
        requires awaits { MayCome self.old }
        requires some { 0 < length segment.now }
        ensures count { IfOk result (λ count. (0 < count) × (count ≤ length segment.now)) }
        ensures taken { IfOk result (λ count. TakesIn self.old (take count segment.now) self.new) }
        ensures grows { take (length self.old.head) self.new.head ≡ self.old.head }
        ensures bounded { IfOk result (λ count. length self.new.head ≤ length self.old.head + count) }
        ensures err { OnErr result (self.new ≡ self.old) }
    {
        if self.walked() < HEADER_BYTES {
            self.take_header(segment)
        } else if self.walked() < self.head().len() {
            self.take_lacking(segment)
        } else {
            self.take_elements(segment)
        }
    }

    /// Takes bytes of the header. Returns their number.
    fn take_header(&mut self, segment: &[u8]) -> Result<usize, AllocError>
        requires awaits { MayCome self.old }
        requires some { 0 < length segment.now }
        requires header { self.old.walked < HEADER_BYTES }
        ensures count { IfOk result (λ count. (0 < count) × (count ≤ length segment.now)) }
        ensures taken { IfOk result (λ count. (length self.old.head + count ≤ 8) × (self.new ≡ with_header self.old (take count segment.now))) }
        ensures err { OnErr result (self.new ≡ self.old) }
    {
        let count = segment.len().min(HEADER_BYTES - self.head.len());
        self.head.extend_from_slice(&segment[..count])?;
        if self.head.len() == HEADER_BYTES {
            self.walked = HEADER_BYTES;
        }
        Ok(count)
    }

    /// Takes bytes that the current element lacks. Returns their number.
    fn take_lacking(&mut self, segment: &[u8]) -> Result<usize, AllocError>
        requires awaits { MayCome self.old }
        requires some { 0 < length segment.now }
        requires read { HEADER_BYTES ≤ self.old.walked }
        requires begun { self.old.walked < length self.old.head }
        ensures count { IfOk result (λ count. (0 < count) × (count ≤ length segment.now)) }
        ensures taken { IfOk result (λ count. TakesIn self.old (take count segment.now) self.new) }
        ensures grows { take (length self.old.head) self.new.head ≡ self.old.head }
        ensures bounded { IfOk result (λ count. length self.new.head ≤ length self.old.head + count) }
        ensures err { OnErr result (self.new ≡ self.old) }
    {
        let kept = self.head().len();
        let count = self.lacking().min(self.room()).min(segment.len());
        self.append(&segment[..count])?;
        let walk = walk_from(self.place(), self.unread());
        self.advance(walk, kept);
        Ok(count)
    }

    /// Takes the elements of a segment, and the beginning of an element that goes on in the next segment. Returns the
    /// number of bytes.
    fn take_elements(&mut self, segment: &[u8]) -> Result<usize, AllocError>
        requires awaits { MayCome self.old }
        requires some { 0 < length segment.now }
        requires read { HEADER_BYTES ≤ self.old.walked }
        requires between { self.old.walked ≡ length self.old.head }
        ensures count { IfOk result (λ count. (0 < count) × (count ≤ length segment.now)) }
        ensures taken { IfOk result (λ count. TakesIn self.old (take count segment.now) self.new) }
        ensures grows { take (length self.old.head) self.new.head ≡ self.old.head }
        ensures bounded { IfOk result (λ count. length self.new.head ≤ length self.old.head + count) }
        ensures err { OnErr result (self.new ≡ self.old) }
    {
        let limited = &segment[..segment.len().min(self.room())];
        let walk = walk_from(self.place(), limited);
        let kept = self.head().len();
        self.append(&limited[..kept_of(walk, limited.len())])?;
        self.advance(walk, kept);
        Ok(limited.len())
    }

    /// The number of bytes that are read.
    fn walked(&self) -> usize
        ensures walked { result ≡ self.now.walked }
        ensures within { result ≤ length self.now.head }
    {
        self.walked
    }

    /// The place before the bytes that aren't read.
    fn place(&self) -> Place
        ensures { result ≡ self.now.place }
    {
        self.place
    }

    /// The bytes that aren't read.
    fn unread(&self) -> &[u8]
        ensures { result.now ≡ drop self.now.walked self.now.head }
    {
        &self.head[self.walked..]
    }

    /// Returns how many bytes the current element lacks at least.
    fn lacking(&self) -> usize
        ensures { 0 < result }
    {
        lacking_of(self.unread())
    }

    /// Returns how many bytes a head may still have.
    fn room(&self) -> usize
        ensures { result ≡ Limits.IPP_HEAD_BYTES - length self.now.head }
    {
        Limits::IPP_HEAD_BYTES.saturating_sub(self.head.len())
    }

    /// Appends bytes of the head after its header.
    fn append(&mut self, prefix: &[u8]) -> Result<(), AllocError>
        requires { HEADER_BYTES ≤ self.old.walked }
        ensures ok { OnOk result (self.new ≡ record self.old { head = self.old.head ++ prefix.now }) }
        ensures err { OnErr result (self.new ≡ self.old) }
    {
        self.head.extend_from_slice(prefix)
    }

    /// Passes over the elements of a walk through the bytes that weren't read. The bytes after the end byte,
    /// which is after the `kept` bytes that were kept before, aren't kept.
    fn advance(&mut self, walk: Walk, kept: usize)
        requires read { HEADER_BYTES ≤ self.old.walked }
        requires within { self.old.walked + walk.length ≤ length self.old.head }
        requires end { walk.fault ≡ None → self.old.walked + walk.length < length self.old.head }
        ensures { self.new ≡ advanced self.old walk kept }
    {
        self.walked = self.walked + walk.length;
        self.place = walk.place;
        self.stage = stage_at(walk.fault, self.head.len());
        if walk.fault.is_none() {
            self.head.truncate(kept.max(self.walked + 1));
        }
    }
}

/// The stage after elements with a fault, where this many bytes are kept.
fn stage_at(fault: Option<CodecFault>, kept: usize) -> Stage
    ensures { result ≡ stage_at fault kept }
{
    let Some(fault) = fault else {
        return Stage::Whole;
    };
    match limited_fault(fault, kept >= Limits::IPP_HEAD_BYTES) {
        CodecFault::Short => Stage::Awaiting,
        fault => Stage::Faulty(fault),
    }
}

/// The number of bytes that are kept after a walk: the bytes up to the end byte; all bytes, if the last
/// element goes on; or else the elements before the fault.
fn kept_of(walk: Walk, len: usize) -> usize
    requires within { walk.length ≤ len }
    requires end { walk.fault ≡ None → walk.length < len }
    ensures { result ≡ kept_of walk.fault walk.length len }
{
    match walk.fault {
        None => walk.length + 1,
        Some(CodecFault::Short) => len,
        Some(_) => walk.length,
    }
}

/// How many bytes a value that begins in this way lacks at least. A value is its tag, two bytes of each
/// length, its name and its bytes; a length that isn't there counts as 0.
fn lacking_of(begun: &[u8]) -> usize
    ensures { 0 < result }
{
    let name = length_at(begun, 1);
    let value = length_at(begun, 3 + name);
    (5 + name + value).saturating_sub(begun.len()).max(1)
}

/// The length of two bytes at a place, 0 if they aren't there.
fn length_at(bytes: &[u8], place: usize) -> usize
    requires { place ≤ 70000 }
    ensures { result < 2 ^ 16 }
{
    if bytes.len() < place + 2 {
        return 0;
    }
    usize::from(u16::from_be_bytes([bytes[place], bytes[place + 1]]))
}
