//! The queue of bytes that a connection sends.
ghost use Rattle.std.specs.Prelude.{◌≡◌, false, ◌<◌, ◌≤◌, ◌+◌, ◌++◌, [], IfOk, OnOk, OnErr, ◌==◌, nat_lt, length, drop, slice_index_or, vec_len, vec_capacity};
ghost use Rattle.std.specs.List.{flat_map, All};
ghost use Rattle.std.specs.Io.Slices.{io_slice_bytes, io_slices_bytes};
ghost use Rattle.octets.specs.Document.{IsPrefixOf};
ghost use Rattle.connections.specs.Outgoing.{bytes_of, is_job};
ghost use Rattle.connections.specs.Reply.{http_reply, refusal_head};
ghost use Rattle.connections.specs.SendQueue.{OffersPrefix, IsSome, joined};

use crate::outgoing::{Outgoing, OutgoingJob};
use device_link::{write_cancel, write_job};
use http_front::{HttpRejection, continue_head, write_refusal_head, write_reply_head};
use octets::{Document, Octets, Pages};
use std::alloc::{AllocError, Global};
use std::io::IoSlice;
use std::marker::Model;
use wires::{Progress, Wire, WireId};

/// The number of bytes that may wait on a connection without memory beyond what it took when it was accepted.
pub const RESERVED_BYTES: usize = 256;

/// The result of an offer.
#[derive(Clone, Copy, PartialEq, Eq)]
pub enum Offered {
    /// No bytes wait, or there is no connection.
    Nothing,
    /// The wire took this many bytes.
    Done(usize),
    Waiting,
    /// The wire had an end or a fault.
    Ended,
}

/// Returns the octets from `start` on that lie together in memory, and the place after them.
fn part(octets: &Octets, start: usize) -> (IoSlice<'_>, usize)
    requires { start ≤ length octets.now }
    ensures prefix { IsPrefixOf (io_slice_bytes result.0) (drop start octets.now) }
    ensures tail { result.1 ≡ start + length (io_slice_bytes result.0) }
    ensures within { result.1 ≤ length octets.now }
{
    let segment = octets.segment(start);
    let left = octets.len() - start - segment.len();
    (IoSlice::new(segment), octets.len() - left)
}

/// The rest of octets that may have other owners too. In clauses it is the list of these octets, which isn't
/// empty.
#[derive(Drop)]
struct Rest {
    octets: Octets,
    /// The number of leading octets that were taken.
    start: usize,
}

impl Model for Rest {
    ghost use Rattle.std.specs.Prelude.{ℕ, List, ◌<◌, drop, length};

    ghost Value = { List ℕ };

    ghost view = { λ r. drop r.start r.octets };

    ghost invariant = { λ r. r.start < length r.octets };
}

impl Rest {
    /// Creates the rest of octets of which none was taken.
    fn new(octets: Octets) -> Rest
        requires { 0 < length octets }
        ensures { result ≡ octets }
    {
        Rest { octets, start: 0 }
    }

    /// A prefix of the octets, in the parts in which they lie: as many parts as a system call takes.
    fn prefix(&self) -> [IoSlice<'_>; 4]
        ensures prefix { IsPrefixOf (io_slices_bytes result) self.now }
        ensures some { 0 < length self.now }
    {
        let (first, second_at) = part(&self.octets, self.start);
        let (second, third_at) = part(&self.octets, second_at);
        let (third, fourth_at) = part(&self.octets, third_at);
        let (fourth, _) = part(&self.octets, fourth_at);
        [first, second, third, fourth]
    }

    /// Returns the number of octets.
    fn len(&self) -> usize
        ensures { result ≡ length self.now }
    {
        self.octets.len() - self.start
    }

    /// Removes `count` octets from the beginning. Some octets are left.
    fn pass(&mut self, count: usize)
        requires { count < length self.old }
        ensures { self.new ≡ drop count self.old }
    {
        let left = self.len() - count;
        self.start = self.octets.len() - left;
    }
}

/// The bytes that wait to be taken on a connection. In clauses it is the list of them.
///
/// Documents are not copied: the queue and the core share their octets, for as long as the queue has them.
#[derive(Drop)]
pub struct SendQueue {
    alloc: Global,
    /// The octets that go out first.
    shared: Vec<Rest>,
    /// The bytes after `shared`. Their room stays when they are taken.
    text: Vec<u8>,
}

impl Model for SendQueue {
    ghost use Rattle.std.specs.Prelude.{ℕ, ◌≤◌, List, ◌++◌, vec_capacity};
    ghost use Rattle.std.specs.List.{All};
    ghost use Rattle.connections.specs.declared.queue.TheConstants.{RESERVED_BYTES};
    ghost use Rattle.connections.specs.SendQueue.{joined, IsSome};

    ghost Value = { List ℕ };

    ghost view = { λ o. joined o.shared.items ++ o.text.items };

    ghost invariant = { λ o. All IsSome o.shared.items × (RESERVED_BYTES ≤ vec_capacity o.text) };
}

impl SendQueue {
    /// Creates an empty queue with room for the bytes that a connection reserves. The only error is out of
    /// memory.
    pub fn new(alloc: Global) -> Result<SendQueue, AllocError>
        ensures { IfOk result (λ output. output ≡ []) }
    {
        Ok(SendQueue {
            alloc,
            shared: Vec::new(alloc),
            text: Vec::with_capacity(alloc, RESERVED_BYTES)?,
        })
    }

    /// Returns whether no bytes wait.
    pub fn is_empty(&self) -> bool
        ensures { result ≡ (length self.now == 0) }
    {
        self.shared.is_empty() && self.text.is_empty()
    }

    /// Returns whether more than `limit` bytes wait.
    pub fn is_above(&self, limit: usize) -> bool
        ensures { result ≡ nat_lt limit (length self.now) }
    {
        let mut room = limit;
        for rest in &self.shared {
            if room < rest.len() {
                return true;
            }
            room -= rest.len();
        }
        room < self.text.len()
    }

    /// Appends a message. The only error is out of memory, and nothing is appended then. It occurs only for a
    /// job, or if more than [`RESERVED_BYTES`] would wait.
    pub fn push(&mut self, outgoing: &Outgoing<'_>) -> Result<(), AllocError>
        ensures ok { OnOk result (self.new ≡ self.old ++ bytes_of outgoing.now) }
        ensures err { OnErr result (self.new ≡ self.old) }
        ensures full { is_job outgoing.now ≡ false → OnErr result (RESERVED_BYTES < length (self.old ++ bytes_of outgoing.now)) }
    {
        match outgoing {
            Outgoing::Bytes(bytes) => self.text.extend_from_slice(bytes),
            Outgoing::Continue => self.text.extend_from_slice(continue_head()),
            Outgoing::Refusal(refusal) => append_refusal(&mut self.text, *refusal),
            Outgoing::Reply { closes, body } => append_reply(&mut self.text, *closes, body),
            Outgoing::Cancel(job) => write_cancel(*job, &mut self.text),
            Outgoing::Job(job) => self.push_job(job),
        }
    }

    /// Appends a job. The only error is out of memory, and nothing is appended then.
    fn push_job(&mut self, job: &OutgoingJob<'_>) -> Result<(), AllocError>
        ensures ok { OnOk result (self.new ≡ self.old ++ job.now) }
        ensures err { OnErr result (self.new ≡ self.old) }
    {
        let mut line = Vec::new(self.alloc);
        write_job(self.alloc, job.job, job.octets, job.needs, &mut line)?;
        let mut added = Vec::new(self.alloc);
        add(&mut added, text_of(self.alloc, &self.text, &line)?)?;
        add_all(&mut added, job.documents)?;
        self.shared.append(&mut added)?;
        self.text.clear();
        Ok(())
    }

    /// Offers a prefix of the waiting bytes to the wire, which may take some of them.
    pub fn offer<W: Wire>(&mut self, id: WireId, wire: &mut W) -> Offered
        ensures { OffersPrefix W.polled id self.old wire.old result self.new wire.new }
    {
        if !self.shared.is_empty() {
            return offer_first(&mut self.shared, id, wire);
        }
        if self.text.is_empty() {
            return Offered::Nothing;
        }
        match wire.poll_write(id, &[IoSlice::new(&self.text)]) {
            Progress::Done(count) => {
                drop_taken(&mut self.text, count);
                Offered::Done(count)
            }
            Progress::Waiting => Offered::Waiting,
            Progress::End => Offered::Ended,
            Progress::Fault => Offered::Ended,
        }
    }
}

/// Offers a prefix of the shared octets to the wire.
fn offer_first<W: Wire>(shared: &mut Vec<Rest>, id: WireId, wire: &mut W) -> Offered
    requires there { 0 < length shared.old.items }
    requires were { All IsSome shared.old.items }
    ensures offers { OffersPrefix W.polled id (joined shared.old.items) wire.old result (joined shared.new.items) wire.new }
    ensures some { All IsSome shared.new.items }
{
    match wire.poll_write(id, &shared[0].prefix()) {
        Progress::Done(count) => {
            pass(shared, count);
            Offered::Done(count)
        }
        Progress::Waiting => Offered::Waiting,
        Progress::End => Offered::Ended,
        Progress::Fault => Offered::Ended,
    }
}

/// Removes `count` octets from the first of the shared octets.
fn pass(shared: &mut Vec<Rest>, count: usize)
    requires there { 0 < length shared.old.items }
    requires were { All IsSome shared.old.items }
    requires within { count ≤ length (slice_index_or shared.old.items 0 []) }
    ensures left { joined shared.new.items ≡ drop count (joined shared.old.items) }
    ensures some { All IsSome shared.new.items }
{
    if count < shared[0].len() {
        shared[0].pass(count);
    } else {
        shared.remove(0);
    }
}

/// Removes `count` bytes from the beginning. The room stays.
fn drop_taken(text: &mut Vec<u8>, count: usize)
    requires { count ≤ length text.old.items }
    ensures left { text.new.items ≡ drop count text.old.items }
    ensures capacity { vec_capacity text.new ≡ vec_capacity text.old }
{
    if count == text.len() {
        text.clear();
    } else {
        text.drain(..count);
    }
}

/// The waiting text and a line, as octets.
fn text_of(alloc: Global, text: &[u8], line: &[u8]) -> Result<Octets, AllocError>
    ensures { IfOk result (λ octets. octets ≡ text.now ++ line.now) }
{
    let mut joined = Pages::new(alloc);
    joined.push(text)?;
    joined.push(line)?;
    Octets::take(alloc, &mut joined)
}

/// Appends octets to the list, unless they are empty.
fn add(added: &mut Vec<Rest>, octets: Octets) -> Result<(), AllocError>
    requires were { All IsSome added.old.items }
    ensures ok { OnOk result (joined added.new.items ≡ joined added.old.items ++ octets) }
    ensures some { All IsSome added.new.items }
{
    if !octets.is_empty() {
        added.push(Rest::new(octets))?;
    }
    Ok(())
}

/// Appends the contents of documents to the list.
fn add_all(added: &mut Vec<Rest>, documents: &[Document]) -> Result<(), AllocError>
    requires were { All IsSome added.old.items }
    ensures ok { OnOk result (joined added.new.items ≡ joined added.old.items ++ flat_map (λ d. d.contents) documents.now) }
    ensures some { All IsSome added.new.items }
{
    for document in documents {
        add(added, document.contents.share()?)?;
    }
    Ok(())
}

/// Appends an IPP reply. The only error is out of memory, where the room is too small; nothing is appended
/// then.
#[tactic(auto, unfolding(crate::specs::Reply::http_reply))]
fn append_reply(output: &mut Vec<u8>, closes: bool, bytes: &[u8]) -> Result<(), AllocError>
    ensures ok { OnOk result (output.new.items ≡ output.old.items ++ http_reply closes bytes.now) }
    ensures err { OnErr result (output.new.items ≡ output.old.items) }
    ensures full { OnErr result (vec_capacity output.old < vec_len output.old + length (http_reply closes bytes.now)) }
    ensures capacity { vec_capacity output.old ≤ vec_capacity output.new }
{
    let before = output.len();
    write_reply_head(bytes.len(), closes, output)?;
    let appended = output.extend_from_slice(bytes);
    if appended.is_err() {
        output.truncate(before);
    }
    appended
}

/// Appends the reply to a refused request. The only error is out of memory, where the room is too small;
/// nothing is appended then.
#[tactic(auto, unfolding(crate::specs::Reply::refusal_head))]
fn append_refusal(output: &mut Vec<u8>, refusal: HttpRejection) -> Result<(), AllocError>
    ensures ok { OnOk result (output.new.items ≡ output.old.items ++ refusal_head refusal) }
    ensures err { OnErr result (output.new.items ≡ output.old.items) }
    ensures full { OnErr result (vec_capacity output.old < vec_len output.old + length (refusal_head refusal)) }
    ensures capacity { vec_capacity output.old ≤ vec_capacity output.new }
{
    write_refusal_head(refusal, output)
}
