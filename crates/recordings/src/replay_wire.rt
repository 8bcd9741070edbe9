//! A wire that plays the calls of a recorded turn.
ghost use Rattle.std.specs.Prelude.{◌≡◌, ◌<◌, ◌≤◌, ◌+◌, ℕ, length, IsTrue, IsFalse};
ghost use Rattle.std.specs.Io.Slices.{io_slices_bytes};
ghost use Rattle.wires.specs.Poll.{IsCount, HasCause};

use crate::entry::{Accepted, Came, Entry, Sent};
use crate::parts::put_prefix;
use crate::sum::sum_of;
use std::alloc::{AllocError, Global};
use std::io::IoSlice;
use std::mem;
use wires::{Door, Progress, Wire, WireId};

/// A line of a turn, with its number in its file.
#[derive(Drop)]
pub struct NumberedEntry {
    pub number: u64,
    pub entry: Entry,
}

/// The bytes that a connection got, or its close.
#[derive(Drop)]
pub enum ReplayedOutput {
    Got { id: WireId, bytes: Vec<u8> },
    Gone(WireId),
}

/// The call of a server that isn't the recorded one.
#[derive(Drop)]
pub enum ServerCall {
    /// The server made no call, up to the end of the turn.
    Nothing,
    /// The server closes a connection.
    Closes(WireId),
    /// The server sends bytes. Those that would be taken are `bytes`, with the sum in `sent`.
    Sends { sent: Sent, bytes: Vec<u8> },
    /// The server reads fewer bytes of a connection than were read.
    ReadsLess(WireId),
    /// Memory was refused to the player.
    Unknown,
}

/// The place where a server makes a call that isn't the recorded one.
#[derive(Drop)]
pub struct Divergence {
    /// The next line, if the turn has one more.
    pub wanted: Option<NumberedEntry>,
    pub did: ServerCall,
}

/// A wire that answers each call by the next line of a turn, if that is the line of such a call. Any other
/// call would have to wait.
#[derive(Drop)]
pub struct ReplayWire {
    alloc: Global,
    /// The lines of the turn.
    lines: Vec<NumberedEntry>,
    /// The number of lines that were played.
    played: usize,
    /// The bytes that connections got, and their closes.
    moved: Vec<ReplayedOutput>,
    /// The first call that isn't the recorded one.
    did: Option<ServerCall>,
    faults: u64,
}

impl ReplayWire {
    /// Creates the script of a turn without lines.
    pub fn new(alloc: Global) -> ReplayWire {
        ReplayWire {
            alloc,
            lines: Vec::new(alloc),
            played: 0,
            moved: Vec::new(alloc),
            did: None,
            faults: 0,
        }
    }

    /// Appends a line of the turn. The only error is out of memory.
    pub fn add(&mut self, number: u64, entry: Entry) -> Result<(), AllocError> {
        self.lines.push(NumberedEntry { number, entry })?;
        Ok(())
    }

    /// The number of the turn's line that states that memory was refused to the server, if there is one.
    pub fn refusal(&self) -> Option<u64> {
        for line in &self.lines {
            if let Entry::Refused = &line.entry {
                return Some(line.number);
            }
        }
        None
    }

    /// Removes and returns the bytes that connections got in the turn, and their closes.
    pub fn take_moved(&mut self) -> Vec<ReplayedOutput> {
        mem::replace(&mut self.moved, Vec::new(self.alloc))
    }

    /// Ends the turn. Returns the place where the server made a call that isn't the recorded one, if it did.
    pub fn end_turn(&mut self) -> Option<Divergence> {
        let lines = mem::replace(&mut self.lines, Vec::new(self.alloc));
        let played = mem::replace(&mut self.played, 0);
        let did = mem::replace(&mut self.did, None);
        let wanted = nth(lines, played);
        match did {
            Some(did) => Some(Divergence { wanted, did }),
            None if wanted.is_some() => Some(Divergence {
                wanted,
                did: ServerCall::Nothing,
            }),
            None => None,
        }
    }

    /// The next line, unless the server made a call that isn't the recorded one.
    fn next(&self) -> Option<&Entry> {
        if self.did.is_some() {
            return None;
        }
        match self.lines.get(self.played) {
            Some(line) => Some(&line.entry),
            None => None,
        }
    }

    /// Goes on to the next line.
    fn pass(&mut self)
        ensures { self.new.faults ≡ self.old.faults }
    {
        self.played = self.played.saturating_add(1);
    }

    /// Records a call that isn't the recorded one.
    fn strays(&mut self, did: ServerCall)
        ensures { self.new.faults ≡ self.old.faults }
    {
        if self.did.is_none() {
            self.did = Some(did);
        }
    }

    /// Counts a fault, unless the count is full. Returns whether it was counted.
    fn counts_fault(&mut self) -> bool
        ensures yes { IsTrue result → self.old.faults < self.new.faults }
        ensures never { IsFalse result → self.new.faults ≡ self.old.faults }
    {
        if self.faults == u64::MAX {
            return false;
        }
        self.faults += 1;
        true
    }

    /// Stores the bytes that a connection got, or its close.
    fn keep(&mut self, moved: ReplayedOutput)
        ensures { self.new.faults ≡ self.old.faults }
    {
        if self.moved.push(moved).is_err() {
            self.strays(ServerCall::Unknown);
        }
    }

    /// Answers a write: the connection gets as many bytes as were recorded, if they are the same.
    fn gets(&mut self, id: WireId, parts: &[IoSlice<'_>], wanted: Sent) -> Progress<usize>
        ensures count { IsCount result (length (io_slices_bytes parts.now)) }
        ensures cause { HasCause self.old.faults self.new.faults result }
    {
        let mut bytes = Vec::new(self.alloc);
        let Ok(count) = put_prefix(&mut bytes, parts, wanted.count) else {
            self.strays(ServerCall::Unknown);
            return Progress::Waiting;
        };
        let sum = match wanted.sum {
            Some(_) => Some(sum_of(&bytes)),
            None => None,
        };
        let sent = Sent { id, count, sum };
        if sent != wanted || count == 0 {
            self.strays(ServerCall::Sends { sent, bytes });
            return Progress::Waiting;
        }
        self.pass();
        self.keep(ReplayedOutput::Got { id, bytes });
        Progress::Done(count)
    }

    /// Answers a read of `count` bytes, if the buffer has room for the bytes that were recorded.
    fn read(&mut self, id: WireId, count: usize) -> Progress<usize>
        ensures count { (room : ℕ) → count ≤ room → IsCount result room }
        ensures cause { HasCause self.old.faults self.new.faults result }
    {
        if count == 0 {
            self.strays(ServerCall::ReadsLess(id));
            return Progress::Waiting;
        }
        self.pass();
        Progress::Done(count)
    }

    /// Answers a call that failed.
    fn fault(&mut self) -> Progress<usize>
        ensures count { (room : ℕ) → IsCount result room }
        ensures cause { HasCause self.old.faults self.new.faults result }
    {
        self.pass();
        if self.counts_fault() {
            Progress::Fault
        } else {
            Progress::Waiting
        }
    }
}

/// Copies bytes, and `zeros` zeros after them, into a buffer. Returns their number, or 0 if there is no room
/// for all of them.
fn read_into(buffer: &mut [u8], bytes: &[u8], zeros: usize) -> usize
    ensures count { result ≤ length buffer.old }
    ensures room { length buffer.new ≡ length buffer.old }
{
    let count = bytes.len().saturating_add(zeros);
    if count > buffer.len() {
        return 0;
    }
    buffer[..bytes.len()].copy_from_slice(bytes);
    buffer[bytes.len()..count].fill(0);
    count
}

/// The element at a place.
fn nth(lines: Vec<NumberedEntry>, place: usize) -> Option<NumberedEntry> {
    lines.into_iter().nth(place)
}

impl Wire for ReplayWire {
    ghost polled = { λ old poll new. Unit {0} };

    ghost faults = { λ s. s.faults };

    fn poll_accept(&mut self, door: Door) -> Progress<WireId> {
        let next = match self.next() {
            Some(Entry::Accepted(accepted)) => *accepted,
            _ => return Progress::Waiting,
        };
        if next.door != door {
            return Progress::Waiting;
        }
        self.pass();
        Progress::Done(next.id)
    }

    fn poll_read(&mut self, id: WireId, buffer: &mut [u8]) -> Progress<usize> {
        match self.next() {
            Some(Entry::Came(came) | Entry::Octets(came)) if came.id == id => {
                let count = read_into(buffer, &came.bytes, 0);
                self.read(id, count)
            }
            Some(Entry::Zeros(came)) if came.id == id => {
                let count = read_into(buffer, &came.bytes, came.zeros);
                self.read(id, count)
            }
            Some(Entry::Ended(ended)) if *ended == id => {
                self.pass();
                Progress::End
            }
            Some(Entry::Failed(failed)) if *failed == id => self.fault(),
            _ => Progress::Waiting,
        }
    }

    fn poll_write(&mut self, id: WireId, bytes: &[IoSlice<'_>]) -> Progress<usize> {
        match self.next() {
            Some(Entry::Sent(sent)) if sent.id == id => {
                let wanted = *sent;
                self.gets(id, bytes, wanted)
            }
            Some(Entry::Shut(shut)) if *shut == id => {
                self.pass();
                Progress::End
            }
            Some(Entry::Broken(broken)) if *broken == id => self.fault(),
            _ => Progress::Waiting,
        }
    }

    fn close(&mut self, id: WireId) {
        match self.next() {
            Some(Entry::Closed(closed)) if *closed == id => {
                self.pass();
                self.keep(ReplayedOutput::Gone(id));
            }
            _ => self.strays(ServerCall::Closes(id)),
        }
    }

    fn failures(&self) -> u64 {
        self.faults
    }
}
