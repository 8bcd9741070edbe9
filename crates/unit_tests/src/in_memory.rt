//! Clients over a wire in memory.
use crate::exchanges::{
    BOTH_FRAMINGS, CHUNKED, Exchange, LAST, NOT_POST, PLAIN, SETTINGS, SHORT_BODY, TWO,
};
use base_types::Moment;
use plan_solver::AugmentingPaths;
use server::{Engine, NoteLog};
use settings_file::read_settings;
use std::alloc::{AllocError, Global};
use std::test::Fail;
use wires::{Door, MemoryPeer, MemoryWire};

const EXCHANGES: [Exchange; 7] = [
    PLAIN,
    CHUNKED,
    LAST,
    TWO,
    BOTH_FRAMINGS,
    NOT_POST,
    SHORT_BODY,
];

/// The sizes of the segments: the bytes of a read, and the bytes of a write.
pub(crate) const CUTS: [(usize, usize); 3] = [(4096, 4096), (7, 3), (1, 1)];

/// The turns that suffice for any of the exchanges, a byte at a time.
pub(crate) const TURNS: usize = 1000;

/// Runs turns of a server that has just started, over this wire; its notes go to `notes`.
pub(crate) fn serve(
    alloc: Global,
    wire: &mut MemoryWire,
    notes: &mut NoteLog,
    turns: usize,
) -> bool {
    let Ok(settings) = read_settings(alloc, SETTINGS) else {
        return false;
    };
    let Ok(mut engine) = Engine::new(alloc, settings, AugmentingPaths::new(alloc)) else {
        return false;
    };
    for _turn in 0..turns {
        engine.turn(wire, notes, Moment::start());
    }
    true
}

/// A client that sends these octets at a door, and whose input stays open.
pub(crate) fn client(
    alloc: Global,
    door: Door,
    sent: &[u8],
    cut: (usize, usize),
) -> Result<MemoryPeer, AllocError> {
    let input = Vec::from_slice(alloc, sent)?;
    Ok(MemoryPeer::new(alloc, door, input, cut.0, cut.1))
}

/// A wire with clients of the IPP door that send these octets.
fn clients(
    alloc: Global,
    streams: &[&[u8]],
    cut: (usize, usize),
) -> Result<MemoryWire, AllocError> {
    let mut peers = Vec::new(alloc);
    for sent in streams {
        peers.push(client(alloc, Door::Ipp, sent, cut)?)?;
    }
    Ok(MemoryWire::new(peers))
}

/// Returns whether exactly these bytes were taken for a peer.
pub(crate) fn got(wire: &MemoryWire, place: usize, bytes: &[u8]) -> bool {
    match wire.peers.get(place) {
        Some(peer) => peer.taken.as_slice() == bytes,
        None => false,
    }
}

/// Returns whether the connection of a peer was given up.
pub(crate) fn is_closed(wire: &MemoryWire, place: usize) -> bool {
    match wire.peers.get(place) {
        Some(peer) => peer.closed,
        None => false,
    }
}

/// Returns whether a client gets exactly its answer from a server that has just started, and is closed
/// exactly where it is to be.
fn is_answered(alloc: Global, exchange: Exchange, cut: (usize, usize)) -> Result<bool, AllocError> {
    let mut wire = clients(alloc, &[exchange.sent], cut)?;
    let mut notes = NoteLog::new(alloc);
    Ok(
        serve(alloc, &mut wire, &mut notes, TURNS)
            && got(&wire, 0, exchange.answered)
            && is_closed(&wire, 0) == exchange.closes,
    )
}

/// Each client gets its answer, and the connection closes where it is to close, for each size of the segments.
#[test]
fn exchanges_in_segments(rt: HostRuntime) -> Result<(), Fail> {
    for &exchange in &EXCHANGES {
        for &cut in &CUTS {
            let answered = is_answered(rt.alloc(), exchange, cut)?;
            assert!(rt; answered);
        }
    }
    Ok(())
}

/// Returns whether a prefix of an answer was taken, and all of the answer unless the connection is closed.
fn is_prefix(wire: &MemoryWire, answered: &[u8]) -> bool {
    match wire.peers.first() {
        Some(peer) => answered.starts_with(peer.taken.as_slice())
            && (peer.closed || peer.taken.as_slice() == answered),
        None => false,
    }
}

/// Returns whether a client got a prefix of its answer where a poll faults, and was closed unless it got all
/// of the answer.
fn is_cut_off(alloc: Global, fault_at: u64) -> Result<bool, AllocError> {
    let mut wire = clients(alloc, &[PLAIN.sent], (64, 100))?;
    wire.fault_at = fault_at;
    let mut notes = NoteLog::new(alloc);
    Ok(serve(alloc, &mut wire, &mut notes, 60) && is_prefix(&wire, PLAIN.answered))
}

/// A fault at any poll: the octets taken are a prefix of the octets due, and the connection with the fault is
/// closed.
#[test]
fn fault_at_each_poll(rt: HostRuntime) -> Result<(), Fail> {
    for fault_at in 0..40 {
        let cut_off = is_cut_off(rt.alloc(), fault_at)?;
        assert!(rt; cut_off);
    }
    Ok(())
}

/// Returns whether at most one of three clients, whose answers don't depend on one another, doesn't get its
/// whole answer where a poll faults.
fn others_are_whole(alloc: Global, fault_at: u64) -> Result<bool, AllocError> {
    let mut wire = clients(
        alloc,
        &[PLAIN.sent, NOT_POST.sent, SHORT_BODY.sent],
        (64, 100),
    )?;
    wire.fault_at = fault_at;
    let mut notes = NoteLog::new(alloc);
    let served = serve(alloc, &mut wire, &mut notes, 60);
    let first = got(&wire, 0, PLAIN.answered);
    let second = got(&wire, 1, NOT_POST.answered);
    let third = got(&wire, 2, SHORT_BODY.answered);
    Ok(served && (first || second) && (second || third) && (first || third))
}

/// A fault at any poll: every other connection gets all octets due.
#[test]
fn others_at_a_fault(rt: HostRuntime) -> Result<(), Fail> {
    for fault_at in 0..60 {
        let whole = others_are_whole(rt.alloc(), fault_at)?;
        assert!(rt; whole);
    }
    Ok(())
}

/// A wire with a client that sends more requests than replies may wait and takes no reply, and a client with
/// a request that is not for printing.
fn slow_and_quick(alloc: Global) -> Result<MemoryWire, AllocError> {
    let mut sent = Vec::new(alloc);
    for _request in 0..400 {
        sent.extend_from_slice(PLAIN.sent)?;
    }
    let mut wire = clients(alloc, &[sent.as_slice(), NOT_POST.sent], (4096, 4096))?;
    if let Some(slow) = wire.peers.first_mut() {
        slow.most = 0;
    }
    Ok(wire)
}

/// The number of octets of the slow client that are not read; `None` where the quick client has no answer.
fn left_of_slow(alloc: Global) -> Result<Option<usize>, AllocError> {
    let mut wire = slow_and_quick(alloc)?;
    let mut notes = NoteLog::new(alloc);
    if !serve(alloc, &mut wire, &mut notes, 60) || !got(&wire, 1, NOT_POST.answered) {
        return Ok(None);
    }
    Ok(wire.peers.first().map(|peer| peer.input.len()))
}

/// A client for which more than 65,536 bytes wait isn't read: of its 400 requests, some 280 are read.
#[test]
fn slow_client_isnt_read(rt: HostRuntime) -> Result<(), Fail> {
    let left = left_of_slow(rt.alloc())?;
    assert!(rt; matches!(left, Some(20_000..=30_000)));
    Ok(())
}
