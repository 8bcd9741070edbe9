//! LPD clients over a wire in memory: the octets they send, and the answers they get (RFC 1179, sections 5
//! and 6).
use crate::in_memory::{CUTS, TURNS, client, got, is_closed, serve};
use server::NoteLog;
use std::alloc::{AllocError, Global};
use std::test::Fail;
use wires::{Door, MemoryWire};

/// The octets that a client sends to a server that has just started, and the answers.
#[derive(Clone, Copy)]
pub struct LpdSession {
    pub sent: &'static [u8],
    pub answered: &'static [u8],
    /// Whether the server closes the connection.
    closes: bool,
}

/// A job of one file, the control file first.
pub const ONE_JOB: LpdSession = LpdSession {
    sent: b"\x02lab\n\x0223 cfA001host\nHhost\nPann\nfdfA001host\n\x00\x035 dfA001host\nhello\x00",
    answered: b"\x00\x00\x00\x00\x00",
    closes: false,
};

const SESSIONS: [LpdSession; 12] = [
    ONE_JOB,
    // The data file comes first.
    LpdSession {
        sent: b"\x02lab\n\x035 dfA001host\nhello\x00\x0223 cfA001host\nHhost\nPann\nfdfA001host\n\x00",
        answered: b"\x00\x00\x00\x00\x00",
        closes: false,
    },
    // A control file without an owner isn't kept, and the session goes on. An abort has no answer.
    LpdSession {
        sent: b"\x02lab\n\x0218 cfA001host\nHhost\nfdfA001host\n\x00\x01\n\x035 dfA001host\nhello\x00",
        answered: b"\x00\x00\x01\x00\x00",
        closes: false,
    },
    // An unknown command, an unknown queue, and a command without anything to do.
    LpdSession {
        sent: b"\x09lab\n",
        answered: b"\x01",
        closes: true,
    },
    LpdSession {
        sent: b"\x02shop\n",
        answered: b"\x01",
        closes: true,
    },
    LpdSession {
        sent: b"\x01lab\n\x03lab\n",
        answered: b"",
        closes: true,
    },
    LpdSession {
        sent: b"\x03shop\n\x02lab\n",
        answered: b"no queue\n",
        closes: true,
    },
    // An empty file, a name of another kind, files that are too large, and a file without its end.
    LpdSession {
        sent: b"\x02lab\n\x030 dfA001host\n",
        answered: b"\x00\x01",
        closes: true,
    },
    LpdSession {
        sent: b"\x02lab\n\x023 xfA001host\n",
        answered: b"\x00\x01",
        closes: true,
    },
    LpdSession {
        sent: b"\x02lab\n\x0265537 cfA001host\n",
        answered: b"\x00\x01",
        closes: true,
    },
    LpdSession {
        sent: b"\x02lab\n\x0316777217 dfA001host\n",
        answered: b"\x00\x01",
        closes: true,
    },
    LpdSession {
        sent: b"\x02lab\n\x0223 cfA001host\nHhost\nPann\nfdfA001host\n\x01",
        answered: b"\x00\x00\x01",
        closes: true,
    },
];

/// Returns whether a client gets exactly its answers, and is closed exactly where it is to be.
fn is_answered(
    alloc: Global,
    session: LpdSession,
    cut: (usize, usize),
) -> Result<bool, AllocError> {
    let mut peers = Vec::new(alloc);
    peers.push(client(alloc, Door::Lpd, session.sent, cut)?)?;
    let mut wire = MemoryWire::new(peers);
    let mut notes = NoteLog::new(alloc);
    Ok(
        serve(alloc, &mut wire, &mut notes, TURNS)
            && got(&wire, 0, session.answered)
            && is_closed(&wire, 0) == session.closes,
    )
}

/// The octets of the sessions are cut in several ways.
#[test]
fn lpd_sessions_in_segments(rt: HostRuntime) -> Result<(), Fail> {
    for &session in &SESSIONS {
        for &cut in &CUTS {
            let answered = is_answered(rt.alloc(), session, cut)?;
            assert!(rt; answered);
        }
    }
    Ok(())
}

/// Returns whether a client got a prefix of its answers where a poll faults, and was closed unless it got all
/// answers.
fn is_cut_off(alloc: Global, fault_at: u64) -> Result<bool, AllocError> {
    let mut peers = Vec::new(alloc);
    peers.push(client(alloc, Door::Lpd, ONE_JOB.sent, (16, 1))?)?;
    let mut wire = MemoryWire::new(peers);
    wire.fault_at = fault_at;
    let mut notes = NoteLog::new(alloc);
    let turned = serve(alloc, &mut wire, &mut notes, 60);
    match wire.peers.first() {
        Some(peer) => Ok(
            turned
                && ONE_JOB.answered.starts_with(peer.taken.as_slice())
                && (peer.closed || peer.taken.as_slice() == ONE_JOB.answered),
        ),
        None => Ok(false),
    }
}

/// A fault at any poll: the octets taken are a prefix of the octets due.
#[test]
fn lpd_fault_at_each_poll(rt: HostRuntime) -> Result<(), Fail> {
    for fault_at in 0..40 {
        let cut_off = is_cut_off(rt.alloc(), fault_at)?;
        assert!(rt; cut_off);
    }
    Ok(())
}
