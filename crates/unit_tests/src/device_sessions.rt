//! Devices over a wire in memory: the octets they write, and the octets they get.
use crate::exchanges::PLAIN;
use crate::in_memory::{CUTS, TURNS, client, got, is_closed, serve};
use server::NoteLog;
use std::alloc::{AllocError, Global};
use std::test::Fail;
use wires::{Door, MemoryWire};

/// The octets that a device writes to a server that has just started, to which a client prints, and the
/// octets that the device gets.
#[derive(Clone, Copy)]
struct DeviceSession {
    written: &'static [u8],
    got: &'static [u8],
    /// Whether the server closes the connection.
    closes: bool,
}

/// The lines of a running device.
const GREETING: &[u8] = b"HELLO A\nREADY\n";

/// The lines of a device that reports the end of its job early, a turn later.
const EARLY: &[u8] = b"HELLO A\nREADY\nDONE 1\n";

/// The bytes of the client's job.
const JOB: &[u8] = b"JOB 1 5 1 1 iso_a4_210x297mm\nhello";

const SESSIONS: [DeviceSession; 8] = [
    // The device runs, and gets the job.
    DeviceSession {
        written: b"HELLO A\nREADY\n",
        got: JOB,
        closes: false,
    },
    // The device reports the end of the job, or its failure, before all of the job went out.
    DeviceSession {
        written: b"HELLO A\r\nREADY\r\nPAGES 1 1\r\nDONE 1\r\n",
        got: JOB,
        closes: false,
    },
    DeviceSession {
        written: b"HELLO A\nREADY\nFAIL 1\n",
        got: JOB,
        closes: false,
    },
    // The device doesn't run, or has another medium than the job's.
    DeviceSession {
        written: b"HELLO A\n",
        got: b"",
        closes: false,
    },
    DeviceSession {
        written: b"HELLO A\nMEDIA\nREADY\n",
        got: b"",
        closes: false,
    },
    // No device has this name.
    DeviceSession {
        written: b"HELLO B\nREADY\n",
        got: b"",
        closes: true,
    },
    // The name has to come first, and once.
    DeviceSession {
        written: b"READY\n",
        got: b"",
        closes: true,
    },
    DeviceSession {
        written: b"HELLO A\nHELLO A\n",
        got: b"",
        closes: true,
    },
];

/// A wire with a client that prints, and devices that write these octets.
pub(crate) fn print_room(
    alloc: Global,
    printed: &[u8],
    written: &[&[u8]],
    cut: (usize, usize),
) -> Result<MemoryWire, AllocError> {
    let mut peers = Vec::new(alloc);
    peers.push(client(alloc, Door::Ipp, printed, cut)?)?;
    for lines in written {
        peers.push(client(alloc, Door::Devices, lines, cut)?)?;
    }
    Ok(MemoryWire::new(peers))
}

/// Returns whether a device gets exactly the octets it is to get, and whether it is closed exactly where it
/// is to be.
fn is_kept(alloc: Global, session: DeviceSession, cut: (usize, usize)) -> Result<bool, AllocError> {
    let mut wire = print_room(alloc, PLAIN.sent, &[session.written], cut)?;
    let mut notes = NoteLog::new(alloc);
    Ok(
        serve(alloc, &mut wire, &mut notes, TURNS)
            && got(&wire, 0, PLAIN.answered)
            && got(&wire, 1, session.got)
            && is_closed(&wire, 1) == session.closes,
    )
}

/// The octets of the sessions are cut in several ways.
#[test]
fn sessions_in_segments(rt: HostRuntime) -> Result<(), Fail> {
    for &session in &SESSIONS {
        for &cut in &CUTS {
            let kept = is_kept(rt.alloc(), session, cut)?;
            assert!(rt; kept);
        }
    }
    Ok(())
}

/// A wire with a client that prints, and a device that writes these lines, one a turn, and takes three bytes
/// a turn.
fn slow_device(alloc: Global, lines: &[u8]) -> Result<MemoryWire, AllocError> {
    let mut wire = print_room(alloc, PLAIN.sent, &[lines], (4096, 4096))?;
    if let Some(device) = wire.peers.get_mut(1) {
        device.segment = GREETING.len();
        device.most = 3;
    }
    Ok(wire)
}

/// Returns whether a device that reports the end of its job after three of the job's bytes gets the rest of
/// the bytes, once.
fn gets_the_rest(alloc: Global) -> Result<bool, AllocError> {
    let mut notes = NoteLog::new(alloc);
    let mut begun = slow_device(alloc, EARLY)?;
    let mut wire = slow_device(alloc, EARLY)?;
    Ok(
        serve(alloc, &mut begun, &mut notes, 1)
            && got(&begun, 1, b"JOB")
            && serve(alloc, &mut wire, &mut notes, 21)
            && got(&wire, 1, JOB)
            && !is_closed(&wire, 1),
    )
}

#[test]
fn early_done(rt: HostRuntime) -> Result<(), Fail> {
    let rest = gets_the_rest(rt.alloc())?;
    assert!(rt; rest);
    Ok(())
}

/// A wire with a slow device whose input ends after its greeting, a device that gives the same name a turn
/// later, and another client that prints.
fn newcomer(alloc: Global) -> Result<MemoryWire, AllocError> {
    let mut wire = slow_device(alloc, GREETING)?;
    if let Some(device) = wire.peers.get_mut(1) {
        device.ended = true;
    }
    let whole = (4096, 4096);
    let peers = &mut wire.peers;
    peers.push(client(alloc, Door::Devices, GREETING, whole)?)?;
    peers.push(client(alloc, Door::Ipp, PLAIN.sent, whole)?)?;
    Ok(wire)
}

/// Returns whether a device whose input has ended while its job waits loses its name to a device that gives
/// the name: the connection of the first device is given up, and the second device gets the next job.
fn comes_again(alloc: Global) -> Result<bool, AllocError> {
    let mut wire = newcomer(alloc)?;
    let mut notes = NoteLog::new(alloc);
    Ok(
        serve(alloc, &mut wire, &mut notes, 6)
            && is_closed(&wire, 1)
            && !is_closed(&wire, 2)
            && got(&wire, 2, b"JOB 2 5 1 1 iso_a4_210x297mm\nhello"),
    )
}

#[test]
fn name_taken_over(rt: HostRuntime) -> Result<(), Fail> {
    let again = comes_again(rt.alloc())?;
    assert!(rt; again);
    Ok(())
}

/// Returns whether a device got a prefix of the job, and all of the job unless a connection is closed.
fn is_prefix(wire: &MemoryWire) -> bool {
    match wire.peers.get(1) {
        Some(peer) => JOB.starts_with(peer.taken.as_slice())
            && (peer.closed || peer.taken.as_slice() == JOB || is_closed(wire, 0)),
        None => false,
    }
}

fn is_cut_off(alloc: Global, fault_at: u64) -> Result<bool, AllocError> {
    let lines = b"HELLO A\nREADY\n".as_slice();
    let mut wire = print_room(alloc, PLAIN.sent, &[lines], (64, 10))?;
    wire.fault_at = fault_at;
    let mut notes = NoteLog::new(alloc);
    Ok(serve(alloc, &mut wire, &mut notes, 60) && is_prefix(&wire))
}

/// A fault at any poll: the octets taken are a prefix of the octets due.
#[test]
fn fault_at_each_poll(rt: HostRuntime) -> Result<(), Fail> {
    for fault_at in 0..60 {
        let cut_off = is_cut_off(rt.alloc(), fault_at)?;
        assert!(rt; cut_off);
    }
    Ok(())
}
