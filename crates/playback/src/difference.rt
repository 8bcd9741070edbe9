//! The lines for a difference: the server made a call that isn't the recorded one.

use base_types::Moment;
use recordings::{Divergence, Entry, Sent, ServerCall, put_entry, put_turn};
use std::alloc::{AllocError, Global};
use traces::put_out;
use wires::WireId;

/// The connection of a line.
fn connection_of(entry: &Entry) -> Option<WireId> {
    match entry {
        Entry::Accepted(accepted) => Some(accepted.id),
        Entry::Came(came) | Entry::Octets(came) => Some(came.id),
        Entry::Zeros(came) => Some(came.id),
        Entry::Sent(sent) => Some(sent.id),
        Entry::Ended(id)
        | Entry::Failed(id)
        | Entry::Shut(id)
        | Entry::Broken(id)
        | Entry::Closed(id) => Some(*id),
        Entry::Refused | Entry::Restarted | Entry::Turn(_) => None,
    }
}

/// The connection of a call.
fn connection_in(did: &ServerCall) -> Option<WireId> {
    match did {
        ServerCall::Closes(id) => Some(*id),
        ServerCall::Sends { sent, .. } => Some(sent.id),
        ServerCall::ReadsLess(id) => Some(*id),
        ServerCall::Nothing | ServerCall::Unknown => None,
    }
}

/// The connection of a difference.
fn connection_at(stray: &Divergence) -> Option<WireId> {
    if let Some(id) = connection_in(&stray.did) {
        return Some(id);
    }
    match &stray.wanted {
        Some(line) => connection_of(&line.entry),
        None => None,
    }
}

/// Appends the recorded line.
fn put_wanted(output: &mut Vec<u8>, stray: &Divergence, moment: Moment) -> Result<(), AllocError> {
    output.extend_from_slice(b"was ")?;
    match &stray.wanted {
        Some(line) => put_entry(output, &line.entry),
        None => put_turn(output, moment),
    }
}

/// Appends the line of the server's write, and a line with the bytes.
fn put_sends(
    alloc: Global,
    output: &mut Vec<u8>,
    sent: Sent,
    bytes: &[u8],
) -> Result<(), AllocError> {
    put_entry(output, &Entry::Sent(sent))?;
    if bytes.is_empty() {
        return Ok(());
    }
    put_out(alloc, output, u64::from(sent.id), bytes)
}

/// Appends the lines of the server's call.
fn put_call(
    alloc: Global,
    output: &mut Vec<u8>,
    did: &ServerCall,
    moment: Moment,
) -> Result<(), AllocError> {
    output.extend_from_slice(b"is ")?;
    match did {
        ServerCall::Nothing => put_turn(output, moment),
        ServerCall::Closes(id) => put_entry(output, &Entry::Closed(*id)),
        ServerCall::Sends { sent, bytes } => put_sends(alloc, output, *sent, bytes),
        ServerCall::ReadsLess(_) => output.extend_from_slice(b"fewer bytes\n"),
        ServerCall::Unknown => output.extend_from_slice(b"out of memory\n"),
    }
}

/// Appends the difference in a turn at a moment, which ends with the line of this number: the recorded line,
/// and the server's call in its place.
pub(crate) fn put_difference(
    alloc: Global,
    output: &mut Vec<u8>,
    stray: &Divergence,
    number: u64,
    moment: Moment,
) -> Result<(), AllocError> {
    let line = match &stray.wanted {
        Some(wanted) => wanted.number,
        None => number,
    };
    let millis = moment.millis();
    let head = match connection_at(stray) {
        Some(id) => format!(in alloc; "differs line {line} at {millis} connection {id}\n")?,
        None => format!(in alloc; "differs line {line} at {millis}\n")?,
    };
    output.extend_from_slice(head.as_bytes())?;
    put_wanted(output, stray, moment)?;
    put_call(alloc, output, &stray.did, moment)
}
