//! Streams that come in two segments, cut at each byte in turn: what comes of them stays the same.

use program::ExitStatus;
use replay::run_replay;
use std::alloc::{AllocError, Global};

/// An example of one connection, whose peer sends all in one segment.
pub struct CutStream {
    pub input: &'static str,
    pub output: &'static str,
}

pub const STREAMS: [CutStream; 5] = [
    CutStream {
        input: "malformed_at_once.trace",
        output: "malformed_at_once.out",
    },
    CutStream {
        input: "exchange_at_once.trace",
        output: "exchange_at_once.out",
    },
    CutStream {
        input: "chunked_at_once.trace",
        output: "chunked_at_once.out",
    },
    CutStream {
        input: "lpd_at_once.trace",
        output: "lpd_at_once.out",
    },
    CutStream {
        input: "documents_at_once.trace",
        output: "documents_at_once.out",
    },
];

/// How the line begins that has all that the peer sends, as that of each of its segments.
const SENT: &[u8] = b"in 1 ";

/// How a line begins that has bytes that the peer gets.
const GOT: &[u8] = b"out 1 ";

/// Appends a line.
fn put_line(text: &mut Vec<u8>, line: &[u8]) -> Result<(), AllocError> {
    text.extend_from_slice(line)?;
    text.push(b'\n')?;
    Ok(())
}

/// Appends a line, which is cut in two after so many of its characters if it has all that the peer sends.
fn put_cut(text: &mut Vec<u8>, line: &[u8], place: usize) -> Result<(), AllocError> {
    match line.split_at_checked(place) {
        Some((prefix, back)) if line.starts_with(SENT) => {
            put_line(text, prefix)?;
            text.extend_from_slice(SENT)?;
            put_line(text, back)
        }
        _ => put_line(text, line),
    }
}

/// The trace, in which the line that has all that the peer sends is cut in two after so many of its
/// characters.
fn in_two_segments(alloc: Global, trace: &[u8], place: usize) -> Result<Vec<u8>, AllocError> {
    let mut text = Vec::new(alloc);
    for line in trace.trim_ascii_end().split(|byte| *byte == b'\n') {
        put_cut(&mut text, line, place)?;
    }
    Ok(text)
}

/// Appends a line to what happens, or what the peer got by it to all that it got.
fn put_joined(text: &mut Vec<u8>, got: &mut Vec<u8>, line: &[u8]) -> Result<(), AllocError> {
    match line.strip_prefix(GOT) {
        Some(bytes) => got.extend_from_slice(bytes),
        None => put_line(text, line),
    }
}

/// What happens by an output, and then all that the peer got, however often it got some.
fn joined(alloc: Global, output: &[u8]) -> Result<Vec<u8>, AllocError> {
    let mut text = Vec::new(alloc);
    let mut got = Vec::new(alloc);
    for line in output.split(|byte| *byte == b'\n') {
        put_joined(&mut text, &mut got, line)?;
    }
    text.extend_from_slice(&got)?;
    Ok(text)
}

/// The output of a trace that is played to its end; nothing, if it isn't.
fn joined_output(alloc: Global, trace: &[u8]) -> Result<Option<Vec<u8>>, AllocError> {
    let mut output = Vec::new(alloc);
    let mut input = trace;
    match run_replay(alloc, &mut input, &mut output, false).status {
        ExitStatus::Done => Ok(Some(joined(alloc, &output)?)),
        _ => Ok(None),
    }
}

/// How many bytes the peer sends.
fn sent_in(trace: &[u8]) -> usize {
    for line in trace.split(|byte| *byte == b'\n') {
        if let Some(digits) = line.strip_prefix(SENT) {
            return digits.len() / 2;
        }
    }
    0
}

/// Whether the output is exactly this, wherever the bytes are split in two.
pub fn stays_in_two_segments(
    alloc: Global,
    trace: &[u8],
    wanted: &[u8],
) -> Result<bool, AllocError> {
    let wanted = joined(alloc, wanted)?;
    for count in 1..sent_in(trace) {
        let place = count.saturating_mul(2).saturating_add(SENT.len());
        let cut = in_two_segments(alloc, trace, place)?;
        match joined_output(alloc, &cut)? {
            Some(found) if found == wanted => {}
            _ => return Ok(false),
        }
    }
    Ok(sent_in(trace) > 1)
}
