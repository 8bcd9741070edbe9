//! Recordings of days: their lines, a wire that notes its calls, and a wire that plays them.
//!
//! The calls of a server's wire with their answers, and the moments of its turns, determine the bytes that
//! the server writes. [`RecordingWire`] passes each call to another wire and notes it as a line, unless the call
//! would have to wait. [`ReplayWire`] answers each call by the next line, and reports where a server makes
//! another call. `docs/TRACES.md` describes the lines. The server over these wires is in other crates.
//!
//! A recording may leave out the octets of documents. A `Redactor` gets the connections that come and the
//! bytes that are read of each, and leaves out the octets after the attributes in a body of IPP, and the
//! data files in a session of LPD. It reads with the readers of the server, so it finds the same heads as the
//! server. Bytes that the server drops after a fault are left out too.
//!
//! Examples: the recorded traces in `crates/play_examples/data`.
#![tactic(auto)]

mod comments;
mod data;
mod entry;
mod http_stream;
mod lines;
mod lpd_stream;
mod message;
mod note;
mod parts;
mod recorded_lines;
mod recording_wire;
mod redacted_read;
mod redactor;
mod replay_wire;
mod start;
mod sum;
mod write;

pub use comments::are_comments;
pub use entry::{Accepted, Came, CameZeros, Entry, Sent, octets_after, read_entry};
pub use lines::{LineReader, fill};
pub use recording_wire::{RecordedText, RecordingWire};
pub use replay_wire::{Divergence, NumberedEntry, ReplayWire, ReplayedOutput, ServerCall};
pub use start::{Start, read_start};
pub use write::{
    GOES_ON, STARTED, put_base, put_entry, put_goes_on, put_start, put_started, put_turn,
};
