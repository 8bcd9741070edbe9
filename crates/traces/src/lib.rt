//! The text of a trace: its settings, its lines and their content, and the lines that are printed when it is
//! played.
//!
//! [`split_settings`] cuts a trace at its line `.`, [`next_line`] takes one line, and [`read_line`] reads it:
//! a moment, a body of IPP, a device's report, a tick, or the bytes of a connection. The printed lines are
//! the replies, the cancels, the plans and the starts, and the bytes that the peer of each connection got.
//! The connections of a trace have numbers of the trace's own. [`Peers`] has them, and the peers, which are
//! in memory ([`wires::MemoryWire`]) and send the bytes of the trace. `docs/TRACES.md` describes each line.
//!
//! The playing of a trace, and so the order of the printed lines, is in other crates. Examples: the
//! traces in `crates/play_examples/data`.
#![tactic(auto)]

mod line;
mod line_fault;
mod lines;
mod peers;
mod print;
mod wire;

pub use line::{Input, Line, Opening, read_line};
pub use line_fault::{LineFault, form_fault};
pub use lines::{CutLine, CutTrace, next_line, split_settings};
pub use peers::{Connection, Peers};
pub use print::{put_cancel, put_dispatch, put_gone, put_out, put_reply};
pub use wire::TraceWire;
