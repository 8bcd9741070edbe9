//! The player of traces: a server acts on the lines of a trace, and the result is printed.
//!
//! The main function is [`run_replay`]. For each input its contract determines the output and the exit
//! status: those of a server that acts on the lines, over a wire in memory whose peers send the bytes of
//! the trace. For a trace that is refused it returns the reason, which is printed as a sentence. If no
//! line is about a connection, the output is that of one run of the core over the events of the lines
//! ([`lines_are_one_run`]). The contract of the server is in `server`. The crate reads no command line.
//! Examples: the traces in `crates/play_examples/data`.
#![tactic(auto)]

mod law;
mod log;
mod objection;
mod play;
mod run;

pub use law::lines_are_one_run;
pub use objection::Objection;
pub use run::{Replayed, run_replay};
