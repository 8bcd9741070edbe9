//! A server over the system's sockets.
//!
//! A [`Server`] takes turns over sockets that listen at the three doors. [`serve`] takes a given number of
//! turns by the clock, waits while nothing happens, and writes the log and the [`Tape`] of a recording where
//! there are such; the lines are `server_log`'s.
//! [`serve_journaled`] serves with a journal: its turns send nothing, or only what was due by stored turns.
//!
//! A server starts at the empty trace. The calls that a turn made of the sockets are exactly those of the next
//! turn of its trace, and nothing but a turn calls the sockets' wire ([`turns_are_one_trace`]). Each call is
//! noted while the turns are recorded. The contracts of the sockets are in `sockets`, and those of an engine
//! over any wire in `server`.
//!
//! Tests: `unit_tests`.
#![tactic(auto)]

mod busy_poll;
mod clock;
mod journaled_run;
mod journaling;
mod law;
mod observation_flags;
mod pace;
mod recorder;
mod run;
mod serving;

pub use journaled_run::{Ended, serve_journaled};
pub use law::turns_are_one_trace;
pub use recorder::Tape;
pub use run::{Recording, serve};
pub use serving::Server;
