//! The engine of a server: the core, and the connections over a wire.
//!
//! [`Engine::turn`] polls each door and each connection: it accepts, reads, acts on the items that are whole,
//! writes the waiting bytes, and closes. Its contract states which bytes are due on which connection after a
//! turn, whatever the results of the polls are.
//!
//! Calls between turns need no wire: [`Engine::serve_body`], [`Engine::report`] and [`Engine::tick`].
//!
//! Tests: `unit_tests`.
#![tactic(auto)]

mod acting;
mod answering;
mod between;
mod closings;
mod due;
mod engine;
mod handling;
mod hello;
mod law;
mod note_log;
mod polls;
mod served;
mod starting;
mod ticks;
mod turns;
mod world;

pub use engine::Engine;
pub use law::{action_is_one_event, closed_were_given, last_words_are_kept, trace_is_one_run};
pub use note_log::{LoggedNote, NoteLog};
pub use served::Served;
pub use ticks::TICK_TIME;
