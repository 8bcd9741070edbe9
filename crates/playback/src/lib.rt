//! The player of recorded days: the server takes its turns again, over a wire that answers as the sockets
//! did.
//!
//! [`play`] writes the bytes that each connection got, the plans, the starts and the cancels; or the lines of
//! a log; or it compares the bytes with the recorded bytes and writes only whether they are the same. Nothing
//! is proved of it, except that it is safe and ends. The contract of a server over a wire is in `server`, and
//! the content of a line in `recordings`.
//!
//! A [`Follower`] plays the turns of a day one after the other as their bytes arrive, and lets its caller look at the
//! queue after each.
//!
//! Examples: the recorded traces in `crates/play_examples/data`.
#![tactic(auto)]

mod arriving;
mod beginning;
mod difference;
mod fault;
mod follower;
mod observation;
mod player;
mod playing;
mod turning;
mod written;

pub use beginning::{Peeked, Whole, peek};
pub use fault::DayFault;
pub use follower::Follower;
pub use playing::{Played, Shows, play};
pub use written::{Written, as_written};
