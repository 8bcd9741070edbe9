//! The input of an LPD client (RFC 1179): commands, subcommands and files, read from a stream that comes in
//! chunks of any length; the control files that describe jobs; and the sessions that send them (section 6).
//!
//! An [`LpdReader`] gives exactly the items of the whole stream that it was fed, in order, and then the first
//! fault. After a command other than that to receive a job, it drops the bytes that it is fed. It lends each
//! file until the next call. A [`Session`] collects the files that a client sends. It gives the job of a
//! control file, once all files that the control file prints are there: with one document for each print
//! line, whose memory the job and the session share. The crate writes no replies, and doesn't print.
//!
//! Examples: the traces in `crates/play_examples/data`.
#![tactic(auto)]

mod command;
mod control;
mod control_line;
mod fault;
mod file;
mod file_name;
mod item;
mod law;
mod pending;
mod reader;
mod sent;
mod session;
mod words;

pub use fault::{LpdError, LpdFault};
pub use item::{FileHead, FileKind, LpdCommand, LpdItem};
pub use law::{given_first, one_parse, one_prefix, parse_stays};
pub use reader::LpdReader;
pub use sent::SentJob;
pub use session::Session;
