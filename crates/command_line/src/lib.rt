//! The program's command line.
//!
//! The crate promises that it is safe and ends, and no more: `clap` reads the words, and writes the texts of
//! `--help` and of errors. The crate opens no file, listens at no port and writes nothing.
//!
//! Its tests are in `unit_tests`.
#![tactic(auto)]

mod attach_words;
mod command;
mod doors;
mod page_words;
mod read;
mod simulate_words;
mod subcommand;
mod words;
mod words_error;

pub use attach_words::Attaching;
pub use page_words::Paging;
pub use read::{VERSION, read_words};
pub use simulate_words::{Addition, Simulating};
pub use subcommand::{AboutSettings, Drawn, Log, Replaying, Serving, Spooling, Subcommand};
pub use words_error::WordsError;
