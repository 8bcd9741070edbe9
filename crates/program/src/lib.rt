//! The input and output of a program's run, its settings, and its exit status.
//!
//! [`read_whole`] reads a whole input. [`write_prefix`] writes a prefix of bytes, and returns its length.
//! [`refused_line`] is the line for an input that is refused, and [`ExitStatus`] is the status for the
//! program's caller. [`read_or_refuse`] reads the settings of a file's bytes, or writes why they are refused.
//! [`refusal_line`] is that line, for a caller that writes it among others. A program without settings uses
//! [`BUILT_IN_SETTINGS`]. The settings and their first fault are defined in `settings_file`. The crate opens
//! no file. The programs of `printd` test the crate.
#![tactic(auto)]

mod built_in;
mod exit_status;
mod input;
mod output;
mod refusal;
mod settings;

pub use built_in::BUILT_IN_SETTINGS;
pub use exit_status::ExitStatus;
pub use input::{InputFault, read_whole};
pub use output::write_prefix;
pub use refusal::refused_line;
pub use settings::{read_or_refuse, refusal_line};
