//! Bytes of people, peers and files, as a terminal and a log may show them.
//!
//! A title, a name of a file or a comment can hold any bytes, among them control sequences that a terminal
//! would obey and line feeds that would look like further lines. [`Escaped`], [`Quoted`] and [`Word`] write
//! such bytes as text without control characters.
#![tactic(auto)]

mod quoted;

pub use quoted::{Escaped, Quoted, Word};
