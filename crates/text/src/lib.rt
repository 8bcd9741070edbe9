//! Bytes of text, for the readers of input.
//!
//! The functions find bytes, the first line, the parts between separators, the number of digits, and a word
//! without the blanks around it. Each result is its definition in `specs/`, over the list of the bytes.
//! `specs/Steps.antt` has the chain of a reader's steps. [`Unread`] keeps the bytes that a reader was given
//! and hasn't read, and is the list of them. The crate has no words of the server: the forms of names, with
//! their limits, are in `base_types`, and the content of a line is with its reader.
//!
//! The main function is [`first_line`]: a line of at most `most` bytes, whole only once its line feed is
//! there. The tests are in `unit_tests` (`text_bytes`, and the rows of each reader).
#![tactic(auto)]

mod bytes;
mod digits;
mod line;
mod split;
mod trim;
mod unread;

pub use bytes::{drop_prefix, find_byte};
pub use digits::{capped_value, decimal, is_number, number_up_to};
pub use line::{FirstLine, first_line};
pub use split::{cut_at, parts, words};
pub use trim::{trimmed, without_parameters};
pub use unread::Unread;
