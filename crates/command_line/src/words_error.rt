//! The errors of words that name no subcommand.

use std::alloc::{AllocError, AllocFailed, Global};

/// The reason why words name no subcommand. A text consists of whole lines, as they are to be written.
#[derive(Drop)]
pub enum WordsError {
    /// The words ask for help or for the version: the text of it.
    Help(String),
    /// The words are invalid: the text about the error, for the writer of the words.
    Fault(String),
    OutOfMemory,
}

impl WordsError {
    /// The error of invalid words, with this text about it, unless memory for the text is refused.
    pub(crate) fn fault(alloc: Global, text: &str) -> WordsError {
        match String::from_str(alloc, text) {
            Ok(text) => WordsError::Fault(text),
            Err(_) => WordsError::OutOfMemory,
        }
    }
}

impl From<AllocError> for WordsError {
    fn from(_error: AllocError) -> WordsError {
        WordsError::OutOfMemory
    }
}

impl<T: Drop> From<AllocFailed<T>> for WordsError {
    fn from(_error: AllocFailed<T>) -> WordsError {
        WordsError::OutOfMemory
    }
}
