//! The faults of rows files.

use std::alloc::AllocError;
use thiserror::Error;

/// Why a line of a rows file can't be read.
#[derive(Clone, Copy, Debug, Error)]
pub(crate) enum DataFault {
    #[error("no line of a rows file begins with this word")]
    Word,
    #[error("the line belongs to no row")]
    Outside,
    #[error("`after` comes first in a row, then its steps, then its log")]
    Order,
    #[error("a text or a list above has this name")]
    NameTwice,
    #[error("no text above has this name")]
    TextName,
    #[error("no list of first steps above has this name")]
    StepsName,
    #[error("a peer is `server` or `printer`")]
    Peer,
    #[error("no operation of IPP has this name")]
    Operation,
    #[error("a number is missing or malformed")]
    Number,
    #[error("a step of this kind has no bytes")]
    Bytes,
    #[error("an escape is \\n, \\r, \\t, \\0, \\\\, \\{{ or \\x with two hexadecimal digits")]
    Escape,
    #[error("a brace isn't closed")]
    Brace,
    #[error("out of memory")]
    Memory(#[from(alloc)] AllocError),
}

/// The first fault of a rows file, and its line, counted from 1.
#[derive(Clone, Copy, Debug, Error)]
#[error("line {line}: {fault}")]
pub(crate) struct RowsFault {
    pub(crate) line: usize,
    pub(crate) fault: DataFault,
}
