//! The stages of a decoder.
use crate::fault::CodecFault;
use crate::place::Place;

/// The stage of a decoder.
#[derive(Clone, Copy, PartialEq, Eq)]
pub enum Stage {
    /// More bytes of the head are awaited.
    Awaiting,
    /// The head is whole.
    Whole,
    /// The bytes begin with no head, and no further bytes change that.
    Faulty(CodecFault),
}

/// The result of a chunk without a fault.
#[derive(Clone, Copy, PartialEq, Eq)]
pub enum Fed {
    /// More bytes of the head are awaited.
    More,
    /// The head is whole. The number of bytes of the chunk that belong to it: 0 if it was whole before.
    Head(usize),
}

/// The progress of a decoder, to which it may return.
#[derive(Clone, Copy, PartialEq, Eq)]
pub struct Reached {
    /// The number of bytes that it kept.
    pub(crate) length: usize,
    /// The number of those that were read.
    pub(crate) walked: usize,
    pub(crate) place: Place,
    pub(crate) stage: Stage,
}
