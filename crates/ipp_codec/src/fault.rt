use std::alloc::AllocError;
use thiserror::Error;

/// The first fault, from left to right, of bytes that don't begin with the head of a message.
#[derive(Clone, Copy, Debug, PartialEq, Eq, Error)]
pub enum CodecFault {
    /// The bytes end before the head does.
    #[error("the bytes end before the head does")]
    Short,
    /// A tag is 0, or a value comes before the first group.
    #[error("a tag is 0, or a value stands before the first group")]
    BadTag,
    /// The length of a name or a value is 32,768 or more.
    #[error("the length of a name or a value is 32,768 or more")]
    BadLength,
    /// The bytes of a value don't fit its tag.
    #[error("the bytes of a value don't fit its tag")]
    BadValue,
    /// A further value comes before a group's first attribute.
    #[error("a further value stands before a group's first attribute")]
    LooseValue,
    /// A part of a collection comes where none may, or a collection isn't closed.
    #[error("a part of a collection stands where none may, or a collection isn't closed")]
    BadCollection,
    /// Collections are nested deeper than [`Limits::COLLECTION_DEPTH`].
    #[error("collections lie too deep in one another")]
    TooDeep,
    /// The head has more than [`Limits::IPP_HEAD_BYTES`] bytes.
    #[error("the head has too many bytes")]
    TooLarge,
}

/// Why a decoder rejects a chunk of a body.
#[derive(Clone, Copy, Debug, PartialEq, Eq, Error)]
pub enum DecodeError {
    /// The first fault of the whole body. The decoder gives no other answer from then on.
    #[error("{0}")]
    Fault(CodecFault),
    /// Memory was refused. None of the bytes of the chunk was taken.
    #[error("memory was refused")]
    OutOfMemory,
}

impl From<AllocError> for DecodeError {
    ghost use Rattle.std.specs.Prelude.{◌≡◌};
    ghost use Rattle.ipp_codec.specs.declared.fault.DecodeError.TheVariants.{OutOfMemory};

    ghost from_gives = { λ _ error. error ≡ OutOfMemory };

    fn from(_: AllocError) -> DecodeError {
        DecodeError::OutOfMemory
    }
}

/// Why a message was not encoded.
#[derive(Clone, Copy, Debug, PartialEq, Eq, Error)]
pub enum EncodeFault {
    /// The message has no spelling.
    #[error("no bytes spell the message")]
    Unspellable,
    /// Memory was refused.
    #[error("memory was refused")]
    OutOfMemory,
}
