//! The line of a chunk's size (RFC 9112, section 7.1).
ghost use Rattle.std.specs.Prelude.{◌≡◌};
ghost use Rattle.http_front.specs.Chunk.{IsSizeOf, chunk_end};

use httparse::{Status, parse_chunk_size};

/// The bytes at the place where a chunk has to end.
#[derive(Clone, Copy)]
pub(crate) enum ChunkEnd {
    /// CR LF, the end of the chunk.
    Whole,
    /// Bytes other than CR LF.
    Broken,
    /// A prefix of CR LF: more bytes are needed.
    Unfinished,
}

/// The size in a chunk line, where the bytes are exactly one line of the grammar.
pub(crate) fn size_in(line: &[u8]) -> Option<u64>
    ensures { IsSizeOf line.now result }
{
    match parse_chunk_size(line) {
        Ok(Status::Complete((length, size))) if length == line.len() => Some(size),
        _ => None,
    }
}

/// Compares the beginning of the bytes with the end of a chunk.
pub(crate) fn chunk_end(bytes: &[u8]) -> ChunkEnd
    ensures { result ≡ chunk_end bytes.now }
{
    match bytes {
        [] | [b'\r'] => ChunkEnd::Unfinished,
        [b'\r', b'\n', ..] => ChunkEnd::Whole,
        _ => ChunkEnd::Broken,
    }
}
