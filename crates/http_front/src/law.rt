//! Laws of the exchanges, as contracts of functions that do nothing.
ghost use Rattle.http_front.specs.Stream.{OneParse, SomeParse, StaysInPrefix, FirstIsOne, FirstStays, GivesThePrefix, ParsesTheRest};
ghost use Rattle.http_front.specs.Order.{ElementsInOrder};
ghost use Rattle.http_front.specs.Written.{LengthParses, ChunksParse};

/// Two readings of one stream give the same elements, and these are a prefix of the elements of the stream
/// with more bytes after it.
pub fn one_parse()
    ensures one { OneParse }
    ensures prefix { StaysInPrefix }
{}

/// Each stream has a reading. The elements that a reader has given are a prefix of that reading, for every
/// segmentation of the stream.
pub fn some_parse()
    ensures some { SomeParse }
    ensures prefix { GivesThePrefix }
{}

/// Two prefixes of the elements of a stream are equal if their lengths are equal.
pub fn one_prefix()
    ensures { FirstIsOne }
{}

/// The elements of a stream are its exchanges, in order, and nothing follows the last.
pub fn exchanges_in_order()
    ensures { ElementsInOrder }
{}

/// The elements that a reader has given are a prefix of the elements of the whole stream, for all bytes that
/// may follow. The other elements are those that its unread bytes and the bytes that follow give from the
/// reader's state on.
pub fn given_first()
    ensures first { FirstStays }
    ensures rest { ParsesTheRest }
{}

/// The stream of a written request reads as that request: of a head with a length and as many bytes, and of a
/// head with a body in chunks, for every division into chunks, with extensions and a trailer.
pub fn written_is_parsed()
    ensures length { LengthParses }
    ensures chunks { ChunksParse }
{}
