//! Laws of an LPD client's stream, as contracts of functions that do nothing.
ghost use Rattle.lpd.specs.Stream.{OneParse, SomeParse, StaysInPrefix, FaultStays, FirstIsOne, NoneFollows, FirstStays, ParsesTheRest};

/// Each stream has a reading, and two readings of one stream give the same items and the same end.
pub fn one_parse()
    ensures some { SomeParse }
    ensures one { OneParse }
{}

/// Two prefixes of the items of a stream are equal if their lengths are equal, and a stream contains no item after
/// all of its items.
pub fn one_prefix()
    ensures one { FirstIsOne }
    ensures last { NoneFollows }
{}

/// The items of a stream are a prefix of the items of the stream with more bytes after it, and a fault stays
/// the last.
pub fn parse_stays()
    ensures prefix { StaysInPrefix }
    ensures fault { FaultStays }
{}

/// The items that a reader has given are a prefix of the items of the whole stream, for all bytes that may
/// follow. The other items are those that its unread bytes and the bytes that follow give from the reader's
/// state on.
pub fn given_first()
    ensures first { FirstStays }
    ensures rest { ParsesTheRest }
{}
