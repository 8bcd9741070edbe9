//! Laws of a device's stream, as contracts of functions that do nothing.
ghost use Rattle.device_link.specs.Stream.{FirstIsOne, NoneFollows, FirstStays, ParsesTheRest};

/// Two prefixes of a stream's reports are equal if their lengths are equal, and a stream contains no report after
/// all of its reports.
pub fn one_prefix()
    ensures one { FirstIsOne }
    ensures last { NoneFollows }
{}

/// The reports that a reader has given are a prefix of the reports of the whole stream, for all bytes that may
/// follow. The other reports are those that its unread bytes and the bytes that follow give from the reader's
/// state on.
pub fn given_first()
    ensures first { FirstStays }
    ensures rest { ParsesTheRest }
{}
