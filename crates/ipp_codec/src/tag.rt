//! The tags of groups and of values (RFC 8010, section 3.5).
ghost use Rattle.std.specs.Prelude.{◌≡◌};

use std::marker::Model;

/// The tag of a group (RFC 8010, section 3.5.1). In clauses it is its number.
#[derive(Clone, Copy, PartialEq, Eq)]
pub struct GroupTag {
    number: u8,
}

impl Model for GroupTag {
    ghost use Rattle.std.specs.Prelude.{ℕ};

    ghost Value = { ℕ };

    ghost view = { λ tag. tag.number };

    ghost inverse = { λ n. record { number = n } };
}

impl GroupTag {
    pub const OPERATION: GroupTag = GroupTag { number: 0x01 };

    pub const JOB: GroupTag = GroupTag { number: 0x02 };

    pub const PRINTER: GroupTag = GroupTag { number: 0x04 };

    pub const UNSUPPORTED: GroupTag = GroupTag { number: 0x05 };

    /// The tag of a number.
    pub fn new(number: u8) -> GroupTag
        ensures { result ≡ number }
    {
        GroupTag { number }
    }

    /// The number of the tag.
    pub fn number(self) -> u8
        ensures { result ≡ self }
    {
        let GroupTag { number } = self;
        number
    }
}

/// The tag of a value (RFC 8010, section 3.5.2). In clauses it is its number.
#[derive(Clone, Copy, PartialEq, Eq)]
pub struct ValueTag {
    number: u8,
}

impl Model for ValueTag {
    ghost use Rattle.std.specs.Prelude.{ℕ};

    ghost Value = { ℕ };

    ghost view = { λ tag. tag.number };

    ghost inverse = { λ n. record { number = n } };
}

impl ValueTag {
    pub const UNSUPPORTED: ValueTag = ValueTag { number: 0x10 };

    pub const UNKNOWN: ValueTag = ValueTag { number: 0x12 };

    pub const NO_VALUE: ValueTag = ValueTag { number: 0x13 };

    pub const INTEGER: ValueTag = ValueTag { number: 0x21 };

    pub const BOOLEAN: ValueTag = ValueTag { number: 0x22 };

    pub const ENUM: ValueTag = ValueTag { number: 0x23 };

    pub const OCTET_STRING: ValueTag = ValueTag { number: 0x30 };

    pub const DATE_TIME: ValueTag = ValueTag { number: 0x31 };

    pub const RESOLUTION: ValueTag = ValueTag { number: 0x32 };

    pub const RANGE_OF_INTEGER: ValueTag = ValueTag { number: 0x33 };

    pub const COLLECTION: ValueTag = ValueTag { number: 0x34 };

    pub const TEXT_WITH_LANGUAGE: ValueTag = ValueTag { number: 0x35 };

    pub const NAME_WITH_LANGUAGE: ValueTag = ValueTag { number: 0x36 };

    pub const TEXT: ValueTag = ValueTag { number: 0x41 };

    pub const NAME: ValueTag = ValueTag { number: 0x42 };

    pub const KEYWORD: ValueTag = ValueTag { number: 0x44 };

    pub const URI: ValueTag = ValueTag { number: 0x45 };

    pub const URI_SCHEME: ValueTag = ValueTag { number: 0x46 };

    pub const CHARSET: ValueTag = ValueTag { number: 0x47 };

    pub const NATURAL_LANGUAGE: ValueTag = ValueTag { number: 0x48 };

    pub const MIME_MEDIA_TYPE: ValueTag = ValueTag { number: 0x49 };

    /// The tag of a number.
    pub fn new(number: u8) -> ValueTag
        ensures { result ≡ number }
    {
        ValueTag { number }
    }

    /// The number of the tag.
    pub fn number(self) -> u8
        ensures { result ≡ self }
    {
        let ValueTag { number } = self;
        number
    }
}
