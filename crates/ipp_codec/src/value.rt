//! Values that own their bytes.
ghost use Rattle.std.specs.Prelude.{◌≡◌, [], ◌∷◌, ◌++◌, map, IfOk, OnOk, OnErr};
ghost use Rattle.ipp_codec.specs.Message.{plain, collection, members_of, tag_of, bytes_in};
ghost use Rattle.ipp_codec.specs.Owned.{value_owned, member_owned};
ghost use Rattle.ipp_codec.specs.Typed.{bytes_of_integer, byte_of_boolean, integer_in};
ghost use Rattle.ipp_codec.specs.Tag as tags;

use crate::tag::ValueTag;
use crate::typed::integer_of;
use std::alloc::{AllocError, Global};
use std::borrow::CowSlice;

/// A value: its tag and bytes, or a collection's members. The program knows the bytes, or the value owns them. The
/// four bytes of a number lie in the value itself.
#[cycle(value)]
#[derive(Drop)]
pub enum Value {
    Plain {
        tag: ValueTag,
        bytes: CowSlice<'static, u8>,
    },
    Number {
        tag: ValueTag,
        bytes: [u8; 4],
    },
    Collection(Vec<Member>),
}

/// A member of a collection: its name, and one or more values.
#[cycle(value)]
#[derive(Drop)]
pub struct Member {
    pub name: Vec<u8>,
    pub first: Value,
    pub others: Vec<Value>,
}

impl Value {
    /// A value of a tag with a copy of the bytes. The only error is out of memory.
    pub fn copy_of(alloc: Global, tag: ValueTag, bytes: &[u8]) -> Result<Value, AllocError>
        ensures { IfOk result (λ value. value_owned value ≡ plain tag bytes.now) }
    {
        let bytes = CowSlice::Owned(Vec::from_slice(alloc, bytes)?);
        Ok(Value::Plain { tag, bytes })
    }

    /// A value of a tag with bytes that the program knows. The call takes no memory.
    pub fn known(tag: ValueTag, bytes: &'static [u8]) -> Value
        ensures { value_owned result ≡ plain tag bytes.now }
    {
        Value::Plain {
            tag,
            bytes: CowSlice::Borrowed(bytes),
        }
    }

    /// An integer (RFC 8010, section 3.9). The call takes no memory.
    pub fn integer(number: i32) -> Value
        ensures { value_owned result ≡ plain tags.integer (bytes_of_integer number) }
    {
        Value::Number {
            tag: ValueTag::INTEGER,
            bytes: number.cast_unsigned().to_be_bytes(),
        }
    }

    /// A number of an enumeration (RFC 8010, section 3.9). The call takes no memory.
    pub fn enumeration(number: i32) -> Value
        ensures { value_owned result ≡ plain tags.enumeration (bytes_of_integer number) }
    {
        Value::Number {
            tag: ValueTag::ENUM,
            bytes: number.cast_unsigned().to_be_bytes(),
        }
    }

    /// A truth value (RFC 8010, section 3.9). The call takes no memory.
    pub fn boolean(truth: bool) -> Value
        ensures { value_owned result ≡ plain tags.boolean (byte_of_boolean truth ∷ []) }
    {
        Value::known(ValueTag::BOOLEAN, if truth { &[1] } else { &[0] })
    }

    /// A collection of members.
    pub fn collection(members: Vec<Member>) -> Value
        ensures { value_owned result ≡ collection (members_of (map member_owned members.items)) }
    {
        Value::Collection(members)
    }

    /// The tag of the value, [`ValueTag::COLLECTION`] for a collection.
    pub fn tag(&self) -> ValueTag
        ensures { result ≡ tag_of (value_owned self.now) }
    {
        match self {
            Value::Plain { tag, .. } | Value::Number { tag, .. } => *tag,
            Value::Collection(_) => ValueTag::COLLECTION,
        }
    }

    /// The bytes of the value; a collection has none.
    pub fn bytes(&self) -> &[u8]
        ensures { result.now ≡ bytes_in (value_owned self.now) }
    {
        match self {
            Value::Plain { bytes, .. } => bytes,
            Value::Number { bytes, .. } => bytes,
            Value::Collection(_) => &[],
        }
    }

    /// The number of an integer or an enum, if its bytes are four.
    pub fn as_integer(&self) -> Option<i32>
        ensures { result ≡ integer_in (value_owned self.now) }
    {
        let tag = self.tag();
        if tag == ValueTag::INTEGER || tag == ValueTag::ENUM {
            integer_of(self.bytes())
        } else {
            None
        }
    }
}

impl Member {
    /// A member of a name with one value. The only error is out of memory.
    pub fn new(alloc: Global, name: &[u8], first: Value) -> Result<Member, AllocError>
        ensures { IfOk result (λ member. member_owned member ≡ record { name = name.now; first = value_owned first; others = [] }) }
    {
        let name = Vec::from_slice(alloc, name)?;
        Ok(Member {
            name,
            first,
            others: Vec::new(alloc),
        })
    }

    /// Appends a value. The only error is out of memory, and nothing is appended then.
    pub fn push(&mut self, value: Value) -> Result<(), AllocError>
        ensures ok { OnOk result (member_owned self.new ≡ record { name = (member_owned self.old).name; first = (member_owned self.old).first; others = (member_owned self.old).others ++ value_owned value ∷ [] }) }
        ensures err { OnErr result (member_owned self.new ≡ member_owned self.old) }
    {
        self.others.push(value)?;
        Ok(())
    }
}
