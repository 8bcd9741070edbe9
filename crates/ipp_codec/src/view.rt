//! Views of messages, whose names and values are in the bytes that they were read from.
ghost use Rattle.std.specs.Prelude.{◌≡◌, ◌∷◌};
ghost use Rattle.ipp_codec.specs.Message.{tag_of, bytes_in, members_within};
ghost use Rattle.ipp_codec.specs.Views.{message_shown, group_shown, attribute_shown, value_shown, groups_left, attributes_left, members_left, values_left};

use crate::element::BEGIN_COLLECTION;
use crate::member_view::Members;
use crate::tag::{GroupTag, ValueTag};
use crate::walk::{next_attribute, next_group, next_value};

/// The version of a message, such as 1.1.
#[derive(Clone, Copy, PartialEq, Eq)]
pub struct Version {
    pub major: u8,
    pub minor: u8,
}

/// A message whose names and values are in the bytes that it was read from.
#[derive(Clone, Copy)]
pub struct MessageView<'a> {
    pub(crate) version: Version,
    pub(crate) code: u16,
    pub(crate) request_id: u32,
    pub(crate) body: &'a [u8],
}

/// A group of attributes.
#[derive(Clone, Copy)]
pub struct GroupView<'a> {
    pub(crate) tag: u8,
    pub(crate) rest: &'a [u8],
}

/// An attribute: a name and one or more values.
#[derive(Clone, Copy)]
pub struct AttributeView<'a> {
    pub(crate) name: &'a [u8],
    pub(crate) first: ValueView<'a>,
    pub(crate) rest: &'a [u8],
}

/// A value: a tag and bytes, or a collection of members.
#[derive(Clone, Copy)]
pub struct ValueView<'a> {
    pub(crate) tag: u8,
    /// The bytes of the value; for a collection, the bytes from its first member on.
    pub(crate) content: &'a [u8],
}

/// The groups of a message, in order.
#[derive(Clone, Copy)]
pub struct Groups<'a> {
    pub(crate) rest: &'a [u8],
}

/// The attributes of a group, in order.
#[derive(Clone, Copy)]
pub struct Attributes<'a> {
    pub(crate) rest: &'a [u8],
}

/// The values of an attribute or a member, in order.
#[derive(Clone, Copy)]
pub struct Values<'a> {
    pub(crate) first: Option<ValueView<'a>>,
    pub(crate) rest: &'a [u8],
}

impl<'a> MessageView<'a> {
    /// The version of the message.
    pub fn version(&self) -> Version
        ensures major { result.major ≡ (message_shown self.now).major }
        ensures minor { result.minor ≡ (message_shown self.now).minor }
    {
        self.version
    }

    /// The operation or the status of the message.
    pub fn code(&self) -> u16
        ensures { result ≡ (message_shown self.now).code }
    {
        self.code
    }

    /// The request-id, which a response repeats.
    pub fn request_id(&self) -> u32
        ensures { result ≡ (message_shown self.now).request_id }
    {
        self.request_id
    }

    /// The groups of the message.
    pub fn groups(&self) -> Groups<'a>
        ensures { groups_left result ≡ (message_shown self.now).groups }
    {
        Groups { rest: self.body }
    }
}

impl<'a> GroupView<'a> {
    /// The tag of the group.
    pub fn tag(&self) -> GroupTag
        ensures { result ≡ (group_shown self.now).tag }
    {
        GroupTag::new(self.tag)
    }

    /// The attributes of the group.
    pub fn attributes(&self) -> Attributes<'a>
        ensures { attributes_left result ≡ (group_shown self.now).attributes }
    {
        Attributes { rest: self.rest }
    }
}

impl<'a> AttributeView<'a> {
    /// The name of the attribute.
    pub fn name(&self) -> &'a [u8]
        ensures { result.now ≡ (attribute_shown self.now).name }
    {
        self.name
    }

    /// The first value of the attribute.
    pub fn first(&self) -> ValueView<'a>
        ensures { value_shown result ≡ (attribute_shown self.now).first }
    {
        self.first
    }

    /// The values of the attribute, from the first on.
    pub fn values(&self) -> Values<'a>
        ensures { values_left result ≡ (attribute_shown self.now).first ∷ (attribute_shown self.now).others }
    {
        Values {
            first: Some(self.first),
            rest: self.rest,
        }
    }
}

impl<'a> ValueView<'a> {
    /// The tag of the value, [`ValueTag::COLLECTION`] for a collection.
    pub fn tag(&self) -> ValueTag
        ensures { result ≡ tag_of (value_shown self.now) }
    {
        ValueTag::new(self.tag)
    }

    /// The bytes of the value; a collection has none.
    pub fn bytes(&self) -> &'a [u8]
        ensures { result.now ≡ bytes_in (value_shown self.now) }
    {
        if self.tag == BEGIN_COLLECTION {
            &[]
        } else {
            self.content
        }
    }

    /// The members of the value; a value that isn't a collection has none.
    pub fn members(&self) -> Members<'a>
        ensures { members_left result ≡ members_within (value_shown self.now) }
    {
        if self.tag == BEGIN_COLLECTION {
            Members { rest: self.content }
        } else {
            Members { rest: &[] }
        }
    }
}

impl<'a> Iterator for Groups<'a> {
    ghost use Rattle.std.specs.Prelude.{length};
    ghost use Rattle.std.specs.Iterator.{YieldsFirstBy, at_most};
    ghost use Rattle.ipp_codec.specs.Views.{groups_left, group_shown};

    type Item = GroupView<'a>;

    ghost next_gives = { YieldsFirstBy group_shown groups_left };

    ghost remaining = { λ s. at_most (length s.rest.now) };

    fn next(&mut self) -> Option<GroupView<'a>> {
        let Some(group) = next_group(self.rest) else {
            self.rest = &[];
            return None;
        };
        self.rest = group.rest;
        Some(group)
    }
}

impl<'a> Iterator for Attributes<'a> {
    ghost use Rattle.std.specs.Prelude.{length};
    ghost use Rattle.std.specs.Iterator.{YieldsFirstBy, at_most};
    ghost use Rattle.ipp_codec.specs.Views.{attributes_left, attribute_shown};

    type Item = AttributeView<'a>;

    ghost next_gives = { YieldsFirstBy attribute_shown attributes_left };

    ghost remaining = { λ s. at_most (length s.rest.now) };

    fn next(&mut self) -> Option<AttributeView<'a>> {
        let Some(attribute) = next_attribute(self.rest) else {
            self.rest = &[];
            return None;
        };
        self.rest = attribute.rest;
        Some(attribute)
    }
}

impl<'a> Iterator for Values<'a> {
    ghost use Rattle.std.specs.Iterator.{YieldsFirstBy, at_most};
    ghost use Rattle.ipp_codec.specs.Views.{values_left, value_shown, size_left};

    type Item = ValueView<'a>;

    ghost next_gives = { YieldsFirstBy value_shown values_left };

    ghost remaining = { λ s. at_most (size_left s) };

    fn next(&mut self) -> Option<ValueView<'a>> {
        if let Some(first) = self.first.take() {
            return Some(first);
        }
        let Some((value, tail)) = next_value(self.rest) else {
            self.rest = &[];
            return None;
        };
        self.rest = tail;
        Some(value)
    }
}
