//! Messages that own their names and values. In clauses each of them is its content, without its places in
//! memory.
ghost use Rattle.std.specs.Prelude.{◌≡◌, [], ◌∷◌, ◌++◌, IfOk, OnOk, OnErr};
ghost use Rattle.ipp_codec.specs.Owned.{value_owned};

use crate::tag::GroupTag;
use crate::value::Value;
use crate::view::Version;
use std::alloc::{AllocError, Global};
use std::borrow::CowSlice;
use std::marker::Model;

/// An attribute: its name, which the program knows or the attribute owns, and one or more values.
#[derive(Drop)]
pub struct Attribute {
    pub name: CowSlice<'static, u8>,
    pub first: Value,
    pub others: Vec<Value>,
}

/// A group of attributes.
#[derive(Drop)]
pub struct Group {
    pub tag: GroupTag,
    pub attributes: Vec<Attribute>,
}

/// A message. Its code is that of an operation in a request, and that of a status in a response.
#[derive(Drop)]
pub struct Message {
    pub version: Version,
    pub code: u16,
    pub request_id: u32,
    pub groups: Vec<Group>,
}

impl Model for Attribute {
    ghost use Rattle.std.specs.Prelude.{map};
    ghost use Rattle.std.specs.Cow.{cow_slice_items};
    ghost use Rattle.ipp_codec.specs.Code.{attribute_code};
    ghost use Rattle.ipp_codec.specs.Message.{IppAttribute};
    ghost use Rattle.ipp_codec.specs.Owned.{value_owned};

    ghost Value = { IppAttribute };

    ghost coded = { attribute_code };

    ghost view = { λ a. record {
      name = cow_slice_items a.name;
      first = value_owned a.first;
      others = map value_owned a.others.items;
    } };
}

impl Model for Group {
    ghost use Rattle.ipp_codec.specs.Code.{group_code};
    ghost use Rattle.ipp_codec.specs.Message.{IppGroup};

    ghost Value = { IppGroup };

    ghost coded = { group_code };

    ghost view = { λ g. record { tag = g.tag; attributes = g.attributes.items } };
}

impl Model for Message {
    ghost use Rattle.ipp_codec.specs.Code.{message_code};
    ghost use Rattle.ipp_codec.specs.Message.{IppMessage};

    ghost Value = { IppMessage };

    ghost coded = { message_code };

    ghost view = { λ m. record {
      major = m.version.major;
      minor = m.version.minor;
      code = m.code;
      request_id = m.request_id;
      groups = m.groups.items;
    } };
}

impl Attribute {
    /// An attribute of a name with one value. The only error is out of memory.
    pub fn new(alloc: Global, name: &[u8], first: Value) -> Result<Attribute, AllocError>
        ensures { IfOk result (λ attribute. attribute ≡ record { name = name.now; first = value_owned first; others = [] }) }
    {
        let name = Vec::from_slice(alloc, name)?;
        Ok(Attribute {
            name: CowSlice::Owned(name),
            first,
            others: Vec::new(alloc),
        })
    }

    /// An attribute of a name that the program knows, with one value. The call takes no memory.
    pub fn known(alloc: Global, name: &'static [u8], first: Value) -> Attribute
        ensures { result ≡ record { name = name.now; first = value_owned first; others = [] } }
    {
        Attribute {
            name: CowSlice::Borrowed(name),
            first,
            others: Vec::new(alloc),
        }
    }

    /// The name of the attribute.
    pub fn name(&self) -> &[u8]
        ensures { result.now ≡ self.now.name }
    {
        self.name.as_slice()
    }

    /// Takes memory for so many more values. The only error is out of memory.
    pub fn reserve(&mut self, count: usize) -> Result<(), AllocError>
        ensures { self.new ≡ self.old }
    {
        self.others.reserve(count)
    }

    /// Appends a value. The only error is out of memory, and nothing is appended then.
    pub fn push(&mut self, value: Value) -> Result<(), AllocError>
        ensures ok { OnOk result (self.new ≡ record self.old { others = self.old.others ++ value_owned value ∷ [] }) }
        ensures err { OnErr result (self.new ≡ self.old) }
    {
        self.others.push(value)?;
        Ok(())
    }
}

impl Group {
    /// A group of a tag without attributes.
    pub fn new(alloc: Global, tag: GroupTag) -> Group
        ensures { result ≡ record { tag = tag; attributes = [] } }
    {
        Group {
            tag,
            attributes: Vec::new(alloc),
        }
    }

    /// A group of a tag without attributes, which has the memory for so many. The only error is out of memory.
    pub fn with_capacity(alloc: Global, tag: GroupTag, count: usize) -> Result<Group, AllocError>
        ensures { IfOk result (λ group. group ≡ record { tag = tag; attributes = [] }) }
    {
        let attributes = Vec::with_capacity(alloc, count)?;
        Ok(Group { tag, attributes })
    }

    /// Appends an attribute. The only error is out of memory.
    pub fn push(&mut self, attribute: Attribute) -> Result<(), AllocError>
        ensures ok { OnOk result (self.new ≡ record self.old { attributes = self.old.attributes ++ attribute ∷ [] }) }
        ensures err { OnErr result (self.new ≡ self.old) }
    {
        self.attributes.push(attribute)?;
        Ok(())
    }
}

impl Message {
    /// A message without groups.
    pub fn new(alloc: Global, version: Version, code: u16, request_id: u32) -> Message
        ensures { result ≡ record { major = version.major; minor = version.minor; code = code; request_id = request_id; groups = [] } }
    {
        Message {
            version,
            code,
            request_id,
            groups: Vec::new(alloc),
        }
    }

    /// Appends a group. The only error is out of memory.
    pub fn push(&mut self, group: Group) -> Result<(), AllocError>
        ensures ok { OnOk result (self.new ≡ record self.old { groups = self.old.groups ++ group ∷ [] }) }
        ensures err { OnErr result (self.new ≡ self.old) }
    {
        self.groups.push(group)?;
        Ok(())
    }
}
