//! Owned copies of views.
ghost use Rattle.std.specs.Prelude.{◌≡◌, ◌<◌, IfOk};
ghost use Rattle.ipp_codec.specs.Message.{members_in};
ghost use Rattle.ipp_codec.specs.Owned.{value_owned, values_owned, members_owned};
ghost use Rattle.ipp_codec.specs.Views.{level, value_shown, attribute_shown, group_shown, message_shown};

use crate::element::BEGIN_COLLECTION;
use crate::message::{Attribute, Group, Message};
use crate::tag::{GroupTag, ValueTag};
use crate::value::{Member, Value};
use crate::view::{AttributeView, GroupView, MessageView, ValueView};
use crate::walk::{next_attribute, next_group, next_member, next_value};
use std::alloc::{AllocError, Global};
use std::borrow::CowSlice;

#[cycle(own)]
fn own_value(alloc: Global, value: ValueView<'_>) -> Result<Value, AllocError>
    ensures { IfOk result (λ v. value_owned v ≡ value_shown value.entry) }
{
    if value.tag == BEGIN_COLLECTION {
        let members = own_members(alloc, value.content)?;
        Ok(Value::collection(members))
    } else {
        Value::copy_of(alloc, ValueTag::new(value.tag), value.content)
    }
}

#[cycle(own)]
fn own_values(alloc: Global, bytes: &[u8]) -> Result<Vec<Value>, AllocError>
    ensures { IfOk result (λ vs. values_owned vs.items ≡ (level bytes.now).values) }
{
    let mut owned = Vec::new(alloc);
    let mut rest = bytes;
    while let Some((value, tail)) = next_value(rest) {
        rest = tail;
        let value = own_value(alloc, value)?;
        owned.push(value)?;
    }
    Ok(owned)
}

#[cycle(own)]
fn own_members(alloc: Global, bytes: &[u8]) -> Result<Vec<Member>, AllocError>
    ensures { IfOk result (λ ms. members_owned ms.items ≡ members_in (level bytes.now).members) }
{
    let mut owned = Vec::new(alloc);
    let mut rest = bytes;
    while let Some(member) = next_member(rest) {
        rest = member.rest;
        let name = Vec::from_slice(alloc, member.name)?;
        let first = own_value(alloc, member.first)?;
        let others = own_values(alloc, member.rest)?;
        owned.push(Member {
            name,
            first,
            others,
        })?;
    }
    Ok(owned)
}

fn own_attributes(alloc: Global, bytes: &[u8]) -> Result<Vec<Attribute>, AllocError>
    ensures { IfOk result (λ xs. xs.items ≡ (level bytes.now).attributes) }
{
    let mut owned = Vec::new(alloc);
    let mut rest = bytes;
    while let Some(attribute) = next_attribute(rest) {
        rest = attribute.rest;
        owned.push(attribute.to_owned(alloc)?)?;
    }
    Ok(owned)
}

fn own_groups(alloc: Global, bytes: &[u8]) -> Result<Vec<Group>, AllocError>
    ensures { IfOk result (λ gs. gs.items ≡ (level bytes.now).groups) }
{
    let mut owned = Vec::new(alloc);
    let mut rest = bytes;
    while let Some(group) = next_group(rest) {
        rest = group.rest;
        let tag = GroupTag::new(group.tag);
        let attributes = own_attributes(alloc, group.rest)?;
        owned.push(Group { tag, attributes })?;
    }
    Ok(owned)
}

impl<'a> AttributeView<'a> {
    /// An owned attribute with the same content. The only error is out of memory.
    pub fn to_owned(&self, alloc: Global) -> Result<Attribute, AllocError>
        ensures { IfOk result (λ attribute. attribute ≡ attribute_shown self.now) }
    {
        Ok(Attribute {
            name: CowSlice::Owned(Vec::from_slice(alloc, self.name)?),
            first: own_value(alloc, self.first)?,
            others: own_values(alloc, self.rest)?,
        })
    }
}

impl<'a> GroupView<'a> {
    /// An owned group with the same content. The only error is out of memory.
    pub fn to_owned(&self, alloc: Global) -> Result<Group, AllocError>
        ensures { IfOk result (λ group. group ≡ group_shown self.now) }
    {
        let attributes = own_attributes(alloc, self.rest)?;
        Ok(Group {
            tag: GroupTag::new(self.tag),
            attributes,
        })
    }
}

impl<'a> MessageView<'a> {
    /// An owned message with the same content. The only error is out of memory.
    pub fn to_owned(&self, alloc: Global) -> Result<Message, AllocError>
        ensures { IfOk result (λ message. message ≡ message_shown self.now) }
    {
        let groups = own_groups(alloc, self.body)?;
        Ok(Message {
            version: self.version,
            code: self.code,
            request_id: self.request_id,
            groups,
        })
    }
}
