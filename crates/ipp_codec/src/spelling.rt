//! Messages as bytes.
ghost use Rattle.std.specs.Prelude.{◌≡◌, ◌<◌, ◌++◌, length, IfOk, OnOk, OnErr, IsErrOf, IsTrue, ◌↔◌, [], ◌∷◌};
ghost use Rattle.std.specs.List.{AllByRecursion};
ghost use Rattle.base_types.specs.declared.limits.TheConstants.Limits.{COLLECTION_DEPTH};
ghost use Rattle.ipp_codec.specs.Message.{values_of, members_of};
ghost use Rattle.ipp_codec.specs.Spelling.{value_bytes, elements, bytes_of, spelling};
ghost use Rattle.ipp_codec.specs.Written.{value_written, values_written, members_written, attributes_written, groups_written, header_bytes};
ghost use Rattle.ipp_codec.specs.Grammar.{IsPlain, IsName, IsValue, AreValues, AreMembers, IsAttribute, IsGroup, IsMessage};
ghost use Rattle.ipp_codec.specs.Owned.{value_owned, values_owned, member_owned, members_owned};

use crate::element::{BEGIN_COLLECTION, END, END_COLLECTION, FIRST_VALUE_TAG, MEMBER_NAME};
use crate::fault::EncodeFault;
use crate::message::{Attribute, Group, Message};
use crate::shape::has_shape;
use crate::value::{Member, Value};
use crate::view::Version;
use base_types::Limits;
use std::alloc::{AllocError, Global};

/// The number of bytes for which a spelling takes memory at first. Most replies have fewer.
const FIRST_BYTES: usize = 512;

/// Appends the one spelling of the message. An error leaves the vector unchanged.
pub fn encode(message: &Message, out: &mut Vec<u8>) -> Result<(), EncodeFault>
    ensures ok { OnOk result (out.new.items ≡ out.old.items ++ spelling message.now) }
    ensures unspellable { IsErrOf result EncodeFault.Unspellable ↔ ¬ (IsMessage message.now) }
    ensures err { OnErr result (out.new.items ≡ out.old.items) }
{
    let header = header_of(message.version, message.code, message.request_id);
    if !are_groups(&message.groups) {
        return Err(EncodeFault::Unspellable);
    }
    let Ok(bytes) = encode_after(*out.allocator(), &header, &message.groups) else {
        return Err(EncodeFault::OutOfMemory);
    };
    if out.extend_from_slice(&bytes).is_err() {
        return Err(EncodeFault::OutOfMemory);
    }
    Ok(())
}

/// The bytes of a message whose prefix is spelt already: the prefix, then the groups, then the end byte. The prefix
/// is the header, or the header and groups before these. The only error is out of memory.
#[tactic(auto, using(crate::proofs::WrittenSpelling::groups_is))]
pub fn encode_after(alloc: Global, prefix: &[u8], groups: &[Group]) -> Result<Vec<u8>, AllocError>
    requires { AllByRecursion IsGroup groups.now }
    ensures { IfOk result (λ bytes. bytes.items ≡ prefix.now ++ (bytes_of (elements groups.now) ++ 3 ∷ [])) }
{
    let mut bytes = Vec::with_capacity(alloc, FIRST_BYTES)?;
    put_message(&mut bytes, prefix, groups)?;
    Ok(bytes)
}

/// The eight bytes before the groups.
fn header_of(version: Version, code: u16, request_id: u32) -> [u8; 8]
    ensures { result ≡ header_bytes version.major version.minor code request_id }
{
    let [code_high, code_low] = code.to_be_bytes();
    let [id_3, id_2, id_1, id_0] = request_id.to_be_bytes();
    [
        version.major,
        version.minor,
        code_high,
        code_low,
        id_3,
        id_2,
        id_1,
        id_0,
    ]
}

fn put_message(out: &mut Vec<u8>, prefix: &[u8], groups: &[Group]) -> Result<(), AllocError>
    requires { AllByRecursion IsGroup groups.now }
    ensures { OnOk result (out.new.items ≡ out.old.items ++ (prefix.now ++ (groups_written groups.now ++ 3 ∷ []))) }
{
    out.extend_from_slice(prefix)?;
    put_groups(out, groups)?;
    out.push(END)?;
    Ok(())
}

fn put_groups(out: &mut Vec<u8>, groups: &[Group]) -> Result<(), AllocError>
    requires { AllByRecursion IsGroup groups.now }
    ensures { OnOk result (out.new.items ≡ out.old.items ++ groups_written groups.now) }
{
    for group in groups {
        put_group(out, group)?;
    }
    Ok(())
}

fn put_group(out: &mut Vec<u8>, group: &Group) -> Result<(), AllocError>
    requires { IsGroup group.now }
    ensures { OnOk result (out.new.items ≡ out.old.items ++ (group.now.tag ∷ attributes_written group.now.attributes)) }
{
    out.push(group.tag.number())?;
    put_attributes(out, &group.attributes)
}

fn put_attributes(out: &mut Vec<u8>, attributes: &[Attribute]) -> Result<(), AllocError>
    requires { AllByRecursion IsAttribute attributes.now }
    ensures { OnOk result (out.new.items ≡ out.old.items ++ attributes_written attributes.now) }
{
    for attribute in attributes {
        put_attribute(out, attribute)?;
    }
    Ok(())
}

fn put_attribute(out: &mut Vec<u8>, attribute: &Attribute) -> Result<(), AllocError>
    requires { IsAttribute attribute.now }
    ensures { OnOk result (out.new.items ≡ out.old.items ++ (value_written attribute.now.name attribute.now.first ++ values_written (values_of attribute.now.others))) }
{
    let limit = Limits::COLLECTION_DEPTH;
    put_value(out, &attribute.name, &attribute.first, limit)?;
    put_values(out, &attribute.others, limit)
}

fn put_field(out: &mut Vec<u8>, tag: u8, name: &[u8], bytes: &[u8]) -> Result<(), AllocError>
    requires name { length name.now < 0x8000 }
    requires bytes { length bytes.now < 0x8000 }
    ensures { OnOk result (out.new.items ≡ out.old.items ++ value_bytes tag name.now bytes.now) }
{
    if name.is_empty() {
        return put_unnamed(out, tag, bytes);
    }
    let [high, low] = (name.len() as u16).to_be_bytes();
    out.extend_from_slice(&[tag, high, low])?;
    out.extend_from_slice(name)?;
    out.extend_from_slice(&(bytes.len() as u16).to_be_bytes())?;
    out.extend_from_slice(bytes)?;
    Ok(())
}

/// Appends a field without a name: a further value of an attribute, or a part of a collection.
fn put_unnamed(out: &mut Vec<u8>, tag: u8, bytes: &[u8]) -> Result<(), AllocError>
    requires { length bytes.now < 0x8000 }
    ensures { OnOk result (out.new.items ≡ out.old.items ++ value_bytes tag [] bytes.now) }
{
    let [high, low] = (bytes.len() as u16).to_be_bytes();
    out.extend_from_slice(&[tag, 0, 0, high, low])?;
    out.extend_from_slice(bytes)
}

#[cycle(put)]
fn put_value(out: &mut Vec<u8>, name: &[u8], value: &Value, limit: usize) -> Result<(), AllocError>
    requires name { length name.now < 0x8000 }
    requires value { IsValue limit (value_owned value.now) }
    ensures { OnOk result (out.new.items ≡ out.old.items ++ value_written name.now (value_owned value.now)) }
{
    match value {
        Value::Plain { tag, bytes } => put_field(out, tag.number(), name, bytes),
        Value::Number { tag, bytes } => put_field(out, tag.number(), name, bytes),
        Value::Collection(members) => {
            put_field(out, BEGIN_COLLECTION, name, &[])?;
            put_members(out, members, limit - 1)?;
            put_field(out, END_COLLECTION, &[], &[])
        }
    }
}

#[cycle(put)]
fn put_values(out: &mut Vec<u8>, values: &[Value], limit: usize) -> Result<(), AllocError>
    requires { AreValues limit (values_of (values_owned values.now)) }
    ensures { OnOk result (out.new.items ≡ out.old.items ++ values_written (values_of (values_owned values.now))) }
{
    for value in values {
        put_value(out, &[], value, limit)?;
    }
    Ok(())
}

#[cycle(put)]
fn put_members(out: &mut Vec<u8>, members: &[Member], limit: usize) -> Result<(), AllocError>
    requires { AreMembers limit (members_of (members_owned members.now)) }
    ensures { OnOk result (out.new.items ≡ out.old.items ++ members_written (members_of (members_owned members.now))) }
{
    for member in members {
        put_field(out, MEMBER_NAME, &[], &member.name)?;
        put_value(out, &[], &member.first, limit)?;
        put_values(out, &member.others, limit)?;
    }
    Ok(())
}

fn are_groups(groups: &[Group]) -> bool
    ensures { IsTrue result ↔ AllByRecursion IsGroup groups.now }
{
    for group in groups {
        if !is_group(group) {
            return false;
        }
    }
    true
}

fn is_group(group: &Group) -> bool
    ensures { IsTrue result ↔ IsGroup group.now }
{
    let tag = group.tag.number();
    tag != 0 && tag < FIRST_VALUE_TAG && tag != END && are_attributes(&group.attributes)
}

fn are_attributes(attributes: &[Attribute]) -> bool
    ensures { IsTrue result ↔ AllByRecursion IsAttribute attributes.now }
{
    for attribute in attributes {
        if !is_attribute(attribute) {
            return false;
        }
    }
    true
}

fn is_attribute(attribute: &Attribute) -> bool
    ensures { IsTrue result ↔ IsAttribute attribute.now }
{
    is_name(&attribute.name)
        && is_value(&attribute.first, Limits::COLLECTION_DEPTH)
        && are_values(&attribute.others, Limits::COLLECTION_DEPTH)
}

fn is_name(name: &[u8]) -> bool
    ensures { IsTrue result ↔ IsName name.now }
{
    !name.is_empty() && name.len() < 0x8000
}

fn is_plain(tag: u8, bytes: &[u8]) -> bool
    ensures { IsTrue result ↔ IsPlain tag bytes.now }
{
    tag >= FIRST_VALUE_TAG
        && !matches!(tag, BEGIN_COLLECTION | END_COLLECTION | MEMBER_NAME)
        && bytes.len() < 0x8000
        && has_shape(tag, bytes)
}

#[cycle(check)]
fn is_value(value: &Value, limit: usize) -> bool
    ensures { IsTrue result ↔ IsValue limit (value_owned value.now) }
{
    match value {
        Value::Plain { tag, bytes } => is_plain(tag.number(), bytes),
        Value::Number { tag, bytes } => is_plain(tag.number(), bytes),
        Value::Collection(members) => limit > 0 && are_members(members, limit - 1),
    }
}

#[cycle(check)]
fn are_values(values: &[Value], limit: usize) -> bool
    ensures { IsTrue result ↔ AreValues limit (values_of (values_owned values.now)) }
{
    for value in values {
        if !is_value(value, limit) {
            return false;
        }
    }
    true
}

#[cycle(check)]
fn are_members(members: &[Member], limit: usize) -> bool
    ensures { IsTrue result ↔ AreMembers limit (members_of (members_owned members.now)) }
{
    for member in members {
        if !is_member(member, limit) {
            return false;
        }
    }
    true
}

#[cycle(check)]
fn is_member(member: &Member, limit: usize) -> bool
    ensures { IsTrue result ↔ AreMembers limit (members_of (member_owned member.now ∷ [])) }
{
    is_name(&member.name) && is_value(&member.first, limit) && are_values(&member.others, limit)
}
