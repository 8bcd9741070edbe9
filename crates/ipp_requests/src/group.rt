//! The groups of requests.
ghost use Rattle.std.specs.Prelude.{◌≡◌, IfOk, OnOk, map};
ghost use Rattle.ipp_requests.specs.Group.{attribute_of, number_of, values_of, with_values, with_more, user, about_printer, from_user, about_job};

use ipp_codec::{Attribute, Group, GroupTag, Value, ValueTag};
use std::alloc::{AllocError, Global};

/// Appends an attribute with one value. The only error is out of memory.
pub(crate) fn put(
    alloc: Global,
    group: &mut Group,
    tag: ValueTag,
    name: &[u8],
    bytes: &[u8],
) -> Result<(), AllocError>
    ensures { OnOk result (group.new ≡ with_more (attribute_of tag name.now bytes.now) group.old) }
{
    let value = Value::copy_of(alloc, tag, bytes)?;
    let attribute = Attribute::new(alloc, name, value)?;
    group.push(attribute)
}

/// Appends an attribute with a number. The only error is out of memory.
pub(crate) fn put_number(
    alloc: Global,
    group: &mut Group,
    name: &[u8],
    number: u32,
) -> Result<(), AllocError>
    ensures { OnOk result (group.new ≡ with_more (number_of name.now number) group.old) }
{
    put(alloc, group, ValueTag::INTEGER, name, &number.to_be_bytes())
}

/// Appends an attribute with these values, if there are any. The only error is out of memory.
pub(crate) fn put_values(
    alloc: Global,
    group: &mut Group,
    tag: ValueTag,
    name: &[u8],
    values: &[&[u8]],
) -> Result<(), AllocError>
    ensures { OnOk result (group.new ≡ with_values tag name.now (map (λ value. value.now) values.now) group.old) }
{
    let [first, others @ ..] = values else {
        return Ok(());
    };
    let attribute = values_of(alloc, tag, name, first, others)?;
    group.push(attribute)
}

/// An attribute with these values.
fn values_of(
    alloc: Global,
    tag: ValueTag,
    name: &[u8],
    first: &[u8],
    others: &[&[u8]],
) -> Result<Attribute, AllocError>
    ensures { IfOk result (λ attribute. attribute ≡ values_of tag name.now first.now (map (λ value. value.now) others.now)) }
{
    let value = Value::copy_of(alloc, tag, first)?;
    let mut attribute = Attribute::new(alloc, name, value)?;
    for bytes in others {
        attribute.push(Value::copy_of(alloc, tag, bytes)?)?;
    }
    Ok(attribute)
}

/// The operation group of a request to a printer.
pub(crate) fn about_printer(alloc: Global, uri: &[u8]) -> Result<Group, AllocError>
    ensures { IfOk result (λ group. group ≡ about_printer uri.now) }
{
    let mut group = Group::new(alloc, GroupTag::OPERATION);
    put(
        alloc,
        &mut group,
        ValueTag::CHARSET,
        b"attributes-charset",
        b"utf-8",
    )?;
    put(
        alloc,
        &mut group,
        ValueTag::NATURAL_LANGUAGE,
        b"attributes-natural-language",
        b"en",
    )?;
    put(alloc, &mut group, ValueTag::URI, b"printer-uri", uri)?;
    Ok(group)
}

/// The operation group of a request to a printer that a user of this name sends.
pub(crate) fn from_user(alloc: Global, uri: &[u8], user: &[u8]) -> Result<Group, AllocError>
    ensures { IfOk result (λ group. group ≡ from_user uri.now user.now) }
{
    let mut group = about_printer(alloc, uri)?;
    put(
        alloc,
        &mut group,
        ValueTag::NAME,
        b"requesting-user-name",
        user,
    )?;
    Ok(group)
}

/// Appends the name of the user.
pub(crate) fn put_user(alloc: Global, group: &mut Group) -> Result<(), AllocError>
    ensures { OnOk result (group.new ≡ with_more user group.old) }
{
    put(
        alloc,
        group,
        ValueTag::NAME,
        b"requesting-user-name",
        b"printd",
    )
}

/// The operation group of a request about a job.
pub(crate) fn about_job(alloc: Global, uri: &[u8], job: i32) -> Result<Group, AllocError>
    ensures { IfOk result (λ group. group ≡ about_job uri.now job) }
{
    let mut group = about_printer(alloc, uri)?;
    let number = job.cast_unsigned().to_be_bytes();
    put(alloc, &mut group, ValueTag::INTEGER, b"job-id", &number)?;
    put_user(alloc, &mut group)?;
    Ok(group)
}
