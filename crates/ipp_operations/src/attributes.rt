//! The values of a group's attributes.
ghost use Rattle.std.specs.Prelude.{◌≡◌, option_map, IfOk};
ghost use Rattle.std.specs.List.{list_all};
ghost use Rattle.ipp_codec.specs.Views.{attribute_shown, value_shown, group_shown};
ghost use Rattle.ipp_operations.specs.Attributes.{first_named, attribute_of, has, value_of, is_tagged, after_language, name_in, name_or, bytes_of, number_of, truth_of};
ghost use Rattle.ipp_operations.specs.OperationAttribute.{values_in_order};
ghost use Rattle.ipp_operations.specs.Syntax.{has_syntax};

use crate::operation_attribute::OperationAttribute;
use crate::syntax::Syntax;
use base_types::Text;
use ipp_codec::{AttributeView, GroupView, ValueTag, ValueView};
use std::alloc::{AllocError, Global};

/// The first attribute of a name.
pub(crate) fn first_named<'a>(group: &GroupView<'a>, name: &[u8]) -> Option<AttributeView<'a>>
    ensures { option_map attribute_shown result ≡ first_named name.now (group_shown group.now).attributes }
{
    for attribute in group.attributes() {
        if attribute.name() == name {
            return Some(attribute);
        }
    }
    None
}

/// The first attribute of its name, if the group has it.
pub(crate) fn attribute_of<'a>(
    group: &GroupView<'a>,
    which: OperationAttribute,
) -> Option<AttributeView<'a>>
    ensures { option_map attribute_shown result ≡ attribute_of which (group_shown group.now) }
{
    first_named(group, which.name())
}

/// Returns whether the group has an attribute.
pub(crate) fn has(group: &GroupView<'_>, which: OperationAttribute) -> bool
    ensures { result ≡ has which (group_shown group.now) }
{
    attribute_of(group, which).is_some()
}

/// The first value of an attribute, if the group has it.
pub(crate) fn value_of<'a>(
    group: &GroupView<'a>,
    which: OperationAttribute,
) -> Option<ValueView<'a>>
    ensures { option_map value_shown result ≡ value_of which (group_shown group.now) }
{
    match attribute_of(group, which) {
        Some(attribute) => Some(attribute.first()),
        None => None,
    }
}

/// Returns whether each value of an attribute has a tag of a syntax.
fn all_have_syntax(attribute: &AttributeView<'_>, syntax: Syntax) -> bool
    ensures { result ≡ list_all (has_syntax syntax) (values_in_order (attribute_shown attribute.now)) }
{
    for value in attribute.values() {
        if !syntax.has_tag(value.tag()) {
            return false;
        }
    }
    true
}

/// Returns whether each value of an attribute that is read has a tag of its syntax; true if the group doesn't
/// have the attribute.
fn is_tagged(group: &GroupView<'_>, which: OperationAttribute) -> bool
    ensures { result ≡ is_tagged (group_shown group.now) which }
{
    let syntax = which.syntax();
    match attribute_of(group, which) {
        Some(attribute) if which.all_values_act() => all_have_syntax(&attribute, syntax),
        Some(attribute) => syntax.has_tag(attribute.first().tag()),
        None => true,
    }
}

/// Returns whether each attribute of `read` that the group has is tagged with its syntax.
pub(crate) fn are_tagged(group: &GroupView<'_>, read: &[OperationAttribute]) -> bool
    ensures { result ≡ list_all (is_tagged (group_shown group.now)) read.now }
{
    for which in read {
        if !is_tagged(group, *which) {
            return false;
        }
    }
    true
}

/// The bytes after a counted language and the length of the text.
fn after_language(bytes: &[u8]) -> &[u8]
    ensures { result.now ≡ after_language bytes.now }
{
    let [high, low, rest @ ..] = bytes else {
        return &[];
    };
    let text = 256 * *high as usize + *low as usize + 2;
    rest.get(text..).unwrap_or(&[])
}

/// The text of a name, without its language.
fn name_in<'a>(value: &ValueView<'a>) -> &'a [u8]
    ensures { result.now ≡ name_in (value_shown value.now) }
{
    if value.tag() == ValueTag::NAME_WITH_LANGUAGE {
        after_language(value.bytes())
    } else {
        value.bytes()
    }
}

/// A copy of the attribute's name, or of a default if the group doesn't have it. The only error is out of
/// memory.
pub(crate) fn name_or(
    alloc: Global,
    group: &GroupView<'_>,
    which: OperationAttribute,
    default: &[u8],
) -> Result<Text, AllocError>
    ensures { IfOk result (λ text. text ≡ name_or which default.now (group_shown group.now)) }
{
    match value_of(group, which) {
        Some(value) => Text::copy_of(alloc, name_in(&value)),
        None => Text::copy_of(alloc, default),
    }
}

/// A copy of the attribute's bytes, if the group has it. The only error is out of memory.
pub(crate) fn bytes_of(
    alloc: Global,
    group: &GroupView<'_>,
    which: OperationAttribute,
) -> Result<Option<Text>, AllocError>
    ensures { IfOk result (λ text. text ≡ bytes_of which (group_shown group.now)) }
{
    match value_of(group, which) {
        Some(value) => Ok(Some(Text::copy_of(alloc, value.bytes())?)),
        None => Ok(None),
    }
}

/// The attribute's integer, if the group has it and it isn't negative.
pub(crate) fn number_of(group: &GroupView<'_>, which: OperationAttribute) -> Option<u32>
    ensures { result ≡ number_of which (group_shown group.now) }
{
    let number = value_of(group, which)?.as_integer()?;
    u32::try_from(number).ok()
}

/// The attribute's truth value; false if the group doesn't have it.
pub(crate) fn truth_of(group: &GroupView<'_>, which: OperationAttribute) -> bool
    ensures { result ≡ truth_of which (group_shown group.now) }
{
    match value_of(group, which) {
        Some(value) => value.as_boolean().unwrap_or(false),
        None => false,
    }
}
