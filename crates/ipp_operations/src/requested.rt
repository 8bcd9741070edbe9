//! The attributes that a request asks for.
ghost use Rattle.std.specs.Prelude.{◌≡◌, map, IfOk};
ghost use Rattle.ipp_codec.specs.Message.{bytes_in};
ghost use Rattle.ipp_codec.specs.Views.{attribute_shown, group_shown};
ghost use Rattle.ipp_operations.specs.OperationAttribute.{values_in_order};
ghost use Rattle.ipp_operations.specs.Requested.{requested_of};

use crate::attributes::attribute_of;
use crate::operation_attribute::OperationAttribute;
use base_types::Text;
use ipp_codec::{AttributeView, GroupView};
use printer_objects::Requested;
use std::alloc::{AllocError, Global};

/// The number of values for which a copy takes memory at first. Most requests have fewer.
const FIRST_VALUES: usize = 16;

/// The values of requested-attributes, or a default if the group doesn't have it. The only error is out of
/// memory.
pub(crate) fn requested_of(
    alloc: Global,
    group: &GroupView<'_>,
    default: &[&[u8]],
) -> Result<Requested, AllocError>
    ensures { IfOk result (λ requested. requested ≡ requested_of (map (λ word. word.now) default.now) (group_shown group.now)) }
{
    match attribute_of(group, OperationAttribute::RequestedAttributes) {
        Some(attribute) => values_of(alloc, &attribute),
        None => words_of(alloc, default),
    }
}

/// The bytes of each value of an attribute. The only error is out of memory.
fn values_of(alloc: Global, attribute: &AttributeView<'_>) -> Result<Requested, AllocError>
    ensures { IfOk result (λ requested. requested ≡ map bytes_in (values_in_order (attribute_shown attribute.now))) }
{
    let mut requested = Requested::with_capacity(alloc, FIRST_VALUES)?;
    for value in attribute.values() {
        requested.push(Text::copy_of(alloc, value.bytes())?)?;
    }
    Ok(requested)
}

/// A copy of a list of words. The only error is out of memory.
fn words_of(alloc: Global, words: &[&[u8]]) -> Result<Requested, AllocError>
    ensures { IfOk result (λ requested. requested ≡ map (λ word. word.now) words.now) }
{
    let mut requested = Requested::new(alloc);
    for word in words {
        requested.push(Text::copy_of(alloc, word)?)?;
    }
    Ok(requested)
}
