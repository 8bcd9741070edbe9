//! Copies of a request's attributes.
ghost use Rattle.std.specs.Prelude.{◌≡◌, ◌∷◌, [], IfOk};
ghost use Rattle.ipp_codec.specs.Grammar.{IsAttribute, IsGroup};
ghost use Rattle.ipp_codec.specs.Views.{group_shown};
ghost use Rattle.ipp_operations.specs.Attributes.{as_it_came, first_of_each};

use crate::attributes::attribute_of;
use crate::operation_attribute::OperationAttribute;
use ipp_codec::{Attribute, GroupView};
use job_template::RequestAttributes;
use std::alloc::{AllocError, Global};
use std::collections::BTreeSet;

/// The attribute with all its values, unchanged; empty if the group doesn't have it. The only error is out of
/// memory.
pub(crate) fn as_it_came(
    alloc: Global,
    group: &GroupView<'_>,
    which: OperationAttribute,
) -> Result<RequestAttributes, AllocError>
    requires { IsGroup (group_shown group.now) }
    ensures { IfOk result (λ attributes. attributes ≡ as_it_came which (group_shown group.now)) }
{
    match attribute_of(group, which) {
        Some(attribute) => alone(alloc, attribute.to_owned(alloc)?),
        None => Ok(RequestAttributes::new(alloc)),
    }
}

/// A list of one attribute.
fn alone(alloc: Global, attribute: Attribute) -> Result<RequestAttributes, AllocError>
    requires { IsAttribute attribute }
    ensures { IfOk result (λ attributes. attributes ≡ attribute ∷ []) }
{
    let mut attributes = Vec::new(alloc);
    attributes.push(attribute)?;
    Ok(RequestAttributes::from_vec(attributes))
}

/// The attributes of a group, unchanged, the first of each name. The only error is out of memory.
pub(crate) fn first_of_each(
    alloc: Global,
    group: &GroupView<'_>,
) -> Result<RequestAttributes, AllocError>
    requires { IsGroup (group_shown group.now) }
    ensures { IfOk result (λ attributes. attributes ≡ first_of_each (group_shown group.now).attributes) }
{
    let mut names = BTreeSet::new(alloc);
    let mut kept = Vec::new(alloc);
    for attribute in group.attributes() {
        if names.insert(attribute.name())? {
            kept.push(attribute.to_owned(alloc)?)?;
        }
    }
    Ok(RequestAttributes::from_vec(kept))
}
