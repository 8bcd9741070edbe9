//! The values of a request's attribute.
ghost use Rattle.std.specs.Prelude.{◌≡◌, [], option_map};
ghost use Rattle.ipp_codec.specs.Message.{plain};
ghost use Rattle.ipp_codec.specs.Owned.{value_owned};
ghost use Rattle.ipp_codec.specs.Tag as tags;
ghost use Rattle.job_template.specs.Template.{only_value, number, enumerated_of, wants_none, keyword, word};
ghost use Rattle.job_template.specs.Unsupported.{returned};

use crate::template_name::template_name;
use ipp_codec::{Attribute, Value, ValueTag};
use printer_objects::NO_FINISHING;
use std::alloc::Global;

/// The attribute's value, if it has exactly one.
fn only_value(attribute: &Attribute) -> Option<&Value>
    ensures { option_map (λ v. value_owned v.now) result ≡ only_value attribute.now }
{
    if attribute.others.is_empty() {
        Some(&attribute.first)
    } else {
        None
    }
}

/// The attribute's one value, if that is an integer and isn't negative.
pub(crate) fn number(attribute: &Attribute) -> Option<u32>
    ensures { result ≡ number attribute.now }
{
    let value = only_value(attribute)?;
    if value.tag() != ValueTag::INTEGER {
        return None;
    }
    let number = value.as_integer()?;
    u32::try_from(number).ok()
}

/// The number of a value, if that is an enumeration's and isn't negative.
pub(crate) fn enumerated(value: &Value) -> Option<u32>
    ensures { result ≡ enumerated_of (value_owned value.now) }
{
    if value.tag() != ValueTag::ENUM {
        return None;
    }
    let number = value.as_integer()?;
    u32::try_from(number).ok()
}

/// Returns whether the attribute's one value is the number of no finishing.
pub(crate) fn wants_none(attribute: &Attribute) -> bool
    ensures { result ≡ wants_none attribute.now }
{
    match only_value(attribute) {
        Some(value) => enumerated(value) == Some(NO_FINISHING),
        None => false,
    }
}

/// The attribute's one value, if that is a keyword.
pub(crate) fn keyword(attribute: &Attribute) -> Option<&[u8]>
    ensures { option_map (λ w. w.now) result ≡ keyword attribute.now }
{
    let value = only_value(attribute)?;
    if value.tag() == ValueTag::KEYWORD {
        Some(value.bytes())
    } else {
        None
    }
}

/// The attribute's one value, if that is a keyword or a name without a language.
pub(crate) fn word(attribute: &Attribute) -> Option<&[u8]>
    ensures { option_map (λ w. w.now) result ≡ word attribute.now }
{
    let value = only_value(attribute)?;
    let tag = value.tag();
    if tag == ValueTag::KEYWORD || tag == ValueTag::NAME {
        Some(value.bytes())
    } else {
        None
    }
}

/// Changes an attribute into the form that the response returns: one that isn't a template attribute loses
/// its values.
pub(crate) fn make_returned(attribute: &mut Attribute, alloc: Global)
    ensures { attribute.new ≡ returned attribute.old }
{
    if template_name(attribute.name()).is_none() {
        lose_values(attribute, alloc);
    }
}

/// Replaces the attribute's values by the one value `unsupported`.
fn lose_values(attribute: &mut Attribute, alloc: Global)
    ensures { attribute.new ≡ record { name = attribute.old.name; first = plain tags.unsupported []; others = [] } }
{
    attribute.first = Value::known(ValueTag::UNSUPPORTED, b"");
    attribute.others = Vec::new(alloc);
}
