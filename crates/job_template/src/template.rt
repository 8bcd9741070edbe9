//! The job template attributes that a printer supports, and the template of the job (RFC 8011, section 5.2).
ghost use Rattle.std.specs.Prelude.{◌≡◌, not, false, map, unwrap_or};
ghost use Rattle.std.specs.Option.{option_copied};
ghost use Rattle.job_template.specs.Template.{up_to, copies_in, priority_in, hold_named, hold_in, sides_in, medium_in, finishing_in, unless_there, finishings_from, finishings_in, supports, is_supported, asked_by, template_of, medium_of};
ghost use Rattle.base_types.specs.Finishings.{no_finishings};
ghost use Rattle.base_types.specs.Ranges.{IsCopies};
ghost use Rattle.ipp_codec.specs.Owned.{value_owned};

use crate::request_attribute::{enumerated, keyword, number, wants_none, word};
use crate::request_attributes::RequestAttributes;
use crate::template_name::{TemplateName, template_name};
use base_types::{Finishings, Hold, Limits, Priority, Sides, Text};
use ipp_codec::{Attribute, Value};
use printer_objects::{Finishing, Offer};
use std::marker::Model;

/// The template of a job, without its medium. An attribute that is missing or isn't supported has its
/// default. In clauses it is a record of the same fields.
#[derive(Drop)]
pub struct JobTemplate {
    pub priority: Priority,
    pub sides: Sides,
    pub finishings: Finishings,
    /// 1 to [`base_types::Limits::COPIES`].
    pub copies: u32,
    /// Whether job-hold-until is indefinite.
    pub held: bool,
}

impl Model for JobTemplate {
    ghost use Rattle.base_types.specs.Ranges.{IsCopies};
    ghost use Rattle.job_template.specs.Template.{TemplateRecord};

    ghost Value = { TemplateRecord };

    ghost view = { λ t. record {
      priority = t.priority;
      sides = t.sides;
      finishings = t.finishings;
      copies = t.copies;
      held = t.held;
    } };

    ghost invariant = { λ t. IsCopies t.copies };
}

/// The number, if it is from 1 to `most`.
fn up_to(most: u32, count: u32) -> Option<u32>
    ensures { result ≡ up_to most count }
{
    if count < 1 || most < count {
        None
    } else {
        Some(count)
    }
}

/// The copies of an attribute, if they are supported.
fn copies_in(attribute: &Attribute) -> Option<u32>
    ensures { result ≡ copies_in attribute.now }
{
    up_to(Limits::COPIES, number(attribute)?)
}

/// The priority of an attribute, if it is supported.
fn priority_in(attribute: &Attribute) -> Option<Priority>
    ensures { result ≡ priority_in attribute.now }
{
    priority_at(number(attribute)?)
}

/// The priority of a number, if it is in range.
fn priority_at(number: u32) -> Option<Priority>
    ensures { result ≡ up_to Limits.HIGHEST_PRIORITY number }
{
    match u8::try_from(number) {
        Ok(level) => Priority::new(level),
        Err(_) => None,
    }
}

/// Whether a keyword of job-hold-until holds the job. `None` if the keyword isn't supported.
fn hold_named(word: &[u8]) -> Option<bool>
    ensures { result ≡ hold_named word.now }
{
    let hold = Hold::of_keyword(word)?;
    Some(hold.is_held())
}

/// Whether an attribute holds the job. `None` if its value isn't supported.
fn hold_in(attribute: &Attribute) -> Option<bool>
    ensures { result ≡ hold_in attribute.now }
{
    hold_named(keyword(attribute)?)
}

/// The sides of an attribute, if they are supported.
fn sides_in(offer: &Offer<'_>, attribute: &Attribute) -> Option<Sides>
    ensures { result ≡ sides_in offer.now attribute.now }
{
    offer.sides_named(keyword(attribute)?)
}

/// The medium of an attribute, as the settings spell it, if it is supported.
fn medium_in<'a>(offer: &Offer<'a>, attribute: &Attribute) -> Option<&'a Text>
    ensures { option_copied result ≡ medium_in offer.now attribute.now }
{
    offer.medium_named(word(attribute)?)
}

/// The finishing that a value names, if the printer has it.
fn finishing_in(offer: &Offer<'_>, value: &Value) -> Option<Finishing>
    ensures { result ≡ finishing_in offer.now (value_owned value.now) }
{
    offer.finishing_named(enumerated(value)?)
}

/// The finishings with one more, if that isn't among them.
fn unless_there(found: Finishings, finishing: Finishing) -> Option<Finishings>
    ensures { result ≡ unless_there found finishing }
{
    if finishing.is_in(found) {
        None
    } else {
        Some(finishing.with(found))
    }
}

/// The finishings with one for each value, if each value names one of the printer's and none is named twice.
fn finishings_from(offer: &Offer<'_>, found: Finishings, values: &[Value]) -> Option<Finishings>
    ensures { result ≡ finishings_from offer.now found (map value_owned values.now) }
{
    let mut found = found;
    for value in values {
        let finishing = finishing_in(offer, value)?;
        found = unless_there(found, finishing)?;
    }
    Some(found)
}

/// The finishings of an attribute, if they are supported.
fn finishings_in(offer: &Offer<'_>, attribute: &Attribute) -> Option<Finishings>
    ensures { result ≡ finishings_in offer.now attribute.now }
{
    if wants_none(attribute) {
        return Some(Finishings::none());
    }
    let first = finishing_in(offer, &attribute.first)?;
    let found = unless_there(Finishings::none(), first)?;
    finishings_from(offer, found, &attribute.others)
}

/// Returns whether a printer doesn't support an attribute.
pub(crate) fn is_unsupported(offer: &Offer<'_>, attribute: &Attribute) -> bool
    ensures { result ≡ not (is_supported offer.now attribute.now) }
{
    !is_supported(offer, attribute)
}

/// Returns whether a printer supports an attribute.
#[tactic(auto, unfolding(crate::specs::Template::is_supported))]
fn is_supported(offer: &Offer<'_>, attribute: &Attribute) -> bool
    ensures { result ≡ is_supported offer.now attribute.now }
{
    supports(offer, attribute, template_name(attribute.name()))
}

/// Returns whether a printer supports the template attribute of a name, with its values.
fn supports(offer: &Offer<'_>, attribute: &Attribute, name: Option<TemplateName>) -> bool
    ensures { result ≡ supports offer.now attribute.now name }
{
    match name {
        Some(TemplateName::Copies) => copies_in(attribute).is_some(),
        Some(TemplateName::Media) => medium_in(offer, attribute).is_some(),
        Some(TemplateName::Sides) => sides_in(offer, attribute).is_some(),
        Some(TemplateName::Finishings) => finishings_in(offer, attribute).is_some(),
        Some(TemplateName::JobPriority) => priority_in(attribute).is_some(),
        Some(TemplateName::JobHoldUntil) => hold_in(attribute).is_some(),
        None => false,
    }
}

/// The template of a job by its job group.
#[tactic(auto, unfolding(crate::specs::Template::template_of))]
pub fn template_of(offer: &Offer<'_>, attributes: &RequestAttributes) -> JobTemplate
    ensures { result ≡ template_of offer.now attributes.now }
{
    JobTemplate {
        priority: priority_of(attributes),
        sides: sides_of(offer, attributes),
        finishings: finishings_of(offer, attributes),
        copies: copies_of(attributes),
        held: is_held(attributes),
    }
}

/// The priority of a job, or the default.
fn priority_of(attributes: &RequestAttributes) -> Priority
    ensures { result ≡ unwrap_or (asked_by TemplateName.JobPriority priority_in attributes.now) Limits.DEFAULT_PRIORITY }
{
    match attributes.named(TemplateName::JobPriority) {
        Some(attribute) => priority_in(attribute).unwrap_or(Priority::normal()),
        None => Priority::normal(),
    }
}

/// The sides of a job, one without a supported attribute.
fn sides_of(offer: &Offer<'_>, attributes: &RequestAttributes) -> Sides
    ensures { result ≡ unwrap_or (asked_by TemplateName.Sides (sides_in offer.now) attributes.now) Sides.One }
{
    match attributes.named(TemplateName::Sides) {
        Some(attribute) => sides_in(offer, attribute).unwrap_or(Sides::One),
        None => Sides::One,
    }
}

/// The finishings of a job, none without a supported attribute.
fn finishings_of(offer: &Offer<'_>, attributes: &RequestAttributes) -> Finishings
    ensures { result ≡ unwrap_or (asked_by TemplateName.Finishings (finishings_in offer.now) attributes.now) no_finishings }
{
    match attributes.named(TemplateName::Finishings) {
        Some(attribute) => finishings_in(offer, attribute).unwrap_or(Finishings::none()),
        None => Finishings::none(),
    }
}

/// The copies of a job, 1 without a supported attribute.
fn copies_of(attributes: &RequestAttributes) -> u32
    ensures value { result ≡ unwrap_or (asked_by TemplateName.Copies copies_in attributes.now) 1 }
    ensures in_range { IsCopies result }
{
    match attributes.named(TemplateName::Copies) {
        Some(attribute) => copies_in(attribute).unwrap_or(1),
        None => 1,
    }
}

/// Returns whether a job is held.
fn is_held(attributes: &RequestAttributes) -> bool
    ensures { result ≡ unwrap_or (asked_by TemplateName.JobHoldUntil hold_in attributes.now) false }
{
    match attributes.named(TemplateName::JobHoldUntil) {
        Some(attribute) => hold_in(attribute).unwrap_or(false),
        None => false,
    }
}

/// The medium of a job, as the settings spell it; the printer's default without a supported attribute.
#[tactic(auto, unfolding(crate::specs::Template::medium_of))]
pub fn medium_of<'a>(offer: &Offer<'a>, attributes: &RequestAttributes) -> &'a Text
    ensures { result.now ≡ medium_of offer.now attributes.now }
{
    let default = offer.default_medium();
    match attributes.named(TemplateName::Media) {
        Some(attribute) => medium_in(offer, attribute).unwrap_or(default),
        None => default,
    }
}
