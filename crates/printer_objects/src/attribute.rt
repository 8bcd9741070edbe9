//! Attributes of the syntaxes that the tables use.
ghost use Rattle.std.specs.Prelude.{◌≡◌, IfOk, OnOk, pos, min, [], ◌∷◌, ◌++◌, codes, take};
ghost use Rattle.ipp_codec.specs.Message.{plain};
ghost use Rattle.ipp_codec.specs.Owned.{value_owned};
ghost use Rattle.ipp_codec.specs.Tag as tags;
ghost use Rattle.printer_objects.specs.Attribute.{alone, text, number, enumerated, keyword, no_value, time, reasons_attribute, texts_attribute};

use base_types::{Limits, Moment, Text};
use ipp_codec::{Attribute, Value, ValueTag};
use job_objects::JobReasons;
use std::alloc::{AllocError, Global};

/// The ms of a second; times are shown in seconds.
pub(crate) const MILLIS_PER_SECOND: u64 = 1_000;
/// The most bytes of a value: its length is a signed short integer (RFC 8010, section 3.8).
pub(crate) const VALUE_BYTES: usize = 32_767;

/// An attribute of one value: a copy of bytes, with a tag. The only error is out of memory.
pub(crate) fn bytes(
    alloc: Global,
    name: &'static str,
    tag: ValueTag,
    bytes: &[u8],
) -> Result<Attribute, AllocError>
    ensures { IfOk result (λ a. a ≡ alone name.now (plain tag bytes.now)) }
{
    let value = Value::copy_of(alloc, tag, bytes)?;
    Ok(Attribute::known(alloc, name.as_bytes(), value))
}

/// The beginning of a text, of at most as many bytes as a value can have.
fn prefix(bytes: &[u8]) -> &[u8]
    ensures { result.now ≡ take VALUE_BYTES bytes.now }
{
    if bytes.len() > VALUE_BYTES {
        &bytes[..VALUE_BYTES]
    } else {
        bytes
    }
}

/// A value of a copy of a text, with a tag; of a text with more than [`VALUE_BYTES`] bytes, its first `VALUE_BYTES`.
#[tactic(auto, unfolding(crate::specs::Attribute::text))]
pub(crate) fn text_value(alloc: Global, tag: ValueTag, bytes: &[u8]) -> Result<Value, AllocError>
    ensures { IfOk result (λ value. value_owned value ≡ text tag bytes.now) }
{
    Value::copy_of(alloc, tag, prefix(bytes))
}

/// An attribute of a copy of one text, with a tag. The only error is out of memory.
pub(crate) fn text(
    alloc: Global,
    name: &'static str,
    tag: ValueTag,
    bytes: &[u8],
) -> Result<Attribute, AllocError>
    ensures { IfOk result (λ a. a ≡ alone name.now (text tag bytes.now)) }
{
    let value = text_value(alloc, tag, bytes)?;
    Ok(Attribute::known(alloc, name.as_bytes(), value))
}

/// A value of a text that the program knows, with a tag.
#[tactic(auto, unfolding(crate::specs::Attribute::text))]
fn known_value(tag: ValueTag, bytes: &'static [u8]) -> Value
    ensures { value_owned result ≡ text tag bytes.now }
{
    Value::known(tag, prefix(bytes))
}

/// An attribute of one text that the program knows, with a tag. The call takes no memory.
pub(crate) fn known_text(
    alloc: Global,
    name: &'static str,
    tag: ValueTag,
    bytes: &'static [u8],
) -> Attribute
    ensures { result ≡ alone name.now (text tag bytes.now) }
{
    Attribute::known(alloc, name.as_bytes(), known_value(tag, bytes))
}

/// An attribute of one keyword (RFC 8010, section 3.9) that the program knows. The call takes no memory.
pub(crate) fn keyword(alloc: Global, name: &'static str, word: &'static str) -> Attribute
    ensures { result ≡ alone name.now (keyword word.now) }
{
    known_text(alloc, name, ValueTag::KEYWORD, word.as_bytes())
}

/// An attribute of the natural language of all texts of the server: English. The call takes no memory.
pub(crate) fn english(alloc: Global, name: &'static str) -> Attribute
    ensures { result ≡ alone name.now (text tags.natural_language (codes "en")) }
{
    known_text(alloc, name, ValueTag::NATURAL_LANGUAGE, b"en")
}

/// An attribute of one boolean, which is true. The call takes no memory.
pub(crate) fn yes(alloc: Global, name: &'static str) -> Attribute
    ensures { result ≡ alone name.now (plain tags.boolean (1 ∷ [])) }
{
    Attribute::known(alloc, name.as_bytes(), Value::boolean(true))
}

/// An attribute of one integer. The call takes no memory.
pub(crate) fn number(alloc: Global, name: &'static str, amount: u64) -> Attribute
    ensures { result ≡ alone name.now (number amount) }
{
    Attribute::known(alloc, name.as_bytes(), Value::integer(integer(amount)))
}

/// An attribute of one number of an enumeration. The call takes no memory.
pub(crate) fn enumerated(alloc: Global, name: &'static str, code: u32) -> Attribute
    ensures { result ≡ alone name.now (enumerated code) }
{
    Attribute::known(alloc, name.as_bytes(), enumeration(code))
}

/// A value of a number of an enumeration.
pub(crate) fn enumeration(code: u32) -> Value
    ensures { value_owned result ≡ enumerated code }
{
    Value::enumeration(integer(u64::from(code)))
}

/// An attribute with the value `no-value`. The call takes no memory.
pub(crate) fn no_value(alloc: Global, name: &'static str) -> Attribute
    ensures { result ≡ alone name.now no_value }
{
    Attribute::known(
        alloc,
        name.as_bytes(),
        Value::known(ValueTag::NO_VALUE, b""),
    )
}

/// An attribute of a moment, as the number of seconds begun since the server's start; the value `no-value`
/// for a moment that hasn't come. The call takes no memory.
pub(crate) fn time(alloc: Global, name: &'static str, moment: Option<Moment>) -> Attribute
    ensures { result ≡ alone name.now (time moment) }
{
    match moment {
        Some(moment) => number(alloc, name, moment.millis() / MILLIS_PER_SECOND + 1),
        None => no_value(alloc, name),
    }
}

/// An attribute of a job's reasons, one or two. The only error is out of memory.
pub(crate) fn reasons(
    alloc: Global,
    name: &'static str,
    reasons: JobReasons,
) -> Result<Attribute, AllocError>
    ensures { IfOk result (λ a. a ≡ reasons_attribute name.now reasons) }
{
    let mut attribute = keyword(alloc, name, reasons.first.keyword());
    if let Some(second) = reasons.second {
        add_keyword(&mut attribute, second.keyword())?;
    }
    Ok(attribute)
}

/// An attribute of texts with a tag, in order; the value `no-value` if there are none.
pub(crate) fn texts(
    alloc: Global,
    name: &'static str,
    tag: ValueTag,
    texts: &[Text],
) -> Result<Attribute, AllocError>
    ensures { IfOk result (λ a. a ≡ texts_attribute name.now tag texts.now) }
{
    let [first, others @ ..] = texts else {
        return Ok(no_value(alloc, name));
    };
    let mut attribute = text(alloc, name, tag, first.as_bytes())?;
    for other in others {
        add_text(alloc, &mut attribute, tag, other.as_bytes())?;
    }
    Ok(attribute)
}

/// Appends a text with a tag to an attribute. The only error is out of memory.
pub(crate) fn add_text(
    alloc: Global,
    attribute: &mut Attribute,
    tag: ValueTag,
    bytes: &[u8],
) -> Result<(), AllocError>
    ensures { OnOk result (attribute.new ≡ record attribute.old { others = attribute.old.others ++ text tag bytes.now ∷ [] }) }
{
    let value = text_value(alloc, tag, bytes)?;
    attribute.push(value)
}

/// Appends a keyword that the program knows to an attribute. The only error is out of memory.
pub(crate) fn add_keyword(attribute: &mut Attribute, word: &'static str) -> Result<(), AllocError>
    ensures { OnOk result (attribute.new ≡ record attribute.old { others = attribute.old.others ++ keyword word.now ∷ [] }) }
{
    attribute.push(known_value(ValueTag::KEYWORD, word.as_bytes()))
}

/// A number as an integer of IPP; a number above the greatest integer as that.
fn integer(number: u64) -> i32
    ensures { result ≡ pos (min number Limits.LAST_INTEGER) }
{
    number.min(u64::from(Limits::LAST_INTEGER)) as i32
}
