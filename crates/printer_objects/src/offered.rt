//! The attributes of a printer's offer.
ghost use Rattle.std.specs.Prelude.{◌≡◌, IfOk};
ghost use Rattle.ipp_codec.specs.Tag as tags;
ghost use Rattle.printer_objects.specs.Attribute.{alone, texts_attribute};
ghost use Rattle.printer_objects.specs.Finishing.{finishings_supported};
ghost use Rattle.printer_objects.specs.Offer.{formats_of, media_of, ready_media_of, finishings_of};
ghost use Rattle.printer_objects.specs.Offered.{operations_attribute, range, hold_untils_attribute, sides_attribute};

use crate::attribute::{add_keyword, bytes, enumerated, enumeration, keyword, no_value, texts};
use crate::finishing::supported_finishings;
use crate::offer::Offer;
use crate::operation::Operation;
use base_types::{Hold, Limits, Sides};
use ipp_codec::{Attribute, ValueTag};
use std::alloc::{AllocError, Global};

/// An attribute of operations; the value `no-value` if there are none.
pub(crate) fn operations(
    alloc: Global,
    name: &'static str,
    operations: &[Operation],
) -> Result<Attribute, AllocError>
    ensures { IfOk result (λ a. a ≡ operations_attribute name.now operations.now) }
{
    let [first, others @ ..] = operations else {
        return Ok(no_value(alloc, name));
    };
    let mut attribute = enumerated(alloc, name, u32::from(first.code()));
    attribute.reserve(others.len())?;
    for operation in others {
        attribute.push(enumeration(u32::from(operation.code())))?;
    }
    Ok(attribute)
}

/// An attribute of the document formats of an offer.
pub(crate) fn formats(
    alloc: Global,
    name: &'static str,
    offer: &Offer<'_>,
) -> Result<Attribute, AllocError>
    ensures { IfOk result (λ a. a ≡ texts_attribute name.now tags.mime_media_type (formats_of offer.now)) }
{
    texts(alloc, name, ValueTag::MIME_MEDIA_TYPE, offer.formats())
}

/// An attribute of the media of an offer, loaded or not.
pub(crate) fn media(
    alloc: Global,
    name: &'static str,
    offer: &Offer<'_>,
) -> Result<Attribute, AllocError>
    ensures { IfOk result (λ a. a ≡ texts_attribute name.now tags.keyword (media_of offer.now)) }
{
    let media = offer.media(alloc)?;
    texts(alloc, name, ValueTag::KEYWORD, &media)
}

/// An attribute of the loaded media of an offer.
pub(crate) fn ready_media(
    alloc: Global,
    name: &'static str,
    offer: &Offer<'_>,
) -> Result<Attribute, AllocError>
    ensures { IfOk result (λ a. a ≡ texts_attribute name.now tags.keyword (ready_media_of offer.now)) }
{
    let media = offer.ready_media(alloc)?;
    texts(alloc, name, ValueTag::KEYWORD, &media)
}

/// An attribute of the finishings of an offer.
pub(crate) fn offered_finishings(
    alloc: Global,
    name: &'static str,
    offer: &Offer<'_>,
) -> Result<Attribute, AllocError>
    ensures { IfOk result (λ a. a ≡ finishings_supported name.now (finishings_of offer.now)) }
{
    let finishings = offer.finishings(alloc)?;
    supported_finishings(alloc, name, &finishings)
}

/// An attribute of the number of copies that a job may have.
pub(crate) fn copies(alloc: Global, name: &'static str) -> Result<Attribute, AllocError>
    ensures { IfOk result (λ a. a ≡ alone name.now (range 1 Limits.COPIES)) }
{
    let least: u32 = 1;
    let mut range = Vec::from_slice(alloc, &least.to_be_bytes())?;
    range.extend_from_slice(&Limits::COPIES.to_be_bytes())?;
    bytes(alloc, name, ValueTag::RANGE_OF_INTEGER, &range)
}

/// An attribute of the supported values of job-hold-until.
pub(crate) fn hold_untils(alloc: Global, name: &'static str) -> Result<Attribute, AllocError>
    ensures { IfOk result (λ a. a ≡ hold_untils_attribute name.now) }
{
    let mut attribute = keyword(alloc, name, Hold::NoHold.keyword());
    add_keyword(&mut attribute, Hold::Indefinite.keyword())?;
    Ok(attribute)
}

/// An attribute of sides; the value `no-value` if there are none.
pub(crate) fn sides(
    alloc: Global,
    name: &'static str,
    sides: &[Sides],
) -> Result<Attribute, AllocError>
    ensures { IfOk result (λ a. a ≡ sides_attribute name.now sides.now) }
{
    let [first, others @ ..] = sides else {
        return Ok(no_value(alloc, name));
    };
    let mut attribute = keyword(alloc, name, first.keyword());
    for sides in others {
        add_keyword(&mut attribute, sides.keyword())?;
    }
    Ok(attribute)
}
