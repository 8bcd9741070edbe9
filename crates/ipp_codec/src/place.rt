//! The places in a head, and the elements that may come at each.
ghost use Rattle.std.specs.Prelude.{◌≡◌, MatchResult, ◌↔◌, IsTrue};
ghost use Rattle.ipp_codec.specs.Place.{depth, after, Takes, TakesValue, TakesMember};
ghost use Rattle.ipp_codec.specs.FirstFault.{Breaks, Exceeds};
ghost use Rattle.ipp_codec.specs.Reading.{seen, Keeps, LeadsOn, Steps, Walks, WalksFrom};

use crate::element::{END, ElementView, FIRST_VALUE_TAG, fields_of, kind_of};
use crate::fault::CodecFault;
use crate::shape::has_shape;
use base_types::Limits;

/// A place in a head, by the element before it. A number counts the collections around the innermost one.
#[derive(Clone, Copy, PartialEq, Eq)]
pub enum Place {
    /// No group.
    Outside,
    /// A group's tag.
    Opened,
    /// A value of an attribute.
    Valued,
    /// The beginning of a collection.
    Begun(u8),
    /// The name of a member.
    Naming(u8),
    /// A value of a member.
    Within(u8),
}

/// Returns the number of open collections.
fn depth(place: Place) -> usize
    ensures { result ≡ depth place }
{
    match place {
        Place::Begun(outer) | Place::Naming(outer) | Place::Within(outer) => {
            usize::from(outer) + 1
        }
        Place::Outside | Place::Opened | Place::Valued => 0,
    }
}

/// Returns whether no group has begun.
fn is_outside(place: Place) -> bool
    ensures { IsTrue result ↔ (place ≡ Place.Outside) }
{
    matches!(place, Place::Outside)
}

/// Returns whether a value with this name may come at the place.
fn takes_value(place: Place, name: &[u8]) -> bool
    ensures { IsTrue result ↔ TakesValue place name.now }
{
    match place {
        Place::Outside | Place::Begun(_) => false,
        Place::Opened => !name.is_empty(),
        Place::Valued => true,
        Place::Naming(_) | Place::Within(_) => name.is_empty(),
    }
}

/// Returns whether a member's name or a collection's end may come at the place.
fn takes_member(place: Place) -> bool
    ensures { IsTrue result ↔ TakesMember place }
{
    matches!(place, Place::Begun(_) | Place::Within(_))
}

/// Returns whether an element of this kind may come at the place.
fn takes(place: Place, element: ElementView<'_>) -> bool
    ensures { IsTrue result ↔ Takes place (seen element.entry) }
{
    match element {
        ElementView::Opening(_) => depth(place) == 0,
        ElementView::Plain(_, name, _) | ElementView::Begin(name) => takes_value(place, name),
        ElementView::Named(_) | ElementView::Finish => takes_member(place),
    }
}

/// Checks the limit of depth and the shape of an element.
fn judge_limits(place: Place, element: ElementView<'_>) -> Result<(), CodecFault>
    ensures { MatchResult result (λ _. Keeps place (seen element.entry)) (Exceeds place (seen element.entry)) }
{
    match element {
        ElementView::Begin(_) if depth(place) >= Limits::COLLECTION_DEPTH => {
            Err(CodecFault::TooDeep)
        }
        ElementView::Plain(tag, _, bytes) if !has_shape(tag, bytes) => Err(CodecFault::BadValue),
        _ => Ok(()),
    }
}

/// The place after an element that may come at this place.
fn after(place: Place, element: ElementView<'_>) -> Place
    requires takes { Takes place (seen element) }
    requires keeps { Keeps place (seen element) }
    ensures { result ≡ after place (seen element.entry) }
{
    match element {
        ElementView::Opening(_) => Place::Opened,
        ElementView::Plain(..) => match place {
            Place::Begun(outer) | Place::Naming(outer) | Place::Within(outer) => {
                Place::Within(outer)
            }
            Place::Outside | Place::Opened | Place::Valued => Place::Valued,
        },
        ElementView::Begin(_) => match place {
            Place::Begun(outer) | Place::Naming(outer) | Place::Within(outer) => {
                Place::Begun(outer + 1)
            }
            Place::Outside | Place::Opened | Place::Valued => Place::Begun(0),
        },
        ElementView::Named(_) => match place {
            Place::Begun(outer) | Place::Within(outer) => Place::Naming(outer),
            other => other,
        },
        ElementView::Finish => match place {
            Place::Begun(0) | Place::Within(0) => Place::Valued,
            Place::Begun(outer) | Place::Within(outer) => Place::Within(outer - 1),
            other => other,
        },
    }
}

/// The place after a whole value, or the first rule that the value violates.
fn judge(place: Place, tag: u8, name: &[u8], bytes: &[u8]) -> Result<Place, CodecFault>
    ensures { MatchResult result (LeadsOn place tag name.now bytes.now) (Breaks place tag name.now bytes.now) }
{
    if place == Place::Opened && name.is_empty() {
        return Err(CodecFault::LooseValue);
    }
    let Some(element) = kind_of(tag, name, bytes) else {
        return Err(CodecFault::BadCollection);
    };
    if !takes(place, element) {
        return Err(CodecFault::BadCollection);
    }
    judge_limits(place, element)?;
    Ok(after(place, element))
}

/// The place after the next element and the bytes after it, or `None` at the end byte.
fn next_of(place: Place, bytes: &[u8]) -> Result<Option<(Place, &[u8])>, CodecFault>
    ensures { Steps (λ x. (x.0, x.1.now)) place bytes.now result }
{
    let [tag, rest @ ..] = bytes else {
        return Err(CodecFault::Short);
    };
    let tag = *tag;
    if tag == 0 {
        return Err(CodecFault::BadTag);
    }
    if tag < FIRST_VALUE_TAG {
        if depth(place) > 0 {
            return Err(CodecFault::BadCollection);
        }
        if tag == END {
            return Ok(None);
        }
        return Ok(Some((Place::Opened, rest)));
    }
    if is_outside(place) {
        return Err(CodecFault::BadTag);
    }
    let (name, value, rest) = fields_of(rest)?;
    let next_place = judge(place, tag, name, value)?;
    Ok(Some((next_place, rest)))
}

/// A walk through consecutive elements.
#[derive(Clone, Copy, PartialEq, Eq)]
pub struct Walk {
    /// The place after the elements.
    pub place: Place,
    /// The length of the elements in bytes.
    pub length: usize,
    /// The first fault after the elements; `None` if the end byte comes there.
    pub fault: Option<CodecFault>,
}

/// Walks through the elements from a place on, up to the end byte or the first fault.
pub(crate) fn walk_from(place: Place, bytes: &[u8]) -> Walk
    ensures { WalksFrom place bytes.now result }
{
    let mut rest = bytes;
    let mut reached = place;
    loop {
        match next_of(reached, rest) {
            Ok(Some((next_place, tail))) => {
                reached = next_place;
                rest = tail;
            }
            Ok(None) => {
                return Walk {
                    place: reached,
                    length: bytes.len() - rest.len(),
                    fault: None,
                };
            }
            Err(fault) => {
                return Walk {
                    place: reached,
                    length: bytes.len() - rest.len(),
                    fault: Some(fault),
                };
            }
        }
    }
}

/// The length of the groups before the end byte.
pub(crate) fn body_len(bytes: &[u8]) -> Result<usize, CodecFault>
    ensures { Walks bytes.now result }
{
    let walk = walk_from(Place::Outside, bytes);
    match walk.fault {
        None => Ok(walk.length),
        Some(fault) => Err(fault),
    }
}
