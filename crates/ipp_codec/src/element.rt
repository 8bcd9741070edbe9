//! One element at the beginning of a slice.
ghost use Rattle.std.specs.Prelude.{◌≡◌, option_map};
ghost use Rattle.ipp_codec.specs.Kind.{kind_of};
ghost use Rattle.ipp_codec.specs.Reading.{Gives, seen, counted_at, fields_at, element_from, element_at};

use crate::fault::CodecFault;

/// The byte that ends a head.
pub(crate) const END: u8 = 0x03;
/// The least tag of a value. Group tags and the end byte are below it.
pub(crate) const FIRST_VALUE_TAG: u8 = 0x10;

pub(crate) const BEGIN_COLLECTION: u8 = 0x34;

pub(crate) const END_COLLECTION: u8 = 0x37;

pub(crate) const MEMBER_NAME: u8 = 0x4A;

/// An element of a head: a group's tag, a value with its tag and name, or a part of a collection.
#[derive(Clone, Copy)]
pub enum ElementView<'a> {
    Opening(u8),
    Plain(u8, &'a [u8], &'a [u8]),
    Begin(&'a [u8]),
    Named(&'a [u8]),
    Finish,
}

/// The counted bytes at the beginning, and the bytes after them.
#[tactic(auto, unfolding(crate::specs::Reading::counted_at))]
pub(crate) fn counted_of(bytes: &[u8]) -> Result<(&[u8], &[u8]), CodecFault>
    ensures { Gives (λ x. (x.0.now, x.1.now)) result (counted_at bytes.now) }
{
    match bytes {
        [] | [_] => Err(CodecFault::Short),
        [high, low, rest @ ..] => {
            if *high >= 128 {
                return Err(CodecFault::BadLength);
            }
            let len = 256 * *high as usize + *low as usize;
            if rest.len() < len {
                return Err(CodecFault::Short);
            }
            Ok(rest.split_at(len))
        }
    }
}

/// The name and the bytes of a value, where its tag is before `bytes`, and the bytes after it.
#[tactic(auto, unfolding(crate::specs::Reading::fields_at))]
pub(crate) fn fields_of(bytes: &[u8]) -> Result<(&[u8], &[u8], &[u8]), CodecFault>
    ensures { Gives (λ x. (x.0.now, x.1.now, x.2.now)) result (fields_at bytes.now) }
{
    let (name, rest) = counted_of(bytes)?;
    let (value, rest) = counted_of(rest)?;
    Ok((name, value, rest))
}

/// The element of a tag, a name and bytes. A tag of a collection needs a name and bytes of its form.
#[tactic(auto, unfolding(crate::specs::Kind::kind_of))]
pub(crate) fn kind_of<'a>(tag: u8, name: &'a [u8], bytes: &'a [u8]) -> Option<ElementView<'a>>
    ensures { kind_of tag name.now bytes.now ≡ option_map seen result }
{
    match tag {
        BEGIN_COLLECTION => match bytes {
            [] => Some(ElementView::Begin(name)),
            _ => None,
        },
        MEMBER_NAME => match (name, bytes) {
            ([], [_, ..]) => Some(ElementView::Named(bytes)),
            _ => None,
        },
        END_COLLECTION => match (name, bytes) {
            ([], []) => Some(ElementView::Finish),
            _ => None,
        },
        _ => Some(ElementView::Plain(tag, name, bytes)),
    }
}

/// The element of a value with this tag at the beginning, and the bytes after it.
fn value_of(tag: u8, bytes: &[u8]) -> Option<(ElementView<'_>, &[u8])>
    ensures { element_from tag (fields_at bytes.now) ≡ option_map (λ x. (seen x.0, x.1.now)) result }
{
    let (name, value, rest) = fields_of(bytes).ok()?;
    let element = kind_of(tag, name, value)?;
    Some((element, rest))
}

/// The element at the beginning, if there is one, and the bytes after it.
#[tactic(auto, unfolding(crate::specs::Reading::element_at))]
pub(crate) fn element_of(bytes: &[u8]) -> Option<(ElementView<'_>, &[u8])>
    ensures { element_at bytes.now ≡ option_map (λ x. (seen x.0, x.1.now)) result }
{
    let [tag, rest @ ..] = bytes else {
        return None;
    };
    match *tag {
        0 | END => None,
        tag if tag < FIRST_VALUE_TAG => Some((ElementView::Opening(tag), rest)),
        tag => value_of(tag, rest),
    }
}
