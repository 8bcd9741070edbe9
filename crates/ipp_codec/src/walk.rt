//! The next group, attribute, member or value of a head that has been read.
ghost use Rattle.std.specs.Prelude.{◌≡◌, ◌≤◌, length};
ghost use Rattle.ipp_codec.specs.Shown.{shown, below};
ghost use Rattle.ipp_codec.specs.Views.{FirstShown, NextEntry, NextGroup, NextAttribute, NextMember, NextValue};

use crate::element::{BEGIN_COLLECTION, ElementView, element_of};
use crate::member_view::MemberView;
use crate::view::{AttributeView, GroupView, ValueView};

/// An entry of a head, where a collection counts as one value.
#[derive(Clone, Copy)]
pub enum Entry<'a> {
    Group(u8),
    Value(&'a [u8], ValueView<'a>),
    Member(&'a [u8]),
    End,
}

/// The element at the beginning, and the bytes after it.
fn first_of(bytes: &[u8]) -> Option<(ElementView<'_>, &[u8])>
    ensures { FirstShown bytes.now result }
{
    element_of(bytes)
}

/// The bytes after the end of the collection in which the bytes begin.
fn tail(bytes: &[u8]) -> &[u8]
    ensures levels { shown result.now ≡ below (shown bytes.now) }
    ensures shorter { length result.now ≤ length bytes.now }
{
    let mut rest = bytes;
    let mut open = 1usize;
    while let Some((element, after)) = first_of(rest) {
        rest = after;
        match element {
            ElementView::Begin(_) => open += 1,
            ElementView::Finish if open == 1 => return rest,
            ElementView::Finish => open -= 1,
            _ => {}
        }
    }
    &[]
}

/// The entry at the beginning, and the bytes after it.
fn next_entry(bytes: &[u8]) -> Option<(Entry<'_>, &[u8])>
    ensures { NextEntry bytes.now result }
{
    let (element, after) = first_of(bytes)?;
    match element {
        ElementView::Opening(tag) => Some((Entry::Group(tag), after)),
        ElementView::Plain(tag, name, bytes) => {
            let value = ValueView {
                tag,
                content: bytes,
            };
            Some((Entry::Value(name, value), after))
        }
        ElementView::Begin(name) => {
            let value = ValueView {
                tag: BEGIN_COLLECTION,
                content: after,
            };
            Some((Entry::Value(name, value), tail(after)))
        }
        ElementView::Named(name) => Some((Entry::Member(name), after)),
        ElementView::Finish => Some((Entry::End, after)),
    }
}

/// The first group in the bytes; values and members before it are skipped.
pub(crate) fn next_group(bytes: &[u8]) -> Option<GroupView<'_>>
    ensures { NextGroup bytes.now result }
{
    let mut rest = bytes;
    while let Some((entry, after)) = next_entry(rest) {
        rest = after;
        match entry {
            Entry::Group(tag) => return Some(GroupView { tag, rest }),
            Entry::End => return None,
            Entry::Value(..) | Entry::Member(_) => {}
        }
    }
    None
}

/// The first attribute in the bytes; values without names and members before it are skipped.
pub(crate) fn next_attribute(bytes: &[u8]) -> Option<AttributeView<'_>>
    ensures { NextAttribute bytes.now result }
{
    let mut rest = bytes;
    while let Some((element, after)) = first_of(rest) {
        rest = after;
        match element {
            ElementView::Opening(_) | ElementView::Finish => return None,
            ElementView::Plain(tag, name, content) => {
                if !name.is_empty() {
                    let first = ValueView { tag, content };
                    return Some(AttributeView { name, first, rest });
                }
            }
            ElementView::Begin(name) => {
                rest = tail(after);
                if !name.is_empty() {
                    let first = ValueView {
                        tag: BEGIN_COLLECTION,
                        content: after,
                    };
                    return Some(AttributeView { name, first, rest });
                }
            }
            ElementView::Named(_) => {}
        }
    }
    None
}

/// The first member in the bytes; values and names without a value before it are skipped.
pub(crate) fn next_member(bytes: &[u8]) -> Option<MemberView<'_>>
    ensures { NextMember bytes.now result }
{
    let mut rest = bytes;
    while let Some((entry, after)) = next_entry(rest) {
        rest = after;
        match entry {
            Entry::Group(_) | Entry::End => return None,
            Entry::Value(..) => {}
            Entry::Member(name) => {
                if let Some((first, tail)) = next_value(rest) {
                    return Some(MemberView {
                        name,
                        first,
                        rest: tail,
                    });
                }
            }
        }
    }
    None
}

/// The value without a name at the beginning, and the bytes after it.
pub(crate) fn next_value(bytes: &[u8]) -> Option<(ValueView<'_>, &[u8])>
    ensures { NextValue bytes.now result }
{
    let (element, after) = first_of(bytes)?;
    match element {
        ElementView::Plain(tag, name, content) if name.is_empty() => {
            Some((ValueView { tag, content }, after))
        }
        ElementView::Begin(name) if name.is_empty() => {
            let value = ValueView {
                tag: BEGIN_COLLECTION,
                content: after,
            };
            Some((value, tail(after)))
        }
        _ => None,
    }
}
