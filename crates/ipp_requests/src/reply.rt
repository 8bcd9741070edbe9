//! The content of a reply.
ghost use Rattle.std.specs.Prelude.{◌≡◌, ℕ, take, option_map, IfSome};
ghost use Rattle.ipp_codec.specs.Grammar.{Spells};
ghost use Rattle.ipp_codec.specs.Views.{attribute_shown, group_shown, message_shown};
ghost use Rattle.ipp_requests.specs.Reply.{group_in, attribute_named, first_in, number_in, has_value, lists, lists_number, is_successful};

use ipp_codec::{AttributeView, GroupTag, GroupView, MessageView, decode};

/// The message at the beginning of a reply's body, if there is one.
pub fn reply_in(body: &[u8]) -> Option<MessageView<'_>>
    ensures { IfSome result (λ reply. (count : ℕ) × Spells (take count body.now) (message_shown reply)) }
{
    match decode(body) {
        Ok((reply, _)) => Some(reply),
        Err(_) => None,
    }
}

/// Returns whether the status of a reply is a success (RFC 8011, appendix B).
pub fn is_successful(status: u16) -> bool
    ensures { result ≡ is_successful status }
{
    status < 0x100
}

/// The first group of a tag.
fn group_in<'a>(reply: &MessageView<'a>, tag: GroupTag) -> Option<GroupView<'a>>
    ensures { option_map group_shown result ≡ group_in tag (message_shown reply.now).groups }
{
    for group in reply.groups() {
        if group.tag() == tag {
            return Some(group);
        }
    }
    None
}

/// The first attribute of a name.
fn attribute_named<'a>(group: &GroupView<'a>, name: &[u8]) -> Option<AttributeView<'a>>
    ensures { option_map attribute_shown result ≡ attribute_named name.now (group_shown group.now).attributes }
{
    for attribute in group.attributes() {
        if attribute.name() == name {
            return Some(attribute);
        }
    }
    None
}

/// The first attribute of a name in the first group of a tag.
pub fn first_in<'a>(
    reply: &MessageView<'a>,
    tag: GroupTag,
    name: &[u8],
) -> Option<AttributeView<'a>>
    ensures { option_map attribute_shown result ≡ first_in tag name.now (message_shown reply.now) }
{
    match group_in(reply, tag) {
        Some(group) => attribute_named(&group, name),
        None => None,
    }
}

/// The number of an attribute's first value, if that is an integer or an enum.
pub fn number_in(reply: &MessageView<'_>, tag: GroupTag, name: &[u8]) -> Option<i32>
    ensures { result ≡ number_in tag name.now (message_shown reply.now) }
{
    match first_in(reply, tag, name) {
        Some(attribute) => attribute.first().as_integer(),
        None => None,
    }
}

/// Returns whether an attribute has a value with these bytes.
fn has_value(attribute: &AttributeView<'_>, bytes: &[u8]) -> bool
    ensures { result ≡ has_value bytes.now (attribute_shown attribute.now) }
{
    for value in attribute.values() {
        if value.bytes() == bytes {
            return true;
        }
    }
    false
}

/// Returns whether an attribute has a value with these bytes: a keyword, a name or a format.
pub fn lists(reply: &MessageView<'_>, tag: GroupTag, name: &[u8], bytes: &[u8]) -> bool
    ensures { result ≡ lists tag name.now bytes.now (message_shown reply.now) }
{
    match first_in(reply, tag, name) {
        Some(attribute) => has_value(&attribute, bytes),
        None => false,
    }
}

/// Returns whether an attribute has this number among its values.
pub fn lists_number(reply: &MessageView<'_>, tag: GroupTag, name: &[u8], number: u32) -> bool
    ensures { result ≡ lists_number tag name.now number (message_shown reply.now) }
{
    lists(reply, tag, name, &number.to_be_bytes())
}
