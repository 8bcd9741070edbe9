//! The messages that are requests, and their users.
ghost use Rattle.std.specs.Prelude.{◌≡◌, option_map, IfOk};
ghost use Rattle.ipp_codec.specs.Grammar.{IsMessage};
ghost use Rattle.ipp_codec.specs.Views.{attribute_shown, group_shown, message_shown};
ghost use Rattle.ipp_operations.specs.Request.{is_named, begins_request, is_operation_group, operation_group, job_group, job_attributes, is_utf8, user_of};

use crate::attributes::{first_named, name_or};
use crate::copied::first_of_each;
use crate::operation_attribute::OperationAttribute;
use base_types::{Limits, Text};
use ipp_codec::{AttributeView, GroupTag, GroupView, MessageView, ValueTag};
use job_template::RequestAttributes;
use std::alloc::{AllocError, Global};

/// The operation group of a request, which is its first group; `None` if the message isn't a request. The syntax of
/// a request-id is `integer(1:MAX)` (RFC 8011, section 4.1.2).
pub(crate) fn operation_group<'a>(message: &MessageView<'a>) -> Option<GroupView<'a>>
    ensures { option_map group_shown result ≡ operation_group (message_shown message.now) }
{
    let id = message.request_id();
    if id < 1 || Limits::LAST_INTEGER < id {
        return None;
    }
    let group = message.groups().next()?;
    if is_operation_group(&group) {
        Some(group)
    } else {
        None
    }
}

/// Returns whether a group is the operation group of a request.
fn is_operation_group(group: &GroupView<'_>) -> bool
    ensures { result ≡ is_operation_group (group_shown group.now) }
{
    group.tag() == GroupTag::OPERATION && begins_request(group)
}

/// The first job group, if there is one.
fn job_group<'a>(message: &MessageView<'a>) -> Option<GroupView<'a>>
    ensures { option_map group_shown result ≡ job_group (message_shown message.now) }
{
    for group in message.groups() {
        if group.tag() == GroupTag::JOB {
            return Some(group);
        }
    }
    None
}

/// The attributes of the job group, unchanged, the first of each name. The only error is out of memory.
pub(crate) fn job_attributes(
    alloc: Global,
    message: &MessageView<'_>,
) -> Result<RequestAttributes, AllocError>
    requires { IsMessage (message_shown message.now) }
    ensures { IfOk result (λ attributes. attributes ≡ job_attributes (message_shown message.now)) }
{
    match job_group(message) {
        Some(group) => first_of_each(alloc, &group),
        None => Ok(RequestAttributes::new(alloc)),
    }
}

/// Returns whether the group begins with the charset and the natural language.
fn begins_request(group: &GroupView<'_>) -> bool
    ensures { result ≡ begins_request (group_shown group.now).attributes }
{
    let mut attributes = group.attributes();
    let (Some(charset), Some(language)) = (attributes.next(), attributes.next()) else {
        return false;
    };
    is_named(&charset, b"attributes-charset", ValueTag::CHARSET)
        && is_named(
            &language,
            b"attributes-natural-language",
            ValueTag::NATURAL_LANGUAGE,
        )
}

/// Returns whether an attribute has a name, and its first value a tag.
fn is_named(attribute: &AttributeView<'_>, name: &[u8], tag: ValueTag) -> bool
    ensures { result ≡ is_named name.now tag (attribute_shown attribute.now) }
{
    attribute.name() == name && attribute.first().tag() == tag
}

/// Returns whether the charset is utf-8, without regard to the case of ASCII letters.
pub(crate) fn is_utf8(group: &GroupView<'_>) -> bool
    ensures { result ≡ is_utf8 (group_shown group.now) }
{
    match first_named(group, b"attributes-charset") {
        Some(charset) => charset.first().bytes().eq_ignore_ascii_case(b"utf-8"),
        None => false,
    }
}

/// The user who sends the request, as the request claims. The only error is out of memory.
pub(crate) fn user_of(alloc: Global, group: &GroupView<'_>) -> Result<Text, AllocError>
    ensures { IfOk result (λ user. user ≡ user_of (group_shown group.now)) }
{
    name_or(
        alloc,
        group,
        OperationAttribute::RequestingUserName,
        b"anonymous",
    )
}
