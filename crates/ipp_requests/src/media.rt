//! The media that a printer has loaded.
ghost use Rattle.std.specs.Prelude.{IfOk, IfSome};
ghost use Rattle.ipp_requests.specs.Media.{AreMedia};

use crate::reply::first_in;
use base_types::{Limits, Text, is_media};
use ipp_codec::{AttributeView, GroupTag, MessageView};
use std::alloc::{AllocError, Global};

/// The most bytes of the names in a line, each with the byte before it: the bytes of the line without its
/// word and its line feed.
const NAMES_BYTES: usize = Limits::DEVICE_LINE_BYTES - 6;

/// The media that a printer reports as loaded, else its default medium; `None` if the reply has neither.
/// Values that aren't names of media are left out, and so are those that don't fit in a line to the server.
pub fn loaded_media(alloc: Global, reply: &MessageView<'_>) -> Result<Option<Vec<Text>>, AllocError>
    ensures { IfOk result (λ names. IfSome names (λ some. AreMedia some.items)) }
{
    let ready = first_in(reply, GroupTag::PRINTER, b"media-ready");
    let default = first_in(reply, GroupTag::PRINTER, b"media-default");
    match ready.or(default) {
        Some(attribute) => Ok(Some(names_of(alloc, &attribute)?)),
        None => Ok(None),
    }
}

/// The names of media among the values of an attribute.
fn names_of(alloc: Global, attribute: &AttributeView<'_>) -> Result<Vec<Text>, AllocError>
    ensures { IfOk result (λ names. AreMedia names.items) }
{
    let mut names = Vec::new(alloc);
    let mut room = NAMES_BYTES;
    for value in attribute.values() {
        let name = value.bytes();
        if is_media(name) && name.len() < room {
            names.push(Text::copy_of(alloc, name)?)?;
            room -= name.len() + 1;
        }
    }
    Ok(names)
}
