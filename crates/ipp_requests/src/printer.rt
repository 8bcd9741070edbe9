//! The state of a printer in its reply (RFC 8011, section 5.4).
ghost use Rattle.std.specs.Prelude.{◌≡◌};
ghost use Rattle.ipp_codec.specs.Views.{attribute_shown, message_shown};
ghost use Rattle.ipp_requests.specs.Printer.{is_stop_reason, without_error, stops_by, has_stop_reason, is_state_stopped, is_stopped, upper_of, copies_up_to};

use crate::reply::{first_in, number_in};
use ipp_codec::{AttributeView, GroupTag, MessageView};

/// The value of printer-state of a stopped printer (RFC 8011, section 5.4.11).
const STOPPED: i32 = 5;

/// Returns whether a printer prints no job before a person comes: the printer is stopped, or one of its
/// reasons needs a person.
pub fn is_stopped(reply: &MessageView<'_>) -> bool
    ensures { result ≡ is_stopped (message_shown reply.now) }
{
    if is_state_stopped(number_in(reply, GroupTag::PRINTER, b"printer-state")) {
        return true;
    }
    match first_in(reply, GroupTag::PRINTER, b"printer-state-reasons") {
        Some(reasons) => has_stop_reason(&reasons),
        None => false,
    }
}

/// Returns whether a printer-state is that of a stopped printer.
fn is_state_stopped(state: Option<i32>) -> bool
    ensures { result ≡ is_state_stopped state }
{
    match state {
        Some(state) => state == STOPPED,
        None => false,
    }
}

/// Returns whether one of the reasons stops a printer.
fn has_stop_reason(reasons: &AttributeView<'_>) -> bool
    ensures { result ≡ has_stop_reason (attribute_shown reasons.now) }
{
    for reason in reasons.values() {
        if stops_by(reason.bytes()) {
            return true;
        }
    }
    false
}

/// Returns whether a reason stops a printer. A reason without a suffix is an error (RFC 8011, section
/// 5.4.12).
fn stops_by(reason: &[u8]) -> bool
    ensures { result ≡ stops_by reason.now }
{
    is_stop_reason(without_error(reason))
}

/// A reason without the suffix of an error.
#[tactic(auto, unfolding(crate::specs::Printer::without_error))]
fn without_error(reason: &[u8]) -> &[u8]
    ensures { result.now ≡ without_error reason.now }
{
    reason.strip_suffix(b"-error").unwrap_or(reason)
}

/// Returns whether a reason needs a person at the printer.
#[tactic(auto, unfolding(crate::specs::Printer::is_stop_reason))]
fn is_stop_reason(reason: &[u8]) -> bool
    ensures { result ≡ is_stop_reason reason.now }
{
    reason == b"media-empty".as_slice()
        || reason == b"media-needed".as_slice()
        || reason == b"media-jam".as_slice()
        || reason == b"door-open".as_slice()
        || reason == b"cover-open".as_slice()
        || reason == b"marker-supply-empty".as_slice()
        || reason == b"toner-empty".as_slice()
        || reason == b"offline".as_slice()
        || reason == b"paused".as_slice()
}

/// The most copies that a printer makes of a job; 1 if the reply doesn't have them.
pub fn copies_up_to(reply: &MessageView<'_>) -> u32
    ensures { result ≡ copies_up_to (message_shown reply.now) }
{
    match first_in(reply, GroupTag::PRINTER, b"copies-supported") {
        Some(range) => upper_of(range.first().bytes()),
        None => 1,
    }
}

/// The upper bound of a range (RFC 8010, section 3.9).
fn upper_of(range: &[u8]) -> u32
    ensures { result ≡ upper_of range.now }
{
    match range {
        [_, _, _, _, first, second, third, fourth] => {
            u32::from_be_bytes([*first, *second, *third, *fourth])
        }
        _ => 1,
    }
}
