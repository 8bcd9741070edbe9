//! Requests to a printer of IPP, and the facts in its replies.
use ipp_codec::GroupTag;
use ipp_requests::{cancel_job, copies_up_to, is_stopped, lists, loaded_media, reply_in};
use std::alloc::{AllocError, Global};
use std::test::Fail;

/// A Cancel-Job of IPP/1.1 (RFC 8010, section 3; RFC 8011, section 4.3.3).
const CANCEL: &[u8] =
    b"\x01\x01\x00\x08\x00\x00\x00\x01\x01\x47\x00\x12attributes-charset\x00\x05utf-8\x48\x00\x1battributes-natural-language\x00\x02en\x45\x00\x0bprinter-uri\x00\x09ipp://h/p\x21\x00\x06job-id\x00\x04\x00\x00\x00\x07\x42\x00\x14requesting-user-name\x00\x06printd\x03";

#[test]
fn a_request_of_ipp(rt: HostRuntime) -> Result<(), Fail> {
    let bytes = cancel_job(rt.alloc(), b"ipp://h/p", 7)?;
    assert!(rt; bytes.as_slice() == CANCEL);
    Ok(())
}

/// A printer that is idle and has a warning, two media of which one is no medium's name, and up to 9 copies.
const IDLE: &[u8] =
    b"\x01\x01\x00\x00\x00\x00\x00\x01\x01\x47\x00\x12attributes-charset\x00\x05utf-8\x04\x23\x00\x0dprinter-state\x00\x04\x00\x00\x00\x03\x44\x00\x15printer-state-reasons\x00\x11media-jam-warning\x44\x00\x0bmedia-ready\x00\x02a4\x44\x00\x00\x00\x02A5\x33\x00\x10copies-supported\x00\x08\x00\x00\x00\x01\x00\x00\x00\x09\x03";

/// A printer that is idle, and jammed.
const JAMMED: &[u8] =
    b"\x01\x01\x00\x00\x00\x00\x00\x01\x04\x23\x00\x0dprinter-state\x00\x04\x00\x00\x00\x03\x44\x00\x15printer-state-reasons\x00\x0dtoner-low-war\x44\x00\x00\x00\x0fmedia-jam-error\x03";

/// A printer that is stopped, without a reason.
const STOPPED: &[u8] =
    b"\x01\x01\x00\x00\x00\x00\x00\x01\x04\x23\x00\x0dprinter-state\x00\x04\x00\x00\x00\x05\x03";

/// Returns whether a printer is stopped, and the most copies that it makes; `None` where the body is no
/// reply.
fn state_of(body: &[u8]) -> Option<(bool, u32)> {
    let reply = reply_in(body)?;
    Some((is_stopped(&reply), copies_up_to(&reply)))
}

#[test]
fn states_of_printers(rt: HostRuntime) -> Result<(), Fail> {
    assert!(rt; state_of(IDLE) == Some((false, 9)));
    assert!(rt; state_of(JAMMED) == Some((true, 1)));
    assert!(rt; state_of(STOPPED) == Some((true, 1)));
    assert!(rt; state_of(b"\x01\x01").is_none());
    Ok(())
}

/// Returns whether the reply's only loaded medium is this medium, and the medium is listed as ready.
fn has_one_medium(alloc: Global, body: &[u8], name: &[u8]) -> Result<bool, AllocError> {
    let Some(reply) = reply_in(body) else {
        return Ok(false);
    };
    let Some(names) = loaded_media(alloc, &reply)? else {
        return Ok(false);
    };
    let is_ready = lists(&reply, GroupTag::PRINTER, b"media-ready", name);
    Ok(is_ready && names.len() == 1 && names.iter().all(|medium| medium.is(name)))
}

#[test]
fn media_of_printers(rt: HostRuntime) -> Result<(), Fail> {
    assert!(rt; has_one_medium(rt.alloc(), IDLE, b"a4")?);
    assert!(rt; !has_one_medium(rt.alloc(), JAMMED, b"a4")?);
    Ok(())
}
