//! Requests to a printer, as the bytes of their messages.
ghost use Rattle.std.specs.Prelude.{◌≡◌, IfOk, map};
ghost use Rattle.ipp_codec.specs.Spelling.{spelling};
ghost use Rattle.ipp_requests.specs.Request.{asked_of_printer, asked_of_job, canceled, printed, message_of};

use crate::group::{about_job, about_printer, put_user, put_values};
use crate::ticket::{Ticket, document_group, job_group};
use ipp_codec::{EncodeFault, Group, Message, ValueTag, Version, encode};
use std::alloc::{AllocError, Global};

/// IPP/1.1, which each printer supports (RFC 8011, section 4.1.8).
const VERSION: Version = Version { major: 1, minor: 1 };

const PRINT_JOB: u16 = 0x0002;

pub(crate) const CANCEL_JOB: u16 = 0x0008;

const GET_JOB_ATTRIBUTES: u16 = 0x0009;

const GET_PRINTER_ATTRIBUTES: u16 = 0x000B;

/// A Get-Printer-Attributes for the attributes of these names (RFC 8011, section 4.2.5).
pub fn ask_of_printer(alloc: Global, uri: &[u8], names: &[&[u8]]) -> Result<Vec<u8>, EncodeFault>
    ensures { IfOk result (λ bytes. bytes.items ≡ spelling (asked_of_printer uri.now (map (λ name. name.now) names.now))) }
{
    match printer_asked(alloc, uri, names) {
        Ok(message) => spelled(alloc, &message),
        Err(AllocError) => Err(EncodeFault::OutOfMemory),
    }
}

/// A Get-Job-Attributes for the attributes of these names (RFC 8011, section 4.3.4).
pub fn ask_of_job(
    alloc: Global,
    uri: &[u8],
    job: i32,
    names: &[&[u8]],
) -> Result<Vec<u8>, EncodeFault>
    ensures { IfOk result (λ bytes. bytes.items ≡ spelling (asked_of_job uri.now job (map (λ name. name.now) names.now))) }
{
    match job_asked(alloc, uri, job, names) {
        Ok(message) => spelled(alloc, &message),
        Err(AllocError) => Err(EncodeFault::OutOfMemory),
    }
}

/// A Cancel-Job (RFC 8011, section 4.3.3).
pub fn cancel_job(alloc: Global, uri: &[u8], job: i32) -> Result<Vec<u8>, EncodeFault>
    ensures { IfOk result (λ bytes. bytes.items ≡ spelling (canceled uri.now job)) }
{
    match job_canceled(alloc, uri, job) {
        Ok(message) => spelled(alloc, &message),
        Err(AllocError) => Err(EncodeFault::OutOfMemory),
    }
}

/// A Print-Job, after which the document follows (RFC 8011, section 4.2.1).
pub fn print_job(alloc: Global, uri: &[u8], ticket: &Ticket<'_>) -> Result<Vec<u8>, EncodeFault>
    ensures { IfOk result (λ bytes. bytes.items ≡ spelling (printed uri.now ticket.now)) }
{
    match job_printed(alloc, uri, ticket) {
        Ok(message) => spelled(alloc, &message),
        Err(AllocError) => Err(EncodeFault::OutOfMemory),
    }
}

/// The bytes of a message.
pub(crate) fn spelled(alloc: Global, message: &Message) -> Result<Vec<u8>, EncodeFault>
    ensures { IfOk result (λ bytes. bytes.items ≡ spelling message.now) }
{
    let mut bytes = Vec::new(alloc);
    encode(message, &mut bytes)?;
    Ok(bytes)
}

/// A message of an operation and its group.
pub(crate) fn message_of(alloc: Global, operation: u16, group: Group) -> Result<Message, AllocError>
    ensures { IfOk result (λ message. message ≡ message_of operation group) }
{
    let mut message = Message::new(alloc, VERSION, operation, 1);
    message.push(group)?;
    Ok(message)
}

/// The message of a Get-Printer-Attributes.
fn printer_asked(alloc: Global, uri: &[u8], names: &[&[u8]]) -> Result<Message, AllocError>
    ensures { IfOk result (λ message. message ≡ asked_of_printer uri.now (map (λ name. name.now) names.now)) }
{
    let mut group = about_printer(alloc, uri)?;
    put_user(alloc, &mut group)?;
    put_values(
        alloc,
        &mut group,
        ValueTag::KEYWORD,
        b"requested-attributes",
        names,
    )?;
    message_of(alloc, GET_PRINTER_ATTRIBUTES, group)
}

/// The message of a Get-Job-Attributes.
fn job_asked(alloc: Global, uri: &[u8], job: i32, names: &[&[u8]]) -> Result<Message, AllocError>
    ensures { IfOk result (λ message. message ≡ asked_of_job uri.now job (map (λ name. name.now) names.now)) }
{
    let mut group = about_job(alloc, uri, job)?;
    put_values(
        alloc,
        &mut group,
        ValueTag::KEYWORD,
        b"requested-attributes",
        names,
    )?;
    message_of(alloc, GET_JOB_ATTRIBUTES, group)
}

/// The message of a Cancel-Job.
fn job_canceled(alloc: Global, uri: &[u8], job: i32) -> Result<Message, AllocError>
    ensures { IfOk result (λ message. message ≡ canceled uri.now job) }
{
    let group = about_job(alloc, uri, job)?;
    message_of(alloc, CANCEL_JOB, group)
}

/// The message of a Print-Job.
fn job_printed(alloc: Global, uri: &[u8], ticket: &Ticket<'_>) -> Result<Message, AllocError>
    ensures { IfOk result (λ message. message ≡ printed uri.now ticket.now) }
{
    let group = document_group(alloc, uri, ticket)?;
    let mut message = message_of(alloc, PRINT_JOB, group)?;
    message.push(job_group(alloc, ticket)?)?;
    Ok(message)
}
