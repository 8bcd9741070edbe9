//! Requests of a user who submits a job, as the bytes of their messages.
ghost use Rattle.std.specs.Prelude.{◌≡◌, IfOk, OnOk, map};
ghost use Rattle.ipp_codec.specs.Spelling.{spelling};
ghost use Rattle.ipp_requests.specs.Request.{message_of};
ghost use Rattle.ipp_requests.specs.Submission.{with_impressions, with_order, with_format, creation_group, creation_job, about_users_job, document_sent, created, sent, users_canceled, paused};

use crate::group::{from_user, put, put_number, put_values};
use crate::request::{CANCEL_JOB, message_of, spelled};
use crate::ticket::finishing_codes;
use base_types::Finishings;
use ipp_codec::{EncodeFault, Group, GroupTag, Message, ValueTag};
use std::alloc::{AllocError, Global};

const CREATE_JOB: u16 = 0x0005;

const SEND_DOCUMENT: u16 = 0x0006;

const PAUSE_PRINTER: u16 = 0x0010;

/// The attributes of a Create-Job (RFC 8011, section 4.2.4). The printer is to refuse the job if it doesn't support
/// all of them.
#[derive(Clone, Copy)]
pub struct Creation<'a> {
    /// The name of the user, who owns the job.
    pub user: &'a [u8],
    /// The job's name.
    pub name: &'a [u8],
    /// The number of impressions, if it is given.
    pub impressions: Option<u32>,
    /// 1 to 100 (RFC 8011, section 5.2.1).
    pub priority: u32,
    /// A keyword of job-hold-until (RFC 8011, section 5.2.2).
    pub hold_until: &'a [u8],
    pub copies: u32,
    /// A keyword of sides (RFC 8011, section 5.2.8).
    pub sides: &'a [u8],
    /// A name of media (RFC 8011, section 5.2.11).
    pub media: &'a [u8],
    pub finishings: Finishings,
}

/// A Create-Job (RFC 8011, section 4.2.4).
pub fn create_job(
    alloc: Global,
    uri: &[u8],
    creation: &Creation<'_>,
) -> Result<Vec<u8>, EncodeFault>
    ensures { IfOk result (λ bytes. bytes.items ≡ spelling (created uri.now creation.now)) }
{
    match job_created(alloc, uri, creation) {
        Ok(message) => spelled(alloc, &message),
        Err(AllocError) => Err(EncodeFault::OutOfMemory),
    }
}

/// A Send-Document of a job, after which the document follows; without a format it has no document (RFC 8011,
/// section 4.3.1).
pub fn send_document(
    alloc: Global,
    uri: &[u8],
    user: &[u8],
    job: i32,
    format: Option<&[u8]>,
    last: bool,
) -> Result<Vec<u8>, EncodeFault>
    ensures { IfOk result (λ bytes. bytes.items ≡ spelling (sent uri.now user.now job format.entry last)) }
{
    match document_sent(alloc, uri, user, job, format, last) {
        Ok(group) => one_group(alloc, SEND_DOCUMENT, group),
        Err(AllocError) => Err(EncodeFault::OutOfMemory),
    }
}

/// A Cancel-Job that a user of this name sends (RFC 8011, section 4.3.3).
pub fn cancel_users_job(
    alloc: Global,
    uri: &[u8],
    user: &[u8],
    job: i32,
) -> Result<Vec<u8>, EncodeFault>
    ensures { IfOk result (λ bytes. bytes.items ≡ spelling (users_canceled uri.now user.now job)) }
{
    match about_users_job(alloc, uri, user, job) {
        Ok(group) => one_group(alloc, CANCEL_JOB, group),
        Err(AllocError) => Err(EncodeFault::OutOfMemory),
    }
}

/// A Pause-Printer that a user of this name sends (RFC 8011, section 4.2.7).
pub fn pause_printer(alloc: Global, uri: &[u8], user: &[u8]) -> Result<Vec<u8>, EncodeFault>
    ensures { IfOk result (λ bytes. bytes.items ≡ spelling (paused uri.now user.now)) }
{
    match from_user(alloc, uri, user) {
        Ok(group) => one_group(alloc, PAUSE_PRINTER, group),
        Err(AllocError) => Err(EncodeFault::OutOfMemory),
    }
}

/// The bytes of the message of an operation and its only group.
fn one_group(alloc: Global, operation: u16, group: Group) -> Result<Vec<u8>, EncodeFault>
    ensures { IfOk result (λ bytes. bytes.items ≡ spelling (message_of operation group)) }
{
    match message_of(alloc, operation, group) {
        Ok(message) => spelled(alloc, &message),
        Err(AllocError) => Err(EncodeFault::OutOfMemory),
    }
}

/// The message of a Create-Job.
fn job_created(alloc: Global, uri: &[u8], creation: &Creation<'_>) -> Result<Message, AllocError>
    ensures { IfOk result (λ message. message ≡ created uri.now creation.now) }
{
    let group = creation_group(alloc, uri, creation)?;
    let mut message = message_of(alloc, CREATE_JOB, group)?;
    message.push(creation_job(alloc, creation)?)?;
    Ok(message)
}

/// The operation group of a Create-Job.
fn creation_group(alloc: Global, uri: &[u8], creation: &Creation<'_>) -> Result<Group, AllocError>
    ensures { IfOk result (λ group. group ≡ creation_group uri.now creation.now) }
{
    let mut group = from_user(alloc, uri, creation.user)?;
    put(
        alloc,
        &mut group,
        ValueTag::NAME,
        b"job-name",
        creation.name,
    )?;
    put(
        alloc,
        &mut group,
        ValueTag::BOOLEAN,
        b"ipp-attribute-fidelity",
        &[1],
    )?;
    put_impressions(alloc, &mut group, creation.impressions)?;
    Ok(group)
}

/// Appends the number of impressions, if it is given.
fn put_impressions(
    alloc: Global,
    group: &mut Group,
    impressions: Option<u32>,
) -> Result<(), AllocError>
    ensures { OnOk result (group.new ≡ with_impressions impressions group.old) }
{
    match impressions {
        Some(count) => put_number(alloc, group, b"job-impressions", count),
        None => Ok(()),
    }
}

/// The job group of a Create-Job.
fn creation_job(alloc: Global, creation: &Creation<'_>) -> Result<Group, AllocError>
    ensures { IfOk result (λ group. group ≡ creation_job creation.now) }
{
    let mut group = Group::new(alloc, GroupTag::JOB);
    put_number(alloc, &mut group, b"copies", creation.copies)?;
    put(
        alloc,
        &mut group,
        ValueTag::KEYWORD,
        b"sides",
        creation.sides,
    )?;
    put(
        alloc,
        &mut group,
        ValueTag::KEYWORD,
        b"media",
        creation.media,
    )?;
    let codes = finishing_codes(alloc, creation.finishings)?;
    put_values(
        alloc,
        &mut group,
        ValueTag::ENUM,
        b"finishings",
        codes.as_slice(),
    )?;
    put_order(alloc, &mut group, creation)?;
    Ok(group)
}

/// Appends the priority and the hold.
fn put_order(alloc: Global, group: &mut Group, creation: &Creation<'_>) -> Result<(), AllocError>
    ensures { OnOk result (group.new ≡ with_order creation.now group.old) }
{
    put_number(alloc, group, b"job-priority", creation.priority)?;
    put(
        alloc,
        group,
        ValueTag::KEYWORD,
        b"job-hold-until",
        creation.hold_until,
    )?;
    Ok(())
}

/// The operation group of a request about a job that a user of this name sends.
fn about_users_job(alloc: Global, uri: &[u8], user: &[u8], job: i32) -> Result<Group, AllocError>
    ensures { IfOk result (λ group. group ≡ about_users_job uri.now user.now job) }
{
    let mut group = from_user(alloc, uri, user)?;
    put_number(alloc, &mut group, b"job-id", job.cast_unsigned())?;
    Ok(group)
}

/// The operation group of a Send-Document.
fn document_sent(
    alloc: Global,
    uri: &[u8],
    user: &[u8],
    job: i32,
    format: Option<&[u8]>,
    last: bool,
) -> Result<Group, AllocError>
    ensures { IfOk result (λ group. group ≡ document_sent uri.now user.now job format.entry last) }
{
    let mut group = about_users_job(alloc, uri, user, job)?;
    put_format(alloc, &mut group, format)?;
    put(
        alloc,
        &mut group,
        ValueTag::BOOLEAN,
        b"last-document",
        &[u8::from(last)],
    )?;
    Ok(group)
}

/// Appends the format of a document, if there is a document.
fn put_format(alloc: Global, group: &mut Group, format: Option<&[u8]>) -> Result<(), AllocError>
    ensures { OnOk result (group.new ≡ with_format format.entry group.old) }
{
    match format {
        Some(format) => put(
            alloc,
            group,
            ValueTag::MIME_MEDIA_TYPE,
            b"document-format",
            format,
        ),
        None => Ok(()),
    }
}
