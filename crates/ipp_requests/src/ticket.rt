//! The options of a job.
ghost use Rattle.std.specs.Prelude.{◌≡◌, ◌++◌, IfOk, OnOk, map};
ghost use Rattle.ipp_requests.specs.Ticket.{document_group, job_group, with_copies, with_words, finishing_codes, code_if};

use crate::group::{about_printer, put, put_number, put_user, put_values};
use base_types::Finishings;
use ipp_codec::{Group, GroupTag, ValueTag};
use std::alloc::{AllocError, Global};

/// The options of a Print-Job (RFC 8011, section 4.2.1.1). The printer chooses those that are `None`.
#[derive(Clone, Copy)]
pub struct Ticket<'a> {
    /// The job's name.
    pub name: &'a [u8],
    /// The media type of its document.
    pub format: &'a [u8],
    /// The number of copies, 1 to 999.
    pub copies: Option<u32>,
    /// A keyword of sides (RFC 8011, section 5.2.8).
    pub sides: Option<&'a [u8]>,
    /// A name of media (RFC 8011, section 5.2.11).
    pub media: Option<&'a [u8]>,
    pub finishings: Finishings,
}

/// The operation group of a Print-Job. The printer may leave out what it doesn't support.
pub(crate) fn document_group(
    alloc: Global,
    uri: &[u8],
    ticket: &Ticket<'_>,
) -> Result<Group, AllocError>
    ensures { IfOk result (λ group. group ≡ document_group uri.now ticket.now) }
{
    let mut group = about_printer(alloc, uri)?;
    put_user(alloc, &mut group)?;
    put(alloc, &mut group, ValueTag::NAME, b"job-name", ticket.name)?;
    put(
        alloc,
        &mut group,
        ValueTag::BOOLEAN,
        b"ipp-attribute-fidelity",
        &[0],
    )?;
    put(
        alloc,
        &mut group,
        ValueTag::MIME_MEDIA_TYPE,
        b"document-format",
        ticket.format,
    )?;
    Ok(group)
}

/// The job group of a Print-Job.
pub(crate) fn job_group(alloc: Global, ticket: &Ticket<'_>) -> Result<Group, AllocError>
    ensures { IfOk result (λ group. group ≡ job_group ticket.now) }
{
    let mut group = Group::new(alloc, GroupTag::JOB);
    put_copies(alloc, &mut group, ticket.copies)?;
    put_word(alloc, &mut group, b"sides", ticket.sides)?;
    put_word(alloc, &mut group, b"media", ticket.media)?;
    let codes = finishing_codes(alloc, ticket.finishings)?;
    put_values(
        alloc,
        &mut group,
        ValueTag::ENUM,
        b"finishings",
        codes.as_slice(),
    )?;
    Ok(group)
}

/// Appends the number of copies, if it is given.
fn put_copies(alloc: Global, group: &mut Group, copies: Option<u32>) -> Result<(), AllocError>
    ensures { OnOk result (group.new ≡ with_copies copies group.old) }
{
    match copies {
        Some(count) => put_number(alloc, group, b"copies", count),
        None => Ok(()),
    }
}

/// Appends a keyword, if it is given.
fn put_word(
    alloc: Global,
    group: &mut Group,
    name: &[u8],
    word: Option<&[u8]>,
) -> Result<(), AllocError>
    ensures { OnOk result (group.new ≡ with_words name.now word.entry group.old) }
{
    match word {
        Some(word) => put(alloc, group, ValueTag::KEYWORD, name, word),
        None => Ok(()),
    }
}

/// The numbers of finishings (RFC 8011, section 5.2.6).
pub(crate) fn finishing_codes(
    alloc: Global,
    finishings: Finishings,
) -> Result<Vec<&'static [u8]>, AllocError>
    ensures { IfOk result (λ codes. map (λ code. code.now) codes.items ≡ finishing_codes finishings) }
{
    let mut codes: Vec<&'static [u8]> = Vec::new(alloc);
    put_code(&mut codes, finishings.staple, &[0, 0, 0, 4])?;
    put_code(&mut codes, finishings.punch, &[0, 0, 0, 5])?;
    put_code(&mut codes, finishings.bind, &[0, 0, 0, 7])?;
    Ok(codes)
}

/// Appends a number, if `wanted` is true.
fn put_code<'a>(codes: &mut Vec<&'a [u8]>, wanted: bool, code: &'a [u8]) -> Result<(), AllocError>
    ensures { OnOk result (map (λ code. code.now) codes.new.items ≡ map (λ code. code.now) codes.old.items ++ code_if wanted code.now) }
{
    if wanted {
        codes.push(code)?;
    }
    Ok(())
}
