//! Responses as bytes.
ghost use Rattle.std.specs.Prelude.{◌≡◌, ◌++◌, IfOk};
ghost use Rattle.std.specs.List.{AllByRecursion};
ghost use Rattle.ipp_codec.specs.Grammar.{IsGroup};
ghost use Rattle.ipp_operations.specs.Reply.{tells_unsupported, unsupported_of, IsReply};

use crate::refusal::ipp_refusal;
use events::{IppResponse, ResponseGroups, Status};
use ipp_codec::{Group, GroupTag, encode_after};
use job_template::RequestAttributes;
use std::alloc::{AllocError, Global};

/// The number of bytes of a refusal before its end byte.
const REFUSAL_PREFIX: usize = 71;

/// The bytes of the reply to a request-id (RFC 8011, section 4.1.4.2). They begin as a refusal of the status
/// does. The only error is out of memory.
#[tactic(auto, using(crate::proofs::ReplyPrefix::after_prefix))]
pub fn ipp_response(
    alloc: Global,
    answer: IppResponse,
    request_id: u32,
) -> Result<Vec<u8>, AllocError>
    ensures { IfOk result (λ bytes. IsReply answer request_id bytes.items) }
{
    let IppResponse {
        status,
        unsupported,
        groups,
    } = answer;
    let groups = groups_of(alloc, status, unsupported, groups)?;
    let refusal = ipp_refusal(status, request_id);
    encode_after(alloc, &refusal[..REFUSAL_PREFIX], &groups)
}

/// The groups after the operation group of a reply: that of the unsupported attributes, if the status reports
/// them and there are any, and then those of the response. The only error is out of memory.
fn groups_of(
    alloc: Global,
    status: Status,
    unsupported: RequestAttributes,
    groups: ResponseGroups,
) -> Result<Vec<Group>, AllocError>
    ensures value { IfOk result (λ all. all.items ≡ unsupported_of status unsupported ++ groups) }
    ensures spelt { IfOk result (λ all. AllByRecursion IsGroup all.items) }
{
    let attributes = unsupported.into_vec();
    let mut groups = groups.into_vec();
    if !tells_unsupported(status) || attributes.is_empty() {
        return Ok(groups);
    }
    let mut all = Vec::with_capacity(alloc, groups.len() + 1)?;
    all.push(Group {
        tag: GroupTag::UNSUPPORTED,
        attributes,
    })?;
    all.append(&mut groups)?;
    Ok(all)
}

/// Returns whether the status reports unsupported attributes.
fn tells_unsupported(status: Status) -> bool
    ensures { result ≡ tells_unsupported status }
{
    matches!(
        status,
        Status::OkIgnoredOrSubstituted | Status::AttributesNotSupported
    )
}
