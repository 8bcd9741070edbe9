//! Heads at the beginning of bytes.
ghost use Rattle.std.specs.Prelude.{◌≡◌, ◌≤◌, ℕ, length, take, IfOk, IfErr, IsOkAnd};
ghost use Rattle.ipp_codec.specs.Message.{IppMessage};
ghost use Rattle.ipp_codec.specs.Spelling.{spelling};
ghost use Rattle.ipp_codec.specs.Grammar.{Spells};
ghost use Rattle.ipp_codec.specs.FirstFault.{HeadFault};
ghost use Rattle.ipp_codec.specs.Decoding.{Lengths, fault_within};
ghost use Rattle.ipp_codec.specs.Views.{message_shown};

use crate::fault::CodecFault;
use crate::place::body_len;
use crate::view::{MessageView, Version};
use base_types::Limits;

/// Decodes the message at the beginning of the bytes. Returns it with the length of its spelling. Document data
/// may follow it.
pub fn decode(bytes: &[u8]) -> Result<(MessageView<'_>, usize), CodecFault>
    ensures found { IfOk result (λ x. (x.1 ≤ Limits.IPP_HEAD_BYTES) × (x.1 ≤ length bytes.now) × Spells (take x.1 bytes.now) (message_shown x.0)) }
    ensures only { (n : ℕ) (m : IppMessage) → n ≤ Limits.IPP_HEAD_BYTES → Spells (take n bytes.now) m
        → IsOkAnd result (λ x. (x.1 ≡ length (spelling m)) × (message_shown x.0 ≡ m)) }
    ensures fault { IfErr result (HeadFault bytes.now) }
{
    match head_length(bytes) {
        Ok(length) => Ok((view_of(&bytes[..length]), length)),
        Err(fault) => Err(fault),
    }
}

/// Returns the length of the spelling at the beginning of the bytes: the result of `decode`, without the message.
/// For a body that comes in chunks, `view_of` has the message once its head is whole.
pub fn head_length(bytes: &[u8]) -> Result<usize, CodecFault>
    ensures found { IfOk result (λ n. (n ≤ Limits.IPP_HEAD_BYTES) × (n ≤ length bytes.now) × ((m : IppMessage) × Spells (take n bytes.now) m)) }
    ensures only { (n : ℕ) (m : IppMessage) → n ≤ Limits.IPP_HEAD_BYTES → Spells (take n bytes.now) m → IsOkAnd result (λ x. x ≡ length (spelling m)) }
    ensures fault { IfErr result (HeadFault bytes.now) }
{
    let limited = &bytes[..bytes.len().min(Limits::IPP_HEAD_BYTES)];
    match any_length(limited) {
        Ok(length) => Ok(length),
        Err(fault) => Err(limited_fault(fault, bytes.len() >= Limits::IPP_HEAD_BYTES)),
    }
}

/// The message that the bytes spell.
pub fn view_of(head: &[u8]) -> MessageView<'_>
    requires { 9 ≤ length head.now }
    ensures { (m : IppMessage) → Spells head.now m → message_shown result ≡ m }
{
    MessageView {
        version: Version {
            major: head[0],
            minor: head[1],
        },
        code: u16::from_be_bytes([head[2], head[3]]),
        request_id: u32::from_be_bytes([head[4], head[5], head[6], head[7]]),
        body: &head[8..head.len() - 1],
    }
}

/// The length of the spelling at the beginning of the bytes, without a limit.
fn any_length(bytes: &[u8]) -> Result<usize, CodecFault>
    ensures { Lengths bytes.now result }
{
    let [_, _, _, _, _, _, _, _, body @ ..] = bytes else {
        return Err(CodecFault::Short);
    };
    let groups = &body[..body_len(body)?];
    Ok(8 + groups.len() + 1)
}

/// The fault of bytes; `is_long` indicates whether they go on after the limit of a head.
pub(crate) fn limited_fault(fault: CodecFault, is_long: bool) -> CodecFault
    ensures { result ≡ fault_within fault is_long }
{
    match fault {
        CodecFault::Short if is_long => CodecFault::TooLarge,
        fault => fault,
    }
}
