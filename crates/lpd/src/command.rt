//! Commands and subcommands of LPD (RFC 1179, sections 5 and 6).
ghost use Rattle.std.specs.Prelude.{◌≡◌, IfOk, MatchOption, ◌-◌, ◌^◌, map, min, true, false};
ghost use Rattle.std.specs.Str.Parse.{digits_value};
ghost use Rattle.lpd.specs.Items.{command_record, line_record};
ghost use Rattle.lpd.specs.Command.{command_line, subcommand_line, announced, is_count, removal, most_bytes};

use crate::fault::LpdFault;
use crate::file_name::is_file_name;
use crate::item::{FileHead, FileKind, LpdCommand, LpdItem};
use crate::words::{first_word, later_words, operands};
use base_types::{Limits, Text};
use std::alloc::{AllocError, Global};
use text::{decimal, words};

/// Reads the line of a command (RFC 1179, section 5). Returns the item or the fault; the only error is out of
/// memory.
pub(crate) fn read_command(
    alloc: Global,
    line: &[u8],
) -> Result<Result<LpdItem, LpdFault>, AllocError>
    ensures { IfOk result (λ parsed. line_record parsed ≡ command_line line.now) }
{
    let Some((code, text)) = line.split_first() else {
        return Ok(Err(LpdFault::UnknownCode));
    };
    let words = words(alloc, text)?;
    let queue = Text::copy_of(alloc, first_word(&words))?;
    let command = match *code {
        1 => LpdCommand::PrintWaiting { queue },
        2 => LpdCommand::ReceiveJob { queue },
        3 => LpdCommand::ListShort {
            queue,
            operands: operands(alloc, &words)?,
        },
        4 => LpdCommand::ListLong {
            queue,
            operands: operands(alloc, &words)?,
        },
        5 => removal(alloc, queue, operands(alloc, &words)?),
        _ => return Ok(Err(LpdFault::UnknownCode)),
    };
    Ok(Ok(LpdItem::Command(command)))
}

/// The command to remove jobs. Its first operand is the agent, the user who asks for the removal.
fn removal(alloc: Global, queue: Text, operands: Vec<Text>) -> LpdCommand
    ensures { command_record result ≡ removal queue operands.items }
{
    let mut operands = operands;
    let agent = if operands.is_empty() {
        Text::new(Vec::new(alloc))
    } else {
        operands.remove(0)
    };
    LpdCommand::RemoveJobs {
        queue,
        agent,
        operands,
    }
}

/// Reads the line of a subcommand (RFC 1179, section 6). Returns the item or the fault; the only error is out
/// of memory.
pub(crate) fn read_subcommand(
    alloc: Global,
    line: &[u8],
) -> Result<Result<LpdItem, LpdFault>, AllocError>
    ensures { IfOk result (λ parsed. line_record parsed ≡ subcommand_line line.now) }
{
    let Some((code, text)) = line.split_first() else {
        return Ok(Err(LpdFault::UnknownCode));
    };
    let words = words(alloc, text)?;
    match *code {
        1 => Ok(Ok(LpdItem::Abort)),
        2 => announced(alloc, FileKind::Control, &words),
        3 => announced(alloc, FileKind::Data, &words),
        _ => Ok(Err(LpdFault::UnknownCode)),
    }
}

/// Reads the announcement of a file, of its length and its name.
fn announced(
    alloc: Global,
    kind: FileKind,
    words: &[&[u8]],
) -> Result<Result<LpdItem, LpdFault>, AllocError>
    ensures { IfOk result (λ parsed. line_record parsed ≡ announced kind (map (λ word. word.now) words.now)) }
{
    let Some(length) = file_length(first_word(words)) else {
        return Ok(Err(LpdFault::BadCount));
    };
    let later = later_words(words);
    if later.len() != 1 || !is_file_name(kind, later[0]) {
        return Ok(Err(LpdFault::BadName));
    }
    if length > most_bytes(kind) {
        return Ok(Err(LpdFault::TooLarge));
    }
    let name = Text::copy_of(alloc, later[0])?;
    Ok(Ok(LpdItem::Announced(FileHead { kind, length, name })))
}

/// The length of a file: decimal digits that aren't 0. A length above 32 bits is `u32::MAX`.
#[tactic(auto, unfolding(text::specs::Digits::decimal_in))]
fn file_length(word: &[u8]) -> Option<u32>
    ensures { MatchOption result (is_count word.now ≡ false) (λ length. (is_count word.now ≡ true) × (length ≡ min (digits_value 10 word.now) (2 ^ 32 - 1))) }
{
    let length = decimal(word)?;
    if length == 0 {
        return None;
    }
    Some(length)
}

/// The most bytes that a file of a kind may have.
fn most_bytes(kind: FileKind) -> u32
    ensures { result ≡ most_bytes kind }
{
    match kind {
        FileKind::Control => Limits::LPD_CONTROL_BYTES as u32,
        FileKind::Data => Limits::JOB_OCTETS as u32,
    }
}
