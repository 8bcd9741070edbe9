//! The lines of a device.
ghost use Rattle.std.specs.Prelude.{◌≡◌, ◌==◌, ◌∷◌, [], IfOk, option_map, map};
ghost use Rattle.std.specs.List.{list_all};
ghost use Rattle.std.specs.Option.{option_map_or};
ghost use Rattle.base_types.specs.Forms.{is_media};
ghost use Rattle.base_types.specs.Report.{report_of};
ghost use Rattle.text.specs.Parts.{words_of};
ghost use Rattle.device_link.specs.Line.{media_in, name_in, parsed_alone, parsed_of_one, parsed_of_two, parsed, report_in, reported_by};

use crate::number::{job_in, printed_in, time_in};
use base_types::{Limits, Report, Text, is_media, is_name};
use std::alloc::{AllocError, Global};
use text::{cut_at, parts};

/// Reads the report of a line, given without its line feed. Returns `None` if the line isn't a report that a
/// device may send once it has given its name. [`LinkReader`](crate::LinkReader) reads each line in the same
/// way.
///
/// # Errors
///
/// The only error is out of memory, for the names of the report.
pub fn read_report(alloc: Global, line: &[u8]) -> Result<Option<Report>, AllocError>
    ensures { IfOk result (λ report. option_map report_of report ≡ reported_by line.now) }
{
    if line.len() >= Limits::DEVICE_LINE_BYTES {
        return Ok(None);
    }
    read_line(alloc, true, line)
}

/// Reads the report of a line, if a device may send it now: its name if it hasn't given its name, and any other
/// report if it has.
pub(crate) fn read_line(
    alloc: Global,
    greeted: bool,
    line: &[u8],
) -> Result<Option<Report>, AllocError>
    ensures { IfOk result (λ report. option_map report_of report ≡ report_in greeted line.now) }
{
    let line = line.strip_suffix(b"\r").unwrap_or(line);
    let Some(report) = read_words(alloc, line)? else {
        return Ok(None);
    };
    if matches!(report, Report::Hello(_)) == greeted {
        return Ok(None);
    }
    Ok(Some(report))
}

/// Reads the report of a word and its operands.
#[tactic(auto, using(crate::proofs::TooManyOperands::nothing_parsed))]
fn read_words(alloc: Global, line: &[u8]) -> Result<Option<Report>, AllocError>
    ensures { IfOk result (λ report. option_map report_of report ≡ parsed (words_of line.now)) }
{
    let (word, operands) = split_word(line);
    let Some(operands) = operands else {
        return Ok(read_alone(alloc, word));
    };
    let (first, operands) = split_word(operands);
    let Some(operands) = operands else {
        return read_one(alloc, word, first);
    };
    let (second, operands) = split_word(operands);
    if operands.is_some() {
        return Ok(None);
    }
    Ok(read_two(word, first, second))
}

/// Splits a text at its first space: the word before it, and the text after it, if there is a space.
#[tactic(auto, using(text::proofs::Cuts::parts_cut, text::proofs::Cuts::parts_uncut))]
fn split_word(text: &[u8]) -> (&[u8], Option<&[u8]>)
    ensures { words_of text.now ≡ result.0.now ∷ option_map_or (λ more. words_of more.now) result.1 [] }
{
    match cut_at(text, b' ') {
        Some(cut) => (cut.0, Some(cut.1)),
        None => (text, None),
    }
}

/// The report of a word without operands.
#[tactic(auto, unfolding(crate::specs::Line::parsed_alone))]
fn read_alone(alloc: Global, word: &[u8]) -> Option<Report>
    ensures { option_map report_of result ≡ parsed_alone word.now }
{
    if word == b"READY".as_slice() {
        Some(Report::Ready)
    } else if word == b"STOP".as_slice() {
        Some(Report::Stop)
    } else if word == b"MEDIA".as_slice() {
        Some(Report::Media(Vec::new(alloc)))
    } else {
        None
    }
}

/// Reads the report of a word and its one operand.
#[tactic(auto, unfolding(crate::specs::Line::parsed_of_one))]
fn read_one(alloc: Global, word: &[u8], operand: &[u8]) -> Result<Option<Report>, AllocError>
    ensures { IfOk result (λ report. option_map report_of report ≡ parsed_of_one word.now operand.now) }
{
    if word == b"HELLO".as_slice() {
        Ok(read_name(alloc, operand)?.map(|name| Report::Hello(name)))
    } else if word == b"MEDIA".as_slice() {
        Ok(read_media(alloc, operand)?.map(|names| Report::Media(names)))
    } else if word == b"BUSY".as_slice() {
        Ok(time_in(operand).map(|time| Report::Busy(time)))
    } else if word == b"DONE".as_slice() {
        Ok(job_in(operand).map(|job| Report::Done { job }))
    } else if word == b"FAIL".as_slice() {
        Ok(job_in(operand).map(|job| Report::Fail { job }))
    } else {
        Ok(None)
    }
}

/// The report of a word and its two operands.
#[tactic(auto, unfolding(crate::specs::Line::parsed_of_two))]
fn read_two(word: &[u8], first: &[u8], second: &[u8]) -> Option<Report>
    ensures { option_map report_of result ≡ parsed_of_two word.now first.now second.now }
{
    if word != b"PAGES".as_slice() {
        return None;
    }
    let job = job_in(first)?;
    let printed = printed_in(second)?;
    Some(Report::Pages { job, printed })
}

/// Reads the name of a device.
#[tactic(auto, unfolding(crate::specs::Line::name_in))]
fn read_name(alloc: Global, operand: &[u8]) -> Result<Option<Text>, AllocError>
    ensures { IfOk result (λ name. name ≡ name_in operand.now) }
{
    if !is_name(operand) {
        return Ok(None);
    }
    Ok(Some(Text::copy_of(alloc, operand)?))
}

/// Reads the names of media, with commas between them.
#[tactic(auto, unfolding(crate::specs::Line::media_in))]
fn read_media(alloc: Global, operand: &[u8]) -> Result<Option<Vec<Text>>, AllocError>
    ensures { IfOk result (λ names. option_map (λ v. v.items) names ≡ media_in operand.now) }
{
    let names = parts(alloc, operand, b',')?;
    if !are_media(&names) {
        return Ok(None);
    }
    Ok(Some(copies(alloc, &names)?))
}

/// Returns whether each text is the name of a medium.
fn are_media(names: &[&[u8]]) -> bool
    ensures { result ≡ list_all is_media (map (λ name. name.now) names.now) }
{
    for name in names {
        if !is_media(*name) {
            return false;
        }
    }
    true
}

/// Copies each name into a text.
fn copies(alloc: Global, names: &[&[u8]]) -> Result<Vec<Text>, AllocError>
    ensures { IfOk result (λ texts. texts.items ≡ map (λ name. name.now) names.now) }
{
    let mut texts = Vec::with_capacity(alloc, names.len())?;
    for name in names {
        texts.push(Text::copy_of(alloc, *name)?)?;
    }
    Ok(texts)
}
