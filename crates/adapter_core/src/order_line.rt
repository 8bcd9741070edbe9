//! The order in a line of the server.
ghost use Rattle.std.specs.Prelude.{◌≡◌, ◌∷◌, [], None, IfOk};
ghost use Rattle.std.specs.Option.{option_map_or};
ghost use Rattle.text.specs.Parts.{words_of};
ghost use Rattle.adapter_core.specs.OrderLine.{id_in, octets_in, copies_in, numbers_in, sides_in, begins_with, after_letter, finishings_in, job_order, cancel_order, described, parsed, order_in};

use crate::order::{JobNumbers, JobOrder, Order};
use base_types::{Finishings, JobId, Limits, Sides, Text, is_media};
use std::alloc::{AllocError, Global};
use text::{cut_at, number_up_to};

/// Reads the order in a line, given without its line feed. The only error is out of memory.
pub(crate) fn read_line(alloc: Global, line: &[u8]) -> Result<Option<Order>, AllocError>
    ensures { IfOk result (λ order. order ≡ order_in line.now) }
{
    let (word, operands) = split_word(line);
    let Some(operands) = operands else {
        return Ok(None);
    };
    let (first, operands) = split_word(operands);
    match operands {
        None => Ok(read_cancel(word, first)),
        Some(operands) => read_numbers(alloc, word, first, operands),
    }
}

/// Splits a text at its first space: the word before it, and the text after it, if there is a space.
#[tactic(auto, using(text::proofs::Cuts::parts_cut, text::proofs::Cuts::parts_uncut))]
fn split_word(text: &[u8]) -> (&[u8], Option<&[u8]>)
    ensures { words_of text.now ≡ result.0.now ∷ option_map_or (λ more. words_of more.now) result.1 [] }
{
    match cut_at(text, b' ') {
        Some(cut) => (cut.0, Some(cut.1)),
        None => (text, None),
    }
}

/// Reads the order of a word and its one operand.
#[tactic(auto, unfolding(crate::specs::OrderLine::cancel_order))]
fn read_cancel(word: &[u8], job: &[u8]) -> Option<Order>
    ensures { result ≡ cancel_order word.now job.now }
{
    if word != b"CANCEL".as_slice() {
        return None;
    }
    let job = id_in(job)?;
    Some(Order::Cancel(job))
}

/// Reads the order of a word, the id of a job, and at least one more operand.
fn read_numbers(
    alloc: Global,
    word: &[u8],
    job: &[u8],
    operands: &[u8],
) -> Result<Option<Order>, AllocError>
    ensures { IfOk result (λ order. order ≡ parsed (word.now ∷ job.now ∷ words_of operands.now)) }
{
    let (octets, operands) = split_word(operands);
    let Some(operands) = operands else {
        return Ok(None);
    };
    let (copies, operands) = split_word(operands);
    let Some(operands) = operands else {
        return Ok(None);
    };
    read_sheets(alloc, numbers_in(word, job, octets, copies), operands)
}

/// Reads the sides, the medium and the finishings, after the numbers.
#[tactic(auto, using(crate::proofs::OrderWords::nothing_described))]
fn read_sheets(
    alloc: Global,
    numbers: Option<JobNumbers>,
    operands: &[u8],
) -> Result<Option<Order>, AllocError>
    ensures { IfOk result (λ order. order ≡ described numbers (words_of operands.now)) }
{
    let (sides, operands) = split_word(operands);
    let Some(operands) = operands else {
        return Ok(None);
    };
    let (media, operands) = split_word(operands);
    let Some(operands) = operands else {
        return read_job(
            alloc,
            numbers,
            sides_in(sides),
            media,
            Some(Finishings::none()),
        );
    };
    let (finishings, operands) = split_word(operands);
    if operands.is_some() {
        return Ok(None);
    }
    read_job(
        alloc,
        numbers,
        sides_in(sides),
        media,
        finishings_in(finishings),
    )
}

/// The job of these parts, if each is valid.
#[tactic(auto, unfolding(crate::specs::OrderLine::job_order))]
fn read_job(
    alloc: Global,
    numbers: Option<JobNumbers>,
    sides: Option<Sides>,
    media: &[u8],
    finishings: Option<Finishings>,
) -> Result<Option<Order>, AllocError>
    ensures { IfOk result (λ order. order ≡ job_order numbers sides media.now finishings) }
{
    let Some(numbers) = numbers else {
        return Ok(None);
    };
    let Some(sides) = sides else {
        return Ok(None);
    };
    let Some(finishings) = finishings else {
        return Ok(None);
    };
    if !is_media(media) {
        return Ok(None);
    }
    Ok(Some(Order::Job(JobOrder {
        job: numbers.job,
        octets: numbers.octets,
        copies: numbers.copies,
        sides,
        finishings,
        media: Text::copy_of(alloc, media)?,
    })))
}

/// The numbers of a job's line.
#[tactic(auto, unfolding(crate::specs::OrderLine::numbers_in))]
fn numbers_in(word: &[u8], job: &[u8], octets: &[u8], copies: &[u8]) -> Option<JobNumbers>
    ensures { result ≡ numbers_in word.now job.now octets.now copies.now }
{
    if word != b"JOB".as_slice() {
        return None;
    }
    let job = id_in(job)?;
    let octets = octets_in(octets)?;
    let copies = copies_in(copies)?;
    Some(JobNumbers {
        job,
        octets,
        copies,
    })
}

/// The id of a job.
#[tactic(auto, unfolding(crate::specs::OrderLine::id_in))]
fn id_in(word: &[u8]) -> Option<JobId>
    ensures { result ≡ id_in word.now }
{
    let number = number_up_to(word, u64::from(Limits::LAST_JOB_ID))?;
    JobId::new(number as u32)
}

/// The number of a job's octets.
fn octets_in(word: &[u8]) -> Option<u32>
    ensures { result ≡ octets_in word.now }
{
    let number = number_up_to(word, Limits::JOB_OCTETS as u64)?;
    Some(number as u32)
}

/// The number of copies.
#[tactic(auto, unfolding(crate::specs::OrderLine::copies_in))]
fn copies_in(word: &[u8]) -> Option<u32>
    ensures { result ≡ copies_in word.now }
{
    let number = number_up_to(word, u64::from(Limits::COPIES))?;
    if number == 0 {
        return None;
    }
    Some(number as u32)
}

/// The sides of the job.
#[tactic(auto, unfolding(crate::specs::OrderLine::sides_in))]
fn sides_in(word: &[u8]) -> Option<Sides>
    ensures { result ≡ sides_in word.now }
{
    if word == b"1".as_slice() {
        Some(Sides::One)
    } else if word == b"L".as_slice() {
        Some(Sides::LongEdge)
    } else if word == b"S".as_slice() {
        Some(Sides::ShortEdge)
    } else {
        None
    }
}

/// The finishings of a job that has some.
#[tactic(auto, unfolding(crate::specs::OrderLine::finishings_in))]
fn finishings_in(word: &[u8]) -> Option<Finishings>
    ensures { result ≡ finishings_in word.now }
{
    if word.is_empty() {
        return None;
    }
    let (staple, rest) = letter_taken(b'S', word);
    let (punch, rest) = letter_taken(b'P', rest);
    let (bind, rest) = letter_taken(b'B', rest);
    if !rest.is_empty() {
        return None;
    }
    Some(Finishings {
        staple,
        punch,
        bind,
    })
}

/// Returns whether a word begins with a letter, and the bytes after the letter, or the word.
fn letter_taken(letter: u8, word: &[u8]) -> (bool, &[u8])
    ensures begins { result.0 ≡ begins_with letter word.now }
    ensures rest { result.1.now ≡ after_letter letter word.now }
{
    match word {
        [first, rest @ ..] if *first == letter => (true, rest),
        _ => (false, word),
    }
}
