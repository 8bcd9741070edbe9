//! The content of a line.
ghost use Rattle.std.specs.Prelude.{◌≡◌, map};
ghost use Rattle.plan_text.specs.Reading.{Gives};
ghost use Rattle.plan_text.specs.Line.{plan_line_of, alone_at, device_at, class_at, job_at, wait_at, way_at, total_at, job_prices_at, place_prices_at, stranded_at, line_of, line_at};

use crate::cut::{first_word, only_word};
use crate::fault::{ReadError, TextFault};
use crate::line::Line;
use crate::number::{read_cause, read_id, read_number};
use crate::values::{
    are_entries, are_numbers, are_prices, read_entries, read_ids, read_prices, read_waits,
};
use base_types::{Limits, Priority, Text, is_name};
use plan_prices::Stranded;
use std::alloc::Global;
use text::is_number;

/// Reads the line of these words.
pub(crate) fn read_line(alloc: Global, words: &[&[u8]]) -> Result<Line, ReadError>
    ensures { Gives plan_line_of result (line_at (map (λ word. word.now) words.now)) }
{
    let (first, words) = first_word(words)?;
    read_line_of(alloc, first, words)
}

/// Reads a line by its first word.
#[tactic(auto, unfolding(crate::specs::Line::line_of))]
fn read_line_of(alloc: Global, first: &[u8], words: &[&[u8]]) -> Result<Line, ReadError>
    ensures { Gives plan_line_of result (line_of first.now (map (λ word. word.now) words.now)) }
{
    if first == b"plan".as_slice() {
        alone(Line::Plan, words)
    } else if first == b"device".as_slice() {
        device(alloc, words)
    } else if first == b"class".as_slice() {
        class(words)
    } else if first == b"job".as_slice() {
        job(alloc, words)
    } else if first == b"wait".as_slice() {
        wait(alloc, words)
    } else if first == b"way".as_slice() {
        way(alloc, words)
    } else if first == b"total".as_slice() {
        total(words)
    } else if first == b"jobprices".as_slice() {
        job_prices(alloc, words)
    } else if first == b"placeprices".as_slice() {
        place_prices(alloc, words)
    } else if first == b"stranded".as_slice() {
        stranded(words)
    } else if first == b"end".as_slice() {
        alone(Line::End, words)
    } else {
        bad_line()
    }
}

fn bad_line() -> Result<Line, ReadError>
    ensures { result ≡ Err (ReadError.Fault TextFault.BadLine) }
{
    Err(ReadError::Fault(TextFault::BadLine))
}

/// Reads a line of one word.
#[tactic(auto, using(crate::proofs::Words::alone, crate::proofs::Words::not_alone))]
fn alone(line: Line, words: &[&[u8]]) -> Result<Line, ReadError>
    ensures { Gives plan_line_of result (alone_at (plan_line_of line) (map (λ word. word.now) words.now)) }
{
    if !words.is_empty() {
        return Err(ReadError::Fault(TextFault::BadLine));
    }
    Ok(line)
}

#[tactic(auto, unfolding(crate::specs::Line::device_at))]
fn device(alloc: Global, words: &[&[u8]]) -> Result<Line, ReadError>
    ensures { Gives plan_line_of result (device_at (map (λ word. word.now) words.now)) }
{
    let name = only_word(words)?;
    if !is_name(name) {
        return Err(ReadError::Fault(TextFault::BadLine));
    }
    Ok(Line::Device(Text::copy_of(alloc, name)?))
}

#[tactic(auto, unfolding(crate::specs::Line::class_at))]
fn class(words: &[&[u8]]) -> Result<Line, ReadError>
    ensures { Gives plan_line_of result (class_at (map (λ word. word.now) words.now)) }
{
    let word = only_word(words)?;
    let level = read_number(word, 1, u64::from(Limits::HIGHEST_PRIORITY))?;
    match Priority::new(level as u8) {
        Some(priority) => Ok(Line::Class(priority)),
        None => Err(ReadError::Fault(TextFault::OutOfRange)),
    }
}

#[tactic(auto, unfolding(crate::specs::Line::job_at))]
fn job(alloc: Global, words: &[&[u8]]) -> Result<Line, ReadError>
    ensures { Gives plan_line_of result (job_at (map (λ word. word.now) words.now)) }
{
    let (first, times) = first_word(words)?;
    if !is_number(first) || !are_entries(times) {
        return Err(ReadError::Fault(TextFault::BadLine));
    }
    let id = read_id(first)?;
    Ok(Line::Job(id, read_entries(alloc, times)?))
}

#[tactic(auto, unfolding(crate::specs::Line::wait_at))]
fn wait(alloc: Global, words: &[&[u8]]) -> Result<Line, ReadError>
    ensures { Gives plan_line_of result (wait_at (map (λ word. word.now) words.now)) }
{
    if !are_numbers(words) {
        return Err(ReadError::Fault(TextFault::BadLine));
    }
    Ok(Line::Wait(read_waits(alloc, words)?))
}

#[tactic(auto, unfolding(crate::specs::Line::way_at))]
fn way(alloc: Global, words: &[&[u8]]) -> Result<Line, ReadError>
    ensures { Gives plan_line_of result (way_at (map (λ word. word.now) words.now)) }
{
    let (device, jobs) = first_word(words)?;
    if !is_name(device) || !are_numbers(jobs) {
        return Err(ReadError::Fault(TextFault::BadLine));
    }
    let jobs = read_ids(alloc, jobs)?;
    Ok(Line::Way(Text::copy_of(alloc, device)?, jobs))
}

#[tactic(auto, unfolding(crate::specs::Line::total_at))]
fn total(words: &[&[u8]]) -> Result<Line, ReadError>
    ensures { Gives plan_line_of result (total_at (map (λ word. word.now) words.now)) }
{
    let word = only_word(words)?;
    Ok(Line::Total(read_number(word, 0, Limits::AMOUNT)?))
}

#[tactic(auto, unfolding(crate::specs::Line::job_prices_at))]
fn job_prices(alloc: Global, words: &[&[u8]]) -> Result<Line, ReadError>
    ensures { Gives plan_line_of result (job_prices_at (map (λ word. word.now) words.now)) }
{
    if !are_prices(words) {
        return Err(ReadError::Fault(TextFault::BadLine));
    }
    Ok(Line::JobPrices(read_prices(alloc, words)?))
}

#[tactic(auto, unfolding(crate::specs::Line::place_prices_at))]
fn place_prices(alloc: Global, words: &[&[u8]]) -> Result<Line, ReadError>
    ensures { Gives plan_line_of result (place_prices_at (map (λ word. word.now) words.now)) }
{
    let (device, prices) = first_word(words)?;
    if !is_name(device) || !are_prices(prices) {
        return Err(ReadError::Fault(TextFault::BadLine));
    }
    let prices = read_prices(alloc, prices)?;
    Ok(Line::PlacePrices(Text::copy_of(alloc, device)?, prices))
}

#[tactic(auto, unfolding(crate::specs::Line::stranded_at))]
fn stranded(words: &[&[u8]]) -> Result<Line, ReadError>
    ensures { Gives plan_line_of result (stranded_at (map (λ word. word.now) words.now)) }
{
    let (first, words) = first_word(words)?;
    let word = only_word(words)?;
    let cause = read_cause(word)?;
    let job = read_id(first)?;
    Ok(Line::Stranded(Stranded { job, cause }))
}
