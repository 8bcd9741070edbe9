//! Numbers and prices as words.
ghost use Rattle.std.specs.Prelude.{◌≡◌, ◌==◌, ◌<◌, ◌≤◌, ◌^◌, ◌+◌, IfOk};
ghost use Rattle.text.specs.Digits.{is_number};
ghost use Rattle.plan_text.specs.Word.{number_at, is_dash, is_entry, entry_at, has_minus, is_price, price_at, cause_at};

use crate::fault::TextFault;
use base_types::{Cause, JobId, Limits};
use text::{capped_value, is_number};

/// Reads the number of a word, within a range.
#[tactic(auto, unfolding(crate::specs::Word::number_at))]
pub(crate) fn read_number(word: &[u8], least: u64, most: u64) -> Result<u64, TextFault>
    requires range { least ≤ most }
    requires small { most < 2 ^ 63 }
    ensures value { result ≡ number_at least most word.now }
    ensures in_range { IfOk result (λ n. (least ≤ n) × (n ≤ most)) }
{
    if !is_number(word) {
        return Err(TextFault::BadLine);
    }
    let value = capped_value(word, most + 1);
    if value < least || value > most {
        return Err(TextFault::OutOfRange);
    }
    Ok(value)
}

/// Reads the id of a job.
pub(crate) fn read_id(word: &[u8]) -> Result<JobId, TextFault>
    ensures { result ≡ number_at 1 Limits.LAST_JOB_ID word.now }
{
    let number = read_number(word, 1, u64::from(Limits::LAST_JOB_ID))?;
    match JobId::new(number as u32) {
        Some(id) => Ok(id),
        None => Err(TextFault::OutOfRange),
    }
}

#[tactic(auto, unfolding(crate::specs::Word::is_dash))]
fn is_dash(word: &[u8]) -> bool
    ensures { result ≡ is_dash word.now }
{
    word == b"-".as_slice()
}

/// Returns whether a word is a number, or `-`.
#[tactic(auto, unfolding(crate::specs::Word::is_entry))]
pub(crate) fn is_entry(word: &[u8]) -> bool
    ensures { result ≡ is_entry word.now }
{
    is_dash(word) || is_number(word)
}

/// Reads a time of a job in ms, or `-` for a device that isn't able.
#[tactic(auto, unfolding(crate::specs::Word::entry_at))]
pub(crate) fn read_entry(word: &[u8]) -> Result<Option<u64>, TextFault>
    ensures { result ≡ entry_at word.now }
{
    if is_dash(word) {
        return Ok(None);
    }
    let time = read_number(word, 1, Limits::JOB_TIME)?;
    Ok(Some(time))
}

#[tactic(auto, unfolding(crate::specs::Word::has_minus))]
fn has_minus(word: &[u8]) -> bool
    ensures { result ≡ has_minus word.now }
{
    !word.is_empty() && word[0] == b'-'
}

/// Returns whether a word is a number, with a minus sign if it is negative.
#[tactic(auto, unfolding(crate::specs::Word::is_price, crate::specs::Word::has_minus))]
pub(crate) fn is_price(word: &[u8]) -> bool
    ensures { result ≡ is_price word.now }
{
    if has_minus(word) {
        let number = &word[1..];
        return is_number(number) && number != b"0".as_slice();
    }
    is_number(word)
}

/// Reads a price in ms.
#[tactic(auto, unfolding(crate::specs::Word::price_at, crate::specs::Word::has_minus))]
pub(crate) fn read_price(word: &[u8]) -> Result<i64, TextFault>
    ensures { result ≡ price_at word.now }
{
    if has_minus(word) {
        let number = read_number(&word[1..], 1, Limits::AMOUNT)?;
        let price = number as i64;
        return Ok(-price);
    }
    let number = read_number(word, 0, Limits::AMOUNT)?;
    Ok(number as i64)
}

/// Reads the cause of a stranded job.
#[tactic(auto, unfolding(crate::specs::Word::cause_at))]
pub(crate) fn read_cause(word: &[u8]) -> Result<Cause, TextFault>
    ensures { result ≡ cause_at word.now }
{
    if word == b"NoDevice".as_slice() {
        Ok(Cause::NoDevice)
    } else if word == b"Format".as_slice() {
        Ok(Cause::Format)
    } else if word == b"Sides".as_slice() {
        Ok(Cause::Sides)
    } else if word == b"Finishings".as_slice() {
        Ok(Cause::Finishings)
    } else if word == b"Media".as_slice() {
        Ok(Cause::Media)
    } else if word == b"Running".as_slice() {
        Ok(Cause::Running)
    } else {
        Err(TextFault::BadLine)
    }
}
