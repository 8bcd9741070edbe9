//! The numbers of a line.
ghost use Rattle.std.specs.Prelude.{◌≡◌, ◌<◌, map};
ghost use Rattle.std.specs.List.{list_all};
ghost use Rattle.plan_text.specs.Reading.{Gives};
ghost use Rattle.text.specs.Digits.{is_number};
ghost use Rattle.plan_text.specs.Word.{numbers_at, is_entry, entries_at, is_price, prices_at};

use crate::fault::ReadError;
use crate::number::{is_entry, is_price, read_entry, read_id, read_number, read_price};
use base_types::{JobId, Limits};
use std::alloc::Global;
use text::is_number;

pub(crate) fn are_numbers(words: &[&[u8]]) -> bool
    ensures { result ≡ list_all is_number (map (λ word. word.now) words.now) }
{
    for word in words {
        if !is_number(*word) {
            return false;
        }
    }
    true
}

pub(crate) fn are_entries(words: &[&[u8]]) -> bool
    ensures { result ≡ list_all is_entry (map (λ word. word.now) words.now) }
{
    for word in words {
        if !is_entry(*word) {
            return false;
        }
    }
    true
}

pub(crate) fn are_prices(words: &[&[u8]]) -> bool
    ensures { result ≡ list_all is_price (map (λ word. word.now) words.now) }
{
    for word in words {
        if !is_price(*word) {
            return false;
        }
    }
    true
}

/// Reads the waits of devices, in ms.
pub(crate) fn read_waits(alloc: Global, words: &[&[u8]]) -> Result<Vec<u64>, ReadError>
    ensures { Gives (λ waits. waits.items) result (numbers_at 0 Limits.WAIT (map (λ word. word.now) words.now)) }
{
    let mut waits = Vec::new(alloc);
    for word in words {
        let wait = read_number(*word, 0, Limits::WAIT)?;
        waits.push(wait)?;
    }
    Ok(waits)
}

/// Reads the ids of jobs.
pub(crate) fn read_ids(alloc: Global, words: &[&[u8]]) -> Result<Vec<JobId>, ReadError>
    ensures { Gives (λ ids. ids.items) result (numbers_at 1 Limits.LAST_JOB_ID (map (λ word. word.now) words.now)) }
{
    let mut ids = Vec::new(alloc);
    for word in words {
        let id = read_id(*word)?;
        ids.push(id)?;
    }
    Ok(ids)
}

/// Reads the times of a job, one for each device.
pub(crate) fn read_entries(alloc: Global, words: &[&[u8]]) -> Result<Vec<Option<u64>>, ReadError>
    ensures { Gives (λ entries. entries.items) result (entries_at (map (λ word. word.now) words.now)) }
{
    let mut entries = Vec::new(alloc);
    for word in words {
        let entry = read_entry(*word)?;
        entries.push(entry)?;
    }
    Ok(entries)
}

/// Reads prices, in ms.
pub(crate) fn read_prices(alloc: Global, words: &[&[u8]]) -> Result<Vec<i64>, ReadError>
    ensures { Gives (λ prices. prices.items) result (prices_at (map (λ word. word.now) words.now)) }
{
    let mut prices = Vec::new(alloc);
    for word in words {
        let price = read_price(*word)?;
        prices.push(price)?;
    }
    Ok(prices)
}
