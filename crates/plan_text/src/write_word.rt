//! The writers of a line's words.
ghost use Rattle.std.specs.Prelude.{◌≡◌, ◌++◌, OnOk, codes};
ghost use Rattle.std.specs.Fmt.{decimal, signed_decimal};
ghost use Rattle.plan_text.specs.Writing.{cause_word, entry_word, entries_text, numbers_text, prices_text};

use base_types::{Cause, JobId};
use std::alloc::{AllocError, Global};

/// Appends a number.
pub(crate) fn put_number(alloc: Global, output: &mut Vec<u8>, number: u64) -> Result<(), AllocError>
    ensures { OnOk result (output.new.items ≡ output.old.items ++ decimal number) }
{
    let text = format!(in alloc; "{number}")?;
    output.extend_from_slice(text.as_bytes())
}

/// Appends a price.
fn put_price(alloc: Global, output: &mut Vec<u8>, price: i64) -> Result<(), AllocError>
    ensures { OnOk result (output.new.items ≡ output.old.items ++ (codes " " ++ signed_decimal price)) }
{
    let text = format!(in alloc; " {price}")?;
    output.extend_from_slice(text.as_bytes())
}

/// Appends a time of a job after a space, or `-` if there is none.
fn put_entry(alloc: Global, output: &mut Vec<u8>, entry: Option<u64>) -> Result<(), AllocError>
    ensures { OnOk result (output.new.items ≡ output.old.items ++ (codes " " ++ entry_word entry)) }
{
    output.extend_from_slice(b" ")?;
    match entry {
        Some(time) => put_number(alloc, output, time),
        None => output.extend_from_slice(b"-"),
    }
}

/// Appends the times of a job, each after a space.
pub(crate) fn put_entries(
    alloc: Global,
    output: &mut Vec<u8>,
    entries: &[Option<u64>],
) -> Result<(), AllocError>
    ensures { OnOk result (output.new.items ≡ output.old.items ++ entries_text entries.now) }
{
    for entry in entries {
        put_entry(alloc, output, *entry)?;
    }
    Ok(())
}

/// Appends a number after a space.
fn put_spaced(alloc: Global, output: &mut Vec<u8>, number: u64) -> Result<(), AllocError>
    ensures { OnOk result (output.new.items ≡ output.old.items ++ (codes " " ++ decimal number)) }
{
    output.extend_from_slice(b" ")?;
    put_number(alloc, output, number)
}

/// Appends numbers, each after a space.
pub(crate) fn put_numbers(
    alloc: Global,
    output: &mut Vec<u8>,
    numbers: &[u64],
) -> Result<(), AllocError>
    ensures { OnOk result (output.new.items ≡ output.old.items ++ numbers_text numbers.now) }
{
    for number in numbers {
        put_spaced(alloc, output, *number)?;
    }
    Ok(())
}

/// Appends the ids of jobs, each after a space.
pub(crate) fn put_ids(alloc: Global, output: &mut Vec<u8>, ids: &[JobId]) -> Result<(), AllocError>
    ensures { OnOk result (output.new.items ≡ output.old.items ++ numbers_text ids.now) }
{
    for id in ids {
        put_spaced(alloc, output, u64::from(id.number()))?;
    }
    Ok(())
}

/// Appends prices, each after a space.
pub(crate) fn put_prices(
    alloc: Global,
    output: &mut Vec<u8>,
    prices: &[i64],
) -> Result<(), AllocError>
    ensures { OnOk result (output.new.items ≡ output.old.items ++ prices_text prices.now) }
{
    for price in prices {
        put_price(alloc, output, *price)?;
    }
    Ok(())
}

/// The word for a cause.
pub fn cause_word(cause: Cause) -> &'static str
    ensures { result.now ≡ cause_word cause }
{
    match cause {
        Cause::NoDevice => "NoDevice",
        Cause::Format => "Format",
        Cause::Sides => "Sides",
        Cause::Finishings => "Finishings",
        Cause::Media => "Media",
        Cause::Running => "Running",
    }
}
