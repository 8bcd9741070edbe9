//! The status in a PJL message.
ghost use Rattle.std.specs.Prelude.{◌≡◌, ◌∷◌, []};
ghost use Rattle.std.specs.Option.{option_map_or};
ghost use Rattle.text.specs.Parts.{texts_of};
ghost use Rattle.adapter_core.specs.PjlMessage.{bare, number_in, code_in, page_status, job_status, device_status, status_of, status_in};

use crate::pjl_status::PjlStatus;
use text::{cut_at, number_up_to};

/// The greatest number that is read of a printer.
const MOST: u64 = 2_147_483_647;

/// The status in a message, without its form feed.
pub fn read_pjl_message(message: &[u8]) -> PjlStatus
    ensures { result ≡ status_in message.now }
{
    let (first, rest) = split_line(message);
    let Some(rest) = rest else {
        return PjlStatus::Other;
    };
    let (second, _) = split_line(rest);
    read_lines(bare(first), bare(second))
}

/// Splits a text at its first line feed: the line before it, and the text after it, if there is a line feed.
#[tactic(auto, using(text::proofs::Cuts::parts_cut, text::proofs::Cuts::parts_uncut))]
fn split_line(text: &[u8]) -> (&[u8], Option<&[u8]>)
    ensures { texts_of text.now ≡ result.0.now ∷ option_map_or (λ more. texts_of more.now) result.1 [] }
{
    match cut_at(text, b'\n') {
        Some(cut) => (cut.0, Some(cut.1)),
        None => (text, None),
    }
}

/// A line without its carriage return.
fn bare(line: &[u8]) -> &[u8]
    ensures { result.now ≡ bare line.now }
{
    line.strip_suffix(b"\r").unwrap_or(line)
}

/// The status in the first two lines of a message.
#[tactic(auto, unfolding(crate::specs::PjlMessage::status_of))]
fn read_lines(first: &[u8], second: &[u8]) -> PjlStatus
    ensures { result ≡ status_of first.now second.now }
{
    if first == b"@PJL USTATUS PAGE".as_slice() {
        read_page(second)
    } else if first == b"@PJL USTATUS JOB".as_slice() {
        read_job(second)
    } else if first == b"@PJL USTATUS DEVICE".as_slice()
        || first == b"@PJL INFO STATUS".as_slice()
    {
        read_device(second)
    } else {
        PjlStatus::Other
    }
}

/// The status of a printed page.
fn read_page(line: &[u8]) -> PjlStatus
    ensures { result ≡ page_status line.now }
{
    match number_in(line) {
        Some(page) => PjlStatus::Page(page),
        None => PjlStatus::Other,
    }
}

/// The status of a job.
#[tactic(auto, unfolding(crate::specs::PjlMessage::job_status))]
fn read_job(line: &[u8]) -> PjlStatus
    ensures { result ≡ job_status line.now }
{
    if line == b"END".as_slice() {
        PjlStatus::JobEnded
    } else {
        PjlStatus::Other
    }
}

/// The status of the printer.
fn read_device(line: &[u8]) -> PjlStatus
    ensures { result ≡ device_status line.now }
{
    match code_in(line) {
        Some(code) => PjlStatus::Device(code),
        None => PjlStatus::Other,
    }
}

/// The code of a line such as `CODE=10001`.
#[tactic(auto, unfolding(crate::specs::PjlMessage::code_in))]
fn code_in(line: &[u8]) -> Option<u32>
    ensures { result ≡ code_in line.now }
{
    let code = line.strip_prefix(b"CODE=")?;
    number_in(code)
}

/// The number of a word of decimal digits.
fn number_in(word: &[u8]) -> Option<u32>
    ensures { result ≡ number_in word.now }
{
    let number = number_up_to(word, MOST)?;
    Some(number as u32)
}
