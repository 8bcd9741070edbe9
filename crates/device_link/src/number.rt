//! The numbers in a device's line.
ghost use Rattle.std.specs.Prelude.{◌≡◌};
ghost use Rattle.device_link.specs.Line.{job_in, printed_in, time_in};

use base_types::Limits;
use text::number_up_to;

/// The most impressions of a job that a device may report as printed: the greatest integer of IPP (RFC 8010,
/// section 3.9).
pub const MOST_PRINTED: u32 = Limits::LAST_INTEGER;

/// Reads the id of a job in decimal digits, up to [`Limits::LAST_JOB_ID`].
pub(crate) fn job_in(word: &[u8]) -> Option<u32>
    ensures { result ≡ job_in word.now }
{
    let number = number_up_to(word, u64::from(Limits::LAST_JOB_ID))?;
    Some(number as u32)
}

/// Reads a number of printed impressions in decimal digits, up to [`MOST_PRINTED`].
pub(crate) fn printed_in(word: &[u8]) -> Option<u32>
    ensures { result ≡ printed_in word.now }
{
    let number = number_up_to(word, u64::from(MOST_PRINTED))?;
    Some(number as u32)
}

/// Reads a time in ms in decimal digits, up to [`Limits::BUSY`].
pub(crate) fn time_in(word: &[u8]) -> Option<u32>
    ensures { result ≡ time_in word.now }
{
    let time = number_up_to(word, u64::from(Limits::BUSY))?;
    Some(time as u32)
}
