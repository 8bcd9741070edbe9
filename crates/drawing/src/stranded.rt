//! The jobs that no device can print, in sentences.

use crate::page::Page;
use base_types::{Cause, Stranded};

/// The meaning of a cause, after its word in the text of a plan.
fn meaning(cause: Cause) -> &'static str {
    match cause {
        Cause::NoDevice => "NoDevice, its printer has no device",
        Cause::Format => "Format, none has every document format of the job",
        Cause::Sides => "Sides, none of those left prints on both sides",
        Cause::Finishings => "Finishings, none of those left has every finishing of the job",
        Cause::Media => "Media, none of those left has its media loaded",
        Cause::Running => "Running, none of those left runs",
    }
}

/// Appends a sentence about a job that no device can print.
pub(crate) fn put_sentence(page: Page, stranded: &Stranded) -> Page {
    page.put_number("No device prints job ", u64::from(stranded.job.number()))
        .put(": ")
        .put(meaning(stranded.cause))
        .put(".")
}
