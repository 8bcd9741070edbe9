//! The comparison of a job with the job that was saved.
ghost use Rattle.std.specs.Prelude.{◌≡◌, ◌<◌, ◌≤◌, IsTrue, IfSome, length, take};
ghost use Rattle.journal.specs.Saved.{printer_name, saved_of};
ghost use Rattle.journal.specs.Alike.{IsSentAlike, IsPrintedAlike};

use crate::saved_job::SavedJob;
use crate::saving::printer_name;
use base_types::{Finishings, Needs, PrinterId, Sides, Text};
use job_objects::Job;
use octets::{Document, Octets};
use settings_file::Settings;
use spool::SpooledJob;
use std::cmp::min;

/// Returns whether two numbers are there and the same, or neither is there.
fn same_number(first: Option<u32>, second: Option<u32>) -> bool
    ensures { IsTrue result → first ≡ second }
{
    match (first, second) {
        (Some(first), Some(second)) => first == second,
        (None, None) => true,
        _ => false,
    }
}

/// Returns whether two truth values are the same.
fn same_truth(first: bool, second: bool) -> bool
    ensures { IsTrue result → first ≡ second }
{
    match (first, second) {
        (true, true) | (false, false) => true,
        (true, false) | (false, true) => false,
    }
}

/// Returns whether two values of sides are the same.
fn same_sides(first: Sides, second: Sides) -> bool
    ensures { IsTrue result → first ≡ second }
{
    match (first, second) {
        (Sides::One, Sides::One) => true,
        (Sides::LongEdge, Sides::LongEdge) => true,
        (Sides::ShortEdge, Sides::ShortEdge) => true,
        _ => false,
    }
}

/// Returns whether two sets of finishings are the same.
fn same_finishings(first: Finishings, second: Finishings) -> bool
    ensures { IsTrue result → first ≡ second }
{
    same_truth(first.staple, second.staple)
        && same_truth(first.punch, second.punch)
        && same_truth(first.bind, second.bind)
}

/// Returns whether the octets of two documents are the same.
fn same_octets(first: &Octets, second: &Octets) -> bool
    ensures { IsTrue result → first.now ≡ second.now }
{
    if first.len() != second.len() {
        return false;
    }
    let mut start = 0;
    while start < first.len() {
        match same_to(first, second, start) {
            Some(end) => start = end,
            None => return false,
        }
    }
    true
}

/// A place up to which the octets are the same if they are so up to `start`; `None` if there is none after `start`.
fn same_to(first: &Octets, second: &Octets, start: usize) -> Option<usize>
    ensures tail { IfSome result (λ end. (start < end) × (end ≤ length first.now)) }
    ensures same { IfSome result (λ end. take start first.now ≡ take start second.now → take end first.now ≡ take end second.now) }
{
    if start > first.len() || start > second.len() {
        return None;
    }
    let (segment, other) = (first.segment(start), second.segment(start));
    let count = same_prefix(segment, other)?;
    Some(start + count)
}

/// The length of the shorter of two segments, if it is a prefix of the longer and isn't empty.
fn same_prefix(segment: &[u8], other: &[u8]) -> Option<usize>
    ensures within { IfSome result (λ count. (0 < count) × (count ≤ length segment.now) × (count ≤ length other.now)) }
    ensures same { IfSome result (λ count. take count segment.now ≡ take count other.now) }
{
    let count = min(segment.len(), other.len());
    if count > 0 && segment[..count] == other[..count] {
        return Some(count);
    }
    None
}

/// Returns whether two documents are the same.
fn same_document(first: &Document, second: &Document) -> bool
    ensures { IsTrue result → first.now ≡ second.now }
{
    first.format.as_bytes() == second.format.as_bytes()
        && same_octets(&first.contents, &second.contents)
}

/// Returns whether documents are the same, in the same order.
fn same_documents(first: &[Document], second: &[Document]) -> bool
    ensures { IsTrue result → first.now ≡ second.now }
{
    let mut rest = second;
    for document in first {
        let [next, more @ ..] = rest else {
            return false;
        };
        if !same_document(document, next) {
            return false;
        }
        rest = more;
    }
    rest.is_empty()
}

/// Returns whether the printer at a place of the settings has this name.
fn is_printer(settings: &Settings, printer: PrinterId, name: &Text) -> bool
    ensures { IsTrue result → printer_name settings.now printer ≡ name.now }
{
    name.is(printer_name(settings, printer))
}

/// Returns whether a job was sent as the one that was saved.
fn is_sent_alike(job: &Job, saved: &SavedJob) -> bool
    ensures { IsTrue result → IsSentAlike job.now saved.now }
{
    job.owner.is(saved.owner.as_bytes())
        && job.name.is(saved.name.as_bytes())
        && job.priority.level() == saved.priority.level()
        && same_number(job.impressions, saved.impressions)
        && same_truth(job.held, saved.held)
        && same_truth(job.incoming, saved.incoming)
}

/// Returns whether a job is to be printed as the one that was saved.
fn is_printed_alike(settings: &Settings, needs: &Needs, saved: &SavedJob) -> bool
    ensures { IsTrue result → IsPrintedAlike settings.now needs.now saved.now }
{
    is_printer(settings, needs.printer, &saved.printer)
        && needs.copies == saved.copies
        && same_sides(needs.sides, saved.sides)
        && same_finishings(needs.finishings, saved.finishings)
        && needs.media.is(saved.media.as_bytes())
}

/// Returns whether a job of a server with these settings is the one that was saved, but for its id.
#[tactic(auto, using(crate::proofs::SameJobs::same_job))]
pub(crate) fn is_same(settings: &Settings, spooled: &SpooledJob, saved: &SavedJob) -> bool
    ensures { IsTrue result → saved_of settings.now spooled.now ≡ record saved.now { id = spooled.now.job.id } }
{
    let job = spooled.job();
    is_sent_alike(job, saved)
        && is_printed_alike(settings, &job.needs, saved)
        && same_documents(spooled.documents(), &saved.documents)
}
